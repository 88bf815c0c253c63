//! What is shown of an editor.

use editor::{Editor, Mode, Note, command_of};
use ratatui_core::buffer::CellWidth;
use ratatui_core::layout::{Constraint, Layout, Rect, SplitArea, SplitInto};
use ratatui_core::style::{Style, Stylize};
use ratatui_core::terminal::Frame;
use ratatui_core::text::Line;
use ratatui_events::Event;
use std::alloc::AllocError;
use text_area::{AreaEdit, area_edit_of};
use widget_area::{AreaView, TextAreaWidget};
use widget_field::{Input, cursor_position};

// What is shown: where the view of the text is, and whether the text is changed, which is read anew
// only after an event that may change it.
#[derive(Drop)]
pub struct Screen {
    view: AreaView,
    is_changed: bool,
}

// What is told in the last row.
fn told(note: &Note) -> &str {
    match note {
        Note::None => "^S save  ^Q leave  ^F find  M-R replace  ^G line",
        Note::Saved => "saved",
        Note::NotFound => "not found after the cursor",
        Note::NoLine => "no number of a line",
        Note::NoMemory => "no memory",
        Note::Told(text) => text.as_str(),
    }
}

// Draws the field after a word, and shows the cursor there.
fn draw_prompt(
    editor: &mut Editor,
    word: &str,
    frame: &mut Frame<'_>,
    foot: Rect,
) -> Result<(), AllocError> {
    let columns = Constraint::Length(word.cell_width());
    let layout = Layout::horizontal(editor.alloc, &[columns, Constraint::Fill(1)])?;
    let [left, right]: [Rect; 2] = layout.areas(foot);
    frame.render_widget(Line::raw(editor.alloc, word)?.bold(), left)?;
    frame.render_stateful_widget(Input::new(), right, &mut editor.field)?;
    if let Some(position) = cursor_position(&editor.field) {
        frame.set_cursor_position(position);
    }
    Ok(())
}

// Draws a question.
fn draw_question(
    editor: &Editor,
    question: &str,
    frame: &mut Frame<'_>,
    foot: Rect,
) -> Result<(), AllocError> {
    frame.render_widget(Line::raw(editor.alloc, question)?.bold(), foot)
}

// Whether an event changes neither the text nor what is taken for saved: it only moves the cursor,
// selects or copies.
fn keeps_text(event: &Event) -> bool {
    let edit = area_edit_of(event);
    let is_move = matches!(
        edit,
        Some(AreaEdit::Go(_) | AreaEdit::Select(_) | AreaEdit::Copy)
    );
    is_move && command_of(event).is_none()
}

// Draws the name, the cursor's line and column, whether the text is changed, and what is told.
fn draw_status(
    editor: &Editor,
    is_changed: bool,
    frame: &mut Frame<'_>,
    foot: Rect,
) -> Result<(), AllocError> {
    let (line, column) = editor.area.cursor();
    let line = line.saturating_add(1);
    let column = column.saturating_add(1);
    let changed = if is_changed { " changed" } else { "" };
    let told = told(&editor.note);
    let name = editor.name.as_str();
    let text = format!(in editor.alloc; " {name} {line}:{column}{changed}  {told}")?;
    let line = Line::raw_string(editor.alloc, text)?.reversed();
    frame.render_widget(line, foot)
}

impl Screen {
    // A screen that shows a text from its start on.
    pub fn new() -> Screen {
        Screen {
            view: AreaView::new(),
            is_changed: false,
        }
    }

    // Follows an event that an editor has taken.
    pub fn follow(&mut self, event: &Event, editor: &Editor) {
        if !keeps_text(event) {
            self.is_changed = editor.is_changed();
        }
    }

    // Draws the text of an editor, and in the last row what there is to tell or to type.
    pub fn draw(&mut self, editor: &mut Editor, frame: &mut Frame<'_>) -> Result<(), AllocError> {
        let layout = Layout::vertical(editor.alloc, &[Constraint::Fill(1), Constraint::Length(1)])?;
        let [body, foot]: [Rect; 2] = layout.areas(frame.area());
        editor.set_page(usize::from(body.height.saturating_sub(1)));
        self.draw_text(editor, frame, body)?;
        match editor.mode {
            Mode::Finding => draw_prompt(editor, "Find: ", frame, foot),
            Mode::Seeking => draw_prompt(editor, "Replace: ", frame, foot),
            Mode::Giving => draw_prompt(editor, "By: ", frame, foot),
            Mode::Offering => draw_question(editor, "Replace it? y/n, a: all", frame, foot),
            Mode::GoingTo => draw_prompt(editor, "Line: ", frame, foot),
            Mode::Leaving => draw_question(editor, "Leave without saving? y/n", frame, foot),
            Mode::Replacing => {
                draw_question(editor, "The file changed. Replace it? y/n", frame, foot)
            }
            Mode::Typing | Mode::Found | Mode::Over => {
                draw_status(editor, self.is_changed, frame, foot)
            }
        }
    }

    // Draws the text, and shows the cursor there.
    fn draw_text(
        &mut self,
        editor: &Editor,
        frame: &mut Frame<'_>,
        body: Rect,
    ) -> Result<(), AllocError> {
        let widget = TextAreaWidget::new(&editor.area)
            .line_numbers(Style::new().dim())
            .wrap(true)
            .placeholder("Type a text", Style::new().dim());
        frame.render_stateful_widget(widget, body, &mut self.view)?;
        if let Some(position) = self.view.cursor {
            frame.set_cursor_position(position);
        }
        Ok(())
    }
}
