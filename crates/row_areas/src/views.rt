//! Rows of views: a text in a size, and what it shows.

use crate::escapes::unescaped;
use crate::shown::{cursor_in, marks_in, rows_in};
use ratatui_core::buffer::Buffer;
use ratatui_core::layout::Rect;
use ratatui_core::style::{Style, Stylize};
use ratatui_core::widgets::StatefulWidget;
use std::alloc::{AllocError, Global};
use text_area::{Extent, Move, TextArea};
use widget_area::{AreaView, TextAreaWidget};
use widget_boxes::Block;

// A row as it is written.
#[derive(Drop)]
pub struct View<'a> {
    width: u16,
    height: u16,
    words: &'a str,
    text: &'a str,
    wanted: &'a str,
}

// An area of a text with the cursor at its mark.
fn area_of(alloc: Global, text: &str) -> Result<TextArea, AllocError> {
    let (before, after) = match text.split_once('|') {
        Some(parts) => parts,
        None => (text, ""),
    };
    let whole = unescaped(alloc, after)?;
    let mut area = TextArea::from_text(alloc, whole)?;
    let front = unescaped(alloc, before)?;
    if front.as_str().contains('\u{1b}') {
        area = TextArea::from_text(alloc, front)?;
        area.go(Move::Right(Extent::Text));
    } else {
        area.insert_str(front.as_str())?;
    }
    Ok(area)
}

// A number, or 0.
fn number(text: &str) -> u16 {
    match text.parse::<u16>() {
        Ok(number) => number,
        Err(_) => 0,
    }
}

// A widget with what a word says.
fn with_word<'a>(alloc: Global, widget: TextAreaWidget<'a>, word: &'a str) -> TextAreaWidget<'a> {
    match word.split_once(':') {
        Some(("tab", columns)) => widget.tab_width(number(columns)),
        Some(("ask", text)) => widget.placeholder(text, Style::new()),
        Some(_) => widget,
        None => match word {
            "numbers" => widget.line_numbers(Style::new()),
            "box" => widget.block(Block::bordered(alloc)),
            "wrap" => widget.wrap(true),
            "line" => widget.cursor_line_style(Style::new().underlined()),
            _ => widget,
        },
    }
}

// Selects so many graphemes before the cursor, which stands before them then.
fn select_before(area: &mut TextArea, count: u16) {
    area.select();
    for _ in 0..count {
        area.go(Move::Left(Extent::Grapheme));
    }
}

// Selects in an area what a word says, if it says so.
fn select_if(area: &mut TextArea, word: &str) {
    if let Some(("select", count)) = word.split_once(':') {
        select_before(area, number(count));
    }
}

// A view with what a word says.
fn view_with(view: AreaView, word: &str) -> AreaView {
    match word.split_once(':') {
        Some(("top", line)) => AreaView {
            top: usize::from(number(line)),
            ..view
        },
        Some(("row", row)) => AreaView {
            row: usize::from(number(row)),
            ..view
        },
        Some(("left", column)) => AreaView {
            left: usize::from(number(column)),
            ..view
        },
        _ => view,
    }
}

impl<'a> View<'a> {
    // Reads a row.
    pub fn read(line: &'a str) -> Option<View<'a>> {
        let (size, rest) = line.split_once('\t')?;
        let (words, rest) = rest.split_once('\t')?;
        let (text, wanted) = rest.split_once('\t')?;
        let (width, height) = size.split_once('x')?;
        Some(View {
            width: number(width),
            height: number(height),
            words,
            text,
            wanted,
        })
    }

    // Whether this is what the row wants.
    pub fn wants(&self, shown: &str) -> bool {
        self.wanted == shown
    }

    // The symbols of a buffer, or its styles if these are to be shown.
    fn picture(&self, alloc: Global, buffer: &Buffer) -> Result<String, AllocError> {
        if self.words.contains("styles") {
            marks_in(alloc, buffer)
        } else {
            rows_in(alloc, buffer)
        }
    }

    // What the text shows, and where its cursor stands.
    pub fn shown(&self, alloc: Global) -> Result<String, AllocError> {
        let mut area = area_of(alloc, self.text)?;
        for word in self.words.split(' ') {
            select_if(&mut area, word);
        }
        let mut widget = TextAreaWidget::new(&area);
        let mut view = AreaView::new();
        for word in self.words.split(' ') {
            widget = with_word(alloc, widget, word);
            view = view_with(view, word);
        }
        let part = Rect::new(0, 0, self.width, self.height);
        let mut buffer = Buffer::empty(alloc, part)?;
        StatefulWidget::render(&widget, part, &mut buffer, &mut view)?;
        let rows = self.picture(alloc, &buffer)?;
        let cursor = cursor_in(alloc, view)?;
        format!(in alloc; "{rows}\t{cursor}")
    }
}
