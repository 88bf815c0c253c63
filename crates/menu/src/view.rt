//! What the menu shows.

use crate::menu::{Menu, Mode};
use ratatui_core::layout::{Constraint, Layout, Rect, SplitArea, SplitInto};
use ratatui_core::style::{Style, Stylize};
use ratatui_core::terminal::Frame;
use ratatui_core::text::{Line, Text};
use ratatui_widgets::{Block, Clear, List, ListItem, Paragraph, Wrap};
use std::alloc::{AllocError, Global};
use widget_field::{Input, cursor_position};

impl Menu {
    pub fn draw(&mut self, frame: &mut Frame<'_>) -> Result<(), AllocError> {
        let layout = Layout::vertical(self.alloc, &[Constraint::Fill(1), Constraint::Length(1)])?;
        let [body, foot]: [Rect; 2] = layout.areas(frame.area());
        self.draw_list(frame, body)?;
        let help = Line::raw(self.alloc, "j k move   a add   d remove   q end")?.dim();
        frame.render_widget(help, foot)?;
        match self.mode {
            Mode::Adding => self.draw_field(frame),
            Mode::Asking => self.draw_question(frame),
            Mode::Choosing | Mode::Over => Ok(()),
        }
    }

    fn draw_list(&mut self, frame: &mut Frame<'_>, area: Rect) -> Result<(), AllocError> {
        let alloc = self.alloc;
        let mut items = Vec::new(alloc);
        for entry in self.entries.iter() {
            items.push(ListItem::raw(alloc, entry.as_str())?)?;
        }
        let list = List::new(items)
            .block(Block::bordered(alloc).title_raw("To buy")?)
            .highlight_symbol(Line::raw(alloc, "> ")?)
            .highlight_style(Style::new().reversed());
        frame.render_stateful_widget(list, area, &mut self.list)
    }

    fn draw_field(&mut self, frame: &mut Frame<'_>) -> Result<(), AllocError> {
        let area = popup(frame.area());
        frame.render_widget(Clear, area)?;
        let block = Block::bordered(self.alloc)
            .title_raw("New entry")?
            .on_blue();
        let input = Input::new().block(block);
        frame.render_stateful_widget(input, area, &mut self.field)?;
        if let Some(position) = cursor_position(&self.field) {
            frame.set_cursor_position(position);
        }
        Ok(())
    }

    fn draw_question(&self, frame: &mut Frame<'_>) -> Result<(), AllocError> {
        let area = popup(frame.area());
        frame.render_widget(Clear, area)?;
        let name = self.selected().unwrap_or("");
        frame.render_widget(question(self.alloc, name)?, area)
    }
}

// A box in the middle.
fn popup(area: Rect) -> Rect {
    area.centered(Constraint::Length(40), Constraint::Length(4))
}

// The question whether an entry is to be removed.
fn question<'a>(alloc: Global, name: &str) -> Result<Paragraph<'a>, AllocError> {
    let text = format!(in alloc; "Remove {name}? y/n")?;
    let block = Block::bordered(alloc).title_raw("Remove")?.on_red();
    let text = Text::raw_string(alloc, text)?;
    Ok(Paragraph::new(text).wrap(Wrap { trim: true }).block(block))
}
