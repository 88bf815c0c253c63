//! Rows of popups.

use crate::rows::{Row, numbers};
use ratatui_core::buffer::Buffer;
use ratatui_core::layout::Rect;
use ratatui_core::style::{Color, Style};
use ratatui_core::text::{Line, Text};
use ratatui_core::widgets::Widget;
use std::alloc::{AllocError, Global};
use widget_boxes::{Block, Borders, Padding};
use widget_popup::Popup;

// The lines of a row.
fn lines_of<'a>(alloc: Global, lines: &'a str) -> Result<Text<'a>, AllocError> {
    let mut text = Text::default_in(alloc);
    if lines == "-" {
        return Ok(text);
    }
    for line in lines.split('/') {
        text.push_line(Line::raw(alloc, line)?)?;
    }
    Ok(text)
}

// A text with what a word says.
fn text_with<'a>(text: Text<'a>, word: &str) -> Text<'a> {
    match word {
        "center" => text.centered(),
        "right" => text.right_aligned(),
        "green" => text.style(Style::new().bg(Color::Green)),
        _ => text,
    }
}

// The space of a word.
fn padding(word: &str) -> Padding {
    let Rect {
        x,
        y,
        width,
        height,
    } = numbers(word).unwrap_or(Rect::ZERO);
    Padding::new(x, y, width, height)
}

// A popup with what a word says.
fn popup_with<'a>(alloc: Global, popup: Popup<'a>, word: &'a str) -> Result<Popup<'a>, AllocError> {
    Ok(match word.split_once(':') {
        Some(("title", text)) => popup.block(Block::bordered(alloc).title_raw(text)?),
        Some(("boxpad", space)) => popup.block(Block::bordered(alloc).padding(padding(space))),
        Some(_) => popup,
        None => match word {
            "box" => popup.block(Block::bordered(alloc)),
            "top" => popup.block(Block::new(alloc).borders(Borders::TOP)),
            "red" => popup.style(Style::new().bg(Color::Red)),
            "blue" => popup.style(Style::new().bg(Color::Blue)),
            _ => popup,
        },
    })
}

// The popup of a row.
fn popup_of<'a>(alloc: Global, row: &Row<'a>) -> Result<Popup<'a>, AllocError> {
    let mut text = lines_of(alloc, row.text)?;
    for word in row.words.split(' ') {
        text = text_with(text, word);
    }
    let mut popup = Popup::new(text);
    for word in row.words.split(' ') {
        popup = popup_with(alloc, popup, word)?;
    }
    Ok(popup)
}

// Renders the popup of a row; where it stands, and its text.
pub fn render(alloc: Global, row: &Row<'_>, buffer: &mut Buffer) -> Result<String, AllocError> {
    let popup = popup_of(alloc, row)?;
    let area = popup.area(row.area());
    let inner = popup.inner(row.area());
    popup.render(row.area(), buffer)?;
    format!(in alloc; "area {area}, text {inner}")
}
