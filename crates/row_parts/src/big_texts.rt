//! Rows of big texts.

use crate::rows::Row;
use ratatui_core::buffer::Buffer;
use ratatui_core::style::{Color, Style};
use ratatui_core::text::{Line, Span};
use ratatui_core::widgets::Widget;
use std::alloc::{AllocError, Global};
use widget_big_text::{BigText, PixelSize};
use widget_boxes::Block;

// A line, with what its first character says.
fn line_of<'a>(alloc: Global, text: &'a str) -> Result<Line<'a>, AllocError> {
    let Some((sign, rest)) = text.split_at_checked(1) else {
        return Line::raw(alloc, text);
    };
    match sign {
        "<" => Ok(Line::raw(alloc, rest)?.left_aligned()),
        ">" => Ok(Line::raw(alloc, rest)?.right_aligned()),
        "*" => Line::styled(alloc, rest, Style::new().bg(Color::Green)),
        "_" => Line::from_span(alloc, Span::styled(rest, Style::new().fg(Color::Green))),
        _ => Line::raw(alloc, text),
    }
}

// The lines of a row.
fn lines_of<'a>(alloc: Global, lines: &'a str) -> Result<Vec<Line<'a>>, AllocError> {
    let mut made = Vec::new(alloc);
    if lines == "-" {
        return Ok(made);
    }
    for line in lines.split('/') {
        made.push(line_of(alloc, line)?)?;
    }
    Ok(made)
}

// A big text with what a word says.
fn text_with<'a>(alloc: Global, text: BigText<'a>, word: &str) -> BigText<'a> {
    match word {
        "half-height" => text.pixel_size(PixelSize::HalfHeight),
        "half-width" => text.pixel_size(PixelSize::HalfWidth),
        "quadrant" => text.pixel_size(PixelSize::Quadrant),
        "center" => text.centered(),
        "right" => text.right_aligned(),
        "red" => text.style(Style::new().bg(Color::Red)),
        "box" => text.block(Block::bordered(alloc)),
        _ => text,
    }
}

// Renders the big text of a row.
pub fn render(alloc: Global, row: &Row<'_>, buffer: &mut Buffer) -> Result<String, AllocError> {
    let mut text = BigText::new(lines_of(alloc, row.text)?);
    for word in row.words.split(' ') {
        text = text_with(alloc, text, word);
    }
    text.render(row.area(), buffer)?;
    Ok(String::new(alloc))
}
