//! Rows as they are written.

use ratatui_core::buffer::Buffer;
use ratatui_core::layout::Rect;
use ratatui_core::text::{Line, Text};
use ratatui_core::widgets::Widget;
use std::alloc::{AllocError, Global};

// What stands in each row of a buffer before.
const GROUND: &str = "abcdefghijklmnopqrstuvwx";

// A row: a widget, the size of a buffer, words and a text.
#[derive(Drop)]
pub struct Row<'a> {
    pub name: &'a str,
    width: u16,
    height: u16,
    pub words: &'a str,
    pub text: &'a str,
}

// A number, or 0.
pub fn number(text: &str) -> u16 {
    match text.parse::<u16>() {
        Ok(number) => number,
        Err(_) => 0,
    }
}

// Four numbers, with a comma between each two.
pub fn numbers(text: &str) -> Option<Rect> {
    let (x, rest) = text.split_once(',')?;
    let (y, rest) = rest.split_once(',')?;
    let (width, height) = rest.split_once(',')?;
    Some(Rect {
        x: number(x),
        y: number(y),
        width: number(width),
        height: number(height),
    })
}

impl<'a> Row<'a> {
    // Reads a row.
    pub fn read(line: &'a str) -> Option<Row<'a>> {
        let (name, rest) = line.split_once('\t')?;
        let (size, rest) = rest.split_once('\t')?;
        let (words, text) = rest.split_once('\t')?;
        let (width, height) = size.split_once('x')?;
        Some(Row {
            name,
            width: number(width),
            height: number(height),
            words,
            text,
        })
    }

    // A buffer of letters.
    pub fn buffer(&self, alloc: Global) -> Result<Buffer, AllocError> {
        let area = Rect::new(0, 0, self.width, self.height);
        let mut buffer = Buffer::empty(alloc, area)?;
        let mut ground = Text::default_in(alloc);
        for _ in 0..self.height {
            ground.push_line(Line::raw(alloc, GROUND)?)?;
        }
        ground.render(area, &mut buffer)?;
        Ok(buffer)
    }

    // The area of the widget.
    pub fn area(&self) -> Rect {
        for word in self.words.split(' ') {
            if let Some(("at", place)) = word.split_once(':') {
                return numbers(place).unwrap_or(Rect::ZERO);
            }
        }
        Rect::new(0, 0, self.width, self.height)
    }
}
