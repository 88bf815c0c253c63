//! What a frame shows.
use crate::boxes::Border;
use crate::dashboard;
use crate::texts::{SENTENCE, wide};
use ratatui_core::buffer::Buffer;
use ratatui_core::layout::Rect;
use ratatui_core::style::{Color, Modifier, Style};
use ratatui_core::text::Span;
use ratatui_core::widgets::Widget;
use std::alloc::{AllocError, Global};

/// What a round paints over a whole buffer.
#[derive(Debug, Clone, Copy, PartialEq, Eq)]
pub enum Picture {
    Nothing,
    /// The letter of the round in each cell.
    Letter,
    /// The letter of the round in each hundredth cell, and always the same in the others.
    Dots,
    /// Wide characters in each row, by the round.
    Wide,
    /// A coloured word in each six columns, by the round.
    Spans,
    /// A sentence in each row, from its first or its second letter on by the round.
    Sentence,
    /// The same sentence with another sign in each sixtieth cell by the round.
    Few,
    /// The same sentence in colours by the round, and each third word bold on blue.
    Colors,
    /// Boxes side by side, or the blanks in which they stood, by the round.
    Boxes,
    /// A paragraph, a list and gauges, by the round.
    Dashboard,
}

/// A picture, and the texts that it is made of.
#[derive(Drop)]
pub struct Paint {
    picture: Picture,
    even: String,
    odd: String,
}

/// Returns the letter of a round.
pub fn letter(round: u64) -> char {
    char::from(b'a' + (round % 26) as u8)
}

/// Sets each cell to one character.
pub fn fill(alloc: Global, buffer: &mut Buffer, ch: char) -> Result<(), AllocError> {
    for cell in buffer.cells_mut().iter_mut() {
        cell.set_char(alloc, ch)?;
    }
    Ok(())
}

/// Sets the first cell's colour, so that no two rounds are the same.
pub fn touch(buffer: &mut Buffer, round: u64) {
    if let Some(cell) = buffer.cells_mut().first_mut() {
        cell.set_fg(Color::Indexed((round % 251) as u8));
    }
}

// Sets each cell: each hundredth one to the round's letter, the others always to the same.
fn dot(alloc: Global, buffer: &mut Buffer, round: u64) -> Result<(), AllocError> {
    for (k, cell) in buffer.cells_mut().iter_mut().enumerate() {
        let ch = if k % 100 == 0 {
            letter(round)
        } else {
            char::from(b'A' + (k % 26) as u8)
        };
        cell.set_char(alloc, ch)?;
    }
    Ok(())
}

/// Paints a text in each row.
pub fn texts(buffer: &mut Buffer, text: &str, style: Style) -> Result<(), AllocError> {
    let area = *buffer.area();
    for row in area.rows() {
        let own = *buffer.area();
        if own.top() <= row.y && row.y < own.bottom() {
            buffer.set_string(own.x, row.y, text, style)?;
        }
    }
    Ok(())
}

// Renders a word in each six columns of each row.
fn spans(buffer: &mut Buffer, word: &str) -> Result<(), AllocError> {
    let Rect { width, height, .. } = *buffer.area();
    for y in 0..height {
        for k in 0..width / 6 {
            let x = k * 6;
            let color = ((usize::from(x) + usize::from(y)) % 251) as u8;
            let style = Style::new().fg(Color::Indexed(color)).bg(Color::Black);
            Span::styled(word, style).render(Rect::new(x, y, 6, 1), buffer)?;
        }
    }
    Ok(())
}

// Gives the words of each row colours by the round.
fn colors(buffer: &mut Buffer, round: u64) {
    for (k, cell) in buffer.cells_mut().iter_mut().enumerate() {
        let word = (k / 6) as u64 + round % 12;
        cell.fg = match word % 4 {
            0 => Color::Red,
            1 => Color::LightGreen,
            2 => Color::Indexed(208),
            _ => Color::Rgb(90, 120, 250),
        };
        if word % 3 == 0 {
            cell.bg = Color::Blue;
            cell.modifier = Modifier::BOLD;
        }
    }
}

// Sets a sign of the round in cells that lie apart.
fn few(alloc: Global, buffer: &mut Buffer, round: u64) -> Result<(), AllocError> {
    let sign = if round % 2 == 0 { '#' } else { '+' };
    for (k, cell) in buffer.cells_mut().iter_mut().enumerate() {
        if k % 60 == 30 {
            cell.set_char(alloc, sign)?;
        }
    }
    Ok(())
}

impl Paint {
    pub fn new(alloc: Global, picture: Picture) -> Result<Paint, AllocError> {
        Ok(Paint {
            picture,
            even: wide(alloc, 0)?,
            odd: wide(alloc, 1)?,
        })
    }

    /// Paints the picture of a round.
    pub fn paint(&self, alloc: Global, buffer: &mut Buffer, round: u64) -> Result<(), AllocError> {
        match self.picture {
            Picture::Nothing => Ok(()),
            Picture::Letter => fill(alloc, buffer, letter(round)),
            Picture::Dots => dot(alloc, buffer, round),
            Picture::Wide if round % 2 == 0 => texts(buffer, self.even.as_str(), Style::new()),
            Picture::Wide => texts(buffer, self.odd.as_str(), Style::new()),
            Picture::Spans => match round % 3 {
                0 => spans(buffer, "alpha"),
                1 => spans(buffer, "bravo"),
                _ => spans(buffer, "delta"),
            },
            Picture::Sentence if round % 2 == 0 => texts(buffer, SENTENCE, Style::new()),
            Picture::Sentence => texts(buffer, SENTENCE.get(1..).unwrap_or(""), Style::new()),
            Picture::Few => {
                texts(buffer, SENTENCE, Style::new())?;
                few(alloc, buffer, round)
            }
            Picture::Colors => {
                texts(buffer, SENTENCE, Style::new())?;
                colors(buffer, round);
                Ok(())
            }
            Picture::Boxes if round % 2 == 0 => Border::apart().grid(alloc, buffer),
            Picture::Boxes => Ok(()),
            Picture::Dashboard => dashboard::paint(alloc, buffer, round),
        }
    }
}

/// Makes a buffer of this size with the first picture.
pub fn painted(
    alloc: Global,
    width: u16,
    height: u16,
    picture: Picture,
) -> Result<Buffer, AllocError> {
    let mut buffer = Buffer::empty(alloc, Rect::new(0, 0, width, height))?;
    Paint::new(alloc, picture)?.paint(alloc, &mut buffer, 0)?;
    Ok(buffer)
}
