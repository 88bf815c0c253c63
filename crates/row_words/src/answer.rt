//! What calls answer, as text.
use crate::error::RowError;
use ratatui_core::buffer::Cell;
use ratatui_core::layout::{Margin, Offset, Position, Rect, Size};
use std::alloc::{AllocError, Global};
use std::fmt::Display;

/// What stands in an answer.
pub trait Show {
    /// Writes the value after a text.
    fn show(&self, out: &mut String) -> Result<(), AllocError>;
}

/// The answers of the calls of a row.
#[derive(Drop)]
pub struct Answer {
    pub text: String,
}

impl Answer {
    pub fn new(alloc: Global) -> Answer {
        Answer {
            text: String::new(alloc),
        }
    }

    /// Returns whether nothing was answered.
    pub fn is_empty(&self) -> bool {
        self.text.is_empty()
    }

    /// Adds the answers of a call.
    pub fn join(&mut self, answer: &Answer) -> Result<(), RowError> {
        if !answer.is_empty() {
            self.part()?;
            self.text.push_str(answer.text.as_str())?;
        }
        Ok(())
    }

    // Parts the next answer from the former one.
    fn part(&mut self) -> Result<(), AllocError> {
        if self.text.is_empty() {
            Ok(())
        } else {
            self.text.push_str(", ")
        }
    }

    /// Adds a value.
    pub fn add<T: Show + Drop>(&mut self, value: T) -> Result<(), RowError> {
        self.put(&value)
    }

    /// Adds a value that is lent.
    pub fn put<T: Show>(&mut self, value: &T) -> Result<(), RowError> {
        self.part()?;
        value.show(&mut self.text)?;
        Ok(())
    }

    /// Adds a cell that is given, after its column and row.
    pub fn put_update(&mut self, x: u16, y: u16, cell: &Cell) -> Result<(), RowError> {
        self.part()?;
        write!(self.text, "{x} {y} ")?;
        cell.show(&mut self.text)?;
        Ok(())
    }

    /// Adds a word.
    pub fn word(&mut self, word: &str) -> Result<(), RowError> {
        self.part()?;
        self.text.push_str(word)?;
        Ok(())
    }

    /// Adds what a call was refused for.
    pub fn refused<T: Display>(&mut self, error: &T) -> Result<(), RowError> {
        self.part()?;
        write!(self.text, "refused: {error}")?;
        Ok(())
    }

    /// Adds what a call answered, or what it was refused for.
    pub fn told<T: Show + Drop, E: Display + Drop>(
        &mut self,
        outcome: Result<T, E>,
    ) -> Result<(), RowError> {
        match outcome {
            Ok(value) => self.put(&value),
            Err(error) => self.refused(&error),
        }
    }

    /// Adds what is printed of a value, as a text between quotes, and says so if its alternate form
    /// (`{:#}`) is another text.
    pub fn print<T: Display>(&mut self, alloc: Global, value: &T) -> Result<(), RowError> {
        let printed = value.to_string(alloc)?;
        self.part()?;
        if format!(in alloc; "{value:#}")? != printed {
            self.text.push_str("alternate: ")?;
        }
        quote(printed.as_str(), &mut self.text)?;
        Ok(())
    }
}

// Whether a character is written by its number.
fn is_numbered(ch: char) -> bool {
    ch.is_control()
        || matches!(
            ch,
            '\u{ad}'
                | '\u{180e}'
                | '\u{200b}'..='\u{200f}'
                | '\u{2060}'
                | '\u{fe00}'..='\u{fe0f}'
                | '\u{feff}'
        )
}

fn escape(ch: char, out: &mut String) -> Result<(), AllocError> {
    match ch {
        '"' => out.push_str("\\\""),
        '\\' => out.push_str("\\\\"),
        '\n' => out.push_str("\\n"),
        '\t' => out.push_str("\\t"),
        _ => {
            if is_numbered(ch) {
                let number = u32::from(ch);
                write!(out, "\\u{{{number:x}}}")
            } else {
                out.push(ch)
            }
        }
    }
}

/// Writes a text with its control characters and invisible ones by their numbers.
pub fn escaped(text: &str, out: &mut String) -> Result<(), AllocError> {
    for ch in text.chars() {
        escape(ch, out)?;
    }
    Ok(())
}

/// Writes a text between quotes.
pub fn quote(text: &str, out: &mut String) -> Result<(), AllocError> {
    out.push('"')?;
    escaped(text, out)?;
    out.push('"')
}

impl Show for &str {
    fn show(&self, out: &mut String) -> Result<(), AllocError> {
        quote(self, out)
    }
}

impl Show for bool {
    fn show(&self, out: &mut String) -> Result<(), AllocError> {
        write!(out, "{self}")
    }
}

impl Show for i32 {
    fn show(&self, out: &mut String) -> Result<(), AllocError> {
        write!(out, "{self}")
    }
}

impl Show for u16 {
    fn show(&self, out: &mut String) -> Result<(), AllocError> {
        write!(out, "{self}")
    }
}

impl Show for u32 {
    fn show(&self, out: &mut String) -> Result<(), AllocError> {
        write!(out, "{self}")
    }
}

impl Show for usize {
    fn show(&self, out: &mut String) -> Result<(), AllocError> {
        write!(out, "{self}")
    }
}

impl<T: Show> Show for Option<T> {
    fn show(&self, out: &mut String) -> Result<(), AllocError> {
        match self {
            Some(value) => value.show(out),
            None => out.push_str("none"),
        }
    }
}

impl Show for Rect {
    fn show(&self, out: &mut String) -> Result<(), AllocError> {
        let (x, y, width, height) = (self.x, self.y, self.width, self.height);
        write!(out, "{x} {y} {width} {height}")
    }
}

impl Show for Position {
    fn show(&self, out: &mut String) -> Result<(), AllocError> {
        let (x, y) = (self.x, self.y);
        write!(out, "{x} {y}")
    }
}

impl Show for (u16, u16) {
    fn show(&self, out: &mut String) -> Result<(), AllocError> {
        let (x, y) = *self;
        write!(out, "{x} {y}")
    }
}

impl Show for Size {
    fn show(&self, out: &mut String) -> Result<(), AllocError> {
        let (width, height) = (self.width, self.height);
        write!(out, "{width} {height}")
    }
}

impl Show for Margin {
    fn show(&self, out: &mut String) -> Result<(), AllocError> {
        let (horizontal, vertical) = (self.horizontal, self.vertical);
        write!(out, "{horizontal} {vertical}")
    }
}

impl Show for Offset {
    fn show(&self, out: &mut String) -> Result<(), AllocError> {
        let (x, y) = (self.x, self.y);
        write!(out, "{x} {y}")
    }
}
