//! Lines of text as they stand in a script.

ghost use Rattle.std.specs.Prelude.{◌≡◌, ◌++◌, ◌∷◌, [], IfOk, OnOk, OnErr, length};
ghost use Rattle.rtui_text.specs.Text.{raw_line, text_of};
ghost use Rattle.screenplay.specs.Inner.{front_of};

use rtui_text::{Line, Text};
use std::alloc::{AllocError, Global};
use std::marker::Model;

/// The rest of a line.
#[derive(Debug, Drop)]
pub struct LineRest<'a> {
    text: &'a str,
}

impl<'a> Model for LineRest<'a> {
    ghost use Rattle.std.specs.Prelude.{List, ℕ};

    ghost Value = { List ℕ };

    ghost view = { λ rest. rest.text.now };
}

impl<'a> LineRest<'a> {
    pub fn new(text: &'a str) -> LineRest<'a>
        ensures { result ≡ text.now }
    {
        LineRest { text }
    }

    /// Copies the rest.
    pub fn copied(&self) -> LineRest<'a>
        ensures { result ≡ self.now }
    {
        LineRest { text: self.text }
    }

    /// Makes a line of this text.
    ///
    /// # Errors
    ///
    /// `AllocError` if memory is refused.
    pub fn to_line(&self, alloc: Global) -> Result<Line<'a>, AllocError>
        ensures { IfOk result (λ line. line ≡ raw_line self.now) }
    {
        Line::raw(alloc, self.text)
    }
}

// How many rows a screen has at most.
const MOST_ROWS: usize = 65535;

/// A text whose lines stay as they stand in the script until it is drawn.
#[derive(Debug, Drop)]
pub struct RawLines<'a> {
    items: Vec<LineRest<'a>>,
}

impl<'a> Model for RawLines<'a> {
    ghost use Rattle.std.specs.Prelude.{map};
    ghost use Rattle.rtui_text.specs.Text.{TextData, raw_line, text_of};

    ghost Value = { TextData };

    ghost view = { λ lines. text_of (map raw_line lines.items.items) };
}

impl<'a> RawLines<'a> {
    /// Makes a text without lines; takes no memory.
    pub fn new(alloc: Global) -> RawLines<'a>
        ensures { result ≡ text_of [] }
    {
        RawLines {
            items: Vec::new(alloc),
        }
    }

    /// Returns how many lines there are.
    pub fn len(&self) -> usize
        ensures { result ≡ length self.now.lines }
    {
        self.items.len()
    }

    /// Appends a line below the others.
    ///
    /// # Errors
    ///
    /// `AllocError` if memory is refused; nothing has changed then.
    pub fn push(&mut self, line: LineRest<'a>) -> Result<(), AllocError>
        ensures ok { OnOk result (self.new
            ≡ record self.old { lines = self.old.lines ++ raw_line line.entry ∷ [] }) }
        ensures err { OnErr result (self.new ≡ self.old) }
    {
        self.items.push(line)?;
        Ok(())
    }

    /// Makes the text, as far as a screen can have rows for it.
    ///
    /// # Errors
    ///
    /// `AllocError` if memory is refused.
    pub fn to_text(&self, alloc: Global) -> Result<Text<'a>, AllocError>
        ensures { IfOk result (λ text. text ≡ front_of self.now) }
    {
        let lines = self.items.as_slice();
        let count = lines.len().min(MOST_ROWS);
        let mut text = Text::default_in(alloc);
        for line in &lines[..count] {
            text.push_line(line.to_line(alloc)?)?;
        }
        Ok(text)
    }
}
