//! A text parted into what it says, and how that is styled.

ghost use Rattle.std.specs.Prelude.{◌≡◌, is_some, IfOk};
ghost use Rattle.pager.specs.Parted.{is_sign, has_signs};

use crate::sgr::{sequence_at, styled_by};
use crate::styles::{Run, Styles};
use ratatui_core::style::{Modifier, Style};
use std::alloc::{AllocError, Global};
use std::mem;

/// What a text says, as far as it is read, and the styles of the line that is read.
#[derive(Drop)]
struct Parting {
    alloc: Global,
    text: String,
    // Where the line begins in it.
    from: usize,
    // The runs of the line that have ended, and the style of the one that hasn't.
    runs: Vec<Run>,
    style: Style,
    // The last character, which may still be struck over.
    held: Option<(char, Style)>,
}

// The style of a character over which another one is struck, and which of them is shown: bold if they
// are the same, and underlined if one is an underscore.
fn struck(first: char, second: char, style: Style) -> Option<(char, Style)> {
    if first == second {
        Some((first, style.add_modifier(Modifier::BOLD)))
    } else if first == '_' {
        Some((second, style.add_modifier(Modifier::UNDERLINED)))
    } else if second == '_' {
        Some((first, style.add_modifier(Modifier::UNDERLINED)))
    } else {
        None
    }
}

impl Parting {
    fn new(alloc: Global) -> Parting {
        Parting {
            alloc,
            text: String::new(alloc),
            from: 0,
            runs: Vec::new(alloc),
            style: Style::new(),
            held: None,
        }
    }

    // Ends the run, and begins one in another style.
    fn turn(&mut self, style: Style) -> Result<(), AllocError> {
        if self.style != style {
            let end = self.text.len().saturating_sub(self.from);
            if end > 0 {
                let run = Run {
                    end,
                    style: self.style,
                };
                self.runs.push(run)?;
            }
            self.style = style;
        }
        Ok(())
    }

    // Writes the character that is held.
    fn release(&mut self) -> Result<(), AllocError> {
        if let Some((character, style)) = self.held {
            self.turn(style)?;
            self.text.push(character)?;
            self.held = None;
        }
        Ok(())
    }

    // Takes another character.
    fn take(&mut self, character: char, style: Style) -> Result<(), AllocError> {
        self.release()?;
        self.held = Some((character, style));
        Ok(())
    }

    // Strikes a character over the one that is held; or else takes both the backspace and it.
    fn strike(&mut self, character: char, style: Style) -> Result<(), AllocError> {
        if let Some((first, under)) = self.held {
            if let Some(both) = struck(first, character, under) {
                self.held = Some(both);
                return Ok(());
            }
        }
        self.take('\x08', style)?;
        self.take(character, style)
    }

    // Reads a line.
    fn read(&mut self, line: &str) -> Result<(), AllocError> {
        let mut style = Style::new();
        let mut next = 0usize;
        let mut is_back = false;
        for (at, character) in line.char_indices() {
            if at < next {
                continue;
            }
            if let Some((length, numbers)) = sequence_at(line.get(at..).unwrap_or("")) {
                style = styled_by(style, numbers.as_slice());
                next = at.saturating_add(length);
            } else if is_back {
                is_back = false;
                self.strike(character, style)?;
            } else if character == '\x08' && self.held.is_some() {
                is_back = true;
            } else {
                self.take(character, style)?;
            }
        }
        if is_back {
            self.take('\x08', style)?;
        }
        self.release()
    }

    // Ends the line, and gives its runs.
    fn end_line(&mut self) -> Result<Vec<Run>, AllocError> {
        self.turn(Style::new())?;
        self.text.push('\n')?;
        self.from = self.text.len();
        Ok(mem::replace(&mut self.runs, Vec::new(self.alloc)))
    }
}

// Whether a byte is an escape or a backspace.
fn is_sign(byte: u8) -> bool
    ensures { result ≡ is_sign byte }
{
    byte == b'\x1b' || byte == b'\x08'
}

// Whether an escape or a backspace stands in a text. No byte ends the loop early, so that many are
// tested at once; inlined, the loop is compiled to one that tests byte by byte.
#[inline(never)]
fn has_signs(text: &str) -> bool
    ensures { result ≡ has_signs text.now }
{
    let mut found = false;
    for byte in text.as_bytes() {
        found |= is_sign(*byte);
    }
    found
}

/// Returns what a text says and the runs of styles of its lines, if it has an escape or a
/// backspace.
///
/// A sequence of SGR, as `ESC [ 1 ; 31 m`, styles what follows it in its line. A character struck
/// over itself is bold, and one over an underscore or under one is underlined, as in pages of `man`.
/// None of these stands in what the text says; each other escape and backspace does.
///
/// # Errors
///
/// `AllocError` if memory is refused.
pub fn parted(alloc: Global, text: &str) -> Result<Option<(String, Styles)>, AllocError>
    ensures { IfOk result (λ both. is_some both ≡ has_signs text.now) }
{
    if !has_signs(text) {
        return Ok(None);
    }
    let mut parting = Parting::new(alloc);
    let mut styles = Styles::new(alloc);
    for line in text.lines() {
        parting.read(line)?;
        styles.push(parting.end_line()?)?;
    }
    Ok(Some((parting.text, styles)))
}
