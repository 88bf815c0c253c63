//! The size of the terminal: from the words, the environment, or the terminal itself.

use crate::error::PagerError;
use ratatui_core::layout::Size;
use ratatui_events::Event;
use ratatui_input::Decoder;
use std::env;
use std::io::{self, Read, Write};

/// What asks a terminal where its last column and row are, and leaves the cursor where it is.
const ASKING: &str = "\x1b7\x1b[9999;9999H\x1b[6n\x1b8";

/// How many bytes and reads that find nothing an answer may take: a second of them.
const PATIENCE: u32 = 64;

/// The columns and rows that words say.
#[derive(Debug, Clone, Copy, PartialEq, Eq)]
pub struct Given {
    pub columns: Option<u16>,
    pub rows: Option<u16>,
}

// A number of columns or rows that a variable says.
fn number_in(rt: &HostRuntime, variable: &str) -> Option<u16> {
    let text = env::var(rt, variable).ok()?;
    let number: u16 = text.as_str().parse().ok()?;
    (number > 0).then_some(number)
}

// The size that a terminal tells on a reader, if it does in time.
fn told_size<R: Read>(keys: &mut R) -> io::Result<Option<Size>> {
    let mut decoder = Decoder::new();
    let mut buf = [0u8; 1];
    for _ in 0..PATIENCE {
        if keys.read(&mut buf)? == 0 {
            continue;
        }
        if let Some(Event::Position(column, row)) = decoder.feed(buf[0]).event {
            return Ok(Some(Size {
                width: column.saturating_add(1),
                height: row.saturating_add(1),
            }));
        }
    }
    Ok(None)
}

// Asks a terminal for its size.
fn asked_size<R: Read, W: Write>(keys: &mut R, writer: &mut W) -> Result<Option<Size>, PagerError> {
    writer
        .write_all(ASKING.as_bytes())
        .map_err(PagerError::Write)?;
    writer.flush().map_err(PagerError::Write)?;
    told_size(keys).map_err(PagerError::Keys)
}

/// Returns the size of the terminal: each number is the word's, or else the variable's; if one is
/// unknown, it is what the terminal tells, or else 80 columns and 24 rows.
pub fn size_for<R: Read, W: Write>(
    rt: &HostRuntime,
    given: Given,
    keys: &mut R,
    is_terminal: bool,
    writer: &mut W,
) -> Result<Size, PagerError> {
    let columns = given.columns.or_else(|| number_in(rt, "COLUMNS"));
    let rows = given.rows.or_else(|| number_in(rt, "LINES"));
    if let (Some(width), Some(height)) = (columns, rows) {
        return Ok(Size { width, height });
    }
    let mut told = None;
    if is_terminal {
        told = asked_size(keys, writer)?;
    }
    match told {
        Some(size) => Ok(size),
        None => Ok(Size {
            width: 80,
            height: 24,
        }),
    }
}
