//! Buffers as rows of symbols.
use crate::answer::{Show, escaped};
use crate::cells::look_words;
use ratatui_core::buffer::{Buffer, Cell};
use ratatui_core::layout::{Position, Rect};
use std::alloc::AllocError;
use std::mem;

// Writes the symbol of a cell, in braces if it isn't one character.
fn put_symbol(cell: &Cell, out: &mut String) -> Result<(), AllocError> {
    let symbol = cell.symbol();
    if symbol.chars().count() == 1 {
        return escaped(symbol, out);
    }
    out.push('{')?;
    escaped(symbol, out)?;
    out.push('}')
}

/// Writes cells between bars.
pub fn put_row(cells: &[Cell], out: &mut String) -> Result<(), AllocError> {
    out.push('|')?;
    for cell in cells {
        put_symbol(cell, out)?;
    }
    out.push('|')
}

// Cells of one row, one beside the other, that look alike.
#[derive(Drop)]
struct Run {
    area: Rect,
    words: String,
}

impl Run {
    fn at(position: Position, words: String) -> Run {
        Run {
            area: Rect {
                x: position.x,
                y: position.y,
                width: 1,
                height: 1,
            },
            words,
        }
    }

    // Whether a cell at this place that looks so goes on with it.
    fn goes_on(&self, position: Position, words: &str) -> bool {
        self.words.as_str() == words
            && self.area.y == position.y
            && self.area.x.saturating_add(self.area.width) == position.x
    }

    // Writes where it is and how it looks, if that isn't as usual.
    fn put(&self, out: &mut String) -> Result<(), AllocError> {
        if self.words.is_empty() {
            return Ok(());
        }
        out.push_str(", ")?;
        self.area.show(out)?;
        out.push_str(self.words.as_str())
    }
}

// Writes the looks of cells that aren't as usual.
fn put_looks(buffer: &Buffer, out: &mut String) -> Result<(), AllocError> {
    let alloc = *out.allocator();
    let mut run = Run::at(Position::ORIGIN, String::new(alloc));
    for (position, cell) in buffer.area().positions().zip(buffer.content().iter()) {
        let words = look_words(cell, alloc)?;
        if run.goes_on(position, words.as_str()) {
            run.area.width = run.area.width.saturating_add(1);
        } else {
            mem::replace(&mut run, Run::at(position, words)).put(out)?;
        }
    }
    run.put(out)
}

// Writes the symbols of rows, each after a bar.
fn put_symbols(buffer: &Buffer, out: &mut String) -> Result<(), AllocError> {
    let mut y = None;
    for (position, cell) in buffer.area().positions().zip(buffer.content().iter()) {
        if y != Some(position.y) {
            out.push('|')?;
            y = Some(position.y);
        }
        put_symbol(cell, out)?;
    }
    Ok(())
}

impl Show for Buffer {
    fn show(&self, out: &mut String) -> Result<(), AllocError> {
        self.area().show(out)?;
        out.push(' ')?;
        put_symbols(self, out)?;
        out.push('|')?;
        put_looks(self, out)
    }
}
