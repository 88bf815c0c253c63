//! What a buffer shows.

use crate::styles::letter_of;
use ratatui_core::buffer::{Buffer, Cell};
use ratatui_core::layout::{Position, Rect};
use std::alloc::{AllocError, Global};

// A buffer of points.
pub fn points(alloc: Global, width: u16, height: u16) -> Result<Buffer, AllocError> {
    let cell = Cell::new(alloc, ".")?;
    Buffer::filled(alloc, Rect::new(0, 0, width, height), cell)
}

// What a panel shows of a cell: its symbol, or the letter of its foreground or its background.
fn push_cell(text: &mut String, cell: &Cell, panel: usize) -> Result<(), AllocError> {
    match panel {
        0 => text.push_str(cell.symbol()),
        1 => text.push(letter_of(cell.fg)),
        _ => text.push(letter_of(cell.bg)),
    }
}

// A row of a buffer in one panel.
fn push_row(text: &mut String, buffer: &Buffer, y: u16, panel: usize) -> Result<(), AllocError> {
    for x in 0..buffer.area().width {
        if let Some(cell) = buffer.cell(Position { x, y }) {
            push_cell(text, cell, panel)?;
        }
    }
    text.push('|')
}

// The rows of a buffer in three panels side by side.
pub fn panels_of(alloc: Global, buffer: &Buffer) -> Result<String, AllocError> {
    let mut text = String::new(alloc);
    for y in 0..buffer.area().height {
        text.push('|')?;
        for panel in 0..3 {
            push_row(&mut text, buffer, y, panel)?;
        }
        text.push('\n')?;
    }
    Ok(text)
}
