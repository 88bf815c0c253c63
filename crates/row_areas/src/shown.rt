//! What a buffer shows.

use bitflags::Flags;
use ratatui_core::buffer::{Buffer, CellWidth};
use ratatui_core::layout::Position;
use ratatui_core::style::Modifier;
use std::alloc::{AllocError, Global};
use widget_area::AreaView;

// What a cell's style is shown as: a reversed one, an underlined one, or another.
fn mark_of(modifier: Modifier) -> &'static str {
    if modifier.contains(Modifier::REVERSED) {
        "#"
    } else if modifier.contains(Modifier::UNDERLINED) {
        "_"
    } else {
        "."
    }
}

// Adds the styles of the cells in a row of a buffer to a text.
fn push_marks(text: &mut String, buffer: &Buffer, y: u16) -> Result<(), AllocError> {
    for x in 0..buffer.area().width {
        if let Some(cell) = buffer.cell(Position { x, y }) {
            text.push_str(mark_of(cell.modifier))?;
        }
    }
    Ok(())
}

// The styles of a buffer's cells, with a slash between each two rows.
pub fn marks_in(alloc: Global, buffer: &Buffer) -> Result<String, AllocError> {
    let mut text = String::new(alloc);
    for y in 0..buffer.area().height {
        if y > 0 {
            text.push('/')?;
        }
        push_marks(&mut text, buffer, y)?;
    }
    Ok(text)
}

// Adds what a row of a buffer shows to a text, with a dot for a blank.
fn push_row(text: &mut String, buffer: &Buffer, y: u16) -> Result<(), AllocError> {
    let mut covered = 0u16;
    for x in 0..buffer.area().width {
        let Some(cell) = buffer.cell(Position { x, y }) else {
            continue;
        };
        if covered > 0 {
            covered -= 1;
            continue;
        }
        let symbol = cell.symbol();
        covered = symbol.cell_width().saturating_sub(1);
        text.push_str(if symbol == " " { "." } else { symbol })?;
    }
    Ok(())
}

// The rows of a buffer, with a slash between each two.
pub fn rows_in(alloc: Global, buffer: &Buffer) -> Result<String, AllocError> {
    let mut text = String::new(alloc);
    for y in 0..buffer.area().height {
        if y > 0 {
            text.push('/')?;
        }
        push_row(&mut text, buffer, y)?;
    }
    Ok(text)
}

// The column and the row of a cursor.
pub fn cursor_in(alloc: Global, view: AreaView) -> Result<String, AllocError> {
    match view.cursor {
        Some(position) => {
            let (x, y) = (position.x, position.y);
            format!(in alloc; "{x},{y}")
        }
        None => String::from_str(alloc, "-"),
    }
}
