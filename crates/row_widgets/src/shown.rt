//! What a buffer shows.

use crate::looks::modifier_of;
use bitflags::Flags;
use ratatui_core::buffer::{Buffer, Cell, CellWidth};
use ratatui_core::style::{Color, Modifier};
use std::alloc::AllocError;

// What is marked under a row: `f` the foregrounds, `b` the backgrounds, and each modifier.
const MARKS: &str = "fb*./_^~";

// The letter of a colour.
fn letter_of(color: Color) -> char {
    match color {
        Color::Reset => ' ',
        Color::Black => 'k',
        Color::Red => 'r',
        Color::Green => 'g',
        Color::Yellow => 'y',
        Color::Blue => 'b',
        Color::Magenta => 'm',
        Color::Cyan => 'c',
        Color::White => 'w',
        _ => '?',
    }
}

// The sign under a cell in the row of a mark.
fn sign_of(mark: char, cell: &Cell) -> char {
    match mark {
        'f' => letter_of(cell.fg),
        'b' => letter_of(cell.bg),
        _ => {
            if cell.modifier.contains(modifier_of(mark)) {
                mark
            } else {
                ' '
            }
        }
    }
}

// Whether a cell has no style.
fn is_plain(cell: &Cell) -> bool {
    cell.fg == Color::Reset && cell.bg == Color::Reset && cell.modifier.is_empty()
}

// Adds the symbols of a row to a text, without the columns that wide symbols cover.
fn push_symbols(shown: &mut String, row: &[Cell]) -> Result<(), AllocError> {
    let mut covered = 0u16;
    shown.push('|')?;
    for cell in row {
        if covered > 0 {
            covered -= 1;
        } else {
            covered = cell.cell_width().saturating_sub(1);
            shown.push_str(cell.symbol())?;
        }
    }
    shown.push_str("|\n")
}

// Adds the signs of a mark to a text, if there are any.
fn push_signs(shown: &mut String, row: &[Cell], mark: char) -> Result<(), AllocError> {
    if row.iter().all(|cell| sign_of(mark, cell) == ' ') {
        return Ok(());
    }
    shown.push(mark)?;
    for cell in row {
        shown.push(sign_of(mark, cell))?;
    }
    shown.push_str("|\n")
}

// Adds the signs of each mark to a text, if a cell of the row has a style.
fn push_marks(shown: &mut String, row: &[Cell]) -> Result<(), AllocError> {
    if row.iter().all(|cell| is_plain(cell)) {
        return Ok(());
    }
    for mark in MARKS.chars() {
        push_signs(shown, row, mark)?;
    }
    Ok(())
}

/// Adds the rows of a buffer to a text, and under each the signs of its styles.
pub fn push_rows(shown: &mut String, buffer: &Buffer) -> Result<(), AllocError> {
    let area = buffer.area();
    for y in area.y..area.bottom() {
        let row = buffer.row(y);
        push_symbols(shown, row)?;
        push_marks(shown, row)?;
    }
    Ok(())
}

// Adds a number to a text, or a line if there is none.
fn push_number(shown: &mut String, number: Option<usize>) -> Result<(), AllocError> {
    let alloc = *shown.allocator();
    match number {
        Some(number) => shown.push_str(format!(in alloc; " {number}")?.as_str()),
        None => shown.push_str(" -"),
    }
}

/// Adds a state to a text: the first item or row that is shown, the selected one, and the selected
/// column.
pub fn push_state(
    shown: &mut String,
    offset: usize,
    selected: Option<usize>,
    column: Option<usize>,
) -> Result<(), AllocError> {
    shown.push_str("state")?;
    push_number(shown, Some(offset))?;
    push_number(shown, selected)?;
    push_number(shown, column)?;
    shown.push_str("\n")
}
