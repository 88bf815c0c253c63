//! Pictures of buffers and of lines.

use ratatui_core::buffer::{Buffer, Cell, CellWidth};
use ratatui_core::layout::Position;
use std::fmt;

// Writes a row between bars, without the columns after a wide symbol.
fn write_row<W: fmt::Write>(f: &mut fmt::Formatter<W>, cells: &[Cell]) -> fmt::Result {
    f.write_str("\n|")?;
    let mut behind = 0;
    for cell in cells {
        if behind > 0 {
            behind -= 1;
        } else {
            f.write_str(cell.symbol())?;
            behind = cell.symbol().cell_width().saturating_sub(1);
        }
    }
    f.write_str("|")
}

// Writes a mark under a column, counted from the first bar's right.
pub(crate) fn write_mark<W: fmt::Write>(f: &mut fmt::Formatter<W>, columns: u16) -> fmt::Result {
    f.write_str("\n ")?;
    for _ in 0..columns {
        f.write_str(" ")?;
    }
    f.write_str("^")
}

// Writes a buffer's rows between bars, and a mark under a position.
pub(crate) fn write_buffer<W: fmt::Write>(
    f: &mut fmt::Formatter<W>,
    buffer: &Buffer,
    at: Option<Position>,
) -> fmt::Result {
    let area = *buffer.area();
    for y in area.y..area.y + area.height {
        write_row(f, buffer.row(y))?;
        if let Some(position) = at {
            if position.y == y {
                write_mark(f, position.x.saturating_sub(area.x))?;
            }
        }
    }
    Ok(())
}
