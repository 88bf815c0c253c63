//! Whether a frame can be shown as it is.

ghost use Rattle.std.specs.Prelude.{◌≡◌, ℕ, ◌+◌, ◌*◌, ◌%◌, ◌<◌, ◌≤◌, length, IsTrue, ◌↔◌};
ghost use Rattle.rtui_diff.specs.Settled.{IsBlankOrSkipped, IsSettled, IsSettledAt};
ghost use Rattle.rtui_diff.specs.Shows.{Repaints};

use crate::cells::is_same;
use rtui_cell::{Cell, CellWidth};

fn is_blank_or_skipped(cell: &Cell) -> bool
    ensures { IsTrue result ↔ IsBlankOrSkipped cell.now }
{
    is_same(cell, &Cell::EMPTY) || cell.is_skipped()
}

fn is_settled_at(cells: &[Cell], columns: usize, at: usize) -> bool
    requires columns { 0 < columns }
    requires inside { at < length cells.now }
    requires row { at + columns ≤ length cells.now + at % columns }
    ensures { IsTrue result ↔ IsSettledAt columns cells.now at }
{
    let cell = &cells[at];
    let width = usize::from(cell.cell_width());
    if cell.is_skipped() {
        return width <= 1;
    }
    if at % columns + width > columns {
        return false;
    }
    for k in at + 1..at + width {
        if !is_blank_or_skipped(&cells[k]) {
            return false;
        }
    }
    true
}

/// Returns whether a frame of this width and height, in columns and rows, is settled: each skipped
/// cell takes at most one column, each other cell ends within its row, and after an unskipped wide
/// cell stand only empty or skipped ones.
///
/// # Conditions
///
/// The list has at least `width * height` cells.
pub fn is_settled(cells: &[Cell], width: u16, height: u16) -> bool
    requires covers { width * height ≤ length cells.now }
    ensures settled { IsTrue result ↔ IsSettled width height cells.now }
    ensures repaints { IsTrue result → Repaints width height cells.now }
{
    let columns = usize::from(width);
    for at in 0..columns * usize::from(height) {
        if !is_settled_at(cells, columns, at) {
            return false;
        }
    }
    true
}
