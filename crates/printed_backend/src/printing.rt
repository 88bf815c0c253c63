//! Rows that are printed.

ghost use Rattle.std.specs.Prelude.{◌≡◌, ◌≤◌, ◌++◌, codes, map, string_bytes, IfOk, OnOk};
ghost use Rattle.std.specs.List.{flat_map, range_with_len};
ghost use Rattle.rtui_cell.specs.Look.{look_of};
ghost use Rattle.rtui_backend.specs.Screen.{row_of, upper_part};
ghost use Rattle.rtui_backend.specs.TestBackend.{screen_of};
ghost use Rattle.rtui_backend.specs.Print.{row_text, printed_row};
ghost use Rattle.printed_backend.specs.Inner.{rows_leaving, AreBlankLooks, looks_in};

use crate::rows::Rows;
use rtui_backend::TestBackend;
use rtui_cell::{Cell, CellWidth};
use std::alloc::{AllocError, Global};

// Appends the symbols of a row, without the columns after a wide one.
#[tactic(auto, unfolding(rtui_cell::specs::Look::look_of))]
fn push_cells(text: &mut String, cells: &[Cell]) -> Result<(), AllocError>
    ensures { OnOk result (string_bytes text.new
        ≡ string_bytes text.old ++ row_text 0 (map look_of cells.now)) }
{
    let mut behind = 0;
    for cell in cells {
        if behind > 0 {
            behind -= 1;
        } else {
            text.push_str(cell.symbol())?;
            behind = cell.symbol().cell_width().saturating_sub(1);
        }
    }
    Ok(())
}

// Appends a row that scrolled off.
fn push_row(text: &mut String, cells: &[Cell]) -> Result<(), AllocError>
    ensures { OnOk result (string_bytes text.new
        ≡ string_bytes text.old ++ printed_row (codes "^") (map look_of cells.now)) }
{
    text.push_str("^")?;
    push_cells(text, cells)?;
    text.push_str("\n")
}

// So many empty cells.
fn empty_cells(alloc: Global, count: u16) -> Result<Vec<Cell>, AllocError>
    ensures { IfOk result (λ cells. AreBlankLooks count (map look_of cells.items)) }
{
    let mut cells = Vec::with_capacity(alloc, usize::from(count))?;
    for _ in 0..count {
        cells.push(Cell::EMPTY)?;
    }
    Ok(cells)
}

// Row b of the first `end` rows of a screen, and a blank one below them.
fn row_leaving<'a>(screen: &'a TestBackend, blank: &'a [Cell], end: u16, b: u16) -> &'a [Cell]
    requires rows { end ≤ (screen_of screen.now).height }
    requires blank { end ≤ b
        → AreBlankLooks (screen_of screen.now).width (map look_of blank.now) }
    ensures { map look_of result.now ≡ row_of (upper_part end (screen_of screen.now)) b }
{
    if b < end {
        screen.buffer().row(b)
    } else {
        blank
    }
}

// Appends the first `count` of a screen's first `end` rows, as rows that scrolled off, with blank
// ones if there are fewer. Answers these rows after others.
pub(crate) fn push_rows(
    alloc: Global,
    text: &mut String,
    rows: &Rows,
    screen: &TestBackend,
    end: u16,
    count: u16,
) -> Result<Rows, AllocError>
    requires rows { end ≤ (screen_of screen.now).height }
    ensures text { OnOk result (string_bytes text.new ≡ string_bytes text.old
        ++ flat_map (printed_row (codes "^")) (rows_leaving end count (screen_of screen.now))) }
    ensures rows { IfOk result (λ all. looks_in all
        ≡ looks_in rows.now ++ rows_leaving end count (screen_of screen.now)) }
{
    let width = screen.buffer().area().width;
    let blank = empty_cells(alloc, if end < count { width } else { 0 })?;
    let mut all = rows.again();
    for b in 0..count {
        let cells = row_leaving(screen, blank.as_slice(), end, b);
        push_row(text, cells)?;
        all = all.and(cells);
    }
    Ok(all)
}
