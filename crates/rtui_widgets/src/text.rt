//! Texts in rows of cells.

ghost use Rattle.std.specs.Prelude.{◌≡◌, ℕ, ◌+◌, ◌*◌, ◌<◌, ◌≤◌, length, IsOk, OnOk, OnErr};
ghost use Rattle.rtui_widgets.specs.Rendering.{text_row, IsShortRow};
ghost use Rattle.rtui_buffer.specs.Painting.{KeepsUnmarked};
ghost use Rattle.rtui_widgets.specs.Refused.{HasFrontOfRow};
ghost use Rattle.rtui_widgets.specs.Inner.{rows_from, KeepsOthers, MakesRows, LeavesRows};

use crate::line::{lay_row, render_line};
use rtui_cell::Cell;
use rtui_text::Text;
use std::alloc::{AllocError, Global};

// Renders a text in rows that stand a stride apart, each of this width.
pub(crate) fn render_rows(
    alloc: Global,
    cells: &mut [Cell],
    start: usize,
    width: usize,
    stride: usize,
    height: usize,
    text: &Text<'_>,
) -> Result<(), AllocError>
    requires apart { width ≤ stride }
    requires inside { (k : ℕ) → k < height → start + k * stride + width ≤ length cells.old }
    ensures ok { let rows = rows_from start width stride height in
        OnOk result (MakesRows rows (text_row text.now) cells.old cells.new) }
    ensures err { let rows = rows_from start width stride height in
        OnErr result (KeepsOthers rows cells.old cells.new) }
    ensures left { let rows = rows_from start width stride height in OnErr result
        (LeavesRows rows (text_row text.now) (HasFrontOfRow text.now) cells.old cells.new) }
    ensures short { ((k : ℕ) → k < height → IsShortRow text.now width k) → IsOk result }
    ensures marks { KeepsUnmarked cells.old cells.new }
{
    for k in 0..height {
        let from = start + k * stride;
        render_row(alloc, &mut cells[from..from + width], text, k)?;
    }
    Ok(())
}

// Renders row k of a text.
fn render_row(alloc: Global, row: &mut [Cell], text: &Text<'_>, k: usize) -> Result<(), AllocError>
    ensures ok { OnOk result (row.new ≡ text_row text.now k row.old) }
    ensures err { OnErr result (HasFrontOfRow text.now k row.old row.new) }
    ensures short { IsShortRow text.now (length row.old) k → IsOk result }
    ensures marks { KeepsUnmarked row.old row.new }
{
    lay_row(row, text.style);
    match text.lines.as_slice().get(k) {
        Some(line) => render_line(alloc, row, line, line.alignment.or(text.alignment)),
        None => Ok(()),
    }
}
