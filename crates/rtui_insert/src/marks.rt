//! Cells of a buffer that are skipped for a while, so that a diff from them gives every cell.

ghost use Rattle.std.specs.Prelude.{◌≡◌, ◌<◌, ◌≤◌, ℕ, true, length};
ghost use Rattle.rtui_cell.specs.Cell.{empty_cell, is_skipped, width_of};
ghost use Rattle.rtui_diff.specs.Cells.{cell};

use rtui_buffer::{Cell, CellDiffOption};

// Skips the first cells, which are empty.
pub(crate) fn mark_skipped(cells: &mut [Cell], count: usize)
    requires inside { count ≤ length cells.old }
    requires empty { (k : ℕ) → k < count → cell cells.old k ≡ empty_cell }
    ensures skipped { (k : ℕ) → k < count → is_skipped (cell cells.new k) ≡ true }
    ensures narrow { (k : ℕ) → k < count → width_of (cell cells.new k) ≡ 1 }
    ensures rest { (k : ℕ) → count ≤ k → cell cells.new k ≡ cell cells.old k }
{
    for k in 0..count {
        cells[k].diff_option = CellDiffOption::Skip;
    }
}
