//! Cells that are put on the screen.

ghost use Rattle.std.specs.Prelude.{◌≡◌, ℕ, ◌*◌, List, [], ◌∷◌, map, length, OnOk, OnErr};
ghost use Rattle.std.specs.Iterator.{IsFinite, Drains};
ghost use Rattle.rtui_cell.specs.Look.{look_of};
ghost use Rattle.rtui_cell.specs.Cell.{IsUnmarked};
ghost use Rattle.rtui_cell.specs.Grid.{put, update_by};
ghost use Rattle.rtui_backend.specs.CellGrid.{grid_of, AreUnmarked};
ghost use Rattle.rtui_backend.specs.Screen.{Draws};

use crate::backend::AsCell;
use crate::test::TestBackend;
use rtui_buffer::{Cell, CellDiffOption, CellWidth};
use rtui_geometry::Size;
use rtui_grid::fill;
use std::alloc::{AllocError, Global};

// Gives a cell the look of another one, without option and flag.
#[tactic(auto, unfolding(rtui_cell::specs::Look::look_of))]
fn copy_look(alloc: Global, to: &mut Cell, cell: &Cell) -> Result<(), AllocError>
    ensures look { OnOk result (look_of to.new ≡ look_of cell.now) }
    ensures unmarked { OnOk result (IsUnmarked to.new) }
    ensures err { OnErr result (to.new ≡ to.old) }
{
    to.clone_from(alloc, cell)?;
    to.diff_option = CellDiffOption::None;
    to.skip = false;
    Ok(())
}

// Puts a cell in a column and a row; if memory is refused nothing changes.
fn put_cell(
    alloc: Global,
    cells: &mut [Cell],
    size: Size,
    x: u16,
    y: u16,
    cell: &Cell,
) -> Result<(), AllocError>
    requires covers { length cells.old ≡ size.width * size.height }
    ensures unmarked { AreUnmarked cells.old → AreUnmarked cells.new }
    ensures grid { OnOk result ((a b : ℕ) → grid_of size.width cells.new a b
        ≡ put size.width size.height (record { x = x; y = y; cell = cell.now })
        (grid_of size.width cells.old) a b) }
    ensures err { OnErr result (cells.new ≡ cells.old) }
{
    if x >= size.width || y >= size.height {
        return Ok(());
    }
    let row = usize::from(y) * usize::from(size.width);
    let column = usize::from(x);
    copy_look(alloc, &mut cells[row + column], cell)?;
    if !cell.is_single_byte() {
        let after = column + usize::from(cell.cell_width());
        let end = after.max(column + 1).min(usize::from(size.width));
        fill(cells, row + column + 1, row + end);
    }
    Ok(())
}

impl TestBackend {
    ghost use Rattle.rtui_cell.specs.declared.cell.Cell.{Cell};
    ghost use Rattle.rtui_backend.specs.Screen.{cursor_of};
    ghost use Rattle.rtui_backend.specs.TestBackend.{screen_of, failures_of, told_after, DrawsFront};

    // Puts and counts one item.
    fn put(&mut self, x: u16, y: u16, cell: &Cell) -> Result<(), AllocError>
        ensures ok { OnOk result (Draws (screen_of self.old)
            (record { x = x; y = y; cell = cell.now } ∷ []) (screen_of self.new)) }
        ensures memory { OnErr result (self.new ≡ self.old) }
        ensures cursor { cursor_of (screen_of self.new) ≡ cursor_of (screen_of self.old) }
        ensures failures { failures_of self.new ≡ failures_of self.old }
        ensures told { told_after self.new ≡ told_after self.old }
    {
        let size = self.buffer.area().as_size();
        put_cell(self.alloc, self.buffer.cells_mut(), size, x, y, cell)?;
        self.written = self.written.saturating_add(1);
        Ok(())
    }

    // Puts and counts the items in order, as far as memory goes.
    pub(crate) fn put_all<C: AsCell, I: Iterator<Item = (u16, u16, C)>>(
        &mut self,
        content: I,
    ) -> Result<(), AllocError>
        requires can { I.can_next content }
        requires finite { IsFinite (I.remaining content) }
        ensures ok { OnOk result (
            (items : List (ℕ × ℕ × C)) × Drains I.next_gives content items
            × Draws (screen_of self.old) (map (update_by C.cell) items) (screen_of self.new)) }
        ensures memory { OnErr result (DrawsFront I.next_gives content (update_by C.cell)
            (screen_of self.old) (screen_of self.new)) }
        ensures cursor { cursor_of (screen_of self.new) ≡ cursor_of (screen_of self.old) }
        ensures failures { failures_of self.new ≡ failures_of self.old }
        ensures told { told_after self.new ≡ told_after self.old }
    {
        for (x, y, cell) in content {
            self.put(x, y, cell.as_cell())?;
        }
        Ok(())
    }
}
