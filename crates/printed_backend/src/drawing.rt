//! Cells that are put on the screen.

ghost use Rattle.std.specs.Prelude.{◌≡◌, ◌<◌, ◌≤◌, ℕ, List, map, [], ◌∷◌, IfOk, OnOk, OnErr};
ghost use Rattle.std.specs.Iterator.{IsFinite, Drains};
ghost use Rattle.rtui_cell.specs.Look.{look_of};
ghost use Rattle.rtui_cell.specs.Grid.{update_by};
ghost use Rattle.rtui_backend.specs.Screen.{IsOnGrid, Draws, seen, upper_part, cursor_of, with_cursor};
ghost use Rattle.printed_backend.specs.Printed.{shown_on, failed_calls, HasOnlyDrawn};
ghost use Rattle.printed_backend.specs.Inner.{RaisesRow};

use crate::backend::PrintedBackend;
use rtui_backend::{AsCell, Backend};
use rtui_cell::Cell;
use rtui_geometry::Position;
use std::alloc::AllocError;
use std::iter;

impl PrintedBackend {
    // Puts and counts one item.
    fn put(&mut self, x: u16, y: u16, cell: &Cell) -> Result<(), AllocError>
        ensures ok { OnOk result (Draws (shown_on self.old)
            (record { x = x; y = y; cell = cell.now } ∷ []) (shown_on self.new)) }
        ensures cursor { OnOk result
            (cursor_of (shown_on self.new) ≡ cursor_of (shown_on self.old)) }
        ensures memory { OnErr result (HasOnlyDrawn self.old self.new) }
        ensures failures { failed_calls self.new ≡ failed_calls self.old }
    {
        match self.screen.draw(iter::once((x, y, cell))) {
            Ok(()) => {
                self.written = self.written.saturating_add(1);
                Ok(())
            }
            Err(_) => Err(AllocError),
        }
    }

    // Puts and counts the items in order, as far as memory goes.
    pub(crate) fn put_all<C: AsCell, I: Iterator<Item = (u16, u16, C)>>(
        &mut self,
        content: I,
    ) -> Result<(), AllocError>
        requires can { I.can_next content }
        requires finite { IsFinite (I.remaining content) }
        ensures ok { OnOk result (
            (items : List (ℕ × ℕ × C)) × Drains I.next_gives content items
            × Draws (shown_on self.old) (map (update_by C.cell) items) (shown_on self.new)) }
        ensures memory { OnErr result (HasOnlyDrawn self.old self.new) }
        ensures failures { failed_calls self.new ≡ failed_calls self.old }
    {
        for (x, y, cell) in content {
            self.put(x, y, cell.as_cell())?;
        }
        Ok(())
    }

    // A copy of the cell in column x of row y, of the first `end` rows; an empty one below them.
    fn cell_at(&self, x: u16, y: u16, end: u16) -> Result<Cell, AllocError>
        requires column { x < (shown_on self.now).width }
        requires rows { end ≤ (shown_on self.now).height }
        ensures { IfOk result (λ cell.
            look_of cell ≡ seen (upper_part end (shown_on self.now)) x y) }
    {
        if y >= end {
            return Ok(Cell::EMPTY);
        }
        self.screen.buffer().row(y)[usize::from(x)].clone(self.alloc)
    }

    // Copies row `from` of the first `end` rows to the first row, or empties that.
    pub(crate) fn raise_row(&mut self, from: u16, end: u16) -> Result<(), AllocError>
        requires above { 0 < from }
        requires some { 0 < end }
        requires rows { end ≤ (shown_on self.old).height }
        ensures ok { OnOk result (RaisesRow from end (shown_on self.old) (shown_on self.new)) }
        ensures drawn { HasOnlyDrawn self.old self.new }
        ensures failures { failed_calls self.new ≡ failed_calls self.old }
    {
        let written = self.written;
        for x in 0..self.screen.buffer().area().width {
            let cell = self.cell_at(x, from, end)?;
            self.put(x, 0, &cell)?;
        }
        self.written = written;
        Ok(())
    }

    // Where the cursor is.
    pub(crate) fn place(&mut self) -> Position
        ensures place { result ≡ cursor_of (shown_on self.old) }
        ensures on_grid { IsOnGrid (shown_on self.old) }
        ensures screen { shown_on self.new ≡ shown_on self.old }
        ensures failures { failed_calls self.new ≡ failed_calls self.old }
    {
        match self.screen.get_cursor_position() {
            Ok(position) => position,
            Err(_) => Position::ORIGIN,
        }
    }

    // Moves the cursor, and keeps it on the screen.
    pub(crate) fn move_to(&mut self, position: Position)
        ensures screen { shown_on self.new ≡ with_cursor position.x position.y (shown_on self.old) }
        ensures failures { failed_calls self.new ≡ failed_calls self.old }
    {
        let _ = self.screen.set_cursor_position(position);
    }
}
