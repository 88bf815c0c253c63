//! The updates between rows, at their place on a screen.

ghost use Rattle.std.specs.Prelude.{◌≡◌};

use rtui_buffer::{BufferDiff, Cell};

// Updates, each so many rows further down, at most in row 65535.
#[derive(Drop)]
pub struct ShiftedUpdates<'prev, 'next> {
    updates: BufferDiff<'prev, 'next>,
    by: u16,
}

impl<'prev, 'next> ShiftedUpdates<'prev, 'next> {
    ghost use Rattle.rtui_insert.specs.Remaining.{lowered_left, lowered_by};

    pub fn new(updates: BufferDiff<'prev, 'next>, by: u16) -> Self
        ensures { lowered_left result ≡ lowered_by by updates.entry }
    {
        ShiftedUpdates { updates, by }
    }
}

impl<'prev, 'next> Iterator for ShiftedUpdates<'prev, 'next> {
    ghost use Rattle.std.specs.Iterator.{YieldsFirstBy, item_count};
    ghost use Rattle.rtui_cell.specs.Grid.{update_by};
    ghost use Rattle.rtui_insert.specs.Remaining.{lowered_left};

    type Item = (u16, u16, &'next Cell);

    ghost next_gives = { YieldsFirstBy (update_by (λ cell. cell.now)) lowered_left };

    ghost remaining = { item_count lowered_left };

    fn next(&mut self) -> Option<(u16, u16, &'next Cell)> {
        match self.updates.next() {
            Some((x, y, cell)) => Some((x, y.saturating_add(self.by), cell)),
            None => None,
        }
    }
}
