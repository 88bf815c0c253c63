ghost use Rattle.std.specs.Prelude.{◌≡◌, ℕ, Bool, List, map, true, false, IfOk, OnOk, OnErr};
ghost use Rattle.std.specs.Iterator.{IsFinite, Drains};
ghost use Rattle.rtui_cell.specs.declared.cell.Cell.{Cell};
ghost use Rattle.rtui_cell.specs.Grid.{update_by};
ghost use Rattle.rtui_backend.specs.Screen.{Screen, IsOnGrid, Draws, Appends, Clears, ScrollsUp, ScrollsDown};
ghost use Rattle.rtui_backend.specs.Screen.{with_visible, with_cursor, cursor_of, size_of};
ghost use Rattle.rtui_backend.specs.declared.clear_type.ClearType.TheVariants.{All};
ghost use Rattle.rtui_backend.specs.Failures.{Counts};

use crate::clear_type::ClearType;
use rtui_buffer::Cell;
use rtui_geometry::{Position, Size};
use std::error::Error;
use std::ops::Range;

/// The size of a terminal's window.
#[derive(Debug, Clone, Copy, PartialEq, Eq, Hash)]
pub struct WindowSize {
    /// Columns and rows.
    pub columns_rows: Size,
    /// Pixels, or `Size::ZERO` if they aren't known.
    pub pixels: Size,
}

/// What lends a cell, as `&Cell` does.
pub trait AsCell: Drop {
    ghost cell: { Self → Cell };

    /// Returns the cell that is lent.
    fn as_cell(&self) -> &Cell
        ensures { result.now ≡ cell self.now };
}

impl AsCell for &Cell {
    ghost cell = { λ lent. lent.now };

    fn as_cell(&self) -> &Cell {
        *self
    }
}

/// What a terminal draws on. Each call says what an Ok does to the screen; after an Err nothing is
/// said of the screen, and the count of failures is one more.
///
/// `stops_at` holds between what a backend was before a call that failed and what that call left.
/// So whoever makes several calls can say how the screen stood until the one that failed. Each
/// backend chooses what the relation tells of the call itself; it may tell nothing.
///
/// `is_flushed` says that nothing of what was written is held back. It holds after an Ok `flush`; a
/// call that only asks leaves it as it is, and any other call may end it. A backend whose writes
/// are seen at once is always flushed.
pub trait Backend {
    type Error: Error;

    ghost screen: { Self → Screen };

    ghost failures: { Self → ℕ };

    ghost is_flushed: { Self → Bool };

    ghost stops_at: { Self → Self → Type 0 };

    /// Puts each cell in its column and row, in order: the column gets the cell's look, and the
    /// columns after it that the cell covers are emptied. Off the screen nothing changes. The
    /// cursor may end anywhere.
    ///
    /// # Conditions
    ///
    /// The iterator comes to an end, and `next` may be called on it until then.
    ///
    /// # Errors
    ///
    /// The backend's own error if the call failed. Nothing is said of the screen then, and one more
    /// failure is counted.
    fn draw<C: AsCell, I: Iterator<Item = (u16, u16, C)>>(
        &mut self,
        content: I,
    ) -> Result<(), Self::Error>
        requires can { I.can_next content }
        requires finite { IsFinite (I.remaining content) }
        ensures ok { OnOk result (
            (items : List (ℕ × ℕ × C)) × Drains I.next_gives content items
            × Draws (screen self.old) (map (update_by C.cell) items) (screen self.new)) }
        ensures counts { Counts result (failures self.old) (failures self.new) }
        ensures stops { OnErr result (stops_at self.old self.new) };

    /// Moves the cursor's row down by `n`. What goes past the last row scrolls: the rows that leave
    /// at the top go to the history, in order, and blank rows come in below. The cursor may end in
    /// any column. If the screen has no rows, nothing changes.
    ///
    /// # Errors
    ///
    /// The backend's own error if the call failed. Nothing is said of the screen then, and one more
    /// failure is counted.
    fn append_lines(&mut self, n: u16) -> Result<(), Self::Error>
        ensures ok { OnOk result (Appends (screen self.old) n (screen self.new)) }
        ensures counts { Counts result (failures self.old) (failures self.new) }
        ensures stops { OnErr result (stops_at self.old self.new) };

    /// Moves the rows of a region up by `n`, and blank rows come in below. The region ends at the
    /// screen's last row at the latest; rows outside it stay. Of a region that begins with the
    /// first row `n` rows go to the history, in order: those that leave, and blank ones if the
    /// region has fewer. The cursor may end anywhere. If the region has no rows, nothing changes.
    ///
    /// # Errors
    ///
    /// The backend's own error if the call failed. Nothing is said of the screen then, and one more
    /// failure is counted.
    fn scroll_region_up(&mut self, region: Range<u16>, n: u16) -> Result<(), Self::Error>
        ensures ok { OnOk result
            (ScrollsUp region.start region.end n (screen self.old) (screen self.new)) }
        ensures counts { Counts result (failures self.old) (failures self.new) }
        ensures stops { OnErr result (stops_at self.old self.new) };

    /// Moves the rows of a region down by `n`; blank rows come in above, and the rows that leave
    /// are lost. The region ends at the screen's last row at the latest; rows outside it and the
    /// history stay. The cursor may end anywhere. If the region has no rows, nothing changes.
    ///
    /// # Errors
    ///
    /// The backend's own error if the call failed. Nothing is said of the screen then, and one more
    /// failure is counted.
    fn scroll_region_down(&mut self, region: Range<u16>, n: u16) -> Result<(), Self::Error>
        ensures ok { OnOk result
            (ScrollsDown region.start region.end n (screen self.old) (screen self.new)) }
        ensures counts { Counts result (failures self.old) (failures self.new) }
        ensures stops { OnErr result (stops_at self.old self.new) };

    /// Hides the cursor.
    ///
    /// # Errors
    ///
    /// The backend's own error if the call failed. Nothing is said of the screen then, and one more
    /// failure is counted.
    fn hide_cursor(&mut self) -> Result<(), Self::Error>
        ensures ok { OnOk result (screen self.new ≡ with_visible false (screen self.old)) }
        ensures counts { Counts result (failures self.old) (failures self.new) }
        ensures stops { OnErr result (stops_at self.old self.new) };

    /// Shows the cursor.
    ///
    /// # Errors
    ///
    /// The backend's own error if the call failed. Nothing is said of the screen then, and one more
    /// failure is counted.
    fn show_cursor(&mut self) -> Result<(), Self::Error>
        ensures ok { OnOk result (screen self.new ≡ with_visible true (screen self.old)) }
        ensures counts { Counts result (failures self.old) (failures self.new) }
        ensures stops { OnErr result (stops_at self.old self.new) };

    /// Returns where the cursor is, on the screen.
    ///
    /// # Errors
    ///
    /// The backend's own error if the call failed. Nothing is said of the screen then, and one more
    /// failure is counted.
    fn get_cursor_position(&mut self) -> Result<Position, Self::Error>
        ensures ok { IfOk result (λ position. position ≡ cursor_of (screen self.old)) }
        ensures on_grid { OnOk result (IsOnGrid (screen self.old)) }
        ensures stays { OnOk result (screen self.new ≡ screen self.old) }
        ensures held { OnOk result (is_flushed self.new ≡ is_flushed self.old) }
        ensures counts { Counts result (failures self.old) (failures self.new) }
        ensures stops { OnErr result (stops_at self.old self.new) };

    /// Moves the cursor; its column and its row are each kept on the screen.
    ///
    /// # Errors
    ///
    /// The backend's own error if the call failed. Nothing is said of the screen then, and one more
    /// failure is counted.
    fn set_cursor_position(&mut self, position: Position) -> Result<(), Self::Error>
        ensures ok { OnOk result (screen self.new
            ≡ with_cursor position.x position.y (screen self.old)) }
        ensures counts { Counts result (failures self.old) (failures self.new) }
        ensures stops { OnErr result (stops_at self.old self.new) };

    /// Returns the column and the row of the cursor: the old name of `get_cursor_position`.
    ///
    /// # Errors
    ///
    /// The backend's own error if the call failed. Nothing is said of the screen then, and one more
    /// failure is counted.
    fn get_cursor(&mut self) -> Result<(u16, u16), Self::Error>
        ensures ok { IfOk result (λ place. (place.0 ≡ (screen self.old).cursor_x)
            × (place.1 ≡ (screen self.old).cursor_y)) }
        ensures on_grid { OnOk result (IsOnGrid (screen self.old)) }
        ensures stays { OnOk result (screen self.new ≡ screen self.old) }
        ensures held { OnOk result (is_flushed self.new ≡ is_flushed self.old) }
        ensures counts { Counts result (failures self.old) (failures self.new) }
        ensures stops { OnErr result (stops_at self.old self.new) }
    {
        let position = self.get_cursor_position()?;
        Ok((position.x, position.y))
    }

    /// Moves the cursor: the old name of `set_cursor_position`.
    ///
    /// # Errors
    ///
    /// The backend's own error if the call failed. Nothing is said of the screen then, and one more
    /// failure is counted.
    fn set_cursor(&mut self, x: u16, y: u16) -> Result<(), Self::Error>
        ensures ok { OnOk result (screen self.new ≡ with_cursor x y (screen self.old)) }
        ensures counts { Counts result (failures self.old) (failures self.new) }
        ensures stops { OnErr result (stops_at self.old self.new) }
    {
        self.set_cursor_position(Position { x, y })
    }

    /// Empties the whole screen; the cursor stays.
    ///
    /// # Errors
    ///
    /// The backend's own error if the call failed. Nothing is said of the screen then, and one more
    /// failure is counted.
    fn clear(&mut self) -> Result<(), Self::Error>
        ensures ok { OnOk result (Clears (screen self.old) All (screen self.new)) }
        ensures counts { Counts result (failures self.old) (failures self.new) }
        ensures stops { OnErr result (stops_at self.old self.new) };

    /// Empties a part of the screen; the cursor stays.
    ///
    /// # Errors
    ///
    /// The backend's own error if the call failed. Nothing is said of the screen then, and one more
    /// failure is counted.
    fn clear_region(&mut self, clear_type: ClearType) -> Result<(), Self::Error>
        ensures ok { OnOk result (Clears (screen self.old) clear_type (screen self.new)) }
        ensures counts { Counts result (failures self.old) (failures self.new) }
        ensures stops { OnErr result (stops_at self.old self.new) };

    /// Returns the size in columns and rows.
    ///
    /// # Errors
    ///
    /// The backend's own error if the call failed. Nothing is said of the screen then, and one more
    /// failure is counted.
    fn size(&mut self) -> Result<Size, Self::Error>
        ensures ok { IfOk result (λ size. size ≡ size_of (screen self.old)) }
        ensures stays { OnOk result (screen self.new ≡ screen self.old) }
        ensures held { OnOk result (is_flushed self.new ≡ is_flushed self.old) }
        ensures counts { Counts result (failures self.old) (failures self.new) }
        ensures stops { OnErr result (stops_at self.old self.new) };

    /// Returns the size in columns and rows, and in pixels if they are known.
    ///
    /// # Errors
    ///
    /// The backend's own error if the call failed. Nothing is said of the screen then, and one more
    /// failure is counted.
    fn window_size(&mut self) -> Result<WindowSize, Self::Error>
        ensures ok { IfOk result (λ window. window.columns_rows ≡ size_of (screen self.old)) }
        ensures stays { OnOk result (screen self.new ≡ screen self.old) }
        ensures held { OnOk result (is_flushed self.new ≡ is_flushed self.old) }
        ensures counts { Counts result (failures self.old) (failures self.new) }
        ensures stops { OnErr result (stops_at self.old self.new) };

    /// Sends what is still held back; the screen stays as it is.
    ///
    /// # Errors
    ///
    /// The backend's own error if the call failed. Nothing is said of the screen then, and one more
    /// failure is counted.
    fn flush(&mut self) -> Result<(), Self::Error>
        ensures ok { OnOk result (screen self.new ≡ screen self.old) }
        ensures flushed { OnOk result (is_flushed self.new ≡ true) }
        ensures counts { Counts result (failures self.old) (failures self.new) }
        ensures stops { OnErr result (stops_at self.old self.new) };
}
