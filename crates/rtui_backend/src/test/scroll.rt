//! Rows that leave the screen, and parts of it that are emptied.

ghost use Rattle.std.specs.Prelude.{◌≡◌, ◌+◌, ◌-◌, ◌*◌, ◌^◌, ◌<◌, ◌≤◌, ◌&&◌, min, ℕ, nat_lt, nat_le, ◌==◌};
ghost use Rattle.std.specs.Prelude.{if◌then◌else◌, [], map, IsOk, OnOk, OnErr, IfOk};
ghost use Rattle.std.specs.List.{range_with_len};
ghost use Rattle.rtui_cell.specs.Look.{look_of};
ghost use Rattle.rtui_backend.specs.Clear.{is_cleared};
ghost use Rattle.rtui_backend.specs.CellGrid.{look_at, AreUnmarked, AreUnmarkedRows};

use crate::clear_type::ClearType;
use crate::test::TestBackend;
use rtui_buffer::{Buffer, Cell};
use rtui_geometry::{Position, Rect, Size};
use rtui_grid::{Block, fill, move_block, shift_down, shift_up};
use std::alloc::{AllocError, Global};
use std::ops::Range;

// Copies of so many cells, with empty ones past the end.
fn copied_row(
    alloc: Global,
    cells: &[Cell],
    start: usize,
    width: u16,
) -> Result<Vec<Cell>, AllocError>
    requires { start < 2 ^ 63 }
    ensures looks { IfOk result (λ row. map look_of row.items
        ≡ map (λ a. look_at cells.now (start + a)) (range_with_len 0 width)) }
    ensures unmarked { AreUnmarked cells.now → IfOk result (λ row. AreUnmarked row.items) }
{
    let mut row = Vec::with_capacity(alloc, usize::from(width))?;
    for a in 0..usize::from(width) {
        let cell = match cells.get(start + a) {
            Some(cell) => cell.clone(alloc)?,
            None => Cell::EMPTY,
        };
        row.push(cell)?;
    }
    Ok(row)
}

// Copies of the first rows, with empty ones past the end.
fn copied_rows(
    alloc: Global,
    cells: &[Cell],
    width: u16,
    count: u32,
) -> Result<Vec<Vec<Cell>>, AllocError>
    ensures looks { IfOk result (λ rows. map (λ row. map look_of row.items) rows.items
        ≡ map (λ b. map (λ a. look_at cells.now (b * width + a)) (range_with_len 0 width))
        (range_with_len 0 count)) }
    ensures unmarked { AreUnmarked cells.now → IfOk result (λ rows.
        AreUnmarkedRows (map (λ row. row.items) rows.items)) }
{
    let mut rows = Vec::new(alloc);
    for b in 0..count {
        let start = b as usize * usize::from(width);
        rows.push(copied_row(alloc, cells, start, width)?)?;
    }
    Ok(rows)
}

// Copies of the rows that leave a region which begins with this row, with empty ones past its end:
// of one at the top alone.
fn leaving_rows(
    alloc: Global,
    cells: &[Cell],
    width: u16,
    start: u16,
    count: u16,
) -> Result<Vec<Vec<Cell>>, AllocError>
    ensures looks { IfOk result (λ rows. map (λ row. map look_of row.items) rows.items
        ≡ (if start == 0 then map (λ b. map (λ a. look_at cells.now (b * width + a))
        (range_with_len 0 width)) (range_with_len 0 count) else [])) }
    ensures none { 0 < start → IfOk result (λ rows. rows.items ≡ []) }
    ensures short { 0 < start → IsOk result }
    ensures unmarked { AreUnmarked cells.now → IfOk result (λ rows.
        AreUnmarkedRows (map (λ row. row.items) rows.items)) }
{
    if start == 0 {
        copied_rows(alloc, cells, width, u32::from(count))
    } else {
        Ok(Vec::new(alloc))
    }
}

// The places that a clear empties, in rows of cells.
fn cleared_places(size: Size, cursor: Position, clear_type: ClearType) -> (usize, usize)
    requires column { cursor.x ≤ size.width - 1 }
    ensures order { result.0 ≤ result.1 }
    ensures end { result.1 ≤ size.width * size.height }
    ensures places { (a b : ℕ) → a < size.width → b < size.height
        → (nat_le result.0 (b * size.width + a) && nat_lt (b * size.width + a) result.1)
        ≡ is_cleared clear_type cursor.x cursor.y a b }
{
    let width = usize::from(size.width);
    let count = width * usize::from(size.height);
    let line = (usize::from(cursor.y) * width).min(count);
    let line_end = (line + width).min(count);
    let at = (line + usize::from(cursor.x)).min(count);
    match clear_type {
        ClearType::All => (0, count),
        ClearType::AfterCursor => (at, count),
        ClearType::BeforeCursor => (0, (at + 1).min(count)),
        ClearType::CurrentLine => (line, line_end),
        ClearType::UntilNewLine => (at, line_end),
    }
}

impl TestBackend {
    ghost use Rattle.rtui_backend.specs.Screen.{Appends, Clears, ScrollsUp, ScrollsDown, TakesSize};
    ghost use Rattle.rtui_backend.specs.Screen.{cursor_of};
    ghost use Rattle.rtui_backend.specs.TestBackend.{screen_of, failures_of, told_after};

    /// Moves the cursor's row down by `n`, and scrolls what goes past the last row, as
    /// `append_lines` does. It is no call of `Backend`, and `fail_after` doesn't count it.
    ///
    /// # Errors
    ///
    /// `AllocError` if memory is refused; the screen is as before then.
    pub fn append(&mut self, n: u16) -> Result<(), AllocError>
        ensures ok { OnOk result (Appends (screen_of self.old) n (screen_of self.new)) }
        ensures column { (screen_of self.new).cursor_x ≡ (screen_of self.old).cursor_x }
        ensures memory { OnErr result (screen_of self.new ≡ screen_of self.old) }
        ensures failures { failures_of self.new ≡ failures_of self.old }
        ensures told { told_after self.new ≡ told_after self.old }
    {
        let area = *self.buffer.area();
        if area.height == 0 {
            return Ok(());
        }
        let last = area.height - 1;
        let row = u32::from(self.cursor.y) + u32::from(n);
        let past = row.saturating_sub(u32::from(last));
        let mut rows = copied_rows(self.alloc, self.buffer.content(), area.width, past)?;
        self.scrollback.append(&mut rows)?;
        let places = past as usize * usize::from(area.width);
        let cells = self.buffer.cells_mut();
        let end = cells.len();
        shift_up(cells, 0, end, places);
        self.cursor.y = self.cursor.y.saturating_add(n).min(last);
        Ok(())
    }

    /// Moves the rows of a region up by `n`, those of a region at the top to the history, as
    /// `scroll_region_up` does. It is no call of `Backend`, and `fail_after` doesn't count it.
    ///
    /// # Errors
    ///
    /// `AllocError` if memory is refused; the screen is as before then. A region that begins below
    /// the first row takes none.
    pub fn scroll_up(&mut self, region: Range<u16>, n: u16) -> Result<(), AllocError>
        ensures ok { OnOk result
            (ScrollsUp region.start region.end n (screen_of self.old) (screen_of self.new)) }
        ensures short { 0 < region.start → IsOk result }
        ensures cursor { cursor_of (screen_of self.new) ≡ cursor_of (screen_of self.old) }
        ensures memory { OnErr result (screen_of self.new ≡ screen_of self.old) }
        ensures failures { failures_of self.new ≡ failures_of self.old }
        ensures told { told_after self.new ≡ told_after self.old }
    {
        let area = *self.buffer.area();
        let end = region.end.min(area.height);
        if region.start >= end {
            return Ok(());
        }
        let width = usize::from(area.width);
        let to = usize::from(end) * width;
        let cells = &self.buffer.content()[..to];
        let mut rows = leaving_rows(self.alloc, cells, area.width, region.start, n)?;
        self.scrollback.append(&mut rows)?;
        let from = usize::from(region.start) * width;
        shift_up(self.buffer.cells_mut(), from, to, usize::from(n) * width);
        Ok(())
    }

    /// Moves the rows of a region down by `n`, as `scroll_region_down` does. It is no call of
    /// `Backend`, and `fail_after` doesn't count it.
    pub fn scroll_down(&mut self, region: Range<u16>, n: u16)
        ensures scrolled { ScrollsDown region.start region.end n
            (screen_of self.old) (screen_of self.new) }
        ensures cursor { cursor_of (screen_of self.new) ≡ cursor_of (screen_of self.old) }
        ensures failures { failures_of self.new ≡ failures_of self.old }
        ensures told { told_after self.new ≡ told_after self.old }
    {
        let area = *self.buffer.area();
        let end = region.end.min(area.height);
        if region.start >= end {
            return;
        }
        let width = usize::from(area.width);
        let from = usize::from(region.start) * width;
        let to = usize::from(end) * width;
        shift_down(self.buffer.cells_mut(), from, to, usize::from(n) * width);
    }

    /// Empties a part of the screen, as `clear_region` does. It is no call of `Backend`, and
    /// `fail_after` doesn't count it.
    pub fn clear_part(&mut self, clear_type: ClearType)
        ensures cleared { Clears (screen_of self.old) clear_type (screen_of self.new) }
        ensures failures { failures_of self.new ≡ failures_of self.old }
        ensures told { told_after self.new ≡ told_after self.old }
    {
        let size = self.buffer.area().as_size();
        let (from, to) = cleared_places(size, self.cursor, clear_type);
        fill(self.buffer.cells_mut(), from, to);
    }

    /// Gives the screen another size in columns and rows: rows and columns are cut, or blank ones
    /// come in at the right and below. The history stays, and the cursor is kept on the screen.
    /// This is no call of `Backend`, and `fail_after` doesn't count it.
    ///
    /// # Errors
    ///
    /// `AllocError` if memory is refused; nothing has changed then.
    pub fn resize(&mut self, width: u16, height: u16) -> Result<(), AllocError>
        ensures ok { OnOk result (TakesSize (screen_of self.old)
            (record { width = width; height = height }) (screen_of self.new)) }
        ensures refused { OnErr result (self.new ≡ self.old) }
        ensures failures { failures_of self.new ≡ failures_of self.old }
        ensures told { told_after self.new ≡ told_after self.old }
    {
        let former = self.buffer.area().as_size();
        let mut buffer = Buffer::empty(self.alloc, Rect::new(0, 0, width, height))?;
        let shared = Block {
            left: 0,
            top: 0,
            columns: former.width.min(width),
            rows: former.height.min(height),
        };
        let former_cells = self.buffer.cells_mut();
        move_block(
            buffer.cells_mut(),
            width,
            shared,
            former_cells,
            former.width,
        );
        self.buffer = buffer;
        self.cursor.x = self.cursor.x.min(width.saturating_sub(1));
        self.cursor.y = self.cursor.y.min(height.saturating_sub(1));
        Ok(())
    }
}
