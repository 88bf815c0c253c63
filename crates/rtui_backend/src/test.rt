//! A backend in memory.

ghost use Rattle.std.specs.Prelude.{◌≡◌, IsTrue, ◌↔◌, ℕ, ◌+◌, ◌-◌, ◌*◌, ◌^◌, ◌<◌, ◌≤◌, ◌==◌, true, List, map};
ghost use Rattle.std.specs.Prelude.{length, Some, IfOk, OnOk, OnErr};
ghost use Rattle.std.specs.Iterator.{IsFinite, Drains};
ghost use Rattle.rtui_geometry.specs.Rect.{EdgesFit};
ghost use Rattle.rtui_cell.specs.Look.{look_of};
ghost use Rattle.rtui_cell.specs.Grid.{put, update_by};
ghost use Rattle.rtui_buffer.specs.BufferData.{area_size, IsEqualBuffer, buffer_row};
ghost use Rattle.rtui_backend.specs.Screen.{Draws};
ghost use Rattle.rtui_backend.specs.CellGrid.{grid_of, AreUnmarked, AreUnmarkedRows};
ghost use Rattle.rtui_backend.specs.Failures.{Counts};
ghost use Rattle.rtui_backend.specs.Display.{test_error_text};

use crate::backend::{AsCell, Backend, WindowSize};
use crate::clear_type::ClearType;
use rtui_buffer::laws::equality_is_by_cells;
use rtui_buffer::{Buffer, Cell};
use rtui_geometry::{Position, Rect, Size};
use std::alloc::{AllocError, Global};
use std::error::Error;
use std::fmt;
use std::ops::Range;

mod lines;
mod print;
mod put;
mod scroll;

/// Why a call of a `TestBackend` failed.
#[derive(Clone, Copy, Debug, PartialEq, Eq, Hash)]
pub enum TestError {
    /// Memory was refused.
    Memory,
    /// `fail_after` asked for it.
    Told,
}

impl fmt::Display for TestError {
    ghost output = { λ error. Some (test_error_text error) };

    fn fmt<W: fmt::Write>(&self, f: &mut fmt::Formatter<W>) -> fmt::Result {
        f.write_str(match self {
            TestError::Memory => "no memory",
            TestError::Told => "told",
        })
    }
}

impl Error for TestError {}

/// A screen in memory, for tests: it keeps the contract of `Backend`, shows what it holds, and
/// fails when `fail_after` asks it to. A draw leaves the cursor where it is. If memory is refused
/// in a draw, the items before are put. Its cells have no options and no flags.
///
/// ```
/// let mut backend = TestBackend::new(alloc, 5, 1)?;
/// let cell = Cell::new(alloc, "x")?;
/// backend.draw(iter::once((1, 0, &cell)))?;
/// assert!(rt; backend.lines_are(&[" x   "]));
/// ```
#[derive(Debug, Drop, PartialEq, Eq, Hash)]
pub struct TestBackend {
    buffer: Buffer,
    scrollback: Vec<Vec<Cell>>,
    cursor: Position,
    visible: bool,
    written: u64,
    // how many calls answer as usual before one fails
    fail_after: Option<u64>,
    failures: u64,
    alloc: Global,
    ghost cells: { length buffer.cells ≡ area_size buffer.area },
    ghost edges: { EdgesFit buffer.area },
    ghost corner_x: { buffer.area.x ≡ 0 },
    ghost corner_y: { buffer.area.y ≡ 0 },
    ghost column: { cursor.x ≤ buffer.area.width - 1 },
    ghost row: { cursor.y ≤ buffer.area.height - 1 },
    ghost plain: { AreUnmarked buffer.cells },
    ghost plain_history: { AreUnmarkedRows (map (λ row. row.items) scrollback.items) },
}

impl TestBackend {
    ghost use Rattle.std.specs.Prelude.{None};
    ghost use Rattle.rtui_cell.specs.declared.cell.Cell.{Cell};
    ghost use Rattle.rtui_backend.specs.Screen.{IsBlankScreen, cursor_of, row_of, screen_area};
    ghost use Rattle.rtui_backend.specs.TestBackend.{screen_of, buffer_of, failures_of, told_after};
    ghost use Rattle.rtui_backend.specs.TestBackend.{TakesTurn, IsSameBackend, DrawsFront, HasOnlyPut};

    /// Makes a blank screen of this size in columns and rows, its cursor visible in the corner.
    ///
    /// # Errors
    ///
    /// `AllocError` if memory is refused.
    pub fn new(alloc: Global, width: u16, height: u16) -> Result<TestBackend, AllocError>
        ensures screen { IfOk result (λ b. IsBlankScreen width height (screen_of b)) }
        ensures failures { IfOk result (λ b. failures_of b ≡ 0) }
        ensures told { IfOk result (λ b. told_after b ≡ None) }
    {
        Ok(TestBackend {
            buffer: Buffer::empty(alloc, Rect::new(0, 0, width, height))?,
            scrollback: Vec::new(alloc),
            cursor: Position::ORIGIN,
            visible: true,
            written: 0,
            fail_after: None,
            failures: 0,
            alloc,
        })
    }

    /// Returns what the screen shows, as a buffer with its corner at (0, 0).
    pub fn buffer(&self) -> &Buffer
        ensures area { result.now.area ≡ screen_area (screen_of self.now) }
        ensures shown { (a b : ℕ) → grid_of result.now.area.width result.now.cells a b
            ≡ (screen_of self.now).grid a b }
        ensures rows { (b : ℕ) → b < (screen_of self.now).height
            → map look_of (buffer_row result.now b) ≡ row_of (screen_of self.now) b }
        ensures value { result.now ≡ buffer_of self.now }
        ensures plain { AreUnmarked result.now.cells }
    {
        &self.buffer
    }

    /// Returns whether the screen, as a buffer with its corner at (0, 0), equals this one: the same
    /// size, in each column the cell's look, and no cell with an option or the flag.
    pub fn buffer_is(&self, buffer: &Buffer) -> bool
        ensures { IsTrue result ↔ IsEqualBuffer (buffer_of self.now) buffer.now }
    {
        equality_is_by_cells();
        self.buffer == *buffer
    }

    /// Returns the rows that scrolled off the screen, in order, each as wide as the screen was
    /// then. Their cells have no options and no flags.
    pub fn scrollback(&self) -> &[Vec<Cell>]
        ensures looks { map (λ row. map look_of row.items) result.now
            ≡ (screen_of self.now).history }
        ensures unmarked { AreUnmarkedRows (map (λ row. row.items) result.now) }
    {
        self.scrollback.as_slice()
    }

    /// Returns whether the cursor is visible.
    pub fn cursor_visible(&self) -> bool
        ensures { result ≡ (screen_of self.now).visible }
    {
        self.visible
    }

    /// Returns where the cursor is.
    pub fn cursor_position(&self) -> Position
        ensures { result ≡ cursor_of (screen_of self.now) }
    {
        self.cursor
    }

    /// Returns how many items were handed to `draw` since the backend was made, those off the
    /// screen too; it stays at the greatest number.
    pub fn cells_written(&self) -> u64
        ensures { result ≡ (screen_of self.now).written }
    {
        self.written
    }

    /// Lets the next `calls` calls of `Backend` answer as usual. The one after them answers `Told`,
    /// which changes nothing but the count of failures; later calls answer as usual again.
    pub fn fail_after(&mut self, calls: u64)
        ensures same { IsSameBackend self.old self.new }
        ensures told { told_after self.new ≡ Some calls }
    {
        self.fail_after = Some(calls);
    }

    // The start of each call: fails if this is the one that `fail_after` names.
    #[tactic(auto, using(crate::proofs::DrawLemmas::nothing_put))]
    fn begin(&mut self) -> Result<(), TestError>
        ensures ok { OnOk result (IsSameBackend self.old self.new) }
        ensures counts { Counts result (failures_of self.old) (failures_of self.new) }
        ensures turn { TakesTurn result self.old self.new }
        ensures stops { OnErr result (HasOnlyPut self.old self.new) }
    {
        match self.fail_after {
            None => Ok(()),
            Some(0) => {
                self.fail_after = None;
                Err(self.failed(TestError::Told))
            }
            Some(calls) => {
                self.fail_after = Some(calls - 1);
                Ok(())
            }
        }
    }

    // Counts a failure, and gives the error back.
    pub(crate) fn failed(&mut self, error: TestError) -> TestError
        ensures error { result ≡ error }
        ensures screen { screen_of self.new ≡ screen_of self.old }
        ensures told { told_after self.new ≡ told_after self.old }
        ensures count { failures_of self.old < 2 ^ 64 - 1
            → failures_of self.new ≡ failures_of self.old + 1 }
    {
        self.failures = self.failures.saturating_add(1);
        error
    }
}

impl Backend for TestBackend {
    ghost use Rattle.std.specs.Prelude.{true, false};
    ghost use Rattle.rtui_backend.specs.declared.clear_type.ClearType.TheVariants.{All};
    ghost use Rattle.rtui_backend.specs.Screen.{Appends, Clears, ScrollsUp, ScrollsDown};
    ghost use Rattle.rtui_geometry.specs.declared.size.Size.{Size};
    ghost use Rattle.rtui_backend.specs.Screen.{IsOnGrid, with_visible, with_cursor, cursor_of, size_of};
    ghost use Rattle.rtui_backend.specs.TestBackend.{screen_of, failures_of, told_after, one_call_less};
    ghost use Rattle.rtui_backend.specs.TestBackend.{TakesTurn, DrawsFront, HasOnlyPut};

    type Error = TestError;

    ghost screen = { screen_of };

    ghost failures = { failures_of };

    ghost is_flushed = { λ b. true };

    ghost stops_at = { HasOnlyPut };

    fn draw<C: AsCell, I: Iterator<Item = (u16, u16, C)>>(
        &mut self,
        content: I,
    ) -> Result<(), TestError>
        requires can { I.can_next content }
        requires finite { IsFinite (I.remaining content) }
        ensures ok { OnOk result (
            (items : List (ℕ × ℕ × C)) × Drains I.next_gives content items
            × Draws (screen_of self.old) (map (update_by C.cell) items) (screen_of self.new)) }
        ensures memory { result ≡ Err TestError.Memory → DrawsFront I.next_gives content
            (update_by C.cell) (screen_of self.old) (screen_of self.new) }
        ensures cursor { cursor_of (screen_of self.new) ≡ cursor_of (screen_of self.old) }
        ensures counts { Counts result (failures_of self.old) (failures_of self.new) }
        ensures stops { OnErr result (HasOnlyPut self.old self.new) }
        ensures told { (result ≡ Err TestError.Told) ↔ (told_after self.old ≡ Some 0) }
        ensures unchanged { result ≡ Err TestError.Told → screen_of self.new ≡ screen_of self.old }
        ensures left { told_after self.new ≡ one_call_less (told_after self.old) }
    {
        self.begin()?;
        match self.put_all(content) {
            Ok(()) => Ok(()),
            Err(_) => Err(self.failed(TestError::Memory)),
        }
    }

    #[tactic(auto, using(crate::proofs::DrawLemmas::nothing_put))]
    fn append_lines(&mut self, n: u16) -> Result<(), TestError>
        ensures ok { OnOk result (Appends (screen_of self.old) n (screen_of self.new)) }
        ensures column { OnOk result (
            (screen_of self.new).cursor_x ≡ (screen_of self.old).cursor_x) }
        ensures refused { OnErr result (screen_of self.new ≡ screen_of self.old) }
        ensures counts { Counts result (failures_of self.old) (failures_of self.new) }
        ensures stops { OnErr result (HasOnlyPut self.old self.new) }
        ensures told { (result ≡ Err TestError.Told) ↔ (told_after self.old ≡ Some 0) }
        ensures left { told_after self.new ≡ one_call_less (told_after self.old) }
    {
        self.begin()?;
        match self.append(n) {
            Ok(()) => Ok(()),
            Err(_) => Err(self.failed(TestError::Memory)),
        }
    }

    #[tactic(auto, using(crate::proofs::DrawLemmas::nothing_put))]
    fn scroll_region_up(&mut self, region: Range<u16>, n: u16) -> Result<(), TestError>
        ensures ok { OnOk result (ScrollsUp region.start region.end n
            (screen_of self.old) (screen_of self.new)) }
        ensures short { 0 < region.start → result ≡ Err TestError.Memory → ⊥ }
        ensures cursor { cursor_of (screen_of self.new) ≡ cursor_of (screen_of self.old) }
        ensures refused { OnErr result (screen_of self.new ≡ screen_of self.old) }
        ensures counts { Counts result (failures_of self.old) (failures_of self.new) }
        ensures stops { OnErr result (HasOnlyPut self.old self.new) }
        ensures told { (result ≡ Err TestError.Told) ↔ (told_after self.old ≡ Some 0) }
        ensures left { told_after self.new ≡ one_call_less (told_after self.old) }
    {
        self.begin()?;
        match self.scroll_up(region, n) {
            Ok(()) => Ok(()),
            Err(_) => Err(self.failed(TestError::Memory)),
        }
    }

    fn scroll_region_down(&mut self, region: Range<u16>, n: u16) -> Result<(), TestError>
        ensures ok { OnOk result (ScrollsDown region.start region.end n
            (screen_of self.old) (screen_of self.new)) }
        ensures cursor { cursor_of (screen_of self.new) ≡ cursor_of (screen_of self.old) }
        ensures counts { Counts result (failures_of self.old) (failures_of self.new) }
        ensures stops { OnErr result (HasOnlyPut self.old self.new) }
        ensures turn { TakesTurn result self.old self.new }
    {
        self.begin()?;
        self.scroll_down(region, n);
        Ok(())
    }

    fn clear(&mut self) -> Result<(), TestError>
        ensures ok { OnOk result (Clears (screen_of self.old) All (screen_of self.new)) }
        ensures counts { Counts result (failures_of self.old) (failures_of self.new) }
        ensures stops { OnErr result (HasOnlyPut self.old self.new) }
        ensures turn { TakesTurn result self.old self.new }
    {
        self.clear_region(ClearType::All)
    }

    fn clear_region(&mut self, clear_type: ClearType) -> Result<(), TestError>
        ensures ok { OnOk result (Clears (screen_of self.old) clear_type (screen_of self.new)) }
        ensures counts { Counts result (failures_of self.old) (failures_of self.new) }
        ensures stops { OnErr result (HasOnlyPut self.old self.new) }
        ensures turn { TakesTurn result self.old self.new }
    {
        self.begin()?;
        self.clear_part(clear_type);
        Ok(())
    }

    fn hide_cursor(&mut self) -> Result<(), TestError>
        ensures ok { OnOk result (screen_of self.new ≡ with_visible false (screen_of self.old)) }
        ensures counts { Counts result (failures_of self.old) (failures_of self.new) }
        ensures stops { OnErr result (HasOnlyPut self.old self.new) }
        ensures turn { TakesTurn result self.old self.new }
    {
        self.begin()?;
        self.visible = false;
        Ok(())
    }

    fn show_cursor(&mut self) -> Result<(), TestError>
        ensures ok { OnOk result (screen_of self.new ≡ with_visible true (screen_of self.old)) }
        ensures counts { Counts result (failures_of self.old) (failures_of self.new) }
        ensures stops { OnErr result (HasOnlyPut self.old self.new) }
        ensures turn { TakesTurn result self.old self.new }
    {
        self.begin()?;
        self.visible = true;
        Ok(())
    }

    fn get_cursor_position(&mut self) -> Result<Position, TestError>
        ensures ok { IfOk result (λ position. position ≡ cursor_of (screen_of self.old)) }
        ensures on_grid { OnOk result (IsOnGrid (screen_of self.old)) }
        ensures stays { OnOk result (screen_of self.new ≡ screen_of self.old) }
        ensures counts { Counts result (failures_of self.old) (failures_of self.new) }
        ensures stops { OnErr result (HasOnlyPut self.old self.new) }
        ensures turn { TakesTurn result self.old self.new }
    {
        self.begin()?;
        Ok(self.cursor)
    }

    fn get_cursor(&mut self) -> Result<(u16, u16), TestError>
        ensures ok { IfOk result (λ place. (place.0 ≡ (screen_of self.old).cursor_x)
            × (place.1 ≡ (screen_of self.old).cursor_y)) }
        ensures on_grid { OnOk result (IsOnGrid (screen_of self.old)) }
        ensures stays { OnOk result (screen_of self.new ≡ screen_of self.old) }
        ensures counts { Counts result (failures_of self.old) (failures_of self.new) }
        ensures stops { OnErr result (HasOnlyPut self.old self.new) }
        ensures turn { TakesTurn result self.old self.new }
    {
        let position = self.get_cursor_position()?;
        Ok((position.x, position.y))
    }

    fn set_cursor(&mut self, x: u16, y: u16) -> Result<(), TestError>
        ensures ok { OnOk result (screen_of self.new ≡ with_cursor x y (screen_of self.old)) }
        ensures counts { Counts result (failures_of self.old) (failures_of self.new) }
        ensures stops { OnErr result (HasOnlyPut self.old self.new) }
        ensures turn { TakesTurn result self.old self.new }
    {
        self.set_cursor_position(Position { x, y })
    }

    fn set_cursor_position(&mut self, position: Position) -> Result<(), TestError>
        ensures ok { OnOk result (
            screen_of self.new ≡ with_cursor position.x position.y (screen_of self.old)) }
        ensures counts { Counts result (failures_of self.old) (failures_of self.new) }
        ensures stops { OnErr result (HasOnlyPut self.old self.new) }
        ensures turn { TakesTurn result self.old self.new }
    {
        self.begin()?;
        let area = *self.buffer.area();
        self.cursor = Position {
            x: position.x.min(area.width.saturating_sub(1)),
            y: position.y.min(area.height.saturating_sub(1)),
        };
        Ok(())
    }

    fn size(&mut self) -> Result<Size, TestError>
        ensures ok { IfOk result (λ size. size ≡ size_of (screen_of self.old)) }
        ensures stays { OnOk result (screen_of self.new ≡ screen_of self.old) }
        ensures counts { Counts result (failures_of self.old) (failures_of self.new) }
        ensures stops { OnErr result (HasOnlyPut self.old self.new) }
        ensures turn { TakesTurn result self.old self.new }
    {
        self.begin()?;
        Ok(self.buffer.area().as_size())
    }

    fn window_size(&mut self) -> Result<WindowSize, TestError>
        ensures ok { IfOk result (λ window. window.columns_rows ≡ size_of (screen_of self.old)) }
        ensures pixels { IfOk result (λ window. window.pixels ≡ record { width = 0; height = 0 }) }
        ensures stays { OnOk result (screen_of self.new ≡ screen_of self.old) }
        ensures counts { Counts result (failures_of self.old) (failures_of self.new) }
        ensures stops { OnErr result (HasOnlyPut self.old self.new) }
        ensures turn { TakesTurn result self.old self.new }
    {
        self.begin()?;
        Ok(WindowSize {
            columns_rows: self.buffer.area().as_size(),
            pixels: Size::ZERO,
        })
    }

    fn flush(&mut self) -> Result<(), TestError>
        ensures ok { OnOk result (screen_of self.new ≡ screen_of self.old) }
        ensures counts { Counts result (failures_of self.old) (failures_of self.new) }
        ensures stops { OnErr result (HasOnlyPut self.old self.new) }
        ensures turn { TakesTurn result self.old self.new }
    {
        self.begin()
    }
}
