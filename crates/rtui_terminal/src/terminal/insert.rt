ghost use Rattle.std.specs.Prelude.{◌≡◌, ◌<◌, ◌≤◌, true, Ok, OnOk, OnErr};
ghost use Rattle.rtui_viewport.specs.Viewports.{IsInline};
ghost use Rattle.rtui_insert.specs.Filling.{AcceptsRows, FillsRows};
ghost use Rattle.rtui_insert.specs.Rows.{IsBlankFor};
ghost use Rattle.rtui_terminal.specs.Faults.{Faults, FailsOnlyByBackend};
ghost use Rattle.rtui_terminal.specs.Insertion.{inserted_area, Inserts, StopsInserting};
ghost use Rattle.rtui_terminal.specs.Inner.{rows_at_once};
ghost use Rattle.rtui_terminal.specs.Insertion.{InsertsBy};

use crate::terminal::Terminal;
use crate::terminal::error::TerminalError;
use rtui_backend::Backend;
use rtui_buffer::Buffer;
use rtui_geometry::Rect;
use rtui_insert::{draw_rows, fill_rows, insert_down, insert_up, push_rows};
use rtui_viewport::Viewport;
use std::alloc::AllocError;

impl<B: Backend> Terminal<B> {
    // Inserts the rows of a buffer above an inline viewport that covers the screen: each is
    // scrolled off from the first row, which shows the previous buffer's first row again after
    // that.
    fn insert_covered(
        &mut self,
        blank: &mut Buffer,
        rows: &Buffer,
    ) -> Result<(), TerminalError<B::Error>>
        requires over { rows.now.area ≡ inserted_area self.old rows.now.area.height }
        requires blank { IsBlankFor 1 rows.now blank.old }
        requires some { 0 < rows.now.area.height }
        requires known { 0 < self.old.last_known_area.height }
        requires covers { self.old.last_known_area.height ≤ self.old.viewport_area.height }
        ensures ok { OnOk result (Inserts B.screen rows.now self.old self.new) }
        ensures flushed { OnOk result (B.is_flushed self.new.backend ≡ true) }
        ensures err { OnErr result (StopsInserting B.screen B.stops_at rows.now
            self.old self.new) }
        ensures only { FailsOnlyByBackend result }
        ensures faults { Faults result (B.failures self.old.backend) (B.failures self.new.backend) }
    {
        push_rows(&mut self.backend, blank, rows).map_err(TerminalError::Backend)?;
        if *self.frames.previous.area() != self.viewport_area {
            return self.backend.flush().map_err(TerminalError::Backend);
        }
        draw_rows(&mut self.backend, blank, &self.frames.previous, 0, 1, 0).map_err(
            TerminalError::Backend,
        )
    }

    // Inserts the rows of a buffer above an inline viewport, which moves down as far as there is
    // room.
    fn insert_filled(
        &mut self,
        blank: &mut Buffer,
        rows: &Buffer,
    ) -> Result<(), TerminalError<B::Error>>
        requires over { rows.now.area ≡ inserted_area self.old rows.now.area.height }
        requires blank { IsBlankFor (rows_at_once rows.now.area.height self.old)
            rows.now blank.old }
        requires some { 0 < rows.now.area.height }
        requires known { 0 < self.old.last_known_area.height }
        ensures ok { OnOk result (Inserts B.screen rows.now self.old self.new) }
        ensures flushed { OnOk result (B.is_flushed self.new.backend ≡ true) }
        ensures err { OnErr result (StopsInserting B.screen B.stops_at rows.now
            self.old self.new) }
        ensures only { FailsOnlyByBackend result }
        ensures faults { Faults result (B.failures self.old.backend) (B.failures self.new.backend) }
    {
        let former = self.viewport_area;
        let height = self.last_known_area.height;
        if former.height >= height {
            return self.insert_covered(blank, rows);
        }
        let down = insert_down(&mut self.backend, blank, rows, former, height).map_err(
            TerminalError::Backend,
        )?;
        let top = former.y + down;
        self.frames.follow(former, top);
        self.viewport_area = Rect { y: top, ..former };
        insert_up(&mut self.backend, blank, rows, down, top).map_err(TerminalError::Backend)
    }

    // Fills a buffer, and inserts its rows above an inline viewport.
    fn insert_inline<F>(&mut self, height: u16, draw_fn: F) -> Result<(), TerminalError<B::Error>>
    where
        F: FnOnce(&mut Buffer) -> Result<(), AllocError>,
        requires inline { IsInline self.old.viewport }
        requires accepts { AcceptsRows F.FnOnce draw_fn (inserted_area self.old height) }
        ensures outcome { let area = inserted_area self.old height in
            InsertsBy B.screen B.stops_at area (FillsRows F.FnOnce draw_fn area)
            self.old self.new result }
        ensures flushed { IsInline self.old.viewport → 0 < height
            → 0 < self.old.last_known_area.height
            → OnOk result (B.is_flushed self.new.backend ≡ true) }
        ensures faults { Faults result (B.failures self.old.backend) (B.failures self.new.backend) }
    {
        let area = Rect {
            x: 0,
            y: 0,
            width: self.viewport_area.width,
            height,
        };
        let known = self.last_known_area.height;
        let alloc = self.frames.current.allocator();
        // As many empty rows as are drawn at once, and none if none are drawn.
        let most = if known == 0 {
            0
        } else {
            known.max(self.viewport_area.y)
        };
        let blank_area = Rect {
            height: height.min(most),
            ..area
        };
        let mut blank = Buffer::empty(alloc, blank_area)?;
        let rows = fill_rows(alloc, area, draw_fn)?;
        if *rows.area() != area {
            return Err(TerminalError::Area);
        }
        if known == 0 || height == 0 {
            return Ok(());
        }
        self.insert_filled(&mut blank, &rows)
    }

    /// Inserts `height` rows above an inline viewport: the closure fills an empty buffer at (0, 0)
    /// of the viewport's width, its rows come to those above the viewport, which moves down as far
    /// as there is room and goes on showing the last frame; rows that have no room scroll off. Only
    /// the rows are written, and if the viewport is as high as the screen its first row, too; of
    /// rows without wide cells only what isn't blank, and then that first row twice. All of it is
    /// flushed, and the cursor may end anywhere: a draw places it. On another viewport the closure
    /// isn't called, and nothing changes.
    ///
    /// ```
    /// terminal.insert_before(1, |rows| {
    ///     let area = *rows.area();
    ///     Line::raw(alloc, "a line above")?.render(area, rows)
    /// })?;
    /// ```
    ///
    /// # Conditions
    ///
    /// On an inline viewport the closure may be called on an empty buffer of that area; a closure
    /// without conditions of its own always may.
    ///
    /// What is promised of the rows above holds of a viewport with a row, as wide as the screen,
    /// whose size is the last known one. If the screen was known to have no rows, nothing is
    /// written.
    ///
    /// # Errors
    ///
    /// - `Memory`: the buffer has cells and memory was refused, in which case the closure isn't
    ///   called; or the closure answered so. Then nothing changed.
    /// - `Area`: the closure changed the buffer's area. Then nothing changed.
    /// - `Backend`: a call of the backend failed, and it alone says what that did to the screen.
    ///   The viewport is where it was, or it has moved, and its rows on the screen with it. Until
    ///   that call only the rows that come in were written; where the viewport is as high as the
    ///   screen, only the first row changed.
    pub fn insert_before<F>(
        &mut self,
        height: u16,
        draw_fn: F,
    ) -> Result<(), TerminalError<B::Error>>
    where
        F: FnOnce(&mut Buffer) -> Result<(), AllocError>,
        requires { IsInline self.old.viewport →
            AcceptsRows F.FnOnce draw_fn (inserted_area self.old height) }
        ensures other { (IsInline self.old.viewport → ⊥) →
            (result ≡ Ok tt) × (self.new ≡ self.old) }
        ensures outcome { let area = inserted_area self.old height in
            IsInline self.old.viewport →
            InsertsBy B.screen B.stops_at area (FillsRows F.FnOnce draw_fn area)
            self.old self.new result }
        ensures flushed { IsInline self.old.viewport → 0 < height
            → 0 < self.old.last_known_area.height
            → OnOk result (B.is_flushed self.new.backend ≡ true) }
        ensures faults { Faults result (B.failures self.old.backend) (B.failures self.new.backend) }
    {
        match self.viewport {
            Viewport::Inline(_) => self.insert_inline(height, draw_fn),
            _ => Ok(()),
        }
    }
}
