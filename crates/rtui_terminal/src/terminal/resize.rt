ghost use Rattle.std.specs.Prelude.{OnOk, OnErr, MatchResult};
ghost use Rattle.rtui_geometry.specs.Rect.{EdgesFit};
ghost use Rattle.rtui_terminal.specs.Faults.{Faults, FailsOnlyByBackend};
ghost use Rattle.rtui_terminal.specs.Resizing.{Resizes, ResizeErr, Autoresizes, AutoresizeErr};
ghost use Rattle.rtui_terminal.specs.Clearing.{ClearsViewport, FailsClearing};

use crate::terminal::Terminal;
use crate::terminal::error::TerminalError;
use rtui_backend::Backend;
use rtui_geometry::Rect;
use rtui_viewport::{changed_area, clear_area, place_viewport, restore_cursor};

impl<B: Backend> Terminal<B> {
    /// Empties the viewport and the previous buffer, so that the next draw writes the whole frame;
    /// the current buffer and the cursor stay. The terminal is in step then if the viewport is on
    /// the screen and the previous buffer has its area. It takes no memory.
    ///
    /// # Errors
    ///
    /// `Backend` if a call of the backend failed. All of the terminal but the backend is as before
    /// then; or the viewport was emptied, the previous buffer is empty too, and only the cursor
    /// wasn't set back.
    pub fn clear(&mut self) -> Result<(), TerminalError<B::Error>>
        ensures ok { OnOk result (ClearsViewport B.screen self.old self.new) }
        ensures err { OnErr result (FailsClearing B.screen self.old self.new) }
        ensures only { FailsOnlyByBackend result }
        ensures faults { Faults result (B.failures self.old.backend) (B.failures self.new.backend) }
    {
        let cursor = self
            .backend
            .get_cursor_position()
            .map_err(TerminalError::Backend)?;
        clear_area(&mut self.backend, self.viewport, self.viewport_area).map_err(
            TerminalError::Backend,
        )?;
        self.frames.previous.reset();
        restore_cursor(&mut self.backend, Some(cursor)).map_err(TerminalError::Backend)
    }

    /// Places the viewport on a new area of the screen, in columns and rows, sizes both buffers to
    /// it, and empties it: an inline viewport goes around the cursor, any other takes the area. If
    /// it became narrower, it goes to the top, and the whole screen is emptied. The terminal is in
    /// step then if the viewport is on the screen, as it is if the area is the screen's own.
    ///
    /// # Conditions
    ///
    /// The edges of the area are at most 65535.
    ///
    /// # Errors
    ///
    /// - `Memory`: a buffer had no room for the area, and memory was refused. It is taken first,
    ///   and nothing has changed then.
    /// - `Backend`: a call of the backend failed. The viewport and both buffers are as before, or
    ///   they have their new area already. The last known area stays.
    pub fn resize(&mut self, area: Rect) -> Result<(), TerminalError<B::Error>>
        requires { EdgesFit area }
        ensures outcome { MatchResult result (λ _. Resizes B.screen area self.old self.new)
            (ResizeErr B.screen area self.old self.new) }
        ensures faults { Faults result (B.failures self.old.backend) (B.failures self.new.backend) }
    {
        let rows = Rect {
            x: 0,
            y: 0,
            width: area.width,
            height: self.viewport.rows_in(area.height),
        };
        self.frames.reserve(rows)?;
        let offset = self
            .last_known_cursor_pos
            .y
            .saturating_sub(self.viewport_area.y);
        let former_width = self.viewport_area.width;
        let placed = place_viewport(
            &mut self.backend,
            self.viewport,
            former_width,
            area,
            offset,
        ).map_err(TerminalError::Backend)?;
        self.frames.set_area(placed.area);
        self.viewport_area = placed.area;
        clear_area(&mut self.backend, self.viewport, placed.area).map_err(TerminalError::Backend)?;
        self.frames.previous.reset();
        restore_cursor(&mut self.backend, placed.cursor).map_err(TerminalError::Backend)?;
        self.last_known_area = area;
        Ok(())
    }

    /// Resizes to the size of the screen if that isn't the last known one; a fixed viewport stays.
    ///
    /// # Errors
    ///
    /// Those of `resize`, and `Backend` if the screen's size can't be asked for. For a fixed
    /// viewport there are none.
    pub fn autoresize(&mut self) -> Result<(), TerminalError<B::Error>>
        ensures outcome { MatchResult result (λ _. Autoresizes B.screen self.old self.new)
            (AutoresizeErr B.screen self.old self.new) }
        ensures faults { Faults result (B.failures self.old.backend) (B.failures self.new.backend) }
    {
        let changed = changed_area(&mut self.backend, self.viewport, self.last_known_area).map_err(
            TerminalError::Backend,
        )?;
        match changed {
            Some(area) => self.resize(area),
            None => Ok(()),
        }
    }
}
