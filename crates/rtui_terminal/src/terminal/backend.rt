ghost use Rattle.std.specs.Prelude.{◌≡◌, OnOk, IfOk};
ghost use Rattle.std.specs.Borrow.{sem};
ghost use Rattle.rtui_backend.specs.Screen.{size_of};
ghost use Rattle.rtui_terminal.specs.InStep.{IsInStep};
ghost use Rattle.rtui_terminal.specs.Faults.{Faults, FailsOnlyByBackend};
ghost use Rattle.rtui_terminal.specs.Cursor.{Stays};
ghost use Rattle.rtui_terminal.specs.Borrows.{LendsBackend};

use crate::terminal::Terminal;
use crate::terminal::error::TerminalError;
use rtui_backend::Backend;
use rtui_geometry::{Rect, Size};

impl<B: Backend> Terminal<B> {
    /// Returns the backend.
    pub fn backend(&self) -> &B
        ensures { result.now ≡ self.now.backend }
    {
        &self.backend
    }

    /// Returns the backend, to be written. The terminal doesn't know what is changed on its screen.
    pub fn backend_mut(&mut self) -> &mut B
        ensures* writes_back { sem 𝓛 (LendsBackend B.row B.Error.row B.Backend B.Error.Debug
            B.Error.Display self.entry result) }
        ensures value { result.now ≡ self.old.backend }
    {
        &mut self.backend
    }

    /// Returns the backend, when the terminal is done with: as the last call left it. A cursor that
    /// the terminal hid stays hidden.
    pub fn into_backend(self) -> B
        ensures { result ≡ self.backend }
    {
        let Terminal {
            backend,
            frames: _,
            viewport: _,
            viewport_area: _,
            last_known_area: _,
            last_known_cursor_pos: _,
            hidden_cursor: _,
            frame_count: _,
        } = self;
        backend
    }

    /// Returns the viewport: the part of the screen that is drawn on, in columns and rows.
    pub fn viewport_area(&self) -> Rect
        ensures { result ≡ self.now.viewport_area }
    {
        self.viewport_area
    }

    /// Returns the area of the screen when the terminal last asked for it, in columns and rows: a
    /// draw on a screen of another size resizes first. A fixed viewport's own area stays in its
    /// place.
    pub fn last_known_area(&self) -> Rect
        ensures { result ≡ self.now.last_known_area }
    {
        self.last_known_area
    }

    /// Returns the size of the backend's screen, in columns and rows.
    ///
    /// # Errors
    ///
    /// `Backend` if the backend's call failed; all of the terminal but the backend is as before
    /// then.
    pub fn size(&mut self) -> Result<Size, TerminalError<B::Error>>
        ensures ok { IfOk result (λ size. size ≡ size_of (B.screen self.old.backend)) }
        ensures stays { OnOk result (Stays B.screen self.old self.new) }
        ensures in_step { OnOk result (IsInStep B.screen self.old → IsInStep B.screen self.new) }
        ensures rest { self.new ≡ record self.old { backend = self.new.backend } }
        ensures only { FailsOnlyByBackend result }
        ensures faults { Faults result (B.failures self.old.backend) (B.failures self.new.backend) }
    {
        self.backend.size().map_err(TerminalError::Backend)
    }
}
