ghost use Rattle.std.specs.Prelude.{◌≡◌, true, false, OnOk, OnErr, IfOk};
ghost use Rattle.rtui_backend.specs.Screen.{with_visible, with_cursor, cursor_of};
ghost use Rattle.rtui_terminal.specs.InStep.{IsInStep};
ghost use Rattle.rtui_terminal.specs.Faults.{Faults, FailsOnlyByBackend};
ghost use Rattle.rtui_terminal.specs.Cursor.{Stays, MovesCursor};

use crate::terminal::Terminal;
use crate::terminal::error::TerminalError;
use rtui_backend::Backend;
use rtui_geometry::Position;

impl<B: Backend> Terminal<B> {
    /// Hides the cursor.
    ///
    /// # Errors
    ///
    /// `Backend` if the backend's call failed; all of the terminal but the backend is as before
    /// then.
    pub fn hide_cursor(&mut self) -> Result<(), TerminalError<B::Error>>
        ensures ok { OnOk result
            (MovesCursor B.screen true self.old.last_known_cursor_pos (with_visible false) self.old
            self.new) }
        ensures err { OnErr result (self.new ≡ record self.old { backend = self.new.backend }) }
        ensures only { FailsOnlyByBackend result }
        ensures faults { Faults result (B.failures self.old.backend) (B.failures self.new.backend) }
    {
        self.backend.hide_cursor().map_err(TerminalError::Backend)?;
        self.hidden_cursor = true;
        Ok(())
    }

    /// Shows the cursor.
    ///
    /// # Errors
    ///
    /// `Backend` if the backend's call failed; all of the terminal but the backend is as before
    /// then.
    pub fn show_cursor(&mut self) -> Result<(), TerminalError<B::Error>>
        ensures ok { OnOk result
            (MovesCursor B.screen false self.old.last_known_cursor_pos (with_visible true) self.old
            self.new) }
        ensures err { OnErr result (self.new ≡ record self.old { backend = self.new.backend }) }
        ensures only { FailsOnlyByBackend result }
        ensures faults { Faults result (B.failures self.old.backend) (B.failures self.new.backend) }
    {
        self.backend.show_cursor().map_err(TerminalError::Backend)?;
        self.hidden_cursor = false;
        Ok(())
    }

    /// Returns whether the terminal hid the cursor and didn't show it since.
    pub fn is_cursor_hidden(&self) -> bool
        ensures { result ≡ self.now.hidden_cursor }
    {
        self.hidden_cursor
    }

    /// Returns the column and the row of the cursor: the old name of `get_cursor_position`.
    ///
    /// # Errors
    ///
    /// `Backend` if the backend's call failed; all of the terminal but the backend is as before
    /// then.
    pub fn get_cursor(&mut self) -> Result<(u16, u16), TerminalError<B::Error>>
        ensures ok { IfOk result (λ place.
            place ≡ ((B.screen self.old.backend).cursor_x, (B.screen self.old.backend).cursor_y)) }
        ensures stays { OnOk result (Stays B.screen self.old self.new) }
        ensures in_step { OnOk result (IsInStep B.screen self.old → IsInStep B.screen self.new) }
        ensures rest { self.new ≡ record self.old { backend = self.new.backend } }
        ensures only { FailsOnlyByBackend result }
        ensures faults { Faults result (B.failures self.old.backend) (B.failures self.new.backend) }
    {
        let position = self.get_cursor_position()?;
        Ok((position.x, position.y))
    }

    /// Moves the cursor: the old name of `set_cursor_position`.
    ///
    /// # Errors
    ///
    /// `Backend` if the backend's call failed; all of the terminal but the backend is as before
    /// then.
    pub fn set_cursor(&mut self, x: u16, y: u16) -> Result<(), TerminalError<B::Error>>
        ensures ok { OnOk result
            (MovesCursor B.screen self.old.hidden_cursor (record { x = x; y = y })
            (with_cursor x y) self.old self.new) }
        ensures err { OnErr result (self.new ≡ record self.old { backend = self.new.backend }) }
        ensures only { FailsOnlyByBackend result }
        ensures faults { Faults result (B.failures self.old.backend) (B.failures self.new.backend) }
    {
        self.set_cursor_position(Position { x, y })
    }

    /// Returns where the cursor is, on the screen.
    ///
    /// # Errors
    ///
    /// `Backend` if the backend's call failed; all of the terminal but the backend is as before
    /// then.
    pub fn get_cursor_position(&mut self) -> Result<Position, TerminalError<B::Error>>
        ensures ok { IfOk result (λ position. position ≡ cursor_of (B.screen self.old.backend)) }
        ensures stays { OnOk result (Stays B.screen self.old self.new) }
        ensures in_step { OnOk result (IsInStep B.screen self.old → IsInStep B.screen self.new) }
        ensures rest { self.new ≡ record self.old { backend = self.new.backend } }
        ensures only { FailsOnlyByBackend result }
        ensures faults { Faults result (B.failures self.old.backend) (B.failures self.new.backend) }
    {
        self.backend
            .get_cursor_position()
            .map_err(TerminalError::Backend)
    }

    /// Moves the cursor; its column and its row are each kept on the screen.
    ///
    /// # Errors
    ///
    /// `Backend` if the backend's call failed; all of the terminal but the backend is as before
    /// then.
    pub fn set_cursor_position(&mut self, position: Position) -> Result<(), TerminalError<B::Error>>
        ensures ok { OnOk result (MovesCursor B.screen self.old.hidden_cursor position
            (with_cursor position.x position.y) self.old self.new) }
        ensures err { OnErr result (self.new ≡ record self.old { backend = self.new.backend }) }
        ensures only { FailsOnlyByBackend result }
        ensures faults { Faults result (B.failures self.old.backend) (B.failures self.new.backend) }
    {
        self.backend
            .set_cursor_position(position)
            .map_err(TerminalError::Backend)?;
        self.last_known_cursor_pos = position;
        Ok(())
    }
}
