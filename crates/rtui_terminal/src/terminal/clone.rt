ghost use Rattle.std.specs.Prelude.{◌≡◌, IfOk};
ghost use Rattle.rtui_terminal.specs.TerminalData.{IsSameTerminal};

use crate::terminal::Terminal;
use crate::terminal::frames::Frames;
use rtui_backend::Backend;
use std::alloc::{AllocError, Global};

impl<B: Backend + Clone> Terminal<B> {
    /// Makes an equal terminal over a clone of the backend.
    ///
    /// # Conditions
    ///
    /// A clone of the backend equals the backend.
    ///
    /// # Errors
    ///
    /// `AllocError` if memory is refused.
    pub fn clone(&self, alloc: Global) -> Result<Self, AllocError>
        requires { (copy : B) → B.is_clone self.now.backend copy → copy ≡ self.now.backend }
        ensures { IfOk result (IsSameTerminal self.now) }
    {
        Ok(Terminal {
            backend: self.backend.clone()?,
            frames: Frames {
                current: self.frames.current.clone(alloc)?,
                previous: self.frames.previous.clone(alloc)?,
            },
            viewport: self.viewport,
            viewport_area: self.viewport_area,
            last_known_area: self.last_known_area,
            last_known_cursor_pos: self.last_known_cursor_pos,
            hidden_cursor: self.hidden_cursor,
            frame_count: self.frame_count,
        })
    }
}
