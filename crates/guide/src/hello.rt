//! The first example of the README.

ghost use Rattle.std.specs.Prelude.{IfOk, OnOk, IsTrue};
ghost use Rattle.ratatui_core.specs.Buffer.{IsSettledBuffer};
ghost use Rattle.ratatui_core.specs.Terminal.{IsInStep, DrawsFrame};

use crate::frames::draw_checked;
use crate::labels::label;
use ratatui_core::backend::Backend;
use ratatui_core::layout::Position;
use ratatui_core::terminal::{Terminal, TerminalError};

/// Draws a greeting, and answers whether the frame is settled: then the screen shows it.
///
/// # Errors
///
/// Those of [`Terminal::draw`]. What stands then isn't said here.
pub fn greet<B: Backend>(terminal: &mut Terminal<B>) -> Result<bool, TerminalError<B::Error>>
    ensures drawn { OnOk result (DrawsFrame B.screen terminal.old terminal.new) }
    ensures settled { IfOk result (λ settled. IsTrue settled
        → IsSettledBuffer terminal.new.previous) }
    ensures in_step { IfOk result (λ settled. IsTrue settled →
        IsInStep B.screen terminal.old → IsInStep B.screen terminal.new) }
{
    draw_checked(terminal, |frame| {
        label(frame.buffer_mut(), Position::ORIGIN, "Hello, world!")
    })
}
