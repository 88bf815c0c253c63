//! Frames on a terminal.

ghost use Rattle.std.specs.Prelude.{IfOk, OnOk, IsTrue};
ghost use Rattle.ratatui_core.specs.Buffer.{IsSettledBuffer};
ghost use Rattle.ratatui_core.specs.Terminal.{IsInStep, DrawsFrame, AcceptsFrames};

use ratatui_core::backend::Backend;
use ratatui_core::terminal::{Frame, Terminal, TerminalError};
use std::alloc::AllocError;

/// Draws what a closure paints, and answers whether that is settled; then the terminal stays in
/// step.
///
/// # Conditions
///
/// The closure may be called on each frame that the draw may hand it, as for [`Terminal::draw`].
///
/// # Errors
///
/// Those of [`Terminal::draw`]. What stands then isn't said here.
pub fn draw_checked<B: Backend, F>(
    terminal: &mut Terminal<B>,
    paint: F,
) -> Result<bool, TerminalError<B::Error>>
where
    F: FnOnce(&mut Frame<'_>) -> Result<(), AllocError>,
    requires { AcceptsFrames F.FnOnce paint terminal.old }
    ensures drawn { OnOk result (DrawsFrame B.screen terminal.old terminal.new) }
    ensures settled { IfOk result (λ settled. IsTrue settled
        → IsSettledBuffer terminal.new.previous) }
    ensures in_step { IfOk result (λ settled. IsTrue settled →
        IsInStep B.screen terminal.old → IsInStep B.screen terminal.new) }
{
    let frame = terminal.draw(paint)?;
    Ok(frame.buffer().is_settled())
}
