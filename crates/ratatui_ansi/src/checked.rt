//! Frames of which the bytes are known.

ghost use Rattle.std.specs.Prelude.{◌≡◌, false, Some, IfOk, OnOk, IsTrue};
ghost use Rattle.std.specs.Io.KnownBytes.{Appends};
ghost use Rattle.ratatui_core.specs.Buffer.{IsSettledBuffer};
ghost use Rattle.ratatui_core.specs.Terminal.{IsInStep, DrawsFrame, AcceptsFrames};
ghost use Rattle.ratatui_ansi.specs.Backend.{shown_by};
ghost use Rattle.ratatui_ansi.specs.Headline.{IsShownToAll};

use crate::backend::AnsiBackend;
use crate::error::AnsiError;
use crate::laws::bytes_show_the_last_buffer;
use ratatui_core::backend::Backend;
use ratatui_core::terminal::{Frame, Terminal, TerminalError};
use std::alloc::AllocError;

// Draws what a closure paints, and answers whether that is settled.
fn draw_settled<B: Backend, F>(
    terminal: &mut Terminal<B>,
    paint: F,
) -> Result<bool, TerminalError<B::Error>>
where
    F: FnOnce(&mut Frame<'_>) -> Result<(), AllocError>,
    requires { AcceptsFrames F.FnOnce paint terminal.old }
    ensures drawn { OnOk result (DrawsFrame B.screen terminal.old terminal.new) }
    ensures settled { IfOk result (λ settled. IsTrue settled
        → IsSettledBuffer terminal.new.previous) }
{
    let frame = terminal.draw(paint)?;
    Ok(frame.buffer().is_settled())
}

/// Draws what a closure paints on a terminal that writes to memory, and answers whether that is
/// settled. If it is, and the terminal was in step, and unless a write failed, each terminal of
/// this size that reads what was sent shows the frame, however it was left before; and memory holds
/// what it held as the backend began, if that is known, and then these bytes.
///
/// # Conditions
///
/// The closure may be called on each frame that the draw may hand it, as for [`Terminal::draw`].
///
/// # Errors
///
/// Those of [`Terminal::draw`]. What stands then isn't said here.
pub fn draw_for_all<F>(
    terminal: &mut Terminal<AnsiBackend<Vec<u8>>>,
    paint: F,
) -> Result<bool, TerminalError<AnsiError>>
where
    F: FnOnce(&mut Frame<'_>) -> Result<(), AllocError>,
    requires { AcceptsFrames F.FnOnce paint terminal.old }
    ensures tied { OnOk result (terminal.new.backend.is_broken ≡ false
        → Appends terminal.new.backend.before (Some terminal.new.backend.writer.items)
        terminal.new.backend.sent) }
    ensures shown { IfOk result (λ settled. IsTrue settled → IsInStep shown_by terminal.old
        → terminal.new.backend.is_broken ≡ false
        → IsShownToAll terminal.new.previous terminal.new.backend) }
{
    let is_settled = draw_settled(terminal, paint)?;
    bytes_show_the_last_buffer(terminal);
    let _ = terminal.backend().writer();
    Ok(is_settled)
}
