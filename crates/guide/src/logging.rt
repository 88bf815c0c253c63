//! Rows that are logged above an inline viewport.

ghost use Rattle.std.specs.Prelude.{IfOk, IsTrue};
ghost use Rattle.ratatui_core.specs.Terminal.{TerminalData, IsInStep, AcceptsFrames, AcceptsRows, FillsRows};
ghost use Rattle.ratatui_core.specs.Terminal.{TakesRows, inserted_area};
ghost use Rattle.guide.specs.Logging.{Logs};

use crate::frames::draw_checked;
use ratatui_core::backend::Backend;
use ratatui_core::buffer::Buffer;
use ratatui_core::terminal::laws::rows_above_are_those_inserted;
use ratatui_core::terminal::{Frame, Terminal, TerminalError};
use std::alloc::AllocError;

/// Inserts rows above an inline viewport, draws a frame below them, and answers whether that frame
/// is settled. Then, if the rows are settled too, exactly these rows came to those above, and the
/// screen shows the frame.
///
/// # Conditions
///
/// The first closure may be called on an empty buffer of the rows, and the second one on each frame
/// that a draw may hand it.
///
/// # Errors
///
/// Those of [`Terminal::insert_before`] and of [`Terminal::draw`]. What stands then isn't said
/// here.
pub fn log<B: Backend, F, G>(
    terminal: &mut Terminal<B>,
    height: u16,
    fill: F,
    paint: G,
) -> Result<bool, TerminalError<B::Error>>
where
    F: FnOnce(&mut Buffer) -> Result<(), AllocError>,
    G: FnOnce(&mut Frame<'_>) -> Result<(), AllocError>,
    requires fill { AcceptsRows F.FnOnce fill (inserted_area terminal.old height) }
    requires paint { (t : TerminalData B) → AcceptsFrames G.FnOnce paint t }
    ensures { let filled = FillsRows F.FnOnce fill (inserted_area terminal.old height) in
        IfOk result (λ settled. IsTrue settled → IsInStep B.screen terminal.old
        → TakesRows B.screen terminal.old → Logs B.screen filled terminal.old terminal.new) }
{
    rows_above_are_those_inserted::<B>();
    terminal.insert_before(height, fill)?;
    draw_checked(terminal, paint)
}
