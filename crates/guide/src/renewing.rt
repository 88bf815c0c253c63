//! A list of calls, and what all of them leave.

ghost use Rattle.std.specs.Prelude.{IfOk, IsTrue};
ghost use Rattle.ratatui_core.specs.Layout.{EdgesFit};
ghost use Rattle.ratatui_core.specs.Terminal.{TerminalData, IsInStep, AcceptsFrames, AcceptsRows, FillsRows};
ghost use Rattle.ratatui_core.specs.Terminal.{inserted_area};
ghost use Rattle.guide.specs.Renewing.{Renews};

use crate::frames::draw_checked;
use ratatui_core::backend::Backend;
use ratatui_core::buffer::Buffer;
use ratatui_core::layout::Rect;
use ratatui_core::terminal::laws::every_call_is_faithful;
use ratatui_core::terminal::{Frame, Terminal, TerminalError};
use std::alloc::AllocError;

/// Draws a frame, empties the viewport, places it again on an area, in columns and rows, inserts
/// rows above it, and answers whether the frame was settled. Then each of the four calls was
/// faithful, if the rows were settled too and had their place: the screen shows the buffer that the
/// call leaves, and exactly its rows came to those above.
///
/// # Conditions
///
/// The edges of the area are at most 65535. The first closure may be called on an empty buffer of
/// the rows, and the second one on each frame that a draw may hand it.
///
/// # Errors
///
/// Those of [`Terminal::draw`], `clear`, `resize` and `insert_before`. What stands then isn't said
/// here.
pub fn renew<B: Backend, F, G>(
    terminal: &mut Terminal<B>,
    area: Rect,
    height: u16,
    fill: F,
    paint: G,
) -> Result<bool, TerminalError<B::Error>>
where
    F: FnOnce(&mut Buffer) -> Result<(), AllocError>,
    G: FnOnce(&mut Frame<'_>) -> Result<(), AllocError>,
    requires edges { EdgesFit area }
    requires fill { (t : TerminalData B) → AcceptsRows F.FnOnce fill (inserted_area t height) }
    requires paint { AcceptsFrames G.FnOnce paint terminal.old }
    ensures { IfOk result (λ settled. IsTrue settled → IsInStep B.screen terminal.old
        → Renews B.screen area (λ t. FillsRows F.FnOnce fill (inserted_area t height))
        terminal.old terminal.new) }
{
    every_call_is_faithful::<B>();
    let is_settled = draw_checked(terminal, paint)?;
    terminal.clear()?;
    terminal.resize(area)?;
    terminal.insert_before(height, fill)?;
    Ok(is_settled)
}
