//! Frames of one widget, by closures of one call: proved as they stand.

ghost use Rattle.std.specs.Prelude.{IfOk, OnOk, IsTrue};
ghost use Rattle.ratatui_core.specs.Buffer.{IsSettledBuffer};
ghost use Rattle.ratatui_core.specs.Terminal.{IsReady, IsInStep, DrawsFrame};

use crate::frames::draw_checked;
use ratatui_core::backend::Backend;
use ratatui_core::terminal::{CompletedFrame, Terminal, TerminalError};
use ratatui_core::text::Span;

/// Draws a text over the whole frame. The closure needs no proof file: a span, a line and a text
/// may be rendered over any area. A `&str` may not: the area's first row has to be in the buffer,
/// and a frame may have no row.
///
/// # Errors
///
/// Those of [`Terminal::draw`]. What stands then isn't said here.
pub fn draw_hello<B: Backend>(
    terminal: &mut Terminal<B>,
) -> Result<CompletedFrame<'_, B>, TerminalError<B::Error>>
    ensures { IfOk result (λ frame. IsReady B.screen terminal.old
        → IsSettledBuffer frame.terminal.now.previous → IsInStep B.screen frame.terminal.now) }
{
    terminal.draw(|frame| frame.render_widget(Span::raw("Hello"), frame.area()))
}

/// Does the same through a function of one's own that takes the closure: draws a text, and answers
/// whether the frame is settled.
///
/// # Errors
///
/// Those of [`Terminal::draw`]. What stands then isn't said here.
pub fn draw_hello_checked<B: Backend>(
    terminal: &mut Terminal<B>,
) -> Result<bool, TerminalError<B::Error>>
    ensures drawn { OnOk result (DrawsFrame B.screen terminal.old terminal.new) }
    ensures settled { IfOk result (λ settled. IsTrue settled
        → IsSettledBuffer terminal.new.previous) }
    ensures in_step { IfOk result (λ settled. IsTrue settled →
        IsInStep B.screen terminal.old → IsInStep B.screen terminal.new) }
{
    draw_checked(terminal, |frame| {
        frame.render_widget(Span::raw("Hello"), frame.area())
    })
}
