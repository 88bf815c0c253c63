//! Frames with one widget.

ghost use Rattle.std.specs.Prelude.{◌≡◌, ◌<◌, OnOk, IfOk};
ghost use Rattle.ratatui_core.specs.Buffer.{IsEmptied};
ghost use Rattle.ratatui_core.specs.Widgets.{RendersText};
ghost use Rattle.ratatui_core.specs.Terminal.{IsReady, ShowsRendered};
ghost use Rattle.guide.specs.Gauges.{ShowsGauge};

use crate::gauge::Gauge;
use ratatui_core::backend::Backend;
use ratatui_core::layout::Rect;
use ratatui_core::terminal::{Terminal, TerminalError};
use ratatui_core::text::Text;

/// Draws a frame with one text.
///
/// # Errors
///
/// Those of [`Terminal::draw`]. What stands then isn't said here.
pub fn draw_text<B: Backend>(
    terminal: &mut Terminal<B>,
    text: &Text<'_>,
) -> Result<(), TerminalError<B::Error>>
    ensures { IsReady B.screen terminal.old
        → IsEmptied terminal.old.viewport_area terminal.old.current
        → OnOk result (ShowsRendered B.screen (RendersText text.now) terminal.new) }
{
    terminal.draw_widget(text)?;
    Ok(())
}

/// Draws a frame with one gauge in the first row of the viewport, which has to have a row.
///
/// # Errors
///
/// Those of [`Terminal::draw`]. What stands then isn't said here.
pub fn draw_gauge<B: Backend>(
    terminal: &mut Terminal<B>,
    gauge: &Gauge<'_>,
) -> Result<Rect, TerminalError<B::Error>>
    ensures shown { IsReady B.screen terminal.old
        → IsEmptied terminal.old.viewport_area terminal.old.current
        → OnOk result (0 < terminal.new.previous.area.height
        → ShowsGauge gauge.now terminal.new.previous.area (B.screen terminal.new.backend).grid) }
    ensures area { IfOk result (λ area. area ≡ terminal.new.previous.area) }
{
    terminal.draw_widget(gauge)
}
