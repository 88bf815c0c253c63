//! A line of text.

ghost use Rattle.std.specs.Prelude.{◌≡◌, IsOk, OnOk, OnErr};
ghost use Rattle.std.specs.Str.{IsAscii};
ghost use Rattle.ratatui_core.specs.Widgets.{ChangesWithin, RendersShortStr};
ghost use Rattle.ratatui_app.specs.Lines.{PaintsFirstLine};

use ratatui_core::buffer::Buffer;
use ratatui_core::layout::Rect;
use ratatui_core::widgets::Widget;
use ratatui_core::widgets::laws::ascii_texts_take_no_memory;
use std::alloc::AllocError;

// Paints a text in the first row of an area, if there is one.
fn paint_row(text: &str, area: Rect, buf: &mut Buffer) -> Result<(), AllocError>
    ensures area { buf.new.area ≡ buf.old.area }
    ensures ok { OnOk result (PaintsFirstLine text.now area buf.old buf.new) }
    ensures err { OnErr result (ChangesWithin area buf.old buf.new) }
    ensures short { RendersShortStr text.now area buf.old → IsOk result }
{
    if area.height == 0 {
        return Ok(());
    }
    let own = *buf.area();
    if area.x < own.x || area.y < own.y || own.bottom() <= area.y {
        return Ok(());
    }
    text.render(area, buf)
}

/// Paints a text in the first row of an area, as far as the row goes. An area without rows, or
/// whose first row isn't in the buffer, changes nothing. An application that is shown as a line
/// paints so: the clause of `paint` is `PaintsFirstLine`, and `line-settled` says that a screen can
/// show it.
///
/// # Errors
///
/// `AllocError` if memory is refused, of which no text of ASCII takes any, nor one that is short.
/// Then no cell outside the area has changed.
pub fn paint_line(text: &str, area: Rect, buf: &mut Buffer) -> Result<(), AllocError>
    ensures area { buf.new.area ≡ buf.old.area }
    ensures ok { OnOk result (PaintsFirstLine text.now area buf.old buf.new) }
    ensures err { OnErr result (ChangesWithin area buf.old buf.new) }
    ensures short { RendersShortStr text.now area buf.old → IsOk result }
    ensures ascii { IsAscii text.now → IsOk result }
{
    ascii_texts_take_no_memory();
    paint_row(text, area, buf)
}
