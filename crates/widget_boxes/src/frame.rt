//! A style and a box under a widget.

ghost use Rattle.std.specs.Prelude.{◌≡◌, MatchOption, IsOk, IfOk, OnOk};
ghost use Rattle.ratatui_core.specs.Widgets.{ChangesWithin};
ghost use Rattle.widget_boxes.specs.Framed.{inner_if, columns_around_if, rows_around_if, RendersIfBox};
ghost use Rattle.widget_boxes.specs.Framed.{FramesAlone, FramesInside, IsShortFrame};

use crate::block::Block;
use ratatui_core::buffer::Buffer;
use ratatui_core::layout::Rect;
use ratatui_core::style::Style;
use ratatui_core::widgets::Widget;
use std::alloc::AllocError;

/// Returns what is inside the box, or the whole part if there is no box.
pub fn inner_if(block: &Option<Block<'_>>, part: Rect) -> Rect
    ensures { result ≡ inner_if block.now part }
{
    match block {
        Some(block) => block.inner(part),
        None => part,
    }
}

/// Returns how many columns the box takes left and right of what is inside; none if there is no
/// box.
pub fn columns_around_if(block: &Option<Block<'_>>) -> usize
    ensures { result ≡ columns_around_if block.now }
{
    match block {
        Some(block) => block.columns_around(),
        None => 0,
    }
}

/// Returns how many rows the box takes above and below what is inside; none if there is no box.
pub fn rows_around_if(block: &Option<Block<'_>>) -> usize
    ensures { result ≡ rows_around_if block.now }
{
    match block {
        Some(block) => block.rows_around(),
        None => 0,
    }
}

// Renders the box, if there is one.
fn render_if(block: &Option<Block<'_>>, part: Rect, buf: &mut Buffer) -> Result<(), AllocError>
    ensures within { ChangesWithin part buf.old buf.new }
    ensures boxed { OnOk result (RendersIfBox block.now part buf.old buf.new) }
    ensures short { IsShortFrame block.now buf.old → IsOk result }
{
    match block {
        Some(block) => block.render(part, buf),
        None => Ok(()),
    }
}

/// Lays a style over the part of an area that a buffer has and renders a box there, if there is
/// one; answers what is inside, if it has cells.
///
/// # Errors
///
/// `AllocError` if memory is refused; no cell outside the area has changed then.
pub fn render_frame(
    style: Style,
    block: &Option<Block<'_>>,
    area: Rect,
    buf: &mut Buffer,
) -> Result<Option<Rect>, AllocError>
    ensures within { ChangesWithin area buf.old buf.new }
    ensures inner { IfOk result (λ inner. MatchOption inner
        (FramesAlone style block.now area buf.old buf.new)
        (FramesInside style block.now area buf.old buf.new)) }
    ensures short { IsShortFrame block.now buf.old → IsOk result }
{
    let Some(part) = buf.part(area) else {
        return Ok(None);
    };
    buf.set_style(part, style);
    render_if(block, part, buf)?;
    let inner = inner_if(block, part);
    if inner.is_empty() {
        return Ok(None);
    }
    Ok(Some(inner))
}
