//! A drawing inside a style and a box.

ghost use Rattle.std.specs.Prelude.{◌≡◌, IsOk, OnOk, OnErr};
ghost use Rattle.ratatui_core.specs.Layout.{Rect, IsInside};
ghost use Rattle.ratatui_core.specs.Widgets.{ChangesWithin};
ghost use Rattle.rtui_drawing.specs.Drawings.{Drawing, IsDone};
ghost use Rattle.widget_boxes.specs.Boxes.{IsBoxArea};
ghost use Rattle.rtui_inside.specs.Inside.{DrawsInside, LeavesInside, IsShortInside};

use ratatui_core::buffer::Buffer;
use ratatui_core::layout::Rect;
use ratatui_core::style::Style;
use std::alloc::AllocError;
use widget_boxes::{Block, render_frame};

/// What draws in an area that has cells.
pub trait DrawInside {
    // what it draws in an area
    ghost drawing: { Self → Rect → Drawing };

    /// Draws in an area of a buffer.
    ///
    /// # Conditions
    ///
    /// The area has cells, and the buffer has all of them.
    ///
    /// # Errors
    ///
    /// `AllocError` if memory is refused; all that is drawn before one thing stands then.
    fn draw_inside(&self, inner: Rect, buf: &mut Buffer) -> Result<(), AllocError>
        requires some { IsBoxArea inner }
        requires inside { IsInside inner buf.old.area }
        ensures { IsDone (drawing self.now inner) inner result buf.old buf.new };
}

/// Renders a style and a box, if there is one, over the part of an area that the buffer has, and
/// draws inside, if there are cells.
///
/// # Errors
///
/// `AllocError` if memory is refused; nothing outside the area has changed then. If the box takes no
/// memory, it stands, and so does all that is drawn before one thing.
pub fn render_inside<W: DrawInside>(
    widget: &W,
    style: Style,
    block: &Option<Block<'_>>,
    area: Rect,
    buf: &mut Buffer,
) -> Result<(), AllocError>
    ensures area { buf.new.area ≡ buf.old.area }
    ensures ok { let d = W.drawing widget.now in
        OnOk result (DrawsInside style block.now d area buf.old buf.new) }
    ensures err { OnErr result (ChangesWithin area buf.old buf.new) }
    ensures left { let d = W.drawing widget.now in
        OnErr result (LeavesInside style block.now d area buf.old buf.new) }
    ensures short { IsShortInside block.now (W.drawing widget.now) area buf.old → IsOk result }
{
    let Some(inner) = render_frame(style, block, area, buf)? else {
        return Ok(());
    };
    widget.draw_inside(inner, buf)
}
