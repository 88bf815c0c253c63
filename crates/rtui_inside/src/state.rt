//! A drawing of a state inside a style and a box.

ghost use Rattle.std.specs.Prelude.{◌≡◌, IsOk, OnOk, OnErr};
ghost use Rattle.ratatui_core.specs.Layout.{Rect, IsInside};
ghost use Rattle.ratatui_core.specs.Widgets.{ChangesWithin};
ghost use Rattle.rtui_drawing.specs.Drawings.{Drawing, IsDone};
ghost use Rattle.widget_boxes.specs.Boxes.{IsBoxArea};
ghost use Rattle.rtui_inside.specs.Inside.{DrawsStateInside, LeavesInside, IsShortInside};

use ratatui_core::buffer::Buffer;
use ratatui_core::layout::Rect;
use ratatui_core::style::Style;
use std::alloc::AllocError;
use widget_boxes::{Block, render_frame};

/// What draws a state in an area that has cells, and leads to the next state.
pub trait DrawStateInside {
    /// What it keeps from one drawing to the next.
    type State;

    // what it draws of a state in an area
    ghost drawing: { Self → Self.State → Rect → Drawing };

    // the state after it
    ghost next: { Self → Self.State → Rect → Self.State };

    /// Draws in an area of a buffer.
    ///
    /// # Conditions
    ///
    /// The area has cells, and the buffer has all of them.
    ///
    /// # Errors
    ///
    /// `AllocError` if memory is refused; all that is drawn before one thing stands then, and the
    /// state is as before.
    fn draw_state_inside(
        &self,
        inner: Rect,
        buf: &mut Buffer,
        state: &mut Self::State,
    ) -> Result<(), AllocError>
        requires some { IsBoxArea inner }
        requires inside { IsInside inner buf.old.area }
        ensures done { IsDone (drawing self.now state.old inner) inner result buf.old buf.new }
        ensures next { OnOk result (state.new ≡ next self.now state.old inner) }
        ensures kept { OnErr result (state.new ≡ state.old) };
}

/// Renders a style and a box, if there is one, over the part of an area that the buffer has, and
/// draws a state inside, if there are cells; without them the state stays.
///
/// # Errors
///
/// `AllocError` if memory is refused; nothing outside the area has changed then, and the state is as
/// before. If the box takes no memory, it stands, and so does all that is drawn before one thing.
pub fn render_state_inside<W: DrawStateInside>(
    widget: &W,
    style: Style,
    block: &Option<Block<'_>>,
    area: Rect,
    buf: &mut Buffer,
    state: &mut W::State,
) -> Result<(), AllocError>
    ensures area { buf.new.area ≡ buf.old.area }
    ensures ok { let d = W.drawing widget.now in let next = W.next widget.now in
        OnOk result
        (DrawsStateInside style block.now d next state.old state.new area buf.old buf.new) }
    ensures err { OnErr result (ChangesWithin area buf.old buf.new) }
    ensures left { let d = W.drawing widget.now state.old in
        OnErr result (LeavesInside style block.now d area buf.old buf.new) }
    ensures kept { OnErr result (state.new ≡ state.old) }
    ensures short { let d = W.drawing widget.now state.old in
        IsShortInside block.now d area buf.old → IsOk result }
{
    let Some(inner) = render_frame(style, block, area, buf)? else {
        return Ok(());
    };
    widget.draw_state_inside(inner, buf, state)
}
