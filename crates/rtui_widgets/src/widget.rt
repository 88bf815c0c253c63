ghost use Rattle.std.specs.Prelude.{⊤, ◌≡◌, MatchOption, IsOk, OnOk, OnErr, option_map, unwrap_or};
ghost use Rattle.rtui_geometry.specs.declared.rect.Rect.{Rect};
ghost use Rattle.rtui_buffer.specs.BufferData.{BufferData};
ghost use Rattle.rtui_widgets.specs.Rendering.{ChangesWithin, first_row};
ghost use Rattle.rtui_geometry.specs.Rect.{intersected};
ghost use Rattle.rtui_buffer.specs.Painting.{KeepsUnmarked};

use crate::buffer::{line_in, span_in, text_in};
use rtui_buffer::Buffer;
use rtui_geometry::Rect;
use rtui_style::Style;
use rtui_text::{Line, Span, Text};
use std::alloc::AllocError;

/// What can be rendered over an area of a buffer.
///
/// ```
/// let area = *buf.area();
/// Line::raw(alloc, "Hello, world!")?.centered().render(area, buf)?;
/// ```
///
/// A widget says by its ghost members over which areas it may be rendered, and what it makes of a
/// buffer; a call that takes any widget relies on these alone.
pub trait Widget {
    // where it may be rendered: over this area of such a buffer
    ghost can_render: { Self → Rect → BufferData → Type 0 } = { λ _ _ _. ⊤ };

    // what it makes of a buffer over an area
    ghost renders: { Self → Rect → BufferData → BufferData → Type 0 };

    // the area outside which nothing changes if it is refused: the given one, unless it says
    // otherwise
    ghost reach: { Self → Rect → Rect } = { λ _ area. area };

    // what else holds of the buffer if it is refused: nothing, unless it says more
    ghost leaves: { Self → Rect → BufferData → BufferData → Type 0 } = { λ _ _ _ _. ⊤ };

    // when it takes no memory: nowhere, unless it says otherwise
    ghost is_short: { Self → Rect → BufferData → Type 0 } = { λ _ _ _. ⊥ };

    /// Renders the widget over an area of a buffer.
    ///
    /// # Conditions
    ///
    /// The widget may be rendered there, as far as it says; one that says nothing of it may be
    /// rendered over any area.
    ///
    /// # Errors
    ///
    /// `AllocError` if memory is refused. Then no cell outside the widget's reach has changed,
    /// which is the area unless the widget says otherwise. A widget may say more of what it leaves,
    /// and when it takes no memory.
    fn render(self, area: Rect, buf: &mut Buffer) -> Result<(), AllocError>
        requires { can_render self area buf.old }
        ensures area { buf.new.area ≡ buf.old.area }
        ensures ok { OnOk result (renders self area buf.old buf.new) }
        ensures err { OnErr result (ChangesWithin (reach self area) buf.old buf.new) }
        ensures left { OnErr result (leaves self area buf.old buf.new) }
        ensures short { is_short self area buf.old → IsOk result };
}

/// What can be rendered over an area of a buffer, and keeps a state from one rendering to the next.
pub trait StatefulWidget {
    /// What it keeps.
    type State;

    // where it may be rendered, in this state
    ghost can_render: { Self → Self.State → Rect → BufferData → Type 0 } = { λ _ _ _ _. ⊤ };

    // what it makes of a buffer over an area, from one state to the next
    ghost renders: { Self → Self.State → Self.State → Rect → BufferData → BufferData → Type 0 };

    // the area outside which nothing changes if it is refused: the given one, unless it says
    // otherwise
    ghost reach: { Self → Rect → Rect } = { λ _ area. area };

    // what else holds of the state and the buffer if it is refused: nothing, unless it says more
    ghost leaves: { Self → Self.State → Self.State → Rect → BufferData → BufferData
        → Type 0 } = { λ _ _ _ _ _ _. ⊤ };

    // when it takes no memory: nowhere, unless it says otherwise
    ghost is_short: { Self → Self.State → Rect → BufferData → Type 0 } = { λ _ _ _ _. ⊥ };

    /// Renders the widget over an area of a buffer, from one state to the next.
    ///
    /// # Conditions
    ///
    /// The widget may be rendered there in this state, as far as it says; one that says nothing of
    /// it may be rendered over any area.
    ///
    /// # Errors
    ///
    /// `AllocError` if memory is refused. Then no cell outside the widget's reach has changed,
    /// which is the area unless the widget says otherwise. A widget may say more of what it leaves,
    /// and when it takes no memory.
    fn render(self, area: Rect, buf: &mut Buffer, state: &mut Self::State) -> Result<(), AllocError>
        requires { can_render self state.old area buf.old }
        ensures area { buf.new.area ≡ buf.old.area }
        ensures ok { OnOk result (renders self state.old state.new area buf.old buf.new) }
        ensures err { OnErr result (ChangesWithin (reach self area) buf.old buf.new) }
        ensures left { OnErr result (leaves self state.old state.new area buf.old buf.new) }
        ensures short { is_short self state.old area buf.old → IsOk result };
}

/// In the first row of the area: each grapheme at the sum of the widths before it, as far as the
/// row goes.
impl<'b, 'a> Widget for &'b Span<'a> {
    ghost use Rattle.rtui_widgets.specs.Rendering.{RendersSpan, RendersShortSpan};
    ghost use Rattle.rtui_widgets.specs.Refused.{LeavesSpan};

    ghost renders = { λ span. RendersSpan span.now };

    ghost leaves = { λ span. LeavesSpan span.now };

    ghost is_short = { λ span. RendersShortSpan span.now };

    fn render(self, area: Rect, buf: &mut Buffer) -> Result<(), AllocError> {
        span_in(self, area, buf)
    }
}

impl<'a> Widget for Span<'a> {
    ghost use Rattle.rtui_widgets.specs.Rendering.{RendersSpan, RendersShortSpan};
    ghost use Rattle.rtui_widgets.specs.Refused.{LeavesSpan};

    ghost renders = { RendersSpan };

    ghost leaves = { LeavesSpan };

    ghost is_short = { RendersShortSpan };

    fn render(self, area: Rect, buf: &mut Buffer) -> Result<(), AllocError> {
        (&self).render(area, buf)
    }
}

/// In the first row of the area, aligned as the line says: its spans one after the other, under
/// them the line's style over the whole row. What doesn't fit is cut, at the left if the line isn't
/// aligned to the left.
impl<'b, 'a> Widget for &'b Line<'a> {
    ghost use Rattle.rtui_widgets.specs.Rendering.{RendersLine, RendersShortLine};
    ghost use Rattle.rtui_widgets.specs.Refused.{LeavesLine};

    ghost renders = { λ line. RendersLine line.now };

    ghost leaves = { λ line. LeavesLine line.now };

    ghost is_short = { λ line. RendersShortLine line.now };

    fn render(self, area: Rect, buf: &mut Buffer) -> Result<(), AllocError> {
        line_in(self, area, buf)
    }
}

impl<'a> Widget for Line<'a> {
    ghost use Rattle.rtui_widgets.specs.Rendering.{RendersLine, RendersShortLine};
    ghost use Rattle.rtui_widgets.specs.Refused.{LeavesLine};

    ghost renders = { RendersLine };

    ghost leaves = { LeavesLine };

    ghost is_short = { RendersShortLine };

    fn render(self, area: Rect, buf: &mut Buffer) -> Result<(), AllocError> {
        (&self).render(area, buf)
    }
}

/// Line by line from the top of the area, each in a row of its own, under them the text's style
/// over the whole area.
impl<'b, 'a> Widget for &'b Text<'a> {
    ghost use Rattle.rtui_widgets.specs.Rendering.{RendersText, RendersShortText};
    ghost use Rattle.rtui_widgets.specs.Refused.{LeavesText};

    ghost renders = { λ text. RendersText text.now };

    ghost leaves = { λ text. LeavesText text.now };

    ghost is_short = { λ text. RendersShortText text.now };

    fn render(self, area: Rect, buf: &mut Buffer) -> Result<(), AllocError> {
        text_in(self, area, buf)
    }
}

impl<'a> Widget for Text<'a> {
    ghost use Rattle.rtui_widgets.specs.Rendering.{RendersText, RendersShortText};
    ghost use Rattle.rtui_widgets.specs.Refused.{LeavesText};

    ghost renders = { RendersText };

    ghost leaves = { LeavesText };

    ghost is_short = { RendersShortText };

    fn render(self, area: Rect, buf: &mut Buffer) -> Result<(), AllocError> {
        (&self).render(area, buf)
    }
}

/// The widget, if there is one.
impl<W: Widget> Widget for Option<W> {
    ghost can_render = { λ widget area s. MatchOption widget ⊤ (λ w. W.can_render w area s) };

    ghost renders = { λ widget area old new.
        MatchOption widget (new ≡ old) (λ w. W.renders w area old new) };

    ghost reach = { λ widget area. unwrap_or (option_map (λ w. W.reach w area) widget) area };

    ghost leaves = { λ widget area old new. MatchOption widget ⊤ (λ w. W.leaves w area old new) };

    ghost is_short = { λ widget area s. MatchOption widget ⊤ (λ w. W.is_short w area s) };

    fn render(self, area: Rect, buf: &mut Buffer) -> Result<(), AllocError> {
        match self {
            Some(widget) => widget.render(area, buf),
            None => Ok(()),
        }
    }
}

/// Painted from the corner of the area on, in at most its columns.
///
/// # Conditions
///
/// The area's first row lies in the buffer, and doesn't begin left of it.
impl<'a> Widget for &'a str {
    ghost use Rattle.rtui_widgets.specs.Rendering.{HasFirstRow, LeavesStr, RendersStr, RendersShortStr};

    ghost can_render = { λ _. HasFirstRow };

    ghost renders = { λ text. RendersStr text.now };

    ghost reach = { λ _. first_row };

    ghost leaves = { λ text. LeavesStr text.now };

    ghost is_short = { λ text. RendersShortStr text.now };

    fn render(self, area: Rect, buf: &mut Buffer) -> Result<(), AllocError> {
        buf.set_stringn(area.x, area.y, self, usize::from(area.width), Style::new())?;
        Ok(())
    }
}

/// As a `&str`.
impl Widget for String {
    ghost use Rattle.std.specs.String.{string_bytes};
    ghost use Rattle.rtui_widgets.specs.Rendering.{HasFirstRow, LeavesStr, RendersStr, RendersShortStr};

    ghost can_render = { λ _. HasFirstRow };

    ghost renders = { λ text. RendersStr (string_bytes text) };

    ghost reach = { λ _. first_row };

    ghost leaves = { λ text. LeavesStr (string_bytes text) };

    ghost is_short = { λ text. RendersShortStr (string_bytes text) };

    fn render(self, area: Rect, buf: &mut Buffer) -> Result<(), AllocError> {
        self.as_str().render(area, buf)
    }
}
