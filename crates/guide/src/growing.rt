//! A bar that grows from one rendering to the next.

use ratatui_core::buffer::Buffer;
use ratatui_core::layout::Rect;
use ratatui_core::style::Style;
use ratatui_core::text::Line;
use ratatui_core::widgets::StatefulWidget;
use rtui_drawing::{Cut, put_line, put_style};
use rtui_inside::{DrawStateInside, render_state_inside};
use std::alloc::AllocError;
use widget_boxes::Block;

/// A bar in a box, which is a column longer at each rendering, and a line on it. Its state is how
/// many columns it has.
#[derive(Drop)]
pub struct Growing<'a> {
    /// The box around it.
    pub block: Option<Block<'a>>,
    /// The colour of the bar.
    pub style: Style,
    /// What stands on it.
    pub line: Line<'a>,
}

// The bar, and the line over it; the next one is a column longer.
impl<'a> DrawStateInside for Growing<'a> {
    type State = u16;

    ghost use Rattle.guide.specs.Growing.{growing_drawing, one_longer};

    ghost drawing = { growing_drawing };

    ghost next = { λ _ n _. one_longer n };

    #[tactic(auto, using(rtui_drawing::proofs::DrawingLemmas::drawing_steps))]
    fn draw_state_inside(
        &self,
        inner: Rect,
        buf: &mut Buffer,
        state: &mut u16,
    ) -> Result<(), AllocError> {
        put_style(self.style, Cut::First(*state).of(inner), buf);
        put_line(&self.line, inner, buf)?;
        *state = state.saturating_add(1);
        Ok(())
    }
}

/// Over the area, as far as the buffer has it: the box, and inside the bar with the line on it. The
/// bar is a column longer the next time; a refusal leaves it as long as it was.
impl<'b, 'a> StatefulWidget for &'b Growing<'a> {
    type State = u16;

    ghost use Rattle.guide.specs.Growing.{RendersGrowing, LeavesGrowing, IsShortGrowing};

    ghost renders = { λ bar. RendersGrowing bar.now };

    ghost leaves = { λ bar. LeavesGrowing bar.now };

    ghost is_short = { λ bar. IsShortGrowing bar.now };

    fn render(self, area: Rect, buf: &mut Buffer, state: &mut u16) -> Result<(), AllocError> {
        render_state_inside(self, Style::new(), &self.block, area, buf, state)
    }
}
