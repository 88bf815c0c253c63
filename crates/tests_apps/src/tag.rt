//! The badge of `guide` under another name: it is proved as it stands, without a proof file.

use ratatui_core::buffer::Buffer;
use ratatui_core::layout::Rect;
use ratatui_core::style::Style;
use ratatui_core::text::Line;
use ratatui_core::widgets::Widget;
use rtui_drawing::{put_line, put_style};
use rtui_inside::{DrawInside, render_inside};
use std::alloc::AllocError;
use widget_boxes::Block;

/// A line on a colour, in a box if there is one.
#[derive(Drop)]
pub struct Tag<'a> {
    /// The box around it.
    pub block: Option<Block<'a>>,
    /// The colour under the line.
    pub style: Style,
    /// What stands in its first row.
    pub line: Line<'a>,
}

// The colour, and the line over it.
impl<'a> DrawInside for Tag<'a> {
    ghost use Rattle.tests_apps.specs.Tags.{tag_drawing};

    ghost drawing = { tag_drawing };

    #[tactic(auto, using(rtui_drawing::proofs::DrawingLemmas::drawing_steps))]
    fn draw_inside(&self, inner: Rect, buf: &mut Buffer) -> Result<(), AllocError> {
        put_style(self.style, inner, buf);
        put_line(&self.line, inner, buf)
    }
}

/// Over the area, as far as the buffer has it: the box, and inside the colour with the line on it.
impl<'b, 'a> Widget for &'b Tag<'a> {
    ghost use Rattle.tests_apps.specs.Tags.{RendersTag, LeavesTag, IsShortTag};

    ghost renders = { λ tag. RendersTag tag.now };

    ghost leaves = { λ tag. LeavesTag tag.now };

    ghost is_short = { λ tag. IsShortTag tag.now };

    fn render(self, area: Rect, buf: &mut Buffer) -> Result<(), AllocError> {
        render_inside(self, Style::new(), &self.block, area, buf)
    }
}
