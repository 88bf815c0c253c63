//! A canvas without a state of its own.

use crate::canvas::Canvas;
use crate::state::CanvasState;
use ratatui_core::buffer::Buffer;
use ratatui_core::layout::Rect;
use ratatui_core::widgets::{StatefulWidget, Widget};
use std::alloc::AllocError;

/// Over the area, as far as the buffer has it: the box, and inside the background, the dots layer
/// by layer, and the labels. It takes memory for a grid of the cells inside; with a
/// [`CanvasState`] only the first rendering does.
impl<'b, 'a> Widget for &'b Canvas<'a> {
    ghost use Rattle.widget_canvas.specs.Canvases.{RendersCanvas};

    ghost renders = { λ canvas. RendersCanvas canvas.now };

    fn render(self, area: Rect, buf: &mut Buffer) -> Result<(), AllocError> {
        StatefulWidget::render(self, area, buf, &mut CanvasState::new())
    }
}

impl<'a> Widget for Canvas<'a> {
    ghost use Rattle.widget_canvas.specs.Canvases.{RendersCanvas};

    ghost renders = { RendersCanvas };

    fn render(self, area: Rect, buf: &mut Buffer) -> Result<(), AllocError> {
        Widget::render(&self, area, buf)
    }
}
