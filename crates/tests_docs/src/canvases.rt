//! Examples of canvases.
use ratatui_core::buffer::Buffer;
use ratatui_core::layout::Rect;
use ratatui_core::style::Color;
use ratatui_core::widgets::Widget;
use ratatui_widgets::canvas::{Canvas, Drawing, Line};
use std::alloc::AllocError;

/// A line from the first corner to the last one.
pub(crate) fn crossed(area: Rect, buf: &mut Buffer) -> Result<(), AllocError> {
    let line = Line {
        x1: 0,
        y1: 0,
        x2: 99,
        y2: 49,
        color: Color::Green,
    };
    let drawings = [Drawing::Line(line)];
    let canvas = Canvas::new()
        .x_bounds([0, 99])
        .y_bounds([0, 49])
        .paint(&drawings);
    canvas.render(area, buf)?;
    Ok(())
}
