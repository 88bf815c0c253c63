//! Grids of dots.
use canvas_map::{Map, MapResolution};
use ratatui_core::style::{Color, Style};
use ratatui_core::symbols::Marker;
use ratatui_core::terminal::Frame;
use ratatui_core::text::Line;
use ratatui_widgets::canvas::{Canvas, Circle, Drawing, Line as Segment};
use ratatui_widgets::{Axis, Chart, Dataset, GraphType};
use std::alloc::{AllocError, Global};

/// Draws a circle and a line, in dots of braille.
pub fn canvas(frame: &mut Frame<'_>) -> Result<(), AllocError> {
    let area = frame.area();
    let (x, y, radius, color) = (24, 12, 10, Color::Green);
    let circle = Circle {
        x,
        y,
        radius,
        color,
    };
    let line = Segment {
        x1: 0,
        y1: 0,
        x2: 47,
        y2: 23,
        color,
    };
    let drawings = [Drawing::Circle(circle), Drawing::Line(line)];
    let canvas = Canvas::new()
        .x_bounds([0, 47])
        .y_bounds([0, 23])
        .paint(&drawings);
    frame.render_widget(canvas, area)
}

/// Draws the coasts of the world.
pub fn map(frame: &mut Frame<'_>) -> Result<(), AllocError> {
    let area = frame.area();
    let map = Map {
        resolution: MapResolution::High,
        color: Color::Green,
    };
    let drawings = [Drawing::Points(map.points())];
    let canvas = Canvas::new()
        .x_bounds([-18000, 18000])
        .y_bounds([-9000, 9000])
        .paint(&drawings);
    frame.render_widget(canvas, area)
}

static POINTS: [(i64, i64); 6] = [(0, 2), (2, 5), (4, 4), (6, 9), (8, 6), (10, 10)];

// An axis from 0 to 10, with labels.
fn axis(alloc: Global) -> Result<Axis<'static>, AllocError> {
    let labels = vec![in alloc; Line::raw(alloc, "0")?, Line::raw(alloc, "10")?]?;
    Ok(Axis::new().bounds([0, 10]).labels(labels))
}

/// Draws points, each joined to the next one, between two axes with labels.
pub fn chart(alloc: Global, frame: &mut Frame<'_>) -> Result<(), AllocError> {
    let area = frame.area();
    let data = Dataset::new()
        .data(&POINTS)
        .marker(Marker::Braille)
        .graph_type(GraphType::Line)
        .style(Style::new().fg(Color::Green));
    let chart = Chart::new(vec![in alloc; data]?)
        .x_axis(axis(alloc)?)
        .y_axis(axis(alloc)?);
    frame.render_widget(chart, area)
}
