//! The third page: grids of dots, and a chart.

ghost use Rattle.std.specs.Prelude.{◌≡◌};

use ratatui_core::buffer::Buffer;
use ratatui_core::layout::{Constraint, Layout, Rect, SplitInto};
use ratatui_core::style::{Color, Style};
use ratatui_core::symbols::Marker;
use ratatui_core::text::Line;
use ratatui_core::widgets::Widget;
use ratatui_widgets::canvas::{Canvas, Circle, Drawing, Line as Segment, Rectangle};
use ratatui_widgets::{Axis, Block, BorderType, Chart, Dataset, GraphType};
use std::alloc::{AllocError, Global};

// A box with a title.
fn boxed<'a>(alloc: Global, title: &'a str) -> Result<Block<'a>, AllocError> {
    Block::bordered(alloc)
        .border_type(BorderType::Rounded)
        .border_style(Style::new().fg(Color::Cyan))
        .title(Line::raw(alloc, title)?.style(Style::new().fg(Color::Yellow)))
}

// A circle, a rectangle and a line, in dots of a sort.
fn paint_shapes(
    alloc: Global,
    title: &str,
    marker: Marker,
    area: Rect,
    buf: &mut Buffer,
) -> Result<(), AllocError>
    ensures { buf.new.area ≡ buf.old.area }
{
    let drawings = [
        Drawing::Rectangle(Rectangle {
            x: 10,
            y: 10,
            width: 100,
            height: 60,
            color: Color::Blue,
        }),
        Drawing::Circle(Circle {
            x: 60,
            y: 40,
            radius: 28,
            color: Color::Green,
        }),
        Drawing::Line(Segment {
            x1: 0,
            y1: 0,
            x2: 119,
            y2: 79,
            color: Color::LightRed,
        }),
    ];
    Canvas::new()
        .block(boxed(alloc, title)?)
        .marker(marker)
        .x_bounds([0, 119])
        .y_bounds([0, 79])
        .paint(&drawings)
        .render(area, buf)
}

// Two data sets between two axes.
static SLOW: [(i64, i64); 6] = [(0, 5), (20, 12), (40, 22), (60, 35), (80, 48), (100, 60)];

static FAST: [(i64, i64); 6] = [(0, 0), (20, 45), (40, 70), (60, 85), (80, 93), (100, 97)];

// A data set with a name, in a colour.
fn dataset<'a>(
    alloc: Global,
    name: &'a str,
    data: &'a [(i64, i64)],
    color: Color,
) -> Result<Dataset<'a>, AllocError> {
    Ok(
        Dataset::new()
            .name(Line::raw(alloc, name)?)
            .data(data)
            .marker(Marker::Braille)
            .graph_type(GraphType::Line)
            .style(Style::new().fg(color)),
    )
}

// An axis in per cent.
fn axis(alloc: Global) -> Result<Axis<'static>, AllocError> {
    let labels = vec![in alloc;
        Line::raw(alloc, "0")?,
        Line::raw(alloc, "50")?,
        Line::raw(alloc, "100")?,
    ]?;
    Ok(Axis::new().bounds([0, 100]).labels(labels))
}

// Paints a chart of them.
fn paint_chart(alloc: Global, area: Rect, buf: &mut Buffer) -> Result<(), AllocError>
    ensures { buf.new.area ≡ buf.old.area }
{
    let datasets = vec![in alloc;
        dataset(alloc, "slow", &SLOW, Color::LightRed)?,
        dataset(alloc, "fast", &FAST, Color::Green)?,
    ]?;
    Chart::new(datasets)
        .block(boxed(alloc, " Chart ")?)
        .x_axis(axis(alloc)?)
        .y_axis(axis(alloc)?)
        .render(area, buf)
}

/// Paints the same shapes in dots of braille and in half blocks, and a chart under them.
pub fn paint(alloc: Global, buf: &mut Buffer) -> Result<(), AllocError>
    ensures { buf.new.area ≡ buf.old.area }
{
    let area = *buf.area();
    let halves = [Constraint::Fill(1), Constraint::Fill(1)];
    let [above, below]: [Rect; 2] = Layout::vertical(alloc, &halves)?.areas(area);
    let [left, right]: [Rect; 2] = Layout::horizontal(alloc, &halves)?.areas(above);
    paint_shapes(alloc, " Canvas: braille ", Marker::Braille, left, buf)?;
    paint_shapes(
        alloc,
        " Canvas: half blocks ",
        Marker::HalfBlock,
        right,
        buf,
    )?;
    paint_chart(alloc, below, buf)
}
