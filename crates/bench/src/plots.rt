//! Workloads on tables, tabs, bars, charts, canvases and scroll bars.
use crate::texts::sum;
use crate::{Done, Size};
use ratatui_core::buffer::Buffer;
use ratatui_core::layout::{Constraint, Rect};
use ratatui_core::style::{Color, Style};
use ratatui_core::symbols::Marker;
use ratatui_core::text::{Line, Text};
use ratatui_core::widgets::{StatefulWidget, Widget};
use ratatui_widgets::canvas::{
    Canvas, CanvasState, Drawing, Label, Line as Segment, Points, Rectangle,
};
use ratatui_widgets::{
    Axis, BarChart, Chart, Dataset, GraphType, Row, Scrollbar, ScrollbarOrientation,
    ScrollbarState, Sparkline, SparklineBar, Table, TableState, Tabs,
};
use std::alloc::{AllocError, Global};

static NAMES: [&str; 12] = [
    "alpha", "beta", "gamma", "delta", "epsil", "zeta", "etta", "theta", "iota", "kappa", "lamda",
    "muon",
];

static CELLS: [&str; 4] = ["a name", "a number", "some words in a column", "a date"];

static HEADS: [&str; 4] = ["name", "count", "words", "date"];

fn rows(alloc: Global, count: u32) -> Result<Vec<Row<'static>>, AllocError> {
    let mut rows = Vec::new(alloc);
    for _row in 0..count {
        rows.push(Row::raw(alloc, &CELLS)?)?;
    }
    Ok(rows)
}

fn widths(alloc: Global) -> Result<Vec<Constraint>, AllocError> {
    let mut widths = Vec::new(alloc);
    widths.push(Constraint::Length(10))?;
    widths.push(Constraint::Percentage(20))?;
    widths.push(Constraint::Length(30))?;
    widths.push(Constraint::Min(8))?;
    Ok(widths)
}

// A table of so many rows.
fn table_of(alloc: Global, count: u32) -> Result<Table<'static>, AllocError> {
    let head = Row::raw(alloc, &HEADS)?.style(Style::new().bold());
    Ok(
        Table::new(rows(alloc, count)?, widths(alloc)?)
            .header(head)
            .highlight_symbol(Text::raw(alloc, "> ")?)
            .row_highlight_style(Style::new().bg(Color::Blue)),
    )
}

// Selects the last or the first row of a table, and renders it.
fn show_table(
    table: &Table<'static>,
    round: u64,
    buffer: &mut Buffer,
    state: &mut TableState,
) -> Result<(), AllocError> {
    if round % 2 == 0 {
        state.select_last();
    } else {
        state.select_first();
    }
    let area = *buffer.area();
    StatefulWidget::render(table, area, buffer, state)
}

// A table of so many rows that is kept.
fn tables(alloc: Global, size: Size, count: u32) -> Done {
    let area = Rect::new(0, 0, size.width, size.height);
    let mut buffer = Buffer::empty(alloc, area)?;
    let table = table_of(alloc, count)?;
    let mut state = TableState::new();
    for round in 0..size.count {
        buffer.reset();
        show_table(&table, round, &mut buffer, &mut state)?;
    }
    Ok(Some((size.count, sum(&buffer))))
}

// A table of so many rows that is made in each round.
fn new_tables(alloc: Global, size: Size, count: u32) -> Done {
    let area = Rect::new(0, 0, size.width, size.height);
    let mut buffer = Buffer::empty(alloc, area)?;
    let mut state = TableState::new();
    for round in 0..size.count {
        buffer.reset();
        let table = table_of(alloc, count)?;
        show_table(&table, round, &mut buffer, &mut state)?;
    }
    Ok(Some((size.count, sum(&buffer))))
}

// Tabs of which one is selected.
fn show_tabs(alloc: Global, round: u64, area: Rect, buffer: &mut Buffer) -> Result<(), AllocError> {
    Tabs::raw(alloc, &NAMES)?
        .select(Some((round % 12) as usize))
        .highlight_style(Style::new().fg(Color::Yellow))
        .render(area, buffer)
}

fn tabs(alloc: Global, size: Size) -> Done {
    let area = Rect::new(0, 0, size.width, size.height);
    let mut buffer = Buffer::empty(alloc, area)?;
    for round in 0..size.count {
        show_tabs(alloc, round, area, &mut buffer)?;
    }
    Ok(Some((size.count, sum(&buffer))))
}

// A name and a number for each of 36 bars.
fn bar_data(alloc: Global, round: u64) -> Result<Vec<(&'static str, u64)>, AllocError> {
    let mut data = Vec::with_capacity(alloc, 36)?;
    for k in 0..36u64 {
        let value = 1 + (k * 7).wrapping_add(round) % 90;
        data.push((NAMES[(k % 12) as usize], value))?;
    }
    Ok(data)
}

// Bars of five columns and a gap.
fn show_bars(alloc: Global, round: u64, area: Rect, buffer: &mut Buffer) -> Result<(), AllocError> {
    let data = bar_data(alloc, round)?;
    BarChart::raw(alloc, data.as_slice())?
        .max(90)
        .bar_width(5)
        .bar_gap(1)
        .bar_style(Style::new().fg(Color::Green))
        .value_style(Style::new().fg(Color::White))
        .render(area, buffer)
}

// The twin shows no last bar without a gap.
fn bars(alloc: Global, size: Size) -> Done {
    let area = Rect::new(0, 0, size.width / 6 * 6, size.height);
    let mut buffer = Buffer::empty(alloc, Rect::new(0, 0, size.width, size.height))?;
    for round in 0..size.count {
        buffer.reset();
        show_bars(alloc, round, area, &mut buffer)?;
    }
    Ok(Some((size.count, sum(&buffer))))
}

// A number for each of 200 columns.
fn spark_data(alloc: Global, round: u64) -> Result<Vec<SparklineBar>, AllocError> {
    let mut data = Vec::with_capacity(alloc, 200)?;
    for k in 0..200u64 {
        let value = (k * 7).wrapping_add(round) % 97;
        data.push(SparklineBar::new(Some(value)))?;
    }
    Ok(data)
}

// A sparkline as high as the area.
fn show_sparkline(
    alloc: Global,
    round: u64,
    area: Rect,
    buffer: &mut Buffer,
) -> Result<(), AllocError> {
    Sparkline::new(spark_data(alloc, round)?)
        .max(96)
        .style(Style::new().fg(Color::Green))
        .render(area, buffer)
}

fn sparklines(alloc: Global, size: Size) -> Done {
    let area = Rect::new(0, 0, size.width, size.height);
    let mut buffer = Buffer::empty(alloc, area)?;
    for round in 0..size.count {
        buffer.reset();
        show_sparkline(alloc, round, area, &mut buffer)?;
    }
    Ok(Some((size.count, sum(&buffer))))
}

// How many columns and rows of dots there are.
#[derive(Clone, Copy)]
struct Dots {
    columns: u16,
    rows: u16,
}

impl Dots {
    // The coordinate of the last column, from 0 on.
    fn right(self) -> i64 {
        i64::from(self.columns.saturating_sub(1))
    }

    // The coordinate of the highest row, from 0 on.
    fn top(self) -> i64 {
        i64::from(self.rows.saturating_sub(1))
    }
}

// Points over columns and rows of dots.
fn wave(alloc: Global, dots: Dots, round: u64) -> Result<Vec<(i64, i64)>, AllocError> {
    let mut points = Vec::with_capacity(alloc, usize::from(dots.columns))?;
    for x in 0..dots.columns {
        let at = u64::from(x);
        let y = (at * at / 7 + 3 * at).wrapping_add(round) % u64::from(dots.rows.max(1));
        points.push((i64::from(x), y as i64))?;
    }
    Ok(points)
}

fn axis(alloc: Global, count: u16) -> Result<Axis<'static>, AllocError> {
    let mut labels = Vec::new(alloc);
    labels.push(Line::raw(alloc, "0")?)?;
    labels.push(Line::raw(alloc, "50")?)?;
    labels.push(Line::raw(alloc, "100")?)?;
    let last = i64::from(count.saturating_sub(1));
    Ok(Axis::new().bounds([0, last]).labels(labels))
}

// The dots of a chart, which leaves four columns and two rows to the axes and their labels.
fn chart_dots(size: Size, marker: Marker) -> Dots {
    let (across, down) = match marker {
        Marker::Braille => (2, 4),
        _ => (1, 1),
    };
    Dots {
        columns: size.width.saturating_sub(4).saturating_mul(across),
        rows: size.height.saturating_sub(2).saturating_mul(down),
    }
}

// A chart of one data set.
fn chart_of<'a>(alloc: Global, dataset: Dataset<'a>) -> Result<Chart<'a>, AllocError> {
    let mut datasets = Vec::new(alloc);
    datasets.push(dataset)?;
    Ok(Chart::new(datasets))
}

// How a chart shows its points.
#[derive(Clone, Copy)]
struct Plot {
    marker: Marker,
    graph_type: GraphType,
    dots: Dots,
}

// A chart of points between two axes.
fn show_chart(
    alloc: Global,
    plot: Plot,
    points: &[(i64, i64)],
    area: Rect,
    buffer: &mut Buffer,
) -> Result<(), AllocError> {
    let dataset = Dataset::new()
        .marker(plot.marker)
        .graph_type(plot.graph_type)
        .style(Style::new().fg(Color::Green))
        .data(points);
    let x_axis = axis(alloc, plot.dots.columns)?;
    let y_axis = axis(alloc, plot.dots.rows)?;
    let chart = chart_of(alloc, dataset)?;
    chart.x_axis(x_axis).y_axis(y_axis).render(area, buffer)
}

fn charts(alloc: Global, size: Size, marker: Marker, graph_type: GraphType) -> Done {
    let area = Rect::new(0, 0, size.width, size.height);
    let dots = chart_dots(size, marker);
    let plot = Plot {
        marker,
        graph_type,
        dots,
    };
    let mut buffer = Buffer::empty(alloc, area)?;
    for round in 0..size.count {
        buffer.reset();
        let points = wave(alloc, dots, round)?;
        show_chart(alloc, plot, points.as_slice(), area, &mut buffer)?;
    }
    Ok(Some((size.count, sum(&buffer))))
}

// A rectangle and points, and 20 lines over them.
fn drawings<'a>(
    alloc: Global,
    dots: Dots,
    points: &'a [(i64, i64)],
) -> Result<Vec<Drawing<'a>>, AllocError> {
    let mut drawings = Vec::new(alloc);
    drawings.push(Drawing::Rectangle(Rectangle {
        x: 0,
        y: 0,
        width: dots.right(),
        height: dots.top(),
        color: Color::Green,
    }))?;
    drawings.push(Drawing::Points(Points {
        coords: points,
        color: Color::Yellow,
    }))?;
    drawings.push(Drawing::Layer)?;
    for row in 0..20u16 {
        let y = i64::from(row);
        let last = dots.top().saturating_sub(4 * y);
        drawings.push(Drawing::Line(Segment::new(0, y, dots.right(), last, Color::Red)))?;
    }
    Ok(drawings)
}

// Two labels.
fn labels(alloc: Global) -> Result<Vec<Label<'static>>, AllocError> {
    let mut labels = Vec::new(alloc);
    labels.push(Label::new(1, 1, Line::raw(alloc, "a corner")?))?;
    labels.push(Label::new(20, 20, Line::raw(alloc, "a label")?))?;
    Ok(labels)
}

// The dots of a canvas in Braille.
fn canvas_dots(size: Size) -> Dots {
    Dots {
        columns: size.width.saturating_mul(2),
        rows: size.height.saturating_mul(4),
    }
}

// A canvas over so many dots.
fn canvas_of<'a>(dots: Dots, drawings: &'a [Drawing<'a>], labels: &'a [Label<'a>]) -> Canvas<'a> {
    Canvas::new()
        .x_bounds([0, dots.right()])
        .y_bounds([0, dots.top()])
        .paint(drawings)
        .print(labels)
}

// Renders such a canvas.
fn render_canvas(
    dots: Dots,
    drawings: &[Drawing<'_>],
    labels: &[Label<'_>],
    area: Rect,
    buffer: &mut Buffer,
) -> Result<(), AllocError> {
    Widget::render(canvas_of(dots, drawings, labels), area, buffer)
}

// The same with a state that keeps the grid.
fn render_kept(
    dots: Dots,
    drawings: &[Drawing<'_>],
    labels: &[Label<'_>],
    area: Rect,
    buffer: &mut Buffer,
    state: &mut CanvasState,
) -> Result<(), AllocError> {
    StatefulWidget::render(canvas_of(dots, drawings, labels), area, buffer, state)
}

// A canvas that is made anew.
fn show_canvas(
    alloc: Global,
    dots: Dots,
    points: &[(i64, i64)],
    area: Rect,
    buffer: &mut Buffer,
) -> Result<(), AllocError> {
    let drawings = drawings(alloc, dots, points)?;
    let labels = labels(alloc)?;
    render_canvas(dots, drawings.as_slice(), labels.as_slice(), area, buffer)
}

fn canvases(alloc: Global, size: Size) -> Done {
    let area = Rect::new(0, 0, size.width, size.height);
    let dots = canvas_dots(size);
    let points = wave(alloc, dots, 0)?;
    let mut buffer = Buffer::empty(alloc, area)?;
    for _round in 0..size.count {
        buffer.reset();
        show_canvas(alloc, dots, points.as_slice(), area, &mut buffer)?;
    }
    Ok(Some((size.count, sum(&buffer))))
}

// A canvas whose state keeps the grid.
fn kept_canvases(alloc: Global, size: Size) -> Done {
    let area = Rect::new(0, 0, size.width, size.height);
    let dots = canvas_dots(size);
    let points = wave(alloc, dots, 0)?;
    let drawings = drawings(alloc, dots, points.as_slice())?;
    let labels = labels(alloc)?;
    let mut buffer = Buffer::empty(alloc, area)?;
    let mut state = CanvasState::new();
    for _round in 0..size.count {
        buffer.reset();
        render_kept(
            dots,
            drawings.as_slice(),
            labels.as_slice(),
            area,
            &mut buffer,
            &mut state,
        )?;
    }
    Ok(Some((size.count, sum(&buffer))))
}

fn scrollbars(alloc: Global, size: Size) -> Done {
    let area = Rect::new(0, 0, size.width, size.height);
    let mut buffer = Buffer::empty(alloc, area)?;
    let bar = Scrollbar::new(ScrollbarOrientation::VerticalRight);
    for round in 0..size.count {
        let mut state = ScrollbarState::new(1000).position((round % 1000) as usize);
        StatefulWidget::render(&bar, area, &mut buffer, &mut state)?;
    }
    Ok(Some((size.count, sum(&buffer))))
}

/// Runs the workload of this name, if it is one.
pub fn run(alloc: Global, name: &str, size: Size) -> Done {
    match name {
        "table_1000" => tables(alloc, size, 1_000),
        "table" => tables(alloc, size, 100_000),
        "table_new" => new_tables(alloc, size, 100),
        "tabs" => tabs(alloc, size),
        "bars" => bars(alloc, size),
        "sparkline" => sparklines(alloc, size),
        "chart_line" => charts(alloc, size, Marker::Braille, GraphType::Line),
        "chart_dots" => charts(alloc, size, Marker::Dot, GraphType::Scatter),
        "canvas" => canvases(alloc, size),
        "canvas_kept" => kept_canvases(alloc, size),
        "scrollbar" => scrollbars(alloc, size),
        _ => Ok(None),
    }
}
