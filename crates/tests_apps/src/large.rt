//! Widgets of many parts, and of none.
use ratatui_core::buffer::Buffer;
use ratatui_core::layout::{Constraint, Rect};
use ratatui_core::style::Color;
use ratatui_core::symbols::Marker;
use ratatui_core::widgets::{StatefulWidget, Widget};
use ratatui_widgets::canvas::{Canvas, CanvasState, Drawing, Points};
use ratatui_widgets::{
    BarChart, Cell, Chart, List, Row, Sparkline, SparklineBar, Table, TableState, Tabs,
};
use std::alloc::{AllocError, Global};

// A table of one row of so many cells, each of a column.
fn wide_table(alloc: Global, count: usize) -> Result<Table<'static>, AllocError> {
    let (mut cells, mut widths) = (Vec::new(alloc), Vec::new(alloc));
    for _ in 0..count {
        cells.push(Cell::raw(alloc, "x")?)?;
        widths.push(Constraint::Length(1))?;
    }
    let mut rows = Vec::new(alloc);
    rows.push(Row::new(cells))?;
    Ok(Table::new(rows, widths).column_spacing(0))
}

#[test]
fn a_table_of_many_columns_is_shown(rt: HostRuntime) -> Result<(), AllocError> {
    let alloc = rt.alloc();
    let area = Rect::new(0, 0, 300, 1);
    let mut buffer = Buffer::empty(alloc, area)?;
    let table = wide_table(alloc, 300)?;
    StatefulWidget::render(&table, area, &mut buffer, &mut TableState::new())?;
    assert!(rt; buffer.content().iter().all(|cell| cell.symbol() == "x"));
    Ok(())
}

// The places of the cells with a dot of a canvas of 40,000 cells, of which two corners have one.
fn dotted(alloc: Global) -> Result<Vec<usize>, AllocError> {
    let area = Rect::new(0, 0, 400, 100);
    let mut buffer = Buffer::empty(alloc, area)?;
    let coords = [(0, 0), (399, 99)];
    let drawings = [Drawing::Points(Points::new(&coords, Color::Green))];
    let canvas = Canvas::new()
        .marker(Marker::Dot)
        .x_bounds([0, 399])
        .y_bounds([0, 99])
        .paint(&drawings);
    Widget::render(&canvas, area, &mut buffer)?;
    let mut places = Vec::new(alloc);
    for (place, cell) in buffer.content().iter().enumerate() {
        if cell.symbol() == "•" {
            places.push(place)?;
        }
    }
    Ok(places)
}

#[test]
fn a_canvas_of_many_cells_is_shown(rt: HostRuntime) -> Result<(), AllocError> {
    let places = dotted(rt.alloc())?;
    assert!(rt; places.as_slice() == [399, 39600].as_slice());
    Ok(())
}

#[test]
fn a_canvas_with_a_state_shows_the_same(rt: HostRuntime) -> Result<(), AllocError> {
    let alloc = rt.alloc();
    let area = Rect::new(0, 0, 20, 10);
    let coords = [(0, 0), (19, 7), (39, 39)];
    let drawings = [Drawing::Points(Points::new(&coords, Color::Green))];
    let canvas = Canvas::new()
        .x_bounds([0, 39])
        .y_bounds([0, 39])
        .paint(&drawings);
    let mut alone = Buffer::empty(alloc, area)?;
    let mut first = Buffer::empty(alloc, area)?;
    let mut second = Buffer::empty(alloc, area)?;
    Widget::render(&canvas, area, &mut alone)?;
    let mut state = CanvasState::new();
    StatefulWidget::render(&canvas, area, &mut first, &mut state)?;
    StatefulWidget::render(&canvas, area, &mut second, &mut state)?;
    assert!(rt; first == alone);
    assert!(rt; second == alone);
    Ok(())
}

#[test]
fn a_sparkline_of_many_bars_is_cloned(rt: HostRuntime) -> Result<(), AllocError> {
    let alloc = rt.alloc();
    let mut bars = Vec::new(alloc);
    for value in 0..5000 {
        bars.push(SparklineBar::new(Some(value)))?;
    }
    let sparkline = Sparkline::new(bars);
    assert!(rt; sparkline.clone(alloc)? == sparkline);
    Ok(())
}

#[test]
fn lists_and_tables_of_nothing_are_cloned(rt: HostRuntime) -> Result<(), AllocError> {
    let alloc = rt.alloc();
    let list = List::new(Vec::new(alloc));
    assert!(rt; list.clone(alloc)? == list);
    let table = Table::new(Vec::new(alloc), Vec::new(alloc));
    assert!(rt; table.clone(alloc)? == table);
    let tabs = Tabs::new(Vec::new(alloc));
    assert!(rt; tabs.clone(alloc)? == tabs);
    Ok(())
}

#[test]
fn charts_of_nothing_are_cloned(rt: HostRuntime) -> Result<(), AllocError> {
    let alloc = rt.alloc();
    let sparkline = Sparkline::new(Vec::new(alloc));
    assert!(rt; sparkline.clone(alloc)? == sparkline);
    let bars = BarChart::default_in(alloc);
    assert!(rt; bars.clone(alloc)? == bars);
    let chart = Chart::new(Vec::new(alloc));
    assert!(rt; chart.clone(alloc)? == chart);
    Ok(())
}
