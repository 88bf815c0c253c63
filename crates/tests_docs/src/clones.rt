//! Equal widgets, and others. What a helper clones is all that it owns.
use crate::made::{are_equal, one};
use ratatui_core::layout::Constraint;
use ratatui_core::style::Stylize;
use ratatui_core::text::{Line, Span};
use ratatui_widgets::barchart::{Bar, BarChart, BarGroup};
use ratatui_widgets::block::Block;
use ratatui_widgets::canvas::{Canvas, Label};
use ratatui_widgets::chart::{Axis, Chart, Dataset};
use ratatui_widgets::gauge::{Gauge, LineGauge};
use ratatui_widgets::list::List;
use ratatui_widgets::paragraph::Paragraph;
use ratatui_widgets::sparkline::{Sparkline, SparklineBar};
use ratatui_widgets::table::{Row, Table};
use ratatui_widgets::tabs::Tabs;
use std::alloc::{AllocError, Global};

// A box with a title.
fn titled(alloc: Global) -> Result<Block<'static>, AllocError> {
    Block::bordered(alloc).title_raw("Files")
}

fn block_is_cloned(alloc: Global) -> Result<bool, AllocError> {
    let block = titled(alloc)?;
    are_equal(block.clone(alloc), Ok(block))
}

// Whether a box in another colour is another one.
fn block_differs(alloc: Global) -> Result<bool, AllocError> {
    let red = titled(alloc)?.red();
    Ok(!are_equal(titled(alloc), Ok(red))?)
}

// A text in a box.
fn boxed_text(alloc: Global) -> Result<Paragraph<'static>, AllocError> {
    let block = titled(alloc)?;
    Ok(Paragraph::raw(alloc, "one")?.block(block))
}

fn paragraph_is_cloned(alloc: Global) -> Result<bool, AllocError> {
    let paragraph = boxed_text(alloc)?;
    are_equal(paragraph.clone(alloc), Ok(paragraph))
}

#[test]
fn boxes_and_texts_are_cloned(rt: HostRuntime) -> Result<(), AllocError> {
    assert!(rt; block_is_cloned(rt.alloc())?);
    assert!(rt; block_differs(rt.alloc())?);
    assert!(rt; paragraph_is_cloned(rt.alloc())?);
    Ok(())
}

// A list of one item, with a symbol.
fn listed(alloc: Global) -> Result<List<'static>, AllocError> {
    let block = titled(alloc)?;
    let symbol = Line::raw(alloc, "> ")?;
    let list = List::raw(alloc, &["one"])?;
    Ok(list.block(block).highlight_symbol(symbol))
}

fn list_is_cloned(alloc: Global) -> Result<bool, AllocError> {
    let list = listed(alloc)?;
    are_equal(list.clone(alloc), Ok(list))
}

// A table of a header and a row.
fn tabled(alloc: Global) -> Result<Table<'static>, AllocError> {
    let block = titled(alloc)?;
    let header = Row::raw(alloc, &["one"])?;
    let widths = one(alloc, Ok(Constraint::Fill(1)))?;
    let rows = one(alloc, Row::raw(alloc, &["one"]))?;
    Ok(Table::new(rows, widths).header(header).block(block))
}

fn table_is_cloned(alloc: Global) -> Result<bool, AllocError> {
    let table = tabled(alloc)?;
    are_equal(table.clone(alloc), Ok(table))
}

// Tabs of one title.
fn tabbed(alloc: Global) -> Result<Tabs<'static>, AllocError> {
    let block = titled(alloc)?;
    Ok(Tabs::raw(alloc, &["Log"])?.block(block))
}

fn tabs_are_cloned(alloc: Global) -> Result<bool, AllocError> {
    let tabs = tabbed(alloc)?;
    are_equal(tabs.clone(alloc), Ok(tabs))
}

#[test]
fn lists_and_tables_are_cloned(rt: HostRuntime) -> Result<(), AllocError> {
    assert!(rt; list_is_cloned(rt.alloc())?);
    assert!(rt; table_is_cloned(rt.alloc())?);
    assert!(rt; tabs_are_cloned(rt.alloc())?);
    Ok(())
}

fn gauge_is_cloned(alloc: Global) -> Result<bool, AllocError> {
    let gauge = Gauge::new().percent(40).label(Span::raw("sent"));
    are_equal(gauge.clone(alloc), Ok(gauge))
}

fn line_gauge_is_cloned(alloc: Global) -> Result<bool, AllocError> {
    let label = Line::raw(alloc, "sent")?;
    let gauge = LineGauge::new().label(label);
    are_equal(gauge.clone(alloc), Ok(gauge))
}

#[test]
fn gauges_are_cloned(rt: HostRuntime) -> Result<(), AllocError> {
    assert!(rt; gauge_is_cloned(rt.alloc())?);
    assert!(rt; line_gauge_is_cloned(rt.alloc())?);
    Ok(())
}

// A bar with a label.
fn bar(alloc: Global) -> Result<Bar<'static>, AllocError> {
    Ok(Bar::with_label(Line::raw(alloc, "Mon")?, 3))
}

// A group of one bar.
fn group(alloc: Global) -> Result<BarGroup<'static>, AllocError> {
    let label = Line::raw(alloc, "March")?;
    Ok(BarGroup::with_label(label, one(alloc, bar(alloc))?))
}

// A bar chart of one group.
fn barred(alloc: Global) -> Result<BarChart<'static>, AllocError> {
    let group = group(alloc)?;
    let chart = BarChart::default_in(alloc).data(group)?;
    Ok(chart.block(titled(alloc)?))
}

fn bars_are_cloned(alloc: Global) -> Result<bool, AllocError> {
    let bars = barred(alloc)?;
    are_equal(bars.clone(alloc), Ok(bars))
}

// A sparkline of one bar.
fn sparkled(alloc: Global) -> Result<Sparkline<'static>, AllocError> {
    let block = titled(alloc)?;
    let bars = one(alloc, Ok(SparklineBar::new(Some(3))))?;
    Ok(Sparkline::new(bars).block(block))
}

fn sparkline_is_cloned(alloc: Global) -> Result<bool, AllocError> {
    let sparkline = sparkled(alloc)?;
    are_equal(sparkline.clone(alloc), Ok(sparkline))
}

// A data set with a name.
fn named(alloc: Global) -> Result<Dataset<'static>, AllocError> {
    Ok(Dataset::new().name(Line::raw(alloc, "load")?))
}

// A chart of a data set and an axis with a label.
fn charted(alloc: Global) -> Result<Chart<'static>, AllocError> {
    let block = titled(alloc)?;
    let labels = one(alloc, Line::raw(alloc, "0"))?;
    let datasets = one(alloc, named(alloc))?;
    let axis = Axis::new().labels(labels);
    Ok(Chart::new(datasets).x_axis(axis).block(block))
}

fn chart_is_cloned(alloc: Global) -> Result<bool, AllocError> {
    let chart = charted(alloc)?;
    are_equal(chart.clone(alloc), Ok(chart))
}

#[test]
fn charts_are_cloned(rt: HostRuntime) -> Result<(), AllocError> {
    assert!(rt; bars_are_cloned(rt.alloc())?);
    assert!(rt; sparkline_is_cloned(rt.alloc())?);
    assert!(rt; chart_is_cloned(rt.alloc())?);
    Ok(())
}

fn label_is_cloned(alloc: Global) -> Result<bool, AllocError> {
    let line = Line::raw(alloc, "peak")?;
    let label = Label::new(1, 2, line);
    are_equal(label.clone(alloc), Ok(label))
}

#[test]
fn labels_are_cloned(rt: HostRuntime) -> Result<(), AllocError> {
    let alloc = rt.alloc();
    assert!(rt; label_is_cloned(alloc)?);
    let block = titled(alloc)?;
    let canvas = Canvas::new().block(block);
    let _ = canvas.clone(alloc)?;
    Ok(())
}
