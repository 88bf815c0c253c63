//! Examples of charts.
use ratatui_core::buffer::Buffer;
use ratatui_core::layout::Rect;
use ratatui_core::style::{Style, Stylize};
use ratatui_core::text::Line;
use ratatui_core::widgets::Widget;
use ratatui_widgets::chart::{Axis, Chart, Dataset, GraphType};
use std::alloc::{AllocError, Global};

/// A data set between two axes.
pub(crate) fn charted(alloc: Global, area: Rect, buf: &mut Buffer) -> Result<(), AllocError> {
    let data = [(0, 3), (50, 8), (100, 5)];
    let mut datasets = Vec::new(alloc);
    datasets.push(Dataset::new().data(&data).graph_type(GraphType::Line))?;
    let x = Axis::new().bounds([0, 100]);
    let y = Axis::new().bounds([0, 10]);
    Chart::new(datasets).x_axis(x).y_axis(y).render(area, buf)?;
    Ok(())
}

/// A chart with an axis that has labels.
pub(crate) fn labelled(alloc: Global, area: Rect, buf: &mut Buffer) -> Result<(), AllocError> {
    let labels = vec![in alloc; Line::raw(alloc, "0")?, Line::raw(alloc, "100")?]?;
    let axis = Axis::new().bounds([0, 100]).labels(labels);
    Chart::new(Vec::new(alloc)).x_axis(axis).render(area, buf)?;
    Ok(())
}

#[test]
fn charts_are_styled_by_name(rt: HostRuntime) {
    let red = Style::new().red();
    assert!(rt; Axis::new().red() == Axis::new().style(red));
    assert!(rt; Dataset::new().red() == Dataset::new().style(red));
    let alloc = rt.alloc();
    let chart = Chart::new(Vec::new(alloc));
    assert!(rt; chart.red() == Chart::new(Vec::new(alloc)).style(red));
}
