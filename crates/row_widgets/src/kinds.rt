//! The kinds of cases: the widget of each.

use crate::bars::{bar_chart, sparkline, tabs};
use crate::boxes::block;
use crate::canvases::canvas;
use crate::cases::Case;
use crate::charts::chart;
use crate::shown::push_rows;
use crate::tables::table;
use crate::widgets::{gauge, line_gauge, list, paragraph, scrollbar};
use ratatui_core::buffer::{Buffer, Cell};
use ratatui_core::layout::Rect;
use ratatui_core::widgets::Widget;
use std::alloc::{AllocError, Global};
use widget_boxes::Clear;

// Renders the widget of a case, and says its state.
fn render(
    alloc: Global,
    case: &Case<'_>,
    area: Rect,
    buffer: &mut Buffer,
    shown: &mut String,
) -> Result<(), AllocError> {
    match case.kind {
        "list" => list(alloc, case, area, buffer, shown),
        "table" => table(alloc, case, area, buffer, shown),
        "block" => block(alloc, case, area, buffer),
        "gauge" => gauge(alloc, case, area, buffer),
        "linegauge" => line_gauge(alloc, case, area, buffer),
        "scrollbar" => scrollbar(case, area, buffer),
        "tabs" => tabs(alloc, case, area, buffer),
        "sparkline" => sparkline(alloc, case, area, buffer),
        "barchart" => bar_chart(alloc, case, area, buffer),
        "canvas" => canvas(alloc, case, area, buffer),
        "chart" => chart(alloc, case, area, buffer),
        "clear" => Clear.render(area, buffer),
        _ => paragraph(alloc, case, area, buffer),
    }
}

// The buffer of a case: blank, or `x` in this style in each cell.
fn ground_of(alloc: Global, case: &Case<'_>) -> Result<Buffer, AllocError> {
    let area = Rect::new(0, 0, case.width, case.height);
    if case.option("ground").is_none() {
        return Buffer::empty(alloc, area);
    }
    let mut cell = Cell::from_char(alloc, 'x')?;
    cell.set_style(case.style("ground"));
    Buffer::filled(alloc, area, cell)
}

// The area that the widget has: the whole buffer, or what four numbers say.
fn area_of(case: &Case<'_>) -> Rect {
    let mut numbers = case.text("in").split(",");
    let x = numbers.next().unwrap_or("").parse().unwrap_or(0);
    let y = numbers.next().unwrap_or("").parse().unwrap_or(0);
    let width = numbers.next().unwrap_or("").parse().unwrap_or(case.width);
    let height = numbers.next().unwrap_or("").parse().unwrap_or(case.height);
    Rect::new(x, y, width, height)
}

/// Returns the picture that a case leaves: of a list or a table its state, and the buffer.
pub fn show(alloc: Global, case: &Case<'_>) -> Result<String, AllocError> {
    let mut buffer = ground_of(alloc, case)?;
    let mut shown = String::new(alloc);
    render(alloc, case, area_of(case), &mut buffer, &mut shown)?;
    push_rows(&mut shown, &buffer)?;
    Ok(shown)
}
