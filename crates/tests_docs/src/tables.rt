//! Examples of tables, tabs and bars.
use ratatui_core::buffer::Buffer;
use ratatui_core::layout::{Constraint, Rect};
use ratatui_core::style::{Color, Style};
use ratatui_core::text::{Line, Text};
use ratatui_core::widgets::{StatefulWidget, Widget};
use ratatui_widgets::{Bar, BarChart, Cell, Row, Sparkline, SparklineBar, Table, TableState, Tabs};
use std::alloc::{AllocError, Global};

// A row of two cells.
fn row_of(
    alloc: Global,
    name: &'static str,
    size: &'static str,
) -> Result<Row<'static>, AllocError> {
    let mut cells = Vec::new(alloc);
    cells.push(Cell::new(Text::raw(alloc, name)?))?;
    cells.push(Cell::new(Text::raw(alloc, size)?))?;
    Ok(Row::new(cells))
}

/// A table of two files.
pub(crate) fn listed(alloc: Global, area: Rect, buf: &mut Buffer) -> Result<(), AllocError> {
    let names = row_of(alloc, "name", "size")?;
    let mut rows = Vec::new(alloc);
    rows.push(row_of(alloc, "one", "1")?)?;
    rows.push(row_of(alloc, "two", "22")?)?;
    let widths = Constraint::from_lengths(alloc, &[4, 4])?;
    let mut state = TableState::new();
    let table = Table::new(rows, widths)
        .header(names)
        .row_highlight_style(Style::new().bg(Color::Blue));
    StatefulWidget::render(&table, area, buf, &mut state)?;
    Ok(())
}

/// Two tabs, of which the second is selected.
pub(crate) fn tabbed(alloc: Global, area: Rect, buf: &mut Buffer) -> Result<(), AllocError> {
    let mut titles = Vec::new(alloc);
    titles.push(Line::raw(alloc, "Files")?)?;
    titles.push(Line::raw(alloc, "Log")?)?;
    Tabs::new(titles).select(Some(1)).render(area, buf)?;
    Ok(())
}

/// Five numbers.
pub(crate) fn sparkled(alloc: Global, area: Rect, buf: &mut Buffer) -> Result<(), AllocError> {
    let mut bars = Vec::new(alloc);
    for value in [3u64, 1, 4, 1, 5] {
        bars.push(SparklineBar::new(Some(value)))?;
    }
    Sparkline::new(bars).render(area, buf)?;
    Ok(())
}

/// Two bars.
pub(crate) fn charted(alloc: Global, area: Rect, buf: &mut Buffer) -> Result<(), AllocError> {
    let mut bars = Vec::new(alloc);
    bars.push(Bar::with_label(Line::raw(alloc, "a")?, 3))?;
    bars.push(Bar::with_label(Line::raw(alloc, "b")?, 8))?;
    BarChart::new(alloc, bars)?.bar_width(3).render(area, buf)?;
    Ok(())
}
