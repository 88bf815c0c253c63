//! A list, a table, and tabs.
use ratatui_core::layout::Constraint;
use ratatui_core::style::{Style, Stylize};
use ratatui_core::terminal::Frame;
use ratatui_core::text::Line;
use ratatui_widgets::table::{Cell, Row};
use ratatui_widgets::{List, ListItem, ListState, Table, Tabs};
use std::alloc::{AllocError, Global};

/// Draws a list, of which the second item is selected.
pub fn list(alloc: Global, frame: &mut Frame<'_>) -> Result<(), AllocError> {
    let area = frame.area();
    let mut items = Vec::new(alloc);
    for fruit in ["apples", "cherries", "figs"] {
        items.push(ListItem::raw(alloc, fruit)?)?;
    }
    let list = List::new(items).highlight_symbol(Line::raw(alloc, "> ")?);
    let mut state = ListState::default().with_selected(Some(1));
    frame.render_stateful_widget(list, area, &mut state)
}

// A row of two cells.
fn row(alloc: Global, name: &'static str, size: &'static str) -> Result<Row<'static>, AllocError> {
    let cells = vec![in alloc; Cell::raw(alloc, name)?, Cell::raw(alloc, size)?]?;
    Ok(Row::new(cells))
}

/// Draws a table with a header.
pub fn table(alloc: Global, frame: &mut Frame<'_>) -> Result<(), AllocError> {
    let area = frame.area();
    let rows = vec![in alloc;
        row(alloc, "main.rt", "1 kB")?,
        row(alloc, "lib.rt", "12 kB")?,
    ]?;
    let widths = vec![in alloc; Constraint::Fill(1), Constraint::Length(6)]?;
    let header = row(alloc, "Name", "Size")?.bold();
    let table = Table::new(rows, widths).header(header);
    frame.render_widget(table, area)
}

/// Draws tabs, of which the second one is selected.
pub fn tabs(alloc: Global, frame: &mut Frame<'_>) -> Result<(), AllocError> {
    let area = frame.area();
    let mut titles = Vec::new(alloc);
    for title in ["Files", "Log", "Help"] {
        titles.push(Line::raw(alloc, title)?)?;
    }
    let tabs = Tabs::new(titles)
        .select(Some(1))
        .highlight_style(Style::new().reversed());
    frame.render_widget(tabs, area)
}
