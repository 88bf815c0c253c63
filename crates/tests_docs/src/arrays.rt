//! Widgets of arrays, beside those of lists that are filled one by one.

use crate::made::{are_equal, both, one, pair};
use ratatui_core::layout::Constraint;
use ratatui_core::text::Line;
use std::alloc::{AllocError, Global};
use widget_bars::{Bar, BarChart};
use widget_list::{List, ListItem};
use widget_table::{Cell, Row, Table};
use widget_tabs::Tabs;

// A list that is filled by hand.
fn list(alloc: Global) -> Result<List<'static>, AllocError> {
    let items = both(
        alloc,
        ListItem::raw(alloc, "one"),
        ListItem::raw(alloc, "two"),
    )?;
    Ok(List::new(items))
}

// The same of an array of items.
fn list_of_items(alloc: Global) -> Result<List<'static>, AllocError> {
    let items = pair(ListItem::raw(alloc, "one"), ListItem::raw(alloc, "two"))?;
    List::try_from_iter(alloc, items)
}

#[test]
fn lists(rt: HostRuntime) -> Result<(), AllocError> {
    let alloc = rt.alloc();
    assert!(rt; are_equal(List::raw(alloc, &["one", "two"]), list(alloc))?);
    assert!(rt; are_equal(list_of_items(alloc), list(alloc))?);
    Ok(())
}

// Tabs that are filled by hand.
fn tabs(alloc: Global) -> Result<Tabs<'static>, AllocError> {
    let titles = both(alloc, Line::raw(alloc, "Files"), Line::raw(alloc, "Log"))?;
    Ok(Tabs::new(titles))
}

// The same of an array of titles.
fn tabs_of_titles(alloc: Global) -> Result<Tabs<'static>, AllocError> {
    let titles = pair(Line::raw(alloc, "Files"), Line::raw(alloc, "Log"))?;
    Tabs::try_from_iter(alloc, titles)
}

#[test]
fn titles(rt: HostRuntime) -> Result<(), AllocError> {
    let alloc = rt.alloc();
    assert!(rt; are_equal(Tabs::raw(alloc, &["Files", "Log"]), tabs(alloc))?);
    assert!(rt; are_equal(tabs_of_titles(alloc), tabs(alloc))?);
    Ok(())
}

// A row that is filled by hand.
fn row(alloc: Global) -> Result<Row<'static>, AllocError> {
    let cells = both(alloc, Cell::raw(alloc, "init"), Cell::raw(alloc, "0%"))?;
    Ok(Row::new(cells))
}

// The same of an array of cells.
fn row_of_cells(alloc: Global) -> Result<Row<'static>, AllocError> {
    let cells = pair(Cell::raw(alloc, "init"), Cell::raw(alloc, "0%"))?;
    Row::try_from_iter(alloc, cells)
}

// A table of this row, filled by hand.
fn table(alloc: Global) -> Result<Table<'static>, AllocError> {
    let widths = both(alloc, Ok(Constraint::Fill(1)), Ok(Constraint::Length(4)))?;
    let rows = one(alloc, row(alloc))?;
    Ok(Table::new(rows, widths))
}

// The same of arrays.
fn table_of_rows(alloc: Global) -> Result<Table<'static>, AllocError> {
    let row = row_of_cells(alloc)?;
    Table::try_from_iter(alloc, [row], &[Constraint::Fill(1), Constraint::Length(4)])
}

#[test]
fn tables(rt: HostRuntime) -> Result<(), AllocError> {
    let alloc = rt.alloc();
    assert!(rt; are_equal(Row::raw(alloc, &["init", "0%"]), row(alloc))?);
    assert!(rt; are_equal(row_of_cells(alloc), row(alloc))?);
    assert!(rt; are_equal(table_of_rows(alloc), table(alloc))?);
    Ok(())
}

// A bar with a label.
fn bar(alloc: Global, label: &'static str, value: u64) -> Result<Bar<'static>, AllocError> {
    Ok(Bar::with_label(Line::raw(alloc, label)?, value))
}

// A bar chart that is filled by hand.
fn chart(alloc: Global) -> Result<BarChart<'static>, AllocError> {
    let bars = both(alloc, bar(alloc, "a", 3), bar(alloc, "b", 8))?;
    BarChart::new(alloc, bars)
}

#[test]
fn bar_charts(rt: HostRuntime) -> Result<(), AllocError> {
    let alloc = rt.alloc();
    assert!(rt; are_equal(BarChart::raw(alloc, &[("a", 3), ("b", 8)]), chart(alloc))?);
    Ok(())
}
