//! The tables of the cases.

use crate::boxes::frame_of;
use crate::cases::Case;
use crate::looks::{styled_front, text_of};
use crate::shown::push_state;
use crate::widgets::spacing_of;
use ratatui_core::buffer::Buffer;
use ratatui_core::layout::{Constraint, Flex, Rect};
use ratatui_core::text::Text;
use ratatui_core::widgets::StatefulWidget;
use std::alloc::{AllocError, Global};
use widget_table::{Cell, Row, Table, TableState};

// The width that a word says, as `l5`, `p30`, `m3`, `M8`, `r1/3` or `f1`.
fn width_of(word: &str) -> Constraint {
    let number = word.trim_start_matches(|c: char| c.is_alphabetic());
    let (over, under) = number.split_once("/").unwrap_or((number, "1"));
    let value = number.parse().unwrap_or(0);
    match word.chars().next() {
        Some('p') => Constraint::Percentage(value),
        Some('m') => Constraint::Min(value),
        Some('M') => Constraint::Max(value),
        Some('f') => Constraint::Fill(value),
        Some('r') => Constraint::Ratio(over.parse().unwrap_or(0), under.parse().unwrap_or(1)),
        _ => Constraint::Length(value),
    }
}

// The widths that an option says, between commas.
fn widths_of(alloc: Global, case: &Case<'_>) -> Result<Vec<Constraint>, AllocError> {
    let mut widths = Vec::new(alloc);
    if let Some(words) = case.option("widths") {
        for word in words.split(",") {
            widths.push(width_of(word))?;
        }
    }
    Ok(widths)
}

fn flex_of(case: &Case<'_>) -> Flex {
    match case.text("flex") {
        "legacy" => Flex::Legacy,
        "end" => Flex::End,
        "center" => Flex::Center,
        "between" => Flex::SpaceBetween,
        "evenly" => Flex::SpaceEvenly,
        "around" => Flex::SpaceAround,
        _ => Flex::Start,
    }
}

// The row that a text says, with a style in front: `;` parts its cells, which may have a style in
// front, too, and `\` the lines of a cell.
fn row_of<'a>(alloc: Global, case: &Case<'_>, text: &'a str) -> Result<Row<'a>, AllocError> {
    let mut cells = Vec::new(alloc);
    let mut height = 1usize;
    let (style, text) = styled_front(text);
    for cell in text.split(";") {
        let (style, content) = styled_front(cell);
        let content = text_of(alloc, content, "\\")?;
        height = content.height().max(height);
        cells.push(Cell::new(content).style(style))?;
    }
    Ok(
        Row::new(cells)
            .style(style)
            .height(case.small("height", height.min(65535) as u16))
            .top_margin(case.small("top", 0))
            .bottom_margin(case.small("margin", 0)),
    )
}

// The rows that texts between bars say.
fn rows_of<'a>(alloc: Global, case: &Case<'_>, texts: &'a str) -> Result<Vec<Row<'a>>, AllocError> {
    let mut rows = Vec::new(alloc);
    if texts.is_empty() {
        return Ok(rows);
    }
    for text in texts.split(" | ") {
        rows.push(row_of(alloc, case, text)?)?;
    }
    Ok(rows)
}

// The table with the first text as its header, if it is to have one, and the others as its rows.
fn with_rows<'a>(
    alloc: Global,
    case: &Case<'a>,
    table: Table<'a>,
) -> Result<Table<'a>, AllocError> {
    if case.option("header").is_none() {
        return Ok(table.rows(rows_of(alloc, case, case.texts)?));
    }
    let (header, rest) = case.texts.split_once(" | ").unwrap_or((case.texts, ""));
    let header = row_of(alloc, case, header)?;
    let rows = rows_of(alloc, case, rest)?;
    Ok(table.header(header).rows(rows))
}

// The table that a case says, without its footer and its box.
fn table_of<'a>(alloc: Global, case: &Case<'a>) -> Result<Table<'a>, AllocError> {
    let symbol: Text<'a> = text_of(alloc, case.text("symbol"), "\\")?;
    let widths = widths_of(alloc, case)?;
    let table = Table::new(Vec::new(alloc), widths)
        .style(case.style("style"))
        .column_spacing(case.small("spacing", 1))
        .flex(flex_of(case))
        .highlight_symbol(symbol)
        .highlight_spacing(spacing_of(case))
        .row_highlight_style(case.style_or("highlight", "^"))
        .column_highlight_style(case.style_or("columns", "*"))
        .cell_highlight_style(case.style_or("cells", "_"));
    with_rows(alloc, case, table)
}

// A table with the footer that a case says, if it says one.
fn with_footer<'a>(
    alloc: Global,
    case: &Case<'a>,
    table: Table<'a>,
) -> Result<Table<'a>, AllocError> {
    match case.option("footer") {
        Some(footer) => Ok(table.footer(row_of(alloc, case, footer)?)),
        None => Ok(table),
    }
}

/// Renders the table that a case says, and says its state.
pub fn table(
    alloc: Global,
    case: &Case<'_>,
    area: Rect,
    buffer: &mut Buffer,
    shown: &mut String,
) -> Result<(), AllocError> {
    let mut table = with_footer(alloc, case, table_of(alloc, case)?)?;
    if let Some(frame) = frame_of(alloc, case)? {
        table = table.block(frame);
    }
    let mut state = TableState::new()
        .with_offset(case.number("offset").unwrap_or(0))
        .with_selected(case.number("selected"))
        .with_selected_column(case.number("column"));
    StatefulWidget::render(&table, area, buffer, &mut state)?;
    push_state(
        shown,
        state.offset(),
        state.selected(),
        state.selected_column(),
    )
}
