//! The second page: tabs, a table, and bars.

ghost use Rattle.std.specs.Prelude.{◌≡◌};

use ratatui_core::buffer::Buffer;
use ratatui_core::layout::{Constraint, Layout, Rect, SplitInto};
use ratatui_core::style::{Color, Modifier, Style, Stylize};
use ratatui_core::text::{Line, Text};
use ratatui_core::widgets::{StatefulWidget, Widget};
use ratatui_widgets::table::{Cell, Row};
use ratatui_widgets::{
    Bar, BarChart, BarGroup, Block, BorderType, Sparkline, SparklineBar, Table, TableState, Tabs,
};
use std::alloc::{AllocError, Global};

// A box with a title.
fn boxed<'a>(alloc: Global, title: &'a str) -> Result<Block<'a>, AllocError> {
    Block::bordered(alloc)
        .border_type(BorderType::Rounded)
        .border_style(Style::new().fg(Color::Cyan))
        .title(Line::raw(alloc, title)?.style(Style::new().fg(Color::Yellow)))
}

// Paints tabs, of which the second one is selected.
fn paint_tabs(alloc: Global, area: Rect, buf: &mut Buffer) -> Result<(), AllocError>
    ensures { buf.new.area ≡ buf.old.area }
{
    let mut titles = Vec::new(alloc);
    for title in ["Texts", "Tables", "Dots"] {
        titles.push(Line::raw(alloc, title)?)?;
    }
    Tabs::new(titles)
        .select(Some(1))
        .highlight_style(
            Style::new()
                .fg(Color::Yellow)
                .add_modifier(Modifier::REVERSED),
        )
        .render(area, buf)
}

// What the table names: a crate, what is in it, and how many functions it has.
static CRATES: [[&str; 3]; 8] = [
    ["rtui_cell", "cells of a buffer", "98"],
    ["rtui_diff", "what changes between frames", "25"],
    ["rtui_text", "spans, lines and texts", "187"],
    ["rtui_buffer", "painting", "116"],
    ["rtui_terminal", "draws, resizes, insertions", "83"],
    ["widget_table", "this table: 表", "75"],
    ["ratatui_input", "keys", "93"],
    ["ratatui_ansi", "escape sequences", "104"],
];

// A row of texts.
fn row(alloc: Global, texts: &[&'static str; 3]) -> Result<Row<'static>, AllocError> {
    let mut cells = Vec::new(alloc);
    for text in texts {
        cells.push(Cell::raw(alloc, text)?)?;
    }
    Ok(Row::new(cells))
}

// The table.
fn table(alloc: Global) -> Result<Table<'static>, AllocError> {
    let mut rows = Vec::new(alloc);
    for texts in &CRATES {
        rows.push(row(alloc, texts)?)?;
    }
    let widths = vec![in alloc;
        Constraint::Length(14),
        Constraint::Fill(1),
        Constraint::Length(9),
    ]?;
    let header = row(alloc, &["crate", "what", "functions"])?
        .bold()
        .underlined();
    Ok(
        Table::new(rows, widths)
            .header(header)
            .block(boxed(alloc, " Table ")?)
            .highlight_symbol(Text::raw(alloc, "▶ ")?)
            .row_highlight_style(Style::new().bg(Color::Rgb(40, 60, 110))),
    )
}

// Paints numbers, a column each.
fn paint_sparkline(alloc: Global, area: Rect, buf: &mut Buffer) -> Result<(), AllocError>
    ensures { buf.new.area ≡ buf.old.area }
{
    let mut bars = Vec::new(alloc);
    for k in 0..200u64 {
        bars.push(SparklineBar::new(Some(k * k % 97)))?;
    }
    Sparkline::new(bars)
        .block(boxed(alloc, " Sparkline ")?)
        .style(Style::new().fg(Color::Green))
        .render(area, buf)
}

// Paints two groups of bars.
fn paint_chart(alloc: Global, area: Rect, buf: &mut Buffer) -> Result<(), AllocError>
    ensures { buf.new.area ≡ buf.old.area }
{
    let mut groups = Vec::new(alloc);
    for (label, values) in [("before", [3, 9, 6]), ("after", [12, 5, 8])] {
        let mut bars = Vec::new(alloc);
        for value in values {
            bars.push(Bar::new(value))?;
        }
        groups.push(BarGroup::with_label(Line::raw(alloc, label)?, bars))?;
    }
    BarChart::grouped(groups)
        .block(boxed(alloc, " BarChart ")?)
        .bar_width(3)
        .group_gap(3)
        .bar_style(Style::new().fg(Color::Magenta))
        .value_style(
            Style::new()
                .fg(Color::Magenta)
                .add_modifier(Modifier::REVERSED),
        )
        .render(area, buf)
}

/// Paints tabs, a table under them, and under that a sparkline beside a bar chart.
pub fn paint(alloc: Global, buf: &mut Buffer) -> Result<(), AllocError>
    ensures { buf.new.area ≡ buf.old.area }
{
    let area = *buf.area();
    let rows = [
        Constraint::Length(1),
        Constraint::Fill(1),
        Constraint::Length(9),
    ];
    let [head, body, foot]: [Rect; 3] = Layout::vertical(alloc, &rows)?.areas(area);
    let halves = [Constraint::Fill(1), Constraint::Fill(1)];
    let [left, right]: [Rect; 2] = Layout::horizontal(alloc, &halves)?.areas(foot);
    paint_tabs(alloc, head, buf)?;
    let mut state = TableState::new().with_selected(Some(5));
    StatefulWidget::render(table(alloc)?, body, buf, &mut state)?;
    paint_sparkline(alloc, left, buf)?;
    paint_chart(alloc, right, buf)
}
