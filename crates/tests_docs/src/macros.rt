//! The examples of the macros' doc comments, and what each macro makes.

use crate::made::{are_equal, both};
use ratatui_core::buffer::Buffer;
use ratatui_core::layout::{Constraint, Rect, SplitInto};
use ratatui_core::style::{Color, Style, Stylize};
use ratatui_core::text::{Line, Span, Text, ToText};
use ratatui_core::widgets::Widget;
use ratatui_macros::{constraint, constraints, horizontal, line, row, span, text, vertical};
use std::alloc::{AllocError, Global};
use widget_bars::BarChart;
use widget_list::List;
use widget_table::{Cell, Row, Table};
use widget_tabs::Tabs;

// A line of a text, a span and a text.
fn line_of_parts(alloc: Global) -> Result<Line<'static>, AllocError> {
    let line = line![in alloc; "press ", "q".bold(), " to end"]?;
    Ok(line)
}

// The same, of which the last part is owned.
fn line_of_owned(alloc: Global) -> Result<Line<'static>, AllocError> {
    let owned = String::from_str(alloc, " to end")?;
    line![in alloc; "press ", "q".bold(), owned]
}

fn line_by_hand(alloc: Global) -> Result<Line<'static>, AllocError> {
    let mut by_hand = Line::raw(alloc, "press ")?;
    by_hand.push_span("q".bold())?;
    by_hand.push_span(Span::raw(" to end"))?;
    Ok(by_hand)
}

#[test]
fn lines(rt: HostRuntime) -> Result<(), AllocError> {
    let alloc = rt.alloc();
    assert!(rt; line_of_parts(alloc)?.width() == 14);
    assert!(rt; are_equal(line_of_owned(alloc), line_by_hand(alloc))?);
    assert!(rt; are_equal(line![in alloc], Ok(Line::default_in(alloc)))?);
    Ok(())
}

// A row of a text, a span and the text of a number.
fn row_of_three(alloc: Global) -> Result<Row<'static>, AllocError> {
    let total = 3;
    let row = row![in alloc; "cpu", "97%".red(), total.to_text(alloc)?]?;
    Ok(row)
}

// A row of a text and a span.
fn row_of_two(alloc: Global) -> Result<Row<'static>, AllocError> {
    let row = row![in alloc; "cpu", "97%".red()]?;
    Ok(row)
}

// A cell of a span.
fn red_cell(alloc: Global) -> Result<Cell<'static>, AllocError> {
    Ok(Cell::new(Text::from_span(alloc, "97%".red())?))
}

fn row_by_hand(alloc: Global) -> Result<Row<'static>, AllocError> {
    let cells = both(alloc, Cell::raw(alloc, "cpu"), red_cell(alloc))?;
    Ok(Row::new(cells))
}

#[test]
fn rows(rt: HostRuntime) -> Result<(), AllocError> {
    let alloc = rt.alloc();
    assert!(rt; !are_equal(row_of_three(alloc), row_of_two(alloc))?);
    assert!(rt; !are_equal(row_of_two(alloc), Row::raw(alloc, &["cpu", "97%"]))?);
    assert!(rt; are_equal(row_of_two(alloc), row_by_hand(alloc))?);
    assert!(rt; are_equal(row![in alloc], Ok(Row::new(Vec::new(alloc))))?);
    Ok(())
}

// A text of a span and a text.
fn text_of_two(alloc: Global) -> Result<Text<'static>, AllocError> {
    let text = text![in alloc; "Files".bold(), "none yet"]?;
    Ok(text)
}

// A text of a span and a line.
fn text_of_a_line(alloc: Global) -> Result<Text<'static>, AllocError> {
    let text = text![in alloc; "Files".bold(), line![in alloc; "none ", "yet".dim()]?]?;
    Ok(text)
}

// A text of a text and a line.
fn text_of_parts(alloc: Global) -> Result<Text<'static>, AllocError> {
    let line = line![in alloc; "none ", "yet".dim()]?;
    text![in alloc; "Files", line]
}

fn text_by_hand(alloc: Global) -> Result<Text<'static>, AllocError> {
    let line = Span::raw("none ").try_add(alloc, "yet".dim())?;
    let mut by_hand = Text::raw(alloc, "Files")?;
    by_hand.push_line(line)?;
    Ok(by_hand)
}

#[test]
fn texts(rt: HostRuntime) -> Result<(), AllocError> {
    let alloc = rt.alloc();
    assert!(rt; text_of_two(alloc)?.height() == 2);
    assert!(rt; text_of_a_line(alloc)?.width() == 8);
    assert!(rt; are_equal(text_of_parts(alloc), text_by_hand(alloc))?);
    assert!(rt; text![in alloc]?.height() == 0);
    Ok(())
}

// A load, and the same in a colour.
fn loads(alloc: Global, cpu: u8) -> Result<(Span<'static>, Span<'static>), AllocError> {
    let load = span!(in alloc; "{}%", cpu)?;
    let plain = load;
    let load = span!(in alloc; Color::Red; "{}%", cpu)?;
    Ok((plain, load))
}

#[test]
fn spans(rt: HostRuntime) -> Result<(), AllocError> {
    let alloc = rt.alloc();
    let (plain, red) = loads(alloc, 97)?;
    assert!(rt; plain == Span::raw("97%"));
    assert!(rt; red == "97%".red());
    let ticks = 3;
    assert!(rt; are_equal(span!(in alloc; "{ticks} of {}", 4), Ok(Span::raw("3 of 4")))?);
    assert!(rt; are_equal(span!(in alloc; Color::Red; "{ticks}"), Ok("3".red()))?);
    Ok(())
}

#[test]
fn constraints_in_short(rt: HostRuntime) {
    assert!(rt; constraint!(== 50%) == Constraint::Percentage(50));
    let parts = constraints![== 3, == 50%, *= 1];
    assert!(rt; parts[1] == Constraint::Percentage(50));
}

#[test]
fn constraints_by_signs(rt: HostRuntime) {
    let read = constraints![== 3, == 50%, == 1/3, >= 4, <= 5, *= 1];
    let by_hand = [
        Constraint::Length(3),
        Constraint::Percentage(50),
        Constraint::Ratio(1, 3),
        Constraint::Min(4),
        Constraint::Max(5),
        Constraint::Fill(1),
    ];
    assert!(rt; read == by_hand);
    assert!(rt; constraints![*= 2; 2] == [Constraint::Fill(2), Constraint::Fill(2)]);
}

// A row, and what is left of an area.
fn head_and_body(alloc: Global, area: Rect) -> Result<(Rect, Rect), AllocError> {
    let [head, body]: [Rect; 2] = vertical![in alloc; == 1, *= 1]?.areas(area);
    Ok((head, body))
}

// Twenty columns, and what is left of an area.
fn names_and_text(alloc: Global, area: Rect) -> Result<(Rect, Rect), AllocError> {
    let [names, text]: [Rect; 2] = horizontal![in alloc; == 20, *= 1]?.areas(area);
    Ok((names, text))
}

// Four columns, and what is left of an area.
fn names_and_values(alloc: Global, area: Rect) -> Result<(Rect, Rect), AllocError> {
    let [names, values]: [Rect; 2] = horizontal![in alloc; == 4, *= 1]?.areas(area);
    Ok((names, values))
}

#[test]
fn areas_in_short(rt: HostRuntime) -> Result<(), AllocError> {
    let alloc = rt.alloc();
    let area = Rect::new(0, 0, 30, 4);
    let (head, body) = head_and_body(alloc, area)?;
    assert!(rt; head.height == 1 && body.height == 3);
    let (names, text) = names_and_text(alloc, area)?;
    assert!(rt; names.width == 20 && text.width == 10);
    let area = Rect::new(0, 0, 9, 9);
    let (head, body) = head_and_body(alloc, area)?;
    assert!(rt; head == Rect::new(0, 0, 9, 1) && body == Rect::new(0, 1, 9, 8));
    let (names, values) = names_and_values(alloc, area)?;
    assert!(rt; names == Rect::new(0, 0, 4, 9) && values == Rect::new(4, 0, 5, 9));
    Ok(())
}

// How many items a list of texts has.
fn items(alloc: Global) -> Result<usize, AllocError> {
    let list = List::raw(alloc, &["one", "two"])?;
    Ok(list.len())
}

// A row of texts.
fn row_of_texts(alloc: Global) -> Result<Row<'static>, AllocError> {
    let row = Row::raw(alloc, &["cpu", "97%"])?;
    Ok(row)
}

// A table of an array of rows.
fn table_of_rows(alloc: Global) -> Result<Table<'static>, AllocError> {
    let rows = [
        Row::raw(alloc, &["init", "0%"])?,
        Row::raw(alloc, &["sshd", "1%"])?,
    ];
    let table = Table::try_from_iter(alloc, rows, &[Constraint::Fill(1), Constraint::Length(4)])?;
    Ok(table)
}

// Whether such a table leaves its rows on a buffer.
fn table_is_shown(alloc: Global) -> Result<bool, AllocError> {
    let area = Rect::new(0, 0, 12, 2);
    let mut buffer = Buffer::empty(alloc, area)?;
    table_of_rows(alloc)?.render(area, &mut buffer)?;
    let mut wanted = Buffer::empty(alloc, area)?;
    wanted.set_string(0, 0, "init    0%", Style::new())?;
    wanted.set_string(0, 1, "sshd    1%", Style::new())?;
    Ok(buffer == wanted)
}

/// Bars of an array, and tabs over them.
pub(crate) fn bars_and_tabs(alloc: Global, area: Rect, buf: &mut Buffer) -> Result<(), AllocError> {
    BarChart::raw(alloc, &[("a", 3), ("b", 8)])?
        .bar_width(3)
        .render(area, buf)?;
    Tabs::raw(alloc, &["Files", "Log"])?
        .select(Some(1))
        .render(area, buf)?;
    Ok(())
}

#[test]
fn widgets_of_arrays(rt: HostRuntime) -> Result<(), AllocError> {
    let alloc = rt.alloc();
    assert!(rt; items(alloc)? == 2);
    assert!(rt; !are_equal(row_of_texts(alloc), Row::raw(alloc, &["cpu"]))?);
    assert!(rt; table_is_shown(alloc)?);
    Ok(())
}
