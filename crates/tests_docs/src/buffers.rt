//! Examples of cells and buffers.
use ratatui_core::buffer::{Buffer, Cell};
use ratatui_core::layout::Rect;
use ratatui_core::style::{Color, Style, Stylize};
use ratatui_core::text::{Line, Span};
use ratatui_core::widgets::Widget;
use std::alloc::{AllocError, Global};

#[test]
fn a_cell_is_written(rt: HostRuntime) -> Result<(), AllocError> {
    let alloc = rt.alloc();
    let mut cell = Cell::new(alloc, "a")?;
    cell.set_fg(Color::Red).set_style(Style::new().bold());
    cell.append_symbol(alloc, "\u{301}")?; // an accent over it
    assert!(rt; cell.symbol() == "a\u{301}");
    Ok(())
}

// How many cells differ from those of a buffer of a row of ten.
fn count_of_ready(alloc: Global, shown: &Buffer) -> Result<usize, AllocError> {
    let mut next = Buffer::empty(alloc, Rect::new(0, 0, 10, 1))?;
    next.set_string(0, 0, "Ready", Style::new().fg(Color::Green))?;
    if *shown.area() != *next.area() {
        return Ok(0);
    }
    let mut count = 0usize;
    for (x, y, cell) in shown.diff_iter(&next) {
        if x < 10 && y == 0 && !cell.is_skipped() {
            count = count.saturating_add(1);
        }
    }
    Ok(count)
}

#[test]
fn a_diff_has_what_differs(rt: HostRuntime) -> Result<(), AllocError> {
    let alloc = rt.alloc();
    let shown = Buffer::empty(alloc, Rect::new(0, 0, 10, 1))?;
    assert!(rt; count_of_ready(alloc, &shown)? == 5);
    Ok(())
}

#[test]
fn a_line_is_painted(rt: HostRuntime) -> Result<(), AllocError> {
    let alloc = rt.alloc();
    let mut buffer = Buffer::empty(alloc, Rect::new(0, 0, 9, 1))?;
    let mut line = Line::raw(alloc, "tests: ")?;
    line.push_span(Span::styled("ok", Style::new().fg(Color::Green)))?;
    let (next, _) = buffer.set_line(0, 0, &line, 9)?;
    assert!(rt; next == 9);
    Ok(())
}

#[test]
fn a_text_is_cut_at_the_edge(rt: HostRuntime) -> Result<(), AllocError> {
    let alloc = rt.alloc();
    let mut buffer = Buffer::empty(alloc, Rect::new(0, 0, 5, 1))?;
    buffer.set_string(3, 0, "Ready", Style::new())?;
    assert!(rt; buffer[(3, 0)].symbol() == "R");
    assert!(rt; buffer[(4, 0)].symbol() == "e");
    Ok(())
}

/// Renders a greeting.
pub(crate) fn greet(alloc: Global, buf: &mut Buffer) -> Result<(), AllocError> {
    let area = *buf.area();
    Line::raw(alloc, "Hello, world!")?
        .centered()
        .render(area, buf)?;
    Ok(())
}
