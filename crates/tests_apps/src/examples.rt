//! The examples on a screen in memory.
use guide::{draw_checked, greet, head_and_body, label, log, restyle_first};
use ratatui_core::backend::{Backend, TestBackend};
use ratatui_core::layout::{Position, Rect};
use ratatui_core::style::{Color, Style};
use ratatui_core::terminal::{Terminal, TerminalOptions, Viewport};
use ratatui_core::text::{Line, Span};
use std::alloc::{AllocError, Global};
use std::test::Fail;

// A terminal over the whole screen of a backend.
fn terminal<B: Backend + Drop>(alloc: Global, backend: B) -> Result<Terminal<B>, Fail> {
    match Terminal::new(alloc, backend) {
        Ok(terminal) => Ok(terminal),
        Err(_) => Err(Fail::from(AllocError)),
    }
}

#[test]
fn a_greeting_is_shown(rt: HostRuntime) -> Result<(), Fail> {
    let mut terminal = terminal(rt.alloc(), TestBackend::new(rt.alloc(), 14, 1)?)?;
    assert!(rt; greet(&mut terminal) == Ok(true));
    assert!(rt; terminal.backend().lines_are(&["Hello, world! "]));
    Ok(())
}

// What a checked draw of two labels answers on a screen in memory, and whether it then shows this
// row.
fn labels_show(
    alloc: Global,
    first: &str,
    second: &str,
    x: u16,
    row: &str,
) -> Result<(Option<bool>, bool), Fail> {
    let backend = TestBackend::new(alloc, 4, 1)?;
    let mut terminal = terminal(alloc, backend)?;
    let settled = draw_checked(&mut terminal, |frame| {
        label(frame.buffer_mut(), Position::ORIGIN, first)?;
        label(frame.buffer_mut(), Position { x, y: 0 }, second)
    });
    Ok((settled.ok(), terminal.backend().lines_are(&[row])))
}

#[test]
fn labels_on_checked_frames(rt: HostRuntime) -> Result<(), Fail> {
    assert!(rt; labels_show(rt.alloc(), "ab", "コ", 2, "abコ")? == (Some(true), true));
    assert!(rt; labels_show(rt.alloc(), "too long", "off", 9, "too ")? == (Some(true), true));
    assert!(rt; labels_show(rt.alloc(), "コ", "x", 1, " x  ")? == (Some(false), false));
    Ok(())
}

// A terminal over an inline viewport of one row.
fn inline<B: Backend + Drop>(alloc: Global, backend: B) -> Result<Terminal<B>, Fail> {
    let viewport = Viewport::Inline(1);
    match Terminal::with_options(alloc, backend, TerminalOptions { viewport }) {
        Ok(terminal) => Ok(terminal),
        Err(_) => Err(Fail::from(AllocError)),
    }
}

// Whether a line is logged above a frame with a label.
fn logs<B: Backend>(terminal: &mut Terminal<B>, line: &str, text: &str) -> bool {
    let logged = log(
        terminal,
        1,
        |buffer| label(buffer, Position::ORIGIN, line),
        |frame| {
            let corner = frame.area().as_position();
            label(frame.buffer_mut(), corner, text)
        },
    );
    logged.is_ok_and(|settled| settled)
}

#[test]
fn rows_are_logged(rt: HostRuntime) -> Result<(), Fail> {
    let mut terminal = inline(rt.alloc(), TestBackend::new(rt.alloc(), 4, 3)?)?;
    assert!(rt; logs(&mut terminal, "r0", "f0"));
    assert!(rt; terminal.backend().lines_are(&["r0  ", "f0  ", "    "]));
    assert!(rt; logs(&mut terminal, "r1", "f1"));
    assert!(rt; logs(&mut terminal, "r2", "f2"));
    assert!(rt; terminal.backend().lines_are(&["r1  ", "r2  ", "f2  "]));
    assert!(rt; terminal.backend().scrollback().len() == 1);
    Ok(())
}

// A line of these spans.
fn line_of(
    alloc: Global,
    first: Span<'static>,
    second: Span<'static>,
) -> Result<Line<'static>, AllocError> {
    first.try_add(alloc, second)
}

#[test]
fn the_first_span_is_restyled(rt: HostRuntime) -> Result<(), Fail> {
    let red = Style::new().fg(Color::Red);
    let mut line = line_of(rt.alloc(), Span::raw("a"), Span::raw("b"))?;
    restyle_first(&mut line, red);
    assert!(rt; line == line_of(rt.alloc(), Span::styled("a", red), Span::raw("b"))?);
    let mut empty = Line::raw(rt.alloc(), "")?;
    restyle_first(&mut empty, red);
    assert!(rt; empty == Line::raw(rt.alloc(), "")?);
    Ok(())
}

#[test]
fn an_area_is_divided(rt: HostRuntime) -> Result<(), AllocError> {
    let [head, body] = head_and_body(rt.alloc(), Rect::new(2, 1, 8, 5))?;
    assert!(rt; head == Rect::new(2, 1, 8, 1));
    assert!(rt; body == Rect::new(2, 2, 8, 4));
    Ok(())
}
