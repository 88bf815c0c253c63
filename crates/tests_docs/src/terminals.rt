//! Examples of backends and terminals.
use printed_backend::PrintedBackend;
use ratatui_ansi::AnsiBackend;
use ratatui_core::backend::{Backend, TestBackend, TestError};
use ratatui_core::buffer::Cell;
use ratatui_core::layout::{Position, Size};
use ratatui_core::style::{Color, Style};
use ratatui_core::terminal::{Frame, Terminal, TerminalError, TerminalOptions, Viewport};
use ratatui_core::text::Line;
use ratatui_core::widgets::Widget;
use std::alloc::{AllocError, Global};
use std::io::BufWriter;
use std::iter;
use std::test::Fail;

#[test]
fn a_backend_is_drawn_to(rt: HostRuntime) -> Result<(), Fail> {
    let alloc = rt.alloc();
    let mut backend = TestBackend::new(alloc, 5, 1)?;
    let cell = Cell::new(alloc, "x")?;
    backend.draw(iter::once((1, 0, &cell)))?;
    assert!(rt; backend.lines_are(&[" x   "]));
    Ok(())
}

#[test]
fn a_row_that_scrolled_off_is_text(rt: HostRuntime) -> Result<(), Fail> {
    let alloc = rt.alloc();
    let mut backend = PrintedBackend::new(alloc, 3, 1)?;
    let cell = Cell::new(alloc, "x")?;
    backend.draw(iter::once((1, 0, &cell)))?;
    backend.append_lines(1)?;
    let mut printed = Vec::new(alloc);
    backend.write_to(&mut printed)?;
    assert!(rt; printed.as_slice() == "^ x \n|   \n".as_bytes());
    Ok(())
}

#[test]
fn a_terminal_is_drawn_on(rt: HostRuntime) -> Result<(), Fail> {
    let alloc = rt.alloc();
    let mut terminal = Terminal::new(alloc, TestBackend::new(alloc, 80, 24)?)?;
    terminal.draw(|frame| {
        let area = frame.area();
        frame.render_widget(Line::raw(alloc, "Ready")?, area)
    })?;
    assert!(rt; terminal.backend().cells_written() == 5);
    Ok(())
}

#[test]
fn a_frame_is_shown(rt: HostRuntime) -> Result<(), Fail> {
    let alloc = rt.alloc();
    let mut terminal = Terminal::new(alloc, TestBackend::new(alloc, 5, 1)?)?;
    terminal.draw(|frame| {
        let area = frame.area();
        frame.render_widget(Line::raw(alloc, "Ready")?, area)
    })?;
    assert!(rt; terminal.backend().lines_are(&["Ready"]));
    Ok(())
}

#[test]
fn a_frame_may_be_refused(rt: HostRuntime) -> Result<(), Fail> {
    let alloc = rt.alloc();
    let mut terminal = Terminal::new(alloc, TestBackend::new(alloc, 5, 1)?)?;
    let ready = Line::raw(alloc, "Ready")?;
    terminal.try_draw(|frame| {
        let area = frame.area();
        frame
            .render_widget(ready, area)
            .map_err(|_| TestError::Memory)
    })?;
    assert!(rt; terminal.backend().lines_are(&["Ready"]));
    Ok(())
}

// A name is asked for.
fn ask(alloc: Global, frame: &mut Frame<'_>) -> Result<(), AllocError> {
    let area = frame.area();
    frame
        .buffer_mut()
        .set_style(area, Style::new().bg(Color::Blue));
    frame.render_widget(Line::raw(alloc, "Name: ")?, area)?;
    frame.set_cursor_position(Position::new(area.x.saturating_add(6), area.y));
    Ok(())
}

// A greeting.
fn greet(alloc: Global, frame: &mut Frame<'_>) -> Result<(), AllocError> {
    let area = frame.area();
    frame.render_widget(Line::raw(alloc, "Hello, world!")?.centered(), area)?;
    Ok(())
}

#[test]
fn frames_are_painted(rt: HostRuntime) -> Result<(), Fail> {
    let alloc = rt.alloc();
    let mut terminal = Terminal::new(alloc, TestBackend::new(alloc, 15, 1)?)?;
    terminal.draw(|frame| ask(alloc, frame))?;
    assert!(rt; terminal.backend().lines_are(&["Name:          "]));
    terminal.draw(|frame| greet(alloc, frame))?;
    assert!(rt; terminal.backend().lines_are(&[" Hello, world! "]));
    Ok(())
}

#[test]
fn a_cursor_is_shown(rt: HostRuntime) -> Result<(), Fail> {
    let alloc = rt.alloc();
    let mut terminal = Terminal::new(alloc, TestBackend::new(alloc, 8, 1)?)?;
    let question = Line::raw(alloc, "Name: ")?;
    terminal.draw_widget_with_cursor(question, Some(Position::new(6, 0)))?;
    assert!(rt; terminal.backend().lines_are(&["Name:   "]));
    assert!(rt; terminal.get_cursor_position()? == Position::new(6, 0));
    Ok(())
}

// Inserts a line above a viewport of three rows.
fn insert(
    alloc: Global,
    backend: TestBackend,
) -> Result<Terminal<TestBackend>, TerminalError<TestError>> {
    let options = TerminalOptions {
        viewport: Viewport::Inline(3),
    };
    let mut terminal = Terminal::with_options(alloc, backend, options)?;
    terminal.insert_before(1, |rows| {
        let area = *rows.area();
        Line::raw(alloc, "a line above")?.render(area, rows)
    })?;
    Ok(terminal)
}

#[test]
fn a_line_is_inserted(rt: HostRuntime) -> Result<(), Fail> {
    let alloc = rt.alloc();
    let terminal = insert(alloc, TestBackend::new(alloc, 12, 4)?)?;
    let blank = "            ";
    assert!(rt;
        terminal
            .backend()
            .lines_are(&["a line above", blank, blank, blank])
    );
    Ok(())
}

#[test]
fn a_widget_is_drawn(rt: HostRuntime) -> Result<(), Fail> {
    let alloc = rt.alloc();
    let mut terminal = Terminal::new(alloc, TestBackend::new(alloc, 15, 1)?)?;
    terminal.draw_widget(Line::raw(alloc, "Hello, world!")?.centered())?;
    assert!(rt; terminal.backend().lines_are(&[" Hello, world! "]));
    Ok(())
}

#[test]
fn a_terminal_reads_what_is_sent(rt: HostRuntime) -> Result<(), Fail> {
    let alloc = rt.alloc();
    let writer = BufWriter::new(alloc, rt.stdout())?;
    let backend = AnsiBackend::new(
        alloc,
        writer,
        Size {
            width: 80,
            height: 24,
        },
    )?;
    let mut terminal = Terminal::new(alloc, backend)?;
    assert!(rt; terminal.size()? == Size::new(80, 24));
    Ok(())
}
