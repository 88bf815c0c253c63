//! The answers of docs/HOW.md, each run.
use crate::symbol_at;
use ratatui_ansi::{AnsiBackend, AnsiError, KeyboardEnhancementFlags};
use ratatui_core::backend::TestBackend;
use ratatui_core::layout::{Constraint, Position, Rect, Size, SplitArea};
use ratatui_core::style::Stylize;
use ratatui_core::terminal::{Frame, Terminal, TerminalOptions, Viewport};
use ratatui_core::text::{Line, Span};
use ratatui_core::widgets::Widget;
use ratatui_events::{Event, MouseButton, MouseEventKind};
use ratatui_widgets::{Block, Clear, Gauge, Paragraph};
use std::alloc::{AllocError, Global};
use std::fs;
use std::test::Fail;

fn popup(alloc: Global, frame: &mut Frame<'_>) -> Result<(), AllocError> {
    let area = frame
        .area()
        .centered(Constraint::Length(9), Constraint::Length(3));
    frame.render_widget(Clear, area)?;
    let question = Paragraph::raw(alloc, "Sure?")?.block(Block::bordered(alloc));
    frame.render_widget(question, area)
}

#[test]
fn a_popup_is_centred(rt: HostRuntime) -> Result<(), Fail> {
    let alloc = rt.alloc();
    let mut terminal = Terminal::new(alloc, TestBackend::new(alloc, 11, 3)?)?;
    terminal.draw(|frame| popup(alloc, frame))?;
    assert!(rt;
        terminal
            .backend()
            .lines_are(&[" ┌───────┐ ", " │Sure?  │ ", " └───────┘ "])
    );
    Ok(())
}

// Where a click was.
fn clicked(event: Event) -> Option<Position> {
    match event {
        Event::Mouse(mouse) if mouse.kind == MouseEventKind::Down(MouseButton::Left) => {
            Some(Position::new(mouse.column, mouse.row))
        }
        _ => None,
    }
}

#[test]
fn no_click(rt: HostRuntime) {
    assert!(rt; clicked(Event::Size(80, 24)).is_none());
}

#[test]
fn a_word_is_coloured(rt: HostRuntime) -> Result<(), AllocError> {
    let alloc = rt.alloc();
    let spans = [
        Span::raw("press "),
        "q".bold().yellow(),
        Span::raw(" to end"),
    ];
    let line = Line::try_from_iter(alloc, spans)?;
    assert!(rt; line.width() == 14);
    Ok(())
}

#[test]
fn rows_at_the_cursor(rt: HostRuntime) -> Result<(), Fail> {
    let alloc = rt.alloc();
    let backend = TestBackend::new(alloc, 8, 3)?;
    let viewport = Viewport::Inline(1);
    let mut terminal = Terminal::with_options(alloc, backend, TerminalOptions { viewport })?;
    terminal.insert_before(1, |buf| Line::raw(alloc, "above")?.render(*buf.area(), buf))?;
    let blank = "        ";
    assert!(rt; terminal.backend().lines_are(&["above   ", blank, blank]));
    Ok(())
}

fn paint_progress(frame: &mut Frame<'_>, done: u32, all: u32) -> Result<(), AllocError> {
    let gauge = Gauge::new().ratio(done, all.max(1)).cyan();
    let area: Rect = frame.area();
    frame.render_widget(gauge, area)
}

#[test]
fn progress_is_shown(rt: HostRuntime) -> Result<(), Fail> {
    let alloc = rt.alloc();
    let mut terminal = Terminal::new(alloc, TestBackend::new(alloc, 8, 1)?)?;
    terminal.draw(|frame| paint_progress(frame, 3, 4))?;
    let buffer = terminal.backend().buffer();
    assert!(rt; symbol_at(buffer, 0, 0) == "█" && symbol_at(buffer, 7, 0) == " ");
    Ok(())
}

const SPINNER: [&str; 4] = ["|", "/", "-", "\\"];

// What a spinner shows after so many ticks.
fn spinner(ticks: usize) -> &'static str {
    SPINNER[ticks % SPINNER.len()]
}

#[test]
fn a_spinner_turns(rt: HostRuntime) {
    assert!(rt; spinner(5) == "/");
}

#[test]
fn a_title_is_sent(rt: HostRuntime) -> Result<(), Fail> {
    let alloc = rt.alloc();
    let Ok(mut backend) = AnsiBackend::new(alloc, Vec::new(alloc), Size::new(8, 1)) else {
        return Err(Fail::from(AllocError));
    };
    assert!(rt; backend.send_title("mine").is_ok());
    assert!(rt; backend.writer().as_slice().ends_with(b"mine\x1b\\"));
    Ok(())
}

// Sends flags of the keyboard.
fn tell_releases(backend: &mut AnsiBackend<Vec<u8>>) -> Result<(), AnsiError> {
    backend.push_keyboard_enhancement_flags(KeyboardEnhancementFlags::REPORT_EVENT_TYPES)?;
    Ok(())
}

#[test]
fn keyboard_flags_are_sent(rt: HostRuntime) -> Result<(), Fail> {
    let alloc = rt.alloc();
    let Ok(mut backend) = AnsiBackend::new(alloc, Vec::new(alloc), Size::new(8, 1)) else {
        return Err(Fail::from(AllocError));
    };
    assert!(rt; tell_releases(&mut backend).is_ok());
    assert!(rt; backend.writer().as_slice().ends_with(b"\x1b[>2u"));
    Ok(())
}

#[test]
fn no_file_is_read(rt: HostRuntime) {
    let read = fs::read_to_string(&rt, "no/such/file");
    assert!(rt; read.is_err());
}
