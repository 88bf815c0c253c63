//! Terminals over a backend in memory.
//!
//! A terminal is compared with a twin, to which the same was done but for the refused call. Both
//! backends count their calls down, so that the two are equal only if the refused call made just
//! those that the twin made by hand.
ghost use Rattle.rtui_viewport.specs.Viewports.{FitsEdges};

use crate::outcome::{Cases, LONG, Outcome, judged};
use rtui_backend::{Backend, TestBackend, TestError};
use rtui_buffer::Buffer;
use rtui_geometry::{Position, Rect};
use rtui_terminal::{Terminal, TerminalError, TerminalOptions, Viewport};
use std::alloc::{AllocError, Global};

// A screen of three columns and two rows, whose cursor stands in the last row.
fn screen(alloc: Global) -> Result<TestBackend, AllocError> {
    let mut backend = TestBackend::new(alloc, 3, 2)?;
    let _ = backend.set_cursor_position(Position { x: 0, y: 1 });
    Ok(backend)
}

// A terminal over a viewport of it, whose backend counts down.
fn started(alloc: Global, viewport: Viewport) -> Result<Terminal<TestBackend>, AllocError>
    requires { FitsEdges viewport }
{
    let backend = screen(alloc)?;
    let Ok(mut terminal) = Terminal::with_options(alloc, backend, TerminalOptions { viewport })
    else {
        return Err(AllocError);
    };
    terminal.backend_mut().fail_after(10000);
    Ok(terminal)
}

// A start that is refused memory for its buffers, or for rows that scroll off, answers so.
fn start(alloc: Global, viewport: Viewport) -> Result<Outcome, AllocError>
    requires { FitsEdges viewport }
{
    let backend = screen(alloc)?;
    let again = screen(alloc)?;
    let answer = Terminal::with_options(alloc, backend, TerminalOptions { viewport }).err();
    let is_left = match answer {
        None | Some(TerminalError::Memory) => true,
        Some(other) => {
            viewport == Viewport::Inline(2) && other == TerminalError::Backend(TestError::Memory)
        }
    };
    let is_right = answer.is_none()
        || Terminal::with_options(alloc, again, TerminalOptions { viewport }).is_ok();
    Ok(judged(answer.is_some(), is_left, is_right))
}

// Sets a symbol in the corner of a buffer.
fn set_corner(alloc: Global, buffer: &mut Buffer, symbol: &str) -> Result<(), AllocError> {
    let corner = Position {
        x: buffer.area().x,
        y: buffer.area().y,
    };
    match buffer.cell_mut(corner) {
        Some(cell) => cell.set_symbol(alloc, symbol),
        None => Ok(()),
    }
}

// What came of a call that takes a closure: what it was refused for, whether the closure was
// called, and whether that was refused memory.
type Answer = (Option<TerminalError<TestError>>, bool, bool);

// Draws a frame with a symbol in its corner.
fn draw(alloc: Global, terminal: &mut Terminal<TestBackend>, symbol: &str) -> Answer {
    let mut is_called = false;
    let mut is_refused = false;
    let error = terminal
        .draw(|frame| {
            is_called = true;
            let set = set_corner(alloc, frame.buffer_mut(), symbol);
            is_refused = set.is_err();
            set
        })
        .err();
    (error, is_called, is_refused)
}

// Inserts rows with a symbol in their corner.
fn insert(alloc: Global, terminal: &mut Terminal<TestBackend>, count: u16) -> Answer {
    let mut is_called = false;
    let mut is_refused = false;
    let error = terminal
        .insert_before(count, |rows| {
            is_called = true;
            let set = set_corner(alloc, rows, LONG);
            is_refused = set.is_err();
            set
        })
        .err();
    (error, is_called, is_refused)
}

// Whether the screens of two terminals show the same, and the same scrolled off them.
fn show_alike(one: &Terminal<TestBackend>, other: &Terminal<TestBackend>) -> bool {
    one.backend().buffer() == other.backend().buffer()
        && one.backend().scrollback() == other.backend().scrollback()
}

// Whether a frame that is drawn on both shows the same.
fn draw_alike(
    alloc: Global,
    one: &mut Terminal<TestBackend>,
    other: &mut Terminal<TestBackend>,
) -> Result<bool, AllocError> {
    if draw(alloc, other, "z").0.is_some() {
        return Err(AllocError);
    }
    Ok(draw(alloc, one, "z").0.is_none() && show_alike(one, other))
}

// A terminal over a viewport, with a frame drawn on it.
fn painted(alloc: Global, viewport: Viewport) -> Result<Terminal<TestBackend>, AllocError>
    requires { FitsEdges viewport }
{
    let mut terminal = started(alloc, viewport)?;
    if draw(alloc, &mut terminal, "y").0.is_some() {
        return Err(AllocError);
    }
    Ok(terminal)
}

// A draw on a screen of another size. What is refused to the terminal made one call of the backend,
// for its size, and changed nothing, so that the next frame is shown; what is refused to the
// backend is told as the backend's.
fn drawn_anew(
    alloc: Global,
    terminal: &mut Terminal<TestBackend>,
    twin: &mut Terminal<TestBackend>,
) -> Result<Outcome, AllocError> {
    terminal.backend_mut().resize(40, 30)?;
    twin.backend_mut().resize(40, 30)?;
    let (error, is_called, _) = draw(alloc, terminal, "x");
    let is_left = match error {
        None => is_called,
        Some(TerminalError::Memory) => {
            let _ = twin.size();
            !is_called && *terminal == *twin
        }
        Some(other) => {
            other == TerminalError::Backend(TestError::Memory) && terminal.clear().is_ok()
        }
    };
    let is_right = draw_alike(alloc, terminal, twin)?;
    Ok(judged(error.is_some(), is_left, is_right))
}

fn drawn(alloc: Global, viewport: Viewport) -> Result<Outcome, AllocError>
    requires { FitsEdges viewport }
{
    let mut terminal = painted(alloc, viewport)?;
    let mut twin = painted(alloc, viewport)?;
    drawn_anew(alloc, &mut terminal, &mut twin)
}

// Whether a frame and then rows, inserted in both, show the same.
fn insert_alike(
    alloc: Global,
    one: &mut Terminal<TestBackend>,
    other: &mut Terminal<TestBackend>,
    count: u16,
) -> Result<bool, AllocError> {
    let is_drawn = draw_alike(alloc, one, other)?;
    let are_inserted = insert(alloc, one, count).0.is_none()
        && insert(alloc, other, count).0.is_none();
    Ok(is_drawn && are_inserted && show_alike(one, other))
}

// Whether a terminal is cleared, and then takes a frame and rows.
fn is_mended(alloc: Global, terminal: &mut Terminal<TestBackend>, count: u16) -> bool {
    terminal.clear().is_ok()
        && draw(alloc, terminal, "z").0.is_none()
        && insert(alloc, terminal, count).0.is_none()
}

// An insertion: what is refused to the terminal, or by the closure, made no call of the backend and
// changed nothing.
fn inserted_before(
    alloc: Global,
    terminal: &mut Terminal<TestBackend>,
    twin: &mut Terminal<TestBackend>,
    count: u16,
) -> Result<Outcome, AllocError> {
    let (error, is_called, is_refused) = insert(alloc, terminal, count);
    let is_left = match error {
        None => is_called && !is_refused,
        Some(TerminalError::Memory) => is_called == is_refused && *terminal == *twin,
        Some(other) => is_called && other == TerminalError::Backend(TestError::Memory),
    };
    let is_right = match error {
        None => Ok(true),
        Some(TerminalError::Memory) => insert_alike(alloc, terminal, twin, count),
        Some(_) => Ok(is_mended(alloc, terminal, count)),
    };
    Ok(judged(error.is_some(), is_left, is_right?))
}

fn inserted(alloc: Global, count: u16) -> Result<Outcome, AllocError> {
    let mut terminal = painted(alloc, Viewport::Inline(1))?;
    let mut twin = painted(alloc, Viewport::Inline(1))?;
    inserted_before(alloc, &mut terminal, &mut twin, count)
}

/// Terminals that start, draw and insert.
pub struct Terminals;

static TERMINALS: [&str; 7] = [
    "start of a terminal",
    "start of an inline viewport",
    "start of a fixed viewport",
    "draw at a new size",
    "draw of an inline viewport at a new size",
    "insert_before of a row",
    "insert_before of more rows than the screen has",
];

impl Cases for Terminals {
    fn names() -> &'static [&'static str] {
        &TERMINALS
    }

    fn outcome_of(alloc: Global, number: usize) -> Result<Outcome, AllocError> {
        let fixed = Viewport::Fixed(Rect::new(1, 0, 2, 2));
        match number {
            0 => start(alloc, Viewport::Fullscreen),
            1 => start(alloc, Viewport::Inline(2)),
            2 => start(alloc, fixed),
            3 => drawn(alloc, Viewport::Fullscreen),
            4 => drawn(alloc, Viewport::Inline(2)),
            5 => inserted(alloc, 1),
            _ => inserted(alloc, 7),
        }
    }
}
