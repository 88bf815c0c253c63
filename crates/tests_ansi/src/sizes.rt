//! Terminals over a backend whose window takes another size, beside a screen in memory that is
//! blank in that size.
ghost use Rattle.ratatui_core.specs.Terminal.{FitsEdges};

use crate::backends::{Kept, sent};
use crate::plays::LEFT;
use crate::reader::Reader;
use ratatui_ansi::AnsiBackend;
use ratatui_core::backend::{Backend, Resizable, TestBackend};
use ratatui_core::buffer::Buffer;
use ratatui_core::layout::{Rect, Size};
use ratatui_core::style::Style;
use ratatui_core::terminal::{Terminal, TerminalOptions, Viewport};
use std::alloc::{AllocError, Global};
use std::test::Fail;

// Paints a text in the corner of a buffer, if that has one.
fn paint(buffer: &mut Buffer, text: &str) -> Result<(), AllocError> {
    let corner = buffer.area().as_position();
    if !buffer.area().contains(corner) {
        return Ok(());
    }
    buffer.set_string(corner.x, corner.y, text, Style::new())
}

// Draws a text in the viewport's corner; whether that was done.
fn draws<B: Backend>(terminal: &mut Terminal<B>, text: &str) -> bool {
    let answer = terminal.draw(|frame| paint(frame.buffer_mut(), text));
    answer.is_ok()
}

// A terminal over a viewport of such a kind, of a screen of six columns and three rows.
fn over_kept(alloc: Global, viewport: Viewport) -> Result<Terminal<Kept>, Fail>
    requires { FitsEdges viewport }
{
    let size = Size {
        width: 6,
        height: 3,
    };
    let Ok(backend) = AnsiBackend::new(alloc, Vec::new(alloc), size) else {
        return Err(Fail::from(AllocError));
    };
    match Terminal::with_options(alloc, backend, TerminalOptions { viewport }) {
        Ok(terminal) => Ok(terminal),
        Err(_) => Err(Fail::from(AllocError)),
    }
}

// The same over a screen in memory.
fn over_memory(alloc: Global, viewport: Viewport) -> Result<Terminal<TestBackend>, Fail>
    requires { FitsEdges viewport }
{
    let backend = TestBackend::new(alloc, 6, 3)?;
    match Terminal::with_options(alloc, backend, TerminalOptions { viewport }) {
        Ok(terminal) => Ok(terminal),
        Err(_) => Err(Fail::from(AllocError)),
    }
}

// A screen in memory on which a frame was drawn, and another after it took this size.
fn drawn_in_memory(
    alloc: Global,
    viewport: Viewport,
    size: Size,
) -> Result<Terminal<TestBackend>, Fail>
    requires { FitsEdges viewport }
{
    let mut memory = over_memory(alloc, viewport)?;
    let is_drawn = draws(&mut memory, "abコ");
    *memory.backend_mut() = TestBackend::new(alloc, size.width, size.height)?;
    if is_drawn && draws(&mut memory, "cdeコ") {
        Ok(memory)
    } else {
        Err(Fail::from(AllocError))
    }
}

// Draws a frame, and another after the window took this size; how many bytes were sent before it
// did, if all was done.
fn draws_twice(terminal: &mut Terminal<Kept>, size: Size) -> Option<usize> {
    if !draws(terminal, "abコ") {
        return None;
    }
    let before = terminal.backend().writer().len();
    let is_drawn = terminal.backend_mut().resize(size).is_ok() && draws(terminal, "cdeコ");
    is_drawn.then_some(before)
}

// Whether what was sent since then shows a screen to a terminal that was left by another program.
fn shows(
    alloc: Global,
    backend: &mut Kept,
    before: usize,
    screen: &TestBackend,
) -> Result<bool, Fail> {
    let (Ok(cursor), Ok(size)) = (backend.get_cursor_position(), backend.size()) else {
        return Ok(false);
    };
    let Some(since) = sent(backend).get(before..) else {
        return Ok(false);
    };
    let reader = Reader::of(alloc, size.width, size.height, (LEFT, ""), since)?;
    Ok(reader.shows(cursor, screen))
}

// Whether a frame, drawn after the window took this size, is shown to a terminal that was left by
// another program.
fn is_drawn_anew(alloc: Global, viewport: Viewport, size: Size) -> Result<bool, Fail>
    requires { FitsEdges viewport }
{
    let memory = drawn_in_memory(alloc, viewport, size)?;
    let mut terminal = over_kept(alloc, viewport)?;
    match draws_twice(&mut terminal, size) {
        Some(before) => shows(alloc, terminal.backend_mut(), before, memory.backend()),
        None => Ok(false),
    }
}

const SIZES: [(u16, u16); 5] = [(9, 5), (4, 2), (6, 2), (3, 7), (1, 1)];

// Whether that is so in each size.
fn are_drawn_anew(alloc: Global, viewport: Viewport) -> Result<bool, Fail>
    requires { FitsEdges viewport }
{
    for (width, height) in SIZES {
        if !is_drawn_anew(alloc, viewport, Size { width, height })? {
            return Ok(false);
        }
    }
    Ok(true)
}

#[test]
fn windows_that_take_another_size(rt: HostRuntime) -> Result<(), Fail> {
    let alloc = rt.alloc();
    assert!(rt; are_drawn_anew(alloc, Viewport::Fullscreen)?);
    assert!(rt; are_drawn_anew(alloc, Viewport::Inline(1))?);
    assert!(rt; are_drawn_anew(alloc, Viewport::Inline(2))?);
    Ok(())
}

// A fixed viewport takes no other size, and stands where the new screen has it.
#[test]
fn a_fixed_viewport_in_a_wider_window(rt: HostRuntime) -> Result<(), Fail> {
    let area = Rect {
        x: 1,
        y: 1,
        width: 4,
        height: 1,
    };
    let mut terminal = over_kept(rt.alloc(), Viewport::Fixed(area))?;
    let size = Size {
        width: 8,
        height: 4,
    };
    assert!(rt; terminal.backend_mut().resize(size).is_ok());
    assert!(rt; draws(&mut terminal, "abcd"));
    assert!(rt;
        terminal
            .backend()
            .writer()
            .as_slice()
            .ends_with(b"\x1b[2;2Habcd\x1b[?25l")
    );
    Ok(())
}

#[test]
fn no_window_without_columns_or_rows(rt: HostRuntime) -> Result<(), Fail> {
    let mut terminal = over_kept(rt.alloc(), Viewport::Fullscreen)?;
    let before = terminal.backend().writer().len();
    for (width, height) in [(0, 3), (3, 0)] {
        assert!(rt;
            terminal
                .backend_mut()
                .resize(Size { width, height })
                .is_err()
        );
    }
    assert!(rt; terminal.backend().writer().len() == before && draws(&mut terminal, "a"));
    Ok(())
}

// Whether a size that is told is taken, if the answer says so.
fn takes(terminal: &mut Terminal<Kept>, width: u16, height: u16) -> Option<bool> {
    let backend = terminal.backend_mut();
    let is_taken = backend.take_size(Size { width, height }).ok()?;
    let size = backend.size().ok()?;
    (is_taken == (size == Size { width, height })).then_some(is_taken)
}

// A size is refused only if it has no columns or no rows.
#[test]
fn sizes_that_are_told_are_taken(rt: HostRuntime) -> Result<(), Fail> {
    let mut terminal = over_kept(rt.alloc(), Viewport::Fullscreen)?;
    for (width, height) in SIZES {
        assert!(rt; takes(&mut terminal, width, height) == Some(true));
    }
    for (width, height) in [(0, 3), (3, 0)] {
        assert!(rt; takes(&mut terminal, width, height) == Some(false));
    }
    Ok(())
}
