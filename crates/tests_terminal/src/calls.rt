//! Frames that are offered and completed, and texts that are printed and read.
use crate::steps::{terminal, write_line};
use rtui_backend::{TestBackend, TestError};
use rtui_buffer::Buffer;
use rtui_geometry::Rect;
use rtui_terminal::{Terminal, TerminalError, TerminalOptions, Viewport};
use std::alloc::{AllocError, Global};
use std::test::Fail;

// Whether the completed frame of a text tells its area, how many were drawn before, and a buffer
// like this one.
fn completes(
    alloc: Global,
    terminal: &mut Terminal<TestBackend>,
    buffer: &Buffer,
    count: usize,
) -> bool {
    match terminal.draw(|frame| write_line(alloc, frame.buffer_mut(), 0, 0, "abc")) {
        Ok(completed) => {
            *completed.buffer() == *buffer
                && completed.area == *buffer.area()
                && completed.count == count
        }
        Err(_) => false,
    }
}

#[test]
fn lends_the_painted_buffer(rt: HostRuntime) -> Result<(), Fail> {
    let mut terminal = terminal(rt.alloc(), 3, 1)?;
    let mut painted = Buffer::empty(rt.alloc(), Rect::new(0, 0, 3, 1))?;
    write_line(rt.alloc(), &mut painted, 0, 0, "abc")?;
    assert!(rt; completes(rt.alloc(), &mut terminal, &painted, 0));
    assert!(rt; completes(rt.alloc(), &mut terminal, &painted, 1));
    Ok(())
}

// Whether the next frame has this area, and so many were drawn before.
fn offers(terminal: &mut Terminal<TestBackend>, area: Rect, count: usize) -> bool {
    let frame = terminal.get_frame();
    frame.area() == area && frame.size() == area && frame.count() == count
}

#[test]
fn offers_frames(rt: HostRuntime) -> Result<(), Fail> {
    let mut terminal = terminal(rt.alloc(), 3, 1)?;
    assert!(rt; offers(&mut terminal, Rect::new(0, 0, 3, 1), 0));
    Ok(())
}

// Whether a terminal over a backend that took another size before tells that size.
fn tells_size(alloc: Global) -> Result<bool, Fail> {
    let mut backend = TestBackend::new(alloc, 3, 2)?;
    backend.resize(5, 4)?;
    match Terminal::new(alloc, backend) {
        Ok(mut terminal) => Ok(offers(&mut terminal, Rect::new(0, 0, 5, 4), 0)),
        Err(_) => Err(Fail::from(AllocError)),
    }
}

#[test]
fn starts_at_the_size_of_its_backend(rt: HostRuntime) -> Result<(), Fail> {
    assert!(rt; tells_size(rt.alloc())?);
    Ok(())
}

fn prints(alloc: Global, error: TerminalError<TestError>, text: &str) -> Result<bool, AllocError> {
    Ok(error.to_string(alloc)?.as_str() == text)
}

static ERRORS: [(TerminalError<TestError>, &str); 4] = [
    (TerminalError::Backend(TestError::Told), "backend: told"),
    (
        TerminalError::Closure(TestError::Memory),
        "closure: no memory",
    ),
    (TerminalError::Memory, "no memory"),
    (TerminalError::Area, "buffer area"),
];

#[test]
fn prints_its_errors(rt: HostRuntime) -> Result<(), Fail> {
    for (error, text) in &ERRORS {
        assert!(rt; prints(rt.alloc(), *error, text)?, "{text}");
    }
    Ok(())
}

fn prints_viewport(alloc: Global, viewport: Viewport, text: &str) -> Result<bool, AllocError> {
    Ok(viewport.to_string(alloc)?.as_str() == text)
}

static VIEWPORTS: [(Viewport, &str); 3] = [
    (Viewport::Fullscreen, "Fullscreen"),
    (Viewport::Inline(3), "Inline(3)"),
    (
        Viewport::Fixed(Rect {
            x: 0,
            y: 0,
            width: 5,
            height: 5,
        }),
        "Fixed(5x5+0+0)",
    ),
];

#[test]
fn prints_viewports(rt: HostRuntime) -> Result<(), Fail> {
    for (viewport, text) in &VIEWPORTS {
        assert!(rt; prints_viewport(rt.alloc(), *viewport, text)?, "{text}");
    }
    Ok(())
}

#[test]
fn the_whole_screen_by_default(rt: HostRuntime) {
    assert!(rt; Viewport::default() == Viewport::Fullscreen);
    assert!(rt; TerminalOptions::default().viewport == Viewport::Fullscreen);
}
