//! What is sent as a terminal is dropped.

use ratatui_ansi::AnsiBackend;
use ratatui_core::terminal::Terminal;
use rtui_geometry::Size;
use std::alloc::{AllocError, Global};
use std::test::Fail;

const SIZE: Size = Size {
    width: 3,
    height: 2,
};

// Begins a backend over a writer that is lent, and drops it.
fn begins(alloc: Global, writer: &mut Vec<u8>) -> bool {
    AnsiBackend::new(alloc, writer, SIZE).is_ok()
}

// The same with a terminal over it, whose cursor is hidden if that is asked for.
fn begins_terminal(alloc: Global, writer: &mut Vec<u8>, hides: bool) -> Result<(), Fail> {
    let Ok(backend) = AnsiBackend::new(alloc, writer, SIZE) else {
        return Err(Fail::from(AllocError));
    };
    let Ok(mut terminal) = Terminal::new(alloc, backend) else {
        return Err(Fail::from(AllocError));
    };
    if hides && terminal.hide_cursor().is_err() {
        return Err(Fail::new("the cursor isn't hidden"));
    }
    Ok(())
}

// The terminal shows it, before the backend gives the real one back.
#[test]
fn a_hidden_cursor_is_shown(rt: HostRuntime) -> Result<(), Fail> {
    let mut sent = Vec::new(rt.alloc());
    begins_terminal(rt.alloc(), &mut sent, true)?;
    let ending = b"\x1b[?25l\x1b[?25h\x1b[0m\x1b[r\x1b[?25h\x1b[2;1H\r\n";
    assert!(rt; sent.as_slice().ends_with(ending));
    Ok(())
}

#[test]
fn a_terminal_that_hid_no_cursor_sends_nothing(rt: HostRuntime) -> Result<(), Fail> {
    let mut sent = Vec::new(rt.alloc());
    begins_terminal(rt.alloc(), &mut sent, false)?;
    let mut alone = Vec::new(rt.alloc());
    assert!(rt; begins(rt.alloc(), &mut alone));
    assert!(rt; sent.as_slice() == alone.as_slice());
    Ok(())
}
