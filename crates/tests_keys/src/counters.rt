//! A counter run over bytes that come in pieces.

use ratatui_acts::{Fault, Nothing, Seat, run};
use ratatui_ansi::AnsiBackend;
use ratatui_app::{Counter, OnScreen, run_and_leave, run_inline_and_leave};
use ratatui_core::backend::TestBackend;
use ratatui_core::layout::Size;
use ratatui_core::terminal::Viewport;
use ratatui_reads::Pieces;
use std::alloc::Global;
use std::test::Fail;

fn counter(count: u8) -> Counter {
    Counter {
        count,
        is_over: false,
    }
}

// What the screen shows after these pieces, and whether the run ended without a fault.
fn shows(alloc: Global, pieces: &[&[u8]], has_ticks: bool, lines: &[&str], is_fine: bool) -> bool {
    let Ok(backend) = TestBackend::new(alloc, 4, 2) else {
        return false;
    };
    let Ok(mut glass) = OnScreen::begin(alloc, Viewport::Fullscreen, backend) else {
        return false;
    };
    let mut seat = Seat::new(counter(0));
    let mut source = Pieces::new(pieces);
    let fine = match run(&mut source, &mut Nothing, has_ticks, &mut glass, &mut seat) {
        Ok(()) => true,
        Err(Fault::Read(_)) => false,
        Err(_) => return false,
    };
    fine == is_fine && glass.terminal().backend().lines_are(lines)
}

#[test]
fn counts_in_pieces(rt: HostRuntime) -> Result<(), Fail> {
    let alloc = rt.alloc();
    assert!(rt; shows(alloc, &[b"+++q"], false, &["3   ", "    "], true));
    assert!(rt;
        shows(
            alloc,
            &[b"+", b"+", b"+q++"],
            false,
            &["3   ", "    "],
            true
        )
    );
    assert!(rt; shows(alloc, &[b"++++++++++++-"], false, &["11  ", "    "], false));
    assert!(rt; shows(alloc, &[b"+", b"", b"+"], false, &["1   ", "    "], true));
    assert!(rt; shows(alloc, &[b"+", b"", b"+"], true, &["2   ", "    "], false));
    assert!(rt; shows(alloc, &[b"\x1b", b"[A+"], true, &["1   ", "    "], false));
    assert!(rt;
        shows(
            alloc,
            &[b"\x1b", b"", b"[A+"],
            true,
            &["1   ", "    "],
            false
        )
    );
    Ok(())
}

#[test]
fn counts_at_other_sizes(rt: HostRuntime) -> Result<(), Fail> {
    let alloc = rt.alloc();
    assert!(rt; shows(alloc, &[b"+++++++++++++\x1b[8;1;1t"], false, &["1"], false));
    assert!(rt;
        shows(
            alloc,
            &[b"++++++++++++\x1b[8;1;1t", b"\x1b[8;3", b";3t+"],
            false,
            &["13 ", "   ", "   "],
            false
        )
    );
    assert!(rt;
        shows(
            alloc,
            &[b"++\x1b[8;0;0t\x1b[2;3R"],
            false,
            &["2  ", "   "],
            false
        )
    );
    assert!(rt;
        shows(
            alloc,
            &[b"++\x1b[8;1001;1000t"],
            false,
            &["2   ", "    "],
            false
        )
    );
    Ok(())
}

// What the screen shows after these pieces, over an inline viewport of two rows.
fn shows_inline(alloc: Global, pieces: &[&[u8]], lines: &[&str]) -> bool {
    let Ok(backend) = TestBackend::new(alloc, 4, 4) else {
        return false;
    };
    let Ok(mut glass) = OnScreen::begin(alloc, Viewport::Inline(2), backend) else {
        return false;
    };
    let mut seat = Seat::new(counter(7));
    let mut source = Pieces::new(pieces);
    match run(&mut source, &mut Nothing, true, &mut glass, &mut seat) {
        Err(Fault::Read(_)) => glass.terminal().backend().lines_are(lines),
        _ => false,
    }
}

#[test]
fn counts_inline(rt: HostRuntime) -> Result<(), Fail> {
    let alloc = rt.alloc();
    let nine = ["9   ", "    ", "    ", "    "];
    assert!(rt; shows_inline(alloc, &[b"+", b"", b"+"], &nine));
    // A size of three columns and rows.
    let ten = ["10 ", "   ", "   "];
    assert!(rt; shows_inline(alloc, &[b"++", b"\x1b[8;3;3t", b"+"], &ten));
    Ok(())
}

// What the terminal is sent at the end, below its last row.
const FAREWELL: &[u8] = b"\x1b[0m\x1b[r\x1b[?25h\x1b[3;1H\r\n";

// Whether a run from beginning to end, over so many rows or the whole screen, counts to 2, ends so
// and gives the terminal back.
fn leaves(alloc: Global, rows: Option<u16>, pieces: &[&[u8]], is_fine: bool) -> bool {
    let size = Size {
        width: 4,
        height: 3,
    };
    let Ok(backend) = AnsiBackend::new(alloc, Vec::<u8>::new(alloc), size) else {
        return false;
    };
    let mut seat = Seat::new(counter(0));
    let mut source = Pieces::new(pieces);
    let left = match rows {
        None => run_and_leave(alloc, &mut source, &mut Nothing, true, backend, &mut seat),
        Some(_) => {
            run_inline_and_leave(
                alloc,
                2,
                &mut source,
                &mut Nothing,
                true,
                backend,
                &mut seat,
            )
        }
    };
    match left {
        Ok(left) => {
            seat.state().count == 2
                && left.writer.as_slice().ends_with(FAREWELL)
                && left.ended.is_ok() == is_fine
        }
        Err(_) => false,
    }
}

#[test]
fn leaves_the_terminal(rt: HostRuntime) -> Result<(), Fail> {
    let alloc = rt.alloc();
    assert!(rt; leaves(alloc, None, &[b"+", b"", b"+", b"q"], true));
    assert!(rt; leaves(alloc, Some(2), &[b"+", b"", b"+", b"q"], true));
    // Also where the source failed.
    assert!(rt; leaves(alloc, None, &[b"+", b"", b"+"], false));
    assert!(rt; leaves(alloc, Some(2), &[b"+", b"", b"+"], false));
    Ok(())
}
