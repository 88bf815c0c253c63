//! Each call of the writer failing in turn, and what mends a backend then.

use crate::backends::{Why, by_kind};
use crate::tearing::Tearing;
use ratatui_ansi::{AnsiBackend, AnsiError};
use ratatui_core::buffer::Buffer;
use ratatui_core::style::{Color, Style};
use ratatui_core::terminal::Terminal;
use rtui_backend::Backend;
use rtui_cell::Cell;
use rtui_geometry::{Position, Size};
use std::alloc::{AllocError, Global};
use std::io::{self, ErrorKind, Write};
use std::iter;
use std::test::Fail;

const SIZE: Size = Size {
    width: 3,
    height: 2,
};

// A backend over a writer that fails once after so many calls; the backend's beginning makes two.
fn over_tearing(alloc: Global, calls: u64) -> Result<AnsiBackend<Tearing>, AnsiError> {
    AnsiBackend::new(alloc, Tearing::new(alloc, calls), SIZE)
}

const CALLS: u64 = 9;

// The calls that write or flush, each of them once.
fn call(backend: &mut AnsiBackend<Tearing>, number: u64, cell: &Cell) -> Result<(), Why> {
    by_kind(match number {
        0 => backend.draw(iter::once((1, 0, cell))),
        1 => backend.append_lines(1),
        2 => backend.scroll_region_up(0..2, 1),
        3 => backend.scroll_region_down(0..2, 1),
        4 => backend.hide_cursor(),
        5 => backend.show_cursor(),
        6 => backend.set_cursor_position(Position { x: 1, y: 1 }),
        7 => backend.clear(),
        _ => backend.flush(),
    })
}

// Whether every call is refused as broken, and nothing is sent.
fn is_broken(backend: &mut AnsiBackend<Tearing>, cell: &Cell) -> bool {
    let sent = backend.writer().sent.len();
    for number in 0..CALLS {
        if call(backend, number, cell) != Err(Why::Broken) {
            return false;
        }
    }
    by_kind(backend.get_cursor_position()) == Err(Why::Broken)
        && by_kind(backend.size()) == Err(Why::Broken)
        && backend.window_size().is_err()
        && backend.writer().sent.len() == sent
}

// Whether a backend begins anew: a cell is drawn as on a blank screen.
fn is_mended(backend: &mut AnsiBackend<Tearing>, cell: &Cell) -> bool {
    let is_begun = backend.restart().is_ok();
    let sent = backend.writer().sent.len();
    is_begun
        && by_kind(backend.get_cursor_position()) == Ok(Position::ORIGIN)
        && call(backend, 0, cell).is_ok()
        && backend.writer().sent.as_slice().get(sent..) == Some(b"\x1b[1;2Ha".as_slice())
}

// Whether a call is refused if just its own call of the writer fails, all later ones as broken, and
// a restart mends that.
fn fails_and_is_mended(alloc: Global, number: u64, cell: &Cell) -> bool {
    let Ok(mut backend) = over_tearing(alloc, number.saturating_add(2)) else {
        return false;
    };
    (0..number).all(|before| call(&mut backend, before, cell).is_ok())
        && call(&mut backend, number, cell) == Err(Why::Write(ErrorKind::BrokenPipe))
        && is_broken(&mut backend, cell)
        && is_mended(&mut backend, cell)
}

#[test]
fn each_call_of_a_writer_fails(rt: HostRuntime) -> Result<(), Fail> {
    let cell = Cell::new(rt.alloc(), "a")?;
    for number in 0..CALLS {
        assert!(rt; fails_and_is_mended(rt.alloc(), number, &cell));
    }
    Ok(())
}

#[test]
fn the_beginning_fails(rt: HostRuntime) {
    for calls in 0..2 {
        let answer = by_kind(over_tearing(rt.alloc(), calls));
        assert!(rt; matches!(answer, Err(Why::Write(ErrorKind::BrokenPipe))));
    }
}

// A writer that counts the bytes that it was given since its last flush.
#[derive(Drop)]
struct Holding {
    held: usize,
}

impl Write for Holding {
    fn write(&mut self, buf: &[u8]) -> io::Result<usize> {
        self.held = self.held.saturating_add(buf.len());
        Ok(buf.len())
    }

    fn flush(&mut self) -> io::Result<()> {
        self.held = 0;
        Ok(())
    }
}

fn redden(buffer: &mut Buffer) {
    let area = *buffer.area();
    buffer.set_style(area, Style::new().bg(Color::Red));
}

// Begins over a writer that is lent; whether that worked.
fn begins(alloc: Global, writer: &mut Tearing) -> bool {
    AnsiBackend::new(alloc, writer, SIZE).is_ok()
}

// A beginning that fails gives the terminal back, as far as the writer takes that.
#[test]
fn a_failed_beginning_gives_the_terminal_back(rt: HostRuntime) {
    let mut writer = Tearing::new(rt.alloc(), 1);
    assert!(rt; !begins(rt.alloc(), &mut writer));
    assert!(rt;
        writer
            .sent
            .as_slice()
            .ends_with(b"\x1b[0m\x1b[r\x1b[?25h\x1b[2;1H\r\n")
    );
}

// How many bytes a writer holds after a draw.
fn held_after_a_draw(alloc: Global) -> Option<usize> {
    let backend = AnsiBackend::new(alloc, Holding { held: 0 }, SIZE).ok()?;
    let mut terminal = Terminal::new(alloc, backend).ok()?;
    let drawn = terminal.draw(|frame| {
        redden(frame.buffer_mut());
        Ok(())
    });
    drawn.ok()?;
    Some(terminal.backend().writer().held)
}

#[test]
fn a_draw_flushes_its_writer(rt: HostRuntime) {
    assert!(rt; held_after_a_draw(rt.alloc()) == Some(0));
}

// How many bytes a writer holds once it was left.
fn held_after_leaving(alloc: Global) -> Option<usize> {
    let backend = AnsiBackend::new(alloc, Holding { held: 0 }, SIZE).ok()?;
    Some(backend.leave().ok()?.held)
}

// What leaves a terminal is written after a failed write, too, and may fail itself.
fn is_left_after(alloc: Global, calls: u64, cell: &Cell) -> Option<Result<(), Why>> {
    let mut backend = over_tearing(alloc, calls).ok()?;
    let _drawn = call(&mut backend, 0, cell);
    Some(by_kind(backend.leave()).map(|_| ()))
}

#[test]
fn leaving_after_failed_writes(rt: HostRuntime) -> Result<(), Fail> {
    let cell = Cell::new(rt.alloc(), "a")?;
    let torn = Err(Why::Write(ErrorKind::BrokenPipe));
    assert!(rt; held_after_leaving(rt.alloc()) == Some(0));
    assert!(rt; is_left_after(rt.alloc(), 2, &cell) == Some(Ok(())));
    assert!(rt; is_left_after(rt.alloc(), 3, &cell) == Some(torn));
    assert!(rt; is_left_after(rt.alloc(), 4, &cell) == Some(torn));
    Ok(())
}

// Whether what leaves a terminal after a failed write begins with the end of an update.
fn ends_an_update(alloc: Global, cell: &Cell) -> Option<bool> {
    let mut backend = over_tearing(alloc, 2).ok()?;
    let _drawn = call(&mut backend, 0, cell);
    let sent = backend.leave().ok()?.sent;
    Some(
        sent.as_slice()
            .ends_with(b"\x1b[?2026l\x1b[0m\x1b[r\x1b[?25h\x1b[2;1H\r\n"),
    )
}

#[test]
fn leaving_after_a_failed_write_ends_an_update(rt: HostRuntime) -> Result<(), Fail> {
    let cell = Cell::new(rt.alloc(), "a")?;
    assert!(rt; ends_an_update(rt.alloc(), &cell) == Some(true));
    Ok(())
}

// What is sent last if a draw within a synchronized update fails to write.
#[test]
fn a_failed_draw_ends_its_update(rt: HostRuntime) -> Result<(), Fail> {
    let cell = Cell::new(rt.alloc(), "a")?;
    let Ok(mut backend) = over_tearing(rt.alloc(), 2) else {
        return Err(Fail::from(AllocError));
    };
    backend.set_synchronized(true);
    assert!(rt; call(&mut backend, 0, &cell) == Err(Why::Write(ErrorKind::BrokenPipe)));
    assert!(rt; backend.writer().sent.as_slice().ends_with(b"\x1b[?2026l"));
    Ok(())
}
