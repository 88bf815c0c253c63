//! Runs of which the source looks at what the terminal was sent.
ghost use Rattle.std.specs.Io.{ReadsAtMost};

use ratatui_acts::{Nothing, Seat, run};
use ratatui_ansi::{AnsiBackend, AnsiError};
use ratatui_app::{Counter, OnGlass, OnScreen, run_and_leave};
use ratatui_core::backend::TestBackend;
use ratatui_core::layout::Size;
use ratatui_core::terminal::{TerminalError, Viewport};
use ratatui_reads::Pieces;
use std::alloc::Global;
use std::io::{self, ErrorKind, Read, Write};
use std::sync::atomic::{AtomicBool, AtomicU64, Ordering};
use std::test::Fail;

const SIZE: Size = Size {
    width: 4,
    height: 3,
};

fn counter() -> Seat<Counter> {
    Seat::new(Counter {
        count: 0,
        is_over: false,
    })
}

// What a terminal and its keyboard hang on: how often all was sent on, and whether it is cut.
#[derive(Drop)]
struct Line {
    flushes: AtomicU64,
    is_cut: AtomicBool,
}

impl Line {
    fn new() -> Line {
        Line {
            flushes: AtomicU64::new(0),
            is_cut: AtomicBool::new(false),
        }
    }

    fn flushes(&self) -> u64 {
        self.flushes.load(Ordering::Relaxed)
    }

    fn cut(&self) {
        self.is_cut.store(true, Ordering::Relaxed);
    }

    fn cut_if(&self, is_wanted: bool) {
        if is_wanted {
            self.cut();
        }
    }

    // An error if the line is cut.
    fn check(&self) -> io::Result<()> {
        if self.is_cut.load(Ordering::Relaxed) {
            return Err(ErrorKind::BrokenPipe.into());
        }
        Ok(())
    }
}

// A terminal at a line.
#[derive(Drop)]
struct Screen<'a>(&'a Line);

impl Write for Screen<'_> {
    fn write(&mut self, buf: &[u8]) -> io::Result<usize> {
        self.0.check()?;
        Ok(buf.len())
    }

    fn flush(&mut self) -> io::Result<()> {
        self.0.check()?;
        self.0.flushes.fetch_add(1, Ordering::Relaxed);
        Ok(())
    }
}

// Gives as many of these bytes as there is room for.
fn give(bytes: &[u8], buf: &mut [u8]) -> io::Result<usize>
    ensures { ReadsAtMost result buf.new }
{
    let count = bytes.len().min(buf.len());
    let (now, _) = bytes.split_at(count);
    buf[..count].copy_from_slice(now);
    Ok(count)
}

// A keyboard at a line. It gives these reads, notes before each how often all was sent on, and after
// the last one the line is cut.
#[derive(Drop)]
struct Keyboard<'a> {
    line: &'a Line,
    reads: &'a [&'a [u8]],
    flushes: Vec<u64>,
    least_room: usize,
}

impl<'a> Keyboard<'a> {
    fn new(alloc: Global, line: &'a Line, reads: &'a [&'a [u8]]) -> Keyboard<'a> {
        Keyboard {
            line,
            reads,
            flushes: Vec::new(alloc),
            least_room: usize::MAX,
        }
    }
}

impl Read for Keyboard<'_> {
    fn read(&mut self, buf: &mut [u8]) -> io::Result<usize> {
        self.flushes.push(self.line.flushes())?;
        self.least_room = self.least_room.min(buf.len());
        let reads = self.reads;
        let Some(bytes) = reads.first() else {
            self.line.cut();
            return Err(ErrorKind::TimedOut.into());
        };
        self.reads = &reads[1..];
        give(bytes, buf)
    }
}

// What a keyboard has noted of a run of a counter at a line, which ended well.
fn noted<'a>(
    alloc: Global,
    line: &'a Line,
    reads: &'a [&'a [u8]],
    is_on_glass: bool,
) -> Option<Keyboard<'a>> {
    let backend = AnsiBackend::new(alloc, Screen(line), SIZE).ok()?;
    let mut keyboard = Keyboard::new(alloc, line, reads);
    let mut seat = counter();
    if is_on_glass {
        let mut glass = OnGlass::begin(alloc, Viewport::Fullscreen, backend).ok()?;
        run(&mut keyboard, &mut Nothing, true, &mut glass, &mut seat).ok()?;
    } else {
        let mut glass = OnScreen::begin(alloc, Viewport::Fullscreen, backend).ok()?;
        run(&mut keyboard, &mut Nothing, true, &mut glass, &mut seat).ok()?;
    }
    Some(keyboard)
}

// How often all had been sent on before each read of such a run, if each had room for 1024 bytes.
fn flushes_before(alloc: Global, is_on_glass: bool) -> Option<Vec<u64>> {
    let line = Line::new();
    let reads: [&[u8]; 6] = [b"+", b"", b"\x1b[", b"A", b"++", b"q"];
    let keyboard = noted(alloc, &line, &reads, is_on_glass)?;
    (keyboard.least_room == 1024).then_some(keyboard.flushes)
}

// A frame is sent before a key is read, and one after each read that changes something: not after a
// tick, nor after the half of a sequence, nor after a key that means nothing.
#[test]
fn each_read_comes_after_its_frame(rt: HostRuntime) {
    for is_on_glass in [false, true] {
        let flushes = flushes_before(rt.alloc(), is_on_glass);
        let wanted = [1, 2, 2, 2, 2, 3];
        assert!(rt; flushes.is_some_and(|flushes| flushes.as_slice() == wanted.as_slice()));
    }
}

// Finds nothing so many times, and then `q`.
#[derive(Drop)]
struct Ticking {
    ticks: u32,
}

impl Read for Ticking {
    fn read(&mut self, buf: &mut [u8]) -> io::Result<usize> {
        if self.ticks == 0 {
            return give(b"q", buf);
        }
        self.ticks -= 1;
        Ok(0)
    }
}

// Whether a run over a screen in memory goes on for so many ticks.
fn waits(alloc: Global, ticks: u32) -> bool {
    let Ok(backend) = TestBackend::new(alloc, 4, 3) else {
        return false;
    };
    let Ok(mut glass) = OnScreen::begin(alloc, Viewport::Fullscreen, backend) else {
        return false;
    };
    let mut source = Ticking { ticks };
    let mut seat = counter();
    let ended = run(&mut source, &mut Nothing, true, &mut glass, &mut seat);
    ended.is_ok() && seat.state().is_over
}

// The same on a terminal that is sent bytes, from beginning to end.
fn waits_and_leaves(alloc: Global, ticks: u32) -> bool {
    let Ok(backend) = AnsiBackend::new(alloc, Vec::<u8>::new(alloc), SIZE) else {
        return false;
    };
    let mut source = Ticking { ticks };
    let mut seat = counter();
    match run_and_leave(alloc, &mut source, &mut Nothing, true, backend, &mut seat) {
        Ok(left) => left.ended.is_ok() && seat.state().is_over,
        Err(_) => false,
    }
}

#[test]
fn a_run_waits_as_long_as_nothing_comes(rt: HostRuntime) {
    assert!(rt; waits(rt.alloc(), 5000));
}

#[test]
fn a_run_that_leaves_its_terminal_waits_so_long(rt: HostRuntime) {
    assert!(rt; waits_and_leaves(rt.alloc(), 5000));
}

// What stops a run whose source gives these reads and then fails.
fn told(alloc: Global, reads: &[&[u8]]) -> Option<String> {
    let backend = AnsiBackend::new(alloc, Vec::<u8>::new(alloc), SIZE).ok()?;
    let mut seat = counter();
    let mut source = Pieces::new(reads);
    let left = run_and_leave(alloc, &mut source, &mut Nothing, true, backend, &mut seat).ok()?;
    let fault = left.ended.err()?;
    format!(in alloc; "{fault}").ok()
}

#[test]
fn the_fault_of_a_read_is_told(rt: HostRuntime) {
    let told = told(rt.alloc(), &[b"+"]);
    assert!(rt; told.is_some_and(|told| told.as_str().starts_with("input: ")));
}

// Why a run fails at a line that is cut after these reads, or at once: then the terminal can't be
// given back, or not be asked for its size.
fn fails(alloc: Global, reads: &[&[u8]], is_cut_at_once: bool) -> Option<TerminalError<AnsiError>> {
    let line = Line::new();
    let backend = AnsiBackend::new(alloc, Screen(&line), SIZE).ok()?;
    line.cut_if(is_cut_at_once);
    let mut keyboard = Keyboard::new(alloc, &line, reads);
    let mut seat = counter();
    run_and_leave(alloc, &mut keyboard, &mut Nothing, true, backend, &mut seat).err()
}

#[test]
fn a_terminal_that_is_not_reached_is_told(rt: HostRuntime) {
    for is_cut_at_once in [false, true] {
        let error = fails(rt.alloc(), &[b"+"], is_cut_at_once);
        assert!(rt; matches!(error, Some(TerminalError::Backend(AnsiError::Write(_)))));
    }
}

// How often a run asks its terminal for something, at its beginning and until `q`.
fn questions(alloc: Global) -> Option<usize> {
    let backend = AnsiBackend::new(alloc, Vec::<u8>::new(alloc), SIZE).ok()?;
    let reads: [&[u8]; 1] = [b"q"];
    let mut seat = counter();
    let mut source = Pieces::new(&reads);
    let left = run_and_leave(alloc, &mut source, &mut Nothing, true, backend, &mut seat).ok()?;
    Some(
        left.writer
            .as_slice()
            .windows(4)
            .filter(|bytes| *bytes == b"\x1b[6n".as_slice())
            .count(),
    )
}

#[test]
fn the_size_is_asked_for_once(rt: HostRuntime) {
    assert!(rt; questions(rt.alloc()) == Some(1));
}
