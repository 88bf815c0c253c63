//! A recording shown as bytes for a terminal, which is given back whatever fails: a request for
//! memory, a read, or a call of the writer.

use crate::frames::Stage;
use crate::recording::{Player, Recording};
use pager::{Pager, show};
use ratatui_acts::{Fault, Seat};
use ratatui_ansi::AnsiError;
use ratatui_core::terminal::TerminalError;
use std::alloc::Global;
use std::io::{self, ErrorKind, Write};

/// The request of the program that is refused.
const LAST: usize = 20_000;

/// How long the bytes are that are looked for.
const KEPT: usize = 8;

/// A terminal, as far as its owner minds that it is given back.
#[derive(Drop)]
struct Owned {
    /// The last bytes that it was sent.
    last: [u8; KEPT],
    /// The alternate screen is shown.
    is_away: bool,
    /// The cursor is hidden.
    is_hidden: bool,
    /// It tells of the mouse.
    is_telling: bool,
    /// How many calls it takes before one fails; those after that don't.
    calls: usize,
    /// The call that failed was to give it back.
    is_lost: bool,
}

impl Owned {
    fn new(calls: usize) -> Owned {
        Owned {
            last: [0; KEPT],
            is_away: false,
            is_hidden: false,
            is_telling: false,
            calls,
            is_lost: false,
        }
    }

    // Whether this call fails.
    fn fails(&mut self) -> bool {
        let is_last = self.calls == 1;
        self.calls = self.calls.saturating_sub(1);
        is_last
    }

    fn is_given_back(&self) -> bool {
        !self.is_away && !self.is_hidden && !self.is_telling
    }

    fn read(&mut self, byte: u8) {
        self.last.rotate_left(1);
        self.last[KEPT - 1] = byte;
        if byte != b'h' && byte != b'l' {
            return;
        }
        let last = self.last.as_slice();
        if last.ends_with(b"[?1049h") || last.ends_with(b"[?1049l") {
            self.is_away = byte == b'h';
        } else if last.ends_with(b"[?25h") || last.ends_with(b"[?25l") {
            self.is_hidden = byte == b'l';
        } else if last.ends_with(b"[?1000h") || last.ends_with(b"[?1000l") {
            self.is_telling = byte == b'h';
        }
    }
}

impl Write for Owned {
    fn write(&mut self, buf: &[u8]) -> io::Result<usize> {
        if self.fails() {
            self.is_lost = buf.ends_with(b"[?1049l\x1b[0m");
            return Err(ErrorKind::BrokenPipe.into());
        }
        for byte in buf {
            self.read(*byte);
        }
        Ok(buf.len())
    }

    fn flush(&mut self) -> io::Result<()> {
        if self.fails() {
            return Err(ErrorKind::BrokenPipe.into());
        }
        Ok(())
    }
}

// What a terminal's fault is about.
fn name_of(error: &TerminalError<AnsiError>) -> &'static str {
    match error {
        TerminalError::Memory | TerminalError::Backend(AnsiError::Memory) => "no memory",
        _ => "no draw",
    }
}

// How a run ended.
fn name_of_end(ended: &Result<(), Fault<TerminalError<AnsiError>>>) -> &'static str {
    match ended {
        Ok(()) => "over",
        Err(Fault::Memory) => "no memory",
        Err(Fault::Read(_)) => "no more reads",
        Err(Fault::Show(error)) => name_of(error),
        Err(Fault::Outside(_) | Fault::Endless) => "no end",
    }
}

// What came of a recording that is shown from where a pager is, and whether the terminal was given
// back.
fn shown_on(
    stage: Stage<'_>,
    player: &mut Player<'_>,
    terminal: &mut Owned,
    seat: &mut Seat<Pager<'_>>,
) -> (&'static str, bool) {
    let told = match show(stage.alloc, stage.size, player, true, &mut *terminal, seat) {
        Ok(left) => name_of_end(&left.ended),
        Err(error) => name_of(&error),
    };
    (told, terminal.is_given_back())
}

// What came of a recording that is shown from its beginning, and whether the terminal was given
// back.
fn shown(
    stage: Stage<'_>,
    player: &mut Player<'_>,
    terminal: &mut Owned,
) -> Option<(&'static str, bool)> {
    let mut seat = Seat::new(stage.pager()?);
    Some(shown_on(stage, player, terminal, &mut seat))
}

/// How many reads failed, how many of these were told as such, and how many of these left the
/// terminal given back.
#[derive(Debug, Clone, Copy)]
pub struct Failed {
    pub reads: usize,
    pub told: usize,
    pub given_back: usize,
}

impl Failed {
    /// Returns that no read failed.
    pub fn nothing() -> Failed {
        Failed {
            reads: 0,
            told: 0,
            given_back: 0,
        }
    }

    fn add(&mut self, is_told: bool, is_given_back: bool) {
        self.reads = self.reads.saturating_add(1);
        if is_told {
            self.told = self.told.saturating_add(1);
        }
        if is_given_back {
            self.given_back = self.given_back.saturating_add(1);
        }
    }
}

/// Lets each read fail once before it is made, and then shows the recording on from there; returns
/// what came of these reads, up to the one that ends the pager.
pub fn failed_reads(stage: Stage<'_>, recording: &Recording) -> Option<Failed> {
    let mut seat = Seat::new(stage.pager()?);
    let mut player = Player::new(recording, None, 0);
    let mut failed = Failed::nothing();
    for _ in 0..recording.ends.len() {
        let mut terminal = Owned::new(usize::MAX);
        let (told, is_given_back) = shown_on(stage, &mut player, &mut terminal, &mut seat);
        if told == "over" {
            return Some(failed);
        }
        failed.add(told == "no more reads", is_given_back);
        player.go_on(1);
    }
    Some(failed)
}

/// Returns how many of the writer's calls, of which one fails in each recording of so many reads,
/// leave the terminal given back or were to give it back, and how many calls there are.
pub fn writes_given_back(stage: Stage<'_>, recording: &Recording, reads: usize) -> (usize, usize) {
    let mut count = 0usize;
    for calls in 1..1000usize {
        let mut player = Player::new(recording, None, reads);
        let mut terminal = Owned::new(calls);
        let told = shown(stage, &mut player, &mut terminal);
        if terminal.calls > 0 {
            return (count, calls.saturating_sub(1));
        }
        let is_given_back = told.is_some_and(|(_, is_given_back)| is_given_back);
        if is_given_back || terminal.is_lost {
            count = count.saturating_add(1);
        }
    }
    (count, 1000)
}

// Makes so many requests; whether one was refused.
fn request(alloc: Global, count: usize) -> bool {
    let mut is_refused = false;
    for _ in 0..count {
        is_refused = String::from_str(alloc, "request").is_err() || is_refused;
    }
    is_refused
}

/// Shows a recording between requests of its own, so many that the one of this number is the last
/// of them all, and prints what came of it.
pub fn print_refused(
    rt: &HostRuntime,
    stage: Stage<'_>,
    recording: &Recording,
    number: usize,
) -> io::Result<()> {
    if request(stage.alloc, LAST.saturating_sub(number)) {
        return println!(rt; "before the reads");
    }
    let mut player = Player::new(recording, None, usize::MAX);
    let mut terminal = Owned::new(usize::MAX);
    match shown(stage, &mut player, &mut terminal) {
        Some((told, true)) => println!(rt; "{told}, and the terminal is given back")?,
        Some((told, false)) => println!(rt; "{told}, and the terminal isn't given back")?,
        None => println!(rt; "no pager")?,
    }
    if request(stage.alloc, number) {
        return println!(rt; "after the reads");
    }
    Ok(())
}
