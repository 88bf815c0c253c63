//! The program `pager`: shows a text page by page on a terminal, moved by keys. `h` lists them.
//!
//! `pager FILE ..` shows a file, or several, to which `:n` and `:p` turn, and reads the keys from
//! standard input; without a word, or with `-`, the text is standard input's, and the keys come from
//! `/dev/tty`. `+42` begins at line 42, and `+/WORDS` at the first line that has these words. Bytes
//! that aren't UTF-8 stand as `<FF>`. If keys can be typed, but standard output is no terminal, the
//! texts are copied there. The terminal has to be in raw mode, where a read that finds nothing
//! answers after a while: `tools/raw pager_program FILE` sees to that. The size is that of
//! `--columns` and `--rows`, or of the variables COLUMNS and LINES; or else the terminal is asked.
//! What isn't a terminal ends with its last byte. If a text can't be read or a call fails, one line
//! stands on standard error that begins with `pager: `, and the status is 1; with wrong words it is
//! 2. `--version` says the version.
#![tactic(auto)]

mod begin;
mod error;
mod size;
mod words;

use crate::begin::{taken, typed};
use crate::error::PagerError;
use crate::size::{Given, size_for};
use crate::words::{command, given_by, is_input};
use bumpalo::Bump;
use pager::{Document, Ending, Growing, OwnText, Pager, PieceReader, open};
use programs::{Stream, is_terminal};
use ratatui_acts::Seat;
use ratatui_app::run_and_leave;
use ratatui_core::layout::Size;
use ratatui_core::terminal::TerminalError;
use std::alloc::{AllocError, Global};
use std::io::{self, BufWriter, Read, Write};
use std::process::ExitCode;
use std::{env, fs};

// A text among others: how it is called, and which it is, from 0 on, of how many.
#[derive(Clone, Copy)]
struct Place<'a> {
    name: &'a str,
    at: usize,
    count: usize,
}

impl Place<'_> {
    // How the text is called in the status.
    fn title(&self, alloc: Global) -> Result<String, AllocError> {
        if self.count == 1 {
            return String::from_str(alloc, self.name);
        }
        let (name, number, count) = (self.name, self.at.saturating_add(1), self.count);
        format!(in alloc; "{name} ({number} of {count})")
    }

    fn has_previous(&self) -> bool {
        self.at > 0
    }

    fn has_next(&self) -> bool {
        self.at.saturating_add(1) < self.count
    }
}

// A pager at the first line of a text that is not begun.
fn pager_for<'a>(alloc: Global, place: Place<'_>, size: Size) -> Result<Pager<'a>, PagerError> {
    let document = Document::new(alloc, "").map_err(PagerError::Text)?;
    let name = OwnText::new(place.title(alloc).map_err(|_| PagerError::Memory)?);
    let pattern = OwnText::new(String::new(alloc));
    Ok(Pager::new(document, name, pattern, size).between(place.has_previous(), place.has_next()))
}

// A pager of a text of which the first piece is read.
fn begun<'a, T: Read>(
    alloc: Global,
    place: Place<'_>,
    size: Size,
    pieces: &mut PieceReader<'a, T>,
) -> Result<Growing<'a>, PagerError> {
    let first = pieces.next_piece(false, false).map_err(PagerError::Read)?;
    let pager = pager_for(alloc, place, size)?;
    Growing::new(pager, first).map_err(|_| PagerError::Memory)
}

// Shows a text while it comes, moved by what a reader gives; how it is done with.
fn show_pieces<'a, T: Read, R: Read, W: Write + Drop>(
    alloc: Global,
    size: Size,
    typed: &mut R,
    pieces: &mut PieceReader<'a, T>,
    has_ticks: bool,
    writer: W,
    seat: &mut Seat<Growing<'a>>,
) -> Result<Ending, PagerError> {
    let backend = match open(alloc, size, writer) {
        Ok(backend) => backend,
        Err(error) => return Err(PagerError::Terminal(TerminalError::Backend(error))),
    };
    let left = run_and_leave(alloc, typed, pieces, has_ticks, backend, seat).map_err(
        PagerError::Terminal,
    )?;
    left.ended.map_err(PagerError::ended)?;
    Ok(seat.state().ending())
}

// Shows a text as it comes into an arena, moved by what a reader gives; how it is done with.
fn show_text<'a, T: Read + Drop, R: Read, W: Write + Drop>(
    alloc: Global,
    arena: &'a Bump,
    place: Place<'_>,
    text: T,
    is_file: bool,
    size: Size,
    typed: &mut R,
    has_ticks: bool,
    writer: W,
) -> Result<Ending, PagerError> {
    let mut pieces = PieceReader::new(alloc, arena, text, is_file);
    let growing = begun(alloc, place, size, &mut pieces)?;
    let mut seat = Seat::new(growing);
    show_pieces(
        alloc,
        size,
        typed,
        &mut pieces,
        has_ticks,
        writer,
        &mut seat,
    )
}

// Shows a text as it comes from a reader, moved by keys that are typed first, and then by another
// reader's; how it is done with.
fn page<T: Read + Drop, R: Read>(
    rt: &HostRuntime,
    place: Place<'_>,
    text: T,
    is_file: bool,
    first: &str,
    keys: &mut R,
    has_ticks: bool,
    given: Given,
) -> Result<Ending, PagerError> {
    let alloc = rt.alloc();
    let arena = Bump::new(alloc);
    let mut writer = BufWriter::new(alloc, io::writer(rt)).map_err(PagerError::Write)?;
    let size = size_for(rt, given, keys, has_ticks, &mut writer)?;
    let mut typed = first.as_bytes().chain(keys);
    show_text(
        alloc,
        &arena,
        place,
        text,
        is_file,
        size,
        &mut typed,
        has_ticks,
        &mut writer,
    )
}

// Copies a text to standard output.
fn copy(rt: &HostRuntime, bytes: &[u8]) -> Result<(), PagerError> {
    let mut writer = io::writer(rt);
    writer.write_all(bytes).map_err(PagerError::Write)?;
    writer.flush().map_err(PagerError::Write)
}

// Shows a file; the keys are standard input's.
fn page_file(
    rt: &HostRuntime,
    place: Place<'_>,
    first: &str,
    given: Given,
) -> Result<Ending, PagerError> {
    let has_ticks = is_terminal(rt, Stream::Input);
    if has_ticks && !is_terminal(rt, Stream::Output) {
        let bytes = fs::read(rt, place.name).map_err(PagerError::Read)?;
        copy(rt, bytes.as_slice())?;
        return Ok(if place.has_next() {
            Ending::Next
        } else {
            Ending::Quit
        });
    }
    let text = fs::open(rt, place.name).map_err(PagerError::Read)?;
    // A pipe that has a name may give nothing yet.
    let is_file = text.metadata().is_ok_and(|found| found.is_file());
    page(
        rt,
        place,
        text,
        is_file,
        first,
        &mut rt.reader(),
        has_ticks,
        given,
    )
}

// Shows files, from the first one on, until the reader is done with the pager.
fn page_files(rt: &HostRuntime, names: &[&str], first: &str, given: Given) -> io::Result<ExitCode> {
    let mut typed = first;
    let mut at = 0usize;
    for _ in 0..u64::MAX {
        let Some(name) = names.get(at) else {
            return Ok(ExitCode::SUCCESS);
        };
        let place = Place {
            name,
            at,
            count: names.len(),
        };
        match page_file(rt, place, typed, given) {
            Ok(Ending::Quit) => return Ok(ExitCode::SUCCESS),
            Ok(Ending::Next) => at = at.saturating_add(1),
            Ok(Ending::Previous) => at = at.saturating_sub(1),
            Err(refusal) => {
                refusal.tell(rt, name)?;
                return Ok(ExitCode::FAILURE);
            }
        }
        typed = "";
    }
    Ok(ExitCode::SUCCESS)
}

// Shows standard input; the keys are the terminal's.
fn page_input(rt: &HostRuntime, first: &str, given: Given) -> Result<(), PagerError> {
    let place = Place {
        name: "standard input",
        at: 0,
        count: 1,
    };
    if !is_terminal(rt, Stream::Output) {
        let mut bytes = Vec::new(rt.alloc());
        rt.reader()
            .read_to_end(&mut bytes)
            .map_err(PagerError::Read)?;
        return copy(rt, bytes.as_slice());
    }
    let mut keys = fs::open(rt, "/dev/tty").map_err(PagerError::Keys)?;
    page(rt, place, rt.reader(), false, first, &mut keys, true, given)?;
    Ok(())
}

// Reads the words, and shows what they name.
fn start(rt: &HostRuntime) -> anyhow::Result<ExitCode> {
    let mut words: Vec<String> = env::args(rt)?.collect(rt.alloc())?;
    let first = typed(taken(rt.alloc(), &mut words)?)?;
    let matches = match command(rt.alloc())?.try_get_matches_from(words.as_slice()) {
        Ok(matches) => matches,
        Err(error) => {
            if error.use_stderr() {
                eprint!(rt; "pager: ")?;
            }
            error.print(rt)?;
            return Ok(ExitCode::from(error.exit_code() as u8));
        }
    };
    let given = given_by(&matches);
    if !is_input(&matches) {
        let names = matches.get_strs("FILE").unwrap_or(&[]);
        return Ok(page_files(rt, names, first.as_str(), given)?);
    }
    match page_input(rt, first.as_str(), given) {
        Ok(()) => Ok(ExitCode::SUCCESS),
        Err(refusal) => {
            refusal.tell(rt, "standard input")?;
            Ok(ExitCode::FAILURE)
        }
    }
}

fn main(rt: HostRuntime) -> ExitCode {
    match start(&rt) {
        Ok(status) => status,
        Err(error) => {
            let _ = eprintln!(rt; "pager: {error}");
            ExitCode::FAILURE
        }
    }
}
