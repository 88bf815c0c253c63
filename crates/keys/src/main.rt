//! The program `keys`: prints each event of a terminal as it comes, with its bytes, as
//! `ESC [ 1 ; 5 A = Ctrl+Up`. Ctrl+D ends it.
//!
//! `keys WORD..` asks the terminal for more first: `mouse`, `focus`, `paste`, or `all` for what a
//! keyboard can tell of itself; it takes that back at its end. The terminal has to be in raw mode,
//! where a read that finds nothing answers after a while: `tools/raw keys` sees to that. An hour
//! without an event ends it, too; what isn't a terminal ends with its last byte. `--help` says so;
//! other words are an error, with status 2. If reading or writing fails, one line stands on standard
//! error, and the status is 1.
#![tactic(auto)]

mod shown;

use crate::shown::Shown;
use programs::{Stream, VERSION, is_terminal};
use std::env;
use std::io::{self, BufWriter, Read, Write};
use std::process::ExitCode;

/// A word of the command line: what it asks a terminal to tell, and what takes that back.
struct Asked {
    word: &'static str,
    about: &'static str,
    on: &'static str,
    off: &'static str,
}

/// The words.
static WORDS: [Asked; 4] = [
    Asked {
        word: "mouse",
        about: "buttons, the wheel, and where the pointer goes",
        on: "\x1b[?1003h\x1b[?1006h",
        off: "\x1b[?1006l\x1b[?1003l",
    },
    Asked {
        word: "focus",
        about: "that the window is looked at, or no longer",
        on: "\x1b[?1004h",
        off: "\x1b[?1004l",
    },
    Asked {
        word: "paste",
        about: "what is pasted, as such",
        on: "\x1b[?2004h",
        off: "\x1b[?2004l",
    },
    Asked {
        word: "all",
        about: "all that a keyboard can tell of itself",
        on: "\x1b[>15u",
        off: "\x1b[<u",
    },
];

/// How many reads that find nothing, one after the other, end the program: an hour of them.
const PATIENCE: u32 = 36_000;

// What a word asks for, if it is one of them.
fn named(word: &str) -> Option<&'static Asked> {
    WORDS.iter().find(|asked| asked.word == word)
}

// Prints what the program is, and its words.
fn print_help(rt: &HostRuntime) -> io::Result<()> {
    print!(rt;
        "keys: prints each event of a terminal as it comes, with its bytes. Ctrl+D ends it.\n"
    )?;
    print!(rt; "keys WORD.. asks the terminal to tell more first:\n")?;
    for Asked { word, about, .. } in WORDS.iter() {
        print!(rt; "    {word}  {about}\n")?;
    }
    print!(rt; "tools/raw keys puts the terminal into raw mode.\n")
}

// Tells that a word is none of them.
fn refuse(rt: &HostRuntime, word: &str) -> io::Result<()> {
    eprint!(rt; "keys: {word} is none of its words:")?;
    for asked in WORDS.iter() {
        eprint!(rt; " {}", asked.word)?;
    }
    eprintln!(rt; "; --help")
}

// Writes what asks for each word, or what takes it back.
fn ask<W: Write>(words: &[String], out: &mut W, is_on: bool) -> io::Result<()> {
    for word in words {
        if let Some(asked) = named(word.as_str()) {
            let bytes = if is_on { asked.on } else { asked.off };
            out.write_all(bytes.as_bytes())?;
        }
    }
    out.flush()
}

// Shows what a reader gives, until Ctrl+D comes or so many reads, one after the other, find nothing.
fn show_all<R: Read, W: Write>(reader: &mut R, out: &mut W, patience: u32) -> io::Result<()> {
    let mut shown = Shown::new();
    let mut bytes = [0u8; 256];
    let mut quiet = 0u32;
    for _ in 0..u64::MAX {
        let count = reader.read(&mut bytes)?;
        quiet = if count == 0 {
            quiet.saturating_add(1)
        } else {
            0
        };
        let is_over = shown.take(&bytes[..count], out)?;
        out.flush()?;
        if is_over || quiet >= patience {
            return Ok(());
        }
    }
    Ok(())
}

// Asks for what the words say, shows what comes, and takes that back.
fn play(rt: &HostRuntime, words: &[String]) -> io::Result<()> {
    let mut out = BufWriter::new(rt.alloc(), io::writer(rt))?;
    ask(words, &mut out, true)?;
    let patience = if is_terminal(rt, Stream::Input) {
        PATIENCE
    } else {
        1
    };
    let result = show_all(&mut rt.reader(), &mut out, patience);
    ask(words, &mut out, false)?;
    result
}

// What the words ask for: help, an error, or the program itself.
fn start(rt: &HostRuntime) -> io::Result<ExitCode> {
    let words: Vec<String> = env::args(rt)?.skip(1).collect(rt.alloc())?;
    if words.iter().any(|word| word.as_str() == "--help") {
        print_help(rt)?;
        return Ok(ExitCode::SUCCESS);
    }
    if words.iter().any(|word| word.as_str() == "--version") {
        println!(rt; "keys {VERSION}")?;
        return Ok(ExitCode::SUCCESS);
    }
    for word in words.iter() {
        if named(word.as_str()).is_none() {
            refuse(rt, word.as_str())?;
            return Ok(ExitCode::from(2));
        }
    }
    play(rt, words.as_slice())?;
    Ok(ExitCode::SUCCESS)
}

fn main(rt: HostRuntime) -> ExitCode {
    match start(&rt) {
        Ok(status) => status,
        Err(error) => {
            let _ = eprintln!(rt; "keys: {error}");
            ExitCode::FAILURE
        }
    }
}
