//! The program `follow`: shows standard input line by line above a status line, as it comes.
//!
//! `follow COLUMNS ROWS` sends escape sequences to standard output, for a terminal of this size;
//! without words the size is that of the variables COLUMNS and LINES. If the size isn't known or a
//! call fails, one line stands on standard error, and the status is not 0; if a word is wrong, clap's
//! several lines. What stands there begins with `follow: `.
#![tactic(auto)]

mod size;

use crate::size::{command, size_of};
use follow::{FollowError, follow};
use rtui_geometry::Size;
use std::env;
use std::io::{self, BufWriter};
use std::process::ExitCode;

// Shows standard input on a terminal of this size.
fn run(rt: &HostRuntime, size: Size) -> Result<(), FollowError> {
    let mut reader = rt.reader();
    let writer = BufWriter::new(rt.alloc(), io::writer(rt)).map_err(FollowError::Write)?;
    let _writer = follow(rt.alloc(), &mut reader, writer, size)?;
    Ok(())
}

// Reads the words, and shows standard input.
fn start(rt: &HostRuntime) -> anyhow::Result<ExitCode> {
    let words: Vec<String> = env::args(rt)?.collect(rt.alloc())?;
    let matches = match command(rt.alloc())?.try_get_matches_from(words.as_slice()) {
        Ok(matches) => matches,
        Err(error) => {
            if error.use_stderr() {
                eprint!(rt; "follow: ")?;
            }
            error.print(rt)?;
            return Ok(ExitCode::from(error.exit_code() as u8));
        }
    };
    let Some(size) = size_of(rt, &matches) else {
        eprintln!(rt; "follow: no size: give COLUMNS and ROWS, or set COLUMNS and LINES")?;
        return Ok(ExitCode::from(2));
    };
    match run(rt, size) {
        Ok(()) => Ok(ExitCode::SUCCESS),
        Err(fault) => {
            eprintln!(rt; "follow: {fault}")?;
            Ok(ExitCode::FAILURE)
        }
    }
}

fn main(rt: HostRuntime) -> ExitCode {
    match start(&rt) {
        Ok(status) => status,
        Err(error) => {
            let _ = eprintln!(rt; "follow: {error}");
            ExitCode::FAILURE
        }
    }
}
