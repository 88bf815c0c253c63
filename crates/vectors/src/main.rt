//! The program `vectors`: makes the calls that rows of text name, and compares what they answer
//! with what the rows say.
//!
//! `vectors FILE..` reads files of rows. It prints for each file how many rows hold, or each row
//! that doesn't with both answers, and then ends with status 1. `data/README.md` says what a row
//! is; those of `keys.rows`, `split.rows`, `split_cases.rows`, `files.rows`, `areas.rows`,
//! `fields.rows`, `graphemes.rows` and `views.rows` are read by the crates `row_keys`, `row_splits`,
//! `row_files` and `row_areas`, which say what they are. For a number in place of a file it makes so
//! many requests for memory of its own, and says which of them is refused, if one is: so
//! `tools/refusals` chooses the request that is refused.
#![tactic(auto)]

mod rows;
mod scripts;

use crate::rows::Tally;
use std::alloc::Global;
use std::process::ExitCode;
use std::{env, fs, io};

/// Where `files.rows` are done to the system's files.
const FOLDER: &str = "files.folder";

// Checks rows of calls, and prints what came of them; how many don't hold.
fn check_calls(rt: &HostRuntime, alloc: Global, name: &str, text: &str) -> io::Result<usize> {
    let subject = name.strip_suffix(".rows").unwrap_or(name);
    let mut tally = Tally::new(alloc);
    for line in text.lines() {
        rows::check(alloc, subject, line, &mut tally)?;
    }
    let report = tally.report.as_str();
    print!(rt; "{report}")?;
    let (held, failed) = (tally.held, tally.failed);
    if failed == 0 {
        println!(rt; "{subject}: {held} rows")?;
    } else {
        println!(rt; "{subject}: {held} rows hold, {failed} don't")?;
    }
    Ok(failed)
}

// Checks the rows of a file, and prints what came of them; how many don't hold. A file that can't be
// read counts as one.
fn check_file(rt: &HostRuntime, name: &str) -> io::Result<usize> {
    let text = match fs::read_to_string(rt, name) {
        Ok(text) => text,
        Err(fault) => {
            eprintln!(rt; "vectors: {name}: {fault}")?;
            return Ok(1);
        }
    };
    let text = text.as_str();
    match name {
        "keys.rows" => row_keys::check(rt, text),
        "split.rows" | "split_cases.rows" => row_splits::check(rt, name, text),
        "files.rows" => row_files::check(rt, text, FOLDER),
        "areas.rows" | "fields.rows" | "graphemes.rows" | "views.rows" => {
            row_areas::check(rt, name, text)
        }
        _ => check_calls(rt, rt.alloc(), name, text),
    }
}

// Makes so many requests; the number of the one that is refused.
fn request(alloc: Global, count: usize) -> Option<usize> {
    (0..count).find(|_| String::from_str(alloc, "request").is_err())
}

// Does what the words say; how many rows don't hold.
fn check_files(rt: &HostRuntime) -> io::Result<usize> {
    let mut failed = 0usize;
    for word in env::args(rt)?.skip(1) {
        if let Ok(count) = word.as_str().parse::<usize>() {
            if let Some(number) = request(rt.alloc(), count) {
                println!(rt; "request {number} refused")?;
            }
        } else {
            failed = failed.saturating_add(check_file(rt, word.as_str())?);
        }
    }
    Ok(failed)
}

fn main(rt: HostRuntime) -> io::Result<ExitCode> {
    match check_files(&rt)? {
        0 => Ok(ExitCode::SUCCESS),
        _ => Ok(ExitCode::FAILURE),
    }
}
