//! The size of the terminal: from the program's words, or else from the environment.

use clap::{Arg, ArgMatches, Command, value_parser};
use programs::VERSION;
use rtui_geometry::Size;
use std::alloc::{AllocError, Global};
use std::env;

/// Returns what the program takes: the columns and rows of the terminal.
pub fn command<'a>(alloc: Global) -> Result<Command<'a>, AllocError> {
    let columns = Arg::new(alloc, "COLUMNS")
        .help("How wide the terminal is; else the variable COLUMNS says it")
        .value_parser(value_parser!(u16).range(1..=65535));
    let rows = Arg::new(alloc, "ROWS")
        .help("How high the terminal is; else the variable LINES says it")
        .value_parser(value_parser!(u16).range(1..=65535));
    Command::new(alloc, "follow")
        .bin_name("follow")?
        .version(VERSION)
        .about("Shows standard input line by line above a status line, as it comes")
        .arg(columns)?
        .arg(rows)
}

// A number of columns or rows that a variable says.
fn number_in(rt: &HostRuntime, variable: &str) -> Option<u16> {
    let text = env::var(rt, variable).ok()?;
    let number: u16 = text.as_str().parse().ok()?;
    (number > 0).then_some(number)
}

/// Returns the size of the terminal, if it is known: each number is the word's, or else the
/// variable's.
pub fn size_of(rt: &HostRuntime, matches: &ArgMatches<'_>) -> Option<Size> {
    let width = match matches.get_one::<u16>("COLUMNS") {
        Some(columns) => columns,
        None => number_in(rt, "COLUMNS")?,
    };
    let height = match matches.get_one::<u16>("ROWS") {
        Some(rows) => rows,
        None => number_in(rt, "LINES")?,
    };
    Some(Size { width, height })
}
