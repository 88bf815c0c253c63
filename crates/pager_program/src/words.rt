//! What the program takes.

use crate::size::Given;
use clap::{Arg, ArgMatches, Command, value_parser};
use programs::VERSION;
use std::alloc::{AllocError, Global};

/// Says what the program takes: files, and the columns and rows of the terminal.
pub fn command<'a>(alloc: Global) -> Result<Command<'a>, AllocError> {
    let file = Arg::new(alloc, "FILE").num_args(0..).help(
        "The texts, and then the keys are read from standard input; with - it is that",
    );
    let columns = Arg::new(alloc, "COLUMNS")
        .long("columns")
        .short('c')
        .help("How wide the terminal is; else the variable COLUMNS says it, or the terminal")
        .value_parser(value_parser!(u16).range(1..=65535));
    let rows = Arg::new(alloc, "ROWS")
        .long("rows")
        .short('r')
        .help("How high the terminal is; else the variable LINES says it, or the terminal")
        .value_parser(value_parser!(u16).range(1..=65535));
    Command::new(alloc, "pager")
        .bin_name("pager")?
        .version(VERSION)
        .about(
            "Shows a text page by page, moved by keys; h lists them. +42 begins at line 42, +/WORDS at these words",
        )
        .arg(file)?
        .arg(columns)?
        .arg(rows)
}

/// Returns the columns and rows that the words say.
pub fn given_by(matches: &ArgMatches<'_>) -> Given {
    Given {
        columns: matches.get_one::<u16>("COLUMNS"),
        rows: matches.get_one::<u16>("ROWS"),
    }
}

/// Returns whether the words name no file: the text is standard input's then.
pub fn is_input(matches: &ArgMatches<'_>) -> bool {
    match matches.get_strs("FILE") {
        Some(names) => names.len() == 1 && names.first().copied() == Some("-"),
        None => true,
    }
}
