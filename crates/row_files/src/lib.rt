//! Rows of commands to files, and the answers that they are to give.
//!
//! The commands are done to the system's files and to a tree in memory, and both answers are
//! compared. A row is a command, ` = `, and its answer: `write notes/a hello = done`. A line
//! `# NAME` begins a group, for which a folder is made anew, and the tree is empty. The path `.` is
//! the folder itself. Entries of a folder are told in order, a folder with a slash after its name, a
//! file with its size. In memory one command of each group fails, and is given again; so is each
//! that was refused memory.
#![tactic(auto)]

mod both;
mod commands;
mod told;

use crate::both::Both;
use std::io;

/// Does the commands of a text in a folder, and prints how many rows of each group hold, and each
/// row that doesn't with what was answered; returns how many don't.
pub fn check(rt: &HostRuntime, text: &str, folder: &str) -> io::Result<usize> {
    let mut both = Both::new(rt, folder)?;
    for line in text.lines() {
        both.take(line)?;
    }
    both.end_group()?;
    let report = both.report.as_str();
    let (held, differ) = (both.held, both.differ);
    println!(rt; "{report}files: {held} rows hold, {differ} differ")?;
    Ok(differ)
}
