//! Rows of bytes, and the events that they are to give.
//!
//! A row, as `ESC [ 1 ; 5 A = Ctrl+Up`, has the bytes, `=`, and the events, with a comma between
//! two. A byte is an ASCII character itself, two hexadecimal digits, or a name: `ESC`, `SP`, `CR`,
//! `LF`, `TAB`, `DEL`. `TICK` is no byte: nothing comes for a while. The bytes between come at once,
//! and after a row nothing comes for a while. `...` stands for what has come of an event that isn't
//! whole. A line `# NAME` begins a group. The text of each key is read again, too, and has to give
//! that key.
#![tactic(auto)]

mod rows;

use crate::rows::Tally;
use std::io;

/// Prints how many rows of each group of a text hold, and each row that doesn't with what is told;
/// returns how many don't.
pub fn check(rt: &HostRuntime, text: &str) -> io::Result<usize> {
    let mut tally = Tally::new(rt.alloc());
    for line in text.lines() {
        tally.take(rt.alloc(), line)?;
    }
    tally.end_group(rt.alloc())?;
    let report = tally.report.as_str();
    let (held, differ) = (tally.held, tally.differ);
    println!(rt; "{report}keys: {held} rows hold, {differ} differ")?;
    Ok(differ)
}
