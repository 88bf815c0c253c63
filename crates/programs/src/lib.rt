//! What the programs share: their version, and whether a stream of theirs is a terminal.
#![tactic(auto)]

use std::alloc::Alloc;
use std::fs::{self, Files};

/// The version of the programs, and of the libraries below them.
pub const VERSION: &str = "0.1.20";

/// A stream that a program was begun with.
#[derive(Debug, Clone, Copy, PartialEq, Eq)]
pub enum Stream {
    /// Standard input.
    Input,
    /// Standard output.
    Output,
}

// The link by which the system tells what a stream is.
fn link_of(stream: Stream) -> &'static str {
    match stream {
        Stream::Input => "/proc/self/fd/0",
        Stream::Output => "/proc/self/fd/1",
    }
}

/// Returns whether a stream is a terminal. On one a read that finds nothing is a tick; elsewhere it
/// is the end of what is read. What the system doesn't tell is no terminal.
///
/// ```
/// let has_ticks = is_terminal(&rt, Stream::Input);
/// ```
pub fn is_terminal<R: Files + Alloc>(rt: &R, stream: Stream) -> bool {
    match fs::read_link(rt, link_of(stream)) {
        Ok(path) => {
            let path = path.as_path();
            path.starts_with("/dev/pts") || path.starts_with("/dev/tty")
        }
        Err(_) => false,
    }
}
