//! Why a log isn't printed.

use std::fmt;

/// Why a log wasn't read, shown or printed. With any but `Write`, nothing was written.
#[derive(Debug, Clone, Copy, PartialEq, Eq)]
pub enum LogFault {
    /// The first line isn't a size, or there is none.
    Size,
    /// Memory was refused for the line of this number, counted from 1, when all lines before it
    /// were shown; for the screen itself at 1.
    Refused(usize),
    /// The bytes aren't UTF-8.
    NotText,
    /// The reader failed.
    Read,
    /// Memory was refused while the log was read.
    Memory,
    /// The writer failed.
    Write,
}

/// The line for standard error.
impl fmt::Display for LogFault {
    ghost use Rattle.std.specs.Prelude.{Some};
    ghost use Rattle.logview.specs.Engine.{log_fault_text};

    ghost output = { λ fault. Some (log_fault_text fault) };

    fn fmt<W: fmt::Write>(&self, f: &mut fmt::Formatter<W>) -> fmt::Result {
        match self {
            LogFault::Size => f.write_str("line 1: bad size"),
            LogFault::Refused(number) => write!(f, "line {number}: memory"),
            LogFault::NotText => f.write_str("input: not text"),
            LogFault::Read => f.write_str("input: read failed"),
            LogFault::Memory => f.write_str("input: no memory"),
            LogFault::Write => f.write_str("output: write failed"),
        }
    }
}
