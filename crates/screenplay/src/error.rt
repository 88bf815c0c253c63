//! Why a script isn't printed.

use crate::scene::{PlayCause, StepError};
use std::fmt;

/// Why a script wasn't read, played or printed. With any but `Write`, nothing was written.
#[derive(Debug, Drop)]
pub enum RunError {
    /// The line of this number, counted from 1, is the first bad one.
    Line(usize),
    /// A step couldn't be played.
    Step(StepError),
    /// The bytes aren't UTF-8.
    NotText,
    /// The reader failed.
    Read,
    /// Memory was refused while the script was read or taken apart, or for its text.
    Memory,
    /// The writer failed.
    Write,
}

/// The line for standard error.
impl fmt::Display for RunError {
    ghost use Rattle.std.specs.Prelude.{Some};
    ghost use Rattle.screenplay.specs.Engine.{run_error_text};

    ghost output = { λ fault. Some (run_error_text fault) };

    fn fmt<W: fmt::Write>(&self, f: &mut fmt::Formatter<W>) -> fmt::Result {
        match self {
            RunError::Line(number) => write!(f, "line {number}: bad command"),
            RunError::Step(fault) => {
                let step = fault.step;
                match fault.cause {
                    PlayCause::Memory => write!(f, "step {step}: memory"),
                    PlayCause::Unsettled(_) => write!(f, "step {step}: unsettled"),
                }
            }
            RunError::NotText => f.write_str("input: not text"),
            RunError::Read => f.write_str("input: read failed"),
            RunError::Memory => f.write_str("input: no memory"),
            RunError::Write => f.write_str("output: write failed"),
        }
    }
}
