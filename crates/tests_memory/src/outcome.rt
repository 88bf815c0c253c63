//! What comes of a case.
use std::alloc::{AllocError, Global};
use std::fmt;

/// What came of a call to which memory may be refused.
#[derive(Debug, Clone, Copy, PartialEq, Eq)]
pub enum Outcome {
    /// It was accepted.
    Accepted,
    /// Memory was refused to it, what it must leave stands, and the same call was then accepted.
    Held,
    /// The same, and it said before which step.
    HeldAt(usize),
    /// Something else stands than should.
    Broken,
}

impl fmt::Display for Outcome {
    fn fmt<W: fmt::Write>(&self, f: &mut fmt::Formatter<W>) -> fmt::Result {
        match self {
            Outcome::Accepted => f.write_str("accepted"),
            Outcome::Held => f.write_str("refused, and as it was"),
            Outcome::HeldAt(step) => write!(f, "refused at step {step}, and as it was"),
            Outcome::Broken => f.write_str("broken"),
        }
    }
}

/// Returns what came of a call that was refused or not, left what it should or not, and was right
/// when it was made again or not.
pub fn judged(is_refused: bool, is_left: bool, is_right: bool) -> Outcome {
    if !is_left || !is_right {
        Outcome::Broken
    } else if is_refused {
        Outcome::Held
    } else {
        Outcome::Accepted
    }
}

/// Returns the same of a play, by the step before which it was refused, if it was.
pub fn judged_at(refused: Option<usize>, is_left: bool, is_right: bool) -> Outcome {
    match refused {
        Some(step) if is_left && is_right => Outcome::HeldAt(step),
        _ => judged(refused.is_some(), is_left, is_right),
    }
}

/// A symbol of 25 bytes, which takes memory.
pub const LONG: &str = "\u{1F468}\u{200D}\u{1F469}\u{200D}\u{1F467}\u{200D}\u{1F466}";

/// The cases of a module: calls that take memory, each with a name.
pub trait Cases {
    /// Returns the names, in the order of the cases' numbers. The name of a case whose call takes
    /// no memory ends in `: no memory`.
    fn names() -> &'static [&'static str];

    /// Returns what came of the case of this number.
    ///
    /// # Errors
    ///
    /// `AllocError` if memory was refused before the call.
    fn outcome_of(alloc: Global, number: usize) -> Result<Outcome, AllocError>;
}
