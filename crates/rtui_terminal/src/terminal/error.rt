ghost use Rattle.rtui_terminal.specs.Display.{terminal_error_text};

use std::alloc::AllocError;
use std::error::Error;
use std::fmt;

/// Why a call of a terminal was refused.
#[derive(Debug, Clone, Copy, PartialEq, Eq, Hash, Drop)]
pub enum TerminalError<E> {
    /// A call of the backend failed; one more of its failures is counted.
    Backend(E),
    /// Memory was refused, or the closure answered so.
    Memory,
    /// A buffer's area isn't the viewport's.
    Area,
    /// The closure of `try_draw` answered this error.
    Closure(E),
}

impl<E: fmt::Display> fmt::Display for TerminalError<E> {
    ghost output = { terminal_error_text E.output };

    fn fmt<W: fmt::Write>(&self, f: &mut fmt::Formatter<W>) -> fmt::Result {
        match self {
            TerminalError::Backend(error) => write!(f, "backend: {error}"),
            TerminalError::Memory => write!(f, "no memory"),
            TerminalError::Area => write!(f, "buffer area"),
            TerminalError::Closure(error) => write!(f, "closure: {error}"),
        }
    }
}

impl<E: Error> Error for TerminalError<E> {}

impl<E> From<AllocError> for TerminalError<E> {
    ghost use Rattle.std.specs.Prelude.{◌≡◌};
    ghost use Rattle.rtui_terminal.specs.declared.terminal.error.TerminalError.TheVariants.{Memory};

    ghost from_gives = { λ _ error. error ≡ Memory };

    fn from(_: AllocError) -> Self {
        TerminalError::Memory
    }
}
