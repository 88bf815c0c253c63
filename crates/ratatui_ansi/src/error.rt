//! Why a backend's call failed.

ghost use Rattle.ratatui_ansi.specs.Errors.{ansi_error_text};

use crate::draw::CellError;
use ratatui_core::layout::Position;
use std::alloc::AllocError;
use std::error::Error;
use std::{fmt, io};

/// Why a call of an `AnsiBackend` failed. Only after `Broken` and `Write` is it unknown what the
/// terminal shows.
#[derive(Debug, Drop)]
pub enum AnsiError {
    /// Memory was refused, and nothing was sent.
    Memory,
    /// The symbol in this place isn't shown as one by terminals, or not in the columns that its
    /// cell takes; nothing was sent.
    Symbol(Position),
    /// The style in this place can't be sent to terminals; nothing was sent.
    Style(Position),
    /// What is drawn or emptied in this place would cut a symbol whose first column stays; nothing
    /// was sent.
    Cut(Position),
    /// The screen would have no columns or no rows.
    Size,
    /// An earlier call failed to write.
    Broken,
    /// The writer failed.
    Write(io::Error),
}

impl fmt::Display for AnsiError {
    ghost output = { ansi_error_text };

    fn fmt<W: fmt::Write>(&self, f: &mut fmt::Formatter<W>) -> fmt::Result {
        match self {
            AnsiError::Memory => write!(f, "no memory"),
            AnsiError::Symbol(position) => write!(f, "symbol at {position}"),
            AnsiError::Style(position) => write!(f, "style at {position}"),
            AnsiError::Cut(position) => write!(f, "symbol cut at {position}"),
            AnsiError::Size => write!(f, "no columns or rows"),
            AnsiError::Broken => write!(f, "broken"),
            AnsiError::Write(error) => write!(f, "write: {error}"),
        }
    }
}

impl Error for AnsiError {}

impl From<AllocError> for AnsiError {
    ghost use Rattle.std.specs.Prelude.{◌≡◌};
    ghost use Rattle.ratatui_ansi.specs.declared.error.AnsiError.TheVariants.{Memory};

    ghost from_gives = { λ _ error. error ≡ Memory };

    fn from(_: AllocError) -> AnsiError {
        AnsiError::Memory
    }
}

impl From<io::Error> for AnsiError {
    ghost use Rattle.std.specs.Prelude.{◌≡◌};
    ghost use Rattle.ratatui_ansi.specs.declared.error.AnsiError.TheVariants.{Write};

    ghost from_gives = { λ given error. error ≡ Write given };

    fn from(error: io::Error) -> AnsiError {
        AnsiError::Write(error)
    }
}

impl From<CellError> for AnsiError {
    ghost use Rattle.std.specs.Prelude.{◌≡◌};
    ghost use Rattle.ratatui_ansi.specs.Errors.{error_of};

    ghost from_gives = { λ refusal error. error ≡ error_of refusal };

    fn from(refusal: CellError) -> AnsiError {
        match refusal {
            CellError::Memory => AnsiError::Memory,
            CellError::Symbol(place) => AnsiError::Symbol(place),
            CellError::Style(place) => AnsiError::Style(place),
            CellError::Cut(place) => AnsiError::Cut(place),
        }
    }
}
