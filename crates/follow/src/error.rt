//! Why a text is not shown to its end.
use ratatui_ansi::AnsiError;
use ratatui_core::terminal::TerminalError;
use std::alloc::AllocError;
use std::io;
use thiserror::Error;

/// Why a text is not shown to its end.
#[derive(Debug, Drop, Error)]
pub enum FollowError {
    /// The terminal refused a line, memory was refused, or a line can't be written.
    #[error("{0}")]
    Terminal(TerminalError<AnsiError>),
    /// The text can't be read.
    #[error("standard input: {0}")]
    Read(io::Error),
    /// What gives the terminal back can't be written.
    #[error("standard output: {0}")]
    Write(io::Error),
    /// There are more lines than can be counted.
    #[error("too many lines")]
    Lines,
}

impl From<TerminalError<AnsiError>> for FollowError {
    ghost use Rattle.std.specs.Prelude.{◌≡◌};
    ghost use Rattle.follow.specs.declared.error.FollowError.TheVariants.{Terminal};

    ghost from_gives = { λ error fault. fault ≡ Terminal error };

    fn from(error: TerminalError<AnsiError>) -> FollowError {
        FollowError::Terminal(error)
    }
}

impl From<AllocError> for FollowError {
    ghost use Rattle.std.specs.Prelude.{◌≡◌};
    ghost use Rattle.ratatui_core.specs.Terminal.{Memory};
    ghost use Rattle.follow.specs.declared.error.FollowError.TheVariants.{Terminal};

    ghost from_gives = { λ _ fault. fault ≡ Terminal Memory };

    fn from(_: AllocError) -> FollowError {
        FollowError::Terminal(TerminalError::Memory)
    }
}
