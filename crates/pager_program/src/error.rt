//! Why a text isn't shown.

use pager::TextError;
use ratatui_acts::Fault;
use ratatui_ansi::AnsiError;
use ratatui_core::terminal::TerminalError;
use std::io;

/// Why a text isn't shown, or not to its end.
#[derive(Debug, Drop)]
pub enum PagerError {
    /// The text can't be read.
    Read(io::Error),
    /// It has no lines that can be counted.
    Text(TextError),
    /// The terminal's keys can't be read.
    Keys(io::Error),
    /// Standard output can't be written.
    Write(io::Error),
    /// Memory was refused.
    Memory,
    /// The terminal can't be begun or given back.
    Terminal(TerminalError<AnsiError>),
    /// The run stopped.
    Run(Fault<TerminalError<AnsiError>>),
}

impl PagerError {
    /// Says why a run stopped: what is outside of it is the text alone.
    pub fn ended(fault: Fault<TerminalError<AnsiError>>) -> PagerError {
        match fault {
            Fault::Outside(error) => PagerError::Read(error),
            fault => PagerError::Run(fault),
        }
    }

    /// Tells it in one line of standard error.
    pub fn tell(self, rt: &HostRuntime, name: &str) -> io::Result<()> {
        match self {
            PagerError::Read(error) => eprintln!(rt; "pager: {name}: {error}"),
            PagerError::Text(error) => eprintln!(rt; "pager: {name}: {error}"),
            PagerError::Keys(error) => eprintln!(rt; "pager: /dev/tty: {error}"),
            PagerError::Write(error) => eprintln!(rt; "pager: standard output: {error}"),
            PagerError::Memory => eprintln!(rt; "pager: no memory"),
            PagerError::Terminal(error) => eprintln!(rt; "pager: {error}"),
            PagerError::Run(error) => eprintln!(rt; "pager: {error}"),
        }
    }
}
