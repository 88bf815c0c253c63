//! The size of the window, followed by a loop by hand.

use ratatui_ansi::{AnsiBackend, AnsiError};
use ratatui_core::backend::Backend;
use ratatui_core::layout::Size;
use ratatui_core::terminal::{Terminal, TerminalError};
use ratatui_events::Event;
use ratatui_reads::size_in;
use std::io::Write;

// How many ticks come between two questions for the size: half a second of them.
const TICKS: u8 = 5;

// How many ticks came since the terminal was asked for its size.
#[derive(Debug, Drop)]
pub struct Window {
    ticks: u8,
}

impl Window {
    pub fn new() -> Window {
        Window { ticks: TICKS }
    }

    // On a tick the terminal is asked for its size, if it is time for that; the answer is an event.
    // A size that an event tells is the backend's, and the next draw finds it.
    pub fn follow<W: Write + Drop>(
        &mut self,
        event: Option<Event>,
        terminal: &mut Terminal<AnsiBackend<W>>,
    ) -> Result<(), TerminalError<AnsiError>> {
        match event {
            None => self.tick(terminal.backend_mut()),
            Some(event) => take(event, terminal.backend_mut()),
        }
        .map_err(TerminalError::Backend)
    }

    fn tick<W: Write + Drop>(&mut self, backend: &mut AnsiBackend<W>) -> Result<(), AnsiError> {
        self.ticks = self.ticks.saturating_add(1);
        if self.ticks < TICKS {
            return Ok(());
        }
        self.ticks = 0;
        backend.ask_size()?;
        backend.flush()
    }
}

// Takes the size that an event tells, if it tells one.
fn take<W: Write + Drop>(event: Event, backend: &mut AnsiBackend<W>) -> Result<(), AnsiError> {
    match size_in(event) {
        Some((width, height)) => backend.resize(Size { width, height }),
        None => Ok(()),
    }
}
