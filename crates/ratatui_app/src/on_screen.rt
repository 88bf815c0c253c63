//! Applications on a terminal over any backend.

ghost use Rattle.std.specs.Prelude.{◌≡◌, IfOk};
ghost use Rattle.ratatui_core.specs.Backend.{size_of};
ghost use Rattle.ratatui_core.specs.Terminal.{Starts, FitsEdges, FitsSize, IsBlank, IsFixed};
ghost use Rattle.ratatui_app.specs.Showing.{RestsUnfixed, ShowsPage};
ghost use Rattle.ratatui_app.specs.Moving.{MovesAsTold, StopsShowing};

use crate::application::Application;
use crate::drawing::refresh;
use ratatui_acts::{Glass, Told};
use ratatui_core::backend::Resizable;
use ratatui_core::terminal::laws::calls_leave_a_terminal_at_rest;
use ratatui_core::terminal::{Terminal, TerminalError, TerminalOptions, Viewport};
use std::alloc::Global;

/// A terminal over any backend, fullscreen or inline, as what shows states: the screen shows them.
/// A size that is told it takes.
#[derive(Drop)]
pub struct OnScreen<B: Resizable + Drop> {
    terminal: Terminal<B>,
}

impl<B: Resizable + Drop> OnScreen<B> {
    /// Begins a terminal over a viewport. A state can be shown on it.
    ///
    /// # Conditions
    ///
    /// The backend's screen is blank; and the viewport is fullscreen, or inline over a row at
    /// least.
    ///
    /// # Errors
    ///
    /// Those of [`Terminal::with_options`].
    pub fn begin(
        alloc: Global,
        viewport: Viewport,
        backend: B,
    ) -> Result<OnScreen<B>, TerminalError<B::Error>>
        requires edges { FitsEdges viewport }
        requires free { IsFixed viewport → ⊥ }
        requires fits { FitsSize viewport (size_of (B.screen backend)) }
        requires blank { IsBlank (B.screen backend) }
        ensures starts { IfOk result (λ glass. Starts B.screen viewport backend glass.terminal) }
        ensures ready { IfOk result (λ glass. RestsUnfixed B.screen glass.terminal) }
    {
        calls_leave_a_terminal_at_rest::<B>();
        match Terminal::with_options(alloc, backend, TerminalOptions { viewport }) {
            Ok(terminal) => Ok(OnScreen { terminal }),
            Err(error) => Err(error),
        }
    }

    /// Shows states on a terminal.
    pub fn new(terminal: Terminal<B>) -> OnScreen<B>
        ensures { result ≡ record { terminal = terminal } }
    {
        OnScreen { terminal }
    }

    /// Returns the terminal.
    pub fn terminal(&self) -> &Terminal<B>
        ensures { result.now ≡ self.now.terminal }
    {
        &self.terminal
    }

    /// Returns the terminal again.
    pub fn into_terminal(self) -> Terminal<B>
        ensures { result ≡ self.terminal }
    {
        self.terminal
    }
}

impl<B: Resizable + Drop, A: Application> Glass<A> for OnScreen<B> {
    type Error = TerminalError<B::Error>;

    ghost shows = { λ glass state.
        ShowsPage B.Backend (A.paints state) (A.cursor state) glass.terminal };

    ghost is_ready = { λ glass. RestsUnfixed B.screen glass.terminal };

    ghost moves = { λ told glass new. MovesAsTold B.Backend told glass.terminal new.terminal };

    ghost lacks = { λ told state glass new error.
        StopsShowing B.Backend (A.paints state) (A.is_short state) (A.cursor state) told
        glass.terminal new.terminal error };

    fn show(&mut self, state: &A, told: Told) -> Result<(), TerminalError<B::Error>> {
        refresh(&mut self.terminal, state, told, false)
    }

    ghost shown_is_ready = { λ glass state shows. shows.rest };
}
