//! Applications on a terminal that is sent bytes.

ghost use Rattle.std.specs.Prelude.{◌≡◌, true, false, None, OnOk, IfOk};
ghost use Rattle.ratatui_core.specs.Backend.{size_of};
ghost use Rattle.ratatui_core.specs.Terminal.{Stays, FitsEdges, FitsSize, IsBlank, IsFixed};
ghost use Rattle.ratatui_ansi.specs.Backend.{shown_by, is_flushed};
ghost use Rattle.ratatui_app.specs.Glass.{Begins, CanShow, StandsOnGlass, MovesAndAsks, StopsOnGlass};

use crate::application::Application;
use crate::drawing::refresh;
use crate::laws::shown_states_are_on_the_glass;
use ratatui_acts::{Glass, Told};
use ratatui_ansi::{AnsiBackend, AnsiError};
use ratatui_core::backend::Backend;
use ratatui_core::terminal::laws::calls_leave_a_terminal_at_rest;
use ratatui_core::terminal::{Terminal, TerminalError, TerminalOptions, Viewport};
use std::alloc::Global;
use std::io::Write;

// So many empty reads lie between two questions for the size, or between a question that wasn't
// answered and the next one.
const TICKS: u8 = 5;

const MOST_TICKS: u8 = 50;

/// A terminal that is sent bytes, fullscreen or inline, as what shows states. A size that is told
/// it takes, and at every fifth empty read it asks the terminal for its size.
#[derive(Drop)]
pub struct OnGlass<W: Write + Drop> {
    terminal: Terminal<AnsiBackend<W>>,
    // whether the answer to a question for the size is due
    is_due: bool,
    // empty reads since the last question or answer
    waited: u8,
}

// Asks a terminal for its size.
fn ask<W: Write + Drop>(backend: &mut AnsiBackend<W>) -> Result<(), AnsiError>
    ensures shown { OnOk result (shown_by backend.new ≡ shown_by backend.old) }
    ensures flushed { OnOk result (is_flushed backend.new ≡ true) }
    ensures faults { OnOk result (backend.new.failures ≡ backend.old.failures) }
{
    backend.ask_size()?;
    backend.flush()
}

// Begins a terminal that is asked for its size, over a viewport. A backend that can't be asked is
// dropped, which gives the terminal back.
fn begin<W: Write + Drop>(
    alloc: Global,
    viewport: Viewport,
    mut backend: AnsiBackend<W>,
) -> Result<Terminal<AnsiBackend<W>>, TerminalError<AnsiError>>
    requires { FitsEdges viewport }
    ensures begins { IfOk result (Begins viewport backend) }
{
    match backend.ask_size() {
        Ok(()) => {}
        Err(error) => return Err(TerminalError::Backend(error)),
    }
    let terminal = Terminal::with_options(alloc, backend, TerminalOptions { viewport })?;
    Ok(terminal)
}

impl<W: Write + Drop> OnGlass<W> {
    /// Begins a terminal over a viewport, of which the terminal is asked for its size. A state can
    /// be shown on it.
    ///
    /// # Conditions
    ///
    /// The backend's screen is blank, and no call of it has failed, as it is when it was just made;
    /// and the viewport is fullscreen, or inline over a row at least.
    ///
    /// # Errors
    ///
    /// Those of [`AnsiBackend::ask_size`] and [`Terminal::with_options`]. The backend is dropped
    /// then, which gives the terminal back.
    pub fn begin(
        alloc: Global,
        viewport: Viewport,
        backend: AnsiBackend<W>,
    ) -> Result<OnGlass<W>, TerminalError<AnsiError>>
        requires edges { FitsEdges viewport }
        requires free { IsFixed viewport → ⊥ }
        requires fits { FitsSize viewport (size_of (shown_by backend)) }
        requires blank { IsBlank (shown_by backend) }
        requires unfailed { backend.failures ≡ 0 }
        ensures begins { IfOk result (λ glass. Begins viewport backend glass.terminal) }
        ensures asked { IfOk result (λ glass.
            glass ≡ record { terminal = glass.terminal; is_due = true; waited = 0 }) }
        ensures ready { IfOk result (λ glass. CanShow glass.terminal) }
    {
        calls_leave_a_terminal_at_rest::<AnsiBackend<W>>();
        match begin(alloc, viewport, backend) {
            Ok(terminal) => Ok(OnGlass {
                terminal,
                is_due: true,
                waited: 0,
            }),
            Err(error) => Err(error),
        }
    }

    /// Shows states on a terminal.
    pub fn new(terminal: Terminal<AnsiBackend<W>>) -> OnGlass<W>
        ensures { result ≡ record { terminal = terminal; is_due = false; waited = 0 } }
    {
        OnGlass {
            terminal,
            is_due: false,
            waited: 0,
        }
    }

    /// Returns the terminal.
    pub fn terminal(&self) -> &Terminal<AnsiBackend<W>>
        ensures { result.now ≡ self.now.terminal }
    {
        &self.terminal
    }

    /// Returns the terminal again.
    pub fn into_terminal(self) -> Terminal<AnsiBackend<W>>
        ensures { result ≡ self.terminal }
    {
        self.terminal
    }

    // Takes note of an answer.
    fn hear(&mut self, told: Told)
        ensures kept { self.new.terminal ≡ self.old.terminal }
        ensures stays { told.size ≡ None → self.new ≡ self.old }
    {
        if told.size.is_some() {
            self.is_due = false;
            self.waited = 0;
        }
    }

    // Counts an empty read, and asks for the size if it is time to.
    fn tick(&mut self) -> Result<(), AnsiError>
        ensures only { self.new.terminal
            ≡ record self.old.terminal { backend = self.new.terminal.backend } }
        ensures asked { OnOk result (Stays shown_by self.old.terminal self.new.terminal) }
        ensures flushed { is_flushed self.old.terminal.backend ≡ true
            → OnOk result (is_flushed self.new.terminal.backend ≡ true) }
        ensures faults { OnOk result
            (self.new.terminal.backend.failures ≡ self.old.terminal.backend.failures) }
    {
        let limit = if self.is_due { MOST_TICKS } else { TICKS };
        self.waited = self.waited.saturating_add(1);
        if self.waited < limit {
            return Ok(());
        }
        self.is_due = true;
        self.waited = 0;
        ask(self.terminal.backend_mut())
    }

    // Takes note of what was told.
    fn note(&mut self, told: Told) -> Result<(), AnsiError>
        ensures only { self.new.terminal
            ≡ record self.old.terminal { backend = self.new.terminal.backend } }
        ensures asked { OnOk result (Stays shown_by self.old.terminal self.new.terminal) }
        ensures flushed { is_flushed self.old.terminal.backend ≡ true
            → OnOk result (is_flushed self.new.terminal.backend ≡ true) }
        ensures faults { OnOk result
            (self.new.terminal.backend.failures ≡ self.old.terminal.backend.failures) }
        ensures stays { told.came ≡ true → told.size ≡ None → OnOk result (self.new ≡ self.old) }
    {
        self.hear(told);
        if told.came {
            return Ok(());
        }
        self.tick()
    }
}

impl<W: Write + Drop, A: Application> Glass<A> for OnGlass<W> {
    type Error = TerminalError<AnsiError>;

    ghost shows = { λ glass state. StandsOnGlass (A.paints state) (A.cursor state) glass.terminal };

    ghost is_ready = { λ glass. CanShow glass.terminal };

    ghost moves = { λ told glass new. MovesAndAsks told glass.terminal new.terminal };

    ghost lacks = { λ told state glass new error.
        StopsOnGlass (A.paints state) (A.is_short state) (A.cursor state) told
        glass.terminal new.terminal error };

    fn show(&mut self, state: &A, told: Told) -> Result<(), TerminalError<AnsiError>> {
        let is_due = self.is_due;
        match refresh(&mut self.terminal, state, told, is_due) {
            Ok(()) => {}
            Err(error) => return Err(error),
        }
        match self.note(told) {
            Ok(()) => {}
            Err(error) => return Err(TerminalError::Backend(error)),
        }
        shown_states_are_on_the_glass::<W, A>(&self.terminal);
        Ok(())
    }

    ghost shown_is_ready = { λ glass state shows. shows.ready };
}
