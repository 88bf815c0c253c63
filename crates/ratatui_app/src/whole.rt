//! Runs from beginning to end.

ghost use Rattle.std.specs.Prelude.{◌≡◌, ◌<◌, OnOk, IfOk, IfErr};
ghost use Rattle.ratatui_core.specs.Terminal.{Fullscreen, Inline, FitsEdges, FitsSize, IsBlank};
ghost use Rattle.ratatui_core.specs.Terminal.{IsFixed};
ghost use Rattle.ratatui_core.specs.Backend.{size_of};
ghost use Rattle.ratatui_ansi.specs.Backend.{shown_by};
ghost use Rattle.ratatui_acts.specs.Seats.{seated};
ghost use Rattle.ratatui_app.specs.Glass.{IsGivenBack};
ghost use Rattle.ratatui_app.specs.Runs.{on_glass, RunsThrough, StopsThrough};

use crate::application::Application;
use crate::on_glass::OnGlass;
use ratatui_acts::{Fault, Hears, Outside, Seat, run};
use ratatui_ansi::{AnsiBackend, AnsiError};
use ratatui_core::terminal::{Terminal, TerminalError, Viewport};
use std::alloc::Global;
use std::io::Write;

/// What a run left: the writer, which has sent all on, and how it ended.
#[derive(Drop)]
pub struct Left<W> {
    /// The writer.
    pub writer: W,
    /// `Ok` if the application is over, or nothing more came; else what stopped it.
    pub ended: Result<(), Fault<TerminalError<AnsiError>>>,
}

// Gives a terminal back.
fn leave<W: Write + Drop>(terminal: Terminal<AnsiBackend<W>>) -> Result<W, AnsiError>
    ensures { terminal.backend.failures ≡ 0
        → IfOk result (λ writer. IsGivenBack terminal.backend (W.contents writer)) }
{
    let _unbroken = terminal.backend().writer();
    terminal.into_backend().leave()
}

// Runs an application over a viewport, from beginning to end.
fn run_over<W: Write + Drop, A: Application, H: Hears<A, OnGlass<W>>, O: Outside<A, OnGlass<W>>>(
    alloc: Global,
    viewport: Viewport,
    ears: &mut H,
    outside: &mut O,
    has_ticks: bool,
    backend: AnsiBackend<W>,
    seat: &mut Seat<A>,
) -> Result<Left<W>, TerminalError<AnsiError>>
    requires edges { FitsEdges viewport }
    requires free { IsFixed viewport → ⊥ }
    requires fits { FitsSize viewport (size_of (shown_by backend)) }
    requires blank { IsBlank (shown_by backend) }
    requires unfailed { backend.failures ≡ 0 }
    ensures runs { IfOk result (λ left. OnOk left.ended (RunsThrough
        (on_glass A.Acts A.paints A.is_short A.cursor H.gives H.fails O.answers) viewport backend has_ticks
        (seated seat.old) ears.old outside.old (seated seat.new) ears.new outside.new
        (W.contents left.writer))) }
    ensures stops { IfOk result (λ left. IfErr left.ended (λ fault. StopsThrough
        (on_glass A.Acts A.paints A.is_short A.cursor H.gives H.fails O.answers) viewport backend fault
        (seated seat.old) ears.old outside.old (seated seat.new) ears.new outside.new
        (W.contents left.writer))) }
{
    let mut glass = OnGlass::begin(alloc, viewport, backend)?;
    let ended = run(ears, outside, has_ticks, &mut glass, seat);
    match leave(glass.into_terminal()) {
        Ok(writer) => Ok(Left { writer, ended }),
        Err(error) => Err(TerminalError::Backend(error)),
    }
}

/// Runs an application on a terminal that is sent bytes, from beginning to end: asks the terminal
/// for its size, runs as [`run`] does, and gives the terminal back, also after a fault. The
/// terminal's answers are read as any other event.
///
/// # Conditions
///
/// The backend's screen is blank, and no call of it has failed, as it is when it was just made.
///
/// # Errors
///
/// If the terminal can't be asked, begun or given back. What stopped the run is told beside the
/// writer.
pub fn run_and_leave<
    W: Write + Drop,
    A: Application,
    H: Hears<A, OnGlass<W>>,
    O: Outside<A, OnGlass<W>>,
>(
    alloc: Global,
    ears: &mut H,
    outside: &mut O,
    has_ticks: bool,
    backend: AnsiBackend<W>,
    seat: &mut Seat<A>,
) -> Result<Left<W>, TerminalError<AnsiError>>
    requires blank { IsBlank (shown_by backend) }
    requires unfailed { backend.failures ≡ 0 }
    ensures runs { IfOk result (λ left. OnOk left.ended (RunsThrough
        (on_glass A.Acts A.paints A.is_short A.cursor H.gives H.fails O.answers) Fullscreen backend has_ticks
        (seated seat.old) ears.old outside.old (seated seat.new) ears.new outside.new
        (W.contents left.writer))) }
    ensures stops { IfOk result (λ left. IfErr left.ended (λ fault. StopsThrough
        (on_glass A.Acts A.paints A.is_short A.cursor H.gives H.fails O.answers) Fullscreen backend fault
        (seated seat.old) ears.old outside.old (seated seat.new) ears.new outside.new
        (W.contents left.writer))) }
{
    run_over(
        alloc,
        Viewport::Fullscreen,
        ears,
        outside,
        has_ticks,
        backend,
        seat,
    )
}

/// Runs an application as [`run_and_leave`] does, on so many rows at the cursor.
///
/// # Conditions
///
/// Those of [`run_and_leave`], and there is a row at least.
///
/// # Errors
///
/// Those of [`run_and_leave`].
pub fn run_inline_and_leave<
    W: Write + Drop,
    A: Application,
    H: Hears<A, OnGlass<W>>,
    O: Outside<A, OnGlass<W>>,
>(
    alloc: Global,
    rows: u16,
    ears: &mut H,
    outside: &mut O,
    has_ticks: bool,
    backend: AnsiBackend<W>,
    seat: &mut Seat<A>,
) -> Result<Left<W>, TerminalError<AnsiError>>
    requires rows { 0 < rows }
    requires blank { IsBlank (shown_by backend) }
    requires unfailed { backend.failures ≡ 0 }
    ensures runs { IfOk result (λ left. OnOk left.ended (RunsThrough
        (on_glass A.Acts A.paints A.is_short A.cursor H.gives H.fails O.answers) (Inline rows) backend
        has_ticks (seated seat.old) ears.old outside.old (seated seat.new) ears.new
        outside.new (W.contents left.writer))) }
    ensures stops { IfOk result (λ left. IfErr left.ended (λ fault. StopsThrough
        (on_glass A.Acts A.paints A.is_short A.cursor H.gives H.fails O.answers) (Inline rows) backend fault
        (seated seat.old) ears.old outside.old (seated seat.new) ears.new outside.new
        (W.contents left.writer))) }
{
    run_over(
        alloc,
        Viewport::Inline(rows),
        ears,
        outside,
        has_ticks,
        backend,
        seat,
    )
}
