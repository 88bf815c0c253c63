//! Laws of applications.

ghost use Rattle.std.specs.Prelude.{◌≡◌, [], ℕ, List};
ghost use Rattle.ratatui_acts.specs.Turns.{Turn, turn_size};
ghost use Rattle.ratatui_acts.specs.Runs.{Now, IsTurn, StopsTurning};
ghost use Rattle.ratatui_acts.specs.declared.fault.Fault.TheVariants as fault;
ghost use Rattle.ratatui_core.specs.Terminal.{Memory, TerminalData};
ghost use Rattle.ratatui_core.specs.Buffer.{IsSameBuffer};
ghost use Rattle.ratatui_ansi.specs.Backend.{BackendState};
ghost use Rattle.ratatui_app.specs.declared.counter.Counter.{Counter as CounterData};
ghost use Rattle.ratatui_app.specs.{Counting.PaintsCounter, Lines.PaintsFirstLine, OneFrame.HasOneFrame};
ghost use Rattle.ratatui_app.specs.declared.on_glass.OnGlass.{OnGlass as OnGlassData};
ghost use Rattle.ratatui_app.specs.Showing.{ShowsPage};
ghost use Rattle.ratatui_app.specs.Glass.{sender, CanShow, StandsOnGlass, HasSizeTold};
ghost use Rattle.ratatui_app.specs.Light.{TakesNoMemory, StopsAtOtherSize};
ghost use Rattle.ratatui_app.specs.Runs.{on_glass};

use crate::application::Application;
use crate::on_glass::OnGlass;
use ratatui_acts::laws::light_messages_are_never_refused;
use ratatui_acts::{Hears, Outside};
use ratatui_ansi::AnsiBackend;
use ratatui_ansi::laws::bytes_show_the_last_buffer;
use ratatui_core::terminal::Terminal;
use ratatui_core::terminal::laws::calls_leave_a_terminal_at_rest;
use ratatui_reads::laws::told_sizes_have_cells;
use std::io::Write;

/// A state that a terminal shows stands on the glass of each terminal that has read what was sent,
/// with its cursor, if no call has failed.
pub fn shown_states_are_on_the_glass<W: Write + Drop, A: Application>(
    terminal: &Terminal<AnsiBackend<W>>,
)
    ensures { (s : A) → ShowsPage sender (A.paints s) (A.cursor s) terminal.now
        → terminal.now.backend.failures ≡ 0
        → StandsOnGlass (A.paints s) (A.cursor s) terminal.now }
{
    bytes_show_the_last_buffer(terminal);
    let _writer = terminal.backend().writer();
}

/// A state that has one frame has it on every glass. Wherever it stands, over viewports of one area,
/// the same is shown.
pub fn the_frame_of_a_state_is_one<W: Write + Drop, A: Application>()
    ensures { (s : A) → HasOneFrame (A.paints s)
        → (t u : TerminalData (BackendState W)) → u.viewport_area ≡ t.viewport_area
        → StandsOnGlass (A.paints s) (A.cursor s) t → StandsOnGlass (A.paints s) (A.cursor s) u
        → IsSameBuffer t.previous u.previous }
{}

/// A line of text has one frame, and so has each number that is counted.
pub fn lines_have_one_frame()
    ensures lines { (text : List ℕ) → HasOneFrame (PaintsFirstLine text) }
    ensures numbers { (c : CounterData) → HasOneFrame (PaintsCounter c) }
{}

/// After each turn of a run the screen has the size that the turn told last; if it told none, it has
/// the one that it had.
pub fn told_sizes_are_the_screens<
    W: Write + Drop,
    A: Application,
    H: Hears<A, OnGlass<W>>,
    O: Outside<A, OnGlass<W>>,
>()
    ensures { (before after : Now A (OnGlassData W) H O) (turn : Turn A.Command A.Answer)
        → IsTurn (on_glass A.Acts A.paints A.is_short A.cursor H.gives H.fails O.answers) before turn after
        → HasSizeTold (turn_size before.standing turn)
        before.glass.terminal after.glass.terminal }
{
    told_sizes_have_cells();
}

/// A run of an application that takes no memory, by its messages or its paintings, is never refused
/// any while the screen keeps its size: it never stops by `Memory`; and it stops by `Show` of the
/// terminal's own want of memory only at the frame of a turn that told another size, of which the
/// terminal needs larger buffers. What the backend fails at stays a failure of the backend.
pub fn light_applications_are_never_refused<
    W: Write + Drop,
    A: Application,
    H: Hears<A, OnGlass<W>>,
    O: Outside<A, OnGlass<W>>,
>()
    ensures messages { let basis = on_glass A.Acts A.paints A.is_short A.cursor
        H.gives H.fails O.answers in
        TakesNoMemory A.Acts A.is_short
        → (before after : Now A (OnGlassData W) H O) → before.standing.left ≡ []
        → StopsTurning basis before after fault.Memory → ⊥ }
    ensures frames { let basis = on_glass A.Acts A.paints A.is_short A.cursor
        H.gives H.fails O.answers in
        TakesNoMemory A.Acts A.is_short
        → (before after : Now A (OnGlassData W) H O) → CanShow before.glass.terminal
        → StopsTurning basis before after (fault.Show Memory)
        → StopsAtOtherSize basis before after }
{
    light_messages_are_never_refused::<A, OnGlass<W>, H, O>();
    calls_leave_a_terminal_at_rest::<AnsiBackend<W>>();
}
