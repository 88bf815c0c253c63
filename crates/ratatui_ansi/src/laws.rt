//! Laws of the bytes and of the model that are no single call's clause. Calling one of these
//! functions costs nothing and tells the caller's proof its law.

ghost use Rattle.std.specs.Prelude.{ℕ, ◌+◌, ◌<◌, ◌≤◌, Bool, List};
ghost use Rattle.ratatui_core.specs.Layout.{Position};
ghost use Rattle.ratatui_core.specs.Backend.{Screen};
ghost use Rattle.ratatui_core.specs.Buffer.{Update, Cell, cell_at, IsDiff, IsSettled, Shows};
ghost use Rattle.ratatui_ansi.specs.Covered.{IsOpen, IsOrdinary};
ghost use Rattle.ratatui_ansi.specs.Refusals.{StopsInDiff};
ghost use Rattle.ratatui_ansi.specs.declared.draw.CellError.TheVariants.{Cut};
ghost use Rattle.ratatui_ansi.specs.Headline.{IsHeadlineOfBytes};

use crate::backend::AnsiBackend;
use ratatui_core::terminal::Terminal;
use ratatui_core::terminal::laws::every_call_is_faithful;
use std::io::Write;

/// The headline, of the bytes: from in step, after any list of calls of a terminal that answered
/// Ok, each painted and inserted buffer settled, and unless a write failed since the backend began
/// or began again, each terminal of its size that reads what was sent since shows the buffer that
/// the last call left, however it was left before: its whole screen is the backend's, with the rows
/// above, what lies outside a fixed viewport, the cursor and whether that is shown. The model is
/// sure of all that it read.
pub fn bytes_show_the_last_buffer<W: Write + Drop>(terminal: &Terminal<AnsiBackend<W>>)
    ensures { IsHeadlineOfBytes terminal.now }
{
    every_call_is_faithful::<AnsiBackend<W>>();
    let _writer = terminal.backend().writer();
}

/// If a screen shows a settled frame, and no symbol reaches into the frame's area from the left, no
/// draw of the diff to another settled frame, of ordinary cells, is refused with `Cut`.
pub fn updates_cut_no_symbol()
    ensures { (x y w h : ℕ) (former next : List Cell) (us : List Update) (s : Screen)
        (colors : Bool) (p : Position) → IsDiff x y w h former next us
        → IsSettled w h former → IsSettled w h next
        → ((a b : ℕ) → a < w → b < h → IsOrdinary (cell_at w next a b))
        → x + w ≤ s.width → y + h ≤ s.height
        → Shows x y w h former s.grid → IsOpen s.grid x y h
        → StopsInDiff us colors s (Cut p) → ⊥ }
{}
