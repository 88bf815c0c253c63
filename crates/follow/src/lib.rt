//! Shows a text line by line above a status line of a terminal, as it comes.
//!
//! [`follow`] reads to the end, sends escape sequences for a terminal of a given size, and gives
//! the terminal back. A line is read whole, and looked at as far as its row shows it ([`show_line`]).
//! What a line's row is, and what a push leaves on the screen, is `logview`'s; that the bytes show
//! that screen is `ratatui_ansi`'s. `specs/Lines` says how a line is shown, `specs/Ends` why the
//! text isn't shown to its end. The program `follow_program` follows its standard input.
#![tactic(auto)]

ghost use Rattle.std.specs.Prelude.{◌≡◌, ◌+◌, [], Some, IfOk, IfErr, IfSome, OnOk};
ghost use Rattle.std.specs.Io.KnownBytes.{Appends};
ghost use Rattle.ratatui_ansi.specs.Backend.{shown_by, IsAlwaysKnown};
ghost use Rattle.ratatui_ansi.specs.Refusals.{StopsSending};
ghost use Rattle.logview.specs.Rows.{counted};
ghost use Rattle.logview.specs.Views.{IsFollowing, IsViewOf, PushesLine, RefusesPush};
ghost use Rattle.follow.specs.Lines.{shown_line};
ghost use Rattle.follow.specs.Inner.{MovesOn, ShowsInput};
ghost use Rattle.follow.specs.Shown.{FollowsText};
ghost use Rattle.follow.specs.Ends.{EndsBy};
ghost use Rattle.follow.specs.Inner.{StopsAtNext, StopsText, IsOfShowing};

mod error;
mod shown;

use ansi_model::leaving;
pub use error::FollowError;
use logview::LogView;
use ratatui_ansi::{AnsiBackend, AnsiError};
use ratatui_core::terminal::TerminalError;
use rtui_geometry::Size;
pub use shown::show_line;
use std::alloc::Global;
use std::io::{self, BufRead, Write};

// Shows a line in a row of its own, of which `shown` holds what the row shows.
fn push_row<W: Write + Drop>(
    view: &mut LogView<AnsiBackend<W>>,
    shown: &mut String,
    line: &str,
) -> Result<(), TerminalError<AnsiError>>
    ensures pushed { IsFollowing shown_by view.old
        → OnOk result (PushesLine shown_by (shown_line line.now) view.old view.new) }
    ensures count { OnOk result (view.new.count ≡ counted (view.old.count + 1)) }
    ensures refused { IsFollowing shown_by view.old
        → IfErr result (RefusesPush shown_by StopsSending (shown_line line.now)
        view.old view.new) }
    ensures calls { OnOk result
        (view.new.terminal.backend.failures ≡ view.old.terminal.backend.failures) }
{
    let columns = view.terminal().viewport_area().width;
    let Ok(()) = show_line(shown, line, columns) else {
        return Err(TerminalError::Memory);
    };
    view.push(shown.as_str())
}

// Shows one more line of a reader; answers whether there was one.
fn push_line<R: BufRead, W: Write + Drop>(
    reader: &mut R,
    view: &mut LogView<AnsiBackend<W>>,
    line: &mut String,
    shown: &mut String,
) -> Result<bool, FollowError>
    ensures ok { IfOk result (λ is_more. IfSome (R.remaining reader.old) (λ text.
        MovesOn text is_more (R.remaining reader.new) view.old view.new)) }
    ensures stopped { IfErr result (λ fault. IfSome (R.remaining reader.old) (λ text.
        StopsAtNext text view.old view.new fault)) }
    ensures why { IfErr result IsOfShowing }
    ensures calls { OnOk result
        (view.new.terminal.backend.failures ≡ view.old.terminal.backend.failures) }
{
    line.clear();
    let count = match reader.read_line(line) {
        Ok(count) => count,
        Err(error) => return Err(FollowError::Read(error)),
    };
    if count == 0 {
        return Ok(false);
    }
    push_row(view, shown, line.as_str())?;
    Ok(true)
}

// Shows the lines of a reader to its end.
fn push_lines<R: BufRead, W: Write + Drop>(
    alloc: Global,
    reader: &mut R,
    view: &mut LogView<AnsiBackend<W>>,
) -> Result<(), FollowError>
    ensures ok { OnOk result (IfSome (R.remaining reader.old) (λ text. (size : Size)
        → IsViewOf shown_by size [] view.old
        → (R.remaining reader.new ≡ Some []) × ShowsInput size text view.new)) }
    ensures stopped { IfErr result (λ fault. IfSome (R.remaining reader.old) (λ text.
        (size : Size) → IsViewOf shown_by size [] view.old
        → StopsText size text view.new fault)) }
    ensures why { IfErr result IsOfShowing }
    ensures calls { OnOk result
        (view.new.terminal.backend.failures ≡ view.old.terminal.backend.failures) }
{
    let mut line = String::new(alloc);
    let mut shown = String::new(alloc);
    for _ in 0..u64::MAX {
        if !push_line(reader, view, &mut line, &mut shown)? {
            return Ok(());
        }
    }
    Err(FollowError::Lines)
}

// Writes a text whole, and has it sent on.
fn send<W: Write>(writer: &mut W, text: &str) -> io::Result<()>
    ensures { OnOk result
        (Appends (W.contents writer.old) (W.contents writer.new) text.now) }
{
    writer.write_all(text.as_bytes())?;
    writer.flush()
}

/// Shows the lines of a reader to its end on a terminal of `size` columns and rows, and gives the
/// terminal back: in its own colours, without margins, with the cursor shown below its rows.
/// Answers the writer, which has sent all on. So each terminal of this size that reads what was
/// written, however it was left before, shows the lines, and below them how many there were.
///
/// No want of memory prevents that the terminal is given back, and that is done after a fault, too,
/// as far as the writer takes it.
///
/// # Errors
///
/// - [`FollowError::Terminal`]: the terminal refused a line, or memory was refused. The lines before it
///   are shown.
/// - [`FollowError::Read`]: the reader failed. All lines that it gave are shown.
/// - [`FollowError::Write`]: all was read and shown, but what gives the terminal back can't be written.
/// - [`FollowError::Lines`]: there are more lines than can be counted.
///
/// The writer is dropped then.
pub fn follow<R: BufRead, W: Write + Drop>(
    alloc: Global,
    reader: &mut R,
    writer: W,
    size: Size,
) -> Result<W, FollowError>
    ensures ok { OnOk result
        (IfSome (R.remaining reader.old) (λ _. R.remaining reader.new ≡ Some [])) }
    ensures shown { IsAlwaysKnown W.contents → IfOk result (λ taken.
        IfSome (R.remaining reader.old) (λ text. FollowsText size text (W.contents taken))) }
    ensures failed { IfErr result
        (EndsBy (R.remaining reader.old) (R.remaining reader.new)) }
{
    let backend = match AnsiBackend::new(alloc, writer, size) {
        Ok(backend) => backend,
        Err(error) => return Err(FollowError::Terminal(TerminalError::Backend(error))),
    };
    let mut view = LogView::new(alloc, backend)?;
    let shown = push_lines(alloc, reader, &mut view);
    let mut writer = view.into_terminal().into_backend().into_writer();
    let below = leaving(size.height);
    let left = send(&mut writer, below.as_str());
    shown?;
    match left {
        Ok(()) => Ok(writer),
        Err(error) => Err(FollowError::Write(error)),
    }
}
