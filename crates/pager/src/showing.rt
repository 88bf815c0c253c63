//! A text shown on a terminal, and the terminal given back.

ghost use Rattle.std.specs.Prelude.{IfOk, IfErr, OnOk};
ghost use Rattle.ratatui_acts.specs.Seats.{seated};
ghost use Rattle.pager.specs.Paging.{OpensPaging, IsPaged, StopsPaging};
ghost use Rattle.pager.specs.GrowingRuns.{IsShownGrowing, StopsGrowing};

use crate::growing::Growing;
use crate::pager::Pager;
use ratatui_acts::{Nothing, Outside, Seat};
use ratatui_ansi::{AnsiBackend, AnsiError};
use ratatui_app::{Left, OnGlass, run_and_leave};
use ratatui_core::layout::Size;
use ratatui_core::terminal::TerminalError;
use ratatui_reads::Source;
use std::alloc::Global;
use std::io::Write;

/// Opens the alternate screen of a terminal, which tells of the mouse and of new sizes from then on.
///
/// # Errors
///
/// If a send fails, or memory is refused.
pub fn open<W: Write + Drop>(
    alloc: Global,
    size: Size,
    writer: W,
) -> Result<AnsiBackend<W>, AnsiError>
    ensures { IfOk result (OpensPaging size (W.contents writer)) }
{
    let mut backend = AnsiBackend::new_on_alternate_screen(alloc, writer, size)?;
    backend.set_mouse_capture(true)?;
    backend.set_size_reports(true)?;
    Ok(backend)
}

/// Moves a pager by what a source gives, on the alternate screen of a terminal of this size that is
/// sent bytes, until the pager is over or the source at its end. Then the main screen is brought
/// back, also after a fault. In between the terminal tells of the mouse and of new sizes. It is
/// asked for its size first, and again at each fifth tick. At each turn each terminal that has read
/// what was sent shows the page that the reads so far lead to. Where reads that find nothing are
/// ticks, the source has no end.
///
/// # Errors
///
/// If the terminal can't be begun or given back. What stopped the run is told beside the writer,
/// which has sent all on. No want of memory prevents that the terminal is given back.
pub fn show<S: Source, W: Write + Drop>(
    alloc: Global,
    size: Size,
    source: &mut S,
    has_ticks: bool,
    writer: W,
    seat: &mut Seat<Pager<'_>>,
) -> Result<Left<W>, TerminalError<AnsiError>>
    ensures paged { IfOk result (λ left. OnOk left.ended (IsPaged W S.coming size has_ticks
        (seated seat.old) source.old (seated seat.new) source.new (W.contents writer)
        (W.contents left.writer))) }
    ensures stops { IfOk result (λ left. IfErr left.ended (λ fault. StopsPaging W S.coming size
        fault (seated seat.old) source.old (seated seat.new) source.new (W.contents writer)
        (W.contents left.writer))) }
{
    let backend = match open(alloc, size, writer) {
        Ok(backend) => backend,
        Err(error) => return Err(TerminalError::Backend(error)),
    };
    run_and_leave(alloc, source, &mut Nothing, has_ticks, backend, seat)
}

/// Moves a pager of a text that grows by what a source gives, as [`show`] does; the pieces of the
/// text come from outside, where the page or an event needs more lines than are known. At each turn
/// each terminal that has read what was sent shows the page that the reads and the pieces so far
/// lead to.
///
/// # Errors
///
/// Those of [`show`]. The run stops with `Fault::Outside` where no piece can be given.
pub fn show_growing<'a, S: Source, O: Outside<Growing<'a>, OnGlass<W>>, W: Write + Drop>(
    alloc: Global,
    size: Size,
    source: &mut S,
    pieces: &mut O,
    has_ticks: bool,
    writer: W,
    seat: &mut Seat<Growing<'a>>,
) -> Result<Left<W>, TerminalError<AnsiError>>
    ensures shown { IfOk result (λ left. OnOk left.ended (IsShownGrowing W S.coming O.answers size
        has_ticks (seated seat.old) source.old pieces.old (seated seat.new) source.new pieces.new
        (W.contents writer) (W.contents left.writer))) }
    ensures stops { IfOk result (λ left. IfErr left.ended (λ fault. StopsGrowing W S.coming
        O.answers size fault (seated seat.old) source.old pieces.old (seated seat.new) source.new
        pieces.new (W.contents writer) (W.contents left.writer))) }
{
    let backend = match open(alloc, size, writer) {
        Ok(backend) => backend,
        Err(error) => return Err(TerminalError::Backend(error)),
    };
    run_and_leave(alloc, source, pieces, has_ticks, backend, seat)
}
