//! Drawing a state after a turn.

ghost use Rattle.std.specs.Prelude.{◌≡◌, ◌⊎◌, ◌||◌, true, false, Some, None, IsOk, OnOk, OnErr};
ghost use Rattle.std.specs.Prelude.{IfOk, IfErr};
ghost use Rattle.ratatui_core.specs.Backend.{size_of, HasNoCells};
ghost use Rattle.ratatui_core.specs.Terminal.{DrawsFrame, Autoresizes, AutoresizeErr};
ghost use Rattle.ratatui_core.specs.Terminal.{ClearsViewport};
ghost use Rattle.ratatui_app.specs.Showing.{RestsUnfixed, MayDraw, ShowsPage};
ghost use Rattle.ratatui_app.specs.Moving.{DrawsSized, ReadiesTold, MovesAsTold, StopsReady, StopsShowing};
ghost use Rattle.ratatui_app.specs.Moving.{RefusesSized, FailsToDraw};

use crate::application::{Application, Page};
use ratatui_acts::Told;
use ratatui_core::backend::{Backend, Resizable};
use ratatui_core::layout::Size;
use ratatui_core::terminal::laws::calls_leave_a_terminal_at_rest;
use ratatui_core::terminal::{Terminal, TerminalError};

// Draws a frame of an application on a terminal that knows the screen's size.
fn draw_sized<B: Backend, A: Application>(
    terminal: &mut Terminal<B>,
    application: &A,
) -> Result<(), TerminalError<B::Error>>
    ensures draws { OnOk result (DrawsFrame B.screen terminal.old terminal.new) }
    ensures faults { OnOk result
        (B.failures terminal.new.backend ≡ B.failures terminal.old.backend) }
    ensures shows { RestsUnfixed B.screen terminal.old
        → OnOk result (ShowsPage B.Backend (A.paints application.now)
        (A.cursor application.now) terminal.new) }
    ensures size { RestsUnfixed B.screen terminal.old → OnOk result
        (size_of (B.screen terminal.new.backend) ≡ size_of (B.screen terminal.old.backend)) }
    ensures refused { IfErr result
        (RefusesSized B.Backend (A.paints application.now) (A.is_short application.now)
        (A.cursor application.now) terminal.old terminal.new) }
{
    calls_leave_a_terminal_at_rest::<B>();
    let cursor = application.cursor(terminal.viewport_area());
    terminal.draw_widget_with_cursor(Page(application), cursor)?;
    Ok(())
}

/// Draws a frame of an application, with its cursor.
///
/// # Errors
///
/// Those of [`Terminal::autoresize`] and [`Terminal::draw_widget_with_cursor`].
pub fn draw<B: Backend, A: Application>(
    terminal: &mut Terminal<B>,
    application: &A,
) -> Result<(), TerminalError<B::Error>>
    ensures draws { OnOk result (DrawsSized B.Backend terminal.old terminal.new) }
    ensures faults { OnOk result
        (B.failures terminal.new.backend ≡ B.failures terminal.old.backend) }
    ensures shows { MayDraw B.Backend terminal.old
        → OnOk result (ShowsPage B.Backend (A.paints application.now)
        (A.cursor application.now) terminal.new) }
    ensures size { MayDraw B.Backend terminal.old → OnOk result
        (size_of (B.screen terminal.new.backend) ≡ size_of (B.screen terminal.old.backend)) }
    ensures refused { IfErr result
        (FailsToDraw B.Backend (A.paints application.now) (A.is_short application.now)
        (A.cursor application.now) terminal.old terminal.new) }
{
    calls_leave_a_terminal_at_rest::<B>();
    match terminal.autoresize() {
        Ok(()) => draw_sized(terminal, application),
        Err(error) => Err(error),
    }
}

// Gives a backend another size. Answers whether it took it: it refuses only one without cells.
fn take_size<B: Resizable>(backend: &mut B, size: Size) -> Result<bool, B::Error>
    ensures taken { IfOk result (λ is_taken. is_taken ≡ true
        → size_of (B.screen backend.new) ≡ size) }
    ensures refused { IfOk result (λ is_taken. is_taken ≡ false → HasNoCells size) }
    ensures kept { IfOk result (λ is_taken. is_taken ≡ false → backend.new ≡ backend.old) }
    ensures faults { OnOk result (B.failures backend.new ≡ B.failures backend.old) }
{
    backend.take_size(size)
}

// Empties the viewport, if that is wanted. Answers whether it was.
fn clear_if<B: Resizable>(
    terminal: &mut Terminal<B>,
    told: Told,
    is_wanted: bool,
) -> Result<bool, TerminalError<B::Error>>
    requires { told.anew ≡ true → is_wanted ≡ true }
    ensures wanted { IfOk result (λ is_new. is_new ≡ is_wanted) }
    ensures readies { RestsUnfixed B.screen terminal.old → IfOk result (λ is_new.
        ReadiesTold B.Backend (record told { size = None }) is_new terminal.old terminal.new) }
    ensures kept { is_wanted ≡ false → terminal.new ≡ terminal.old }
    ensures stays { is_wanted ≡ false → IsOk result }
    ensures stops { IfErr result (StopsReady B.Backend terminal.old terminal.new) }
{
    calls_leave_a_terminal_at_rest::<B>();
    if !is_wanted {
        return Ok(false);
    }
    match terminal.clear() {
        Ok(()) => Ok(true),
        Err(error) => Err(error),
    }
}

// Offers the screen another size. Answers whether the backend took it.
fn offer_size<B: Resizable>(terminal: &mut Terminal<B>, size: Size) -> Result<bool, B::Error>
    ensures only { terminal.new ≡ record terminal.old { backend = terminal.new.backend } }
    ensures taken { IfOk result (λ is_taken. is_taken ≡ true
        → size_of (B.screen terminal.new.backend) ≡ size) }
    ensures refused { IfOk result (λ is_taken. is_taken ≡ false → HasNoCells size) }
    ensures kept { IfOk result (λ is_taken. is_taken ≡ false → terminal.new ≡ terminal.old) }
    ensures faults { OnOk result
        (B.failures terminal.new.backend ≡ B.failures terminal.old.backend) }
{
    take_size(terminal.backend_mut(), size)
}

// Gives the screen another size, or leaves it at its own if that one has no cells. Answers whether
// the next frame is to be drawn whole.
#[tactic(auto, using(crate::proofs::FrameLemmas::told_sizes))]
fn give_size<B: Resizable>(
    terminal: &mut Terminal<B>,
    told: Told,
    columns: u16,
    rows: u16,
) -> Result<bool, TerminalError<B::Error>>
    requires { told.size ≡ Some (columns, rows) }
    ensures readies { RestsUnfixed B.screen terminal.old
        → ((terminal.old.last_known_area.width ≡ columns)
        × (terminal.old.last_known_area.height ≡ rows) → ⊥)
        → IfOk result (λ is_new. ReadiesTold B.Backend told is_new terminal.old terminal.new) }
    ensures stops { IfErr result (StopsReady B.Backend terminal.old terminal.new) }
{
    let size = Size {
        width: columns,
        height: rows,
    };
    match offer_size(terminal, size) {
        Ok(true) => Ok(true),
        Ok(false) => clear_if(terminal, told, told.anew),
        Err(error) => Err(TerminalError::Backend(error)),
    }
}

// Readies a terminal for the frame of what was told: a told size is the screen's, unless it has no
// cells; and where it is told a size that it has and that it didn't ask for, or is
// told to draw all anew, the viewport is emptied. Answers whether a frame is to be drawn for that.
#[tactic(auto, using(crate::proofs::FrameLemmas::told_sizes))]
fn ready<B: Resizable>(
    terminal: &mut Terminal<B>,
    told: Told,
    is_due: bool,
) -> Result<bool, TerminalError<B::Error>>
    ensures readies { RestsUnfixed B.screen terminal.old
        → IfOk result (λ is_new. ReadiesTold B.Backend told is_new terminal.old terminal.new) }
    ensures quiet { told.size ≡ None → told.anew ≡ false → IfOk result (λ is_new. is_new ≡ false) }
    ensures kept { told.size ≡ None → told.anew ≡ false → terminal.new ≡ terminal.old }
    ensures stops { IfErr result (StopsReady B.Backend terminal.old terminal.new) }
{
    let Some((columns, rows)) = told.size else {
        return clear_if(terminal, told, told.anew);
    };
    let area = terminal.last_known_area();
    if area.width == columns && area.height == rows {
        return clear_if(terminal, told, told.anew || !is_due);
    }
    give_size(terminal, told, columns, rows)
}

// Draws a frame, if that is wanted.
fn draw_if<B: Backend, A: Application>(
    terminal: &mut Terminal<B>,
    application: &A,
    is_changed: bool,
    is_new: bool,
) -> Result<(), TerminalError<B::Error>>
    ensures kept { is_changed ≡ false → is_new ≡ false → terminal.new ≡ terminal.old }
    ensures drawn { (is_changed || is_new) ≡ true
        → OnOk result (DrawsSized B.Backend terminal.old terminal.new) }
    ensures faults { OnOk result
        (B.failures terminal.new.backend ≡ B.failures terminal.old.backend) }
    ensures shows { MayDraw B.Backend terminal.old
        → (is_changed ≡ false → is_new ≡ false
        → ShowsPage B.Backend (A.paints application.now) (A.cursor application.now) terminal.old)
        → OnOk result (ShowsPage B.Backend (A.paints application.now)
        (A.cursor application.now) terminal.new) }
    ensures size { MayDraw B.Backend terminal.old → OnOk result
        (size_of (B.screen terminal.new.backend) ≡ size_of (B.screen terminal.old.backend)) }
    ensures refused { IfErr result
        (FailsToDraw B.Backend (A.paints application.now) (A.is_short application.now)
        (A.cursor application.now) terminal.old terminal.new) }
{
    if is_changed || is_new {
        draw(terminal, application)
    } else {
        Ok(())
    }
}

/// Shows a state after a turn, of which the terminal was told this: a told size is the screen's
/// first, unless it has no columns or no rows. A frame is drawn if anything may have changed. It is drawn
/// whole if the size is another one; if Ctrl+L was told; or if the size that the screen has was
/// told and that isn't the answer to a question: then something else may have come to the screen.
///
/// # Errors
///
/// `Backend` if the backend failed to take the size, or to empty the viewport; else those of
/// [`draw`].
pub fn refresh<B: Resizable, A: Application>(
    terminal: &mut Terminal<B>,
    application: &A,
    told: Told,
    is_due: bool,
) -> Result<(), TerminalError<B::Error>>
    ensures shows { RestsUnfixed B.screen terminal.old
        → (told.changed ≡ false
        → ShowsPage B.Backend (A.paints application.now) (A.cursor application.now) terminal.old)
        → OnOk result (ShowsPage B.Backend (A.paints application.now)
        (A.cursor application.now) terminal.new) }
    ensures moves { RestsUnfixed B.screen terminal.old
        → OnOk result (MovesAsTold B.Backend told terminal.old terminal.new) }
    ensures stays { told.changed ≡ false → told.size ≡ None → told.anew ≡ false
        → OnOk result (terminal.new ≡ terminal.old) }
    ensures stops { RestsUnfixed B.screen terminal.old → IfErr result
        (StopsShowing B.Backend (A.paints application.now) (A.is_short application.now)
        (A.cursor application.now) told terminal.old terminal.new) }
{
    match ready(terminal, told, is_due) {
        Ok(is_new) => draw_if(terminal, application, told.changed, is_new),
        Err(error) => Err(error),
    }
}
