//! Laws of terminals that are no single call's clause, stated over the definitions of `specs/`
//! alone; above all the headline of `specs/Headline`. Calling one of these functions costs nothing
//! and tells the caller's proof its law.

ghost use Rattle.std.specs.Prelude.{◌<◌, Option};
ghost use Rattle.rtui_geometry.specs.declared.position.Position.{Position};
ghost use Rattle.rtui_buffer.specs.Shown.{IsSettledBuffer};
ghost use Rattle.rtui_buffer.specs.BufferData.{BufferData, IsEmptied};
ghost use Rattle.rtui_backend.specs.Screen.{IsOnScreen, screen_area, size_of};
ghost use Rattle.rtui_viewport.specs.declared.viewport.Viewport.{Viewport};
ghost use Rattle.rtui_viewport.specs.declared.viewport.Viewport.TheVariants.{Inline};
ghost use Rattle.rtui_viewport.specs.Areas.{IsBlankBelow};
ghost use Rattle.rtui_viewport.specs.Lying.{FitsSize};
ghost use Rattle.rtui_viewport.specs.Viewports.{IsFixed, IsInline};
ghost use Rattle.rtui_terminal.specs.TerminalData.{TerminalData};
ghost use Rattle.rtui_terminal.specs.InStep.{IsInStep, IsSized, KeepsAroundViewport};
ghost use Rattle.rtui_terminal.specs.Starting.{IsBlank, Starts, StartsInRow};
ghost use Rattle.rtui_terminal.specs.AtRest.{IsAtRest};
ghost use Rattle.rtui_terminal.specs.Clearing.{ClearsViewport};
ghost use Rattle.rtui_terminal.specs.Drawing.{DrawsFrame};
ghost use Rattle.rtui_terminal.specs.Insertion.{Inserts, TakesRows};
ghost use Rattle.rtui_terminal.specs.Cursor.{Stays};
ghost use Rattle.rtui_terminal.specs.Resizing.{Autoresizes, Resizes};
ghost use Rattle.rtui_terminal.specs.Writing.{Applies};
ghost use Rattle.rtui_terminal.specs.Headline.{IsHeadline, KeepsRows};

use rtui_backend::Backend;

/// From in step, and while each painted and inserted buffer is settled, every call of a list that
/// answered Ok is faithful: the screen shows the buffer that it leaves, exactly its rows came to
/// those above an inline viewport, and nothing changed outside a fixed one.
pub fn every_call_is_faithful<B: Backend>()
    ensures { IsHeadline B.screen }
{}

/// While the size stays, the rows above an inline viewport are those at the start, followed by all
/// that were inserted since.
pub fn rows_above_are_those_inserted<B: Backend>()
    ensures { KeepsRows B.screen }
{}

/// An empty current buffer is still empty, and covers the viewport, if a draw found another size.
pub fn empty_buffers_stay_empty<B: Backend>()
    ensures { (s sized : TerminalData B) → Autoresizes B.screen s sized
        → IsEmptied s.viewport_area s.current → IsEmptied sized.viewport_area sized.current }
{}

/// An empty current buffer is still empty, and covers the viewport, if rows came in above that.
pub fn empty_buffers_move_with_an_insertion<B: Backend>()
    ensures { (inserted : BufferData) (s t : TerminalData B) → Inserts B.screen inserted s t
        → IsEmptied s.viewport_area s.current → IsEmptied t.viewport_area t.current }
{}

/// A viewport of one row starts in the cursor's row if the screen has rows, and the screen stays as
/// it was.
pub fn one_row_starts_at_the_cursor<B: Backend>()
    ensures { (b : B) (t : TerminalData B) → 0 < (B.screen b).height
        → Starts B.screen (Inline 1) b t
        → StartsInRow B.screen b t }
{}

/// On a blank screen a terminal starts in step if its viewport lies on the screen, which is blank
/// still.
pub fn blank_screens_start_in_step<B: Backend>()
    ensures in_step { (v : Viewport) (b : B) (t : TerminalData B) → Starts B.screen v b t
        → IsOnScreen t.viewport_area (B.screen t.backend) → IsBlank (B.screen b)
        → IsInStep B.screen t }
    ensures blank { (v : Viewport) (b : B) (t : TerminalData B) → Starts B.screen v b t
        → IsBlank (B.screen b) → IsBlank (B.screen t.backend) }
{}

/// If a viewport and all around it stay, blank rows below it stay blank.
pub fn blank_rows_below_stay<B: Backend>()
    ensures { (s t : TerminalData B) → KeepsAroundViewport B.screen s t
        → IsBlankBelow s.viewport_area (B.screen s.backend)
        → IsBlankBelow t.viewport_area (B.screen t.backend) }
{}

/// A draw that finds the last known size changes nothing before its closure is called.
pub fn known_sizes_stay<B: Backend>()
    ensures { (s sized : TerminalData B) → IsSized B.screen s → Autoresizes B.screen s sized
        → Stays B.screen s sized }
{}

/// A start on a blank screen leaves a terminal at rest, and each call of an application that
/// answers Ok keeps it so: a draw or an apply of a settled buffer, a draw that finds another size,
/// a clear, and an insertion of settled rows.
pub fn calls_leave_a_terminal_at_rest<B: Backend>()
    ensures started { (kind : Viewport) (b : B) (t : TerminalData B)
        → FitsSize kind (size_of (B.screen b))
        → IsBlank (B.screen b) → Starts B.screen kind b t → IsAtRest B.screen kind t }
    ensures applied { (kind : Viewport) (cursor : Option Position) (frame : BufferData)
        (s t : TerminalData B)
        → IsAtRest B.screen kind s → IsSettledBuffer frame
        → Applies B.screen cursor (record s { current = frame }) t → IsAtRest B.screen kind t }
    ensures drawn { (kind : Viewport) (s t : TerminalData B) → IsAtRest B.screen kind s
        → IsSettledBuffer t.previous → DrawsFrame B.screen s t → IsAtRest B.screen kind t }
    ensures resized { (kind : Viewport) (b : B) (s t : TerminalData B) → (IsFixed kind → ⊥)
        → IsAtRest B.screen kind s
        → Resizes B.screen (screen_area (B.screen b)) (record s { backend = b }) t
        → IsAtRest B.screen kind t }
    ensures cleared { (kind : Viewport) (s t : TerminalData B) → IsAtRest B.screen kind s
        → ClearsViewport B.screen s t → IsAtRest B.screen kind t }
    ensures inserted { (kind : Viewport) (rows : BufferData) (s t : TerminalData B) → IsInline kind
        → IsAtRest B.screen kind s → TakesRows B.screen s → IsSettledBuffer rows
        → Inserts B.screen rows s t → IsAtRest B.screen kind t }
{}
