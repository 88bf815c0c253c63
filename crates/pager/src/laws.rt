//! Laws of the pager.

ghost use Rattle.std.specs.Prelude.{◌≡◌, ◌<◌, ◌≤◌, ◌^◌, ℕ, Bool, true, List, [], Option, Some, length, Contains};
ghost use Rattle.ratatui_core.specs.Layout.{Size};
ghost use Rattle.ratatui_events.specs.declared.event.Event.{Event};
ghost use Rattle.ratatui_events.specs.declared.event.Event.TheVariants.{Key};
ghost use Rattle.ratatui_events.specs.declared.key.KeyEvent.{KeyEvent};
ghost use Rattle.ratatui_acts.specs.Turns.{Standing};
ghost use Rattle.ratatui_acts.specs.Runs.{Now, Past, HasRun, AreTimely};
ghost use Rattle.ratatui_acts.specs.declared.nothing.{Never.Never, Nothing.Nothing};
ghost use Rattle.ratatui_app.specs.declared.on_glass.OnGlass.{OnGlass};
ghost use Rattle.pager.specs.Moves.{started, updated, after_move};
ghost use Rattle.pager.specs.Search.{next_match, last_match, IsFirstMatch, IsLastMatch};
ghost use Rattle.pager.specs.Keys.{IsControlC};
ghost use Rattle.pager.specs.Symbols.{LineSymbol, line_symbols};
ghost use Rattle.ratatui_app.specs.OneFrame.{HasOneFrame};
ghost use Rattle.pager.specs.Pages.{IsInOneRow, PaintsPager};
ghost use Rattle.pager.specs.declared.sought.Sought.{Sought};
ghost use Rattle.pager.specs.declared.styles.Run.{Run};
ghost use Rattle.text_places.specs.Places.{text_place, places_after, earlier_place, is_before};
ghost use Rattle.pager.specs.Places.{IsInText, columns_for_line, page_rows, page_place, place_after, breaking};
ghost use Rattle.pager.specs.Places.{last_page};
ghost use Rattle.pager.specs.declared.command.Command.TheVariants.{PageDown};
ghost use Rattle.pager.specs.Paging.{paging_on, page_size, IsPaged, FillsScreen, FillsAlong};
ghost use Rattle.pager.specs.declared.pager.Pager.{Pager};
ghost use Rattle.std.specs.Prelude.{◌++◌, ◌⊎◌, None, is_some};
ghost use Rattle.ratatui_acts.specs.declared.message.Message.TheVariants.{Answer, Event as EventCame};
ghost use Rattle.pager.specs.declared.pager.Mode.TheVariants.{Reading, Following};
ghost use Rattle.pager.specs.declared.command.Command.TheVariants.{Quit};
ghost use Rattle.pager.specs.Keys.{event_command, is_press};
ghost use Rattle.pager.specs.Growing.{grown_after, asked_for_more};
ghost use Rattle.pager.specs.HelpTable.{help_table, AreHelped};
ghost use Rattle.std.specs.Str.Lines.{lines};
ghost use Rattle.ratatui_acts.specs.Runs.{turns_of};
ghost use Rattle.pager.specs.declared.growing.Growing.{Growing as GrowingPager};
ghost use Rattle.pager.specs.declared.piece.More.{More as AskedFor};
ghost use Rattle.pager.specs.declared.piece.Piece.{Piece as GivenPiece};
ghost use Rattle.pager.specs.Moves.{all_lines};
ghost use Rattle.pager.specs.Growing.{event_needs, with_more, AreWholeLines};
ghost use Rattle.pager.specs.GrowingRuns.{growing_on, turn_pieces, lines_of_pieces};

use crate::growing::Growing;
use crate::pager::Pager;
use ratatui_acts::laws::each_turn_was_made_while_its_state_was_shown;
use ratatui_acts::{Nothing, Outside};
use ratatui_app::OnGlass;
use ratatui_app::laws::told_sizes_are_the_screens;
use ratatui_reads::Source;
use std::io::Write;

/// The place lies in the text at first, and after each event: no page begins after the last one.
pub fn the_place_lies_in_the_text()
    ensures first { (lines : List (List ℕ)) (name text : List ℕ) (size : Size)
        → IsInText (started lines name text size) }
    ensures next { (p : Pager) (event : Event) → IsInText p → IsInText (updated p event) }
{}

/// A search passes no match over: it finds the first line from one on that has what is sought, or the
/// last one before a line.
pub fn a_search_passes_no_match_over()
    ensures further { (sought : Sought) (lines : List (List ℕ)) (from k : ℕ)
        → next_match sought lines from ≡ Some k → IsFirstMatch sought lines from k }
    ensures back { (sought : Sought) (lines : List (List ℕ)) (before k : ℕ)
        → last_match sought lines before ≡ Some k → IsLastMatch sought lines before k }
{}

/// Broken lines lose nothing: if a row has two columns or more beside the number, each symbol of at
/// most two columns is shown in one row of its line, and in no other one.
pub fn broken_lines_lose_nothing()
    ensures { (p : Pager) (sought : Sought) (line : List ℕ) (runs : List Run) (s : LineSymbol)
        → p.wraps ≡ true → 2 ≤ columns_for_line p
        → Contains (line_symbols sought runs line) s → s.columns ≤ 2 → s.column < 2 ^ 32
        → IsInOneRow p (columns_for_line p) line s }
{}

/// Pages meet: a page further begins with the row after the last one of the page before, or it is
/// the last page; and if that doesn't begin with the text's first row, the row after it is the
/// text's end.
pub fn pages_meet()
    ensures further { (p : Pager) → p.number ≡ 0
        → page_place (after_move PageDown p)
        ≡ earlier_place (place_after (page_rows p) p) (last_page p) }
    ensures ends { (p : Pager) → is_before (text_place 0 0) (last_page p) ≡ true
        → places_after (breaking p) (page_rows p) (last_page p)
        ≡ text_place (length p.document) 0 }
{}

/// Two times Ctrl+C leave, whatever is typed or shown.
pub fn control_c_leaves()
    ensures { (p : Pager) (k : KeyEvent) → IsControlC k
        → (updated (updated p (Key k)) (Key k)).is_over ≡ true }
{}

/// Whenever a run of a pager read, each terminal that had read what was sent until then showed the
/// page that all reads before lead to.
pub fn the_glass_shows_the_page<W: Write + Drop, S: Source>()
    ensures { (begun now : Now Pager (OnGlass W) S Nothing)
        (past : List (Past Pager Never Never (OnGlass W) S Nothing))
        → HasRun (paging_on S.coming) begun past now
        → AreTimely (paging_on S.coming) begun.standing past }
{
    each_turn_was_made_while_its_state_was_shown::<Pager<'static>, OnGlass<W>, S, Nothing>();
}

/// If the first page is as large as the screen, then the page is as large as the screen at each turn
/// of a run, whatever sizes are told, until the pager is over; and a pager of a terminal's size
/// begins so.
pub fn the_page_fills_the_screen<W: Write + Drop, S: Source>()
    ensures runs { (begun now : Now Pager (OnGlass W) S Nothing)
        (past : List (Past Pager Never Never (OnGlass W) S Nothing))
        → begun.standing.left ≡ [] → HasRun (paging_on S.coming) begun past now
        → FillsScreen begun.standing.state begun.glass.terminal → FillsAlong past now }
    ensures paged { (size : Size) (has_ticks : Bool) (first last : Standing Pager) (ears ears' : S)
        (before after : Option (List ℕ))
        (paged : IsPaged W S.coming size has_ticks first ears last ears' before after)
        → page_size first.state ≡ size
        → FillsScreen first.state paged.through.runs.runs.glass.terminal }
{
    told_sizes_are_the_screens::<W, Pager<'static>, S, Nothing>();
}

/// What an event needs is enough: where so many lines are known, it does what it does where more
/// lines are known, in whatever styles, and makes the same page.
pub fn what_an_event_needs_is_enough()
    ensures { (more : List (List ℕ)) (styles : List (List Run)) (has_more : Bool) (p : Pager)
        (event : Event) → event_needs p event ≤ length p.document
        → updated (with_more more styles has_more p) event
        ≡ with_more more styles has_more (updated p event) }
{}

/// The lines of whole lines, and then those of what comes after them, are those of both together.
pub fn lines_of_pieces_are_those_of_the_text()
    ensures { (front after : List ℕ) → AreWholeLines front
        → lines (front ++ after) ≡ lines front ++ lines after }
{}

/// Wherever a run of a text that grows stands, all lines that it knows are those that it knew at
/// first, and then those of the pieces that came, in order: none is lost, and none comes twice.
pub fn the_lines_are_those_of_the_pieces<
    'a,
    W: Write + Drop,
    S: Source,
    O: Outside<Growing<'a>, OnGlass<W>>,
>()
    ensures { (begun now : Now GrowingPager (OnGlass W) S O)
        (past : List (Past GrowingPager AskedFor GivenPiece (OnGlass W) S O))
        → HasRun (growing_on S.coming O.answers) begun past now
        → all_lines now.standing.state.pager
        ≡ all_lines begun.standing.state.pager
        ++ lines_of_pieces (turn_pieces (turns_of (growing_on S.coming O.answers) past)) }
{}

/// While a text is followed its last page is shown after each piece that comes.
pub fn the_last_page_is_followed()
    ensures { (g : GrowingPager) (piece : GivenPiece) → g.pager.mode ≡ Following → g.waiting ≡ None
        → page_place (grown_after g (Answer piece)).pager
        ≡ last_page (grown_after g (Answer piece)).pager }
{}

/// After a piece that found nothing no other one is asked for: the next turn is a read of the keys.
pub fn keys_are_read_while_the_text_rests()
    ensures { (g : GrowingPager) (piece : GivenPiece) → piece.rests ≡ true
        → asked_for_more (grown_after g (Answer piece)) ≡ None }
{}

/// A key that leaves does so at once, also while another one waits for lines.
pub fn keys_leave_while_others_wait()
    ensures { (g : GrowingPager) (k : KeyEvent) → event_command (Key k) ≡ Quit
        → is_press (Key k) ≡ true
        → (g.pager.mode ≡ Reading) ⊎ (is_some g.waiting ≡ true)
        → (grown_after g (EventCame (Key k))).pager.is_over ≡ true }
{}

/// The list of the keys is right: where it names a key, that key asks for what the table of the list
/// says.
pub fn the_help_names_the_keys()
    ensures { AreHelped help_table }
{}

/// A page has one frame. All that painting it can make of empty buffers of one area is the same.
pub fn pages_have_one_frame()
    ensures { (p : Pager) → HasOneFrame (PaintsPager p) }
{}
