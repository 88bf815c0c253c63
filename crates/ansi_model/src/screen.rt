//! What a backend's calls do to the screen that a terminal shows; and a blank beginning.

ghost use Rattle.std.specs.Prelude.{◌≡◌, ℕ, List, ◌++◌, ◌+◌, ◌-◌, ◌<◌, ◌≤◌, min, nat_lt, OnOk, string_bytes};
ghost use Rattle.std.specs.Prelude.{encode_utf8, length};
ghost use Rattle.ratatui_core.specs.Backend.{Appends, scrolling_up, scrolling_down, clearing, ScrollsUp};
ghost use Rattle.ratatui_core.specs.Backend.{ScrollsDown, Clears, with_cursor, with_visible, All};
ghost use Rattle.ratatui_core.specs.Backend.{CurrentLine};
ghost use Rattle.ansi_model.specs.Beginnings.{MakesBlank, OpensAlternate, SavesScreen, SavesHigher};
ghost use Rattle.ansi_model.specs.Inner.{without_modes};
ghost use Rattle.ansi_model.specs.Commands.{end_question, size_question};
ghost use Rattle.ansi_model.specs.Endings.{ClosesAlternate, left_below};
ghost use Rattle.ansi_model.specs.Emulator.{cursor_moved, returned, erased, line_fed, fed, with_region};
ghost use Rattle.ansi_model.specs.Emulator.{without_region, lines_deleted, lines_inserted};
ghost use Rattle.ansi_model.specs.Inner.{scrolled_off_by, fed_and_lowered};
ghost use Rattle.ansi_model.specs.Emulator.{columns_moved, rested};
ghost use Rattle.ansi_model.specs.Inner.{fed_and_lowered_by};
ghost use Rattle.ansi_model.specs.Sends.{Sends, Performs, typed};
ghost use Rattle.ansi_model.specs.Screens.{Turns, Becomes};

use crate::sequences::{
    delete_lines, erase, erase_all, hide_cursor, insert_lines, line_feeds, move_to, reset_region,
    set_region, show_cursor,
};
use crate::sgr::{Sgr, push_sgr};
use crate::symbol::push_plain;
use arrayvec::ArrayString;
use itoa::Buffer as Digits;
use ratatui_core::backend::ClearType;
use std::alloc::AllocError;
use std::ops::Range;

/// Moves the cursor to a column and a row, each kept on the screen, which has at least one column
/// and one row.
///
/// # Errors
///
/// `AllocError` if memory is refused. What the text holds then isn't said.
pub fn set_cursor_position(out: &mut String, x: u16, y: u16) -> Result<(), AllocError>
    ensures { OnOk result ((w h : ℕ) → 0 < w → 0 < h → Turns w h (string_bytes out.old)
        (string_bytes out.new) (λ s. Becomes (λ p q. q ≡ with_cursor x y p) s.columns s)) }
{
    move_to(out, x, y)
}

/// Hides the cursor or shows it.
///
/// # Errors
///
/// `AllocError` if memory is refused. What the text holds then isn't said.
pub fn set_visible(out: &mut String, visible: bool) -> Result<(), AllocError>
    ensures { OnOk result ((w h : ℕ) → Turns w h (string_bytes out.old)
        (string_bytes out.new) (λ s. Becomes (λ p q. q ≡ with_visible visible p) s.columns s)) }
{
    if visible {
        show_cursor(out)
    } else {
        hide_cursor(out)
    }
}

/// Empties a screen of so many columns and rows, at least one of each, whose cursor is in this
/// column and row; the cursor stays.
///
/// # Errors
///
/// `AllocError` if memory is refused. What the text holds then isn't said.
pub fn clear_screen(
    out: &mut String,
    width: u16,
    height: u16,
    x: u16,
    y: u16,
) -> Result<(), AllocError>
    ensures { OnOk result (0 < width → 0 < height → Turns width height (string_bytes out.old)
        (string_bytes out.new) (λ s. Becomes (λ p q. p.cursor_x ≡ x → p.cursor_y ≡ y
        → Clears p All q) (columns_moved (clearing (λ a b. nat_lt b height)) s.columns) s)) }
{
    erase_all(out, width, height)?;
    move_to(out, x, y)
}

// Moves the cursor as far down and right as it goes, and asks where it is.
fn ask_at_the_end(out: &mut String) -> Result<(), AllocError>
    ensures bytes { OnOk result (string_bytes out.new ≡ string_bytes out.old ++ end_question) }
    ensures moves { OnOk result (Performs (string_bytes out.old) (string_bytes out.new)
        (cursor_moved 65534 65534)) }
{
    out.push_str("\u{1b}[65535;65535H\u{1b}[6n")
}

/// Asks a terminal, whose cursor is in this column and row, for its size: the answer is the place
/// of its last column and row, as `ESC [ ROWS ; COLUMNS R`. The screen stays.
///
/// # Errors
///
/// `AllocError` if memory is refused. What the text holds then isn't said.
pub fn ask_size(out: &mut String, x: u16, y: u16) -> Result<(), AllocError>
    ensures asks { OnOk result (string_bytes out.new
        ≡ string_bytes out.old ++ size_question (record { x = x; y = y })) }
    ensures turns { OnOk result ((w h : ℕ) → 0 < w → 0 < h → Turns w h (string_bytes out.old)
        (string_bytes out.new) (λ s. Becomes (λ p q. p.cursor_x ≡ x → p.cursor_y ≡ y
        → q ≡ p) s.columns s)) }
{
    ask_at_the_end(out)?;
    move_to(out, x, y)
}

// Ends a string that another program left open, and resets the modes that change how text is taken.
fn settle(out: &mut String) -> Result<(), AllocError>
    ensures { OnOk result (Performs (string_bytes out.old) (string_bytes out.new) without_modes) }
{
    out.push_str(
        "\u{1b}\\\u{f}\u{1b}*B\u{1b}}\u{1b})B\u{1b}(B\u{1b}%G\u{1b}[4l\u{1b}[?6l\u{1b}[?69l\u{1b}[?7h\u{1b}[?2026l",
    )
}

// Prints two letters, one over the other: m ends a sequence that another program left open, and
// the bytes of é end a half of a character.
fn print_letters(out: &mut String) -> Result<(), AllocError>
    ensures { OnOk result (Sends (string_bytes out.old) (string_bytes out.new)
        (λ t. typed (encode_utf8 233) (returned (rested (typed (encode_utf8 109) t))))) }
{
    push_plain(out, 'm')?;
    out.push_str("\r")?;
    push_plain(out, 'é')
}

/// Makes a terminal of so many columns and rows, at least one of each, what a new one is, however
/// another program left it: in its own colours, without margins, in no mode that changes how it
/// takes text, empty, and with its cursor shown in the corner. Its history stays.
///
/// # Errors
///
/// `AllocError` if memory is refused. What the text holds then isn't said.
pub fn make_blank(out: &mut String, width: u16, height: u16) -> Result<(), AllocError>
    ensures { OnOk result (0 < width → 0 < height
        → MakesBlank width height (string_bytes out.old) (string_bytes out.new)) }
{
    settle(out)?;
    push_sgr(out, &Sgr::DEFAULT)?;
    reset_region(out)?;
    print_letters(out)?;
    erase_all(out, width, height)?;
    move_to(out, 0, 0)?;
    show_cursor(out)
}

// Moves the cursor to the first column of the last row, however many there are.
fn move_to_last_row(out: &mut String) -> Result<(), AllocError>
    ensures { OnOk result (Performs (string_bytes out.old) (string_bytes out.new)
        (cursor_moved 0 65534)) }
{
    out.push_str("\u{1b}[65535;1H")
}

// Scrolls rows off at the top, as many and one more, and has as many blank ones come in there: so in a
// higher terminal a blank row stands after them, and those below stand where they stood.
fn scroll_off(out: &mut String, height: u16) -> Result<(), AllocError>
    ensures { OnOk result (Performs (string_bytes out.old) (string_bytes out.new)
        (scrolled_off_by height)) }
{
    move_to_last_row(out)?;
    line_feeds(out, height)?;
    line_feed(out)?;
    move_to(out, 0, 0)?;
    insert_lines(out, height.saturating_add(1))
}

/// Scrolls what stands on the screen of a terminal of so many rows, at least one, into its history,
/// with an empty row after it, however another program left it. Then its screen is empty, its
/// colours its own, its cursor in the corner, and no mode that changes how it takes text is set. Of a
/// higher terminal so many rows and the next one go to the history, and the others stay.
///
/// # Errors
///
/// `AllocError` if memory is refused. What the text holds then isn't said.
pub fn save_screen(out: &mut String, height: u16) -> Result<(), AllocError>
    ensures saves { OnOk result ((w : ℕ) → 0 < w → 0 < height
        → SavesScreen w height (string_bytes out.old) (string_bytes out.new)) }
    ensures higher { OnOk result ((w : ℕ) → 0 < w
        → SavesHigher w height (string_bytes out.old) (string_bytes out.new)) }
{
    settle(out)?;
    push_sgr(out, &Sgr::DEFAULT)?;
    reset_region(out)?;
    scroll_off(out, height)
}

/// Returns what puts a terminal's main screen aside, however another program left it, and shows a
/// blank alternate one. It takes no memory.
pub fn opening_alternate() -> &'static str
    ensures { (w h : ℕ) (old : List ℕ) → OpensAlternate w h old (old ++ result.now) }
{
    "\u{1b}\\\u{1b}[0m\u{1b}[?1049h"
}

/// Returns what brings a terminal's main screen back, as it was put aside, in its own colours,
/// without margins, and with its cursor shown. It takes no memory.
pub fn closing_alternate() -> &'static str
    ensures back { (old : List ℕ) → ClosesAlternate old (old ++ result.now) }
    ensures short { length result.now ≤ 32 }
{
    "\u{1b}[r\u{1b}[?25h\u{1b}[?1049l\u{1b}[0m"
}

/// Returns what leaves a terminal, of which a program had the first rows, in its own colours,
/// without margins, and with its cursor shown at the beginning of the row after these. Where there
/// is no row below them the screen scrolls by one. It takes no memory.
pub fn leaving(height: u16) -> ArrayString<25>
    ensures { (old : List ℕ) → Performs old (old ++ result.bytes) (left_below height) }
{
    let mut digits = Digits::new();
    let mut text = ArrayString::new();
    text.push_str("\u{1b}[0m\u{1b}[r\u{1b}[?25h\u{1b}[");
    text.push_str(digits.format(height));
    text.push_str(";1H\r\n");
    text
}

/// Moves the cursor's row down by `n` on a screen of at least one row and one column; what goes
/// past the last row scrolls, and the rows that leave at the top go to the history.
///
/// # Errors
///
/// `AllocError` if memory is refused. What the text holds then isn't said.
pub fn append_lines(out: &mut String, n: u16) -> Result<(), AllocError>
    ensures { OnOk result ((w h : ℕ) → 0 < w → 0 < h
        → Turns w h (string_bytes out.old) (string_bytes out.new)
        (λ s. Becomes (λ p q. Appends p n q × (q.cursor_x ≡ 0))
        (columns_moved (scrolling_up 0 h (s.y + n - (h - 1))) s.columns) s)) }
{
    line_feeds(out, n)
}

// LF alone, which keeps the column.
fn line_feed(out: &mut String) -> Result<(), AllocError>
    ensures { OnOk result (Performs (string_bytes out.old) (string_bytes out.new) line_fed) }
{
    out.push_str("\n")
}

// Empties a row.
fn empty_row(out: &mut String, y: u16) -> Result<(), AllocError>
    ensures { OnOk result (Performs (string_bytes out.old) (string_bytes out.new)
        (λ t. erased CurrentLine (cursor_moved 0 y t))) }
{
    move_to(out, 0, y)?;
    erase(out, ClearType::CurrentLine)
}

// Moves rows below the first one up.
fn raise_rows(out: &mut String, top: u16, end: u16, n: u16) -> Result<(), AllocError>
    requires rows { top + 1 < end }
    requires some { 0 < n }
    ensures { OnOk result (Performs (string_bytes out.old) (string_bytes out.new)
        (λ t. without_region (lines_deleted n (cursor_moved 0 top (with_region top end t))))) }
{
    set_region(out, top, end)?;
    move_to(out, 0, top)?;
    delete_lines(out, n)?;
    reset_region(out)
}

// Moves rows down.
fn lower_rows(out: &mut String, top: u16, end: u16, n: u16) -> Result<(), AllocError>
    requires rows { top + 1 < end }
    requires some { 0 < n }
    ensures { OnOk result (Performs (string_bytes out.old) (string_bytes out.new)
        (λ t. without_region (lines_inserted n (cursor_moved 0 top (with_region top end t))))) }
{
    set_region(out, top, end)?;
    move_to(out, 0, top)?;
    insert_lines(out, n)?;
    reset_region(out)
}

// Moves the rows of the whole screen up; those that leave go to the history.
fn feed_screen(out: &mut String, height: u16, n: u16) -> Result<(), AllocError>
    ensures { OnOk result (Performs (string_bytes out.old) (string_bytes out.new)
        (λ t. fed n (returned (cursor_moved 0 (height - 1) t)))) }
{
    move_to(out, 0, height.saturating_sub(1))?;
    line_feeds(out, n)
}

// Moves the first rows up; those that leave go to the history.
fn feed_rows(out: &mut String, end: u16, n: u16) -> Result<(), AllocError>
    requires { 1 < end }
    ensures { OnOk result (Performs (string_bytes out.old) (string_bytes out.new)
        (λ t. without_region (fed n (returned (cursor_moved 0 (end - 1) (with_region 0 end t)))))) }
{
    set_region(out, 0, end)?;
    feed_screen(out, end, n)?;
    reset_region(out)
}

// Moves the rows of the region up by one, the first to the history, and the second back down.
fn feed_and_lower(out: &mut String) -> Result<(), AllocError>
    ensures { OnOk result (Performs (string_bytes out.old) (string_bytes out.new) fed_and_lowered) }
{
    move_to(out, 0, 1)?;
    line_feed(out)?;
    move_to(out, 0, 0)?;
    insert_lines(out, 1)
}

// Sends the first row to the history, and blank ones after it; margins enclose at least two rows,
// so that the second one goes up and down again.
fn feed_first_row(out: &mut String, n: u16) -> Result<(), AllocError>
    ensures { OnOk result (Performs (string_bytes out.old) (string_bytes out.new)
        (λ t. without_region (fed_and_lowered_by n (with_region 0 2 t)))) }
{
    set_region(out, 0, 2)?;
    for _ in 0..n {
        feed_and_lower(out)?;
    }
    reset_region(out)
}

// Moves the first rows up, as many as `end`.
fn scroll_first_rows(out: &mut String, height: u16, end: u16, n: u16) -> Result<(), AllocError>
    requires some { 0 < end }
    requires fits { end ≤ height }
    ensures { OnOk result ((w b : ℕ) → 0 < w → min b height ≡ end → Turns w height
        (string_bytes out.old) (string_bytes out.new)
        (λ s. Becomes (ScrollsUp 0 b n)
        (columns_moved (scrolling_up 0 (min b height) n) s.columns) s)) }
{
    if end == height {
        feed_screen(out, height, n)
    } else if end == 1 {
        feed_first_row(out, n)
    } else {
        feed_rows(out, end, n)
    }
}

/// Moves the rows of a region up by `n` on a screen of so many rows and at least one column; blank
/// rows come in below. The region ends at the screen's last row at the latest. Of a region that
/// begins with the first row `n` rows go to the history.
///
/// # Errors
///
/// `AllocError` if memory is refused. What the text holds then isn't said.
pub fn scroll_region_up(
    out: &mut String,
    height: u16,
    region: Range<u16>,
    n: u16,
) -> Result<(), AllocError>
    ensures { OnOk result ((w : ℕ) → 0 < w → Turns w height (string_bytes out.old)
        (string_bytes out.new) (λ s. Becomes (ScrollsUp region.start region.end n)
        (columns_moved (scrolling_up region.start (min region.end height) n) s.columns) s)) }
{
    let end = region.end.min(height);
    if n == 0 || region.start >= end {
        return Ok(());
    }
    if region.start == 0 {
        return scroll_first_rows(out, height, end, n);
    }
    if end - region.start == 1 {
        return empty_row(out, region.start);
    }
    raise_rows(out, region.start, end, n)
}

/// Moves the rows of a region down by `n` on a screen of so many rows and at least one column;
/// blank rows come in above, and the rows that leave are lost. The region ends at the screen's last
/// row at the latest.
///
/// # Errors
///
/// `AllocError` if memory is refused. What the text holds then isn't said.
pub fn scroll_region_down(
    out: &mut String,
    height: u16,
    region: Range<u16>,
    n: u16,
) -> Result<(), AllocError>
    ensures { OnOk result ((w : ℕ) → 0 < w → Turns w height (string_bytes out.old)
        (string_bytes out.new) (λ s. Becomes (ScrollsDown region.start region.end n)
        (columns_moved (scrolling_down region.start (min region.end height) n) s.columns) s)) }
{
    let end = region.end.min(height);
    if n == 0 || region.start >= end {
        return Ok(());
    }
    if end - region.start == 1 {
        return empty_row(out, region.start);
    }
    lower_rows(out, region.start, end, n)
}
