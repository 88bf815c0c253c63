//! Escape sequences by their standard names.

ghost use Rattle.std.specs.Prelude.{◌≡◌, ℕ, ◌+◌, ◌-◌, ◌<◌, ◌≤◌, OnOk, true, false, List, [], ◌∷◌, ◌++◌};
ghost use Rattle.std.specs.Prelude.{length, string_bytes};
ghost use Rattle.std.specs.Fmt.{decimal};
ghost use Rattle.ansi_model.specs.Emulator.{cursor_moved, returned, erased, fed, with_region, without_region};
ghost use Rattle.ansi_model.specs.Emulator.{lines_deleted, lines_inserted, cursor_shown, holding};
ghost use Rattle.ratatui_core.specs.Backend.{BeforeCursor};
ghost use Rattle.ansi_model.specs.Commands.{cursor_bytes};
ghost use Rattle.ansi_model.specs.Sends.{Performs};

use arrayvec::ArrayString;
use ratatui_core::backend::ClearType;
use std::alloc::AllocError;

// Appends a digit.
fn push_digit(out: &mut String, digit: u32) -> Result<(), AllocError>
    requires { digit < 10 }
    ensures { OnOk result (string_bytes out.new ≡ string_bytes out.old ++ (48 + digit) ∷ []) }
{
    out.push(char::from(b'0' + digit as u8))
}

/// Appends a number in decimal digits.
///
/// # Errors
///
/// `AllocError` if memory is refused. What the text holds then isn't said.
pub fn push_number(out: &mut String, n: u32) -> Result<(), AllocError>
    ensures { OnOk result (string_bytes out.new ≡ string_bytes out.old ++ decimal n) }
{
    if n < 10 {
        return push_digit(out, n);
    }
    if n < 100 {
        push_digit(out, n / 10)?;
    } else {
        push_number(out, n / 10)?;
    }
    push_digit(out, n % 10)
}

// The room for a move: ESC [, two numbers, and what parts and ends them.
const ROOM: usize = 24;

// Appends a digit to a move.
fn write_digit(text: &mut ArrayString<ROOM>, digit: u32)
    requires digit { digit < 10 }
    requires room { length text.old.bytes + 1 ≤ 24 }
    ensures { text.new.bytes ≡ text.old.bytes ++ (48 + digit) ∷ [] }
{
    text.push(char::from(b'0' + digit as u8));
}

// Appends a number in decimal digits to a move, each by a call.
#[inline(never)]
fn write_digits(text: &mut ArrayString<ROOM>, n: u32)
    requires { length text.old.bytes + length (decimal n) ≤ 24 }
    ensures { text.new.bytes ≡ text.old.bytes ++ decimal n }
{
    if n < 10 {
        return write_digit(text, n);
    }
    write_digits(text, n / 10);
    write_digit(text, n % 10);
}

// Appends a number in decimal digits to a move; most have one or two.
#[inline(always)]
fn write_number(text: &mut ArrayString<ROOM>, n: u32)
    requires { length text.old.bytes + 10 ≤ 24 }
    ensures number { text.new.bytes ≡ text.old.bytes ++ decimal n }
    ensures room { length text.new.bytes ≤ length text.old.bytes + 10 }
{
    if n < 10 {
        return write_digit(text, n);
    }
    if n >= 100 {
        return write_digits(text, n);
    }
    write_digit(text, n / 10);
    write_digit(text, n % 10);
}

/// Moves the cursor to a column and a row: CUP (cursor position). It is made apart and appended at
/// once, since most of what is sent beside texts is moves.
///
/// # Errors
///
/// `AllocError` if memory is refused. What the text holds then isn't said.
pub fn move_to(out: &mut String, x: u16, y: u16) -> Result<(), AllocError>
    ensures moves { OnOk result (Performs (string_bytes out.old) (string_bytes out.new)
        (cursor_moved x y)) }
    ensures bytes { OnOk result
        (string_bytes out.new ≡ string_bytes out.old ++ cursor_bytes x y) }
{
    let mut text = ArrayString::new();
    text.push_str("\u{1b}[");
    write_number(&mut text, u32::from(y) + 1);
    text.push_str(";");
    write_number(&mut text, u32::from(x) + 1);
    text.push_str("H");
    out.push_str(text.as_str())
}

/// Empties a part of the screen: ED and EL (erase in display, erase in line).
///
/// # Errors
///
/// `AllocError` if memory is refused. What the text holds then isn't said.
pub fn erase(out: &mut String, part: ClearType) -> Result<(), AllocError>
    ensures { OnOk result (Performs (string_bytes out.old) (string_bytes out.new) (erased part)) }
{
    match part {
        ClearType::All => out.push_str("\u{1b}[2J"),
        ClearType::AfterCursor => out.push_str("\u{1b}[J"),
        ClearType::BeforeCursor => out.push_str("\u{1b}[1J"),
        ClearType::CurrentLine => out.push_str("\u{1b}[2K"),
        ClearType::UntilNewLine => out.push_str("\u{1b}[K"),
    }
}

/// Empties the whole screen of so many columns and rows: all up to its last place, which no
/// terminal puts into its history.
///
/// # Errors
///
/// `AllocError` if memory is refused. What the text holds then isn't said.
pub fn erase_all(out: &mut String, width: u16, height: u16) -> Result<(), AllocError>
    ensures { OnOk result (Performs (string_bytes out.old) (string_bytes out.new)
        (λ t. erased BeforeCursor (cursor_moved (width - 1) (height - 1) t))) }
{
    move_to(out, width.saturating_sub(1), height.saturating_sub(1))?;
    erase(out, ClearType::BeforeCursor)
}

/// Shows the cursor: DECTCEM (text cursor enable mode).
///
/// # Errors
///
/// `AllocError` if memory is refused. What the text holds then isn't said.
pub fn show_cursor(out: &mut String) -> Result<(), AllocError>
    ensures { OnOk result (Performs (string_bytes out.old) (string_bytes out.new)
        (cursor_shown true)) }
{
    out.push_str("\u{1b}[?25h")
}

/// Hides the cursor: DECTCEM (text cursor enable mode).
///
/// # Errors
///
/// `AllocError` if memory is refused. What the text holds then isn't said.
pub fn hide_cursor(out: &mut String) -> Result<(), AllocError>
    ensures { OnOk result (Performs (string_bytes out.old) (string_bytes out.new)
        (cursor_shown false)) }
{
    out.push_str("\u{1b}[?25l")
}

/// Returns what begins a synchronized update: what is printed from then on isn't shown before its
/// end.
pub fn update_begin() -> &'static str
    ensures { (old : List ℕ) → Performs old (old ++ result.now) (holding true) }
{
    "\u{1b}[?2026h"
}

/// Returns what ends a synchronized update. It takes no memory.
pub fn update_end() -> &'static str
    ensures { (old : List ℕ) → Performs old (old ++ result.now) (holding false) }
{
    "\u{1b}[?2026l"
}

/// Moves the cursor to the first column, and `n` rows down: CR and LF (carriage return, line feed).
/// What goes past the end of the scroll region scrolls.
///
/// # Errors
///
/// `AllocError` if memory is refused. What the text holds then isn't said.
pub fn line_feeds(out: &mut String, n: u16) -> Result<(), AllocError>
    ensures { OnOk result (Performs (string_bytes out.old) (string_bytes out.new)
        (λ t. fed n (returned t))) }
{
    out.push_str("\r")?;
    for _ in 0..n {
        out.push_str("\n")?;
    }
    Ok(())
}

/// Makes the rows from `top` up to `bottom` the scroll region, and moves the cursor to the corner:
/// DECSTBM (set top and bottom margins).
///
/// # Conditions
///
/// The region has at least two rows: terminals take no smaller one.
///
/// # Errors
///
/// `AllocError` if memory is refused. What the text holds then isn't said.
pub fn set_region(out: &mut String, top: u16, bottom: u16) -> Result<(), AllocError>
    requires { top + 1 < bottom }
    ensures { OnOk result (Performs (string_bytes out.old) (string_bytes out.new)
        (with_region top bottom)) }
{
    write!(out, "\u{1b}[{};{}r", u32::from(top) + 1, bottom)
}

/// Makes the whole screen the scroll region, and moves the cursor to the corner: DECSTBM without
/// margins.
///
/// # Errors
///
/// `AllocError` if memory is refused. What the text holds then isn't said.
pub fn reset_region(out: &mut String) -> Result<(), AllocError>
    ensures { OnOk result (Performs (string_bytes out.old) (string_bytes out.new) without_region) }
{
    out.push_str("\u{1b}[r")
}

/// Deletes `n` rows from the cursor's on, and moves those below them in the scroll region up: DL
/// (delete line).
///
/// # Conditions
///
/// `n` is at least 1.
///
/// # Errors
///
/// `AllocError` if memory is refused. What the text holds then isn't said.
pub fn delete_lines(out: &mut String, n: u16) -> Result<(), AllocError>
    requires { 0 < n }
    ensures { OnOk result (Performs (string_bytes out.old) (string_bytes out.new)
        (lines_deleted n)) }
{
    write!(out, "\u{1b}[{}M", n)
}

/// Inserts `n` blank rows at the cursor's row, and moves those from there on in the scroll region
/// down: IL (insert line).
///
/// # Conditions
///
/// `n` is at least 1.
///
/// # Errors
///
/// `AllocError` if memory is refused. What the text holds then isn't said.
pub fn insert_lines(out: &mut String, n: u16) -> Result<(), AllocError>
    requires { 0 < n }
    ensures { OnOk result (Performs (string_bytes out.old) (string_bytes out.new)
        (lines_inserted n)) }
{
    write!(out, "\u{1b}[{}L", n)
}
