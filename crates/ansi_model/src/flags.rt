//! The flags of a screen's columns, one for each and row by row: whether it is a continuation
//! column.

ghost use Rattle.std.specs.Prelude.{◌≡◌, ℕ, ◌+◌, ◌-◌, ◌*◌, ◌<◌, ◌≤◌, ◌&&◌, min, nat_le, nat_lt};
ghost use Rattle.std.specs.Prelude.{if◌then◌else◌, true, false, length, IfOk};
ghost use Rattle.ratatui_core.specs.Backend.{BeforeCursor, is_cleared, scrolling_up, scrolling_down};
ghost use Rattle.ratatui_core.specs.Backend.{clearing};
ghost use Rattle.ansi_model.specs.Columns.{Columns, blank_column};
ghost use Rattle.ansi_model.specs.Emulator.{columns_moved};
ghost use Rattle.ansi_model.specs.Flags.{flag, AreContinuations, is_cut};

use ratatui_core::backend::ClearType;
use ratatui_core::layout::Size;
use rtui_grid::{fill, shift_down, shift_up};
use std::alloc::{AllocError, Global};
use std::ops::Range;

/// Makes the flags of a blank screen.
pub fn blank_flags(alloc: Global, size: Size) -> Result<Vec<bool>, AllocError>
    ensures { IfOk result (λ flags. AreContinuations size.width size.height flags.items
        (λ a b. blank_column)) }
{
    let count = usize::from(size.width) * usize::from(size.height);
    Vec::from_elem(alloc, false, count)
}

/// Moves the flags of a region's rows up by `n` rows, as the rows themselves; the region ends at
/// the screen's last row at the latest.
///
/// # Conditions
///
/// There is a flag for each column of each row of the screen.
pub fn raise_flags(flags: &mut [bool], size: Size, region: Range<u16>, n: u16)
    requires { length flags.old ≡ size.width * size.height }
    ensures { (c : Columns) → AreContinuations size.width size.height flags.old c
        → AreContinuations size.width size.height flags.new
        (columns_moved (scrolling_up region.start (min region.end size.height) n) c) }
{
    let end = region.end.min(size.height);
    if region.start < end {
        let width = usize::from(size.width);
        let from = usize::from(region.start) * width;
        let to = usize::from(end) * width;
        shift_up(flags, from, to, usize::from(n) * width);
    }
}

/// Moves the flags of a region's rows down by `n` rows, as the rows themselves; the region ends at
/// the screen's last row at the latest.
///
/// # Conditions
///
/// There is a flag for each column of each row of the screen.
pub fn lower_flags(flags: &mut [bool], size: Size, region: Range<u16>, n: u16)
    requires { length flags.old ≡ size.width * size.height }
    ensures { (c : Columns) → AreContinuations size.width size.height flags.old c
        → AreContinuations size.width size.height flags.new
        (columns_moved (scrolling_down region.start (min region.end size.height) n) c) }
{
    let end = region.end.min(size.height);
    if region.start < end {
        let width = usize::from(size.width);
        let from = usize::from(region.start) * width;
        let to = usize::from(end) * width;
        shift_down(flags, from, to, usize::from(n) * width);
    }
}

/// Clears all flags of a screen.
pub fn clear_flags(flags: &mut [bool])
    ensures { (w h : ℕ) (c : Columns) → AreContinuations w h flags.old c
        → AreContinuations w h flags.new (columns_moved (clearing (λ a b. nat_lt b h)) c) }
{
    let count = flags.len();
    fill(flags, 0, count);
}

// The places of the flags of a part's columns.
fn part_places(size: Size, part: ClearType, x: u16, y: u16) -> (usize, usize)
    requires column { x < size.width }
    requires row { y < size.height }
    ensures order { result.0 ≤ result.1 }
    ensures end { result.1 ≤ size.width * size.height }
    ensures places { (a b : ℕ) → a < size.width → b < size.height
        → (nat_le result.0 (b * size.width + a) && nat_lt (b * size.width + a) result.1)
        ≡ is_cleared part x y a b }
{
    let width = usize::from(size.width);
    let line = usize::from(y) * width;
    let at = line + usize::from(x);
    match part {
        ClearType::All => (0, width * usize::from(size.height)),
        ClearType::AfterCursor => (at, width * usize::from(size.height)),
        ClearType::BeforeCursor => (0, at + 1),
        ClearType::CurrentLine => (line, line + width),
        ClearType::UntilNewLine => (at, line + width),
    }
}

/// Clears the flags of a part of the screen, for a cursor in this column and row.
///
/// # Conditions
///
/// There is a flag for each column of each row of the screen, and the place lies on it.
pub fn clear_part_flags(flags: &mut [bool], size: Size, part: ClearType, x: u16, y: u16)
    requires count { length flags.old ≡ size.width * size.height }
    requires column { x < size.width }
    requires row { y < size.height }
    ensures { (c : Columns) → AreContinuations size.width size.height flags.old c
        → AreContinuations size.width size.height flags.new
        (columns_moved (clearing (is_cleared part x y)) c) }
{
    let (from, to) = part_places(size, part, x, y);
    fill(flags, from, to);
}

/// Returns whether the column in this place is a continuation column.
///
/// # Conditions
///
/// There is a flag for each column of each row of the screen, and the place lies on it.
pub fn is_continuation(flags: &[bool], size: Size, x: u16, y: u16) -> bool
    requires count { length flags.now ≡ size.width * size.height }
    requires column { x < size.width }
    requires row { y < size.height }
    ensures { result ≡ flag flags.now (y * size.width + x) }
{
    flags[usize::from(y) * usize::from(size.width) + usize::from(x)]
}

/// Returns the first column from `from` on whose flag isn't set, or the row's end. The row begins
/// at `start`.
pub fn tail_end(flags: &[bool], start: usize, from: u16, width: u16) -> u16
    requires row { start + width ≤ length flags.now }
    requires fits { from ≤ width }
    ensures low { from ≤ result }
    ensures high { result ≤ width }
    ensures continuations { (k : ℕ) → from ≤ k → k < result → flag flags.now (start + k) ≡ true }
    ensures ended { result < width → flag flags.now (start + result) ≡ false }
{
    for column in from..width {
        if !flags[start + usize::from(column)] {
            return column;
        }
    }
    width
}

/// Returns the last column of the symbol that has a column in this place.
///
/// # Conditions
///
/// There is a flag for each column of each row of the screen, and the place lies on it.
pub fn symbol_end(flags: &[bool], size: Size, x: u16, y: u16) -> u16
    requires count { length flags.now ≡ size.width * size.height }
    requires column { x < size.width }
    requires row { y < size.height }
    ensures from { x ≤ result }
    ensures column { result < size.width }
    ensures continuations { (k : ℕ) → x < k → k ≤ result
        → flag flags.now (y * size.width + k) ≡ true }
    ensures ended { is_cut BeforeCursor size.width result y flags.now ≡ false }
{
    let start = usize::from(y) * usize::from(size.width);
    tail_end(flags, start, x + 1, size.width) - 1
}

/// Sets the flags of a symbol's columns, from the place `first` up to `past_it` but for the first
/// one, and unsets those from there up to `end`.
#[inline(never)]
pub fn mark_symbol(flags: &mut [bool], first: usize, past_it: usize, end: usize)
    requires ordered { first ≤ end }
    requires row { end ≤ length flags.old }
    ensures { (k : ℕ) → flag flags.new k
        ≡ (if nat_le first k && nat_lt k end then nat_lt first k && nat_lt k past_it
        else flag flags.old k) }
{
    for place in first..end {
        flags[place] = first < place && place < past_it;
    }
}
