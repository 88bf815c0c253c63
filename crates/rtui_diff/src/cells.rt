//! What the walk asks of a cell.

ghost use Rattle.std.specs.Prelude.{◌≡◌, IsTrue, length};
ghost use Rattle.std.specs.Str.{bytes_eq};
ghost use Rattle.rtui_cell.specs.Cell.{is_single_byte};
ghost use Rattle.rtui_cell.specs.Equality.{is_same, is_same_symbol};
ghost use Rattle.rtui_diff.specs.Inner.{has_same_style};
ghost use Rattle.rtui_diff.specs.Cells.{has_fe0f, is_forced, is_always, shows_on_blank};

use bitflags::Flags;
use rtui_cell::{Cell, CellDiffOption};
use rtui_style::{Color, Modifier};

// The modifiers that show on a blank.
fn shown_on_blank() -> Modifier
    ensures { result ≡ record { 0 = 376 } }
{
    Modifier::REVERSED
        .union(Modifier::UNDERLINED)
        .union(Modifier::SLOW_BLINK)
        .union(Modifier::RAPID_BLINK)
        .union(Modifier::CROSSED_OUT)
}

// The symbol holds the variation selector that asks for an emoji.
#[tactic(auto, unfolding(crate::specs::Cells::has_fe0f))]
pub fn has_fe0f(cell: &Cell) -> bool
    ensures { result ≡ has_fe0f cell.now }
{
    cell.symbol().chars().any(|c| c == '\u{FE0F}')
}

// Whether the background or the modifiers show on a blank.
#[tactic(auto, unfolding(crate::specs::Cells::shows_on_blank))]
pub fn shows_on_blank(cell: &Cell) -> bool
    ensures { result ≡ shows_on_blank cell.now }
{
    !matches!(cell.bg, Color::Reset) || cell.modifier.intersects(shown_on_blank())
}

#[tactic(auto, unfolding(crate::specs::Cells::is_forced))]
pub fn is_forced(cell: &Cell) -> bool
    ensures { result ≡ is_forced cell.now }
{
    matches!(cell.diff_option, CellDiffOption::ForcedWidth(_))
}

#[tactic(auto, unfolding(crate::specs::Cells::is_always))]
pub fn is_always(cell: &Cell) -> bool
    ensures { result ≡ is_always cell.now }
{
    matches!(cell.diff_option, CellDiffOption::AlwaysUpdate)
}

// Whether two texts of three bytes are the same.
fn are_same_three(a: &[u8], b: &[u8]) -> bool
    requires former { length a.now ≡ 3 }
    requires next { length b.now ≡ 3 }
    ensures { result ≡ bytes_eq a.now b.now }
{
    (a[0] == b[0]) & (a[1] == b[1]) & (a[2] == b[2])
}

// Whether two texts are the same. Many have three bytes, which are compared without a call.
#[inline(always)]
fn are_same(a: &[u8], b: &[u8]) -> bool
    ensures { result ≡ bytes_eq a.now b.now }
{
    if a.len() != b.len() {
        return false;
    }
    if a.len() == 3 {
        return are_same_three(a, b);
    }
    a == b
}

#[inline(always)]
#[tactic(auto, unfolding(rtui_cell::specs::Equality::is_same_symbol))]
pub fn has_same_symbol(a: &Cell, b: &Cell) -> bool
    ensures { result ≡ is_same_symbol a.now b.now }
{
    are_same(a.symbol().as_bytes(), b.symbol().as_bytes())
}

// Whether two cells have the same colours, modifiers and flag.
#[inline(always)]
#[tactic(auto, unfolding(crate::specs::Inner::has_same_style))]
fn has_same_style(a: &Cell, b: &Cell) -> bool
    ensures { result ≡ has_same_style a.now b.now }
{
    a.fg == b.fg
        && a.bg == b.bg
        && a.underline_color == b.underline_color
        && a.modifier == b.modifier
        && a.skip == b.skip
}

// Whether two cells are the same. Their symbols differ most often.
pub fn is_same(a: &Cell, b: &Cell) -> bool
    ensures { result ≡ is_same a.now b.now }
{
    has_same_symbol(a, b) && has_same_style(a, b) && a.diff_option == b.diff_option
}

// Whether two cells of a single byte each are the same.
#[inline(always)]
pub(crate) fn is_same_byte(a: &Cell, b: &Cell) -> bool
    requires former { IsTrue (is_single_byte a.now) }
    requires next { IsTrue (is_single_byte b.now) }
    ensures { result ≡ is_same a.now b.now }
{
    a.symbol().as_bytes()[0] == b.symbol().as_bytes()[0] && has_same_style(a, b)
}
