ghost use Rattle.std.specs.Prelude.{◌≡◌, ℕ, ◌<◌, ◌≤◌, false, min, chars, [], ◌∷◌};
ghost use Rattle.unicode_width.specs.Width.{str_width};
ghost use Rattle.rtui_cell.specs.Width.{text_width, is_wide_letter, columns_of_char};

use crate::cell::{Cell, CellDiffOption};
use unicode_width::{UnicodeWidthChar, UnicodeWidthStr};

/// How many columns of a terminal something takes.
pub trait CellWidth {
    ghost columns: { Self → ℕ };

    /// Returns the width in columns, at most 65535.
    fn cell_width(&self) -> u16
        ensures { result ≡ columns self.now };
}

/// A text of one byte takes one column; any other its Unicode width, in which each half-width sound
/// mark takes a column of its own.
impl CellWidth for &str {
    ghost columns = { λ text. text_width text.now };

    #[tactic(auto, unfolding(crate::specs::Width::text_width))]
    fn cell_width(&self) -> u16 {
        if self.len() == 1 {
            return 1;
        }
        columns_of_bytes(self)
    }
}

// The Unicode width of a text that isn't one byte; apart, so that the path of a single byte stays
// short. Nearly all other texts are one character; the control characters end below U+00A1.
#[inline(never)]
fn columns_of_bytes(text: &str) -> u16
    ensures { result ≡ min (str_width false (chars text.now)) 65535 }
{
    let mut rest = text.chars();
    if let Some(first) = rest.next()
        && first > '\u{A0}'
        && rest.as_str().is_empty()
    {
        return character_columns(first);
    }
    unicode_columns(text)
}

// The Unicode width of a text of this character alone.
#[tactic(auto, using(crate::proofs::WidthLemmas::columns_alone))]
fn character_columns(character: char) -> u16
    requires { 0xA0 < character }
    ensures { result ≡ min (str_width false (character ∷ [])) 65535 }
{
    columns_of_char(character)
}

// Whether a character is a kana, an ideograph or a syllable of Hangul.
fn is_wide_letter(c: char) -> bool
    ensures { result ≡ is_wide_letter c }
{
    matches!(
        c,
        '\u{3041}'..='\u{3096}'
            | '\u{309b}'..='\u{30ff}'
            | '\u{3400}'..='\u{9fff}'
            | '\u{ac00}'..='\u{d7a3}'
    )
}

/// Returns how many columns a character takes by itself: none if it is a control character or joins
/// what is before it. Of most wide characters it is known without a look at Unicode's tables.
#[tactic(auto, using(crate::proofs::WideLemmas::wide_letter))]
#[inline]
pub fn columns_of_char(c: char) -> u16
    ensures value { result ≡ columns_of_char c }
    ensures few { result ≤ 3 }
{
    if is_wide_letter(c) {
        return 2;
    }
    match c.width() {
        Some(columns) => columns as u16,
        None => 0,
    }
}

// The Unicode width, at most 65535; apart, so that the path of a single byte stays short.
#[inline(never)]
fn unicode_columns(text: &str) -> u16
    ensures { result ≡ min (str_width false (chars text.now)) 65535 }
{
    text.width().min(65535) as u16
}

/// The forced width if there is one, else that of the symbol.
impl CellWidth for Cell {
    ghost use Rattle.rtui_cell.specs.Cell.{width_of};

    ghost columns = { width_of };

    #[tactic(auto, unfolding(crate::specs::Cell::width_of))]
    fn cell_width(&self) -> u16 {
        if self.is_single_byte() {
            return 1;
        }
        match self.diff_option {
            CellDiffOption::ForcedWidth(width) => width.get(),
            _ => self.symbol().cell_width(),
        }
    }
}
