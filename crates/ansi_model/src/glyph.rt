//! Symbols, as terminals print them.

ghost use Rattle.std.specs.Prelude.{◌≡◌, ◌∷◌, [], List, ℕ, false, chars, IsUtf8, MatchOption, None};
ghost use Rattle.std.specs.List.{list_all};
ghost use Rattle.ansi_model.specs.Symbols.{is_plain_char, is_printed, is_disputed, only_of, glyph_columns};
ghost use Rattle.ansi_model.specs.Symbols.{IsGlyphOf};

use crate::symbol::{is_plain, is_shown, is_symbol, only_char};
use ratatui_core::buffer::{CellWidth, columns_of_char};

/// A symbol, as terminals print it.
#[derive(Debug, Clone, Copy, PartialEq, Eq)]
pub enum Glyph {
    /// As this plain character, in one column.
    Plain(char),
    /// As one symbol that isn't plain, in so many columns.
    Whole(u16),
    /// The same, with U+FE0F: some terminals print it in one column.
    Disputed(u16),
}

impl Glyph {
    /// Returns in how many columns it is printed.
    pub fn columns(self) -> u16
        ensures { result ≡ glyph_columns self }
    {
        match self {
            Glyph::Plain(_) => 1,
            Glyph::Whole(columns) | Glyph::Disputed(columns) => columns,
        }
    }
}

// Whether all characters of a text are plain.
fn are_plain(text: &str) -> bool
    ensures { result ≡ list_all is_plain_char (chars text.now) }
{
    text.chars().all(|c| is_plain(c))
}

// Whether terminals differ on a symbol's columns: it has U+FE0F after its first character.
fn is_disputed(text: &str) -> bool
    ensures { result ≡ is_disputed text.now }
{
    text.chars().skip(1).any(|c| c == '\u{fe0f}')
}

// How terminals print a text of this one character.
fn glyph_of_char(c: char) -> Option<Glyph>
    ensures { (text : List ℕ) → IsUtf8 text → chars text ≡ c ∷ []
        → MatchOption result (is_printed text ≡ false) (IsGlyphOf text) }
{
    if is_plain(c) {
        return Some(Glyph::Plain(c));
    }
    if !is_shown(c) {
        return None;
    }
    let columns = columns_of_char(c);
    if columns == 0 {
        return None;
    }
    Some(Glyph::Whole(columns))
}

// How terminals print a text of several characters, or of none.
fn glyph_of_text(text: &str) -> Option<Glyph>
    requires { only_of (chars text.now) ≡ None }
    ensures { MatchOption result (is_printed text.now ≡ false) (IsGlyphOf text.now) }
{
    if !is_symbol(text) {
        return None;
    }
    if are_plain(text) {
        return None;
    }
    let columns = text.cell_width();
    if is_disputed(text) {
        return Some(Glyph::Disputed(columns));
    }
    Some(Glyph::Whole(columns))
}

/// Returns how terminals print a text as one symbol: one plain character, or a symbol that isn't
/// plain throughout. None if they don't.
pub fn glyph_of(text: &str) -> Option<Glyph>
    ensures { MatchOption result (is_printed text.now ≡ false) (IsGlyphOf text.now) }
{
    match only_char(text) {
        Some(c) => glyph_of_char(c),
        None => glyph_of_text(text),
    }
}

/// Returns whether terminals print a text as one symbol.
pub fn is_printed(text: &str) -> bool
    ensures { result ≡ is_printed text.now }
{
    match glyph_of(text) {
        Some(_) => true,
        None => false,
    }
}
