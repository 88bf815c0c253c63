//! Texts that are sent as symbols.

ghost use Rattle.std.specs.Prelude.{◌≡◌, ◌≤◌, ◌&&◌, true, [], ◌∷◌, OnOk, IfSome, IsTrue, string_bytes};
ghost use Rattle.std.specs.Prelude.{encode_utf8, chars};
ghost use Rattle.std.specs.List.{list_all};
ghost use Rattle.unicode_segmentation.specs.Grapheme.{graphemes};
ghost use Rattle.ansi_model.specs.Symbols.{is_plain_char, is_shown, has_columns};
ghost use Rattle.ansi_model.specs.Symbols.{begins_anew, is_columnless, is_single, is_symbol, only_of};
ghost use Rattle.ansi_model.specs.Sends.{Sends, typed};

use ratatui_core::buffer::{CellWidth, columns_of_char};
use std::alloc::AllocError;
use unicode_segmentation::UnicodeSegmentation;

/// Returns whether a character is shown, or joins one that is: no control character, and none that
/// turns the direction.
pub fn is_shown(c: char) -> bool
    ensures { result ≡ is_shown c }
{
    !matches!(
        c,
        '\u{0}'..='\u{1f}'
            | '\u{7f}'..='\u{9f}'
            | '\u{61c}'
            | '\u{200e}'..='\u{200f}'
            | '\u{202a}'..='\u{202e}'
            | '\u{2066}'..='\u{2069}'
    )
}

// Whether all characters of a text are.
fn are_shown(text: &str) -> bool
    ensures { result ≡ list_all is_shown (chars text.now) }
{
    text.chars().all(|c| is_shown(c))
}

/// Returns whether a character takes one column and never joins its neighbours: printable ASCII,
/// Latin letters, lines and blocks.
pub fn is_plain(c: char) -> bool
    ensures { result ≡ is_plain_char c }
{
    matches!(c, ' '..='~' | '\u{c0}'..='\u{17f}' | '\u{2500}'..='\u{259f}')
}

// Whether a character has columns of its own.
fn has_columns(c: char) -> bool
    ensures { result ≡ has_columns c }
{
    is_plain(c) || columns_of_char(c) > 0
}

/// Returns the character of a text that has only one.
pub fn only_char(text: &str) -> Option<char>
    ensures { result ≡ only_of (chars text.now) }
{
    let mut rest = text.chars();
    if let Some(first) = rest.next()
        && rest.as_str().is_empty()
    {
        return Some(first);
    }
    None
}

/// Returns the character of a text that has only one, which is printable ASCII.
pub fn only_printable(text: &str) -> Option<char>
    ensures { IfSome result (λ c. (text.now ≡ c ∷ []) × (32 ≤ c) × (c ≤ 126)) }
{
    match text.as_bytes() {
        [byte @ b' '..=b'~'] => Some(char::from(*byte)),
        _ => None,
    }
}

// Whether a text begins with a character that has columns of its own.
fn begins_anew(text: &str) -> bool
    ensures { result ≡ begins_anew (chars text.now) }
{
    match text.chars().next() {
        Some(first) => has_columns(first),
        None => false,
    }
}

// Whether a grapheme has no columns.
fn is_columnless(grapheme: &str) -> bool
    ensures { result ≡ is_columnless grapheme.now }
{
    grapheme.cell_width() == 0
}

// Whether of a text's graphemes the first alone has columns.
fn is_single(text: &str) -> bool
    ensures { result ≡ is_single (graphemes true text.now) }
{
    let mut rest = text.graphemes(true);
    let _first = rest.next();
    for grapheme in rest {
        if !is_columnless(grapheme) {
            return false;
        }
    }
    true
}

// Whether all characters of a text are shown, and only the first of its graphemes has columns.
fn is_shown_as_one(text: &str) -> bool
    ensures { result ≡ (list_all is_shown (chars text.now) && is_single (graphemes true text.now)) }
{
    are_shown(text) && is_single(text)
}

/// Returns whether terminals show a text as one symbol: it has no control characters, none that
/// turn the direction, begins with a character that has columns of its own, and only the first of
/// its graphemes has columns.
pub fn is_symbol(text: &str) -> bool
    ensures { result ≡ is_symbol text.now }
{
    begins_anew(text) && is_shown_as_one(text)
}

/// Sends a plain character, to be printed where the cursor is.
///
/// # Conditions
///
/// The character is plain, as [`is_plain`] says.
///
/// # Errors
///
/// `AllocError` if memory is refused. What the text holds then isn't said.
pub fn push_plain(out: &mut String, ch: char) -> Result<(), AllocError>
    requires { IsTrue (is_plain_char ch) }
    ensures { OnOk result (Sends (string_bytes out.old) (string_bytes out.new)
        (typed (encode_utf8 ch))) }
{
    out.push(ch)
}

/// Sends a symbol, to be printed where the cursor is.
///
/// # Conditions
///
/// The text is a symbol, as [`is_symbol`] says.
///
/// # Errors
///
/// `AllocError` if memory is refused. What the text holds then isn't said.
pub fn push_symbol(out: &mut String, symbol: &str) -> Result<(), AllocError>
    requires { IsTrue (is_symbol symbol.now) }
    ensures { OnOk result (Sends (string_bytes out.old) (string_bytes out.new)
        (typed symbol.now)) }
{
    out.push_str(symbol)
}
