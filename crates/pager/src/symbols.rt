//! The symbols of a line: what is shown for each of its graphemes, and in how many columns.

ghost use Rattle.std.specs.Prelude.{◌≡◌, ℕ, List, length, take};
ghost use Rattle.std.specs.Str.{str_eq_ignore_ascii_case};
ghost use Rattle.ratatui_core.specs.Text.{has_control};
ghost use Rattle.pager.specs.declared.sought.Sought.TheVariants.{Plain};
ghost use Rattle.pager.specs.Search.{has_capital, begins_with};
ghost use Rattle.pager.specs.Symbols.{is_tab, is_replaced, shown_symbol, shown_columns, reversed};
ghost use Rattle.pager.specs.Symbols.{marked_bytes, mark_style, runs_after, first_style};

use crate::styles::Run;
use ansi_model::is_printed;
use ratatui_core::buffer::CellWidth;
use ratatui_core::style::{Modifier, Style};

// Whether a text has a control character.
fn has_control(text: &str) -> bool
    ensures { result ≡ has_control text.now }
{
    text.chars().any(|c| c.is_control())
}

// Whether U+FFFD is shown in place of a grapheme.
fn is_replaced(grapheme: &str) -> bool
    ensures { result ≡ is_replaced grapheme.now }
{
    has_control(grapheme) || (grapheme.cell_width() > 0 && !is_printed(grapheme))
}

// Whether a grapheme is a tab.
fn is_tab(grapheme: &str) -> bool
    ensures { result ≡ is_tab grapheme.now }
{
    grapheme == "\t"
}

// What is shown for a grapheme.
#[tactic(auto, unfolding(crate::specs::Symbols::shown_symbol))]
pub(crate) fn shown_text(grapheme: &str) -> &str
    ensures { result.now ≡ shown_symbol grapheme.now }
{
    if is_tab(grapheme) {
        ""
    } else if is_replaced(grapheme) {
        "\u{fffd}"
    } else {
        grapheme
    }
}

// How many columns a grapheme takes that begins in a column.
#[tactic(auto, unfolding(crate::specs::Symbols::shown_columns))]
pub(crate) fn shown_columns(column: u64, grapheme: &str) -> u16
    ensures { result ≡ shown_columns column grapheme.now }
{
    if is_tab(grapheme) {
        8 - (column % 8) as u16
    } else if is_replaced(grapheme) {
        1
    } else {
        grapheme.cell_width()
    }
}

/// Reversed.
pub(crate) fn reversed() -> Style
    ensures { result ≡ reversed }
{
    Style::new().add_modifier(Modifier::REVERSED)
}

// Whether a text has one of the letters A to Z.
pub(crate) fn has_capital(text: &str) -> bool
    ensures { result ≡ has_capital text.now }
{
    text.chars().any(|c| c.is_ascii_uppercase())
}

// Whether a text begins with another, if capitals count as small letters.
pub(crate) fn begins_in_any_case(pattern: &[u8], text: &[u8]) -> bool
    ensures { result ≡ str_eq_ignore_ascii_case pattern.now (take (length pattern.now) text.now) }
{
    if text.len() < pattern.len() {
        return false;
    }
    pattern.eq_ignore_ascii_case(&text[..pattern.len()])
}

// Whether a text begins with another; a capital counts as a small letter, unless one is sought.
fn begins_with(pattern: &str, text: &str) -> bool
    ensures { result ≡ begins_with pattern.now text.now }
{
    if has_capital(pattern) {
        text.starts_with(pattern)
    } else {
        begins_in_any_case(pattern.as_bytes(), text.as_bytes())
    }
}

// How many bytes of the rest of a line are marked for a text, where so many were marked of an earlier
// match.
pub(crate) fn marked_text(text: &str, marked: usize, rest: &str) -> usize
    ensures { (line : List ℕ) → result ≡ marked_bytes (Plain text.now) line marked rest.now }
{
    let is_match = !text.is_empty() && begins_with(text, rest);
    if is_match { text.len() } else { marked }
}

// The style of a grapheme of which so many bytes are marked.
pub(crate) fn mark_style(marked: usize, style: Style) -> Style
    ensures { result ≡ mark_style marked style }
{
    if marked > 0 { reversed() } else { style }
}

// The runs of a line that end after a byte of it.
pub(crate) fn runs_after(byte: usize, runs: &[Run]) -> &[Run]
    ensures { result.now ≡ runs_after byte runs.now }
{
    let mut left = runs;
    while let Some((run, rest)) = left.split_first() {
        if byte < run.end {
            return left;
        }
        left = rest;
    }
    left
}

// The style of the first run.
pub(crate) fn first_style(runs: &[Run]) -> Style
    ensures { result ≡ first_style runs.now }
{
    match runs.first() {
        Some(run) => run.style,
        None => Style::new(),
    }
}
