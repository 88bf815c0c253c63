//! How far a cursor goes.

ghost use Rattle.std.specs.Prelude.{◌≡◌, ◌+◌, ◌-◌, ◌<◌, ◌≤◌, length, take, drop};
ghost use Rattle.std.specs.Prelude.{slice_index, true, false};
ghost use Rattle.std.specs.List.{prefix_len, suffix_len};
ghost use Rattle.std.specs.Str.{IsCharBoundary};
ghost use Rattle.unicode_segmentation.specs.Grapheme.{graphemes};
ghost use Rattle.text_field.specs.Reach.{first_text, last_text};
ghost use Rattle.text_area.specs.Extents.{is_gap, in_word, line_left, line_right};
ghost use Rattle.text_area.specs.Extents.{extent_left, extent_right};
ghost use Rattle.text_area.specs.declared.extent.Extent.TheVariants.{Grapheme, Word, LineOrBreak};

use crate::runs::{Run, run_end, run_start};
use memchr::{memchr, memchr3, memrchr, memrchr3};
use unicode_segmentation::UnicodeSegmentation;

/// An `Extent` says how far a move goes from the cursor on.
#[derive(Debug, Clone, Copy, PartialEq, Eq, Hash)]
pub enum Extent {
    /// It goes over one grapheme: what a reader takes for one character. A line feed is one, too.
    Grapheme,
    /// It goes over what is between words, and over the word after it. Words are parted by blanks,
    /// tabs and line feeds alone.
    Word,
    /// It goes to the end of the line, or to its start.
    Line,
    /// It goes to the end of the line, or to its start; or over the line feed there if that is
    /// next to the cursor.
    LineOrBreak,
    /// It goes over all.
    Text,
}

// Where the line begins in which a place stands.
#[tactic(auto, using(crate::proofs::RunLemmas::run_rules))]
pub(crate) fn line_begin(text: &str, at: usize) -> usize
    requires { at ≤ length text.now }
    ensures value { result + line_left (take at text.now) ≡ at }
    ensures boundary { IsCharBoundary text.now result }
    ensures stops { 0 < result → slice_index text.now (result - 1) ≡ 10 }
{
    match memrchr(b'\n', &text.as_bytes()[..at]) {
        Some(feed) => feed + 1,
        None => 0,
    }
}

// Where the line ends in which a place stands.
pub(crate) fn line_end(text: &str, at: usize) -> usize
    requires { at ≤ length text.now }
    ensures value { result ≡ at + line_right (drop at text.now) }
    ensures boundary { IsCharBoundary text.now result }
    ensures stops { result < length text.now → slice_index text.now result ≡ 10 }
{
    match memchr(b'\n', &text.as_bytes()[at..]) {
        Some(offset) => at + offset,
        None => text.len(),
    }
}

// Where the bytes of a word begin that end at a place.
fn letters_begin(bytes: &[u8], at: usize) -> usize
    requires { at ≤ length bytes.now }
    ensures value { result + suffix_len in_word (take at bytes.now) ≡ at }
    ensures stops { 0 < result → is_gap (slice_index bytes.now (result - 1)) ≡ true }
{
    match memrchr3(b'\n', b'\t', b' ', &bytes[..at]) {
        Some(gap) => gap + 1,
        None => 0,
    }
}

// Where the bytes of a word end that begin at a place.
fn letters_end(bytes: &[u8], at: usize) -> usize
    requires { at ≤ length bytes.now }
    ensures value { result ≡ at + prefix_len in_word (drop at bytes.now) }
    ensures within { result ≤ length bytes.now }
    ensures stops { result < length bytes.now → is_gap (slice_index bytes.now result) ≡ true }
{
    match memchr3(b'\n', b'\t', b' ', &bytes[at..]) {
        Some(offset) => at + offset,
        None => bytes.len(),
    }
}

// Where the word begins that stands before a place, over what is between words.
#[tactic(auto, using(crate::proofs::RunLemmas::run_rules))]
fn word_begin(text: &str, at: usize) -> usize
    requires { at ≤ length text.now }
    ensures value { result + extent_left Word (take at text.now) ≡ at }
    ensures boundary { IsCharBoundary text.now result }
{
    let bytes = text.as_bytes();
    letters_begin(bytes, run_start(bytes, at, Run::Gap))
}

// Where the word ends that stands after a place, over what is between words.
#[tactic(auto, using(crate::proofs::RunLemmas::run_rules))]
fn word_end(text: &str, at: usize) -> usize
    requires { at ≤ length text.now }
    ensures value { result ≡ at + extent_right Word (drop at text.now) }
    ensures boundary { IsCharBoundary text.now result }
{
    let bytes = text.as_bytes();
    letters_end(bytes, run_end(bytes, at, Run::Gap))
}

// Where the line begins in which a place stands, or the place before the line feed there.
#[tactic(auto, using(crate::proofs::RunLemmas::run_rules))]
fn break_begin(text: &str, at: usize) -> usize
    requires { at ≤ length text.now }
    ensures value { result + extent_left LineOrBreak (take at text.now) ≡ at }
    ensures boundary { IsCharBoundary text.now result }
{
    let start = line_begin(text, at);
    if start == at && start > 0 {
        start - 1
    } else {
        start
    }
}

// Where the line ends in which a place stands, or the place after the line feed there.
#[tactic(auto, using(crate::proofs::RunLemmas::run_rules))]
fn break_end(text: &str, at: usize) -> usize
    requires { at ≤ length text.now }
    ensures value { result ≡ at + extent_right LineOrBreak (drop at text.now) }
    ensures boundary { IsCharBoundary text.now result }
{
    let end = line_end(text, at);
    if end == at && end < text.len() {
        end + 1
    } else {
        end
    }
}

// Where the last grapheme of a text begins.
#[tactic(auto, using(text_field::proofs::ReachLemmas::last_rules))]
fn last_grapheme(text: &str) -> usize
    ensures value { result + length (last_text (graphemes true text.now)) ≡ length text.now }
    ensures boundary { IsCharBoundary text.now result }
{
    let mut graphemes = text.graphemes(true);
    match graphemes.next_back() {
        Some(_) => graphemes.as_str().len(),
        None => text.len(),
    }
}

// Where the first grapheme of a text ends.
#[tactic(auto, using(text_field::proofs::ReachLemmas::first_rules))]
fn first_grapheme(text: &str) -> usize
    ensures value { result ≡ length (first_text (graphemes true text.now)) }
    ensures boundary { IsCharBoundary text.now result }
{
    let mut graphemes = text.graphemes(true);
    match graphemes.next() {
        Some(first) => first.len(),
        None => 0,
    }
}

// Where the grapheme begins that stands before a place.
#[tactic(auto, using(text_field::proofs::ReachLemmas::place_rules))]
fn grapheme_begin(text: &str, at: usize) -> usize
    requires { IsCharBoundary text.now at }
    ensures value { result + extent_left Grapheme (take at text.now) ≡ at }
    ensures boundary { IsCharBoundary text.now result }
{
    last_grapheme(text.split_at(at).0)
}

// Where the grapheme ends that stands after a place.
#[tactic(auto, using(text_field::proofs::ReachLemmas::place_rules))]
fn grapheme_end(text: &str, at: usize) -> usize
    requires { IsCharBoundary text.now at }
    ensures value { result ≡ at + extent_right Grapheme (drop at text.now) }
    ensures boundary { IsCharBoundary text.now result }
{
    at + first_grapheme(text.split_at(at).1)
}

// The place that is so far to the left of a place.
pub(crate) fn left_of(text: &str, at: usize, extent: Extent) -> usize
    requires { IsCharBoundary text.now at }
    ensures value { result + extent_left extent (take at text.now) ≡ at }
    ensures boundary { IsCharBoundary text.now result }
{
    match extent {
        Extent::Grapheme => grapheme_begin(text, at),
        Extent::Word => word_begin(text, at),
        Extent::Line => line_begin(text, at),
        Extent::LineOrBreak => break_begin(text, at),
        Extent::Text => 0,
    }
}

// The place that is so far to the right of a place.
pub(crate) fn right_of(text: &str, at: usize, extent: Extent) -> usize
    requires { IsCharBoundary text.now at }
    ensures value { result ≡ at + extent_right extent (drop at text.now) }
    ensures boundary { IsCharBoundary text.now result }
{
    match extent {
        Extent::Grapheme => grapheme_end(text, at),
        Extent::Word => word_end(text, at),
        Extent::Line => line_end(text, at),
        Extent::LineOrBreak => break_end(text, at),
        Extent::Text => text.len(),
    }
}
