//! How far a cursor goes.

ghost use Rattle.std.specs.Prelude.{◌≡◌, ◌+◌, ◌-◌, ◌<◌, ◌≤◌, length, take, drop, reverse};
ghost use Rattle.std.specs.Prelude.{slice_index, true};
ghost use Rattle.std.specs.Str.{IsCharBoundary};
ghost use Rattle.unicode_segmentation.specs.Grapheme.{graphemes};
ghost use Rattle.text_field.specs.Reach.{first_text, last_text, word_len, reach_left, reach_right};

use unicode_segmentation::UnicodeSegmentation;

/// A `Reach` says how far an edit goes from the cursor on.
#[derive(Debug, Clone, Copy, PartialEq, Eq, Hash)]
pub enum Reach {
    /// It goes over one grapheme: what a reader takes for one character.
    Grapheme,
    /// It goes over blanks, and over the word after them. Words are parted by blanks (U+0020)
    /// alone.
    Word,
    /// It goes over all.
    All,
}

// How many bytes the blanks and the word take that a text begins with.
#[tactic(auto, using(crate::proofs::WordLemmas::front_rules))]
fn word_len(bytes: &[u8]) -> usize
    ensures value { result ≡ word_len bytes.now }
    ensures within { result ≤ length bytes.now }
    ensures stops { result < length bytes.now → slice_index bytes.now result ≡ 32 }
{
    let mut end = 0;
    'blanks: while end < bytes.len() && bytes[end] == b' ' {
        end += 1;
    }
    'word: while end < bytes.len() && bytes[end] != b' ' {
        end += 1;
    }
    end
}

// Where the blanks and the word begin that a text ends with.
#[tactic(auto, using(crate::proofs::WordLemmas::back_rules))]
fn last_word(bytes: &[u8]) -> usize
    ensures value { result + word_len (reverse bytes.now) ≡ length bytes.now }
    ensures stops { 0 < result → slice_index bytes.now (result - 1) ≡ 32 }
{
    let mut start = bytes.len();
    'blanks: while start > 0 && bytes[start - 1] == b' ' {
        start -= 1;
    }
    'word: while start > 0 && bytes[start - 1] != b' ' {
        start -= 1;
    }
    start
}

// Where the last grapheme of a text begins.
#[tactic(auto, using(crate::proofs::ReachLemmas::last_rules))]
fn last_grapheme(text: &str) -> usize
    ensures value { result + length (last_text (graphemes true text.now)) ≡ length text.now }
    ensures boundary { IsCharBoundary text.now result }
{
    let mut graphemes = text.graphemes(true);
    match graphemes.next_back() {
        Some(_) => graphemes.as_str().len(),
        None => text.len(),
    }
}

// Where the first grapheme of a text ends.
#[tactic(auto, using(crate::proofs::ReachLemmas::first_rules))]
fn first_grapheme(text: &str) -> usize
    ensures value { result ≡ length (first_text (graphemes true text.now)) }
    ensures boundary { IsCharBoundary text.now result }
{
    let mut graphemes = text.graphemes(true);
    match graphemes.next() {
        Some(first) => first.len(),
        None => 0,
    }
}

// Where the blanks and the word begin that a text ends with; no character is cut there.
fn last_word_start(text: &str) -> usize
    ensures value { result + word_len (reverse text.now) ≡ length text.now }
    ensures boundary { IsCharBoundary text.now result }
{
    last_word(text.as_bytes())
}

// Where the blanks and the word end that a text begins with; no character is cut there.
fn first_word_end(text: &str) -> usize
    ensures value { result ≡ word_len text.now }
    ensures boundary { IsCharBoundary text.now result }
{
    word_len(text.as_bytes())
}

// The start of what is reached to the left in a text.
fn start_of(text: &str, reach: Reach) -> usize
    ensures value { result + reach_left reach text.now ≡ length text.now }
    ensures boundary { IsCharBoundary text.now result }
{
    match reach {
        Reach::Grapheme => last_grapheme(text),
        Reach::Word => last_word_start(text),
        Reach::All => 0,
    }
}

// The end of what is reached to the right in a text.
fn end_of(text: &str, reach: Reach) -> usize
    ensures value { result ≡ reach_right reach text.now }
    ensures boundary { IsCharBoundary text.now result }
{
    match reach {
        Reach::Grapheme => first_grapheme(text),
        Reach::Word => first_word_end(text),
        Reach::All => text.len(),
    }
}

// The place that is reached to the left of a place.
#[tactic(auto, using(crate::proofs::ReachLemmas::place_rules))]
pub(crate) fn left_of(text: &str, at: usize, reach: Reach) -> usize
    requires { IsCharBoundary text.now at }
    ensures value { result + reach_left reach (take at text.now) ≡ at }
    ensures boundary { IsCharBoundary text.now result }
{
    start_of(text.split_at(at).0, reach)
}

// The place that is reached to the right of a place.
#[tactic(auto, using(crate::proofs::ReachLemmas::place_rules))]
pub(crate) fn right_of(text: &str, at: usize, reach: Reach) -> usize
    requires { IsCharBoundary text.now at }
    ensures value { result ≡ at + reach_right reach (drop at text.now) }
    ensures boundary { IsCharBoundary text.now result }
{
    at + end_of(text.split_at(at).1, reach)
}
