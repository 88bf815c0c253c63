//! Lines of a text, and columns in them.

ghost use Rattle.std.specs.Prelude.{◌≡◌, ◌+◌, ◌-◌, ◌<◌, ◌≤◌, length, take, drop, min};
ghost use Rattle.std.specs.Prelude.{slice_index, true};
ghost use Rattle.std.specs.Prelude.{IfSome, IfNone, is_some};
ghost use Rattle.std.specs.List.{concat};
ghost use Rattle.std.specs.Str.{IsCharBoundary};
ghost use Rattle.unicode_segmentation.specs.Grapheme.{graphemes};
ghost use Rattle.text_area.specs.Lines.{feeds, nth_start, columns_len, column_after, place_above};
ghost use Rattle.text_area.specs.Lines.{place_below, first_line, nth_line};
ghost use Rattle.text_area.specs.Inner.{BeginsLine};

use crate::extent::{line_begin, line_end};
use crate::plain::plain_front;
use crate::runs::BLOCK;
use unicode_segmentation::UnicodeSegmentation;

// How many graphemes a text has.
#[tactic(auto, using(crate::proofs::FrontLemmas::count_rules))]
fn grapheme_count(text: &str) -> usize
    ensures { result ≡ length (graphemes true text.now) }
{
    let front = plain_front(text, text.len());
    front + counted(&text[front..])
}

// The same, of a text that is read grapheme by grapheme.
fn counted(text: &str) -> usize
    ensures value { result ≡ length (graphemes true text.now) }
    ensures within { result ≤ length text.now }
{
    text.graphemes(true).count()
}

// How many graphemes stand before a text's end in its last line.
#[tactic(auto, using(crate::proofs::LineLemmas::column_rules))]
pub(crate) fn column_after(before: &str) -> usize
    ensures { result ≡ column_after before.now }
{
    let start = line_begin(before, before.len());
    grapheme_count(before.split_at(start).1)
}

// What stands after the first graphemes of a line, at most so many.
#[tactic(auto, using(crate::proofs::LineLemmas::column_rules, crate::proofs::FrontLemmas::front_rules))]
fn after_columns(line: &str, columns: usize) -> &str
    ensures { result.now ≡ concat (drop columns (graphemes true line.now)) }
{
    let front = plain_front(line, columns);
    let mut left = line[front..].graphemes(true);
    let mut more = columns - front;
    'walk: while more > 0 {
        let Some(_grapheme) = left.next() else {
            return left.as_str();
        };
        more -= 1;
    }
    left.as_str()
}

// How many bytes the first graphemes of a line take, at most so many.
#[tactic(auto, using(crate::proofs::LineLemmas::column_rules))]
fn columns_len(line: &str, columns: usize) -> usize
    ensures value { result ≡ columns_len columns line.now }
    ensures boundary { IsCharBoundary line.now result }
{
    let rest = after_columns(line, columns);
    line.len() - rest.len()
}

// Where the line begins in which a place stands.
#[tactic(auto, using(crate::proofs::LineLemmas::row_rules))]
fn start_of_line(text: &str, at: usize) -> usize
    requires { at ≤ length text.now }
    ensures begins { BeginsLine text.now result }
    ensures row { feeds (take result text.now) ≡ feeds (take at text.now) }
    ensures within { result ≤ at }
{
    line_begin(text, at)
}

// Where the line after that begins in which a place stands, or the text's end if there is none.
#[tactic(auto, using(crate::proofs::LineLemmas::row_rules))]
pub(crate) fn next_line(text: &str, at: usize) -> Option<usize>
    requires { at ≤ length text.now }
    ensures next { IfSome result (λ start. BeginsLine text.now start
        × (feeds (take start text.now) ≡ feeds (take at text.now) + 1) × (at < start)) }
    ensures none { IfNone result (feeds (take at text.now) ≡ feeds text.now) }
{
    let end = line_end(text, at);
    if end < text.len() {
        Some(end + 1)
    } else {
        None
    }
}

// How many line feeds a few bytes have. Their number is a byte, too, so that many are counted at
// once.
#[tactic(auto, using(crate::proofs::LineLemmas::count_rules))]
fn few_feeds(bytes: &[u8]) -> u8
    requires { length bytes.now ≤ 255 }
    ensures { result ≡ feeds bytes.now }
{
    let mut count = 0;
    for byte in bytes {
        if *byte == b'\n' {
            count += 1;
        }
    }
    count
}

// A place above another one, and how many lines are left to go up from there. It passes over blocks
// of bytes that have no more line feeds than that.
fn skipped_above(text: &str, at: usize, lines: usize) -> (usize, usize)
    requires { at ≤ length text.now }
    ensures within { result.0 ≤ at }
    ensures left { feeds (take result.0 text.now) + lines ≡ feeds (take at text.now) + result.1 }
{
    let bytes = text.as_bytes();
    let mut top = at;
    let mut left = lines;
    'walk: while left > 0 && top >= BLOCK {
        let count = usize::from(few_feeds(&bytes[top - BLOCK..top]));
        if count > left {
            return (top, left);
        }
        top -= BLOCK;
        left -= count;
    }
    (top, left)
}

// A place below another one, and how many lines are left to go down from there. It passes over
// blocks of bytes that have fewer line feeds than that.
fn skipped_below(text: &str, at: usize, lines: usize) -> (usize, usize)
    requires { at ≤ length text.now }
    ensures within { result.0 ≤ length text.now }
    ensures left { feeds (take result.0 text.now) + result.1 ≡ feeds (take at text.now) + lines }
{
    let bytes = text.as_bytes();
    let mut end = at;
    let mut left = lines;
    'walk: while bytes.len() - end >= BLOCK {
        let count = usize::from(few_feeds(&bytes[end..end + BLOCK]));
        if count >= left {
            return (end, left);
        }
        end += BLOCK;
        left -= count;
    }
    (end, left)
}

// Where the line begins that is so many above the one in which a place stands.
#[tactic(auto, using(crate::proofs::LineLemmas::step_rules))]
pub(crate) fn start_above(text: &str, at: usize, lines: usize) -> usize
    requires { at ≤ length text.now }
    ensures value { result ≡ nth_start (feeds (take at text.now) - lines) text.now }
    ensures begins { BeginsLine text.now result }
{
    let (place, more) = skipped_above(text, at, lines);
    let mut top = start_of_line(text, place);
    let mut left = more;
    'walk: while left > 0 && top > 0 {
        top = start_of_line(text, top - 1);
        left -= 1;
    }
    top
}

// Where the line begins that is so many below the one in which a place stands.
#[tactic(auto, using(crate::proofs::LineLemmas::step_rules))]
fn start_below(text: &str, at: usize, lines: usize) -> usize
    requires { at ≤ length text.now }
    ensures value { result
        ≡ nth_start (min (feeds (take at text.now) + lines) (feeds text.now)) text.now }
    ensures begins { BeginsLine text.now result }
{
    let (mut place, mut left) = skipped_below(text, at, lines);
    'walk: while left > 0 {
        let Some(next) = next_line(text, place) else {
            return start_of_line(text, place);
        };
        place = next;
        left -= 1;
    }
    start_of_line(text, place)
}

// The place after so many graphemes of the line that begins at a place.
#[tactic(auto, using(crate::proofs::LineLemmas::place_rules))]
pub(crate) fn place_in_line(text: &str, start: usize, columns: usize) -> usize
    requires { IsCharBoundary text.now start }
    ensures value { result ≡ start + columns_len columns (first_line (drop start text.now)) }
    ensures boundary { IsCharBoundary text.now result }
{
    let end = line_end(text, start);
    start + columns_len(&text[start..end], columns)
}

// The place after so many graphemes of the line so many above that of a place.
pub(crate) fn place_above(text: &str, at: usize, lines: usize, columns: usize) -> usize
    requires { at ≤ length text.now }
    ensures value { result ≡ place_above lines columns (take at text.now) text.now }
    ensures boundary { IsCharBoundary text.now result }
{
    let start = start_above(text, at, lines);
    place_in_line(text, start, columns)
}

// The place after so many graphemes of the line so many below that of a place.
pub(crate) fn place_below(text: &str, at: usize, lines: usize, columns: usize) -> usize
    requires { at ≤ length text.now }
    ensures value { result ≡ place_below lines columns (take at text.now) text.now }
    ensures boundary { IsCharBoundary text.now result }
{
    let start = start_below(text, at, lines);
    place_in_line(text, start, columns)
}

// How many line feeds a text has.
#[tactic(auto, using(crate::proofs::LineLemmas::count_rules))]
pub(crate) fn feeds(text: &str) -> usize
    ensures value { result ≡ feeds text.now }
    ensures within { result ≤ length text.now }
{
    let bytes = text.as_bytes();
    let mut count = 0;
    let mut at = 0;
    'walk: while at < bytes.len() {
        let end = at + (bytes.len() - at).min(BLOCK);
        count += usize::from(few_feeds(&bytes[at..end]));
        at = end;
    }
    count
}

// How many line feeds stand before a place, of which it is known how many stand before another.
#[tactic(auto, using(crate::proofs::KeptLemmas::kept_rules))]
pub(crate) fn feeds_before(text: &str, from: usize, row: usize, at: usize) -> usize
    requires from { IsCharBoundary text.now from }
    requires at { IsCharBoundary text.now at }
    requires row { row ≡ feeds (take from text.now) }
    ensures { result ≡ feeds (take at text.now) }
{
    if from <= at {
        row + feeds(&text[from..at])
    } else {
        row - feeds(&text[at..from])
    }
}

// Where the line of a number begins, which is one above that of a place.
#[tactic(auto, using(crate::proofs::KeptLemmas::near_rules))]
fn start_before(text: &str, at: usize, row: usize, line: usize) -> usize
    requires at { IsCharBoundary text.now at }
    requires row { row ≡ feeds (take at text.now) }
    requires before { line ≤ row }
    ensures value { result ≡ nth_start line text.now }
    ensures boundary { IsCharBoundary text.now result }
{
    let above = row - line;
    if line < above {
        start_below(text, 0, line)
    } else {
        start_above(text, at, above)
    }
}

// Where the line of a number begins, which is that of a place or one below it.
#[tactic(auto, using(crate::proofs::KeptLemmas::near_rules))]
fn start_from(text: &str, at: usize, row: usize, last: usize, line: usize) -> usize
    requires at { IsCharBoundary text.now at }
    requires row { row ≡ feeds (take at text.now) }
    requires last { last ≡ feeds text.now }
    requires after { row ≤ line }
    requires within { line ≤ last }
    ensures value { result ≡ nth_start line text.now }
    ensures boundary { IsCharBoundary text.now result }
{
    let below = line - row;
    let above = last - line;
    if above < below {
        start_above(text, text.len(), above)
    } else {
        start_below(text, at, below)
    }
}

// Where the line of a number begins. It is sought from the nearest of the text's start, a place whose
// line's number is known and the text's end on.
pub(crate) fn nth_start(text: &str, at: usize, row: usize, last: usize, line: usize) -> usize
    requires at { IsCharBoundary text.now at }
    requires row { row ≡ feeds (take at text.now) }
    requires last { last ≡ feeds text.now }
    requires within { line ≤ last }
    ensures value { result ≡ nth_start line text.now }
    ensures boundary { IsCharBoundary text.now result }
{
    if line < row {
        start_before(text, at, row, line)
    } else {
        start_from(text, at, row, last, line)
    }
}
