//! Lines of graphemes cut, or broken into rows.

ghost use Rattle.std.specs.Prelude.{◌≡◌, ◌+◌, ◌≤◌, ◌<◌, [], ◌∷◌, min, length, filter, take, drop};
ghost use Rattle.std.specs.List.{prefix_len};
ghost use Rattle.widget_paragraph.specs.Reflow.{is_break, is_of_word, columns_taken, words_of};
ghost use Rattle.widget_paragraph.specs.Reflow.{fits_row, AllFit, count_fitting, last_end};
ghost use Rattle.widget_paragraph.specs.Reflow.{break_at_blank, break_in_word, row_break};
ghost use Rattle.widget_paragraph.specs.Reflow.{trimmed_start, split_row};

use crate::measured::Measured;

// Graphemes one after the other.
pub(crate) type Row<'t> = Vec<Measured<'t>>;

// How many columns graphemes take, at most 65535.
pub(crate) fn columns_of(row: &[Measured<'_>]) -> u16
    ensures { result ≡ min (columns_taken row.now) 65535 }
{
    let mut columns = 0u16;
    for grapheme in row {
        columns = columns.saturating_add(grapheme.columns());
    }
    columns
}

// How many blanks stand first.
fn leading_blanks(graphemes: &[Measured<'_>]) -> usize
    ensures { result ≡ prefix_len is_break graphemes.now }
{
    let mut count = 0;
    for grapheme in graphemes {
        if !grapheme.is_blank() {
            return count;
        }
        count += 1;
    }
    count
}

// How many graphemes fit the width, counted from the first one.
fn fitting_count(graphemes: &[Measured<'_>], width: u16) -> usize
    ensures { result ≡ count_fitting width graphemes.now }
{
    let mut used = 0u16;
    let mut count = 0;
    for grapheme in graphemes {
        let columns = grapheme.columns();
        if columns > width.saturating_sub(used) {
            return count;
        }
        used += columns;
        count += 1;
    }
    count
}

// Where the last word ends; 0 if there is none.
fn words_end(graphemes: &[Measured<'_>]) -> usize
    ensures { result ≡ last_end is_of_word graphemes.now }
{
    let mut end = graphemes.len();
    while end > 0 {
        if !graphemes[end - 1].is_blank() {
            return end;
        }
        end -= 1;
    }
    0
}

// Where the last word begins: after the last blank; 0 if there is none.
fn last_word(graphemes: &[Measured<'_>]) -> usize
    ensures { result ≡ last_end is_break graphemes.now }
{
    let mut start = graphemes.len();
    while start > 0 {
        if graphemes[start - 1].is_blank() {
            return start;
        }
        start -= 1;
    }
    0
}

// Where a row of so many graphemes ends that a word crosses, and where the next one begins.
fn break_in_word(graphemes: &[Measured<'_>], count: usize) -> (usize, usize)
    requires { count ≤ length graphemes.now }
    ensures { result ≡ break_in_word graphemes.now count }
{
    let word = last_word(&graphemes[..count]);
    let end = words_end(&graphemes[..word]);
    if end > 0 { (end, word) } else { (count, count) }
}

// Where a row of so many graphemes ends that a blank crosses, and where the next one begins: after
// this blank.
fn break_at_blank(graphemes: &[Measured<'_>], count: usize) -> (usize, usize)
    requires { count < length graphemes.now }
    ensures { result ≡ break_at_blank graphemes.now count }
{
    let end = words_end(&graphemes[..count]);
    if end > 0 {
        return (end, count + 1);
    }
    (count, count + 1)
}

// Where the row at the front ends, and where the next one begins: it has as many words as fit the
// width, and a word is broken only if no other one stands before it.
fn row_ends(graphemes: &[Measured<'_>], width: u16) -> (usize, usize)
    ensures { result ≡ row_break width graphemes.now }
{
    let count = fitting_count(graphemes, width);
    if count == graphemes.len() {
        return (count, count);
    }
    if graphemes[count].is_blank() {
        break_at_blank(graphemes, count)
    } else {
        break_in_word(graphemes, count)
    }
}

// How many blanks are left out before a row, if rows are trimmed.
pub(crate) fn trimmed_start(graphemes: &[Measured<'_>], trim: bool) -> usize
    ensures { result ≡ trimmed_start trim graphemes.now }
{
    if trim { leading_blanks(graphemes) } else { 0 }
}

// The row at the front of a line, and how many graphemes stand before the next one. The row has at
// most the width. Only blanks are left out: those at the front if rows are trimmed, and those at
// which the line is broken.
pub(crate) fn split_row<'s, 't>(
    graphemes: &'s [Measured<'t>],
    width: u16,
    trim: bool,
) -> (&'s [Measured<'t>], usize)
    requires { AllFit width graphemes.now }
    ensures value { (result.0.now, result.1)
        ≡ split_row width trim graphemes.now }
    ensures fits { columns_taken (result.0.now) ≤ width }
    ensures keeps { words_of (take result.1 graphemes.now)
        ≡ words_of (result.0.now) }
    ensures some { 0 < length graphemes.now → 0 < result.1 }
    ensures inside { result.1 ≤ length graphemes.now }
{
    let start = trimmed_start(graphemes, trim);
    let rest = &graphemes[start..];
    let (end, next) = row_ends(rest, width);
    (&rest[..end], start + next)
}
