//! In which columns of a line its graphemes stand.

ghost use Rattle.std.specs.Prelude.{◌≡◌, ◌≤◌, ◌<◌, ◌+◌, ◌-◌, ◌++◌, take, drop, true};
ghost use Rattle.std.specs.Str.{IsCharBoundary};
ghost use Rattle.unicode_segmentation.specs.Grapheme.{graphemes};
ghost use Rattle.rtui_text.specs.Printable.{ArePrintable, IsPrintableFront, singles};
ghost use Rattle.widget_area.specs.Columns.{is_tab_grapheme, tab_columns, columns_of_grapheme, past};
ghost use Rattle.widget_area.specs.Columns.{column_past, column_after_line};
ghost use Rattle.widget_area.specs.Windows.{window_start};

use ratatui_core::buffer::CellWidth;
use rtui_text::printable_front;
use unicode_segmentation::UnicodeSegmentation;

// Whether a grapheme is a tab.
fn is_tab_grapheme(grapheme: &str) -> bool
    ensures { result ≡ is_tab_grapheme grapheme.now }
{
    let bytes = grapheme.as_bytes();
    if bytes.is_empty() {
        return false;
    }
    bytes[0] == b'\t'
}

// How many columns a tab takes from a column on.
fn tab_columns(tab: u16, column: usize) -> u16
    ensures { result ≡ tab_columns tab column }
{
    let width = tab.max(1);
    width - (column % usize::from(width)) as u16
}

// How many columns a grapheme takes that begins in a column.
pub(crate) fn columns_of_grapheme(tab: u16, column: usize, grapheme: &str) -> u16
    ensures { result ≡ columns_of_grapheme tab column grapheme.now }
{
    if is_tab_grapheme(grapheme) {
        tab_columns(tab, column)
    } else {
        grapheme.cell_width()
    }
}

// So many further on.
pub(crate) fn past(at: usize, count: usize) -> usize
    ensures { result ≡ past at count }
{
    at.saturating_add(count)
}

// How many bytes a part of a line begins with, at most so many, that are printable characters of
// ASCII and graphemes of their own. A part that is known to have nothing else isn't read.
#[tactic(auto, using(crate::proofs::FrontLaws::front_rules))]
pub(crate) fn front_len(is_plain: bool, text: &str, max: usize) -> usize
    requires { is_plain ≡ true → ArePrintable text.now }
    ensures front { IsPrintableFront text.now result }
    ensures max { result ≤ max }
    ensures boundary { IsCharBoundary text.now result }
    ensures graphemes { graphemes true text.now
        ≡ singles (take result text.now) ++ graphemes true (drop result text.now) }
{
    if is_plain {
        text.len().min(max)
    } else {
        printable_front(text, max)
    }
}

// The column after a part of a line that begins in a column, read grapheme by grapheme.
fn read_past(tab: u16, from: usize, text: &str) -> usize
    ensures { result ≡ column_past tab from (graphemes true text.now) }
{
    let mut left = text.graphemes(true);
    let mut column = from;
    'walk: while let Some(grapheme) = left.next() {
        let columns = columns_of_grapheme(tab, column, grapheme);
        column = past(column, usize::from(columns));
    }
    column
}

// The column after a part of a line that begins in a column. A part that is known to have nothing
// but printable characters of ASCII isn't read.
pub(crate) fn column_past(is_plain: bool, tab: u16, from: usize, text: &str) -> usize
    requires { is_plain ≡ true → ArePrintable text.now }
    ensures { result ≡ column_past tab from (graphemes true text.now) }
{
    let front = front_len(is_plain, text, text.len());
    read_past(tab, past(from, front), &text[front..])
}

// The column after a text that begins a line.
pub(crate) fn column_after_line(tab: u16, text: &str) -> usize
    ensures { result ≡ column_after_line tab text.now }
{
    column_past(false, tab, 0, text)
}

// Where a window of so many places begins that has a place in it, as near as can be to where it
// began.
pub(crate) fn window_start(first: usize, place: usize, room: u16) -> usize
    requires { 0 < room }
    ensures value { result ≡ window_start first place room }
    ensures before { result ≤ place }
    ensures within { place - result < room }
{
    let least = place.saturating_sub(usize::from(room - 1));
    first.min(place).max(least)
}
