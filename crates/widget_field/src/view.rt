//! Which part of a text is shown.

ghost use Rattle.std.specs.Prelude.{◌≡◌, ◌-◌, ◌<◌, ◌≤◌, ◌⊎◌, min, IsTrue};
ghost use Rattle.std.specs.Str.{IsCharBoundary};
ghost use Rattle.widget_field.specs.Views.{IsView, columns_in};

use ratatui_core::buffer::CellWidth;
use unicode_segmentation::UnicodeSegmentation;

// How many columns a text takes, but at most so many. No more of it is read.
fn columns_up_to(text: &str, most: u16) -> u16
    ensures { result ≡ min (columns_in text.now) most }
{
    let mut left = text.graphemes(true);
    let mut used = 0;
    'walk: while let Some(grapheme) = left.next() {
        let columns = grapheme.cell_width();
        if columns > most - used {
            return most;
        }
        used += columns;
    }
    used
}

// Whether what begins before the former start stays hidden, since there is less room than what is
// after takes.
fn stays_hidden(at: usize, first: usize, room: u16, behind: u16) -> bool
    ensures hidden { IsTrue result → (at < first) × (room < behind) }
    ensures shown { (first ≤ at) ⊎ ((behind ≤ room) ⊎ IsTrue result) }
{
    if first <= at {
        return false;
    }
    room < behind
}

// The byte at which the view begins of a text whose cursor stands at its end, if it began at
// `first` before, and the text after the cursor takes so many columns: no more is read than what
// is shown, and one grapheme.
fn start_beside(text: &str, first: usize, room: u16, behind: u16) -> usize
    ensures view { IsView room behind text.now first result }
    ensures boundary { IsCharBoundary text.now result }
{
    let mut left = text.graphemes(true);
    let mut start = text.len();
    let mut used = 0;
    'walk: while let Some(grapheme) = left.next_back() {
        let columns = grapheme.cell_width();
        let at = left.as_str().len();
        if columns > room - used {
            return start;
        }
        if stays_hidden(at, first, room - used - columns, behind) {
            return start;
        }
        used += columns;
        start = at;
    }
    start
}

// The byte at which the view begins of a text before a cursor in so many columns, if it began at
// `first` before, and this is the text after it. One column is the cursor's, at the text's end
// too.
#[tactic(auto, using(crate::proofs::ViewLemmas::view_rules))]
pub(crate) fn view_start(text: &str, first: usize, width: u16, behind: &str) -> usize
    requires { 0 < width }
    ensures view { IsView (width - 1) (columns_in behind.now) text.now first result }
    ensures boundary { IsCharBoundary text.now result }
{
    start_beside(text, first, width - 1, columns_up_to(behind, width))
}
