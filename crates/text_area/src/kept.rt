//! The line of the cursor, which is kept, so that a key in a long line reads what it changes alone.

ghost use Rattle.std.specs.Prelude.{◌≡◌, ◌≤◌, ◌<◌, ◌+◌, ◌-◌, ℕ, List, length, true};
ghost use Rattle.std.specs.List.{replace_range};
ghost use Rattle.rtui_text.specs.Printable.{ArePrintable};
ghost use Rattle.text_area.specs.Lines.{feeds};
ghost use Rattle.text_area.specs.Inner.{IsKept};

use crate::extent::{line_begin, line_end};
use crate::plain::plain_front;

// Where a line begins and ends, and whether it is known to have nothing but printable characters of
// ASCII.
#[derive(Clone, Copy)]
pub(crate) struct KeptLine {
    pub(crate) start: usize,
    pub(crate) end: usize,
    pub(crate) is_plain: bool,
}

// Whether a text has nothing but printable characters of ASCII.
fn is_plain(text: &str) -> bool
    ensures { result ≡ true → ArePrintable text.now }
{
    plain_front(text, text.len()) == text.len()
}

// The line in which a place stands.
pub(crate) fn line_at(text: &str, at: usize) -> KeptLine
    requires { at ≤ length text.now }
    ensures kept { IsKept text.now result }
    ensures start { result.start ≤ at }
    ensures end { at ≤ result.end }
{
    let start = line_begin(text, at);
    let end = line_end(text, at);
    KeptLine {
        start,
        end,
        is_plain: is_plain(&text[start..end]),
    }
}

impl KeptLine {
    // Whether two places stand in the line, or at its end.
    pub(crate) fn has(&self, from: usize, to: usize) -> bool
        ensures from { result ≡ true → self.now.start ≤ from }
        ensures to { result ≡ true → to ≤ self.now.end }
    {
        self.start <= from && to <= self.end
    }

    // The line after a part of it has given way to a piece without a line feed.
    pub(crate) fn changed(&self, from: usize, to: usize, piece: &str) -> KeptLine
        requires order { from ≤ to }
        requires start { self.now.start ≤ from }
        requires end { to ≤ self.now.end }
        requires fits { self.now.end - (to - from) + length piece.now < 18446744073709551616 }
        ensures start { result.start ≡ self.now.start }
        ensures end { result.end ≡ self.now.end - (to - from) + length piece.now }
        ensures was { result.is_plain ≡ true → self.now.is_plain ≡ true }
        ensures plain { result.is_plain ≡ true → ArePrintable piece.now }
    {
        KeptLine {
            start: self.start,
            end: self.end - (to - from) + piece.len(),
            is_plain: self.is_plain && is_plain(piece),
        }
    }
}

// The line in which a piece ends that has been put in place of a part of a text: the one that was
// kept, if the part was in it and the piece has no line feeds.
pub(crate) fn line_after(
    was: KeptLine,
    text: &str,
    from: usize,
    to: usize,
    piece: &str,
    more: usize,
) -> KeptLine
    requires order { from ≤ to }
    requires more { more ≡ feeds piece.now }
    requires there { from + length piece.now ≤ length text.now }
    requires fits { was.end - (to - from) + length piece.now < 18446744073709551616 }
    ensures kept { (old : List ℕ) → IsKept old was → to ≤ length old
        → text.now ≡ replace_range old from to piece.now → IsKept text.now result }
    ensures start { result.start ≤ from + length piece.now }
    ensures end { from + length piece.now ≤ result.end }
{
    if more == 0 && was.has(from, to) {
        was.changed(from, to, piece)
    } else {
        line_at(text, from + piece.len())
    }
}
