//! A text with a cursor in it, and the one change that is made to it.

ghost use Rattle.std.specs.Prelude.{◌≡◌, ◌≤◌, ◌+◌, [], OnOk, OnErr, length, string_bytes, take};
ghost use Rattle.std.specs.Prelude.{true};
ghost use Rattle.std.specs.Str.{IsUtf8, IsCharBoundary};
ghost use Rattle.text_field.specs.History.{CursorText, cursor_text_at};
ghost use Rattle.text_area.specs.Drafts.{draft_text, cursor_at, part_replaced};
ghost use Rattle.text_area.specs.Lines.{feeds, nth_start, column_after, place_above, place_below};
ghost use Rattle.text_area.specs.Lines.{first_line, last_line};
ghost use Rattle.text_area.specs.Inner.{IsKept};
ghost use Rattle.rtui_text.specs.Printable.{ArePrintable};

use crate::kept::{KeptLine, line_after, line_at};
use crate::lines::{column_after, feeds, feeds_before, nth_start, place_above, place_below};
use std::alloc::{AllocError, Global};
use std::marker::Model;

// A text, and the byte at which its cursor stands; the number of the cursor's line, and of the last
// one, and the cursor's line: they are kept, so that nothing is counted from the text's start on.
#[derive(Drop)]
pub(crate) struct Draft {
    text: String,
    at: usize,
    row: usize,
    last: usize,
    line: KeptLine,
}

impl Model for Draft {
    ghost use Rattle.std.specs.Prelude.{◌≡◌, ◌≤◌, string_bytes, take};
    ghost use Rattle.std.specs.Str.{IsCharBoundary};
    ghost use Rattle.text_field.specs.History.{CursorText, cursor_text_at};
    ghost use Rattle.text_area.specs.Lines.{feeds};
    ghost use Rattle.text_area.specs.Inner.{IsKept};

    ghost Value = { CursorText };

    ghost view = { λ draft. cursor_text_at (string_bytes draft.text) draft.at };

    ghost invariant = { λ draft. IsCharBoundary (string_bytes draft.text) draft.at
        × (draft.row ≡ feeds (take draft.at (string_bytes draft.text)))
        × (draft.last ≡ feeds (string_bytes draft.text)) × IsKept (string_bytes draft.text) draft.line
        × (draft.line.start ≤ draft.at) × (draft.at ≤ draft.line.end) };
}

#[tactic(auto, using(crate::proofs::DraftLemmas::draft_rules))]
impl Draft {
    // A text with the cursor at its start.
    pub(crate) fn new(text: String) -> Draft
        ensures { result ≡ cursor_text_at (string_bytes text) 0 }
    {
        let last = feeds(text.as_str());
        let line = line_at(text.as_str(), 0);
        Draft {
            text,
            at: 0,
            row: 0,
            last,
            line,
        }
    }

    pub(crate) fn allocator(&self) -> Global {
        *self.text.allocator()
    }

    // The whole text.
    pub(crate) fn text(&self) -> &str
        ensures { result.now ≡ draft_text self.now }
    {
        self.text.as_str()
    }

    // The byte at which the cursor stands.
    pub(crate) fn at(&self) -> usize
        ensures value { result ≡ length self.now.before }
        ensures boundary { IsCharBoundary (draft_text self.now) result }
    {
        self.at
    }

    // The text before the cursor.
    pub(crate) fn before(&self) -> &str
        ensures { result.now ≡ self.now.before }
    {
        self.text.as_str().split_at(self.at).0
    }

    // The text after the cursor.
    pub(crate) fn after(&self) -> &str
        ensures { result.now ≡ self.now.after }
    {
        self.text.as_str().split_at(self.at).1
    }

    // The number of the cursor's line.
    pub(crate) fn row(&self) -> usize
        ensures { result ≡ feeds self.now.before }
    {
        self.row
    }

    // The number of the last line.
    pub(crate) fn last(&self) -> usize
        ensures { result ≡ feeds (draft_text self.now) }
    {
        self.last
    }

    // How many lines there are.
    #[tactic(auto, using(crate::proofs::LineLemmas::count_rules))]
    pub(crate) fn line_count(&self) -> usize
        ensures { result ≡ feeds (draft_text self.now) + 1 }
    {
        self.last + 1
    }

    // Where the line of a number begins. It is sought from the nearest of the text's start, the
    // cursor and the text's end on.
    pub(crate) fn start_of(&self, line: usize) -> usize
        requires { line ≤ feeds (draft_text self.now) }
        ensures value { result ≡ nth_start line (draft_text self.now) }
        ensures boundary { IsCharBoundary (draft_text self.now) result }
    {
        nth_start(
            self.text.as_str(),
            self.line.start,
            self.row,
            self.last,
            line,
        )
    }

    // How many graphemes stand before the cursor in its line.
    pub(crate) fn column(&self) -> usize
        ensures { result ≡ column_after self.now.before }
    {
        if self.line.is_plain {
            self.at - self.line.start
        } else {
            column_after(self.before())
        }
    }

    // The part of the cursor's line before the cursor, and the part after it.
    pub(crate) fn cursor_line(&self) -> (&str, &str)
        ensures before { result.0.now ≡ last_line self.now.before }
        ensures after { result.1.now ≡ first_line self.now.after }
    {
        let text = self.text.as_str();
        (
            &text[self.line.start..self.at],
            &text[self.at..self.line.end],
        )
    }

    // Where the cursor's line ends.
    pub(crate) fn line_end(&self) -> usize
        ensures at { result ≤ length (draft_text self.now) }
        ensures row { feeds (take result (draft_text self.now)) ≡ feeds self.now.before }
    {
        self.line.end
    }

    // Whether the cursor's line is known to have nothing but printable characters of ASCII.
    pub(crate) fn is_plain(&self) -> bool
        ensures before { result ≡ true → ArePrintable (last_line self.now.before) }
        ensures after { result ≡ true → ArePrintable (first_line self.now.after) }
    {
        self.line.is_plain
    }

    // The place so many lines above the cursor, after so many graphemes.
    pub(crate) fn above(&self, lines: usize, columns: usize) -> usize
        ensures value { result ≡ place_above lines columns self.now.before (draft_text self.now) }
        ensures boundary { IsCharBoundary (draft_text self.now) result }
    {
        place_above(self.text.as_str(), self.line.start, lines, columns)
    }

    // The place so many lines below the cursor, after so many graphemes.
    pub(crate) fn below(&self, lines: usize, columns: usize) -> usize
        ensures value { result ≡ place_below lines columns self.now.before (draft_text self.now) }
        ensures boundary { IsCharBoundary (draft_text self.now) result }
    {
        place_below(self.text.as_str(), self.line.end, lines, columns)
    }

    // A place whose line's number is known: of the text's start, the cursor and the text's end the
    // one that is nearest to a place.
    fn nearest(&self, at: usize) -> (usize, usize)
        requires { at ≤ length (draft_text self.now) }
        ensures boundary { IsCharBoundary (draft_text self.now) result.0 }
        ensures row { result.1 ≡ feeds (take result.0 (draft_text self.now)) }
    {
        let far = at.abs_diff(self.at);
        let end = self.text.len();
        if at < far {
            (0, 0)
        } else if end - at < far {
            (end, self.last)
        } else {
            (self.at, self.row)
        }
    }

    // The number of the line in which a place stands.
    fn row_of(&self, at: usize) -> usize
        requires { IsCharBoundary (draft_text self.now) at }
        ensures { result ≡ feeds (take at (draft_text self.now)) }
    {
        if self.line.has(at, at) {
            return self.row;
        }
        let (from, row) = self.nearest(at);
        feeds_before(self.text.as_str(), from, row, at)
    }

    // The line in which a place stands.
    fn line_of(&self, at: usize) -> KeptLine
        requires { at ≤ length (draft_text self.now) }
        ensures kept { IsKept (draft_text self.now) result }
        ensures start { result.start ≤ at }
        ensures end { at ≤ result.end }
    {
        if self.line.has(at, at) {
            return self.line;
        }
        line_at(self.text.as_str(), at)
    }

    // Puts the cursor at a byte of the text.
    pub(crate) fn go(&mut self, at: usize)
        requires { IsCharBoundary (draft_text self.old) at }
        ensures { self.new ≡ cursor_at at self.old }
    {
        let line = self.line_of(at);
        self.row = self.row_of(at);
        self.at = at;
        self.line = line;
    }

    // Puts a piece in place of a part of the text, and the cursor after it.
    pub(crate) fn replace(&mut self, from: usize, to: usize, piece: &str) -> Result<(), AllocError>
        requires order { from ≤ to }
        requires start { IsCharBoundary (draft_text self.old) from }
        requires end { IsCharBoundary (draft_text self.old) to }
        ensures utf8 { IsUtf8 (draft_text self.old) }
        ensures ok { OnOk result (self.new ≡ part_replaced from to piece.now self.old) }
        ensures err { OnErr result (self.new ≡ self.old) }
    {
        let row = self.row_of(from);
        let gone = feeds(&self.text.as_str()[from..to]);
        let more = feeds(piece);
        self.text.replace_range(from..to, piece)?;
        self.at = from + piece.len();
        self.row = row + more;
        self.last = self.last - gone + more;
        let text = self.text.as_str();
        self.line = line_after(self.line, text, from, to, piece, more);
        Ok(())
    }
}
