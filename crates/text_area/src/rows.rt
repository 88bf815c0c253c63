//! Lines of a text area, one after the other, for who shows them.

ghost use Rattle.std.specs.Prelude.{◌≡◌, ◌≤◌, ◌<◌, ◌+◌, ◌-◌, length, take, drop, IfSome, IfNone};
ghost use Rattle.std.specs.Prelude.{is_some, true};
ghost use Rattle.std.specs.Str.{IsCharBoundary};
ghost use Rattle.rtui_text.specs.Printable.{ArePrintable};
ghost use Rattle.text_area.specs.Lines.{feeds, nth_start, first_line, last_line};
ghost use Rattle.text_area.specs.Areas.{area_text, area_before, area_after};

use crate::area::TextArea;
use crate::extent::line_end;
use crate::lines::{next_line, start_above};

// The line that begins at a place.
#[tactic(auto, using(crate::proofs::LineLemmas::row_rules))]
fn line_from(text: &str, start: usize) -> &str
    requires { IsCharBoundary text.now start }
    ensures { result.now ≡ first_line (drop start text.now) }
{
    &text[start..line_end(text, start)]
}

// Where the line begins after the one of a number, in which a place stands.
#[tactic(auto, using(crate::proofs::LineLemmas::step_rules))]
fn start_after(text: &str, number: usize, at: usize) -> Option<usize>
    requires at { at ≤ length text.now }
    requires row { feeds (take at text.now) ≡ number }
    ensures some { IfSome result (λ next. next ≡ nth_start (number + 1) text.now) }
    ensures boundary { IfSome result (λ next. IsCharBoundary text.now next) }
    ensures order { IfSome result (λ next. number < next) }
    ensures within { is_some result ≡ true → number < feeds text.now }
    ensures none { IfNone result (number ≡ feeds text.now) }
{
    next_line(text, at)
}

// Where the line begins before the one of a number, which begins at a place.
fn start_before(text: &str, number: usize, start: usize) -> Option<usize>
    requires at { start ≤ length text.now }
    requires row { feeds (take start text.now) ≡ number }
    ensures some { IfSome result (λ before. before ≡ nth_start (number - 1) text.now) }
    ensures boundary { IfSome result (λ before. IsCharBoundary text.now before) }
    ensures within { is_some result ≡ true → 0 < number }
    ensures none { IfNone result (number ≡ 0) }
{
    if number == 0 {
        None
    } else {
        Some(start_above(text, start, 1))
    }
}

impl TextArea {
    // A place in the line of a number, which begins at a byte: the line's end if it is known.
    fn place_in(&self, number: usize, start: usize) -> usize
        requires start { start ≡ nth_start number (area_text self.now) }
        requires within { number ≤ feeds (area_text self.now) }
        ensures at { result ≤ length (area_text self.now) }
        ensures row { feeds (take result (area_text self.now)) ≡ number }
    {
        if number == self.cursor_row() {
            self.draft().line_end()
        } else {
            start
        }
    }

    /// Returns the byte of the text at which a line begins, or `None` if no line has this number.
    /// The first one has the number 0. It reads the lines from there to the nearest of the cursor,
    /// the text's start and its end.
    pub fn line_start(&self, number: usize) -> Option<usize>
        ensures some { IfSome result (λ start. start ≡ nth_start number (area_text self.now)) }
        ensures boundary { IfSome result (λ start. IsCharBoundary (area_text self.now) start) }
        ensures within { is_some result ≡ true → number ≤ feeds (area_text self.now) }
        ensures none { IfNone result (feeds (area_text self.now) < number) }
    {
        if number < self.line_count() {
            Some(self.draft().start_of(number))
        } else {
            None
        }
    }

    /// Returns the text from a byte on up to the end of its line: of a byte at which a line begins
    /// this is the line, without its line feed. It reads that line alone.
    ///
    /// # Conditions
    ///
    /// No character is cut at the byte: `line_start` answers such a one.
    pub fn line_from(&self, start: usize) -> &str
        requires { IsCharBoundary (area_text self.now) start }
        ensures { result.now ≡ first_line (drop start (area_text self.now)) }
    {
        line_from(self.text(), start)
    }

    /// Returns the byte at which the line after a line begins, or `None` if that is the last one.
    /// It reads the line of the number alone, and nothing if that is the cursor's.
    ///
    /// # Conditions
    ///
    /// There is a line of this number, and it begins at this byte: `line_start` answers it.
    pub fn start_after(&self, number: usize, start: usize) -> Option<usize>
        requires start { start ≡ nth_start number (area_text self.now) }
        requires within { number ≤ feeds (area_text self.now) }
        ensures some { IfSome result (λ next. next ≡ nth_start (number + 1) (area_text self.now)) }
        ensures boundary { IfSome result (λ next. IsCharBoundary (area_text self.now) next) }
        ensures order { IfSome result (λ next. number < next) }
        ensures within { is_some result ≡ true → number < feeds (area_text self.now) }
        ensures none { IfNone result (number ≡ feeds (area_text self.now)) }
    {
        start_after(self.text(), number, self.place_in(number, start))
    }

    /// Returns the byte at which the line before a line begins, or `None` if that is the first one.
    /// It reads the line before alone.
    ///
    /// # Conditions
    ///
    /// There is a line of this number, and it begins at this byte: `line_start` answers it.
    pub fn start_before(&self, number: usize, start: usize) -> Option<usize>
        requires start { start ≡ nth_start number (area_text self.now) }
        requires within { number ≤ feeds (area_text self.now) }
        ensures some { IfSome result (λ before.
            before ≡ nth_start (number - 1) (area_text self.now)) }
        ensures boundary { IfSome result (λ before. IsCharBoundary (area_text self.now) before) }
        ensures within { is_some result ≡ true → 0 < number }
        ensures none { IfNone result (number ≡ 0) }
    {
        start_before(self.text(), number, start)
    }

    /// Returns the part of the cursor's line before the cursor, and the part after it. It reads
    /// nothing of the text.
    pub fn cursor_line(&self) -> (&str, &str)
        ensures before { result.0.now ≡ last_line (area_before self.now) }
        ensures after { result.1.now ≡ first_line (area_after self.now) }
    {
        self.draft().cursor_line()
    }

    /// Returns whether the cursor's line is known to be plain: then it has nothing but printable
    /// characters of ASCII. It reads nothing of the text: whether a line is plain is found where the
    /// cursor comes to it, and of what is typed.
    pub fn is_plain_line(&self) -> bool
        ensures before { result ≡ true → ArePrintable (last_line (area_before self.now)) }
        ensures after { result ≡ true → ArePrintable (first_line (area_after self.now)) }
    {
        self.draft().is_plain()
    }
}
