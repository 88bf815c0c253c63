//! What a screen shows, as lines of text.

ghost use Rattle.std.specs.Prelude.{◌≡◌, ◌↔◌, ℕ, ◌+◌, ◌-◌, ◌<◌, ◌≤◌, IsTrue, IfSome, IfOk, length, map};
ghost use Rattle.std.specs.Str.Lines.{lines};
ghost use Rattle.rtui_style.specs.Style.{new_style};
ghost use Rattle.rtui_cell.specs.Width.{text_width};
ghost use Rattle.rtui_text.specs.Text.{unstyled, raw_line};
ghost use Rattle.rtui_buffer.specs.Painting.{text_pieces};
ghost use Rattle.rtui_buffer.specs.Line.{widest, raw_lines, line_pieces};
ghost use Rattle.rtui_backend.specs.ScreenLines.{symbols_in, ScreenHasLines, HistoryHasLines, IsScreenOf};
ghost use Rattle.rtui_backend.specs.Inner.{symbol_in, AreBlank, HasSymbol, EndsAfter, HasLine, RowsHaveLines};
ghost use Rattle.rtui_backend.specs.TestBackend.{screen_of};

use crate::test::TestBackend;
use rtui_buffer::{Buffer, Cell, painted_width, texts_width};
use rtui_geometry::Position;
use std::alloc::{AllocError, Global};
use unicode_segmentation::UnicodeSegmentation;

// The symbol at a place of a row.
#[tactic(auto, using(crate::proofs::LineLemmas::cell_looks), unfolding(rtui_cell::specs::Look::look_of))]
fn symbol_at(row: &[Cell], x: usize) -> &str
    requires { x < length row.now }
    ensures { result.now ≡ symbol_in row.now x }
{
    row[x].symbol()
}

// Whether the columns from one up to another are blank.
fn is_blank(row: &[Cell], from: usize, to: usize) -> bool
    requires order { from ≤ to }
    requires columns { to ≤ length row.now }
    ensures { IsTrue result ↔ AreBlank (symbol_in row.now) from to }
{
    for x in from..to {
        if symbol_at(row, x) != " " {
            return false;
        }
    }
    true
}

// Whether a symbol of this width stands in a column, and blanks after it.
fn is_piece(row: &[Cell], x: usize, width: usize, symbol: &str) -> bool
    requires width { width ≡ text_width symbol.now }
    requires wide { 0 < width }
    requires columns { x + width ≤ length row.now }
    ensures { IsTrue result ↔ HasSymbol (symbol_in row.now) x symbol.now }
{
    symbol_at(row, x) == symbol && is_blank(row, x + 1, x + width)
}

// The column after a text that stands in a row from a column on, if it does.
fn text_end(row: &[Cell], x: usize, text: &str) -> Option<usize>
    requires { x ≤ length row.now }
    ensures within { IfSome result (λ end. end ≤ length row.now) }
    ensures end { EndsAfter (symbol_in row.now) x
        (text_pieces (length row.now - x) new_style text.now) result }
{
    let mut end = x;
    for grapheme in text.graphemes(true) {
        let width = usize::from(painted_width(grapheme));
        if width == 0 {
            continue;
        }
        if width > row.len() - end {
            return Some(end);
        }
        if !is_piece(row, end, width, grapheme) {
            return None;
        }
        end += width;
    }
    Some(end)
}

// The column after a line that stands in a row, if it does.
fn line_end(row: &[Cell], line: &str) -> Option<usize>
    ensures within { IfSome result (λ end. end ≤ length row.now) }
    ensures end { EndsAfter (symbol_in row.now) 0
        (line_pieces (length row.now) new_style (map unstyled (lines line.now))) result }
{
    let mut end = Some(0);
    for text in line.lines() {
        end = match end {
            Some(x) => text_end(row, x, text),
            None => None,
        };
    }
    end
}

// Whether a row shows a line.
fn row_is(row: &[Cell], line: &str) -> bool
    ensures { IsTrue result ↔ HasLine (raw_line line.now) (length row.now) (symbol_in row.now) }
{
    match line_end(row, line) {
        Some(end) => is_blank(row, end, row.len()),
        None => false,
    }
}

// Whether rows, each of so many columns, show lines.
fn rows_are(rows: &[Vec<Cell>], width: usize, lines: &[&str]) -> bool
    ensures { IsTrue result ↔ RowsHaveLines width (raw_lines lines.now) (map
        (λ row. row.items) rows.now) }
{
    if rows.len() != lines.len() {
        return false;
    }
    for y in 0..rows.len() {
        let row = rows[y].as_slice();
        if row.len() != width || !row_is(row, lines[y]) {
            return false;
        }
    }
    true
}

impl TestBackend {
    ghost use Rattle.std.specs.Prelude.{None};
    ghost use Rattle.rtui_backend.specs.TestBackend.{failures_of, told_after};

    /// Makes a screen that shows these lines, a row each, as a buffer made by `Buffer::from_texts`
    /// of them does, its cursor visible in the corner.
    ///
    /// # Conditions
    ///
    /// There are at most 65535 lines, and each takes at most 65535 columns.
    ///
    /// # Errors
    ///
    /// `AllocError` if memory is refused.
    #[tactic(auto, using(crate::proofs::PlainLemmas::plain_rows))]
    pub fn with_lines(alloc: Global, lines: &[&str]) -> Result<TestBackend, AllocError>
        requires height { length lines.now ≤ 65535 }
        requires width { widest (raw_lines lines.now) ≤ 65535 }
        ensures screen { IfOk result (λ b. IsScreenOf (raw_lines lines.now) (screen_of b)) }
        ensures failures { IfOk result (λ b. failures_of b ≡ 0) }
        ensures told { IfOk result (λ b. told_after b ≡ None) }
    {
        let buffer = Buffer::from_texts(alloc, lines)?;
        Ok(TestBackend {
            buffer,
            scrollback: Vec::new(alloc),
            cursor: Position::ORIGIN,
            visible: true,
            written: 0,
            fail_after: None,
            failures: 0,
            alloc,
        })
    }

    // The cells of a row.
    fn row(&self, y: u16) -> &[Cell]
        requires { y < (screen_of self.now).height }
        ensures width { length result.now ≡ (screen_of self.now).width }
        ensures symbols { (a : ℕ) → a < (screen_of self.now).width
            → symbol_in result.now a ≡ symbols_in (screen_of self.now) y a }
    {
        let width = usize::from(self.buffer.area().width);
        let start = usize::from(y) * width;
        &self.buffer.content()[start..start + width]
    }

    /// Returns whether the screen shows these lines, symbol by symbol, as a buffer made by
    /// `Buffer::from_texts` of them does: it has as many rows as there are lines and as many
    /// columns as the widest of them.
    pub fn lines_are(&self, lines: &[&str]) -> bool
        ensures { IsTrue result ↔ ScreenHasLines (raw_lines lines.now) (screen_of self.now) }
    {
        let area = *self.buffer.area();
        if lines.len() != usize::from(area.height)
            || texts_width(lines) != usize::from(area.width)
        {
            return false;
        }
        for y in 0..area.height {
            if !row_is(self.row(y), lines[usize::from(y)]) {
                return false;
            }
        }
        true
    }

    /// Returns whether the rows that scrolled off the screen show these lines, symbol by symbol, as
    /// a buffer made by `Buffer::from_texts` of them does: there are as many rows as lines, each as
    /// wide as the widest of the lines.
    pub fn scrollback_is(&self, lines: &[&str]) -> bool
        ensures { IsTrue result ↔ HistoryHasLines (raw_lines lines.now) (screen_of self.now) }
    {
        rows_are(self.scrollback.as_slice(), texts_width(lines), lines)
    }
}
