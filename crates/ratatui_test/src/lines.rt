//! Where a screen differs from lines.

ghost use Rattle.std.specs.Prelude.{◌≡◌, ◌<◌, ℕ, length, IfOk, IfSome, MatchOption};
ghost use Rattle.ratatui_core.specs.Text.{widest};
ghost use Rattle.ratatui_core.specs.Buffer.{IsOfLines, raw_lines};
ghost use Rattle.ratatui_core.specs.Backend.{Screen, ScreenHasLines, screen_of};
ghost use Rattle.rtui_buffer.specs.Line.{line_at, line_row};
ghost use Rattle.rtui_backend.specs.ScreenLines.{RowHasLine, symbols_in};
ghost use Rattle.ratatui_test.specs.Apart.{symbol_seen, RowDiffersFirstAt, LinesDifferFirstAt, LinesDifferAt};
ghost use Rattle.ratatui_test.specs.Apart.{IsBufferOf};

use crate::picture::{write_buffer, write_mark};
use ratatui_core::backend::TestBackend;
use ratatui_core::buffer::{Buffer, Cell, texts_width};
use ratatui_core::layout::Position;
use std::alloc::{AllocError, Global};
use std::fmt;

/// What differs between a screen and the lines that it should show: how many rows or columns there
/// are, or else a symbol, the first one in reading order. It prints as a line that says it, and a
/// picture of the screen and the lines.
///
/// ```
/// at (1, 0): "e" is shown
/// shown:
/// |Hello|
///   ^
/// wanted:
/// |Hallo|
///   ^
/// ```
#[derive(Clone, Copy)]
pub struct LinesDifference<'s, 'l> {
    /// What the screen shows.
    pub shown: &'s Buffer,
    /// The lines that are wanted.
    pub wanted: &'l [&'l str],
    /// The position of the first symbol that differs; none if there are more or fewer rows or
    /// columns.
    pub position: Option<Position>,
}

/// What shows lines.
pub trait Shows {
    // the screen that it shows
    ghost screen: { Self → Screen };

    /// Returns what differs from these lines, or nothing if they are shown.
    ///
    /// # Errors
    ///
    /// `AllocError` if memory is refused, which is taken for a buffer of the lines.
    fn difference<'s, 'l>(
        &'s self,
        alloc: Global,
        lines: &'l [&'l str],
    ) -> Result<Option<LinesDifference<'s, 'l>>, AllocError>
        ensures first { IfOk result (λ found. MatchOption found
            (ScreenHasLines (raw_lines lines.now) (screen self.now))
            (λ d. LinesDifferAt (raw_lines lines.now) (screen self.now) d.position)) }
        ensures shown { IfOk result (λ found.
            IfSome found (λ d. IsBufferOf (screen self.now) d.shown.now)) }
        ensures wanted { IfOk result (λ found. IfSome found (λ d. d.wanted.now ≡ lines.now)) };
}

impl Shows for TestBackend {
    ghost screen = { screen_of };

    fn difference<'s, 'l>(
        &'s self,
        alloc: Global,
        lines: &'l [&'l str],
    ) -> Result<Option<LinesDifference<'s, 'l>>, AllocError> {
        let shown = self.buffer();
        let area = *shown.area();
        let mut apart = LinesDifference {
            shown,
            wanted: lines,
            position: None,
        };
        if lines.len() != usize::from(area.height)
            || texts_width(lines) != usize::from(area.width)
        {
            return Ok(Some(apart));
        }
        let wanted = Buffer::from_texts(alloc, lines)?;
        match first_symbol(self, lines, &wanted) {
            Some(position) => {
                apart.position = Some(position);
                Ok(Some(apart))
            }
            None => Ok(None),
        }
    }
}

// The first position at which the symbols of a screen and of a buffer of lines differ.
fn first_symbol(backend: &TestBackend, lines: &[&str], wanted: &Buffer) -> Option<Position>
    requires lines { IsOfLines (raw_lines lines.now) wanted.now }
    requires height { (screen_of backend.now).height ≡ length lines.now }
    requires width { (screen_of backend.now).width ≡ widest (raw_lines lines.now) }
    ensures { MatchOption result (ScreenHasLines (raw_lines lines.now) (screen_of backend.now))
        (LinesDifferFirstAt (raw_lines lines.now) (screen_of backend.now)) }
{
    for y in 0..backend.buffer().area().height {
        if let Some(x) = row_apart(backend, lines, wanted, y) {
            return Some(Position { x, y });
        }
    }
    None
}

// The first column in which the symbols of a row of a screen and of a buffer of lines differ.
fn row_apart(backend: &TestBackend, lines: &[&str], wanted: &Buffer, y: u16) -> Option<u16>
    requires lines { IsOfLines (raw_lines lines.now) wanted.now }
    requires height { (screen_of backend.now).height ≡ length lines.now }
    requires width { (screen_of backend.now).width ≡ widest (raw_lines lines.now) }
    requires row { y < (screen_of backend.now).height }
    ensures { let line = line_at (raw_lines lines.now) y in
        MatchOption result (RowHasLine line (screen_of backend.now) y)
        (RowDiffersFirstAt line (screen_of backend.now) y) }
{
    match first_column(shown_row(backend, y), wanted_row(wanted, lines, y)) {
        Some(x) => Some(x as u16),
        None => None,
    }
}

// A row of a screen.
fn shown_row(backend: &TestBackend, y: u16) -> &[Cell]
    requires { y < (screen_of backend.now).height }
    ensures width { length result.now ≡ (screen_of backend.now).width }
    ensures symbols { (a : ℕ) → a < (screen_of backend.now).width
        → symbol_seen result.now a ≡ symbols_in (screen_of backend.now) y a }
{
    backend.buffer().row(y)
}

// A row of a buffer of lines.
fn wanted_row<'b>(wanted: &'b Buffer, lines: &[&str], y: u16) -> &'b [Cell]
    requires lines { IsOfLines (raw_lines lines.now) wanted.now }
    requires row { y < length lines.now }
    ensures row { let ls = raw_lines lines.now in
        result.now ≡ line_row (widest ls) (line_at ls y) }
    ensures width { length result.now ≡ widest (raw_lines lines.now) }
{
    let _ = lines;
    wanted.row(y)
}

// The symbol at a place of a row.
#[tactic(auto, using(rtui_backend::proofs::LineLemmas::cell_looks), unfolding(rtui_cell::specs::Look::look_of))]
fn symbol_at(row: &[Cell], x: usize) -> &str
    requires { x < length row.now }
    ensures { result.now ≡ symbol_seen row.now x }
{
    row[x].symbol()
}

// The first column in which the symbols of two rows differ.
fn first_column(shown: &[Cell], wanted: &[Cell]) -> Option<usize>
    requires { length shown.now ≡ length wanted.now }
    ensures { MatchOption result
        ((a : ℕ) → a < length shown.now → symbol_seen shown.now a ≡ symbol_seen wanted.now a)
        (λ x. (x < length shown.now)
        × (symbol_seen shown.now x ≡ symbol_seen wanted.now x → ⊥)
        × ((a : ℕ) → a < x → symbol_seen shown.now a ≡ symbol_seen wanted.now a)) }
{
    for x in 0..shown.len() {
        if symbol_at(shown, x) != symbol_at(wanted, x) {
            return Some(x);
        }
    }
    None
}

impl LinesDifference<'_, '_> {
    // Writes where and what differs.
    fn write_head<W: fmt::Write>(&self, f: &mut fmt::Formatter<W>) -> fmt::Result {
        let Some(position) = self.position else {
            let area = self.shown.area();
            let (width, height) = (texts_width(self.wanted), self.wanted.len());
            return write!(
                f,
                "size: {}x{} is shown, {width}x{height} wanted",
                area.width, area.height
            );
        };
        match self.shown.cell(position) {
            Some(cell) => write!(f, "at {position}: {:?} is shown", cell.symbol()),
            None => write!(f, "at {position}"),
        }
    }
}

/// A line that says where the screen differs, and a picture of the screen and of the lines: a row
/// between bars for each of theirs, and a mark under the position.
impl fmt::Display for LinesDifference<'_, '_> {
    fn fmt<W: fmt::Write>(&self, f: &mut fmt::Formatter<W>) -> fmt::Result {
        self.write_head(f)?;
        f.write_str("\nshown:")?;
        write_buffer(f, self.shown, self.position)?;
        f.write_str("\nwanted:")?;
        for y in 0..self.wanted.len() {
            write!(f, "\n|{}|", self.wanted[y])?;
            if let Some(position) = self.position {
                if usize::from(position.y) == y {
                    write_mark(f, position.x)?;
                }
            }
        }
        Ok(())
    }
}
