//! A line that is read as far as its next row needs.

ghost use Rattle.std.specs.Prelude.{◌≡◌, ◌+◌, ◌≤◌, ◌<◌, ◌==◌, ◌^◌, ◌++◌, ◌∷◌, [], List, length, filter, drop};
ghost use Rattle.std.specs.Prelude.{OnOk};
ghost use Rattle.ratatui_core.specs.Text.{GraphemeData, line_graphemes_left};
ghost use Rattle.widget_paragraph.specs.Reflow.{columns_taken, fits_row, AllFit};
ghost use Rattle.widget_paragraph.specs.Reflow.{split_row};
ghost use Rattle.widget_paragraph.specs.Inner.{left_of, columns_ahead, HasLeft, IsAhead, HoldsNext};

use crate::measured::Measured;
use crate::reflow::{Row, columns_of, split_row, trimmed_start};
use ratatui_core::buffer::CellWidth;
use ratatui_core::text::LineGraphemes;
use std::alloc::{AllocError, Global};

// So many graphemes of rows that were passed are held at most, beside those of the next row.
const PASSED: usize = 1024;

/// A line that is broken into rows: its graphemes that fit a row, of which as many are held as the
/// next row needs.
#[derive(Debug, Drop)]
pub(crate) struct Ahead<'t, 'a> {
    rest: LineGraphemes<'t, 'a>,
    held: Row<'t>,
    // How many of those held belong to rows that were passed.
    passed: usize,
    // Whether all of the line was read.
    is_read: bool,
    width: u16,
    trim: bool,
}

// How many columns stand after the blanks that are left out at the front, counted up to 65535.
fn columns_ahead(graphemes: &[Measured<'_>], trim: bool) -> usize
    ensures { result ≤ columns_ahead trim graphemes.now }
{
    usize::from(columns_of(&graphemes[trimmed_start(graphemes, trim)..]))
}

// The columns ahead with those of one grapheme more; a blank that may be left out doesn't count.
fn ahead_with(ahead: usize, trim: bool, grapheme: &Measured<'_>) -> usize
    requires few { ahead < 2 ^ 32 }
    ensures { (gs : List GraphemeData) → ahead ≤ columns_ahead trim gs
        → result ≤ columns_ahead trim (gs ++ grapheme.now ∷ []) }
{
    if trim && ahead == 0 && grapheme.is_blank() {
        return ahead;
    }
    ahead + usize::from(grapheme.columns())
}

impl<'t, 'a> Ahead<'t, 'a> {
    /// Makes a line of which nothing was read.
    pub(crate) fn new(
        alloc: Global,
        graphemes: LineGraphemes<'t, 'a>,
        width: u16,
        trim: bool,
    ) -> Ahead<'t, 'a>
        ensures ahead { IsAhead result }
        ensures left { left_of result
            ≡ filter (fits_row width) (line_graphemes_left graphemes.entry) }
        ensures width { result.width ≡ width }
        ensures trim { result.trim ≡ trim }
    {
        Ahead {
            rest: graphemes,
            held: Vec::new(alloc),
            passed: 0,
            is_read: false,
            width,
            trim,
        }
    }

    /// Reads on until the next row is held, or all of the line.
    pub(crate) fn fill(&mut self) -> Result<(), AllocError>
        requires { IsAhead self.old }
        ensures ready { OnOk result (HoldsNext self.new) }
        ensures left { OnOk result (HasLeft (left_of self.old) self.old self.new) }
    {
        if self.is_read {
            return Ok(());
        }
        let enough = usize::from(self.width);
        let mut ahead = columns_ahead(&self.held[self.passed..], self.trim);
        while ahead <= enough {
            let Some(grapheme) = self.rest.next() else {
                self.is_read = true;
                return Ok(());
            };
            let columns = grapheme.symbol.cell_width();
            if columns > self.width {
                continue;
            }
            let measured = Measured::new(grapheme, columns);
            ahead = ahead_with(ahead, self.trim, &measured);
            self.held.push(measured)?;
        }
        Ok(())
    }

    /// Returns whether no row is left.
    pub(crate) fn is_empty(&self) -> bool
        requires { HoldsNext self.now }
        ensures { result ≡ (length (left_of self.now) == 0) }
    {
        self.passed == self.held.len()
    }

    /// Returns the next row, and how many graphemes stand before the one after it.
    pub(crate) fn row(&self) -> (&[Measured<'t>], usize)
        requires ready { HoldsNext self.now }
        requires fit { AllFit self.now.width (left_of self.now) }
        ensures value { (result.0.now, result.1)
            ≡ split_row self.now.width self.now.trim (left_of self.now) }
        ensures fits { columns_taken (result.0.now) ≤ self.now.width }
        ensures some { 0 < length (left_of self.now) → 0 < result.1 }
        ensures inside { self.now.passed + result.1 ≤ length self.now.held.items }
    {
        split_row(&self.held[self.passed..], self.width, self.trim)
    }

    /// Passes so many graphemes of those that are held.
    pub(crate) fn pass(&mut self, count: usize)
        requires ahead { IsAhead self.old }
        requires held { self.old.passed + count ≤ length self.old.held.items }
        ensures ahead { IsAhead self.new }
        ensures left { HasLeft (drop count (left_of self.old)) self.old self.new }
    {
        self.passed += count;
        if self.passed > PASSED {
            self.held.rotate_left(self.passed);
            self.held.truncate(self.held.len() - self.passed);
            self.passed = 0;
        }
    }
}
