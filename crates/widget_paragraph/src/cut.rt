//! A line that is cut, grapheme by grapheme.

ghost use Rattle.std.specs.Prelude.{◌≡◌, ◌+◌, ◌∷◌, [], MatchOption};
ghost use Rattle.ratatui_core.specs.Text.{grapheme_data, line_graphemes_left};
ghost use Rattle.widget_paragraph.specs.Reflow.{grapheme_columns, columns_taken, cut_row};
ghost use Rattle.widget_paragraph.specs.Inner.{left_of_cut, IsCut};

use ratatui_core::buffer::CellWidth;
use ratatui_core::text::{LineGraphemes, StyledGrapheme};

/// The row of a line that is cut: of its graphemes those from a column on, as many as fit.
#[derive(Debug, Drop)]
pub(crate) struct Cut<'t, 'a> {
    rest: LineGraphemes<'t, 'a>,
    pub(crate) width: u16,
    /// How many columns the graphemes take that were given.
    pub(crate) used: u16,
    // How many columns are still to be left out.
    offset: u16,
}

impl<'t, 'a> Cut<'t, 'a> {
    /// Makes the row of a line, of which nothing was given.
    pub(crate) fn new(graphemes: LineGraphemes<'t, 'a>, width: u16, offset: u16) -> Cut<'t, 'a>
        ensures cut { IsCut result }
        ensures left { left_of_cut result
            ≡ cut_row width offset (line_graphemes_left graphemes.entry) }
        ensures width { result.width ≡ width }
        ensures used { result.used ≡ 0 }
    {
        Cut {
            rest: graphemes,
            width,
            used: 0,
            offset,
        }
    }

    /// Returns the next grapheme of the row. After the last one nothing is to be asked for.
    pub(crate) fn next(&mut self) -> Option<StyledGrapheme<'t>>
        requires { IsCut self.old }
        ensures cut { IsCut self.new }
        ensures width { self.new.width ≡ self.old.width }
        ensures left { MatchOption result (left_of_cut self.old ≡ [])
            (λ g. left_of_cut self.old ≡ grapheme_data g ∷ left_of_cut self.new) }
        ensures used { MatchOption result (self.new.used ≡ self.old.used)
            (λ g. self.new.used ≡ self.old.used + grapheme_columns (grapheme_data g)) }
    {
        while let Some(grapheme) = self.rest.next() {
            let columns = grapheme.symbol.cell_width();
            if columns > self.width {
                continue;
            }
            if columns > self.width.saturating_sub(self.used) {
                return None;
            }
            if self.offset > 0 && columns <= self.offset {
                self.offset -= columns;
                continue;
            }
            self.offset = 0;
            self.used += columns;
            return Some(grapheme);
        }
        None
    }

    /// Returns how many columns the row takes.
    pub(crate) fn columns(self) -> u16
        requires { IsCut self }
        ensures { result ≡ self.entry.used + columns_taken (left_of_cut self.entry) }
    {
        let mut cut = self;
        while let Some(_) = cut.next() {}
        cut.used
    }
}
