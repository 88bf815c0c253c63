//! Places in a text.

ghost use Rattle.std.specs.Prelude.{◌≡◌, ◌<◌, ◌≤◌, ◌+◌, [], min, ◌^◌, ◌-◌, length};
ghost use Rattle.pager.specs.declared.sought.Sought.TheVariants.{Plain};
ghost use Rattle.pager.specs.Search.{numbered_line};
ghost use Rattle.pager.specs.Symbols.{line_symbols};
ghost use Rattle.text_places.specs.Places.{next_place};
ghost use Rattle.pager.specs.Places.{page_place, breaking, number_columns, stride, last_start, rows_of_line};
ghost use Rattle.pager.specs.Places.{page_rows, last_page, at_place, place_after, place_before};

use crate::pager::Pager;
use crate::symbols::shown_columns;
use text_places::{BrokenText, Place, next_place, places_after, places_before};
use unicode_segmentation::UnicodeSegmentation;

// The column in which the last symbol of a line begins, at most `u32::MAX`.
fn last_start(line: &str) -> u32
    ensures { result ≡ min (last_start 0 (line_symbols (Plain []) [] line.now)) (2 ^ 32 - 1) }
{
    let mut last = 0u32;
    let mut column = 0u64;
    for grapheme in line.graphemes(true) {
        if column >= 0xffff_ffff {
            return u32::MAX;
        }
        last = column as u32;
        column += u64::from(shown_columns(column, grapheme));
    }
    last
}

impl<'a> Pager<'a> {
    // How many rows of text a page has.
    pub(crate) fn page_rows(&self) -> u32
        ensures { result ≡ page_rows self.now }
    {
        u32::from(self.rows.saturating_sub(1).max(1))
    }

    // The place at which the page begins.
    pub(crate) fn place(&self) -> Place
        ensures place { result ≡ page_place self.now }
        ensures line { result.line < 2 ^ 32 }
        ensures row { result.row < 2 ^ 32 }
    {
        Place {
            line: self.top as usize,
            row: self.row as usize,
        }
    }

    // How many columns the numbers of lines take.
    pub(crate) fn number_columns(&self, width: u16) -> u16
        ensures { result ≡ number_columns self.now width }
    {
        if self.has_numbers && width > 8 { 8 } else { 0 }
    }

    // How many columns of a line begin in a row, if lines are broken.
    pub(crate) fn stride(&self) -> u16
        ensures { result ≡ stride self.now }
    {
        let beside = self.number_columns(self.columns);
        (self.columns - beside).saturating_sub(1).max(1)
    }

    // How many rows a line takes.
    fn line_rows(&self, line: usize) -> usize
        ensures most { result ≤ 2 ^ 32 }
        ensures rows { result ≡ rows_of_line self.now (numbered_line self.now.document line) }
    {
        if !self.wraps {
            return 1;
        }
        let last = last_start(self.document.line_or_empty(line as u64));
        (last / u32::from(self.stride())) as usize + 1
    }

    // The next row of the text, which goes on after its end.
    pub(crate) fn next_place(&self, place: Place) -> Place
        requires { place.line < 2 ^ 63 }
        ensures place { result ≡ next_place (breaking self.now) place }
        ensures line { result.line ≤ place.line + 1 }
        ensures row { result.row < 2 ^ 32 }
    {
        let mut text = self;
        next_place(&mut text, place)
    }

    // The place so many rows after the first one of the page.
    pub(crate) fn place_after(&self, rows: u32) -> Place
        ensures place { result ≡ place_after rows self.now }
        ensures line { result.line < 2 ^ 33 }
        ensures row { result.row < 2 ^ 32 }
    {
        if self.wraps {
            let mut text = self;
            return places_after(&mut text, rows as usize, self.place());
        }
        Place {
            line: self.top as usize + rows as usize,
            row: 0,
        }
    }

    // The place so many rows before the first one of the page.
    pub(crate) fn place_before(&self, rows: u32) -> Place
        ensures place { result ≡ place_before rows self.now }
        ensures row { result.row < 2 ^ 32 }
    {
        if self.wraps {
            let mut text = self;
            return places_before(&mut text, rows as usize, self.place());
        }
        Place {
            line: self.top.saturating_sub(rows) as usize,
            row: 0,
        }
    }

    // The place at which the last page begins.
    fn last_place(&self) -> Place
        ensures place { result ≡ last_page self.now }
        ensures line { result.line < 2 ^ 32 }
        ensures row { result.row < 2 ^ 32 }
    {
        let count = self.document.len();
        if self.wraps {
            let mut text = self;
            let end = Place {
                line: count as usize,
                row: 0,
            };
            return places_before(&mut text, self.page_rows() as usize, end);
        }
        Place {
            line: count.saturating_sub(self.page_rows()) as usize,
            row: 0,
        }
    }

    // Goes to the page that begins at a place, or to the last one.
    pub(crate) fn go_to_place(&mut self, place: Place)
        requires { place.row < 2 ^ 32 }
        ensures { self.new ≡ at_place place self.old }
    {
        let place = place.earlier(self.last_place());
        self.top = place.line as u32;
        self.row = place.row as u32;
    }
}

// The lines of the text, as they are broken.
impl<'b, 'a> BrokenText for &'b Pager<'a> {
    ghost use Rattle.pager.specs.PlaceLaws.{rows-some, rows-past};

    ghost rows = { λ pager. breaking pager.now };

    ghost count = { λ pager. length pager.now.document };

    fn rows_of_line(&mut self, line: usize) -> usize {
        self.line_rows(line)
    }

    fn line_count(&self) -> usize {
        self.document.len() as usize
    }

    ghost some = { λ pager. rows-some pager.now };

    ghost after = { λ pager. rows-past pager.now };
}
