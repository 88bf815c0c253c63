//! A text whose lines are broken into rows.

ghost use Rattle.std.specs.Prelude.{◌≡◌, ◌+◌, ◌-◌, ◌<◌, ◌≤◌, ◌^◌, ℕ};
ghost use Rattle.text_places.specs.Places.{next_place, previous_place, places_after, places_before};

use crate::place::Place;

/// A text whose lines are broken into rows.
///
/// It may keep where the line begins that it was asked for last, to find those beside it at once. So a
/// walk borrows it as `&mut`; afterwards it tells the same of its lines.
pub trait BrokenText {
    // how many rows each line takes
    ghost rows: { Self → ℕ → ℕ };

    // how many lines there are
    ghost count: { Self → ℕ };

    /// Returns how many rows the line of a number takes, from 0 on: one or more. After the last line
    /// each one takes one row.
    fn rows_of_line(&mut self, line: usize) -> usize
        ensures rows { result ≡ rows self.old line }
        ensures same { rows self.new ≡ rows self.old };

    /// Returns how many lines there are.
    fn line_count(&self) -> usize
        ensures { result ≡ count self.now };

    // a line takes one row or more
    ghost some: { (text : Self) (line : ℕ) → 0 < rows text line };

    // after the last line each one takes one row
    ghost after: { (text : Self) (line : ℕ) → count text ≤ line → rows text line ≡ 1 };
}

/// Returns the next place: the next row of the line, or the first one of the next line, also after
/// the text's end.
///
/// # Conditions
///
/// There is a number for the next line.
pub fn next_place<T: BrokenText>(text: &mut T, place: Place) -> Place
    requires { place.line < 2 ^ 64 - 1 }
    ensures place { result ≡ next_place (T.rows text.old) place }
    ensures line { result.line ≤ place.line + 1 }
    ensures same { T.rows text.new ≡ T.rows text.old }
{
    if place.row < text.rows_of_line(place.line) - 1 {
        Place {
            line: place.line,
            row: place.row + 1,
        }
    } else {
        Place {
            line: place.line + 1,
            row: 0,
        }
    }
}

/// Returns the place before: the row before in the line, or the last row of the line before. The first
/// place stays.
pub fn previous_place<T: BrokenText>(text: &mut T, place: Place) -> Place
    ensures place { result ≡ previous_place (T.rows text.old) place }
    ensures line { result.line ≤ place.line }
    ensures same { T.rows text.new ≡ T.rows text.old }
{
    if place.row > 0 {
        return Place {
            line: place.line,
            row: place.row - 1,
        };
    }
    if place.line > 0 {
        let line = place.line - 1;
        let row = text.rows_of_line(line) - 1;
        return Place { line, row };
    }
    place
}

/// Returns the place so many rows further. After the text's end it counts the rows at once.
///
/// # Conditions
///
/// There is a number for the line so many further.
pub fn places_after<T: BrokenText>(text: &mut T, rows: usize, place: Place) -> Place
    requires { place.line + rows < 2 ^ 64 }
    ensures place { result ≡ places_after (T.rows text.old) rows place }
    ensures line { result.line ≤ place.line + rows }
    ensures same { T.rows text.new ≡ T.rows text.old }
{
    let count = text.line_count();
    let mut place = place;
    for done in 0..rows {
        if place.line >= count && place.row == 0 {
            return Place {
                line: place.line + (rows - done),
                row: 0,
            };
        }
        place = next_place(text, place);
    }
    place
}

/// Returns the place so many rows before. The first place stays.
pub fn places_before<T: BrokenText>(text: &mut T, rows: usize, place: Place) -> Place
    ensures place { result ≡ places_before (T.rows text.old) rows place }
    ensures line { result.line ≤ place.line }
    ensures same { T.rows text.new ≡ T.rows text.old }
{
    let mut place = place;
    for _ in 0..rows {
        place = previous_place(text, place);
    }
    place
}
