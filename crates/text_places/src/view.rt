//! Where a view of a text begins.

ghost use Rattle.std.specs.Prelude.{◌≡◌, ◌<◌};
ghost use Rattle.text_places.specs.Places.{IsInLine, rows_between, view_begin};

use crate::place::Place;
use crate::text::{BrokenText, previous_place};

/// Returns where a view of so many rows begins that has a place in it, as near as can be to where it
/// began, and in which of its rows the place stands. It asks for the lines that are above the place
/// in that view, and for no other ones.
///
/// # Conditions
///
/// There is a row, and the place is a row of its line. Where the view began need not be one: the last
/// row of its line counts, if that has fewer rows.
pub fn view_begin<T: BrokenText>(
    text: &mut T,
    former: Place,
    place: Place,
    rows: usize,
) -> (Place, usize)
    requires some { 0 < rows }
    requires place { IsInLine (T.rows text.old) place }
    ensures begin { result.0 ≡ view_begin (T.rows text.old) former place rows }
    ensures row { result.1 ≡ rows_between (T.rows text.old) result.0 place }
    ensures within { result.1 < rows }
    ensures same { T.rows text.new ≡ T.rows text.old }
{
    let mut begin = place;
    let mut above = 0;
    'walk: while above < rows - 1 && former.is_before(begin) {
        begin = previous_place(text, begin);
        above += 1;
    }
    (begin, above)
}
