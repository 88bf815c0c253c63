//! Which rows of a table are shown. Only those up to the selected one are looked at.

ghost use Rattle.std.specs.Prelude.{◌≡◌, ◌≤◌, ◌<◌, ◌+◌, [], length, IfSome, Some, None};
ghost use Rattle.widget_table.specs.Rows.{height_before, full_height, IsFirstRow, KeepsRowInView, IsRowOffset};

use crate::row::Row;

// The first row, from one on, with which all up to another one fit into so many rows of the
// screen, of which so many are to be shown.
fn first_fitting(rows: &[Row<'_>], least: usize, last: usize, shown: usize, height: usize) -> usize
    requires order { least ≤ last }
    requires inside { last < length rows.now }
    ensures { IsFirstRow rows.now height least last shown result }
{
    if shown > height {
        return last;
    }
    let mut left = height - shown;
    let mut first = last;
    while first > least {
        let rows_of_one = rows[first - 1].height_with_margin();
        if rows_of_one > left {
            return first;
        }
        left -= rows_of_one;
        first -= 1;
    }
    first
}

// Where a table begins that began with a row, so that the selected one is in view.
fn offset_in_view(rows: &[Row<'_>], selected: usize, was: usize, height: usize) -> usize
    requires inside { selected < length rows.now }
    ensures keeps { KeepsRowInView rows.now height selected was result }
    ensures inside { result < length rows.now }
{
    let row = &rows[selected];
    let least = was.min(selected);
    let upper = row.upper_height();
    if first_fitting(rows, least, selected, upper, height) == least {
        return least;
    }
    first_fitting(rows, least, selected, row.height_with_margin(), height)
}

// Where a table begins that began with a row.
pub(crate) fn offset_for(
    rows: &[Row<'_>],
    selected: Option<usize>,
    was: usize,
    height: usize,
) -> usize
    requires inside { IfSome selected (λ s. s < length rows.now) }
    ensures offset { IsRowOffset rows.now height selected was result }
    ensures inside { result ≤ length rows.now }
{
    if rows.is_empty() {
        return 0;
    }
    match selected {
        Some(selected) => offset_in_view(rows, selected, was, height),
        None => was.min(rows.len() - 1),
    }
}
