//! Rows of a table, cell by cell.

ghost use Rattle.std.specs.Prelude.{◌≡◌, ℕ, ◌+◌, ◌++◌, [], ◌∷◌, IfOk, IsOk};
ghost use Rattle.widget_table.specs.Rows.{IsNewRow};
ghost use Rattle.ratatui_macros.specs.Made.{HasRoomLeft, IsMadeBy};

use crate::into_cell::IntoCell;
use std::alloc::AllocError;
use widget_table::{Cell, Row};

/// A row of a table of these cells, each a cell, a text, a line, a span, a `&str` or a `String`: a
/// `Result<Row, AllocError>`. An empty list takes no memory.
///
/// ```
/// let row = row![in alloc; "cpu", "97%".red()]?;
/// ```
#[macro_export]
macro_rules! row {
    (in $alloc:expr $(;)?) => {
        $crate::row_of($crate::with_room($alloc, 0))
    };
    (in $alloc:expr; $($part:expr),+ $(,)?) => {
        $crate::row!(@ $crate::with_room($alloc, $crate::part_count!($($part),+)), $($part),+)
    };
    (@ $cells:expr, $part:expr) => {
        $crate::row_of($crate::with_cell($cells, $part))
    };
    (@ $cells:expr, $part:expr, $($rest:expr),+) => {
        $crate::row!(@ $crate::with_cell($cells, $part), $($rest),+)
    };
    ($($rest:tt)*) => {
        compile_error!("`row!` takes an allocator first: write `row![in alloc; \"a\", \"b\".bold()]?`")
    };
}

/// Adds a part after the cells; refused cells stay refused.
///
/// # Errors
///
/// `AllocError` if the cells were refused, or if memory is. With room for one it isn't, if the part
/// becomes a cell without memory.
pub fn with_cell<'a, C: IntoCell<'a> + Drop>(
    cells: Result<Vec<Cell<'a>>, AllocError>,
    part: C,
) -> Result<Vec<Cell<'a>>, AllocError>
    ensures value { IsMadeBy (λ was made. made.items ≡ was.items ++ C.as_cell part ∷ [])
        cells.entry result }
    ensures succeeds { IfOk cells.entry (λ was. HasRoomLeft 1 was → C.takes_none part → IsOk result) }
    ensures room { (n : ℕ) → IsMadeBy (λ was made. HasRoomLeft (n + 1) was → HasRoomLeft n made)
        cells.entry result }
{
    let mut cells = cells?;
    let cell = part.into_cell(*cells.allocator())?;
    cells.push(cell)?;
    Ok(cells)
}

/// Makes a row of these cells, one row high and without margins; refused cells stay refused.
///
/// # Errors
///
/// `AllocError` if the cells were refused.
pub fn row_of<'a>(cells: Result<Vec<Cell<'a>>, AllocError>) -> Result<Row<'a>, AllocError>
    ensures value { IsMadeBy (λ cells row. IsNewRow cells.items row) cells.entry result }
    ensures succeeds { IsOk cells.entry → IsOk result }
{
    Ok(Row::new(cells?))
}
