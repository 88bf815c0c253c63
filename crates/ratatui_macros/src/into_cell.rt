//! What may stand in a row of a table.

ghost use Rattle.std.specs.Prelude.{◌≡◌, [], ◌∷◌, ⊤, IfOk, IsOk};
ghost use Rattle.std.specs.String.{string_bytes};
ghost use Rattle.ratatui_core.specs.Text.{line_of, text_of};
ghost use Rattle.widget_table.specs.Rows.{raw_cell};
ghost use Rattle.widget_table.specs.declared.cell.Cell.{Cell as CellData};
ghost use Rattle.ratatui_macros.specs.Cells.{plain_cell};

use ratatui_core::text::{Line, Span, Text};
use std::alloc::{AllocError, Global};
use widget_table::Cell;

/// What becomes a cell of a table: a cell, and a text, a line, a span or a plain text, in a cell
/// without a style of its own.
///
/// ```
/// let row = row![in alloc; "cpu", "97%".red(), total.to_text(alloc)?]?; // three cells
/// ```
pub trait IntoCell<'a> {
    // the cell that it becomes
    ghost as_cell: { Self → CellData };

    // whether it becomes one without memory
    ghost takes_none: { Self → Type 0 } = { λ _. ⊥ };

    /// Returns the cell that it becomes.
    ///
    /// # Errors
    ///
    /// `AllocError` if memory is refused. A cell and a text take none.
    fn into_cell(self, alloc: Global) -> Result<Cell<'a>, AllocError>
        ensures value { IfOk result (λ cell. cell ≡ as_cell self) }
        ensures succeeds { takes_none self → IsOk result };
}

/// The cell itself.
impl<'a> IntoCell<'a> for Cell<'a> {
    ghost as_cell = { λ cell. cell };

    ghost takes_none = { λ _. ⊤ };

    fn into_cell(self, alloc: Global) -> Result<Cell<'a>, AllocError> {
        let _ = alloc;
        Ok(self)
    }
}

/// A cell of the text.
impl<'a> IntoCell<'a> for Text<'a> {
    ghost as_cell = { plain_cell };

    ghost takes_none = { λ _. ⊤ };

    fn into_cell(self, alloc: Global) -> Result<Cell<'a>, AllocError> {
        let _ = alloc;
        Ok(Cell::new(self))
    }
}

/// A cell of the line alone.
impl<'a> IntoCell<'a> for Line<'a> {
    ghost as_cell = { λ line. plain_cell (text_of (line ∷ [])) };

    fn into_cell(self, alloc: Global) -> Result<Cell<'a>, AllocError> {
        Ok(Cell::new(Text::from_line(alloc, self)?))
    }
}

/// A cell of the span alone.
impl<'a> IntoCell<'a> for Span<'a> {
    ghost as_cell = { λ span. plain_cell (text_of (line_of (span ∷ []) ∷ [])) };

    fn into_cell(self, alloc: Global) -> Result<Cell<'a>, AllocError> {
        Ok(Cell::new(Text::from_span(alloc, self)?))
    }
}

/// Borrows the text, a line for each of its lines.
impl<'a> IntoCell<'a> for &'a str {
    ghost as_cell = { λ text. raw_cell text.now };

    fn into_cell(self, alloc: Global) -> Result<Cell<'a>, AllocError> {
        Cell::raw(alloc, self)
    }
}

/// Copies the lines of the text.
impl<'a> IntoCell<'a> for String {
    ghost as_cell = { λ text. raw_cell (string_bytes text) };

    fn into_cell(self, alloc: Global) -> Result<Cell<'a>, AllocError> {
        Ok(Cell::new(Text::raw_string(alloc, self)?))
    }
}
