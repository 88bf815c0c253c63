//! The rows that scrolled off a screen, in clauses alone: nothing of them is kept when the program
//! runs.

ghost use Rattle.std.specs.Prelude.{◌≡◌, List, [], ◌∷◌, ◌++◌};
ghost use Rattle.std.specs.Borrow.{ftrue};
ghost use Rattle.rtui_cell.specs.declared.cell.Cell.{Cell};

use rtui_cell::Cell;
use std::marker::{Model, PhantomData};

/// Rows of cells, in order; they take no memory. No memory holds them, so nothing ties them to a
/// screen but the clauses of those who keep them.
#[derive(Drop)]
pub(crate) struct Rows {
    marker: PhantomData<u8>,
    pub(crate) ghost cells: { List (List Cell) },
}

impl Model for Rows {
    ghost also_owns = { λ _. ftrue };
}

impl Rows {
    /// No rows.
    pub(crate) fn none() -> Rows
        ensures { result.cells ≡ [] }
    {
        Rows {
            marker: PhantomData,
        }
    }

    /// The same rows.
    pub(crate) fn again(&self) -> Rows
        ensures { result.cells ≡ self.now.cells }
    {
        Rows {
            marker: PhantomData,
        }
    }

    /// These rows, and after them one more.
    pub(crate) fn and(&self, _row: &[Cell]) -> Rows
        ensures { result.cells ≡ self.now.cells ++ _row.now ∷ [] }
    {
        Rows {
            marker: PhantomData,
        }
    }
}
