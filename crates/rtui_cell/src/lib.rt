//! A cell of a terminal screen: a short text with colours and modifiers, how many columns it takes,
//! and whether it is skipped.
//!
//! It stands on `rtui_style`, `rtui_merge` and the libraries of widths and of short texts. For the
//! layers above, `specs/` defines the look of a cell (`Look`), its width (`Width`, `Cell`),
//! equality (`Equality`), and what putting a cell does to a grid of looks (`Grid`).
#![tactic(auto)]

mod cell;
mod cell_width;
pub mod laws;
mod symbol;

pub use cell::{Cell, CellDiffOption};
pub use cell_width::{CellWidth, columns_of_char};
pub use symbol::Symbol;
