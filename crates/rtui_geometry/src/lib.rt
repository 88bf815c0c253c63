//! Geometry of a terminal: rectangles, positions, offsets, sizes and margins on a grid whose
//! columns and rows go up to 65535.
//!
//! It stands on `std` alone, takes no memory, and no call can be refused. Two calls have a
//! condition: `Rect::clamp` wants a rectangle whose edges lie on the grid, and `-` of an offset
//! that neither part is the least `i32`.
//!
//! For the layers above, a rectangle is the set of its positions (`HasPosition`), with edges cut at
//! 65535 (`right_edge`, `bottom_edge`); if nothing is cut, `EdgesFit` holds. Each call says its
//! exact result, and `intersection`, `contains`, `inner` and `intersects` also what it means for
//! positions. `Rows`, `Columns` and `Positions` are seen as the list of what they have left.
#![tactic(auto)]

pub mod laws;
mod margin;
mod offset;
mod position;
mod rect;
mod size;

pub use margin::Margin;
pub use offset::Offset;
pub use position::Position;
pub use rect::{Columns, Positions, Rect, Rows};
pub use size::Size;
