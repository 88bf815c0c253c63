//! A grid of cells over an area of a screen.
//!
//! It stands on `rtui_geometry`, `rtui_text`, `rtui_cell` and `rtui_diff`, and passes cells and the
//! diff on. A buffer is seen as its area and its cells, row by row (`specs/BufferData`);
//! `specs/Frame` says when a screen can show it, and `specs/Painting`, `specs/PaintedText` and
//! `specs/Line` what painting a text and a line does to it. For the layer above,
//! `Buffer::diff_iter` gives the updates between two buffers and says that they replay,
//! [`diff_rows`] those between rows of two buffers, and painting on an empty buffer says that a
//! screen can show it. The laws of [`laws`] say what painting is by columns, and which graphemes
//! are kept.
#![tactic(auto)]

mod buffer;
mod diff;
pub mod laws;

pub use buffer::{Buffer, empty_part, lines_width, paint_printable, painted_width, texts_width};
pub use diff::diff_rows;
pub use rtui_cell::{Cell, CellDiffOption, CellWidth};
pub use rtui_diff::BufferDiff;
