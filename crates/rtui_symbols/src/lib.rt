//! Symbols: lines, borders, bars, blocks, patterns of pixels, scroll bars and markers. Each table
//! is constants.
//!
//! It stands on `rtui_layout`, for the error of a name that no marker has, and on `rtui_cell`, for
//! the columns of a text. The layer above uses the constants; [`laws`] says by which rule a table is
//! made, if there is one, and [`narrow`] that the symbols of the sets take one column.
#![tactic(auto)]

pub mod bar;
pub mod block;
pub mod border;
pub mod braille;
pub mod half_block;
pub mod laws;
pub mod line;
pub mod marker;
pub mod narrow;
pub mod pixel;
pub mod scrollbar;
pub mod shade;
