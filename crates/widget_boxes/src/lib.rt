//! Boxes: borders on some sides of an area, titles in its first and its last row, and the space
//! inside; emptying an area, and highlighting one.
//!
//! It stands on `ratatui_core`. `specs/Boxes` says which symbols stand where and what is inside,
//! `specs/Clears` what emptying is, `specs/Highlights` which cells a highlight changes, and
//! `specs/Framed` what a style and a box leave to the widget inside. `specs/Apart` says of which area
//! of a settled buffer more may be painted, and what then stands apart in it. The layer above
//! renders its widgets by [`render_frame`].
#![tactic(auto)]

mod block;
mod border_type;
mod borders;
mod clear;
mod clone;
mod frame;
mod highlights;
pub mod laws;
mod names;
mod padding;
mod styled;
mod title;

pub use block::Block;
pub use border_type::BorderType;
pub use borders::Borders;
pub use clear::Clear;
pub use clone::{cloned_block, cloned_line};
pub use frame::{columns_around_if, inner_if, render_frame, rows_around_if};
pub use highlights::highlight;
pub use padding::Padding;
pub use title::TitlePosition;
