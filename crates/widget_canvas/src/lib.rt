//! A canvas: shapes by dots over a range of coordinates in whole numbers, and labels over them.
//!
//! It stands on `ratatui_core`, `widget_boxes` and `rtui_dots`, which has the shapes.
//! `specs/Canvases` says what a grid of dots and a canvas make of a buffer.
#![tactic(auto)]

mod canvas;
mod fresh;
mod label;
pub mod laws;
mod shown;
mod state;

pub use canvas::Canvas;
pub use label::Label;
pub use rtui_dots::{Bars, Circle, Drawing, Line, Path, Points, Rectangle};
pub use state::CanvasState;
