//! Drawing by dots: points, lines, rectangles and circles over a range of coordinates in whole
//! numbers.
//!
//! It stands on `rtui_style` and `rtui_symbols`. `specs/Grids` says where a point stands in a grid
//! of dots and what a dot makes of its cell, `specs/Lines` which dots a line has, `specs/Circles`
//! those of a circle, `specs/Cosines` what cosines are, `specs/Shapes` the dots of the other shapes,
//! and `specs/Layers` how shapes make layers. The crate above shows a grid's cells in a buffer.
#![tactic(auto)]

mod bars;
mod circle;
mod drawing;
pub mod laws;
mod line;
mod painter;
mod path;
mod points;
mod rectangle;
mod scale;
mod shape;

pub use bars::Bars;
pub use circle::Circle;
pub use drawing::Drawing;
pub use line::Line;
pub use painter::{DotCell, Painter};
pub use path::Path;
pub use points::Points;
pub use rectangle::Rectangle;
pub use scale::Scale;
pub use shape::Shape;
