//! The coasts of the world, as a shape for a canvas.
//!
//! The points are those of the map of countries at 1:110,000,000 by Natural Earth
//! (naturalearthdata.com), which is in the public domain, in hundredths of a degree; what two
//! countries share was left out. It stands on `rtui_dots`. `specs/Maps` says which dots a map has.
#![tactic(auto)]

mod high;
pub mod laws;
mod low;
mod map;

pub use map::{Map, MapResolution};
