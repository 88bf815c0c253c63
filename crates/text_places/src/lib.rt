//! Places in a text whose lines are broken into rows, and how one walks among them.
//!
//! A place is a line and a row of it. It knows no screen: a text says how many rows each line takes
//! ([`BrokenText`]), and the calls go by these. `specs/Places` says what each of them finds, and
//! [`laws`] what follows.
#![tactic(auto)]

pub mod laws;
mod place;
mod text;
mod view;

pub use place::Place;
pub use text::{BrokenText, next_place, places_after, places_before, previous_place};
pub use view::view_begin;
