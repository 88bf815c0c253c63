//! What differs, for tests: between two buffers, and between a screen in memory and the lines that
//! it should show.
//!
//! It stands on `ratatui_core`. [`difference`] and [`Shows::difference`] answer nothing exactly if
//! nothing differs, and else the first place in reading order that does. What they answer prints as
//! one line that says it, and then a picture of both sides with a mark under the place.
//! [`assert_same!`] and [`assert_shows!`] end a test with that, and [`assert_stored!`] compares a
//! screen with one that is stored in a file, which a tool writes anew.
#![tactic(auto)]

mod asserts;
mod buffers;
mod lines;
mod picture;

pub use buffers::{BufferDifference, difference};
pub use lines::{LinesDifference, Shows};
