//! The name of ratatui as a picture of two rows, and a rat of sixteen rows.
//!
//! It stands on `ratatui_core`. `specs/Logos` says which character stands where, and `specs/Mascots` which
//! dots the rat has.
#![tactic(auto)]

pub mod laws;
mod logo;
mod mascot;

pub use logo::{RatatuiLogo, Size};
pub use mascot::{MascotEyeColor, RatatuiMascot};
