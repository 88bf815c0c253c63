//! A symbol that turns while something goes on, and a label beside it.
//!
//! It stands on `ratatui_core`, `rtui_drawing` and `rtui_inside`. `specs/Sets` says which symbol of
//! a set stands and how steps go around it, `specs/Throbbers` what a throbber draws.
#![tactic(auto)]

pub mod laws;
mod set;
mod state;
mod styled;
mod throbber;

pub use set::{ARROW, ASCII, BOX_DRAWING, BRAILLE_EIGHT, BRAILLE_SIX, Set, WhichUse};
pub use state::ThrobberState;
pub use throbber::Throbber;
