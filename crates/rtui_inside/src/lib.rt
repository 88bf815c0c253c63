//! What a widget draws inside its style and its box.
//!
//! It stands on `widget_boxes` and `rtui_drawing`. A widget says what it draws in an area that has
//! cells ([`DrawInside`], [`DrawStateInside`]); [`render_inside`] and [`render_state_inside`] make
//! of it a whole rendering, and promise all that a widget owes: what it renders, what a refusal
//! leaves, and when it takes no memory. `specs/Inside` says so in a word each.
#![tactic(auto)]

mod inside;
mod state;

pub use inside::{DrawInside, render_inside};
pub use state::{DrawStateInside, render_state_inside};
