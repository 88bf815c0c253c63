//! What a widget draws in an area: things over it or over parts of it, one after the other.
//!
//! It stands on `rtui_widgets`. `specs/Drawings` says what a drawing is, what it makes of a buffer
//! and what a refusal leaves of it; `specs/Cuts` which parts an area has; `proofs/DrawingLemmas` what
//! holds of a drawing. The functions here draw one thing each, and say so in one clause, so that a
//! function which calls them one after the other says in one clause what it draws.
#![tactic(auto)]

mod cut;
mod put;

pub use cut::Cut;
pub use put::{put_change, put_line, put_style, put_text, write, write_line, write_span};
