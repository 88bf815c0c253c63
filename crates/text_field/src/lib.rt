//! A line of text that a person types, with a cursor in it.
//!
//! It knows no screen: `widget_field` shows it. `specs/Field` says what a field is and what is done
//! to it, `specs/Reach` how far a cursor goes, `specs/Keys` what each key does, and `specs/History`
//! how edits are undone.
#![tactic(auto)]

mod cuts;
mod field;
mod history;
mod keys;
pub mod laws;
mod reach;
mod typed;

pub use field::TextField;
pub use history::History;
pub use keys::{Edit, edit_of};
pub use reach::Reach;
