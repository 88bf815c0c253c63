//! A field of text in an area: what a person types in.
//!
//! It shows a `TextField` of `text_field`. `specs/Views` says which part of a text is shown, and
//! `specs/Fields` what a field looks like and what rendering it makes of a buffer and of the field.
#![tactic(auto)]

mod input;
pub mod laws;
mod mask;
mod painting;
mod styled;
mod view;

pub use input::{Input, cursor_position};
