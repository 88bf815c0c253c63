//! A text in an area: each line cut, or broken into rows.
//!
//! It stands on `ratatui_core` and `widget_boxes`. `specs/Reflow` says how a line is cut and broken,
//! `specs/Paragraphs` which rows a paragraph has and what it makes of a buffer. A broken line is
//! read only as far as rows are skipped and shown.
#![tactic(auto)]

mod ahead;
mod cut;
pub mod laws;
mod measured;
mod paragraph;
mod reflow;
mod styled;

pub use paragraph::{Paragraph, Wrap};
