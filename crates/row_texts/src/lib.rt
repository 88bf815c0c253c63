//! The calls of rows on texts: spans, lines, texts, and whatever has a style.
#![tactic(auto)]

pub mod lines;
pub mod spans;
pub mod stylize;
pub mod whole_texts;
