//! What rows of text are made of: the words of a call, what they name, and the answers as text.
#![tactic(auto)]

pub mod answer;
pub mod args;
pub mod buffers;
pub mod cells;
pub mod error;
pub mod layouts;
pub mod names;
pub mod styles;
pub mod texts;
pub mod tokens;
