//! From the frame to the bytes: a backend of escape sequences, proved against a model of the
//! terminal that reads them.
//!
//! [`AnsiBackend`] is a `Backend` whose screen is what a terminal of the crate `ansi_model` shows
//! that has read what its writer was sent. What stands below it says what bytes do to every
//! terminal that reads them: those of drawn cells (`SendsUpdates`), and of a whole call
//! (`Collects`).
#![tactic(auto)]

mod asking;
mod backend;
mod calls;
mod checked;
mod draw;
mod error;
pub mod laws;
mod resizable;
mod sender;
mod sent;
mod settings;
mod size;
mod tracker;

pub use ansi_model::{KeyboardEnhancementFlags, SetCursorStyle};
pub use backend::AnsiBackend;
pub use checked::draw_for_all;
pub use draw::CellError;
pub use error::AnsiError;
pub use size::size_told;
