//! Events from the bytes that a terminal sends.
#![tactic(auto)]

mod decoder;
mod keys;
pub mod laws;
mod mouse;
mod reader;
mod sequence;

pub use decoder::{Decoder, Fed};
pub use reader::EventReader;
