//! Palettes of colours, by the names of two design systems. Each is a constant.
//!
//! It stands on `rtui_style`. The layer above uses the constants; the laws of [`laws`] say which
//! numbers their colours are.
#![tactic(auto)]

pub mod laws;
pub mod material;
pub mod tailwind;
