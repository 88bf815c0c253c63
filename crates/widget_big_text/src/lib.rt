//! A text in large letters, each of eight by eight pixels.
//!
//! It stands on `ratatui_core`, `rtui_drawing` and `rtui_inside`. `specs/Glyphs` says which pixels
//! a letter has and by which symbol a cell shows some of them, `specs/BigTexts` which cell of an
//! area shows which part of which letter.
#![tactic(auto)]

mod big_text;
mod font;
pub mod laws;
mod letter;
mod pixel_size;
mod styled;

pub use big_text::BigText;
pub use pixel_size::PixelSize;
