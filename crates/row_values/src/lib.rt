//! The calls of rows on values: geometry, layouts, colours, modifiers, styles, palettes, symbols.
#![tactic(auto)]

pub mod borders;
pub mod geometry;
pub mod layouts;
pub mod palettes;
pub mod styles;
pub mod symbols;
