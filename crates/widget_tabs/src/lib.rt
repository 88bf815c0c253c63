//! Tabs: titles in a row, of which one may be selected.
//!
//! It stands on `ratatui_core` and `widget_boxes`. `specs/Tabs` says where each title, padding and
//! divider stands and what tabs make of a buffer.
#![tactic(auto)]

pub mod laws;
mod styled;
mod tabs;

pub use tabs::Tabs;
