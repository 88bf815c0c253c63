//! Scroll bars: a bar at a side of an area, with a thumb where the part that is seen lies.
//!
//! It stands on `ratatui_core` and `widget_boxes`. `specs/Scrollbars` says where a bar stands, where
//! its thumb is, and what is painted at each of its places.
#![tactic(auto)]

pub mod laws;
mod names;
mod scrollbar;

pub use scrollbar::{ScrollDirection, Scrollbar, ScrollbarOrientation, ScrollbarState};
