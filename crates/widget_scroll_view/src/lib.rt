//! A content larger than the area in which it is shown, with scroll bars.
//!
//! It stands on `ratatui_core`, `widget_boxes` and `widget_scrollbar`. `specs/Offsets` says how a state
//! is scrolled, `specs/Places` where the content and the bars stand, `specs/ScrollViews` what a
//! rendering makes of a buffer.
#![tactic(auto)]

pub mod laws;
mod scroll_view;
mod state;
mod window;

pub use scroll_view::{ScrollView, ScrollbarVisibility};
pub use state::ScrollViewState;
