//! A list of items, of which one may be selected.
//!
//! It stands on `widget_boxes` and `rtui_drawing`. `specs/Windows` says which items are shown,
//! `specs/States` what selecting one makes of a state, and `specs/Items` what is drawn of an item
//! and what a list makes of a buffer and of its state.
#![tactic(auto)]

mod fresh;
mod item;
pub mod laws;
mod list;
mod names;
mod state;
mod styled;
mod window;

pub use item::ListItem;
pub use list::{HighlightSpacing, List, ListDirection};
pub use state::ListState;
