//! A tree of nodes, of which some are opened and one may be selected.
//!
//! It stands on `ratatui_core`, `widget_boxes`, `rtui_drawing` and `rtui_inside`. `specs/Depths` says
//! what the ancestors of a node are and which nodes are shown, `specs/Moves` where keys lead,
//! `specs/Rows` which nodes stand in the rows, `specs/TreeStates` what a call makes of a state, and
//! `specs/Trees` what a tree draws.
#![tactic(auto)]

mod item;
pub mod laws;
mod links;
mod marks;
mod nodes;
mod state;
mod styled;
mod tree;

pub use item::TreeItem;
pub use state::TreeState;
pub use tree::Tree;
