//! Cuts an area into the parts of a layout, and the spaces between them, in whole numbers.
#![tactic(auto)]

mod calls;
mod cap;
mod edge;
mod flex;
mod lane;
pub mod laws;
mod level;
mod part;
mod place;
mod share;
mod slot;
mod smooth;

pub use calls::{CountError, Cut, Split, SplitArea, SplitAreaInto, SplitInto};
