//! The updates between two frames of cells: only what differs, and enough that a screen which shows
//! the one shows the other afterwards.
//!
//! It stands on `rtui_cell`. `specs/` defines when a frame is settled (`Settled`), when a grid
//! shows one (`Shows`), which places a diff gives (`DiffRule`), and what it promises (`Diff`). For
//! the layer above, `BufferDiff::new` gives the updates with that promise, and `is_settled` says
//! that a full repaint shows the frame.
#![tactic(auto)]

mod cells;
mod diff;
mod settled;
mod step;

pub use diff::BufferDiff;
pub use settled::is_settled;
