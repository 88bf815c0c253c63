//! Row-major lists of any element: parts that are made blank, moved, or filled from another list.
#![tactic(auto)]

mod blank;
mod block;
mod shift;

pub use blank::{Blank, fill};
pub use block::{Block, move_block};
pub use shift::{shift_down, shift_up};
