//! The calls of rows on what is seen: cells, buffers, backends and terminals.
#![tactic(auto)]

pub mod backends;
pub mod buffers;
pub mod cells;
pub mod terminals;
