//! Rows that come in above a viewport: a buffer that a closure fills, its rows on a screen, and the
//! buffers that move with the viewport. All are free functions, over a backend alone.
//!
//! It stands on `rtui_buffer` and `rtui_backend`, on their contracts alone. `specs/Filling` says
//! what a closure leaves, `specs/Rows` what a drawing of rows does to a screen; `specs/Insertion`
//! what comes in above a viewport, and `specs/Following` what moves with it. `insert`,
//! `specs/Scrolling` and `proofs/PushLemmas` alone know how the screen is scrolled.
#![tactic(auto)]

mod draw;
mod fill;
mod follow;
mod insert;
mod marks;
mod updates;

pub use draw::draw_rows;
pub use fill::fill_rows;
pub use follow::follow_viewport;
pub use insert::{insert_down, insert_up, push_rows};
