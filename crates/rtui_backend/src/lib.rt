//! What a terminal draws on: the trait `Backend`, and a backend in memory for tests.
//!
//! It stands on `rtui_geometry`, `rtui_layout`, `rtui_text` and `rtui_buffer`. `specs/Screen`
//! defines a screen and what each call does to it; an implementation of `Backend` keeps that
//! contract, and the layer above uses nothing else of it. Failed calls are counted
//! (`specs/Failures`).
#![tactic(auto)]

mod backend;
mod clear_type;
mod resizable;
mod test;

pub use backend::{AsCell, Backend, WindowSize};
pub use clear_type::ClearType;
pub use resizable::Resizable;
pub use test::{TestBackend, TestError};
