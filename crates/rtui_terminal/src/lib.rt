//! A terminal: it draws frames on a backend, and writes only what differs.
//!
//! It stands on `rtui_buffer`, `rtui_widgets`, `rtui_backend`, `rtui_viewport` and `rtui_insert`,
//! on their contracts alone. `specs/InStep` says when a terminal knows what its screen shows;
//! `specs/Starting`, `Writing`, `Drawing`, `Resizing`, `Clearing`, `Cursor` and `Insertion` say
//! what each family of calls does. For the layer above: from in step, a draw that answers Ok of a
//! settled buffer leaves the screen showing it, and the terminal in step.
#![tactic(auto)]

pub mod laws;
mod terminal;

pub use rtui_viewport::Viewport;
pub use terminal::Terminal;
pub use terminal::error::TerminalError;
pub use terminal::frame::{CompletedFrame, Frame};
pub use terminal::init::TerminalOptions;
