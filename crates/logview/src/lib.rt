//! A log viewer: lines that scroll by above a status line, which says how many there were.
//!
//! It stands on `ratatui_core`, on its contracts alone. [`LogView`] keeps a terminal over one row;
//! [`LogView::push`] inserts a line above it. `specs/Rows` says what a line's row is, `specs/Views`
//! what a push does. [`push_lines`] pushes those of a log, [`view_of`] shows one on a screen in
//! memory whose rows that scrolled off are text (`printed_backend`); [`run`] reads a log from any
//! reader, and writes what that screen shows to any writer, and `specs/Engine` says what it writes.
//! [`print_log`] is a run that writes its fault (`specs/Ending`).
#![tactic(auto)]

mod engine;
mod fault;
mod printing;
mod status;
mod view;

pub use engine::{push_lines, run, view_of};
pub use fault::LogFault;
pub use printing::{print_log, tell};
pub use view::LogView;
