//! Lines, texts, rows, constraints and layouts as lists of their parts, by macros named as those of
//! the crate `ratatui-macros`.
//!
//! It stands on `ratatui_core` and `widget_table`. What takes memory is told first of what, as `vec!`
//! is, and answers a `Result`: `line![in alloc; "press ", "q".bold(), " to end"]?`. The traits
//! [`IntoSpan`], [`IntoLine`] and [`IntoCell`] say what may stand in such a list and what becomes
//! of it; a macro only calls [`with_room`] once and [`with_span`], [`with_line`] or [`with_cell`]
//! for each part, so a caller's proof knows by their contracts what it made, and that nothing is
//! refused once there is room, but to a part that takes memory itself.
#![tactic(auto)]

mod into_cell;
mod into_line;
mod into_span;
mod layouts;
mod lines;
mod rooms;
mod rows;
mod texts;

pub use into_cell::IntoCell;
pub use into_line::IntoLine;
pub use into_span::IntoSpan;
pub use lines::{line_of, span_of, styled_span_of, with_span};
pub use ratatui_core::layout::{Constraint, Layout};
pub use ratatui_core::style::Style;
pub use rooms::with_room;
pub use rows::{row_of, with_cell};
pub use texts::{text_of, with_line};
