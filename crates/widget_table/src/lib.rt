//! A table: rows of cells in columns, of which a row and a column may be selected.
//!
//! It stands on `ratatui_core`, `widget_boxes`, `rtui_drawing` and `widget_list`. `specs/Rows` says
//! which rows are shown and where each stands, `specs/TableStates` what selecting makes of a state,
//! and `specs/Tables` what a table draws, and what it makes of a buffer and of its state.
#![tactic(auto)]

mod cell;
mod fresh;
pub mod laws;
mod part;
mod row;
mod state;
mod styled;
mod table;
mod view;

pub use cell::Cell;
pub use row::Row;
pub use state::TableState;
pub use table::Table;
