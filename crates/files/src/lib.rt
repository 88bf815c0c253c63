//! A file manager: a folder in rows, in which no file is touched but the one that the screen names.
//!
//! [`Browser`] is a state that acts: `specs/Keys` is the table of its keys, `specs/Moves` what each
//! makes of it, `specs/Texts` and `specs/Pages` what stands in each row. [`Hands`] is what is outside
//! of it: it changes files only while the glass shows, whole, the question that names them.
#![tactic(auto)]

mod browser;
mod columns;
mod completions;
mod counting;
mod dates;
mod details;
mod discards;
mod glance;
mod glancing;
mod going;
mod hands;
mod help;
mod keys;
pub mod laws;
mod list;
mod looks;
mod marks;
mod moves;
mod name_keys;
mod names;
mod notes;
mod order;
mod page;
mod questions;
mod ranks;
mod search;
mod sights;
mod sort_key;
mod sorting;
mod texts;
mod trash;
mod typing;
mod undo;
mod ways;

pub use browser::{Browser, Mode, Note};
pub use glance::{Glance, Glances, Lines, Side, Sight};
pub use hands::Hands;
pub use help::HELP;
pub use keys::Wish;
pub use list::{Listing, Outcome, Row, Rows};
pub use marks::{Mark, Marks};
pub use notes::{Noted, Notes};
pub use order::{Order, SortBy};
pub use sort_key::SortKey;
pub use trash::Discard;
pub use typing::Typing;
pub use undo::Moved;
