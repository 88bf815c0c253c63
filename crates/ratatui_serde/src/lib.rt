//! Colours, modifiers, styles, constraints and borders in files of settings: written and read by
//! `serde`, in the words that the serde of `ratatui` writes.
//!
//! The types and the traits `Serialize` and `Deserialize` both belong to other crates, so a field
//! names this one, as for a time in `humantime_serde`: `#[serde(with = "ratatui_serde")]`. In a
//! list, a map or an option stands [`Serde`], which wraps one value and has the two traits itself.
//! A [`Serde`] of modifiers or of sides also prints and reads them alone, by `Display` and
//! `FromStr`; colours and kinds of borders do so themselves. What all rest on is the trait
//! [`Setting`]: a type of one's own can have it, too.
//!
//! ```
//! #[derive(Drop, Serialize, Deserialize)]
//! struct Theme {
//!     #[serde(with = "ratatui_serde")]
//!     title: Style, // title = { fg = "Yellow", bg = "#202020", add_modifier = "BOLD" }
//!     columns: Vec<Serde<Constraint>>, // columns = [{ Length = 3 }, { Fill = 1 }]
//! }
//! ```
//!
//! What is written is proved, event by event, and so is what a text is read as; the laws of
//! [`laws`] say that what is written as a text is read back as what was written. Only tested is
//! what is read of a [`Style`](rtui_style::Style) and of a
//! [`Constraint`](rtui_layout::Constraint), member by member: a step of a `Deserializer` says only
//! what it read itself.
//!
//! It stands on `rtui_style`, `rtui_layout`, `widget_boxes` and `serde`.
#![tactic(auto)]

mod borders;
mod colors;
mod constraints;
mod flags;
pub mod laws;
mod setting;
mod styles;
mod texts;

pub use setting::{Serde, Setting, deserialize, serialize};
