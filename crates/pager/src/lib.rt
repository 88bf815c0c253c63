//! A pager: a text in pages, moved by keys.
//!
//! [`Pager`] is an application of `ratatui_app`: events change its place, and it paints the page
//! that begins there. `specs/Keys` is the table of its keys, `specs/Moves` what each does to the
//! place, and `specs/Pages` what stands in each row.
#![tactic(auto)]

mod answer;
mod command;
mod document;
mod filter;
mod finder;
mod growing;
mod help;
pub mod laws;
mod marks;
mod moves;
mod needs;
mod own_text;
mod page;
mod pager;
mod painting;
mod parting;
mod piece;
mod piece_reader;
mod place;
mod search;
mod sgr;
mod showing;
mod sought;
mod status;
mod styles;
mod symbols;
mod text;
mod typing;
mod view;

pub use answer::Answer;
pub use command::Command;
pub use document::{Document, Numbers, TextError};
pub use growing::{Growing, Waiting};
pub use help::HELP;
pub use own_text::OwnText;
pub use pager::{Ending, Mode, Note, Pager};
pub use parting::parted;
pub use piece::{More, Piece};
pub use piece_reader::PieceReader;
pub use showing::{open, show, show_growing};
pub use sought::{Pattern, Sought};
pub use styles::{Run, Styles};
pub use text_places::Place;
pub use view::View;
