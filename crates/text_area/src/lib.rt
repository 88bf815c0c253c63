//! A text of several lines that a person types, with a cursor in it.
//!
//! It knows no screen. `specs/Areas` says what a text area is and what is done to it, `specs/Extents`
//! and `specs/Lines` where moves lead, `specs/Drafts` the one change that is made to a text,
//! `specs/Journals` how changes are undone, `specs/Typing` what is taken of a text,
//! `specs/AreaKeys` what each key does, and `specs/Finding` where a pattern occurs.
//!
//! The whole text is one `String` with line feeds in it, and the byte at which the cursor stands; a
//! step that undoes a change keeps what stood there alone. So a text that is loaded is taken as it
//! is, in its one allocation, lines that nobody touches stay where they were loaded, `text` costs
//! nothing, and moves take no memory. The number of the cursor's line and of the last one are kept
//! from one change to the next, and so are the places where the cursor's line begins and ends and
//! whether it has nothing but printable characters of ASCII. What it costs: an edit moves all that
//! stands after the cursor, and so does what undoes it (of 10 MB the memory takes some two thirds
//! of a millisecond); a line by its number reads the lines from there to the cursor, or to the
//! text's start or end if that is nearer; a cursor that comes to a line reads it a few times, many
//! bytes at once (up or down in lines of 1 MB takes a fifth of a millisecond). From the first other
//! character of a line on, its column and a move up or down read grapheme by grapheme (1 MB in some
//! ten milliseconds). A gap after the cursor can come later under the same contracts, which see a
//! text before the cursor and one after it.
#![tactic(auto)]

mod area;
mod draft;
mod extent;
mod find;
mod journal;
mod kept;
mod keys;
pub mod laws;
mod lines;
mod moves;
mod plain;
mod rows;
mod runs;
mod steps;
mod typed;

pub use area::TextArea;
pub use extent::Extent;
pub use keys::{AreaEdit, area_edit_of};
pub use moves::Move;
