//! Names of files, of which the one that is selected can be removed, after a question: an
//! application that acts.
#![tactic(auto)]

mod folder;
mod from_blank;
pub mod laws;
mod name;
mod remover;

pub use folder::Folder;
pub use from_blank::remove_from_blank;
pub use name::{Name, Names};
pub use remover::{Phase, Remover};
