//! Files as commands with answers: on a disk, or in memory.
//!
//! An application asks for something to be done to files by a [`Command`], and is told an
//! [`Answer`]. What does commands is a [`Performs`]: [`OnDisk`] does them to the system's files, and
//! [`InMemory`] to a tree of files in memory, of which it is proved what each command makes.
//! [`Files`] is the outside of an application that acts.
#![tactic(auto)]

mod answer;
mod change;
mod command;
mod failing;
mod files;
mod in_memory;
pub mod laws;
mod node;
mod on_disk;
mod path;
mod performs;
mod text;
mod tree;

pub use answer::{Answer, Entries, Failure, Info, Kind};
pub use command::Command;
pub use failing::Failing;
pub use files::{Files, HoldsCommand};
pub use in_memory::InMemory;
pub use node::{Entry, Node};
pub use on_disk::OnDisk;
pub use path::Path;
pub use performs::Performs;
pub use text::{Bytes, Text};
