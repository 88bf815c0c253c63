//! The smallest editor of a text: what it is, and what keys make of it.
//!
//! It knows no file and no screen: a program reads, writes and draws, and tells the editor what came
//! of it. The program `edit` is one. `specs/Commands` says which keys are commands, `specs/Editing`
//! what events make of an editor, and `specs/Offers` what replacing makes of its text.
#![tactic(auto)]

mod editor;
mod keys;

pub use editor::{Editor, Mode, Note, Request};
pub use keys::{Command, Offer, answer_of, command_of, offer_of};
