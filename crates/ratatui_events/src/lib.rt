//! Events of a terminal: keys, the mouse, the focus, what is pasted, and reports.
//!
//! The types have crossterm's names. An [`Event`] is `Copy` and holds no text: what is pasted comes
//! character by character, between [`Event::PasteBegun`] and [`Event::PasteEnded`].
//!
//! It stands on `bitflags` alone.
#![tactic(auto)]

mod event;
mod key;
pub mod laws;
mod mouse;
mod names;
mod parsing;
mod texts;

pub use event::Event;
pub use key::{
    KeyCode, KeyEvent, KeyEventKind, KeyEventState, KeyModifiers, MediaKeyCode, ModifierKeyCode,
};
pub use mouse::{MouseButton, MouseEvent, MouseEventKind};
pub use parsing::ParseKeyError;
