//! Events.

ghost use Rattle.std.specs.Prelude.{◌≡◌, ◌↔◌, IsTrue};
ghost use Rattle.ratatui_events.specs.Event.{IsKeyOfKind, key_of, pressed_key_of, mouse_of};
ghost use Rattle.ratatui_events.specs.declared.key.KeyEventKind.TheVariants.{Press, Repeat, Release};

use crate::key::{KeyEvent, KeyEventKind};
use crate::mouse::MouseEvent;

/// What a terminal tells.
#[derive(Debug, Clone, Copy, PartialEq, Eq, Hash)]
pub enum Event {
    /// The terminal has the focus.
    FocusGained,
    /// The terminal has lost the focus.
    FocusLost,
    Key(KeyEvent),
    Mouse(MouseEvent),
    /// A paste begins.
    PasteBegun,
    /// A character of a paste.
    Pasted(char),
    /// The paste has ended.
    PasteEnded,
    /// A report: the terminal has so many columns and rows.
    Size(u16, u16),
    /// A report: the cursor stands in this column and row, from 0 on.
    Position(u16, u16),
    /// Bytes that stand for nothing that is known here.
    Unknown,
}

impl Event {
    /// Returns whether a key was pressed.
    pub fn is_key_press(&self) -> bool
        ensures { IsTrue result ↔ IsKeyOfKind self.now Press }
    {
        match self {
            Event::Key(key) => key.is_press(),
            _ => false,
        }
    }

    /// Returns whether a key is held.
    pub fn is_key_repeat(&self) -> bool
        ensures { IsTrue result ↔ IsKeyOfKind self.now Repeat }
    {
        match self {
            Event::Key(key) => key.is_repeat(),
            _ => false,
        }
    }

    /// Returns whether a key was let go.
    pub fn is_key_release(&self) -> bool
        ensures { IsTrue result ↔ IsKeyOfKind self.now Release }
    {
        match self {
            Event::Key(key) => key.is_release(),
            _ => false,
        }
    }

    /// Returns the key, if this is one.
    pub fn as_key_event(&self) -> Option<KeyEvent>
        ensures { result ≡ key_of self.now }
    {
        match self {
            Event::Key(key) => Some(*key),
            _ => None,
        }
    }

    /// Returns the key, if this is one that was pressed.
    pub fn as_key_press_event(&self) -> Option<KeyEvent>
        ensures { result ≡ pressed_key_of self.now }
    {
        match *self {
            Event::Key(key) => match key.kind {
                KeyEventKind::Press => Some(key),
                _ => None,
            },
            _ => None,
        }
    }

    /// Returns what the mouse did, if this is an event of the mouse.
    pub fn as_mouse_event(&self) -> Option<MouseEvent>
        ensures { result ≡ mouse_of self.now }
    {
        match self {
            Event::Mouse(mouse) => Some(*mouse),
            _ => None,
        }
    }
}
