//! Events as text, for people who read what a terminal sent.

ghost use Rattle.std.specs.Prelude.{◌≡◌, Some, IsOk};
ghost use Rattle.std.specs.Fmt.{IsPlainFormatter, HasWritten};
ghost use Rattle.ratatui_events.specs.Texts.{mouse_name, mouse_text, kind_text, if_on, told_key_text};
ghost use Rattle.ratatui_events.specs.Texts.{pasted_text, event_text};

use crate::event::Event;
use crate::key::{KeyCode, KeyEvent, KeyEventKind, KeyEventState};
use crate::mouse::{MouseButton, MouseEvent, MouseEventKind};
use bitflags::Flags;
use std::fmt;

impl MouseEventKind {
    // What the mouse did, in a word.
    fn name(self) -> &'static str
        ensures { result.now ≡ mouse_name self }
    {
        match self {
            MouseEventKind::Down(MouseButton::Left) => "DownLeft",
            MouseEventKind::Down(MouseButton::Right) => "DownRight",
            MouseEventKind::Down(MouseButton::Middle) => "DownMiddle",
            MouseEventKind::Up(MouseButton::Left) => "UpLeft",
            MouseEventKind::Up(MouseButton::Right) => "UpRight",
            MouseEventKind::Up(MouseButton::Middle) => "UpMiddle",
            MouseEventKind::Drag(MouseButton::Left) => "DragLeft",
            MouseEventKind::Drag(MouseButton::Right) => "DragRight",
            MouseEventKind::Drag(MouseButton::Middle) => "DragMiddle",
            MouseEventKind::Moved => "Moved",
            MouseEventKind::ScrollDown => "ScrollDown",
            MouseEventKind::ScrollUp => "ScrollUp",
            MouseEventKind::ScrollLeft => "ScrollLeft",
            MouseEventKind::ScrollRight => "ScrollRight",
        }
    }
}

/// What is held, what the mouse did, and the column and the row: `Ctrl+DownLeft 3,4`.
impl fmt::Display for MouseEvent {
    ghost output = { λ mouse. Some (mouse_text mouse) };

    fn fmt<W: fmt::Write>(&self, f: &mut fmt::Formatter<W>) -> fmt::Result {
        let MouseEvent {
            kind,
            column,
            row,
            modifiers,
        } = *self;
        let name = kind.name();
        write!(f, "{modifiers}{name} {column},{row}")
    }
}

impl KeyEventKind {
    // A word for a key that isn't pressed.
    fn text(self) -> &'static str
        ensures { result.now ≡ kind_text self }
    {
        match self {
            KeyEventKind::Press => "",
            KeyEventKind::Repeat => " repeated",
            KeyEventKind::Release => " released",
        }
    }
}

// A word, if the state has these bits.
fn if_on<'a>(state: KeyEventState, bits: KeyEventState, name: &'a str) -> &'a str
    ensures { result.now ≡ if_on state bits.0 name.now }
{
    if state.contains(bits) { name } else { "" }
}

// A key, and all that is told of it: `Enter released num`.
fn write_key<W: fmt::Write>(f: &mut fmt::Formatter<W>, key: KeyEvent) -> fmt::Result
    ensures { IsPlainFormatter f.old → IsOk result
        → HasWritten W.write_str_gives f.old (told_key_text key) f.new }
{
    let kind = key.kind.text();
    let caps = if_on(key.state, KeyEventState::CAPS_LOCK, " caps");
    let num = if_on(key.state, KeyEventState::NUM_LOCK, " num");
    let keypad = if_on(key.state, KeyEventState::KEYPAD, " keypad");
    write!(f, "{key}{kind}{caps}{num}{keypad}")
}

// A character that was pasted; one that ends a line, or a tab, by its name.
fn write_pasted<W: fmt::Write>(f: &mut fmt::Formatter<W>, character: char) -> fmt::Result
    ensures { IsPlainFormatter f.old → IsOk result
        → HasWritten W.write_str_gives f.old (pasted_text character) f.new }
{
    match character {
        '\r' => f.write_str("Pasted CR"),
        '\n' => f.write_str("Pasted LF"),
        '\t' => f.write_str("Pasted TAB"),
        _ => {
            let code = KeyCode::Char(character);
            write!(f, "Pasted {code}")
        }
    }
}

/// One event in a few words: `Ctrl+Up`, `Enter released`, `DownLeft 3,4`, `Pasted a`, `Size 80x24`.
impl fmt::Display for Event {
    ghost output = { λ event. Some (event_text event) };

    fn fmt<W: fmt::Write>(&self, f: &mut fmt::Formatter<W>) -> fmt::Result {
        match *self {
            Event::FocusGained => f.write_str("FocusGained"),
            Event::FocusLost => f.write_str("FocusLost"),
            Event::Key(key) => write_key(f, key),
            Event::Mouse(mouse) => write!(f, "{mouse}"),
            Event::PasteBegun => f.write_str("PasteBegun"),
            Event::Pasted(character) => write_pasted(f, character),
            Event::PasteEnded => f.write_str("PasteEnded"),
            Event::Size(columns, rows) => write!(f, "Size {columns}x{rows}"),
            Event::Position(column, row) => write!(f, "Position {column},{row}"),
            Event::Unknown => f.write_str("Unknown"),
        }
    }
}
