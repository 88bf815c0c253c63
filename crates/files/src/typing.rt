//! What an event asks for while a name is typed.

ghost use Rattle.std.specs.Prelude.{◌≡◌};
ghost use Rattle.text_field.specs.Keys.{edit_of};
ghost use Rattle.files.specs.Keys.{edit_typing, code_typing, control_typing, event_typing};

use crate::keys::holds_control;
use ratatui_events::{Event, KeyCode};
use text_field::{Edit, edit_of};

/// What is made of a name that is typed.
#[derive(Debug, Clone, Copy, PartialEq, Eq)]
pub enum Typing {
    /// It is edited.
    Change(Edit),
    /// It is taken.
    Accept,
    /// It is given up.
    Cancel,
    /// Nothing.
    Ignore,
}

// What an event asks of a field of text.
fn edit_typing(event: &Event) -> Typing
    ensures { result ≡ edit_typing (edit_of event.now) }
{
    match edit_of(event) {
        Some(edit) => Typing::Change(edit),
        None => Typing::Ignore,
    }
}

// What a key asks for with Control.
fn control_typing(code: KeyCode, event: &Event) -> Typing
    ensures { result ≡ control_typing code event.now }
{
    match code {
        KeyCode::Char('c') => Typing::Cancel,
        _ => edit_typing(event),
    }
}

// What a key asks for without Control.
fn code_typing(code: KeyCode, event: &Event) -> Typing
    ensures { result ≡ code_typing code event.now }
{
    match code {
        KeyCode::Enter => Typing::Accept,
        KeyCode::Esc => Typing::Cancel,
        _ => edit_typing(event),
    }
}

/// Returns what an event asks for, which is no key that is let go.
pub fn typing_of(event: Event) -> Typing
    ensures { result ≡ event_typing event }
{
    match event {
        Event::Key(key) => {
            if holds_control(key) {
                control_typing(key.code, &event)
            } else {
                code_typing(key.code, &event)
            }
        }
        _ => edit_typing(&event),
    }
}
