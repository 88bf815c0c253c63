//! What an event asks for while a search is typed, which mark or text it names, and which one leaves
//! the help.

ghost use Rattle.std.specs.Prelude.{◌≡◌, ◌<◌, IfSome};
ghost use Rattle.ratatui_events.specs.declared.event.Event.TheVariants.{Key};
ghost use Rattle.text_field.specs.Keys.{edit_of};
ghost use Rattle.pager.specs.Keys.{edit_answer, code_answer, control_answer, key_answer, kind_answer, event_answer};
ghost use Rattle.pager.specs.Keys.{is_press_kind};
ghost use Rattle.pager.specs.Keys.{is_press, mark_index, code_mark, event_mark, code_ending, event_ending};

use crate::command::has_control_key;
use crate::pager::Ending;
use ratatui_events::{Event, KeyCode, KeyEvent, KeyEventKind};
use text_field::{Edit, edit_of};

/// What is made of a search that is typed.
#[derive(Debug, Clone, Copy, PartialEq, Eq)]
pub enum Answer {
    /// What is typed is edited.
    Change(Edit),
    /// The search begins.
    Search,
    /// The search is given up.
    Cancel,
    /// Nothing.
    Ignore,
}

// What an event asks of a field of text.
fn edit_answer(event: &Event) -> Answer
    ensures { result ≡ edit_answer (edit_of event.now) }
{
    match edit_of(event) {
        Some(edit) => Answer::Change(edit),
        None => Answer::Ignore,
    }
}

// What a key asks for with Control.
fn control_answer(code: KeyCode, event: &Event) -> Answer
    ensures { result ≡ control_answer code event.now }
{
    match code {
        KeyCode::Char('c') => Answer::Cancel,
        _ => edit_answer(event),
    }
}

// What a key asks for without Control.
fn code_answer(code: KeyCode, event: &Event) -> Answer
    ensures { result ≡ code_answer code event.now }
{
    match code {
        KeyCode::Enter => Answer::Search,
        KeyCode::Esc => Answer::Cancel,
        _ => edit_answer(event),
    }
}

// What a key asks for.
fn key_answer(key: KeyEvent, event: &Event) -> Answer
    ensures { result ≡ key_answer key event.now }
{
    if has_control_key(key) {
        control_answer(key.code, event)
    } else {
        code_answer(key.code, event)
    }
}

/// Returns what an event asks for: nothing if it is a key that is let go.
pub fn answer_of(event: Event) -> Answer
    ensures { result ≡ event_answer event }
{
    match event {
        Event::Key(key) => match key.kind {
            KeyEventKind::Release => Answer::Ignore,
            _ => key_answer(key, &event),
        },
        _ => edit_answer(&event),
    }
}

// Whether a key of this kind is one that was pressed or is held.
fn is_press_kind(kind: KeyEventKind) -> bool
    ensures { result ≡ is_press_kind kind }
{
    match kind {
        KeyEventKind::Release => false,
        _ => true,
    }
}

/// Returns whether an event is a key that was pressed or is held.
pub fn is_press(event: Event) -> bool
    ensures { result ≡ is_press event }
{
    match event {
        Event::Key(key) => is_press_kind(key.kind),
        _ => false,
    }
}

// Where a character's mark is kept.
fn mark_index(code: char) -> Option<usize>
    ensures index { result ≡ mark_index code }
    ensures bound { IfSome result (λ mark. mark < 53) }
{
    match code {
        '\'' => Some(0),
        'a'..='z' => Some((code as u32 - 96) as usize),
        'A'..='Z' => Some((code as u32 - 38) as usize),
        _ => None,
    }
}

// The mark that a key names.
fn code_mark(code: KeyCode) -> Option<usize>
    ensures index { result ≡ code_mark code }
    ensures bound { IfSome result (λ mark. mark < 53) }
{
    match code {
        KeyCode::Char(character) => mark_index(character),
        _ => None,
    }
}

/// Returns the mark that an event names.
pub fn mark_of(event: Event) -> Option<usize>
    ensures index { result ≡ event_mark event }
    ensures bound { IfSome result (λ mark. mark < 53) }
{
    match event {
        Event::Key(key) if !has_control_key(key) => code_mark(key.code),
        _ => None,
    }
}

// The text that a key turns to.
fn code_ending(code: KeyCode) -> Option<Ending>
    ensures { result ≡ code_ending code }
{
    match code {
        KeyCode::Char('n') => Some(Ending::Next),
        KeyCode::Char('p') => Some(Ending::Previous),
        KeyCode::Char('q') => Some(Ending::Quit),
        _ => None,
    }
}

/// Returns the text that an event turns to, after a colon: `n` and `p`; or the end, `q`.
pub fn ending_of(event: Event) -> Option<Ending>
    ensures { result ≡ event_ending event }
{
    match event {
        Event::Key(key) if !has_control_key(key) => code_ending(key.code),
        _ => None,
    }
}
