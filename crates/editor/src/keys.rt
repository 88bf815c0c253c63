//! Keys that are commands, and no part of the text.

ghost use Rattle.std.specs.Prelude.{◌≡◌};
ghost use Rattle.editor.specs.Commands.{asked_beside_control, asked_beside_alt, asked_by_letter, asked_by_code};
ghost use Rattle.editor.specs.Commands.{asked_of, pressed_code, is_yes, answer_of};
ghost use Rattle.editor.specs.Commands.{offer_by, offer_of};

use ratatui_events::{Event, KeyCode, KeyEvent, KeyEventKind, KeyModifiers};

/// What a key asks for beside editing.
#[derive(Debug, Clone, Copy, PartialEq, Eq)]
pub enum Command {
    /// Ctrl+S: the text is to be saved.
    Save,
    /// Ctrl+Q: the editor is to end.
    Leave,
    /// Ctrl+F: a pattern is to be found.
    Find,
    /// Ctrl+G: the cursor is to go to a line.
    GoTo,
    /// Alt+U: the last change is to be undone.
    Undo,
    /// Alt+E: what was undone last is to be done again.
    Redo,
    /// Alt+R: a pattern is to be replaced.
    Replace,
}

/// What an event says to the question whether what was found is to be replaced.
#[derive(Debug, Clone, Copy, PartialEq, Eq)]
pub enum Offer {
    /// The letter `y`: yes, and then the next one is asked about.
    Yes,
    /// The letter `n`: no, but the next one is asked about.
    No,
    /// The letter `a`: this one and all after it.
    All,
    /// Any other key: no, and no other one.
    Stop,
}

// The command of a letter beside Control.
fn control_command(letter: char) -> Option<Command>
    ensures { result ≡ asked_beside_control letter }
{
    match letter {
        's' => Some(Command::Save),
        'q' => Some(Command::Leave),
        'f' => Some(Command::Find),
        'g' => Some(Command::GoTo),
        _ => None,
    }
}

// The command of a letter beside Alt.
fn alt_command(letter: char) -> Option<Command>
    ensures { result ≡ asked_beside_alt letter }
{
    match letter {
        'u' => Some(Command::Undo),
        'e' => Some(Command::Redo),
        'r' => Some(Command::Replace),
        _ => None,
    }
}

// The command of a letter, by what is held beside it: Control (4) or Alt (2) alone.
fn letter_command(modifiers: KeyModifiers, letter: char) -> Option<Command>
    ensures { result ≡ asked_by_letter modifiers letter }
{
    match modifiers.to_bits() {
        4 => control_command(letter),
        2 => alt_command(letter),
        _ => None,
    }
}

// The command of a key that goes down.
fn code_command(key: KeyEvent) -> Option<Command>
    ensures { result ≡ asked_by_code key.modifiers key.code }
{
    match key.code {
        KeyCode::Char(letter) => letter_command(key.modifiers, letter),
        _ => None,
    }
}

/// Returns the command of an event, if it is one: a letter beside Control or Alt alone, pressed.
pub fn command_of(event: &Event) -> Option<Command>
    ensures { result ≡ asked_of event.now }
{
    match *event {
        Event::Key(key) => match key.kind {
            KeyEventKind::Release => None,
            KeyEventKind::Press | KeyEventKind::Repeat => code_command(key),
        },
        _ => None,
    }
}

// The key that an event presses, if it presses one.
pub(crate) fn pressed(event: &Event) -> Option<KeyCode>
    ensures { result ≡ pressed_code event.now }
{
    match *event {
        Event::Key(key) => match key.kind {
            KeyEventKind::Release => None,
            KeyEventKind::Press | KeyEventKind::Repeat => Some(key.code),
        },
        _ => None,
    }
}

// Whether a key says yes.
fn is_yes(code: KeyCode) -> bool
    ensures { result ≡ is_yes code }
{
    match code {
        KeyCode::Char(letter) => letter == 'y',
        _ => false,
    }
}

/// Returns what an event says to a question, if it is a key that is pressed: the letter `y` is yes,
/// and any other key is no.
pub fn answer_of(event: &Event) -> Option<bool>
    ensures { result ≡ answer_of event.now }
{
    match pressed(event) {
        Some(code) => Some(is_yes(code)),
        None => None,
    }
}

// What a key says to an offer.
fn offer_by(code: KeyCode) -> Offer
    ensures { result ≡ offer_by code }
{
    match code {
        KeyCode::Char('y') => Offer::Yes,
        KeyCode::Char('n') => Offer::No,
        KeyCode::Char('a') => Offer::All,
        _ => Offer::Stop,
    }
}

/// Returns what an event says to the question whether what was found is to be replaced, if it is a
/// key that is pressed.
pub fn offer_of(event: &Event) -> Option<Offer>
    ensures { result ≡ offer_of event.now }
{
    match pressed(event) {
        Some(code) => Some(offer_by(code)),
        None => None,
    }
}
