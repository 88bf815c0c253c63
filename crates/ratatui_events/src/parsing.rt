//! Keys read from text, as tables of key bindings write them.

ghost use Rattle.std.specs.Prelude.{◌≡◌, Some, codes};
ghost use Rattle.ratatui_events.specs.Names.{code_name};
ghost use Rattle.ratatui_events.specs.Parsing.{is_same_text, code_among, named_code, function_code};
ghost use Rattle.ratatui_events.specs.Parsing.{only_character, code_of_text, code_or_error, stripped};
ghost use Rattle.ratatui_events.specs.Parsing.{split_held, key_beside, key_of_text, key_or_error};

use crate::key::{KeyCode, KeyEvent, KeyModifiers, MediaKeyCode, ModifierKeyCode};
use std::error::Error;
use std::fmt;
use std::str::FromStr;

/// A text that names no key.
#[derive(Debug, Clone, Copy, PartialEq, Eq, Hash)]
pub struct ParseKeyError;

impl fmt::Display for ParseKeyError {
    ghost output = { λ _. Some (codes "no key has this name") };

    fn fmt<W: fmt::Write>(&self, f: &mut fmt::Formatter<W>) -> fmt::Result {
        f.write_str("no key has this name")
    }
}

impl Error for ParseKeyError {}

// The keys that have a name.
static NAMED: [KeyCode; 49] = [
    KeyCode::Backspace,
    KeyCode::Enter,
    KeyCode::Left,
    KeyCode::Right,
    KeyCode::Up,
    KeyCode::Down,
    KeyCode::Home,
    KeyCode::End,
    KeyCode::PageUp,
    KeyCode::PageDown,
    KeyCode::Tab,
    KeyCode::BackTab,
    KeyCode::Delete,
    KeyCode::Insert,
    KeyCode::Esc,
    KeyCode::CapsLock,
    KeyCode::ScrollLock,
    KeyCode::NumLock,
    KeyCode::PrintScreen,
    KeyCode::Pause,
    KeyCode::Menu,
    KeyCode::KeypadBegin,
    KeyCode::Media(MediaKeyCode::Play),
    KeyCode::Media(MediaKeyCode::Pause),
    KeyCode::Media(MediaKeyCode::PlayPause),
    KeyCode::Media(MediaKeyCode::Reverse),
    KeyCode::Media(MediaKeyCode::Stop),
    KeyCode::Media(MediaKeyCode::FastForward),
    KeyCode::Media(MediaKeyCode::Rewind),
    KeyCode::Media(MediaKeyCode::TrackNext),
    KeyCode::Media(MediaKeyCode::TrackPrevious),
    KeyCode::Media(MediaKeyCode::Record),
    KeyCode::Media(MediaKeyCode::LowerVolume),
    KeyCode::Media(MediaKeyCode::RaiseVolume),
    KeyCode::Media(MediaKeyCode::MuteVolume),
    KeyCode::Modifier(ModifierKeyCode::LeftShift),
    KeyCode::Modifier(ModifierKeyCode::LeftControl),
    KeyCode::Modifier(ModifierKeyCode::LeftAlt),
    KeyCode::Modifier(ModifierKeyCode::LeftSuper),
    KeyCode::Modifier(ModifierKeyCode::LeftHyper),
    KeyCode::Modifier(ModifierKeyCode::LeftMeta),
    KeyCode::Modifier(ModifierKeyCode::RightShift),
    KeyCode::Modifier(ModifierKeyCode::RightControl),
    KeyCode::Modifier(ModifierKeyCode::RightAlt),
    KeyCode::Modifier(ModifierKeyCode::RightSuper),
    KeyCode::Modifier(ModifierKeyCode::RightHyper),
    KeyCode::Modifier(ModifierKeyCode::RightMeta),
    KeyCode::Modifier(ModifierKeyCode::IsoLevel3Shift),
    KeyCode::Modifier(ModifierKeyCode::IsoLevel5Shift),
];

// Whether a key has this name.
fn has_name(code: KeyCode, text: &str) -> bool
    ensures { result ≡ is_same_text (code_name code) text.now }
{
    code.name() == text
}

// The key among these that has this name.
fn code_among(keys: &[KeyCode], text: &str) -> Option<KeyCode>
    ensures { result ≡ code_among keys.now text.now }
{
    for code in keys {
        if has_name(*code, text) {
            return Some(*code);
        }
    }
    None
}

// The key that has this name.
fn named_code(text: &str) -> Option<KeyCode>
    ensures { result ≡ named_code text.now }
{
    code_among(&NAMED, text)
}

// The function key that is written by F and one or two digits.
fn function_code(text: &str) -> Option<KeyCode>
    ensures { result ≡ function_code text.now }
{
    match text.as_bytes() {
        &[b'F', ones @ b'1'..=b'9'] => Some(KeyCode::F(ones - b'0')),
        &[b'F', tens @ b'1'..=b'9', ones @ b'0'..=b'9'] => {
            Some(KeyCode::F((tens - b'0') * 10 + (ones - b'0')))
        }
        _ => None,
    }
}

// The character that a text is.
fn only_character(text: &str) -> Option<char>
    ensures { result ≡ only_character text.now }
{
    let mut characters = text.chars();
    let first = characters.next()?;
    match characters.next() {
        None => Some(first),
        Some(_) => None,
    }
}

// The key that a text names.
fn code_of_text(text: &str) -> Option<KeyCode>
    ensures { result ≡ code_of_text text.now }
{
    if let Some(code) = named_code(text) {
        return Some(code);
    }
    if let Some(code) = function_code(text) {
        return Some(code);
    }
    if text == "Space" {
        return Some(KeyCode::Char(' '));
    }
    match only_character(text) {
        Some(character) => Some(KeyCode::Char(character)),
        None => None,
    }
}

/// Reads a key's name, as `Enter`, `F5` (from `F1` to `F99`), `Space`, or a character. No memory is
/// taken.
impl FromStr for KeyCode {
    type Err = ParseKeyError;

    ghost from_str_gives = { λ text r. r ≡ code_or_error (code_of_text text) };

    fn from_str(text: &str) -> Result<KeyCode, ParseKeyError> {
        match code_of_text(text) {
            Some(code) => Ok(code),
            None => Err(ParseKeyError),
        }
    }
}

// The keys held so far and what is left of a text; with one more key, if the text begins with its
// name.
fn stripped<'a>(bits: u8, text: &'a str, name: &str, bit: u8) -> (u8, &'a str)
    ensures { (result.0, result.1.now) ≡ stripped name.now bit (bits, text.now) }
{
    match text.strip_prefix(name) {
        Some(rest) => (bits | bit, rest),
        None => (bits, text),
    }
}

// The keys held that a text begins with, and what is left of it.
fn split_held(text: &str) -> (u8, &str)
    ensures { (result.0, result.1.now) ≡ split_held text.now }
{
    let (bits, text) = stripped(0, text, "Ctrl+", 4);
    let (bits, text) = stripped(bits, text, "Alt+", 2);
    let (bits, text) = stripped(bits, text, "Shift+", 1);
    let (bits, text) = stripped(bits, text, "Super+", 8);
    let (bits, text) = stripped(bits, text, "Hyper+", 16);
    stripped(bits, text, "Meta+", 32)
}

// The key of a name beside what is held: a letter is a small one, unless Shift tells which it is; by
// itself a capital one has Shift with it, as if it was typed.
fn key_beside(code: KeyCode, bits: u8) -> KeyEvent
    ensures { result ≡ key_beside code bits }
{
    match code {
        KeyCode::Char(c) => {
            if bits == 0 {
                KeyEvent::new(code, KeyModifiers::of(c.is_uppercase() as u8))
            } else if bits & 1 == 1 {
                KeyEvent::new(code, KeyModifiers::of(bits))
            } else {
                KeyEvent::new(
                    KeyCode::Char(c.to_ascii_lowercase()),
                    KeyModifiers::of(bits),
                )
            }
        }
        _ => KeyEvent::new(code, KeyModifiers::of(bits)),
    }
}

// The key that a text names, with what is held.
fn key_of_text(text: &str) -> Option<KeyEvent>
    ensures { result ≡ key_of_text text.now }
{
    let (bits, name) = split_held(text);
    match code_of_text(name) {
        Some(code) => Some(key_beside(code, bits)),
        None => None,
    }
}

/// Reads what is held, in the order `Ctrl+`, `Alt+`, `Shift+`, `Super+`, `Hyper+`, `Meta+`, and a
/// key's name: `Ctrl+C`, `Alt+Enter`, `F5`. A letter beside Ctrl may be small or capital; a capital
/// one by itself is typed with Shift. The key is one that is pressed.
///
/// ```
/// let quit: KeyEvent = "Ctrl+C".parse()?;
/// event == Event::Key(quit)
/// ```
impl FromStr for KeyEvent {
    type Err = ParseKeyError;

    ghost from_str_gives = { λ text r. r ≡ key_or_error (key_of_text text) };

    fn from_str(text: &str) -> Result<KeyEvent, ParseKeyError> {
        match key_of_text(text) {
            Some(key) => Ok(key),
            None => Err(ParseKeyError),
        }
    }
}
