//! Which key a byte, a letter or a number stands for.

ghost use Rattle.std.specs.Prelude.{◌≡◌, ◌≤◌, ◌↔◌, IsTrue};
ghost use Rattle.ratatui_input.specs.Keys.{typed_key, control_key, key_at, letter_key, number_key, code_key};
ghost use Rattle.ratatui_input.specs.Keys.{scalar_at, character_key, named_key, tab_key, keypad_key};
ghost use Rattle.ratatui_input.specs.Keys.{name_key, plain_character};

use ratatui_events::{KeyCode, KeyEvent, KeyModifiers, MediaKeyCode, ModifierKeyCode};

// A character that was typed.
pub(crate) fn typed(c: char) -> KeyEvent
    ensures { result ≡ typed_key c }
{
    let held = if c.is_uppercase() {
        KeyModifiers::SHIFT
    } else {
        KeyModifiers::NONE
    };
    KeyEvent::new(KeyCode::Char(c), held)
}

// The key of a control character.
#[tactic(auto, unfolding(crate::specs::Keys::control_key))]
pub(crate) fn control_key(byte: u8) -> KeyEvent
    ensures { result ≡ control_key byte }
{
    match byte {
        0 => KeyEvent::new(KeyCode::Char(' '), KeyModifiers::CONTROL),
        9 => KeyEvent::new(KeyCode::Tab, KeyModifiers::NONE),
        13 => KeyEvent::new(KeyCode::Enter, KeyModifiers::NONE),
        27 => KeyEvent::new(KeyCode::Esc, KeyModifiers::NONE),
        1..=26 => KeyEvent::new(KeyCode::Char((byte + 96) as char), KeyModifiers::CONTROL),
        28..=31 => KeyEvent::new(KeyCode::Char((byte + 24) as char), KeyModifiers::CONTROL),
        _ => KeyEvent::new(KeyCode::Backspace, KeyModifiers::NONE),
    }
}

// The keys that end a sequence with a letter: as the protocol has them, and as rxvt has them with
// Shift.
static LETTERS: [(u32, KeyCode); 13] = [
    (65, KeyCode::Up),
    (66, KeyCode::Down),
    (67, KeyCode::Right),
    (68, KeyCode::Left),
    (69, KeyCode::KeypadBegin),
    (70, KeyCode::End),
    (72, KeyCode::Home),
    (80, KeyCode::F(1)),
    (81, KeyCode::F(2)),
    (82, KeyCode::F(3)),
    (83, KeyCode::F(4)),
    (90, KeyCode::BackTab),
    (77, KeyCode::Enter),
];

// The keys that have a number before a tilde.
static NUMBERS: [(u32, KeyCode); 28] = [
    (1, KeyCode::Home),
    (2, KeyCode::Insert),
    (3, KeyCode::Delete),
    (4, KeyCode::End),
    (5, KeyCode::PageUp),
    (6, KeyCode::PageDown),
    (7, KeyCode::Home),
    (8, KeyCode::End),
    (11, KeyCode::F(1)),
    (12, KeyCode::F(2)),
    (13, KeyCode::F(3)),
    (14, KeyCode::F(4)),
    (15, KeyCode::F(5)),
    (17, KeyCode::F(6)),
    (18, KeyCode::F(7)),
    (19, KeyCode::F(8)),
    (20, KeyCode::F(9)),
    (21, KeyCode::F(10)),
    (23, KeyCode::F(11)),
    (24, KeyCode::F(12)),
    (25, KeyCode::F(13)),
    (26, KeyCode::F(14)),
    (28, KeyCode::F(15)),
    (29, KeyCode::F(16)),
    (31, KeyCode::F(17)),
    (32, KeyCode::F(18)),
    (33, KeyCode::F(19)),
    (34, KeyCode::F(20)),
];

// The keys without a character of their own, by their code points in Unicode's private use.
static CODES: [(u32, KeyCode); 60] = [
    (27, KeyCode::Esc),
    (13, KeyCode::Enter),
    (9, KeyCode::Tab),
    (127, KeyCode::Backspace),
    (57358, KeyCode::CapsLock),
    (57359, KeyCode::ScrollLock),
    (57360, KeyCode::NumLock),
    (57361, KeyCode::PrintScreen),
    (57362, KeyCode::Pause),
    (57363, KeyCode::Menu),
    (57428, KeyCode::Media(MediaKeyCode::Play)),
    (57429, KeyCode::Media(MediaKeyCode::Pause)),
    (57430, KeyCode::Media(MediaKeyCode::PlayPause)),
    (57431, KeyCode::Media(MediaKeyCode::Reverse)),
    (57432, KeyCode::Media(MediaKeyCode::Stop)),
    (57433, KeyCode::Media(MediaKeyCode::FastForward)),
    (57434, KeyCode::Media(MediaKeyCode::Rewind)),
    (57435, KeyCode::Media(MediaKeyCode::TrackNext)),
    (57436, KeyCode::Media(MediaKeyCode::TrackPrevious)),
    (57437, KeyCode::Media(MediaKeyCode::Record)),
    (57438, KeyCode::Media(MediaKeyCode::LowerVolume)),
    (57439, KeyCode::Media(MediaKeyCode::RaiseVolume)),
    (57440, KeyCode::Media(MediaKeyCode::MuteVolume)),
    (57441, KeyCode::Modifier(ModifierKeyCode::LeftShift)),
    (57442, KeyCode::Modifier(ModifierKeyCode::LeftControl)),
    (57443, KeyCode::Modifier(ModifierKeyCode::LeftAlt)),
    (57444, KeyCode::Modifier(ModifierKeyCode::LeftSuper)),
    (57445, KeyCode::Modifier(ModifierKeyCode::LeftHyper)),
    (57446, KeyCode::Modifier(ModifierKeyCode::LeftMeta)),
    (57447, KeyCode::Modifier(ModifierKeyCode::RightShift)),
    (57448, KeyCode::Modifier(ModifierKeyCode::RightControl)),
    (57449, KeyCode::Modifier(ModifierKeyCode::RightAlt)),
    (57450, KeyCode::Modifier(ModifierKeyCode::RightSuper)),
    (57451, KeyCode::Modifier(ModifierKeyCode::RightHyper)),
    (57452, KeyCode::Modifier(ModifierKeyCode::RightMeta)),
    (57453, KeyCode::Modifier(ModifierKeyCode::IsoLevel3Shift)),
    (57454, KeyCode::Modifier(ModifierKeyCode::IsoLevel5Shift)),
    (57376, KeyCode::F(13)),
    (57377, KeyCode::F(14)),
    (57378, KeyCode::F(15)),
    (57379, KeyCode::F(16)),
    (57380, KeyCode::F(17)),
    (57381, KeyCode::F(18)),
    (57382, KeyCode::F(19)),
    (57383, KeyCode::F(20)),
    (57384, KeyCode::F(21)),
    (57385, KeyCode::F(22)),
    (57386, KeyCode::F(23)),
    (57387, KeyCode::F(24)),
    (57388, KeyCode::F(25)),
    (57389, KeyCode::F(26)),
    (57390, KeyCode::F(27)),
    (57391, KeyCode::F(28)),
    (57392, KeyCode::F(29)),
    (57393, KeyCode::F(30)),
    (57394, KeyCode::F(31)),
    (57395, KeyCode::F(32)),
    (57396, KeyCode::F(33)),
    (57397, KeyCode::F(34)),
    (57398, KeyCode::F(35)),
];

// The keys of the keypad, by their code points.
static KEYPAD: [(u32, KeyCode); 29] = [
    (57399, KeyCode::Char('0')),
    (57400, KeyCode::Char('1')),
    (57401, KeyCode::Char('2')),
    (57402, KeyCode::Char('3')),
    (57403, KeyCode::Char('4')),
    (57404, KeyCode::Char('5')),
    (57405, KeyCode::Char('6')),
    (57406, KeyCode::Char('7')),
    (57407, KeyCode::Char('8')),
    (57408, KeyCode::Char('9')),
    (57409, KeyCode::Char('.')),
    (57410, KeyCode::Char('/')),
    (57411, KeyCode::Char('*')),
    (57412, KeyCode::Char('-')),
    (57413, KeyCode::Char('+')),
    (57414, KeyCode::Enter),
    (57415, KeyCode::Char('=')),
    (57416, KeyCode::Char(',')),
    (57417, KeyCode::Left),
    (57418, KeyCode::Right),
    (57419, KeyCode::Up),
    (57420, KeyCode::Down),
    (57421, KeyCode::PageUp),
    (57422, KeyCode::PageDown),
    (57423, KeyCode::Home),
    (57424, KeyCode::End),
    (57425, KeyCode::Insert),
    (57426, KeyCode::Delete),
    (57427, KeyCode::KeypadBegin),
];

// The key at a number of a table.
#[tactic(auto, unfolding(crate::specs::Keys::key_at))]
fn key_at(table: &[(u32, KeyCode)], number: u32) -> Option<KeyCode>
    ensures { result ≡ key_at table.now number }
{
    table
        .iter()
        .find(|entry| entry.0 == number)
        .map(|entry| entry.1)
}

// The key of a letter at a sequence's end.
pub(crate) fn letter_key(byte: u8) -> Option<KeyCode>
    ensures { result ≡ letter_key byte }
{
    key_at(&LETTERS, byte as u32)
}

// The key of a number before a tilde.
pub(crate) fn number_key(number: u32) -> Option<KeyCode>
    ensures { result ≡ number_key number }
{
    key_at(&NUMBERS, number)
}

// The character of a code point.
pub(crate) fn character(code: u32) -> Option<char>
    ensures { result ≡ scalar_at code }
{
    char::from_u32(code)
}

// The key of a character's code point.
fn character_key(code: u32) -> Option<(KeyCode, bool)>
    ensures { result ≡ character_key (scalar_at code) }
{
    match character(code) {
        None => None,
        Some(c) => {
            if c.is_control() {
                None
            } else {
                Some((KeyCode::Char(c), false))
            }
        }
    }
}

// The character of a code point, if it is no control character.
pub(crate) fn plain_character(code: u32) -> Option<char>
    ensures { result ≡ plain_character (scalar_at code) }
{
    match character(code) {
        None => None,
        Some(c) => { if c.is_control() { None } else { Some(c) } }
    }
}

// Whether a code point is a printed ASCII character: none of the tables has it, so nothing is looked
// up for most keys.
fn is_printed(code: u32) -> bool
    ensures { IsTrue result ↔ ((32 ≤ code) × (code ≤ 126)) }
{
    32 <= code && code <= 126
}

// The key of the keypad that has this code point.
#[tactic(auto, unfolding(crate::specs::Keys::keypad_key))]
fn keypad_key(code: u32) -> Option<KeyCode>
    ensures { result ≡ keypad_key code }
{
    if is_printed(code) {
        None
    } else {
        key_at(&KEYPAD, code)
    }
}

// The key with a name that has this code point.
#[tactic(auto, unfolding(crate::specs::Keys::name_key))]
fn name_key(code: u32) -> Option<KeyCode>
    ensures { result ≡ name_key code }
{
    if is_printed(code) {
        None
    } else {
        key_at(&CODES, code)
    }
}

// The key of a code point that isn't one of the keypad.
fn named_key(code: u32) -> Option<(KeyCode, bool)>
    ensures { result ≡ named_key (name_key code) code }
{
    match name_key(code) {
        Some(key) => Some((key, false)),
        None => character_key(code),
    }
}

// The key of a code point, and whether it is one of the keypad.
#[tactic(auto, unfolding(crate::specs::Keys::code_key))]
pub(crate) fn code_key(code: u32) -> Option<(KeyCode, bool)>
    ensures { result ≡ code_key code }
{
    match keypad_key(code) {
        Some(key) => Some((key, true)),
        None => named_key(code),
    }
}

// A key of this code, where Tab with Shift has a code of its own.
pub(crate) fn tab_key(code: KeyCode, mask: u32) -> KeyCode
    ensures { result ≡ tab_key code mask }
{
    match code {
        KeyCode::Tab => {
            if mask.saturating_sub(1) % 2 == 1 {
                KeyCode::BackTab
            } else {
                KeyCode::Tab
            }
        }
        _ => code,
    }
}
