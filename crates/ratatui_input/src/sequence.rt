//! Sequences that begin with ESC [.

ghost use Rattle.std.specs.Prelude.{◌≡◌, Some, false};
ghost use Rattle.ratatui_input.specs.Sequences.{with_digit, digit_pushed, pushed, key_event, with_shift};
ghost use Rattle.ratatui_input.specs.Sequences.{letter_event, code_event, tilde_event, size_event};
ghost use Rattle.ratatui_input.specs.Sequences.{position_event, keys_event, pointer_event, sequence_event};
ghost use Rattle.ratatui_input.specs.Sequences.{no_numbers, code_key_event, typed_event, told_key_event, text_event};
ghost use Rattle.ratatui_input.specs.Decoding.{in_sequence};
ghost use Rattle.ratatui_input.specs.Inner.{has_further, further_state};
ghost use Rattle.ratatui_input.specs.declared.decoder.State.TheVariants.{Numbers};
ghost use Rattle.ratatui_input.specs.Keys.{code_key};
ghost use Rattle.ratatui_events.specs.declared.key.KeyCode.TheVariants.{BackTab};

use crate::keys::{code_key, letter_key, number_key, plain_character, tab_key};
use crate::mouse::mouse_event;
use ratatui_events::{Event, KeyCode, KeyEvent, KeyEventKind, KeyEventState, KeyModifiers};

/// Who a sequence is from.
#[derive(Debug, Clone, Copy, PartialEq, Eq)]
pub(crate) enum Source {
    Keys,
    Mouse,
    Other,
}

/// The numbers of a sequence that have come.
#[derive(Debug, Clone, Copy, PartialEq, Eq)]
pub(crate) struct Sequence {
    pub source: Source,
    // How many semicolons have come, 3 for more.
    pub numbers: u8,
    // How many colons have come since, 2 for more.
    pub parts: u8,
    pub first: u32,
    pub second: u32,
    // The third number; before it begins, the part after a colon in the first number.
    pub third: u32,
    // The part after a colon in the second number.
    pub kind: u32,
}

pub(crate) fn with_digit(number: u32, byte: u8) -> u32
    ensures { result ≡ with_digit number byte }
{
    number.saturating_mul(10).saturating_add((byte & 15) as u32)
}

impl Sequence {
    pub(crate) const EMPTY: Sequence = Sequence {
        source: Source::Keys,
        numbers: 0,
        parts: 0,
        first: 0,
        second: 0,
        third: 0,
        kind: 0,
    };

    // Takes a further digit.
    #[inline(always)]
    #[tactic(auto, unfolding(crate::specs::Sequences::digit_pushed))]
    fn push_digit(&mut self, byte: u8)
        ensures { self.new ≡ digit_pushed self.old byte }
    {
        match (self.numbers, self.parts) {
            (0, 0) => self.first = with_digit(self.first, byte),
            (1, 0) => self.second = with_digit(self.second, byte),
            (0, 1) | (2, 0) => self.third = with_digit(self.third, byte),
            (1, 1) => self.kind = with_digit(self.kind, byte),
            _ => {}
        }
    }

    // Takes a semicolon: a further number begins.
    #[inline(always)]
    #[tactic(auto, unfolding(crate::specs::Sequences::pushed))]
    fn push_semicolon(&mut self)
        ensures { Some self.new ≡ pushed self.old 59 }
    {
        self.third = if self.numbers == 1 { 0 } else { self.third };
        self.numbers = if self.numbers < 3 {
            self.numbers + 1
        } else {
            3
        };
        self.parts = 0;
    }

    // Takes a byte that doesn't end the sequence, if it is one that stands there. Most are digits.
    #[inline(always)]
    #[tactic(auto, unfolding(crate::specs::Decoding::in_sequence, crate::specs::Sequences::pushed))]
    pub(crate) fn push(&mut self, byte: u8) -> bool
        ensures more { result ≡ has_further (in_sequence self.old byte) }
        ensures sequence { Numbers self.new
            ≡ further_state (in_sequence self.old byte) (Numbers self.old) }
    {
        if byte.is_ascii_digit() {
            self.push_digit(byte);
            return true;
        }
        match byte {
            b';' => self.push_semicolon(),
            b':' => self.parts = if self.parts < 2 { self.parts + 1 } else { 2 },
            b' '..=b'/' | b'<'..=b'?' => self.source = Source::Other,
            _ => return false,
        }
        true
    }

    // The event of the sequence with its last byte.
    #[tactic(auto, unfolding(crate::specs::Sequences::sequence_event))]
    pub(crate) fn event(&self, byte: u8) -> Event
        ensures { result ≡ sequence_event self.now byte }
    {
        match self.source {
            Source::Keys => self.keys_event(byte),
            Source::Mouse => self.mouse_event(byte),
            Source::Other => Event::Unknown,
        }
    }

    #[tactic(auto, unfolding(crate::specs::Sequences::pointer_event))]
    fn mouse_event(self, byte: u8) -> Event
        ensures { result ≡ pointer_event self byte }
    {
        if self.numbers != 2 {
            return Event::Unknown;
        }
        match byte {
            b'M' => mouse_event(self.first, self.second, self.third, false),
            b'm' => mouse_event(self.first, self.second, self.third, true),
            _ => Event::Unknown,
        }
    }

    // A key, with what the second number says of it.
    #[tactic(auto, unfolding(crate::specs::Sequences::key_event))]
    fn key(self, code: KeyCode, is_keypad: bool, mask: u32) -> Event
        ensures { result ≡ key_event self.kind code is_keypad mask }
    {
        if mask > 256 {
            return Event::Unknown;
        }
        let held = mask.saturating_sub(1);
        let keypad = if is_keypad { 4 } else { 0 };
        let kind = match self.kind {
            2 => KeyEventKind::Repeat,
            3 => KeyEventKind::Release,
            _ => KeyEventKind::Press,
        };
        Event::Key(KeyEvent {
            code,
            modifiers: KeyModifiers::of((held % 64) as u8),
            kind,
            state: KeyEventState::of((held / 64) as u8 + keypad),
        })
    }

    #[tactic(auto, unfolding(crate::specs::Sequences::letter_event))]
    fn letter_event(self, byte: u8) -> Event
        ensures { result ≡ letter_event self byte }
    {
        let mask = if self.numbers == 0 {
            self.first
        } else {
            self.second
        };
        match letter_key(byte) {
            None => Event::Unknown,
            Some(KeyCode::BackTab) => self.back_tab(mask),
            Some(code) => self.key(code, false, mask),
        }
    }

    fn back_tab(self, mask: u32) -> Event
        ensures { result ≡ key_event self.kind BackTab false (with_shift mask) }
    {
        let with_shift = if mask > 256 {
            mask
        } else {
            mask.saturating_sub(1) / 2 * 2 + 2
        };
        self.key(KeyCode::BackTab, false, with_shift)
    }

    #[tactic(auto, unfolding(crate::specs::Sequences::tilde_event))]
    fn tilde_event(self) -> Event
        ensures { result ≡ tilde_event self }
    {
        match self.first {
            200 => Event::PasteBegun,
            201 => Event::PasteEnded,
            27 if self.numbers >= 2 => self.other_event(),
            _ => match number_key(self.first) {
                None => Event::Unknown,
                Some(code) => self.key(code, false, self.second),
            },
        }
    }

    // A key by its code point, which stands third.
    fn other_event(self) -> Event
        ensures { result ≡ code_key_event (code_key self.third) self.kind self.second }
    {
        match code_key(self.third) {
            None => Event::Unknown,
            Some((key, is_keypad)) => {
                self.key(tab_key(key, self.second), is_keypad, self.second)
            }
        }
    }

    // A character that the terminal tells as typed.
    fn typed_event(self, c: char, is_keypad: bool) -> Event
        ensures { result ≡ typed_event self.kind c is_keypad self.second }
    {
        if self.second > 256 {
            return Event::Unknown;
        }
        let shift = if c.is_uppercase() { 2 } else { 1 };
        let held = self.second.saturating_sub(1) / 2 * 2;
        self.key(KeyCode::Char(c), is_keypad, held + shift)
    }

    // A key by its code point, and the character that the terminal tells beside it.
    fn told_key_event(self, told: Option<char>, code: KeyCode, is_keypad: bool) -> Event
        ensures { result ≡ told_key_event told code is_keypad self.kind self.second }
    {
        match (told, code) {
            (Some(c), KeyCode::Char(_)) if self.second.saturating_sub(1) % 2 == 1 => {
                self.typed_event(c, is_keypad)
            }
            _ => self.key(tab_key(code, self.second), is_keypad, self.second),
        }
    }

    // Text that no key has typed: one character.
    fn text_event(self, told: Option<char>) -> Event
        ensures { result ≡ text_event told self }
    {
        match told {
            Some(c) if self.first == 0 && self.numbers == 2 && self.parts == 0 => {
                self.typed_event(c, false)
            }
            _ => Event::Unknown,
        }
    }

    #[tactic(auto, unfolding(crate::specs::Sequences::code_event))]
    fn code_event(self) -> Event
        ensures { result ≡ code_event self }
    {
        let told = plain_character(self.third);
        match code_key(self.first) {
            None => self.text_event(told),
            Some((code, is_keypad)) => self.told_key_event(told, code, is_keypad),
        }
    }

    #[tactic(auto, unfolding(crate::specs::Sequences::size_event))]
    fn size_event(self) -> Event
        ensures { result ≡ size_event self }
    {
        let is_report = self.first == 48 || self.first == 8;
        if !is_report || self.numbers < 2 || self.second > 65535 || self.third > 65535 {
            return Event::Unknown;
        }
        Event::Size(self.third as u16, self.second as u16)
    }

    #[tactic(auto, unfolding(crate::specs::Sequences::position_event))]
    fn position_event(self) -> Event
        ensures { result ≡ position_event self }
    {
        if self.first > 65535 || self.second > 65535 {
            return Event::Unknown;
        }
        Event::Position(
            (self.second as u16).saturating_sub(1),
            (self.first as u16).saturating_sub(1),
        )
    }

    #[tactic(auto, unfolding(crate::specs::Sequences::keys_event))]
    fn keys_event(self, byte: u8) -> Event
        ensures { result ≡ keys_event self byte }
    {
        match byte {
            b'~' => self.tilde_event(),
            b'u' => self.code_event(),
            b't' => self.size_event(),
            b'R' if self.numbers == 1 && self.first != 1 => self.position_event(),
            b'M' if self.numbers >= 2 && self.first >= 32 => {
                mouse_event(self.first - 32, self.second, self.third, false)
            }
            b'I' if self.numbers == 0 => Event::FocusGained,
            b'O' if self.numbers == 0 => Event::FocusLost,
            b'M' => Event::Unknown,
            _ => self.letter_event(byte),
        }
    }
}

impl Sequence {
    // The event of ESC O, a number and this byte.
    pub(crate) fn single_event(self, byte: u8) -> Event
        ensures { result ≡ letter_event self byte }
    {
        self.letter_event(byte)
    }
}
