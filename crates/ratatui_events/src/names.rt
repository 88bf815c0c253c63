//! Keys as people write them: `Ctrl+C`, `Alt+Enter`, `F5`.

ghost use Rattle.std.specs.Prelude.{◌≡◌, Some, codes};
ghost use Rattle.ratatui_events.specs.Names.{media_name, modifier_name, code_name, code_text, if_held};
ghost use Rattle.ratatui_events.specs.Names.{modifiers_text, shown_code, key_text, upper};

use crate::key::{KeyCode, KeyEvent, KeyModifiers, MediaKeyCode, ModifierKeyCode};
use bitflags::Flags;
use std::fmt;

impl MediaKeyCode {
    // The key's name.
    pub(crate) fn name(self) -> &'static str
        ensures { result.now ≡ media_name self }
    {
        match self {
            MediaKeyCode::Play => "MediaPlay",
            MediaKeyCode::Pause => "MediaPause",
            MediaKeyCode::PlayPause => "MediaPlayPause",
            MediaKeyCode::Reverse => "MediaReverse",
            MediaKeyCode::Stop => "MediaStop",
            MediaKeyCode::FastForward => "MediaFastForward",
            MediaKeyCode::Rewind => "MediaRewind",
            MediaKeyCode::TrackNext => "MediaTrackNext",
            MediaKeyCode::TrackPrevious => "MediaTrackPrevious",
            MediaKeyCode::Record => "MediaRecord",
            MediaKeyCode::LowerVolume => "MediaLowerVolume",
            MediaKeyCode::RaiseVolume => "MediaRaiseVolume",
            MediaKeyCode::MuteVolume => "MediaMuteVolume",
        }
    }
}

impl ModifierKeyCode {
    // The key's name.
    pub(crate) fn name(self) -> &'static str
        ensures { result.now ≡ modifier_name self }
    {
        match self {
            ModifierKeyCode::LeftShift => "LeftShift",
            ModifierKeyCode::LeftControl => "LeftControl",
            ModifierKeyCode::LeftAlt => "LeftAlt",
            ModifierKeyCode::LeftSuper => "LeftSuper",
            ModifierKeyCode::LeftHyper => "LeftHyper",
            ModifierKeyCode::LeftMeta => "LeftMeta",
            ModifierKeyCode::RightShift => "RightShift",
            ModifierKeyCode::RightControl => "RightControl",
            ModifierKeyCode::RightAlt => "RightAlt",
            ModifierKeyCode::RightSuper => "RightSuper",
            ModifierKeyCode::RightHyper => "RightHyper",
            ModifierKeyCode::RightMeta => "RightMeta",
            ModifierKeyCode::IsoLevel3Shift => "IsoLevel3Shift",
            ModifierKeyCode::IsoLevel5Shift => "IsoLevel5Shift",
        }
    }
}

impl KeyCode {
    // The key's name; none of a function key and of a character.
    pub(crate) fn name(self) -> &'static str
        ensures { result.now ≡ code_name self }
    {
        match self {
            KeyCode::Backspace => "Backspace",
            KeyCode::Enter => "Enter",
            KeyCode::Left => "Left",
            KeyCode::Right => "Right",
            KeyCode::Up => "Up",
            KeyCode::Down => "Down",
            KeyCode::Home => "Home",
            KeyCode::End => "End",
            KeyCode::PageUp => "PageUp",
            KeyCode::PageDown => "PageDown",
            KeyCode::Tab => "Tab",
            KeyCode::BackTab => "BackTab",
            KeyCode::Delete => "Delete",
            KeyCode::Insert => "Insert",
            KeyCode::Esc => "Esc",
            KeyCode::CapsLock => "CapsLock",
            KeyCode::ScrollLock => "ScrollLock",
            KeyCode::NumLock => "NumLock",
            KeyCode::PrintScreen => "PrintScreen",
            KeyCode::Pause => "Pause",
            KeyCode::Menu => "Menu",
            KeyCode::KeypadBegin => "KeypadBegin",
            KeyCode::Media(media) => media.name(),
            KeyCode::Modifier(modifier) => modifier.name(),
            KeyCode::F(_) | KeyCode::Char(_) => "",
        }
    }
}

/// The key's name, as `Enter` and `F5`; a character is itself, and a blank is `Space`.
impl fmt::Display for KeyCode {
    ghost output = { λ code. Some (code_text code) };

    fn fmt<W: fmt::Write>(&self, f: &mut fmt::Formatter<W>) -> fmt::Result {
        match *self {
            KeyCode::F(number) => write!(f, "F{number}"),
            KeyCode::Char(' ') => f.write_str("Space"),
            KeyCode::Char(c) => f.write_char(c),
            code => f.write_str(code.name()),
        }
    }
}

impl KeyModifiers {
    // A name, if the set has these keys.
    fn if_held<'a>(&self, keys: KeyModifiers, name: &'a str) -> &'a str
        ensures { result.now ≡ if_held self.now keys.0 name.now }
    {
        if self.contains(keys) { name } else { "" }
    }
}

/// Each key held, as `Ctrl+Alt+`: a plus sign stands after each.
impl fmt::Display for KeyModifiers {
    ghost output = { λ held. Some (modifiers_text held) };

    fn fmt<W: fmt::Write>(&self, f: &mut fmt::Formatter<W>) -> fmt::Result {
        let control = self.if_held(KeyModifiers::CONTROL, "Ctrl+");
        let alt = self.if_held(KeyModifiers::ALT, "Alt+");
        let shift = self.if_held(KeyModifiers::SHIFT, "Shift+");
        let logo = self.if_held(KeyModifiers::SUPER, "Super+");
        let hyper = self.if_held(KeyModifiers::HYPER, "Hyper+");
        let meta = self.if_held(KeyModifiers::META, "Meta+");
        write!(f, "{control}{alt}{shift}{logo}{hyper}{meta}")
    }
}

impl KeyEvent {
    // The key as it is written beside what is held: a letter is a capital one, unless Shift tells
    // which it is.
    fn shown_code(self) -> KeyCode
        ensures { result ≡ shown_code self }
    {
        match self.code {
            KeyCode::Char(c) => {
                if self.modifiers.is_empty() || self.modifiers.contains(KeyModifiers::SHIFT) {
                    self.code
                } else {
                    KeyCode::Char(c.to_ascii_uppercase())
                }
            }
            code => code,
        }
    }
}

/// What is held, and the key: `Ctrl+C`, `Ctrl+Shift+Up`, `F5`. A letter with something held is
/// written as a capital one. Whether the key went down or up isn't written.
impl fmt::Display for KeyEvent {
    ghost output = { λ key. Some (key_text key) };

    fn fmt<W: fmt::Write>(&self, f: &mut fmt::Formatter<W>) -> fmt::Result {
        let held = self.modifiers;
        let code = self.shown_code();
        write!(f, "{held}{code}")
    }
}
