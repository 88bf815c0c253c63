//! Keys: which one, what was held beside it, and whether it went down or up.

ghost use Rattle.std.specs.Prelude.{⊤, ◌≡◌, ◌==◌, ◌↔◌, IsTrue, Some};
ghost use Rattle.std.specs.Int.RustNames.{bit_and};
ghost use Rattle.ratatui_events.specs.Key.{held_table, modifier_bits, held, state_table, state_bits};
ghost use Rattle.ratatui_events.specs.Key.{locks, key_character};
ghost use Rattle.ratatui_events.specs.declared.key.KeyEventKind.TheVariants.{Press, Repeat, Release};
ghost use Rattle.ratatui_events.specs.declared.key.KeyCode.TheVariants.{F, Char};

use bitflags::{Flag, Flags, bitflag_items};

/// A set of keys held beside another. `union` and the other calls on sets are those of `Flags`, of
/// the crate `bitflags`. The bits are those of the terminals' protocols.
#[derive(Debug, Default, Clone, Copy, PartialEq, Eq, Hash)]
pub struct KeyModifiers(u8);

bitflag_items! {
    impl KeyModifiers: u8 {
        const SHIFT = 1;
        const ALT = 2;
        const CONTROL = 4;
        const SUPER = 8;
        const HYPER = 16;
        const META = 32;
    }
}

impl KeyModifiers {
    /// The empty set, which `empty()` answers too.
    pub const NONE: KeyModifiers = KeyModifiers(0);

    /// Makes the set with these bits.
    pub const fn of(bits: u8) -> KeyModifiers
        ensures { result ≡ held bits }
    {
        KeyModifiers(bits)
    }

    /// Returns the bits of the set.
    pub const fn to_bits(self) -> u8
        ensures { result ≡ modifier_bits self }
    {
        self.0
    }

    /// Returns whether all keys of another set are held.
    ///
    /// ```
    /// let is_end = key.modifiers.contains(KeyModifiers::CONTROL) && key.code == KeyCode::Char('c');
    /// ```
    pub fn contains(self, other: KeyModifiers) -> bool
        ensures { result
            ≡ (bit_and (modifier_bits self) (modifier_bits other) == modifier_bits other) }
    {
        Flags::contains(&self, other)
    }
}

impl Flags for KeyModifiers {
    type Bits = u8;

    ghost exact = { ⊤ };

    ghost table = { held_table };

    ghost set_of = { modifier_bits };

    fn flags<'a>() -> &'a [Flag<KeyModifiers>] {
        KeyModifiers::FLAGS
    }

    fn bits(&self) -> u8 {
        self.0
    }

    fn from_bits_retain(bits: u8) -> KeyModifiers {
        KeyModifiers(bits)
    }
}

/// Which locks were on, and whether the key is one of the keypad.
#[derive(Debug, Default, Clone, Copy, PartialEq, Eq, Hash)]
pub struct KeyEventState(u8);

bitflag_items! {
    impl KeyEventState: u8 {
        const CAPS_LOCK = 1;
        const NUM_LOCK = 2;
        const KEYPAD = 4;
    }
}

impl KeyEventState {
    /// No lock was on, and the key isn't one of the keypad.
    pub const NONE: KeyEventState = KeyEventState(0);

    /// Makes the state with these bits.
    pub const fn of(bits: u8) -> KeyEventState
        ensures { result ≡ locks bits }
    {
        KeyEventState(bits)
    }
}

impl Flags for KeyEventState {
    type Bits = u8;

    ghost exact = { ⊤ };

    ghost table = { state_table };

    ghost set_of = { state_bits };

    fn flags<'a>() -> &'a [Flag<KeyEventState>] {
        KeyEventState::FLAGS
    }

    fn bits(&self) -> u8 {
        self.0
    }

    fn from_bits_retain(bits: u8) -> KeyEventState {
        KeyEventState(bits)
    }
}

/// Whether a key was pressed, is held, or was let go. Terminals tell only presses, unless they were
/// asked for more.
#[derive(Debug, Clone, Copy, PartialEq, Eq, Hash)]
pub enum KeyEventKind {
    Press,
    Repeat,
    Release,
}

/// A key of a player.
#[derive(Debug, Clone, Copy, PartialEq, Eq, Hash)]
pub enum MediaKeyCode {
    Play,
    Pause,
    PlayPause,
    Reverse,
    Stop,
    FastForward,
    Rewind,
    TrackNext,
    TrackPrevious,
    Record,
    LowerVolume,
    RaiseVolume,
    MuteVolume,
}

/// A key that modifies others, told by itself.
#[derive(Debug, Clone, Copy, PartialEq, Eq, Hash)]
pub enum ModifierKeyCode {
    LeftShift,
    LeftControl,
    LeftAlt,
    LeftSuper,
    LeftHyper,
    LeftMeta,
    RightShift,
    RightControl,
    RightAlt,
    RightSuper,
    RightHyper,
    RightMeta,
    IsoLevel3Shift,
    IsoLevel5Shift,
}

/// A key. A letter is the character that it types: a capital one with Shift.
#[derive(Debug, Clone, Copy, PartialEq, Eq, Hash)]
pub enum KeyCode {
    Backspace,
    Enter,
    Left,
    Right,
    Up,
    Down,
    Home,
    End,
    PageUp,
    PageDown,
    Tab,
    /// Tab with Shift.
    BackTab,
    Delete,
    Insert,
    /// A function key by its number, from 1 on.
    F(u8),
    Char(char),
    Esc,
    CapsLock,
    ScrollLock,
    NumLock,
    PrintScreen,
    Pause,
    Menu,
    /// The key in the middle of the keypad.
    KeypadBegin,
    Media(MediaKeyCode),
    Modifier(ModifierKeyCode),
}

impl KeyCode {
    /// Returns whether this is the function key of this number.
    pub fn is_function_key(self, number: u8) -> bool
        ensures { IsTrue result ↔ (self ≡ F number) }
    {
        match self {
            KeyCode::F(n) => n == number,
            _ => false,
        }
    }

    /// Returns whether this is the key of this character.
    pub fn is_char(self, character: char) -> bool
        ensures { IsTrue result ↔ (self ≡ Char character) }
    {
        match self {
            KeyCode::Char(c) => c == character,
            _ => false,
        }
    }

    /// Returns the character of the key, if it has one.
    pub fn as_char(self) -> Option<char>
        ensures { result ≡ key_character self }
    {
        match self {
            KeyCode::Char(c) => Some(c),
            _ => None,
        }
    }
}

/// A key, what was held beside it, and whether it went down or up.
///
/// ```
/// let quit = KeyEvent::new(KeyCode::Char('c'), KeyModifiers::CONTROL);
/// quit.is_press(); // true
/// ```
#[derive(Debug, Clone, Copy, PartialEq, Eq, Hash)]
pub struct KeyEvent {
    pub code: KeyCode,
    pub modifiers: KeyModifiers,
    pub kind: KeyEventKind,
    pub state: KeyEventState,
}

impl KeyEvent {
    ghost use Rattle.ratatui_events.specs.Key.{pressed, key_of_kind};

    /// Makes a key that is pressed.
    pub const fn new(code: KeyCode, modifiers: KeyModifiers) -> KeyEvent
        ensures { result ≡ pressed code modifiers }
    {
        KeyEvent {
            code,
            modifiers,
            kind: KeyEventKind::Press,
            state: KeyEventState::NONE,
        }
    }

    /// Makes a key that is pressed, held or let go.
    pub const fn new_with_kind(
        code: KeyCode,
        modifiers: KeyModifiers,
        kind: KeyEventKind,
    ) -> KeyEvent
        ensures { result ≡ key_of_kind code modifiers kind (locks 0) }
    {
        KeyEvent {
            code,
            modifiers,
            kind,
            state: KeyEventState::NONE,
        }
    }

    /// Makes a key that is pressed, held or let go, with what the locks were.
    pub const fn new_with_kind_and_state(
        code: KeyCode,
        modifiers: KeyModifiers,
        kind: KeyEventKind,
        state: KeyEventState,
    ) -> KeyEvent
        ensures { result ≡ key_of_kind code modifiers kind state }
    {
        KeyEvent {
            code,
            modifiers,
            kind,
            state,
        }
    }

    /// Returns whether the key was pressed.
    pub fn is_press(&self) -> bool
        ensures { IsTrue result ↔ (self.now.kind ≡ Press) }
    {
        matches!(self.kind, KeyEventKind::Press)
    }

    /// Returns whether the key is held.
    pub fn is_repeat(&self) -> bool
        ensures { IsTrue result ↔ (self.now.kind ≡ Repeat) }
    {
        matches!(self.kind, KeyEventKind::Repeat)
    }

    /// Returns whether the key was let go.
    pub fn is_release(&self) -> bool
        ensures { IsTrue result ↔ (self.now.kind ≡ Release) }
    {
        matches!(self.kind, KeyEventKind::Release)
    }
}

/// The key, pressed, with nothing held.
impl From<KeyCode> for KeyEvent {
    ghost use Rattle.ratatui_events.specs.Key.{pressed};

    ghost from_gives = { λ code key. key ≡ pressed code (held 0) };

    fn from(code: KeyCode) -> KeyEvent {
        KeyEvent::new(code, KeyModifiers::NONE)
    }
}
