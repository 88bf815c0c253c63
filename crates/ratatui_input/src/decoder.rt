//! A decoder: bytes in, events out.

ghost use Rattle.std.specs.Prelude.{◌≡◌, ◌↔◌, ◌+◌, ◌-◌, ◌*◌, ◌^◌, ◌∷◌, [], min, IsTrue, true, false};
ghost use Rattle.std.specs.Int.RustNames.{bit_and};
ghost use Rattle.ratatui_input.specs.Decoding.{begun, first, after_escape, after_bracket, in_sequence};
ghost use Rattle.ratatui_input.specs.Decoding.{after_single, after_function, in_character, character_event};
ghost use Rattle.ratatui_input.specs.Decoding.{stepped, cut, pasted_code, read, byte_told, events_of};
ghost use Rattle.ratatui_input.specs.Decoding.{some_list, told_event, fresh};
ghost use Rattle.ratatui_input.specs.Decoding.{after_cut, settled, may_be_in_string, after_opened, in_text, after_text};
ghost use Rattle.ratatui_input.specs.Decoding.{begun_anew};
ghost use Rattle.ratatui_input.specs.Inner.{has_further, further_state, whole_event, takes, IsRare};
ghost use Rattle.ratatui_input.specs.Keys.{with_alt};
ghost use Rattle.ratatui_input.specs.Mouse.{mouse_event};
ghost use Rattle.ratatui_input.specs.declared.decoder.State.TheVariants.{Ground};

use crate::keys::{character, control_key, typed};
use crate::mouse::mouse_event;
use crate::sequence::{Sequence, Source, with_digit};
use ratatui_events::{Event, KeyCode, KeyEvent, KeyModifiers};

/// What has come of an event that isn't whole.
#[derive(Debug, Clone, Copy, PartialEq, Eq)]
enum State {
    // Nothing.
    Ground,
    // ESC.
    Escape,
    // ESC O, and perhaps a number.
    Single(u32),
    // ESC [.
    Bracket,
    // ESC [ [.
    Function,
    // ESC [ and numbers.
    Numbers(Sequence),
    // ESC [ M, and perhaps the button and the column.
    Click,
    ClickButton(u8),
    ClickColumn(u8, u8),
    // The first bytes of a character: what they say of it, how many are to come, and between which
    // the next one is.
    Character(Partial),
    // ESC and the byte that opens a string of the terminal.
    Opened(u8),
    // The same, and text: whether BEL ends it, and how many ticks have come since the last byte.
    // The text isn't kept.
    Text(bool, u8),
    // The same, and ESC.
    TextEscape,
}

// How many ticks in a row leave a string as it is.
const PATIENCE: u8 = 9;

#[derive(Debug, Clone, Copy, PartialEq, Eq)]
struct Partial {
    is_alt: bool,
    code: u32,
    left: u8,
    low: u8,
    high: u8,
}

/// What a byte gave: the event of what had come before and doesn't go on with it, and its own.
#[derive(Debug, Clone, Copy, PartialEq, Eq)]
pub struct Fed {
    pub cut: Option<Event>,
    pub event: Option<Event>,
}

// The state of a character that begins with this byte.
#[tactic(auto, unfolding(crate::specs::Decoding::begun))]
fn begun(byte: u8, is_alt: bool) -> Option<Partial>
    ensures { result ≡ begun byte is_alt }
{
    let (code, left, low, high) = match byte {
        0xc2..=0xdf => ((byte & 0x1f) as u32, 1, 0x80, 0xbf),
        0xe0 => (0, 2, 0xa0, 0xbf),
        0xed => (0xd, 2, 0x80, 0x9f),
        0xe1..=0xef => ((byte & 0x0f) as u32, 2, 0x80, 0xbf),
        0xf0 => (0, 3, 0x90, 0xbf),
        0xf1..=0xf3 => ((byte & 0x07) as u32, 3, 0x80, 0xbf),
        0xf4 => (4, 3, 0x80, 0x8f),
        _ => return None,
    };
    Some(Partial {
        is_alt,
        code,
        left,
        low,
        high,
    })
}

fn with_alt(key: KeyEvent, is_alt: bool) -> Event
    ensures { result ≡ with_alt key is_alt }
{
    let mut key = key;
    if is_alt {
        key.modifiers = KeyModifiers::of(key.modifiers.to_bits() | 2);
    }
    Event::Key(key)
}

// The event of a character's code.
#[tactic(auto, unfolding(crate::specs::Decoding::character_event))]
fn character_event(code: u32, is_alt: bool) -> Event
    ensures { result ≡ character_event code is_alt }
{
    match character(code) {
        None => Event::Unknown,
        Some(c) => {
            if c.is_control() {
                Event::Unknown
            } else {
                with_alt(typed(c), is_alt)
            }
        }
    }
}

// Whether a byte stands in a string: it is no control character.
fn may_be_in_string(byte: u8) -> bool
    ensures { result ≡ may_be_in_string byte }
{
    (b' ' <= byte && byte <= b'~') || 0x80 <= byte
}

impl Partial {
    // Whether a byte goes on with the character.
    fn takes(self, byte: u8) -> bool
        ensures { result ≡ takes self byte }
    {
        0x80 <= byte && self.low <= byte && byte <= self.high
    }

    // The code, with the bits of a further byte.
    fn code_with(self, byte: u8) -> u32
        ensures { result ≡ min (self.code * 64 + bit_and byte 63) (2 ^ 32 - 1) }
    {
        self.code
            .saturating_mul(64)
            .saturating_add((byte & 0x3f) as u32)
    }
}

// The event of a byte with nothing before it, or after ESC.
#[tactic(auto, unfolding(crate::specs::Decoding::first))]
fn lone(byte: u8, is_alt: bool) -> Option<Event>
    requires { has_further (first byte is_alt) ≡ false }
    ensures { result ≡ whole_event (first byte is_alt) }
{
    match byte {
        0..=0x1f | 0x7f => Some(with_alt(control_key(byte), is_alt)),
        b' '..=b'~' => Some(with_alt(typed(byte as char), is_alt)),
        _ if is_alt => None,
        _ => Some(Event::Unknown),
    }
}

#[tactic(auto, unfolding(crate::specs::Decoding::after_escape))]
fn last_of_escape(byte: u8) -> Option<Event>
    requires { has_further (after_escape byte) ≡ false }
    ensures { result ≡ whole_event (after_escape byte) }
{
    match byte {
        0x1b => None,
        _ => lone(byte, true),
    }
}

#[tactic(auto, unfolding(crate::specs::Decoding::in_character))]
fn last_of_character(partial: Partial, byte: u8) -> Option<Event>
    requires { has_further (in_character partial byte) ≡ false }
    ensures { result ≡ whole_event (in_character partial byte) }
{
    if partial.takes(byte) {
        Some(character_event(partial.code_with(byte), partial.is_alt))
    } else {
        None
    }
}

// The event of a sequence with its last byte.
#[tactic(auto, unfolding(crate::specs::Decoding::in_sequence))]
fn last(sequence: &Sequence, byte: u8) -> Option<Event>
    ensures { result ≡ whole_event (in_sequence sequence.now byte) }
{
    match byte {
        b'@'..=b'~' => Some(sequence.event(byte)),
        _ => None,
    }
}

#[tactic(auto, unfolding(crate::specs::Decoding::after_single, crate::specs::Sequences::single_event))]
fn last_of_single(number: u32, byte: u8) -> Option<Event>
    ensures { result ≡ whole_event (after_single number byte) }
{
    match byte {
        b'@'..=b'~' => Some(Sequence {
            first: number,
            ..Sequence::EMPTY
        }
        .single_event(byte)),
        _ => None,
    }
}

fn last_of_function(byte: u8) -> Option<Event>
    ensures { result ≡ whole_event (after_function byte) }
{
    match byte {
        b'A'..=b'E' => Some(Event::Key(KeyEvent::new(KeyCode::F(byte - 64), KeyModifiers::NONE))),
        b'@'..=b'~' => Some(Event::Unknown),
        _ => None,
    }
}

#[tactic(auto, unfolding(crate::specs::Decoding::in_text))]
fn last_of_text(has_bell: bool, byte: u8) -> Option<Event>
    requires { has_further (in_text has_bell byte) ≡ false }
    ensures { result ≡ whole_event (in_text has_bell byte) }
{
    match byte {
        0x07 if has_bell => Some(Event::Unknown),
        _ => None,
    }
}

// What a byte makes of a state. If it goes on, the state is changed where it stands, and nothing is
// told. If not, it makes an event whole or is apart from what has come. To hand states and events
// over costs more than all else: so the path of most bytes is inlined where `feed` is called.
impl State {
    #[inline(always)]
    fn go_to(&mut self, state: State) -> bool
        ensures more { result ≡ true }
        ensures state { self.new ≡ state }
    {
        *self = state;
        true
    }

    // Whether a byte begins an event of several bytes, with nothing before it or after ESC.
    #[inline(always)]
    #[tactic(auto, unfolding(crate::specs::Decoding::first))]
    fn begins(&mut self, byte: u8, is_alt: bool) -> bool
        ensures more { result ≡ has_further (first byte is_alt) }
        ensures state { self.new ≡ further_state (first byte is_alt) self.old }
    {
        if byte < 0x80 {
            return byte == 0x1b && self.go_to(State::Escape);
        }
        match begun(byte, is_alt) {
            Some(partial) => self.go_to(State::Character(partial)),
            None => false,
        }
    }

    #[inline(always)]
    #[tactic(auto, unfolding(crate::specs::Decoding::after_escape))]
    fn goes_on_escape(&mut self, byte: u8) -> bool
        ensures more { result ≡ has_further (after_escape byte) }
        ensures state { self.new ≡ further_state (after_escape byte) self.old }
    {
        match byte {
            0x1b => false,
            b'[' => self.go_to(State::Bracket),
            b'O' => self.go_to(State::Single(0)),
            b'P' | b'X' | b']'..=b'_' => self.go_to(State::Opened(byte)),
            _ => self.begins(byte, true),
        }
    }

    #[inline(always)]
    #[tactic(auto, using(crate::proofs::NextLemmas::further), unfolding(crate::specs::Decoding::after_bracket))]
    fn goes_on_bracket(&mut self, byte: u8) -> bool
        ensures more { result ≡ has_further (after_bracket byte) }
        ensures state { self.new ≡ further_state (after_bracket byte) self.old }
    {
        match byte {
            b'[' => self.go_to(State::Function),
            b'M' => self.go_to(State::Click),
            b'<' => self.go_to(State::Numbers(Sequence {
                source: Source::Mouse,
                ..Sequence::EMPTY
            })),
            _ => {
                let mut sequence = Sequence::EMPTY;
                sequence.push(byte) && self.go_to(State::Numbers(sequence))
            }
        }
    }

    #[inline(always)]
    #[tactic(auto, unfolding(crate::specs::Decoding::in_character))]
    fn goes_on_character(&mut self, partial: Partial, byte: u8) -> bool
        ensures more { result ≡ has_further (in_character partial byte) }
        ensures state { self.new ≡ further_state (in_character partial byte) self.old }
    {
        partial.left > 1
            && partial.takes(byte)
            && self.go_to(State::Character(Partial {
                is_alt: partial.is_alt,
                code: partial.code_with(byte),
                left: partial.left - 1,
                low: 0x80,
                high: 0xbf,
            }))
    }

    #[tactic(auto, unfolding(crate::specs::Decoding::after_single))]
    fn goes_on_single(&mut self, number: u32, byte: u8) -> bool
        ensures more { result ≡ has_further (after_single number byte) }
        ensures state { self.new ≡ further_state (after_single number byte) self.old }
    {
        byte.is_ascii_digit() && self.go_to(State::Single(with_digit(number, byte)))
    }

    #[tactic(auto, unfolding(crate::specs::Decoding::in_text))]
    fn goes_on_text(&mut self, has_bell: bool, byte: u8) -> bool
        ensures more { result ≡ has_further (in_text has_bell byte) }
        ensures state { self.new ≡ further_state (in_text has_bell byte) self.old }
    {
        if may_be_in_string(byte) {
            return self.go_to(State::Text(has_bell, 0));
        }
        byte == 0x1b && self.go_to(State::TextEscape)
    }

    // The same where few bytes come.
    #[inline(never)]
    #[tactic(auto, unfolding(crate::specs::Decoding::stepped))]
    fn goes_on_rare(&mut self, byte: u8) -> bool
        requires { IsRare self.old }
        ensures more { result ≡ has_further (stepped self.old byte) }
        ensures state { self.new ≡ further_state (stepped self.old byte) self.old }
    {
        match *self {
            State::Single(number) => self.goes_on_single(number, byte),
            State::Click if byte >= 32 => self.go_to(State::ClickButton(byte)),
            State::ClickButton(button) if byte >= 32 => {
                self.go_to(State::ClickColumn(button, byte))
            }
            State::Opened(opener) if may_be_in_string(byte) => {
                self.go_to(State::Text(opener == b']', 0))
            }
            State::Text(has_bell, _) => self.goes_on_text(has_bell, byte),
            _ => false,
        }
    }

    // Whether a byte goes on with what has come.
    #[inline(always)]
    #[tactic(auto, unfolding(crate::specs::Decoding::stepped))]
    fn goes_on(&mut self, byte: u8) -> bool
        ensures more { result ≡ has_further (stepped self.old byte) }
        ensures state { self.new ≡ further_state (stepped self.old byte) self.old }
    {
        match *self {
            State::Ground => self.begins(byte, false),
            State::Escape => self.goes_on_escape(byte),
            State::Bracket => self.goes_on_bracket(byte),
            State::Numbers(ref mut sequence) => sequence.push(byte),
            State::Character(partial) => self.goes_on_character(partial, byte),
            _ => self.goes_on_rare(byte),
        }
    }

    // The event that a byte makes whole, if it does.
    #[inline(always)]
    #[tactic(auto, unfolding(crate::specs::Decoding::stepped, crate::specs::Decoding::after_bracket))]
    fn whole(&self, byte: u8) -> Option<Event>
        requires { has_further (stepped self.now byte) ≡ false }
        ensures { result ≡ whole_event (stepped self.now byte) }
    {
        match *self {
            State::Ground => lone(byte, false),
            State::Escape => last_of_escape(byte),
            State::Bracket => last(&Sequence::EMPTY, byte),
            State::Numbers(ref sequence) => last(sequence, byte),
            State::Character(partial) => last_of_character(partial, byte),
            _ => self.whole_rare(byte),
        }
    }

    // The same where few bytes come.
    #[inline(never)]
    #[tactic(auto, unfolding(crate::specs::Decoding::stepped))]
    fn whole_rare(&self, byte: u8) -> Option<Event>
        requires rare { IsRare self.now }
        requires last { has_further (stepped self.now byte) ≡ false }
        ensures { result ≡ whole_event (stepped self.now byte) }
    {
        match *self {
            State::Single(number) => last_of_single(number, byte),
            State::Function => last_of_function(byte),
            State::ClickColumn(button, column) if byte >= 32 => {
                Some(click_event(button, column, byte))
            }
            State::Text(has_bell, _) => last_of_text(has_bell, byte),
            State::TextEscape if byte == b'\\' => Some(Event::Unknown),
            _ => None,
        }
    }
}

fn click_event(button: u8, column: u8, row: u8) -> Event
    ensures { result ≡ mouse_event (button - 32) (column - 32) (row - 32) false }
{
    mouse_event(
        button.saturating_sub(32) as u32,
        column.saturating_sub(32) as u32,
        row.saturating_sub(32) as u32,
        false,
    )
}

// What has come, where nothing goes on with it.
#[tactic(auto, unfolding(crate::specs::Decoding::cut))]
fn cut(state: State) -> Option<Event>
    ensures { result ≡ cut state }
{
    match state {
        State::Ground => None,
        State::Escape => Some(Event::Key(KeyEvent::new(KeyCode::Esc, KeyModifiers::NONE))),
        State::Single(0) => Some(with_alt(typed('O'), true)),
        State::Bracket => Some(with_alt(typed('['), true)),
        State::Opened(opener) => Some(with_alt(typed(opener as char), true)),
        _ => Some(Event::Unknown),
    }
}

/// A decoder, and what it has read of the next event.
#[derive(Debug, Clone, Copy, PartialEq, Eq)]
pub struct Decoder {
    state: State,
    is_pasting: bool,
}

// The character that a key is in a paste.
fn pasted(key: KeyEvent) -> Event
    ensures { result ≡ pasted_code key.code key.modifiers.0 }
{
    match key.code {
        KeyCode::Char(c) if key.modifiers.to_bits() <= 1 => Event::Pasted(c),
        KeyCode::Char('j') if key.modifiers.to_bits() == 4 => Event::Pasted('\n'),
        KeyCode::Enter if key.modifiers.to_bits() == 0 => Event::Pasted('\r'),
        KeyCode::Tab if key.modifiers.to_bits() == 0 => Event::Pasted('\t'),
        _ => Event::Unknown,
    }
}

impl Decoder {
    /// Makes a decoder that has read nothing.
    pub fn new() -> Decoder
        ensures { result ≡ record { state = Ground; is_pasting = false } }
    {
        Decoder {
            state: State::Ground,
            is_pasting: false,
        }
    }

    // An event as it is read: within a paste, keys are characters.
    #[inline(always)]
    #[tactic(auto, unfolding(crate::specs::Decoding::read))]
    fn read(&mut self, event: Event) -> Event
        ensures told { result ≡ (read self.old.is_pasting event).0 }
        ensures after { self.new ≡ record self.old { is_pasting = (read self.old.is_pasting event).1 } }
    {
        match event {
            Event::PasteBegun if self.is_pasting => Event::Unknown,
            Event::PasteBegun => {
                self.is_pasting = true;
                event
            }
            Event::PasteEnded if self.is_pasting => {
                self.is_pasting = false;
                event
            }
            Event::PasteEnded => Event::Unknown,
            Event::Key(key) if self.is_pasting => pasted(key),
            _ if self.is_pasting => Event::Unknown,
            _ => event,
        }
    }

    /// Reads one more byte.
    // Most bytes are characters by themselves: these take the shortest way.
    #[inline(always)]
    #[tactic(auto, unfolding(crate::specs::Decoding::byte_told, crate::specs::Decoding::stepped, crate::specs::Decoding::first))]
    pub fn feed(&mut self, byte: u8) -> Fed
        ensures { (events_of result, self.new) ≡ byte_told self.old byte }
    {
        if self.is_empty() && matches!(byte, b' '..=b'~') {
            let event = self.read(Event::Key(typed(byte as char)));
            return Fed {
                cut: None,
                event: Some(event),
            };
        }
        if self.state.goes_on(byte) {
            return Fed {
                cut: None,
                event: None,
            };
        }
        match self.state.whole(byte) {
            Some(event) => Fed {
                cut: None,
                event: Some(self.tell(event)),
            },
            None => self.feed_apart(byte),
        }
    }

    // Reads a byte that is apart from what has come. An ESC that ended a string goes with the byte,
    // if the byte goes on with it.
    #[inline(never)]
    #[tactic(auto, unfolding(crate::specs::Decoding::begun_anew, crate::specs::Decoding::stepped))]
    fn feed_apart(&mut self, byte: u8) -> Fed
        ensures { (events_of result, self.new)
            ≡ after_cut (cut self.old.state) (begun_anew self.old.state byte) self.old.is_pasting }
    {
        let state = self.state;
        let cut = match cut(state) {
            Some(event) => Some(self.read(event)),
            None => None,
        };
        if matches!(state, State::TextEscape) {
            self.state = State::Escape;
            if self.state.goes_on(byte) {
                return Fed { cut, event: None };
            }
            if let Some(event) = self.state.whole(byte) {
                let event = Some(self.tell(event));
                return Fed { cut, event };
            }
        }
        let event = self.feed_anew(byte);
        Fed { cut, event }
    }

    // Reads a byte with nothing before it.
    #[tactic(auto, unfolding(crate::specs::Decoding::stepped))]
    fn feed_anew(&mut self, byte: u8) -> Option<Event>
        ensures { (some_list result, self.new) ≡ fresh (first byte false) self.old.is_pasting }
    {
        self.state = State::Ground;
        if self.state.goes_on(byte) {
            return None;
        }
        match self.state.whole(byte) {
            Some(event) => Some(self.tell(event)),
            None => None,
        }
    }

    // Tells an event that is whole.
    #[inline(always)]
    fn tell(&mut self, event: Event) -> Event
        ensures { (result ∷ [], self.new) ≡ told_event event Ground self.old.is_pasting }
    {
        self.state = State::Ground;
        self.read(event)
    }

    /// Returns whether nothing of a further event has come.
    pub fn is_empty(&self) -> bool
        ensures { IsTrue result ↔ (self.now.state ≡ Ground) }
    {
        match self.state {
            State::Ground => true,
            _ => false,
        }
    }

    /// Takes what has come as whole, if it is a key by itself: ESC, or Alt with [, O, P, X, ], ^ or
    /// _. A string of the terminal is left as it is, but the tenth call in a row with no byte
    /// between ends it; an ESC within a string ends it, and is a key by itself then. Call it where
    /// nothing more follows for now.
    #[tactic(auto, unfolding(crate::specs::Decoding::settled))]
    pub fn settle(&mut self) -> Option<Event>
        ensures { (some_list result, self.new) ≡ settled self.old.state self.old }
    {
        let (event, state) = match self.state {
            State::Escape => (
                Event::Key(KeyEvent::new(KeyCode::Esc, KeyModifiers::NONE)),
                State::Ground,
            ),
            State::Bracket => (with_alt(typed('['), true), State::Ground),
            State::Single(0) => (with_alt(typed('O'), true), State::Ground),
            State::Opened(opener) => (with_alt(typed(opener as char), true), State::Ground),
            State::Text(has_bell, ticks) if ticks < PATIENCE => {
                self.state = State::Text(has_bell, ticks + 1);
                return None;
            }
            State::Text(_, _) => (Event::Unknown, State::Ground),
            State::TextEscape => (Event::Unknown, State::Escape),
            _ => return None,
        };
        self.state = state;
        Some(self.read(event))
    }
}
