//! What an event asks for while an entry is selected.

ghost use Rattle.std.specs.Prelude.{◌≡◌, ◌==◌};
ghost use Rattle.ratatui_events.specs.Key.{modifier_bits};
ghost use Rattle.files.specs.Keys.{character_wish, control_wish, code_wish, kind_wish, event_wish};
ghost use Rattle.files.specs.Keys.{function_wish, press_wish, mouse_wish, is_left, is_press_or_turn};
ghost use Rattle.files.specs.Keys.{holds_control, is_down_kind, is_input, is_yes_code, says_yes};
ghost use Rattle.files.specs.Keys.{order_of_char, code_order, event_order, is_tab_key};

use crate::order::{Order, SortBy};
use ratatui_events::{
    Event, KeyCode, KeyEvent, KeyEventKind, KeyModifiers, MouseButton, MouseEvent, MouseEventKind,
};

/// What a person asks for.
#[derive(Debug, Clone, Copy, PartialEq, Eq)]
pub enum Wish {
    /// Nothing.
    Nothing,
    /// The next entry, or the one before.
    Down,
    Up,
    /// The entry a page further, or a page back.
    PageDown,
    PageUp,
    /// Half a page.
    HalfDown,
    HalfUp,
    /// The first entry, or the last one.
    ToFirst,
    ToLast,
    /// The entry three rows further, or three rows back.
    WheelDown,
    WheelUp,
    /// The entry in a row of the screen; if that is selected, and a folder, that folder.
    Click(u16),
    /// The folder that is selected.
    Enter,
    /// The folder above.
    Leave,
    /// The folder above which nothing is reached.
    Base,
    /// The folder to which a path leads that is typed.
    Go,
    /// Hidden entries too, or no longer.
    Hidden,
    /// Another order.
    Sort,
    /// A text that names have.
    Seek,
    /// The next entry whose name has it, or the one before.
    SeekOn,
    SeekBack,
    /// That the entry be marked, or no longer.
    Mark,
    /// That no entry be marked.
    Unmark,
    /// That the entry be copied, or moved, to where `Paste` is asked for.
    NoteCopy,
    NoteMove,
    Paste,
    /// Another name for the entry.
    Rename,
    /// A new folder.
    Make,
    /// That the entry be put into the trash.
    Trash,
    /// That the entry be removed for good.
    Remove,
    /// That what was renamed or moved last get its old place back.
    Undo,
    /// The list of the keys.
    Help,
    /// The end.
    Quit,
    /// The end, and that the folder be told that is shown then.
    Choose,
}

// Whether Control is held, and nothing else.
pub(crate) fn holds_control(key: KeyEvent) -> bool
    ensures { result ≡ holds_control key }
{
    key.modifiers == KeyModifiers::CONTROL
}

// What a character asks for.
fn character_wish(code: char) -> Wish
    ensures { result ≡ character_wish code }
{
    match code {
        'j' => Wish::Down,
        'k' => Wish::Up,
        'g' => Wish::ToFirst,
        'G' => Wish::ToLast,
        'l' => Wish::Enter,
        'h' => Wish::Leave,
        '~' => Wish::Base,
        ':' => Wish::Go,
        '.' => Wish::Hidden,
        's' => Wish::Sort,
        '/' => Wish::Seek,
        'n' => Wish::SeekOn,
        'N' => Wish::SeekBack,
        ' ' => Wish::Mark,
        'y' => Wish::NoteCopy,
        'd' => Wish::NoteMove,
        'p' => Wish::Paste,
        'r' => Wish::Rename,
        'a' => Wish::Make,
        'D' => Wish::Trash,
        'X' => Wish::Remove,
        'z' => Wish::Undo,
        '?' => Wish::Help,
        'q' => Wish::Quit,
        'Q' => Wish::Choose,
        _ => Wish::Nothing,
    }
}

// What a key asks for with Control.
fn control_wish(code: KeyCode) -> Wish
    ensures { result ≡ control_wish code }
{
    match code {
        KeyCode::Char('d') => Wish::HalfDown,
        KeyCode::Char('u') => Wish::HalfUp,
        KeyCode::Char('c') => Wish::Quit,
        _ => Wish::Nothing,
    }
}

// What a function key asks for.
fn function_wish(number: u8) -> Wish
    ensures { result ≡ function_wish number }
{
    if number == 1 {
        Wish::Help
    } else {
        Wish::Nothing
    }
}

// What a key asks for without Control.
fn code_wish(code: KeyCode) -> Wish
    ensures { result ≡ code_wish code }
{
    match code {
        KeyCode::Char(character) => character_wish(character),
        KeyCode::F(number) => function_wish(number),
        KeyCode::Enter | KeyCode::Right => Wish::Enter,
        KeyCode::Backspace | KeyCode::Left => Wish::Leave,
        KeyCode::Down => Wish::Down,
        KeyCode::Up => Wish::Up,
        KeyCode::PageDown => Wish::PageDown,
        KeyCode::PageUp => Wish::PageUp,
        KeyCode::Home => Wish::ToFirst,
        KeyCode::End => Wish::ToLast,
        KeyCode::Esc => Wish::Unmark,
        _ => Wish::Nothing,
    }
}

// What a key asks for: nothing when it is let go.
fn key_wish(key: KeyEvent) -> Wish
    ensures { result ≡ kind_wish key.kind key }
{
    match key.kind {
        KeyEventKind::Release => Wish::Nothing,
        _ => {
            if holds_control(key) {
                control_wish(key.code)
            } else {
                code_wish(key.code)
            }
        }
    }
}

// What a button of the mouse asks for that is pressed in a row.
fn press_wish(button: MouseButton, row: u16) -> Wish
    ensures { result ≡ press_wish button row }
{
    match button {
        MouseButton::Left => Wish::Click(row),
        _ => Wish::Nothing,
    }
}

// What the mouse asks for.
fn mouse_wish(mouse: MouseEvent) -> Wish
    ensures { result ≡ mouse_wish mouse.kind mouse.row }
{
    match mouse.kind {
        MouseEventKind::Down(button) => press_wish(button, mouse.row),
        MouseEventKind::ScrollDown => Wish::WheelDown,
        MouseEventKind::ScrollUp => Wish::WheelUp,
        _ => Wish::Nothing,
    }
}

/// Returns what an event asks for.
pub fn wish_of(event: Event) -> Wish
    ensures { result ≡ event_wish event }
{
    match event {
        Event::Key(key) => key_wish(key),
        Event::Mouse(mouse) => mouse_wish(mouse),
        _ => Wish::Nothing,
    }
}

// The order that a letter names: a capital one turns it round.
fn order_of_char(letter: char) -> Option<Order>
    ensures { result ≡ order_of_char letter }
{
    let (by, is_reversed) = match letter {
        'n' => (SortBy::Name, false),
        'N' => (SortBy::Name, true),
        's' => (SortBy::Size, false),
        'S' => (SortBy::Size, true),
        'd' => (SortBy::Date, false),
        'D' => (SortBy::Date, true),
        _ => return None,
    };
    Some(Order { by, is_reversed })
}

// The order that a key names.
fn code_order(code: KeyCode) -> Option<Order>
    ensures { result ≡ code_order code }
{
    match code {
        KeyCode::Char(letter) => order_of_char(letter),
        _ => None,
    }
}

/// Returns the order that an event names, which is no key that is let go.
pub fn order_of(event: Event) -> Option<Order>
    ensures { result ≡ event_order event }
{
    match event {
        Event::Key(key) if !holds_control(key) => code_order(key.code),
        _ => None,
    }
}

// Whether a key of this kind goes down, or is held.
fn is_down_kind(kind: KeyEventKind) -> bool
    ensures { result ≡ is_down_kind kind }
{
    match kind {
        KeyEventKind::Release => false,
        _ => true,
    }
}

// Whether a button is the left one.
fn is_left(button: MouseButton) -> bool
    ensures { result ≡ is_left button }
{
    match button {
        MouseButton::Left => true,
        _ => false,
    }
}

// Whether the mouse did something that it is heard for: the left button is pressed, or the wheel
// turns.
fn is_press_or_turn(kind: MouseEventKind) -> bool
    ensures { result ≡ is_press_or_turn kind }
{
    match kind {
        MouseEventKind::Down(button) => is_left(button),
        MouseEventKind::ScrollDown | MouseEventKind::ScrollUp => true,
        _ => false,
    }
}

/// Returns whether an event is typed or pasted, or is a click of the left button or a turn of the
/// wheel.
pub fn is_input(event: Event) -> bool
    ensures { result ≡ is_input event }
{
    match event {
        Event::Key(key) => is_down_kind(key.kind),
        Event::Pasted(_) => true,
        Event::Mouse(mouse) => is_press_or_turn(mouse.kind),
        _ => false,
    }
}

// Whether a key is the letter y.
fn is_yes_code(code: KeyCode) -> bool
    ensures { result ≡ is_yes_code code }
{
    match code {
        KeyCode::Char(code) => code == 'y',
        _ => false,
    }
}

/// Returns whether an event says yes to a question: the letter y.
pub fn says_yes(event: Event) -> bool
    ensures { result ≡ says_yes event }
{
    match event {
        Event::Key(key) => !holds_control(key) && is_yes_code(key.code),
        _ => false,
    }
}

/// Returns whether an event is the key Tab.
pub fn is_tab_key(event: Event) -> bool
    ensures { result ≡ is_tab_key event }
{
    match event {
        Event::Key(key) => key.code == KeyCode::Tab,
        _ => false,
    }
}
