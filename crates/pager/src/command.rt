//! What an event asks for while a text is read.

ghost use Rattle.std.specs.Prelude.{◌≡◌, ◌==◌};
ghost use Rattle.ratatui_events.specs.Key.{modifier_bits};
ghost use Rattle.pager.specs.Keys.{move_command, character_command, control_command, code_command};
ghost use Rattle.pager.specs.Keys.{kind_command, mouse_command, event_command, has_control_key};

use ratatui_events::{Event, KeyCode, KeyEvent, KeyEventKind, KeyModifiers, MouseEventKind};

/// What a reader asks for.
#[derive(Debug, Clone, Copy, PartialEq, Eq)]
pub enum Command {
    /// Nothing.
    Nothing,
    /// Another digit of a number.
    Digit(u8),
    /// So many rows further or back: the number, or else one.
    Down,
    Up,
    /// The number, or else a page.
    PageDown,
    PageUp,
    /// The number, or else half a page.
    HalfDown,
    HalfUp,
    /// The number, or else three.
    WheelDown,
    WheelUp,
    /// The line of the number, or else the first one.
    ToStart,
    /// The line of the number, or else the last one.
    ToEnd,
    /// The number in hundredths of the text.
    ToPart,
    /// So many columns to a side: the number, or else half of them.
    ToLeft,
    ToRight,
    /// A search, further or back.
    Ask(bool),
    /// The next match, in the direction of the search.
    Next,
    /// The next match in the other direction.
    Previous,
    /// Only the lines that have what is typed.
    Filter,
    /// The numbers of the lines, or no longer.
    Numbers,
    /// Long lines broken, or no longer.
    Wrap,
    /// The bytes that the page ends with, beside the place.
    Details,
    /// A mark for the first line of the page.
    Mark,
    /// The line of a mark.
    ToMark,
    /// Another text.
    Turn,
    /// The list of the keys.
    Help,
    /// The text followed while it grows.
    Follow,
    /// The end.
    Quit,
}

// Whether Control is held, and nothing else.
pub(crate) fn has_control_key(key: KeyEvent) -> bool
    ensures { result ≡ has_control_key key }
{
    key.modifiers == KeyModifiers::CONTROL
}

// What a character of a move asks for.
fn move_command(code: char) -> Command
    ensures { result ≡ move_command code }
{
    match code {
        'j' => Command::Down,
        'k' => Command::Up,
        ' ' | 'f' => Command::PageDown,
        'b' => Command::PageUp,
        'd' => Command::HalfDown,
        'u' => Command::HalfUp,
        'g' => Command::ToStart,
        'G' => Command::ToEnd,
        'p' | '%' => Command::ToPart,
        _ => Command::Nothing,
    }
}

// What a character asks for.
fn character_command(code: char) -> Command
    ensures { result ≡ character_command code }
{
    match code {
        'q' => Command::Quit,
        '/' => Command::Ask(false),
        '?' => Command::Ask(true),
        'n' => Command::Next,
        'N' => Command::Previous,
        '&' => Command::Filter,
        'l' => Command::Numbers,
        'w' => Command::Wrap,
        'h' => Command::Help,
        '=' => Command::Details,
        'm' => Command::Mark,
        '\'' => Command::ToMark,
        ':' => Command::Turn,
        'F' => Command::Follow,
        '0'..='9' => Command::Digit((code as u32 - 48) as u8),
        _ => move_command(code),
    }
}

// What a key asks for with Control.
fn control_command(code: KeyCode) -> Command
    ensures { result ≡ control_command code }
{
    match code {
        KeyCode::Char('c') => Command::Quit,
        KeyCode::Char('d') => Command::HalfDown,
        KeyCode::Char('u') => Command::HalfUp,
        KeyCode::Char('f') => Command::PageDown,
        KeyCode::Char('b') => Command::PageUp,
        KeyCode::Char('e') => Command::Down,
        KeyCode::Char('y') => Command::Up,
        KeyCode::Home => Command::ToStart,
        KeyCode::End => Command::ToEnd,
        _ => Command::Nothing,
    }
}

// What a key asks for without Control.
fn code_command(code: KeyCode) -> Command
    ensures { result ≡ code_command code }
{
    match code {
        KeyCode::Char(character) => character_command(character),
        KeyCode::Enter | KeyCode::Down => Command::Down,
        KeyCode::Up => Command::Up,
        KeyCode::PageDown => Command::PageDown,
        KeyCode::PageUp => Command::PageUp,
        KeyCode::Home => Command::ToStart,
        KeyCode::End => Command::ToEnd,
        KeyCode::Left => Command::ToLeft,
        KeyCode::Right => Command::ToRight,
        _ => Command::Nothing,
    }
}

// What a key asks for: nothing when it is let go.
fn key_command(key: KeyEvent) -> Command
    ensures { result ≡ kind_command key.kind key }
{
    match key.kind {
        KeyEventKind::Release => Command::Nothing,
        _ => {
            if has_control_key(key) {
                control_command(key.code)
            } else {
                code_command(key.code)
            }
        }
    }
}

// What the mouse asks for.
fn mouse_command(kind: MouseEventKind) -> Command
    ensures { result ≡ mouse_command kind }
{
    match kind {
        MouseEventKind::ScrollDown => Command::WheelDown,
        MouseEventKind::ScrollUp => Command::WheelUp,
        _ => Command::Nothing,
    }
}

/// Returns what an event asks for.
pub fn command_of(event: Event) -> Command
    ensures { result ≡ event_command event }
{
    match event {
        Event::Key(key) => key_command(key),
        Event::Mouse(mouse) => mouse_command(mouse.kind),
        _ => Command::Nothing,
    }
}
