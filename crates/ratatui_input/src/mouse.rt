//! What the mouse did.

ghost use Rattle.std.specs.Prelude.{◌≡◌, ◌/◌};
ghost use Rattle.std.specs.Int.RustNames.{bit_and};
ghost use Rattle.ratatui_events.specs.Key.{held};
ghost use Rattle.ratatui_input.specs.Mouse.{mouse_kind, down_or_up, mouse_event};

use ratatui_events::{Event, KeyModifiers, MouseButton, MouseEvent, MouseEventKind};

// What the mouse did, by its number. `is_up` is whether a button was let go.
#[tactic(auto, unfolding(crate::specs::Mouse::mouse_kind))]
fn mouse_kind(number: u8, is_up: bool) -> Option<MouseEventKind>
    ensures { result ≡ mouse_kind number is_up }
{
    let button = (number & 3) + (number / 64) * 4;
    let is_moving = number & 32 != 0;
    match (button, is_moving) {
        (0, false) => Some(pressed_or_up(MouseButton::Left, is_up)),
        (1, false) => Some(pressed_or_up(MouseButton::Middle, is_up)),
        (2, false) => Some(pressed_or_up(MouseButton::Right, is_up)),
        (3, false) => Some(MouseEventKind::Up(MouseButton::Left)),
        (4, false) => Some(MouseEventKind::ScrollUp),
        (5, false) => Some(MouseEventKind::ScrollDown),
        (6, false) => Some(MouseEventKind::ScrollLeft),
        (7, false) => Some(MouseEventKind::ScrollRight),
        (0, true) => Some(MouseEventKind::Drag(MouseButton::Left)),
        (1, true) => Some(MouseEventKind::Drag(MouseButton::Middle)),
        (2, true) => Some(MouseEventKind::Drag(MouseButton::Right)),
        (3, true) | (4, true) | (5, true) => Some(MouseEventKind::Moved),
        _ => None,
    }
}

fn pressed_or_up(button: MouseButton, is_up: bool) -> MouseEventKind
    ensures { result ≡ down_or_up button is_up }
{
    if is_up {
        MouseEventKind::Up(button)
    } else {
        MouseEventKind::Down(button)
    }
}

// The keys held, by the mouse's number: Shift, Alt and Control are its bits 4, 8 and 16.
fn mouse_modifiers(number: u8) -> KeyModifiers
    ensures { result ≡ held (bit_and (number / 4) 7) }
{
    KeyModifiers::of((number / 4) & 7)
}

// The event of a number, a column and a row, which are counted from 1.
#[tactic(auto, unfolding(crate::specs::Mouse::mouse_event))]
pub(crate) fn mouse_event(number: u32, column: u32, row: u32, is_up: bool) -> Event
    ensures { result ≡ mouse_event number column row is_up }
{
    if number > 255 || column > 65535 || row > 65535 {
        return Event::Unknown;
    }
    match mouse_kind(number as u8, is_up) {
        None => Event::Unknown,
        Some(kind) => Event::Mouse(MouseEvent {
            kind,
            column: (column as u16).saturating_sub(1),
            row: (row as u16).saturating_sub(1),
            modifiers: mouse_modifiers(number as u8),
        }),
    }
}
