//! What a turn told.

ghost use Rattle.std.specs.Prelude.{◌≡◌, ◌||◌, None, true, false};
ghost use Rattle.ratatui_acts.specs.Redraws.{is_l, is_redraw};
ghost use Rattle.ratatui_acts.specs.Turns.{first_told};

use ratatui_events::{Event, KeyCode, KeyModifiers};

/// What a glass is told of a turn.
#[derive(Debug, Clone, Copy, PartialEq, Eq)]
pub struct Told {
    /// Whether what is shown may have changed.
    pub changed: bool,
    /// Whether something came; a read that gave nothing is a tick.
    pub came: bool,
    /// The last size of the terminal that was told: its columns and rows.
    pub size: Option<(u16, u16)>,
    /// Whether Ctrl+L was told: then the whole frame is drawn anew.
    pub anew: bool,
}

impl Told {
    /// Says that all may have changed, and that nothing else is known: so the first frame is shown.
    pub fn first() -> Told
        ensures { result ≡ first_told }
    {
        Told {
            changed: true,
            came: true,
            size: None,
            anew: false,
        }
    }
}

// Whether a key is the letter l.
fn is_l(code: KeyCode) -> bool
    ensures { result ≡ is_l code }
{
    match code {
        KeyCode::Char(code) => code == 'l',
        _ => false,
    }
}

// Whether an event is Ctrl+L, or one before it was.
pub(crate) fn is_anew(before: bool, event: Event) -> bool
    ensures { result ≡ (before || is_redraw event) }
{
    before || is_redraw(event)
}

// Whether an event is Ctrl+L.
fn is_redraw(event: Event) -> bool
    ensures { result ≡ is_redraw event }
{
    match event {
        Event::Key(key) => is_l(key.code) && key.modifiers == KeyModifiers::CONTROL,
        _ => false,
    }
}
