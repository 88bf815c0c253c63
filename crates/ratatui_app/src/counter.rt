//! A number, two keys and quit.

ghost use Rattle.std.specs.Prelude.{⊤, ◌≡◌, false, None, IsOk, OnOk, OnErr, IfOk};
ghost use Rattle.ratatui_app.specs.Counting.{counter_after, counter_by_event, counter_by_character};

use crate::application::Application;
use crate::line::paint_line;
use itoa::Buffer as Digits;
use ratatui_acts::{Acts, Message, Never};
use ratatui_core::buffer::Buffer;
use ratatui_core::layout::{Position, Rect};
use ratatui_events::{Event, KeyCode};
use std::alloc::AllocError;

/// A number that `+` and `-` change, until `q`.
#[derive(Debug, Drop, Clone, Copy, PartialEq, Eq)]
pub struct Counter {
    /// The number.
    pub count: u8,
    /// Whether `q` came.
    pub is_over: bool,
}

impl Counter {
    // What a character makes of a number.
    fn take(&mut self, code: char)
        ensures { self.new ≡ counter_by_character code self.old }
    {
        match code {
            '+' => self.count = self.count.saturating_add(1),
            '-' => self.count = self.count.saturating_sub(1),
            'q' => self.is_over = true,
            _ => {}
        }
    }

    // What an event makes of it.
    fn hear(&mut self, event: Event)
        ensures { self.new ≡ counter_by_event event self.old }
    {
        match event {
            Event::Key(key) => match key.code {
                KeyCode::Char(code) => self.take(code),
                _ => {}
            },
            _ => {}
        }
    }
}

impl Acts for Counter {
    type Command = Never;

    type Answer = Never;

    ghost updated = { counter_after };

    ghost asked = { λ _. None };

    ghost is_over = { λ c. c.is_over };

    ghost is_light = { λ _ _. ⊤ };

    fn update(&mut self, message: Message<Never>) -> Result<bool, AllocError>
        ensures ok { OnOk result (self.new ≡ counter_after self.old message) }
        ensures same { IfOk result (λ changed. changed ≡ false → self.new ≡ self.old) }
        ensures refused { OnErr result (self.new ≡ self.old) }
        ensures light { IsOk result }
    {
        let before = *self;
        match message {
            Message::Event(event) => self.hear(event),
            Message::Tick(_) | Message::Answer(_) => {}
        }
        Ok(*self != before)
    }

    fn asked(&self) -> Option<&Never> {
        None
    }

    fn is_over(&self) -> bool {
        self.is_over
    }
}

impl Application for Counter {
    ghost use Rattle.std.specs.Prelude.{⊤};
    ghost use Rattle.ratatui_app.specs.Counting.{PaintsCounter};
    ghost use Rattle.ratatui_app.specs.Glass.{no_cursor};
    ghost use Rattle.std.specs.Fmt.{decimal};
    ghost use Rattle.ratatui_app.specs.LineLemmas.{line-settled};

    ghost paints = { PaintsCounter };

    ghost is_short = { λ _ _ _. ⊤ };

    ghost cursor = { λ _. no_cursor };

    fn paint(&self, area: Rect, buf: &mut Buffer) -> Result<(), AllocError> {
        let mut digits = Digits::new();
        paint_line(digits.format(self.count), area, buf)
    }

    fn cursor(&self, _area: Rect) -> Option<Position> {
        None
    }

    ghost is_settled = { λ c. line-settled (decimal c.count) };
}
