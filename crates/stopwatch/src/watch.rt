//! The time that has gone.

ghost use Rattle.std.specs.Prelude.{◌≡◌, true, false, None, OnOk, OnErr, IfOk};
ghost use Rattle.stopwatch.specs.Watching.{watch_after, watch_by_event, watch_by_character, seconds};

use itoa::Buffer as Digits;
use ratatui_acts::{Acts, Message, Never};
use ratatui_app::{Application, paint_line};
use ratatui_core::buffer::Buffer;
use ratatui_core::layout::{Position, Rect};
use ratatui_events::{Event, KeyCode};
use std::alloc::AllocError;

/// The time that has gone, in nanoseconds.
#[derive(Debug, Drop, Clone, Copy, PartialEq, Eq)]
pub struct Stopwatch {
    nanos: u128,
    is_running: bool,
    is_over: bool,
}

impl Stopwatch {
    /// Makes a stopwatch on which no time has gone; it runs.
    pub fn new() -> Stopwatch
        ensures { result ≡ record { nanos = 0; is_running = true; is_over = false } }
    {
        Stopwatch {
            nanos: 0,
            is_running: true,
            is_over: false,
        }
    }

    // What a character makes of it.
    fn take(&mut self, code: char)
        ensures { self.new ≡ watch_by_character code self.old }
    {
        match code {
            ' ' => self.is_running = !self.is_running,
            'r' => self.nanos = 0,
            'q' => self.is_over = true,
            _ => {}
        }
    }

    // What an event makes of it.
    fn hear(&mut self, event: Event)
        ensures { self.new ≡ watch_by_event event self.old }
    {
        match event {
            Event::Key(key) => match key.code {
                KeyCode::Char(code) => self.take(code),
                _ => {}
            },
            _ => {}
        }
    }
}

impl Acts for Stopwatch {
    type Command = Never;

    type Answer = Never;

    ghost updated = { watch_after };

    ghost asked = { λ _. None };

    ghost is_over = { λ w. w.is_over };

    fn update(&mut self, message: Message<Never>) -> Result<bool, AllocError>
        ensures ok { OnOk result (self.new ≡ watch_after self.old message) }
        ensures same { IfOk result (λ changed. changed ≡ false → self.new ≡ self.old) }
        ensures refused { OnErr result (self.new ≡ self.old) }
    {
        let before = *self;
        match message {
            Message::Event(event) => self.hear(event),
            Message::Tick(passed) => {
                if self.is_running {
                    self.nanos = self.nanos.saturating_add(passed.as_nanos());
                }
            }
            Message::Answer(_) => {}
        }
        Ok(*self != before)
    }

    fn asked(&self) -> Option<&Never> {
        None
    }

    fn is_over(&self) -> bool {
        self.is_over
    }
}

impl Application for Stopwatch {
    ghost use Rattle.ratatui_app.specs.Glass.{no_cursor};
    ghost use Rattle.ratatui_app.specs.Lines.{PaintsFirstLine};
    ghost use Rattle.ratatui_app.specs.LineLemmas.{line-settled};

    ghost paints = { λ w. PaintsFirstLine (seconds w) };

    ghost cursor = { λ _. no_cursor };

    fn paint(&self, area: Rect, buf: &mut Buffer) -> Result<(), AllocError> {
        let mut digits = Digits::new();
        paint_line(digits.format(self.nanos / 1_000_000_000), area, buf)
    }

    fn cursor(&self, _area: Rect) -> Option<Position> {
        None
    }

    ghost is_settled = { λ w. line-settled (seconds w) };
}
