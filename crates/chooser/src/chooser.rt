//! Planets, of which one is chosen.

ghost use Rattle.std.specs.Prelude.{◌≡◌, false, None, OnOk, OnErr, IfOk};
ghost use Rattle.chooser.specs.Choosing.{new_chooser, chooser_at_size, chooser_by_character, chooser_by_event};
ghost use Rattle.chooser.specs.Choosing.{chooser_after};
ghost use Rattle.ratatui_reads.specs.Reads.{size_in};

use crate::planets::planets;
use ratatui_acts::{Acts, Message, Never};
use ratatui_app::Application;
use ratatui_core::buffer::Buffer;
use ratatui_core::layout::{Position, Rect, Size};
use ratatui_core::widgets::StatefulWidget;
use ratatui_events::{Event, KeyCode};
use ratatui_reads::size_in;
use std::alloc::{AllocError, Global};
use widget_list::ListState;

/// Planets, of which one is chosen: `j` and `k` choose the next one and the one before, `q` ends.
#[derive(Drop)]
pub struct Chooser {
    pub(crate) alloc: Global,
    pub(crate) list: ListState,
    pub(crate) area: Rect,
    pub(crate) is_over: bool,
}

impl Chooser {
    /// Makes a chooser on a terminal of this size; the first planet is chosen.
    pub fn new(alloc: Global, size: Size) -> Chooser
        ensures { result ≡ new_chooser alloc size }
    {
        Chooser {
            alloc,
            list: ListState::default().with_selected(Some(0)),
            area: Rect {
                x: 0,
                y: 0,
                width: size.width,
                height: size.height,
            },
            is_over: false,
        }
    }

    /// Returns which planet is chosen, and which one stands in the first row.
    pub fn list(&self) -> ListState
        ensures { result ≡ self.now.list }
    {
        self.list
    }

    // Takes the size that an event tells, if it tells one.
    fn follow(&mut self, event: Event)
        ensures { self.new ≡ chooser_at_size (size_in event) self.old }
    {
        if let Some((width, height)) = size_in(event) {
            self.area.width = width;
            self.area.height = height;
        }
    }

    // Takes a character.
    fn take_character(&mut self, code: char)
        ensures { self.new ≡ chooser_by_character code self.old }
    {
        match code {
            'j' => self.list.select_next(),
            'k' => self.list.select_previous(),
            'q' => self.is_over = true,
            _ => {}
        }
    }

    // Takes a key, if the event is one.
    fn take(&mut self, event: Event)
        ensures { self.new ≡ chooser_by_event event self.old }
    {
        match event {
            Event::Key(key) => match key.code {
                KeyCode::Char(code) => self.take_character(code),
                _ => {}
            },
            _ => {}
        }
    }
}

impl Acts for Chooser {
    type Command = Never;

    type Answer = Never;

    ghost updated = { chooser_after };

    ghost asked = { λ _. None };

    ghost is_over = { λ c. c.is_over };

    fn update(&mut self, message: Message<Never>) -> Result<bool, AllocError>
        ensures ok { OnOk result (self.new ≡ chooser_after self.old message) }
        ensures same { IfOk result (λ changed. changed ≡ false → self.new ≡ self.old) }
        ensures refused { OnErr result (self.new ≡ self.old) }
    {
        match message {
            Message::Event(event) => {
                let list = planets(self.alloc)?;
                self.follow(event);
                self.take(event);
                list.settle(self.area, &mut self.list);
                Ok(true)
            }
            Message::Tick(_) | Message::Answer(_) => Ok(false),
        }
    }

    fn asked(&self) -> Option<&Never> {
        None
    }

    fn is_over(&self) -> bool {
        self.is_over
    }
}

impl Application for Chooser {
    ghost use Rattle.chooser.specs.Choosing.{PaintsPlanets};
    ghost use Rattle.chooser.specs.ChooserLemmas.{planets-settled};
    ghost use Rattle.ratatui_app.specs.Glass.{no_cursor};

    ghost paints = { PaintsPlanets };

    ghost cursor = { λ _. no_cursor };

    fn paint(&self, area: Rect, buf: &mut Buffer) -> Result<(), AllocError> {
        let mut state = self.list;
        planets(self.alloc)?.render(area, buf, &mut state)
    }

    fn cursor(&self, _area: Rect) -> Option<Position> {
        None
    }

    ghost is_settled = { planets-settled };
}
