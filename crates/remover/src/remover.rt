//! Names of files, of which the one that is selected can be removed, after a question.

ghost use Rattle.std.specs.Prelude.{◌≡◌, ◌++◌, [], false, unwrap_or, OnOk, OnErr, IfOk};
ghost use Rattle.std.specs.Prelude.{string_bytes};
ghost use Rattle.remover.specs.declared.remover.Phase.TheVariants.{Looking};
ghost use Rattle.remover.specs.Removing.{remover_by_character, remover_by_event, without_name, after_message};
ghost use Rattle.remover.specs.Removing.{asked_by, ends_in, line_shown, shown_in, question};
ghost use Rattle.remover.specs.Removing.{selected_name};

use crate::name::{Name, Names};
use ratatui_acts::{Acts, Message};
use ratatui_app::{Application, paint_line};
use ratatui_core::buffer::Buffer;
use ratatui_core::layout::{Position, Rect};
use ratatui_events::{Event, KeyCode};
use std::alloc::{AllocError, Global};

/// What keys are taken for.
#[derive(Debug, Clone, Copy, PartialEq, Eq)]
pub enum Phase {
    /// For selecting a name.
    Looking,
    /// For an answer: is the name to be removed?
    Asking,
    /// For nothing: the name is being removed.
    Removing,
    /// For nothing more.
    Over,
}

/// Names of files, of which the one that is selected can be removed.
#[derive(Drop)]
pub struct Remover {
    pub(crate) alloc: Global,
    pub(crate) names: Names,
    pub(crate) selected: usize,
    pub(crate) phase: Phase,
}

impl Remover {
    /// Takes these names, of which the first is selected.
    pub fn new(alloc: Global, names: Names) -> Remover
        ensures { result ≡ record { alloc = alloc; names = names; selected = 0; phase = Looking } }
    {
        Remover {
            alloc,
            names,
            selected: 0,
            phase: Phase::Looking,
        }
    }

    /// Returns the names that are left.
    pub fn names(&self) -> &Names
        ensures { result.now ≡ self.now.names }
    {
        &self.names
    }

    // Takes a character.
    fn take_character(&mut self, code: char)
        ensures { self.new ≡ remover_by_character code self.old.phase self.old }
    {
        match self.phase {
            Phase::Looking => match code {
                'j' => {
                    self.selected = self
                        .selected
                        .saturating_add(1)
                        .min(self.names.len().saturating_sub(1));
                }
                'k' => self.selected = self.selected.saturating_sub(1),
                'd' => self.phase = Phase::Asking,
                'q' => self.phase = Phase::Over,
                _ => {}
            },
            Phase::Asking => {
                if code == 'y' {
                    self.phase = Phase::Removing;
                } else {
                    self.phase = Phase::Looking;
                }
            }
            Phase::Removing => self.phase = Phase::Looking,
            Phase::Over => {}
        }
    }

    // Takes an event.
    fn take_event(&mut self, event: Event)
        ensures { self.new ≡ remover_by_event event self.old }
    {
        match event {
            Event::Key(key) => match key.code {
                KeyCode::Char(code) => self.take_character(code),
                _ => {}
            },
            _ => {}
        }
    }

    // The name is gone.
    fn drop_name(&mut self)
        ensures { self.new ≡ without_name self.old }
    {
        let count = self.names.len();
        if self.selected < count {
            self.names.remove(self.selected);
            self.selected = self.selected.min(count.saturating_sub(2));
        }
        self.phase = Phase::Looking;
    }

    // The name that is selected, or an empty text.
    fn name(&self) -> &str
        ensures { result.now ≡ unwrap_or (selected_name self.now) [] }
    {
        match self.names.get(self.selected) {
            Some(name) => name.as_str(),
            None => "",
        }
    }

    // What is shown.
    fn line(&self) -> Result<String, AllocError>
        ensures { IfOk result (λ text. string_bytes text ≡ line_shown self.now) }
    {
        let mut text = String::new(self.alloc);
        match self.phase {
            Phase::Looking => text.push_str(self.name())?,
            Phase::Asking | Phase::Removing => {
                text.push_str("remove ")?;
                text.push_str(self.name())?;
                text.push_str("? y/n")?;
            }
            Phase::Over => {}
        }
        Ok(text)
    }
}

impl Acts for Remover {
    ghost use Rattle.std.specs.Prelude.{◌≡◌, false, OnOk, OnErr, IfOk};
    ghost use Rattle.remover.specs.Removing.{after_message, asked_by, ends_in};

    type Command = Name;

    type Answer = bool;

    ghost updated = { after_message };

    ghost asked = { asked_by };

    ghost is_over = { λ s. ends_in s.phase };

    fn update(&mut self, message: Message<bool>) -> Result<bool, AllocError>
        ensures ok { OnOk result (self.new ≡ after_message self.old message) }
        ensures same { IfOk result (λ changed. changed ≡ false → self.new ≡ self.old) }
        ensures refused { OnErr result (self.new ≡ self.old) }
    {
        match message {
            Message::Event(event) => self.take_event(event),
            Message::Tick(_) => return Ok(false),
            Message::Answer(true) => self.drop_name(),
            Message::Answer(false) => self.phase = Phase::Looking,
        }
        Ok(true)
    }

    fn asked(&self) -> Option<&Name> {
        match self.phase {
            Phase::Removing => self.names.get(self.selected),
            _ => None,
        }
    }

    fn is_over(&self) -> bool {
        matches!(self.phase, Phase::Over)
    }
}

impl Application for Remover {
    ghost use Rattle.remover.specs.Removing.{line_shown};
    ghost use Rattle.ratatui_app.specs.Lines.{PaintsFirstLine};
    ghost use Rattle.ratatui_app.specs.LineLemmas.{line-settled};
    ghost use Rattle.ratatui_app.specs.Glass.{no_cursor};

    ghost paints = { λ s. PaintsFirstLine (line_shown s) };

    ghost cursor = { λ _. no_cursor };

    fn paint(&self, area: Rect, buf: &mut Buffer) -> Result<(), AllocError> {
        let text = self.line()?;
        paint_line(text.as_str(), area, buf)
    }

    fn cursor(&self, _area: Rect) -> Option<Position> {
        None
    }

    ghost is_settled = { λ s. line-settled (line_shown s) };
}
