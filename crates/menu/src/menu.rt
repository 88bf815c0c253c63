//! What the menu is, and what keys make of it.

use ratatui_events::{Event, KeyCode, KeyEvent, KeyModifiers};
use ratatui_widgets::ListState;
use std::alloc::{AllocError, Global};
use text_field::TextField;

// What keys are taken for.
#[derive(Debug, Clone, Copy, PartialEq, Eq)]
pub enum Mode {
    // For moving in the list.
    Choosing,
    // For typing a new entry.
    Adding,
    // For an answer: is the selected entry to be removed?
    Asking,
    // For nothing more.
    Over,
}

#[derive(Drop)]
pub struct Menu {
    pub alloc: Global,
    pub entries: Vec<String>,
    pub list: ListState,
    pub mode: Mode,
    pub field: TextField,
}

impl Menu {
    // A menu of three entries.
    pub fn new(alloc: Global) -> Result<Menu, AllocError> {
        let mut entries = Vec::new(alloc);
        for text in ["Apples", "Bread", "日本茶"] {
            entries.push(String::from_str(alloc, text)?)?;
        }
        Ok(Menu {
            alloc,
            entries,
            list: ListState::default().with_selected(Some(0)),
            mode: Mode::Choosing,
            field: TextField::new(alloc).with_limit(60),
        })
    }

    pub fn is_over(&self) -> bool {
        self.mode == Mode::Over
    }

    // The entry that is selected.
    pub fn selected(&self) -> Option<&str> {
        let entry = self.entries.get(self.list.selected()?)?;
        Some(entry.as_str())
    }

    // Takes an event.
    pub fn take(&mut self, event: Event) -> Result<(), AllocError> {
        if let Event::Key(key) = event {
            let is_end = key.modifiers.contains(KeyModifiers::CONTROL)
                && key.code == KeyCode::Char('c');
            if is_end {
                self.mode = Mode::Over;
                return Ok(());
            }
        }
        match self.mode {
            Mode::Adding => self.take_typed(event),
            _ => {
                if let Event::Key(key) = event {
                    self.take_key(key);
                }
                Ok(())
            }
        }
    }

    // Takes what is typed for a new entry.
    fn take_typed(&mut self, event: Event) -> Result<(), AllocError> {
        match event {
            Event::Key(
                KeyEvent {
                    code: KeyCode::Enter,
                    ..
                },
            ) => self.add(),
            Event::Key(
                KeyEvent {
                    code: KeyCode::Esc,
                    ..
                },
            ) => {
                self.mode = Mode::Choosing;
                Ok(())
            }
            _ => {
                let _is_taken = self.field.handle(&event)?;
                Ok(())
            }
        }
    }

    // Adds what was typed to the list.
    fn add(&mut self) -> Result<(), AllocError> {
        if !self.field.is_empty() {
            let text = String::from_str(self.alloc, self.field.text())?;
            self.entries.push(text)?;
            self.list.select_last();
        }
        self.field.clear();
        self.mode = Mode::Choosing;
        Ok(())
    }

    // Takes a key that isn't typed.
    fn take_key(&mut self, key: KeyEvent) {
        if self.mode == Mode::Asking {
            if key.code == KeyCode::Char('y') {
                self.remove();
            }
            self.mode = Mode::Choosing;
            return;
        }
        match key.code {
            KeyCode::Down | KeyCode::Char('j') => self.list.select_next(),
            KeyCode::Up | KeyCode::Char('k') => self.list.select_previous(),
            KeyCode::Char('a') => self.mode = Mode::Adding,
            KeyCode::Char('d') if !self.entries.is_empty() => self.mode = Mode::Asking,
            KeyCode::Char('q') => self.mode = Mode::Over,
            _ => {}
        }
    }

    // Removes the selected entry.
    fn remove(&mut self) {
        if let Some(at) = self.list.selected() {
            if at < self.entries.len() {
                let _entry = self.entries.remove(at);
            }
        }
    }
}
