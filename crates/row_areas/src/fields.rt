//! Words: what is done to a field.

use crate::edits::Edits;
use crate::escapes::unescaped;
use ratatui_events::{Event, KeyEvent};
use std::alloc::{AllocError, Global};
use text_field::{History, Reach, TextField};

// A field, and what can be undone of it.
#[derive(Drop)]
pub(crate) struct Typing {
    field: TextField,
    history: History,
}

// A field with these texts before and after its cursor, of which nothing can be undone.
pub(crate) fn typing_of(alloc: Global, before: &str, after: &str) -> Result<Typing, AllocError> {
    let mut field = TextField::new(alloc);
    field.insert_str(after)?;
    field.move_left(Reach::All);
    field.insert_str(before)?;
    Ok(Typing {
        field,
        history: History::new(alloc, 100),
    })
}

// Gives a key to a field; answers whether it was taken or left, as is wanted.
fn press(typing: &mut Typing, name: &str, wanted: bool) -> Result<bool, AllocError> {
    match name.parse::<KeyEvent>() {
        Ok(key) => {
            let taken = typing.history.handle(&mut typing.field, &Event::Key(key))?;
            Ok(taken == wanted)
        }
        Err(_) => Ok(false),
    }
}

// Lets a field have so many characters at most.
fn keep_limit(alloc: Global, typing: &mut Typing, number: &str) -> Result<bool, AllocError> {
    let Ok(most) = number.parse::<usize>() else {
        return Ok(false);
    };
    typing.field = typing.field.clone(alloc)?.with_limit(most);
    Ok(true)
}

// Keeps so many steps from now on.
fn keep_steps(alloc: Global, typing: &mut Typing, number: &str) -> bool {
    let Ok(most) = number.parse::<usize>() else {
        return false;
    };
    typing.history = History::new(alloc, most);
    true
}

// Undoes, redoes or clears, or presses a key; answers whether there was something to do, or
// nothing, as is wanted.
fn act_plainly(typing: &mut Typing, word: &str, wanted: bool) -> Result<bool, AllocError> {
    match word {
        "undo" => Ok(typing.history.undo(&mut typing.field)? == wanted),
        "redo" => Ok(typing.history.redo(&mut typing.field)? == wanted),
        "clear" => {
            typing.field.clear();
            Ok(wanted)
        }
        _ => press(typing, word, wanted),
    }
}

// Does a word without a text of its own. After a `!` there must be nothing to do.
fn act_or_not(typing: &mut Typing, word: &str) -> Result<bool, AllocError> {
    match word.strip_prefix('!') {
        Some(name) => act_plainly(typing, name, false),
        None => act_plainly(typing, word, true),
    }
}

impl Edits for Typing {
    fn before(&self) -> &str {
        self.field.before()
    }

    fn after(&self) -> &str {
        self.field.after()
    }

    fn can_undo(&self) -> bool {
        self.history.can_undo()
    }

    fn can_redo(&self) -> bool {
        self.history.can_redo()
    }

    fn act(&mut self, alloc: Global, word: &str) -> Result<bool, AllocError> {
        let Some((name, text)) = word.split_once(':') else {
            return act_or_not(self, word);
        };
        match name {
            "insert" => {
                let whole = unescaped(alloc, text)?;
                self.field.insert_str(whole.as_str())?;
                Ok(true)
            }
            "set" => {
                let whole = unescaped(alloc, text)?;
                self.field.set_text(whole.as_str())?;
                Ok(true)
            }
            "limit" => keep_limit(alloc, self, text),
            "steps" => Ok(keep_steps(alloc, self, text)),
            _ => Ok(false),
        }
    }
}
