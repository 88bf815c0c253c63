//! Words: what is done to an area.

use crate::edits::Edits;
use crate::escapes::unescaped;
use ratatui_events::{Event, KeyEvent};
use std::alloc::{AllocError, Global};
use text_area::TextArea;

// Gives a key to an area; answers whether it was taken or left, as is wanted.
fn press(area: &mut TextArea, name: &str, wanted: bool) -> Result<bool, AllocError> {
    match name.parse::<KeyEvent>() {
        Ok(key) => {
            let taken = area.handle(&Event::Key(key))?;
            Ok(taken == wanted)
        }
        Err(_) => Ok(false),
    }
}

// Makes an area of a text in place of another one.
fn load(alloc: Global, area: &mut TextArea, text: &str) -> Result<bool, AllocError> {
    let whole = unescaped(alloc, text)?;
    *area = TextArea::from_text(alloc, whole)?;
    Ok(true)
}

// Pastes a text.
fn paste(alloc: Global, area: &mut TextArea, text: &str) -> Result<bool, AllocError> {
    let whole = unescaped(alloc, text)?;
    area.insert_str(whole.as_str())?;
    Ok(true)
}

// Selects a pattern where it occurs next, if it does.
fn find(alloc: Global, area: &mut TextArea, pattern: &str) -> Result<bool, AllocError> {
    let whole = unescaped(alloc, pattern)?;
    area.select_next(whole.as_str());
    Ok(true)
}

// Selects a pattern where it occurred last, if it did.
fn find_former(alloc: Global, area: &mut TextArea, pattern: &str) -> Result<bool, AllocError> {
    let whole = unescaped(alloc, pattern)?;
    area.select_former(whole.as_str());
    Ok(true)
}

// Goes to a line and a column.
fn go_to(area: &mut TextArea, place: &str) -> bool {
    let Some((line, column)) = place.split_once(':') else {
        return false;
    };
    let (Ok(line), Ok(column)) = (line.parse::<usize>(), column.parse::<usize>()) else {
        return false;
    };
    area.go_to(line, column);
    true
}

// Keeps so many steps.
fn keep_steps(area: &mut TextArea, number: &str) -> bool {
    let Ok(most) = number.parse::<usize>() else {
        return false;
    };
    area.set_steps(most);
    true
}

// Does a word without a text of its own, or presses a key.
fn act_plainly(area: &mut TextArea, word: &str) -> Result<bool, AllocError> {
    if word == "all" {
        area.select_all();
        return Ok(true);
    }
    if word == "mark" {
        area.select();
        return Ok(true);
    }
    if word == "unmark" {
        area.unselect();
        return Ok(true);
    }
    match word.strip_prefix('!') {
        Some(name) => press(area, name, false),
        None => press(area, word, true),
    }
}

// Does a word, and answers whether it was done.
fn act(alloc: Global, area: &mut TextArea, word: &str) -> Result<bool, AllocError> {
    let Some((name, text)) = word.split_once(':') else {
        return act_plainly(area, word);
    };
    match name {
        "paste" => paste(alloc, area, text),
        "load" => load(alloc, area, text),
        "find" => find(alloc, area, text),
        "former" => find_former(alloc, area, text),
        "line" => Ok(go_to(area, text)),
        "steps" => Ok(keep_steps(area, text)),
        _ => Ok(false),
    }
}

impl Edits for TextArea {
    fn before(&self) -> &str {
        self.before()
    }

    fn after(&self) -> &str {
        self.after()
    }

    fn can_undo(&self) -> bool {
        self.can_undo()
    }

    fn can_redo(&self) -> bool {
        self.can_redo()
    }

    fn act(&mut self, alloc: Global, word: &str) -> Result<bool, AllocError> {
        act(alloc, self, word)
    }
}
