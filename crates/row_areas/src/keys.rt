//! Rows of keys: a text, words, and the text that they make of it.

use crate::edits::Edits;
use crate::escapes::unescaped;
use crate::fields::{Typing, typing_of};
use std::alloc::{AllocError, Global};
use text_area::{Extent, Move, TextArea};

// An area with these texts before and after its cursor, of which nothing can be undone.
fn area_of(alloc: Global, before: &str, after: &str) -> Result<TextArea, AllocError> {
    let mut area = TextArea::new(alloc);
    area.insert_str(after)?;
    area.go(Move::Left(Extent::Text));
    area.insert_str(before)?;
    area.set_steps(100);
    area.set_page(2);
    Ok(area)
}

// What stands before the cursor in a text with a mark, and after it.
fn parts_of(text: &str) -> (&str, &str) {
    match text.split_once('|') {
        Some((before, after)) => (before, after),
        None => (text, ""),
    }
}

// Whether a text with a cursor is the one that stands here with a mark.
fn is_marked<E: Edits>(alloc: Global, edited: &E, text: &str) -> Result<bool, AllocError> {
    let (before, after) = parts_of(text);
    let before = unescaped(alloc, before)?;
    let after = unescaped(alloc, after)?;
    Ok(edited.before() == before.as_str() && edited.after() == after.as_str())
}

// Does a word; if memory is refused, all has to be as it was, and the word is done once more.
fn insist<E: Edits>(alloc: Global, edited: &mut E, word: &str) -> Result<bool, AllocError> {
    let before = String::from_str(alloc, edited.before())?;
    let after = String::from_str(alloc, edited.after())?;
    let undoes = edited.can_undo();
    let redoes = edited.can_redo();
    if let Ok(done) = edited.act(alloc, word) {
        return Ok(done);
    }
    let same = edited.before() == before.as_str() && edited.after() == after.as_str();
    if !same || edited.can_undo() != undoes || edited.can_redo() != redoes {
        return Ok(false);
    }
    edited.act(alloc, word)
}

// Does words with a blank between each two, and answers whether each was done and made this text.
fn makes<E: Edits>(
    alloc: Global,
    edited: &mut E,
    words: &str,
    wanted: &str,
) -> Result<bool, AllocError> {
    for word in words.split(' ') {
        if !insist(alloc, edited, word)? {
            return Ok(false);
        }
    }
    is_marked(alloc, edited, wanted)
}

// The three parts of a row.
fn row_parts(row: &str) -> Option<(&str, &str, &str)> {
    let (text, rest) = row.split_once('\t')?;
    let (words, wanted) = rest.split_once('\t')?;
    Some((text, words, wanted))
}

// Whether a row of an area holds.
pub(crate) fn holds(alloc: Global, row: &str) -> Result<bool, AllocError> {
    let Some((text, words, wanted)) = row_parts(row) else {
        return Ok(false);
    };
    let (before, after) = parts_of(text);
    let before = unescaped(alloc, before)?;
    let after = unescaped(alloc, after)?;
    let mut area = area_of(alloc, before.as_str(), after.as_str())?;
    makes(alloc, &mut area, words, wanted)
}

// Whether a row of a field holds.
pub(crate) fn holds_of_field(alloc: Global, row: &str) -> Result<bool, AllocError> {
    let Some((text, words, wanted)) = row_parts(row) else {
        return Ok(false);
    };
    let (before, after) = parts_of(text);
    let before = unescaped(alloc, before)?;
    let after = unescaped(alloc, after)?;
    let mut typing: Typing = typing_of(alloc, before.as_str(), after.as_str())?;
    makes(alloc, &mut typing, words, wanted)
}
