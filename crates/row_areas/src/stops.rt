//! Rows of graphemes: characters by their numbers, and where the cursor of a field stops among them.

use std::alloc::{AllocError, Global};
use text_field::{Reach, TextField};

// The character that a word is the number of, to the base 16.
fn character_of(word: &str) -> Option<char> {
    char::from_u32(u32::from_str_radix(word, 16).ok()?)
}

// The characters of a row, or of a part of it.
fn text_of(alloc: Global, row: &str) -> Result<String, AllocError> {
    let mut text = String::new(alloc);
    for word in row.split(' ') {
        if let Some(character) = character_of(word) {
            text.push(character)?;
        }
    }
    Ok(text)
}

// Whether a cursor goes to the right over these characters, no more and no less, and back.
fn goes_over(field: &mut TextField, part: &str) -> bool {
    let before = field.after().len();
    if !field.after().starts_with(part) {
        return false;
    }
    field.move_right(Reach::Grapheme);
    let goes = before.saturating_sub(field.after().len()) == part.len();
    field.move_left(Reach::Grapheme);
    let comes_back = field.after().len() == before;
    field.move_right(Reach::Grapheme);
    goes && comes_back
}

// Whether a row holds: the cursor stops where a `÷` stands, and nowhere else.
pub(crate) fn holds(alloc: Global, row: &str) -> Result<bool, AllocError> {
    let mut field = TextField::new(alloc);
    let whole = text_of(alloc, row)?;
    field.set_text(whole.as_str())?;
    field.move_left(Reach::All);
    for part in row.split('÷') {
        let text = text_of(alloc, part)?;
        if !text.is_empty() && !goes_over(&mut field, text.as_str()) {
            return Ok(false);
        }
    }
    Ok(!whole.is_empty() && field.after().is_empty())
}
