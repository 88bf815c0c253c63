//! Texts of rows, with backslashes for characters that a row can't have.

use std::alloc::{AllocError, Global};

// The character that stands after a backslash for another one.
fn named(c: char) -> char {
    match c {
        'n' => '\n',
        'r' => '\r',
        't' => '\t',
        'e' => '\u{1b}',
        's' => ' ',
        other => other,
    }
}

// A text without backslashes.
pub(crate) fn unescaped(alloc: Global, text: &str) -> Result<String, AllocError> {
    let mut plain = String::new(alloc);
    let mut is_named = false;
    for c in text.chars() {
        if is_named {
            plain.push(named(c))?;
            is_named = false;
        } else if c == '\\' {
            is_named = true;
        } else {
            plain.push(c)?;
        }
    }
    Ok(plain)
}
