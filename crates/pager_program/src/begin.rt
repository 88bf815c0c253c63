//! What is typed first.

use std::alloc::{AllocError, Global};

/// Takes the first word that begins with `+` out of the words, and returns what comes after the
/// `+`.
pub fn taken(alloc: Global, words: &mut Vec<String>) -> Result<String, AllocError> {
    match words.iter().position(|word| word.as_str().starts_with('+')) {
        Some(at) => String::from_str(alloc, words.remove(at).as_str().get(1..).unwrap_or("")),
        None => Ok(String::new(alloc)),
    }
}

/// Returns the keys that such a word stands for: `42` goes to line 42, `/WORDS` searches, and other
/// characters are keys.
pub fn typed(mut word: String) -> Result<String, AllocError> {
    if word.as_str().starts_with(['/', '?']) {
        word.push('\r')?;
    } else if !word.is_empty() && word.as_str().bytes().all(|byte| byte.is_ascii_digit()) {
        word.push('g')?;
    }
    Ok(word)
}
