//! What rows of keys edit: a text with a cursor.

use std::alloc::{AllocError, Global};

// A text with a cursor.
pub(crate) trait Edits {
    // What stands before the cursor.
    fn before(&self) -> &str;

    // What stands after it.
    fn after(&self) -> &str;

    // Whether a step can be undone.
    fn can_undo(&self) -> bool;

    // Whether one can be redone.
    fn can_redo(&self) -> bool;

    // Does a word, and answers whether it was done.
    fn act(&mut self, alloc: Global, word: &str) -> Result<bool, AllocError>;
}
