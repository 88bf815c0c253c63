//! A text of its own.

ghost use Rattle.std.specs.Prelude.{◌≡◌, string_bytes};

use std::marker::Model;

/// A text that is owned.
#[derive(Debug, Drop)]
pub struct OwnText {
    text: String,
}

impl Model for OwnText {
    ghost use Rattle.std.specs.Prelude.{ℕ, List, string_bytes};

    ghost Value = { List ℕ };

    ghost view = { λ own. string_bytes own.text };
}

impl OwnText {
    /// Keeps the text of a `String`.
    pub fn new(text: String) -> OwnText
        ensures { result ≡ string_bytes text }
    {
        OwnText { text }
    }

    /// Lends the text.
    pub fn as_str(&self) -> &str
        ensures { result.now ≡ self.now }
    {
        self.text.as_str()
    }
}
