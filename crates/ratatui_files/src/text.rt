//! Texts and bytes, seen by contracts as lists of numbers.

ghost use Rattle.std.specs.Prelude.{◌≡◌, IfOk, string_bytes};

use std::alloc::{AllocError, Global};
use std::marker::Model;

/// A text, as a name or a path.
#[derive(Debug, Drop)]
pub struct Text {
    text: String,
}

impl Model for Text {
    ghost use Rattle.std.specs.Prelude.{ℕ, List, string_bytes};

    ghost Value = { List ℕ };

    ghost view = { λ text. string_bytes text.text };
}

impl Text {
    /// Takes this text.
    pub fn new(text: String) -> Text
        ensures { result ≡ string_bytes text }
    {
        Text { text }
    }

    /// Copies a text.
    ///
    /// # Errors
    ///
    /// `AllocError` if memory is refused.
    pub fn copy(alloc: Global, text: &str) -> Result<Text, AllocError>
        ensures { IfOk result (λ copy. copy ≡ text.now) }
    {
        Ok(Text {
            text: String::from_str(alloc, text)?,
        })
    }

    /// Lends it as a `str`.
    pub fn as_str(&self) -> &str
        ensures { result.now ≡ self.now }
    {
        self.text.as_str()
    }

    /// Gives its `String` back.
    pub fn into_string(self) -> String
        ensures { string_bytes result ≡ self }
    {
        self.text
    }
}

/// Some bytes, as what a file holds.
#[derive(Debug, Drop)]
pub struct Bytes {
    bytes: Vec<u8>,
}

impl Model for Bytes {
    ghost use Rattle.std.specs.Prelude.{ℕ, List};

    ghost Value = { List ℕ };

    ghost view = { λ bytes. bytes.bytes.items };
}

impl Bytes {
    /// Takes these bytes.
    pub fn new(bytes: Vec<u8>) -> Bytes
        ensures { result ≡ bytes.items }
    {
        Bytes { bytes }
    }

    /// Copies these bytes.
    ///
    /// # Errors
    ///
    /// `AllocError` if memory is refused.
    pub fn copy(alloc: Global, bytes: &[u8]) -> Result<Bytes, AllocError>
        ensures { IfOk result (λ copy. copy ≡ bytes.now) }
    {
        let mut copy = Vec::new(alloc);
        copy.extend_from_slice(bytes)?;
        Ok(Bytes { bytes: copy })
    }

    /// Lends them as a slice.
    pub fn as_slice(&self) -> &[u8]
        ensures { result.now ≡ self.now }
    {
        self.bytes.as_slice()
    }

    /// Gives their `Vec` back.
    pub fn into_vec(self) -> Vec<u8>
        ensures { result.items ≡ self }
    {
        self.bytes
    }
}
