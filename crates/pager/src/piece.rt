//! Pieces of a text.

use crate::styles::Styles;

/// What a text that grows asks for: its next piece.
#[derive(Debug, Drop, Clone, Copy, PartialEq, Eq)]
pub struct More;

/// Whole lines of a text, and their styles.
#[derive(Drop)]
pub struct Piece<'a> {
    /// The lines. They end with a line's end, unless they are the last ones.
    pub text: &'a str,
    /// The styles of the lines.
    pub styles: Styles,
    /// Whether no other piece comes after it, unless the text grows.
    pub is_last: bool,
    /// Whether there was nothing to give; the next piece is asked for after a while.
    pub rests: bool,
}
