//! What can be printed, as a text on the screen.
//!
//! Whatever prints is a [`ToSpan`], a [`ToLine`] and a [`ToText`]: its
//! printed text, owned, in the style that changes nothing. Contracts name that text if the type
//! states what it prints; if it doesn't, they say that it is some text, made so.
ghost use Rattle.std.specs.Prelude.{◌≡◌, ℕ, List, Option, IfOk, IfSome};
ghost use Rattle.rtui_text.specs.Text.{unstyled, raw_line, raw_text};

use crate::{Line, Span, Text};
use std::alloc::{AllocError, Global};
use std::fmt;

/// What can be made a span.
///
/// ```
/// let span = 42.to_span(alloc)?;
/// ```
pub trait ToSpan {
    // what it prints, if that is stated
    ghost printed_text: { Self → Option (List ℕ) };

    /// Makes a span of what it prints.
    ///
    /// # Errors
    ///
    /// `AllocError` if memory is refused.
    fn to_span(&self, alloc: Global) -> Result<Span<'static>, AllocError>
        ensures printed { IfSome (printed_text self.now)
            (λ text. IfOk result (λ span. span ≡ unstyled text)) }
        ensures of_text { IfOk result (λ span. (text : List ℕ) × (span ≡ unstyled text)) };
}

impl<T: fmt::Display> ToSpan for T {
    ghost printed_text = { T.output };

    fn to_span(&self, alloc: Global) -> Result<Span<'static>, AllocError> {
        Ok(Span::from(self.to_string(alloc)?))
    }
}

/// What can be made a line.
pub trait ToLine {
    // what it prints, if that is stated
    ghost printed_text: { Self → Option (List ℕ) };

    /// Makes a line of what it prints, as `Line::raw_string` makes it.
    ///
    /// # Errors
    ///
    /// `AllocError` if memory is refused.
    fn to_line(&self, alloc: Global) -> Result<Line<'static>, AllocError>
        ensures printed { IfSome (printed_text self.now)
            (λ text. IfOk result (λ line. line ≡ raw_line text)) }
        ensures of_text { IfOk result (λ line. (text : List ℕ) × (line ≡ raw_line text)) };
}

impl<T: fmt::Display> ToLine for T {
    ghost printed_text = { T.output };

    fn to_line(&self, alloc: Global) -> Result<Line<'static>, AllocError> {
        Line::raw_string(alloc, self.to_string(alloc)?)
    }
}

/// What can be made a text.
pub trait ToText {
    // what it prints, if that is stated
    ghost printed_text: { Self → Option (List ℕ) };

    /// Makes a text of what it prints, as `Text::raw_string` makes it.
    ///
    /// # Errors
    ///
    /// `AllocError` if memory is refused.
    fn to_text(&self, alloc: Global) -> Result<Text<'static>, AllocError>
        ensures printed { IfSome (printed_text self.now)
            (λ printed. IfOk result (λ text. text ≡ raw_text printed)) }
        ensures of_text { IfOk result (λ text. (printed : List ℕ) × (text ≡ raw_text printed)) };
}

impl<T: fmt::Display> ToText for T {
    ghost printed_text = { T.output };

    fn to_text(&self, alloc: Global) -> Result<Text<'static>, AllocError> {
        Text::raw_string(alloc, self.to_string(alloc)?)
    }
}
