//! What may stand in a text.

ghost use Rattle.std.specs.Prelude.{◌≡◌, [], ◌∷◌, ⊤, IfOk, IsOk};
ghost use Rattle.std.specs.String.{string_bytes};
ghost use Rattle.ratatui_core.specs.Text.{LineData, line_of, raw_line};

use ratatui_core::text::{Line, Span};
use std::alloc::{AllocError, Global};

/// What becomes a line: a line, a span, and a text, as `Line::raw` and `Line::raw_string` make it.
///
/// ```
/// let text = text![in alloc; "Files".bold(), "none yet"]?; // two lines
/// ```
pub trait IntoLine<'a> {
    // the line that it becomes
    ghost as_line: { Self → LineData };

    // whether it becomes one without memory
    ghost takes_none: { Self → Type 0 } = { λ _. ⊥ };

    /// Returns the line that it becomes.
    ///
    /// # Errors
    ///
    /// `AllocError` if memory is refused. A line takes none.
    fn into_line(self, alloc: Global) -> Result<Line<'a>, AllocError>
        ensures value { IfOk result (λ line. line ≡ as_line self) }
        ensures succeeds { takes_none self → IsOk result };
}

/// The line itself.
impl<'a> IntoLine<'a> for Line<'a> {
    ghost as_line = { λ line. line };

    ghost takes_none = { λ _. ⊤ };

    fn into_line(self, alloc: Global) -> Result<Line<'a>, AllocError> {
        let _ = alloc;
        Ok(self)
    }
}

/// A line of the span alone.
impl<'a> IntoLine<'a> for Span<'a> {
    ghost as_line = { λ span. line_of (span ∷ []) };

    fn into_line(self, alloc: Global) -> Result<Line<'a>, AllocError> {
        Line::from_span(alloc, self)
    }
}

/// Borrows the text.
impl<'a> IntoLine<'a> for &'a str {
    ghost as_line = { λ text. raw_line text.now };

    fn into_line(self, alloc: Global) -> Result<Line<'a>, AllocError> {
        Line::raw(alloc, self)
    }
}

/// Copies the lines of the text.
impl<'a> IntoLine<'a> for String {
    ghost as_line = { λ text. raw_line (string_bytes text) };

    fn into_line(self, alloc: Global) -> Result<Line<'a>, AllocError> {
        Line::raw_string(alloc, self)
    }
}
