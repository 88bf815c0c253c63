//! What may stand in a line.

ghost use Rattle.std.specs.Prelude.{◌≡◌};
ghost use Rattle.std.specs.String.{string_bytes};
ghost use Rattle.ratatui_core.specs.Text.{SpanData, unstyled};

use ratatui_core::text::Span;

/// What becomes a span without taking memory: a span, and a text, which is borrowed or taken over
/// and gets the style that changes nothing.
///
/// ```
/// let line = line![in alloc; "press ", "q".bold(), " to end"]?; // a text, a span, a text
/// ```
pub trait IntoSpan<'a> {
    // the span that it becomes
    ghost as_span: { Self → SpanData };

    /// Returns the span that it becomes.
    fn into_span(self) -> Span<'a>
        ensures { result ≡ as_span self };
}

/// The span itself.
impl<'a> IntoSpan<'a> for Span<'a> {
    ghost as_span = { λ span. span };

    fn into_span(self) -> Span<'a> {
        self
    }
}

/// Borrows the text.
impl<'a> IntoSpan<'a> for &'a str {
    ghost as_span = { λ text. unstyled text.now };

    fn into_span(self) -> Span<'a> {
        Span::raw(self)
    }
}

/// Takes the text over.
impl<'a> IntoSpan<'a> for String {
    ghost as_span = { λ text. unstyled (string_bytes text) };

    fn into_span(self) -> Span<'a> {
        Span::from(self)
    }
}
