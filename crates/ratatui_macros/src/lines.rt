//! Lines, span by span.

ghost use Rattle.std.specs.Prelude.{◌≡◌, ℕ, ◌+◌, ◌++◌, [], ◌∷◌, IfOk, IsOk};
ghost use Rattle.std.specs.String.{string_bytes};
ghost use Rattle.ratatui_core.specs.Text.{unstyled, line_of};
ghost use Rattle.ratatui_macros.specs.Made.{HasRoomLeft, IsMadeBy};

use crate::into_span::IntoSpan;
use ratatui_core::style::Style;
use ratatui_core::text::{Line, Span};
use std::alloc::AllocError;

/// A line of these parts, each a span, a `&str` or a `String`: a `Result<Line, AllocError>`. It
/// takes memory once, for the list, and none for an empty one.
///
/// ```
/// let line = line![in alloc; "press ", "q".bold(), " to end"]?;
/// ```
#[macro_export]
macro_rules! line {
    (in $alloc:expr $(;)?) => {
        $crate::line_of($crate::with_room($alloc, 0))
    };
    (in $alloc:expr; $($part:expr),+ $(,)?) => {
        $crate::line!(@ $crate::with_room($alloc, $crate::part_count!($($part),+)), $($part),+)
    };
    (@ $spans:expr, $part:expr) => {
        $crate::line_of($crate::with_span($spans, $part))
    };
    (@ $spans:expr, $part:expr, $($rest:expr),+) => {
        $crate::line!(@ $crate::with_span($spans, $part), $($rest),+)
    };
    ($($rest:tt)*) => {
        compile_error!("`line!` takes an allocator first: write `line![in alloc; \"a\", \"b\".bold()]?`")
    };
}

/// A span of a formatted text, in a style if one stands before it: a `Result<Span, AllocError>`. A
/// style may be a `Style`, a `Color` or a `Modifier`, and whatever else becomes a `Style`.
///
/// ```
/// let load = span!(in alloc; "{}%", cpu)?;
/// let load = span!(in alloc; Color::Red; "{}%", cpu)?;
/// ```
#[macro_export]
macro_rules! span {
    ($format:literal $($rest:tt)*) => {
        compile_error!("`span!` takes an allocator first: write `span!(in alloc; \"..\")?`; a text without holes needs no memory: `Span::raw(\"..\")`")
    };
    (in $alloc:expr; $format:literal $($rest:tt)*) => {
        $crate::span_of(format!(in $alloc; $format $($rest)*))
    };
    (in $alloc:expr; $style:expr; $($rest:tt)+) => {
        $crate::styled_span_of(format!(in $alloc; $($rest)+), $crate::Style::from($style))
    };
    ($($rest:tt)*) => {
        $crate::span!("")
    };
}

/// Adds a part after the spans; refused spans stay refused.
///
/// # Errors
///
/// `AllocError` if the spans were refused, or if memory is. With room for one it isn't.
pub fn with_span<'a, S: IntoSpan<'a> + Drop>(
    spans: Result<Vec<Span<'a>>, AllocError>,
    part: S,
) -> Result<Vec<Span<'a>>, AllocError>
    ensures value { IsMadeBy (λ was made. made.items ≡ was.items ++ S.as_span part ∷ [])
        spans.entry result }
    ensures succeeds { IfOk spans.entry (λ was. HasRoomLeft 1 was → IsOk result) }
    ensures room { (n : ℕ) → IsMadeBy (λ was made. HasRoomLeft (n + 1) was → HasRoomLeft n made)
        spans.entry result }
{
    let mut spans = spans?;
    spans.push(part.into_span())?;
    Ok(spans)
}

/// Makes a line of these spans; refused spans stay refused.
///
/// # Errors
///
/// `AllocError` if the spans were refused.
pub fn line_of<'a>(spans: Result<Vec<Span<'a>>, AllocError>) -> Result<Line<'a>, AllocError>
    ensures value { IsMadeBy (λ spans line. line ≡ line_of spans.items) spans.entry result }
    ensures succeeds { IsOk spans.entry → IsOk result }
{
    Ok(Line::from(spans?))
}

/// Makes a span that takes a text over; a refused text stays refused.
///
/// # Errors
///
/// `AllocError` if the text was refused.
pub fn span_of(text: Result<String, AllocError>) -> Result<Span<'static>, AllocError>
    ensures value { IsMadeBy (λ text span. span ≡ unstyled (string_bytes text)) text result }
    ensures succeeds { IsOk text → IsOk result }
{
    Ok(Span::from(text?))
}

/// Makes a span that takes a text over, in a style; a refused text stays refused.
///
/// # Errors
///
/// `AllocError` if the text was refused.
pub fn styled_span_of(
    text: Result<String, AllocError>,
    style: Style,
) -> Result<Span<'static>, AllocError>
    ensures value { IsMadeBy (λ text span. span ≡ record { style = style; content = string_bytes text })
        text result }
    ensures succeeds { IsOk text → IsOk result }
{
    Ok(Span::from(text?).style(style))
}
