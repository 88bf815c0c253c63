//! Lines and texts that are made, copied or joined.
use crate::outcome::{Cases, Outcome, judged};
use rtui_style::Style;
use rtui_text::{Line, Masked, Span, Text, ToLine, ToSpan, ToText};
use std::alloc::{AllocError, Global};
use std::slice;

// A line of a span, by one of the calls of a span.
fn line_of_span(alloc: Global, text: &str, number: usize) -> Result<Line<'_>, AllocError> {
    let span = Span::raw(text);
    match number {
        0 => span.into_left_aligned_line(alloc),
        1 => span.into_centered_line(alloc),
        2 => span.into_right_aligned_line(alloc),
        3 => span.to_left_aligned_line(alloc),
        4 => span.to_centered_line(alloc),
        5 => span.to_right_aligned_line(alloc),
        6 => Line::from_span(alloc, span),
        7 => Line::from_slice(alloc, slice::from_ref(&span)),
        8 => Line::default_in(alloc).spans(slice::from_ref(&span)),
        _ => Span::raw("").try_add(alloc, span),
    }
}

// A line that has its text.
fn owned_line(alloc: Global, text: &str) -> Result<Line<'_>, AllocError> {
    let owned = String::from_str(alloc, text)?;
    Line::raw_string(alloc, owned)
}

fn printed_line(alloc: Global, text: &str) -> Result<Line<'_>, AllocError> {
    text.to_line(alloc)
}

// The copy of a line.
fn copied_line(alloc: Global, text: &str) -> Result<Line<'_>, AllocError> {
    let line = Line::raw(alloc, text)?;
    line.clone(alloc)
}

// A line of a text, by one of the other calls.
fn line_of(alloc: Global, text: &str, number: usize) -> Result<Line<'_>, AllocError> {
    match number {
        0 => Line::raw(alloc, text),
        1 => Line::styled(alloc, text, Style::new()),
        2 => owned_line(alloc, text),
        3 => Line::default_in(alloc).try_add(Span::raw(text)),
        4 => copied_line(alloc, text),
        _ => printed_line(alloc, text),
    }
}

fn line_by(alloc: Global, text: &str, number: usize) -> Result<Line<'_>, AllocError> {
    if number < 10 {
        line_of_span(alloc, text, number)
    } else {
        line_of(alloc, text, number - 10)
    }
}

fn line_width(alloc: Global, text: &str, number: usize) -> Result<usize, AllocError> {
    Ok(line_by(alloc, text, number)?.width())
}

// A text of a line, by one of its calls.
fn text_of_line(alloc: Global, text: &str, number: usize) -> Result<Text<'_>, AllocError> {
    let line = Line::raw(alloc, text)?;
    match number {
        0 => Text::from_line(alloc, line),
        1 => Text::from_slice(alloc, slice::from_ref(&line)),
        2 => line.try_add_line(Line::default_in(alloc)),
        _ => Text::default_in(alloc).try_add_line(line),
    }
}

// A text that has its lines' texts.
fn owned_text(alloc: Global, text: &str) -> Result<Text<'_>, AllocError> {
    let owned = String::from_str(alloc, text)?;
    Text::raw_string(alloc, owned)
}

fn joined_text(alloc: Global, text: &str) -> Result<Text<'_>, AllocError> {
    let made = Text::raw(alloc, text)?;
    Text::default_in(alloc).try_add(made)
}

fn printed_text(alloc: Global, text: &str) -> Result<Text<'_>, AllocError> {
    text.to_text(alloc)
}

// The copy of a text.
fn copied_text(alloc: Global, text: &str) -> Result<Text<'_>, AllocError> {
    let made = Text::raw(alloc, text)?;
    made.clone(alloc)
}

fn spanned_text(alloc: Global, text: &str) -> Result<Text<'_>, AllocError> {
    let span = Span::raw(text);
    Text::from_span(alloc, span)
}

fn masked_text(alloc: Global, text: &str) -> Result<Text<'_>, AllocError> {
    let masked = Masked::new(text, '*');
    masked.to_text(alloc)
}

// A text, by one of the calls that borrow.
fn text_of(alloc: Global, text: &str, number: usize) -> Result<Text<'_>, AllocError> {
    match number {
        0 => Text::raw(alloc, text),
        1 => Text::styled(alloc, text, Style::new()),
        2 => joined_text(alloc, text),
        _ => copied_text(alloc, text),
    }
}

// A text of a span, or one that has its lines' texts.
fn text_of_parts(alloc: Global, text: &str, number: usize) -> Result<Text<'_>, AllocError> {
    match number {
        0 => owned_text(alloc, text),
        1 => spanned_text(alloc, text),
        2 => masked_text(alloc, text),
        _ => printed_text(alloc, text),
    }
}

fn text_by(alloc: Global, text: &str, number: usize) -> Result<Text<'_>, AllocError> {
    match number {
        0..=3 => text_of_line(alloc, text, number),
        4..=7 => text_of(alloc, text, number - 4),
        _ => text_of_parts(alloc, text, number - 8),
    }
}

fn text_width(alloc: Global, text: &str, number: usize) -> Result<usize, AllocError> {
    Ok(text_by(alloc, text, number)?.width())
}

// The copy of a span that has a text of its own.
fn copied_span(alloc: Global, text: &str) -> Result<Span<'static>, AllocError> {
    let span = Span::from(String::from_str(alloc, text)?);
    span.clone(alloc)
}

// A span of the value of a copied masked text.
fn masked_span(alloc: Global, text: &str) -> Result<Span<'static>, AllocError> {
    let masked = Masked::from_string(String::from_str(alloc, text)?, '*');
    let copy = masked.clone(alloc)?;
    Ok(Span::from(copy.value(alloc)?))
}

// A span of the joined texts of a line.
fn joined_span(alloc: Global, text: &str) -> Result<Span<'static>, AllocError> {
    let line = Line::raw_string(alloc, String::from_str(alloc, text)?)?;
    Ok(Span::from(line.try_into_string()?))
}

// A span that has a text of its own: printed, copied, masked or joined.
fn span_of(alloc: Global, text: &str, number: usize) -> Result<Span<'static>, AllocError> {
    match number {
        0 => text.to_span(alloc),
        1 => copied_span(alloc, text),
        2 => masked_span(alloc, text),
        _ => joined_span(alloc, text),
    }
}

fn span_width(alloc: Global, text: &str, number: usize) -> Result<usize, AllocError> {
    Ok(span_of(alloc, text, number)?.width())
}

// The width of what is made of a text.
fn width_of(alloc: Global, text: &str, number: usize) -> Result<usize, AllocError> {
    match number {
        0..=15 => line_width(alloc, text, number),
        16..=27 => text_width(alloc, text, number - 16),
        _ => span_width(alloc, text, number - 28),
    }
}

/// Spans, lines and texts that are made.
pub struct Made;

static MADE: [&str; 32] = [
    "into_left_aligned_line",
    "into_centered_line",
    "into_right_aligned_line",
    "to_left_aligned_line",
    "to_centered_line",
    "to_right_aligned_line",
    "from_span of a line",
    "from_slice of a line",
    "spans of a line",
    "try_add of a span",
    "raw of a line",
    "styled of a line",
    "raw_string of a line",
    "try_add of a line",
    "clone of a line",
    "to_line",
    "from_line of a text",
    "from_slice of a text",
    "try_add_line of a line",
    "try_add_line of a text",
    "raw of a text",
    "styled of a text",
    "try_add of a text",
    "clone of a text",
    "raw_string of a text",
    "from_span of a text",
    "to_text of a masked text",
    "to_text",
    "to_span",
    "clone of a span",
    "clone and value of a masked text",
    "try_into_string",
];

impl Cases for Made {
    fn names() -> &'static [&'static str] {
        &MADE
    }

    fn outcome_of(alloc: Global, number: usize) -> Result<Outcome, AllocError> {
        if let Ok(width) = width_of(alloc, "ab", number) {
            return Ok(judged(false, true, width == 2));
        }
        let width = width_of(alloc, "ab", number)?;
        Ok(judged(true, true, width == 2))
    }
}
