//! Texts painted and rendered on a buffer.
use crate::buffers::letters;
use crate::outcome::{Cases, LONG, Outcome, judged};
use rtui_buffer::Buffer;
use rtui_geometry::Rect;
use rtui_style::Style;
use rtui_text::{Line, Span, Text};
use rtui_widgets::Widget;
use std::alloc::{AllocError, Global};

// What is painted.
#[derive(Debug, Drop)]
enum Painted {
    Str,
    StrN,
    Span(Span<'static>),
    Line(Line<'static>),
    RenderedStr,
    RenderedString(String),
    RenderedSpan(Span<'static>),
    RenderedLine(Line<'static>),
    RenderedText(Text<'static>),
}

fn painted_by(alloc: Global, number: usize) -> Result<Painted, AllocError> {
    Ok(match number {
        0 => Painted::Str,
        1 => Painted::StrN,
        2 => Painted::Span(Span::raw(LONG)),
        3 => Painted::Line(Line::raw(alloc, LONG)?),
        4 => Painted::RenderedStr,
        5 => Painted::RenderedString(String::from_str(alloc, LONG)?),
        6 => Painted::RenderedSpan(Span::raw(LONG)),
        7 => Painted::RenderedLine(Line::raw(alloc, LONG)?),
        _ => Painted::RenderedText(Text::raw(alloc, LONG)?),
    })
}

// Paints or renders it in the buffer's first row, from the third column on.
fn paint(buffer: &mut Buffer, painted: &Painted) -> Result<(), AllocError> {
    let area = *buffer.area();
    if area.height == 0 {
        return Ok(());
    }
    let x = area.x.saturating_add(2);
    let part = Rect {
        x,
        y: area.y,
        width: area.width.saturating_sub(2),
        height: 1,
    };
    match painted {
        Painted::Str => buffer.set_string(x, area.y, LONG, Style::new()),
        Painted::StrN => buffer
            .set_stringn(x, area.y, LONG, 4, Style::new())
            .map(|_| ()),
        Painted::Span(span) => buffer.set_span(x, area.y, span, 4).map(|_| ()),
        Painted::Line(line) => buffer.set_line(x, area.y, line, 4).map(|_| ()),
        Painted::RenderedStr => LONG.render(part, buffer),
        Painted::RenderedString(text) => text.as_str().render(part, buffer),
        Painted::RenderedSpan(span) => span.render(part, buffer),
        Painted::RenderedLine(line) => line.render(part, buffer),
        Painted::RenderedText(text) => text.render(part, buffer),
    }
}

// Whether a buffer of six columns has another's area, and its cells but for the first row from the
// third column on.
fn is_kept_outside(before: &Buffer, after: &Buffer) -> bool {
    *before.area() == *after.area()
        && before.content().iter().zip(after.content()).enumerate().all(|(place, (old, new))| (place
            >= 2
            && place < 6)
            || *old == *new)
}

// Whether the third cell has the long symbol.
fn has_symbol(buffer: &Buffer) -> bool {
    match buffer.content().get(2) {
        Some(cell) => cell.symbol() == LONG,
        None => false,
    }
}

// Paints a buffer that is like another, once more if memory is refused.
fn painted_over(painted: &Painted, buffer: &mut Buffer, before: &Buffer) -> Outcome {
    let is_refused = paint(buffer, painted).is_err();
    let is_left = is_kept_outside(before, buffer);
    let is_right = (!is_refused || paint(buffer, painted).is_ok())
        && has_symbol(buffer)
        && is_kept_outside(before, buffer);
    judged(is_refused, is_left, is_right)
}

/// Texts painted over a buffer.
pub struct Painting;

static PAINTING: [&str; 9] = [
    "set_string",
    "set_stringn",
    "set_span",
    "set_line",
    "render of a text slice",
    "render of a string",
    "render of a span",
    "render of a line",
    "render of a text",
];

impl Cases for Painting {
    fn names() -> &'static [&'static str] {
        &PAINTING
    }

    fn outcome_of(alloc: Global, number: usize) -> Result<Outcome, AllocError> {
        let painted = painted_by(alloc, number)?;
        let mut buffer = letters(alloc, 6, 2)?;
        let before = letters(alloc, 6, 2)?;
        Ok(painted_over(&painted, &mut buffer, &before))
    }
}
