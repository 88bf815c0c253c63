//! Lines and texts that take one more part.
use crate::outcome::{Cases, Outcome, judged};
use rtui_text::{Line, Span, Text};
use std::alloc::{AllocError, Global};

// A line of four spans, for which there is room, and for no more.
fn full_line(alloc: Global) -> Result<Line<'static>, AllocError> {
    let mut spans = Vec::new(alloc);
    for _ in 0..4 {
        spans.push(Span::raw("a"))?;
    }
    Ok(Line::from(spans))
}

fn span_pushed(alloc: Global) -> Result<Outcome, AllocError> {
    let mut line = full_line(alloc)?;
    let before = full_line(alloc)?;
    let is_refused = line.push_span(Span::raw("e")).is_err();
    let is_left = !is_refused || line == before;
    let is_right = !is_refused || line.push_span(Span::raw("e")).is_ok();
    Ok(judged(is_refused, is_left, is_right && line.width() == 5))
}

// A text of four lines, for which there is room, and for no more.
fn full_text(alloc: Global) -> Result<Text<'static>, AllocError> {
    let mut lines = Vec::new(alloc);
    for _ in 0..4 {
        lines.push(Line::default_in(alloc))?;
    }
    Ok(Text::from(lines))
}

fn line_pushed(alloc: Global) -> Result<Outcome, AllocError> {
    let mut text = full_text(alloc)?;
    let before = full_text(alloc)?;
    let is_refused = text.push_line(Line::default_in(alloc)).is_err();
    let is_left = !is_refused || text == before;
    let is_right = !is_refused || text.push_line(Line::default_in(alloc)).is_ok();
    Ok(judged(is_refused, is_left, is_right && text.height() == 5))
}

// A span onto a text without lines, which takes one for it.
fn span_pushed_on(alloc: Global) -> Result<Outcome, AllocError> {
    let mut text = Text::default_in(alloc);
    let is_refused = text.push_span(Span::raw("a")).is_err();
    let is_left = !is_refused || text.height() == 0;
    let is_right = !is_refused || text.push_span(Span::raw("a")).is_ok();
    Ok(judged(is_refused, is_left, is_right && text.height() == 1))
}

fn text_appended(alloc: Global) -> Result<Outcome, AllocError> {
    let mut text = full_text(alloc)?;
    let before = full_text(alloc)?;
    let more = full_text(alloc)?;
    let again = full_text(alloc)?;
    let is_refused = text.append(more).is_err();
    let is_left = !is_refused || text == before;
    let is_right = !is_refused || text.append(again).is_ok();
    Ok(judged(is_refused, is_left, is_right && text.height() == 8))
}

/// Lines and texts that grow.
pub struct Texts;

static TEXTS: [&str; 4] = [
    "push_span of a line",
    "push_line of a text",
    "push_span of a text",
    "append of a text",
];

impl Cases for Texts {
    fn names() -> &'static [&'static str] {
        &TEXTS
    }

    fn outcome_of(alloc: Global, number: usize) -> Result<Outcome, AllocError> {
        match number {
            0 => span_pushed(alloc),
            1 => line_pushed(alloc),
            2 => span_pushed_on(alloc),
            _ => text_appended(alloc),
        }
    }
}
