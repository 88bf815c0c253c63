//! Lists that take what an iterator gives, and are refused memory in the middle of it.
//!
//! Each has two parts, and room for four: it takes two more, and needs memory for the third. What
//! it took stays, the third is lost, and the same call then takes what the iterator still has.
ghost use Rattle.std.specs.Prelude.{◌+◌, ◌^◌, length};
ghost use Rattle.std.specs.Iterator.{YieldsFirst, at_most};
ghost use Rattle.std.specs.Vec.Iter.{into_iter_items};

use crate::outcome::{Cases, Outcome, judged};
use rtui_text::{Line, Span, Spans, Text};
use std::alloc::{AllocError, Global};
use std::{slice, vec};

static THERE: [&str; 2] = ["a", "b"];

static GIVEN: [&str; 4] = ["c", "d", "e", "f"];

// What stands after a call that wasn't refused.
static ALL: [&str; 6] = ["a", "b", "c", "d", "e", "f"];

// What stands after one that was.
static KEPT: [&str; 4] = ["a", "b", "c", "d"];

// What stands after the one that was made again.
static WITHOUT_THE_REFUSED: [&str; 5] = ["a", "b", "c", "d", "f"];

// The items of a list, said to be more than could ever lie in memory. A list that is to take items
// asks for room for as many as are said to come, and if that is refused for room for one. Of so
// many it can't even ask, so that the one request may be refused.
#[derive(Drop)]
struct Countless<T> {
    items: vec::IntoIter<T>,
}

impl<T: Drop> Countless<T> {
    fn new(items: Vec<T>) -> Countless<T> {
        Countless {
            items: items.into_iter(),
        }
    }
}

impl<T: Drop> Iterator for Countless<T> {
    type Item = T;

    ghost next_gives = { YieldsFirst (λ c. into_iter_items c.items) };

    ghost remaining = { λ c. at_most (2 ^ 64 + length (into_iter_items c.items)) };

    fn next(&mut self) -> Option<T> {
        self.items.next()
    }

    fn size_hint(&self) -> (usize, Option<usize>) {
        (usize::MAX, None)
    }
}

// A span of each text.
fn spans_of(alloc: Global, texts: &[&'static str]) -> Result<Vec<Span<'static>>, AllocError> {
    let mut spans = Vec::new(alloc);
    for text in texts {
        spans.push(Span::raw(*text))?;
    }
    Ok(spans)
}

// A line of each text.
fn lines_of(alloc: Global, texts: &[&'static str]) -> Result<Vec<Line<'static>>, AllocError> {
    let mut lines = Vec::new(alloc);
    for text in texts {
        lines.push(Line::raw(alloc, *text)?)?;
    }
    Ok(lines)
}

// Whether spans have these texts, in order.
fn spans_are(spans: &[Span<'_>], texts: &[&str]) -> bool {
    spans.len() == texts.len()
        && spans
            .iter()
            .zip(texts.iter())
            .all(|(span, text)| span.text() == *text)
}

fn line_is(line: &Line<'_>, text: &&str) -> bool {
    spans_are(line.spans.as_slice(), slice::from_ref(text))
}

// Whether a text has a line of each of these, in order.
fn lines_are(text: &Text<'_>, texts: &[&str]) -> bool {
    text.height() == texts.len()
        && text
            .iter()
            .zip(texts.iter())
            .all(|(line, text)| line_is(line, text))
}

fn spans_extended(alloc: Global) -> Result<Outcome, AllocError> {
    let mut spans = Spans::from(spans_of(alloc, &THERE)?);
    let mut more = Countless::new(spans_of(alloc, &GIVEN)?);
    if spans.extend(&mut more).is_ok() {
        let is_right = spans_are(spans.as_slice(), &ALL);
        return Ok(judged(false, true, is_right));
    }
    let is_left = spans_are(spans.as_slice(), &KEPT);
    let is_accepted = spans.extend(&mut more).is_ok();
    let is_right = is_accepted && spans_are(spans.as_slice(), &WITHOUT_THE_REFUSED);
    Ok(judged(true, is_left, is_right))
}

fn line_extended(alloc: Global) -> Result<Outcome, AllocError> {
    let mut line = Line::from(spans_of(alloc, &THERE)?);
    let mut more = Countless::new(spans_of(alloc, &GIVEN)?);
    if line.try_extend(&mut more).is_ok() {
        let is_right = spans_are(line.spans.as_slice(), &ALL);
        return Ok(judged(false, true, is_right));
    }
    let is_left = spans_are(line.spans.as_slice(), &KEPT);
    let is_accepted = line.try_extend(&mut more).is_ok();
    let is_right = is_accepted && spans_are(line.spans.as_slice(), &WITHOUT_THE_REFUSED);
    Ok(judged(true, is_left, is_right))
}

fn text_extended(alloc: Global) -> Result<Outcome, AllocError> {
    let mut text = Text::from(lines_of(alloc, &THERE)?);
    let mut more = Countless::new(lines_of(alloc, &GIVEN)?);
    if text.try_extend(&mut more).is_ok() {
        return Ok(judged(false, true, lines_are(&text, &ALL)));
    }
    let is_left = lines_are(&text, &KEPT);
    let is_accepted = text.try_extend(&mut more).is_ok();
    let is_right = is_accepted && lines_are(&text, &WITHOUT_THE_REFUSED);
    Ok(judged(true, is_left, is_right))
}

// A line of the spans that an iterator gives; refused, it keeps nothing.
fn line_gathered(alloc: Global) -> Result<Outcome, AllocError> {
    let given = Countless::new(spans_of(alloc, &GIVEN)?);
    let again = Countless::new(spans_of(alloc, &GIVEN)?);
    match Line::try_from_iter(alloc, given) {
        Ok(line) => Ok(judged(false, true, line.width() == 4)),
        Err(_) => Ok(judged(true, true, Line::try_from_iter(alloc, again)?.width() == 4)),
    }
}

// The same of a text and its lines.
fn text_gathered(alloc: Global) -> Result<Outcome, AllocError> {
    let given = Countless::new(lines_of(alloc, &GIVEN)?);
    let again = Countless::new(lines_of(alloc, &GIVEN)?);
    match Text::try_from_iter(alloc, given) {
        Ok(text) => Ok(judged(false, true, text.height() == 4)),
        Err(_) => Ok(judged(true, true, Text::try_from_iter(alloc, again)?.height() == 4)),
    }
}

/// Lists that an iterator extends.
pub struct Extends;

static EXTENDS: [&str; 5] = [
    "extend of spans",
    "try_extend of a line",
    "try_extend of a text",
    "try_from_iter of a line",
    "try_from_iter of a text",
];

impl Cases for Extends {
    fn names() -> &'static [&'static str] {
        &EXTENDS
    }

    fn outcome_of(alloc: Global, number: usize) -> Result<Outcome, AllocError> {
        match number {
            0 => spans_extended(alloc),
            1 => line_extended(alloc),
            2 => text_extended(alloc),
            3 => line_gathered(alloc),
            _ => text_gathered(alloc),
        }
    }
}
