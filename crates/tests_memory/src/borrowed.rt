//! What makes no request for memory: copies of what borrows its text, which borrow it, too, and
//! symbols of at most 22 bytes.
use crate::outcome::{Cases, Outcome, judged};
use rtui_buffer::Buffer;
use rtui_cell::Cell;
use rtui_geometry::Rect;
use rtui_style::{Color, Style};
use rtui_text::{Masked, Span};
use std::alloc::{AllocError, Global};
use std::borrow::CowStr;

fn borrows(content: &CowStr<'_>) -> bool {
    match content {
        CowStr::Borrowed(_) => true,
        _ => false,
    }
}

fn span_copied(alloc: Global) -> Result<Outcome, AllocError> {
    let span = Span::styled("ab", Style::new().fg(Color::Red));
    match span.clone(alloc) {
        Ok(copy) => Ok(judged(false, borrows(&copy.content), copy == span)),
        Err(_) => {
            let again = span.clone(alloc)?;
            Ok(judged(true, borrows(&again.content), again == span))
        }
    }
}

// The text of a masked one is private: that the copy borrows it shows only in that no request is
// made.
fn masked_copied(alloc: Global) -> Result<Outcome, AllocError> {
    let masked = Masked::new("ab", '*');
    match masked.clone(alloc) {
        Ok(copy) => Ok(judged(false, true, copy == masked)),
        Err(_) => {
            let again = masked.clone(alloc)?;
            Ok(judged(true, true, again == masked))
        }
    }
}

// A symbol of 18 bytes: a family of three.
const FAMILY: &str = "\u{1F468}\u{200D}\u{1F469}\u{200D}\u{1F467}";

// The longest symbol that takes no memory.
const LETTERS: &str = "aaaaaaaaaaaaaaaaaaaaaa";

fn symbol_set(alloc: Global, symbol: &str, length: usize) -> Result<Outcome, AllocError> {
    let mut cell = Cell::EMPTY;
    let is_refused = cell.set_symbol(alloc, symbol).is_err();
    Ok(judged(is_refused, true, cell.symbol().len() == length))
}

fn text_painted(alloc: Global) -> Result<Outcome, AllocError> {
    let mut buffer = Buffer::empty(alloc, Rect::new(0, 0, 4, 1))?;
    let is_refused = buffer.set_string(0, 0, "コン", Style::new()).is_err();
    let is_right = buffer
        .content()
        .first()
        .is_some_and(|cell| cell.symbol() == "コ");
    Ok(judged(is_refused, true, is_right))
}

/// Copies of what is borrowed, and short symbols: they take no memory.
pub struct Borrowed;

static BORROWED: [&str; 5] = [
    "clone of a span that borrows its text: no memory",
    "clone of a masked text that borrows its own: no memory",
    "set_symbol of 18 bytes: no memory",
    "set_symbol of 22 bytes: no memory",
    "set_string of two wide characters: no memory",
];

impl Cases for Borrowed {
    fn names() -> &'static [&'static str] {
        &BORROWED
    }

    fn outcome_of(alloc: Global, number: usize) -> Result<Outcome, AllocError> {
        match number {
            0 => span_copied(alloc),
            1 => masked_copied(alloc),
            2 => symbol_set(alloc, FAMILY, 18),
            3 => symbol_set(alloc, LETTERS, 22),
            _ => text_painted(alloc),
        }
    }
}
