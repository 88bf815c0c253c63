//! Buffers made, joined and given another area.
use crate::outcome::{Cases, LONG, Outcome, judged};
use rtui_buffer::{Buffer, lines_width, texts_width};
use rtui_geometry::Rect;
use rtui_text::Line;
use std::alloc::{AllocError, Global};
use std::slice;

// A letter of a cell by its place in the list.
fn letter(place: usize) -> char {
    match place % 5 {
        0 => 'a',
        1 => 'b',
        2 => 'c',
        3 => 'd',
        _ => 'e',
    }
}

/// Makes a buffer of this size with a letter in each cell.
pub fn letters(alloc: Global, width: u16, height: u16) -> Result<Buffer, AllocError> {
    let mut buffer = Buffer::empty(alloc, Rect::new(0, 0, width, height))?;
    for (place, cell) in buffer.cells_mut().iter_mut().enumerate() {
        cell.set_char(alloc, letter(place))?;
    }
    Ok(buffer)
}

// The area of a buffer of texts that fit 16 bits, a row each.
fn area_of_texts(alloc: Global, texts: &[&str]) -> Result<Rect, AllocError> {
    if texts.len() > 65535 || texts_width(texts) > 65535 {
        return Err(AllocError);
    }
    Ok(*Buffer::from_texts(alloc, texts)?.area())
}

// The same of lines.
fn area_of_lines(alloc: Global, lines: &[Line<'_>]) -> Result<Rect, AllocError> {
    if lines.len() > 65535 || lines_width(lines) > 65535 {
        return Err(AllocError);
    }
    Ok(*Buffer::with_lines(alloc, lines)?.area())
}

// A buffer of two rows, one of whose symbols takes memory.
fn long_rows(alloc: Global) -> Result<Buffer, AllocError> {
    let mut buffer = letters(alloc, 4, 2)?;
    if let Some(cell) = buffer.cells_mut().first_mut() {
        cell.set_symbol(alloc, LONG)?;
    }
    Ok(buffer)
}

// A buffer made of a line with a long symbol.
fn made_of_lines(alloc: Global) -> Result<Outcome, AllocError> {
    let line = Line::raw(alloc, LONG)?;
    let lines = slice::from_ref(&line);
    let wanted = Rect::new(0, 0, 2, 1);
    if let Ok(area) = area_of_lines(alloc, lines) {
        return Ok(judged(false, true, area == wanted));
    }
    let area = area_of_lines(alloc, lines)?;
    Ok(judged(true, true, area == wanted))
}

fn made_of_texts(alloc: Global) -> Result<Outcome, AllocError> {
    let wanted = Rect::new(0, 0, 2, 2);
    if let Ok(area) = area_of_texts(alloc, &[LONG, "c"]) {
        return Ok(judged(false, true, area == wanted));
    }
    let area = area_of_texts(alloc, &[LONG, "c"])?;
    Ok(judged(true, true, area == wanted))
}

// A buffer over an area of the first row, whose first symbol takes memory.
fn long_part(alloc: Global, x: u16) -> Result<Buffer, AllocError> {
    let area = Rect::new(x, 0, 2, 1);
    let mut buffer = Buffer::empty(alloc, area)?;
    if let Some(cell) = buffer.cells_mut().first_mut() {
        cell.set_symbol(alloc, LONG)?;
    }
    Ok(buffer)
}

// Lays a buffer over another, once more if memory is refused.
fn merged_with(buffer: &mut Buffer, before: &Buffer, over: &Buffer, area: Rect) -> Outcome {
    let is_refused = buffer.merge(over).is_err();
    let is_left = !is_refused || *buffer == *before;
    let is_again = !is_refused || buffer.merge(over).is_ok();
    judged(is_refused, is_left, is_again && *buffer.area() == area)
}

// A buffer with another laid over it, which begins in this column.
fn merged(alloc: Global, x: u16, area: Rect) -> Result<Outcome, AllocError> {
    let mut buffer = letters(alloc, 4, 2)?;
    let before = letters(alloc, 4, 2)?;
    let over = long_part(alloc, x)?;
    Ok(merged_with(&mut buffer, &before, &over, area))
}

// A buffer that takes a larger area, or room for one.
fn grown(alloc: Global, is_resized: bool) -> Result<Outcome, AllocError> {
    let area = Rect {
        x: 1,
        y: 2,
        width: 30,
        height: 40,
    };
    let mut buffer = long_rows(alloc)?;
    let before = long_rows(alloc)?;
    let is_refused = if is_resized {
        buffer.resize(area).is_err()
    } else {
        buffer.reserve(area).is_err()
    };
    let is_left = !is_refused || buffer == before;
    let is_again = if is_resized {
        buffer.resize(area).is_ok() && *buffer.area() == area
    } else {
        buffer.reserve(area).is_ok() && buffer == before
    };
    Ok(judged(is_refused, is_left, is_again))
}

fn cloned(alloc: Global) -> Result<Outcome, AllocError> {
    let buffer = long_rows(alloc)?;
    match buffer.clone(alloc) {
        Ok(copy) => Ok(judged(false, true, copy == buffer)),
        Err(_) => {
            let again = buffer.clone(alloc)?;
            Ok(judged(true, true, again == buffer))
        }
    }
}

/// Buffers made, joined and given another area.
pub struct Buffers;

static BUFFERS: [&str; 7] = [
    "with_lines",
    "from_texts",
    "merge inside",
    "merge that grows",
    "resize of a buffer",
    "reserve of a buffer",
    "clone of a buffer",
];

impl Cases for Buffers {
    fn names() -> &'static [&'static str] {
        &BUFFERS
    }

    fn outcome_of(alloc: Global, number: usize) -> Result<Outcome, AllocError> {
        match number {
            0 => made_of_lines(alloc),
            1 => made_of_texts(alloc),
            2 => merged(alloc, 1, Rect::new(0, 0, 4, 2)),
            3 => merged(alloc, 5, Rect::new(0, 0, 7, 2)),
            4 => grown(alloc, true),
            5 => grown(alloc, false),
            _ => cloned(alloc),
        }
    }
}
