//! The backend in memory, and calls on it.
use crate::terminals::counts_calls;
use ratatui_core::backend::{Backend, ClearType, TestBackend, TestError, WindowSize};
use ratatui_core::buffer::{Buffer, Cell, texts_width};
use ratatui_core::layout::Position;
use row_words::answer::Answer;
use row_words::args::Args;
use row_words::buffers::put_row;
use row_words::cells::look_words;
use row_words::error::RowError;
use row_words::names::named;
use row_words::tokens::Token;
use std::alloc::{AllocError, Global};
use std::ops::Range;

// Writes a row that left the screen, and how its cells look if that isn't as usual.
fn put_row_above(row: &[Cell], out: &mut String) -> Result<(), AllocError> {
    out.push_str(", above ")?;
    put_row(row, out)?;
    for (x, cell) in row.iter().enumerate() {
        put_look_at(x, cell, out)?;
    }
    Ok(())
}

fn put_look_at(x: usize, cell: &Cell, out: &mut String) -> Result<(), AllocError> {
    let words = look_words(cell, *out.allocator())?;
    if words.is_empty() {
        return Ok(());
    }
    let words = words.as_str();
    write!(out, " {x}{words}")
}

fn put_cursor(backend: &TestBackend, out: &mut String) -> Result<(), AllocError> {
    let position = backend.cursor_position();
    let (x, y) = (position.x, position.y);
    if backend.cursor_visible() {
        write!(out, ", cursor {x} {y}")
    } else {
        write!(out, ", hidden cursor {x} {y}")
    }
}

fn put_rows_above(backend: &TestBackend, out: &mut String) -> Result<(), AllocError> {
    let above = backend.scrollback();
    if above.len() > 40 {
        let count = above.len();
        return write!(out, ", above {count} rows");
    }
    for row in above {
        put_row_above(row.as_slice(), out)?;
    }
    Ok(())
}

/// Adds what is seen of a backend: its screen, its cursor, and the rows that left the screen at its
/// top, or how many if there are many.
pub fn put_backend(backend: &TestBackend, answer: &mut Answer) -> Result<(), RowError> {
    answer.put(backend.buffer())?;
    put_cursor(backend, &mut answer.text)?;
    Ok(put_rows_above(backend, &mut answer.text)?)
}

// Adds what a call was refused for, if it was for anything but memory.
fn told(outcome: Result<(), TestError>, answer: &mut Answer) -> Result<(), RowError> {
    match outcome {
        Ok(()) => Ok(()),
        Err(TestError::Memory) => Err(RowError::Lost),
        Err(error) => answer.refused(&error),
    }
}

// Draws cells, each after its column and row.
fn draw(
    backend: &mut TestBackend,
    args: &mut Args<'_>,
    answer: &mut Answer,
) -> Result<(), RowError> {
    let (places, cells) = items(args)?;
    let mut items = Vec::new(args.alloc);
    for (place, cell) in places.iter().zip(cells.iter()) {
        items.push((place.x, place.y, cell))?;
    }
    told(backend.draw(items.into_iter()), answer)
}

// The places and the cells of a draw.
fn items(args: &mut Args<'_>) -> Result<(Vec<Position>, Vec<Cell>), RowError> {
    let mut cells = Vec::new(args.alloc);
    let mut places = Vec::new(args.alloc);
    for _ in 0..args.len() {
        if !args.is_empty() {
            places.push(args.position()?)?;
            cells.push(args.cell()?)?;
        }
    }
    Ok((places, cells))
}

/// Makes a call on a backend.
pub fn call(
    backend: &mut TestBackend,
    word: &str,
    args: &mut Args<'_>,
    answer: &mut Answer,
) -> Result<(), RowError> {
    match word {
        "clear_screen" => told(backend.clear(), answer),
        "flush_screen" => told(backend.flush(), answer),
        "hide" => told(backend.hide_cursor(), answer),
        "show" => told(backend.show_cursor(), answer),
        "draw_cells" => draw(backend, args, answer),
        _ => call_with(backend, word, args, answer),
    }
}

// A call that takes a number, a place or a part of the screen.
fn call_with(
    backend: &mut TestBackend,
    word: &str,
    args: &mut Args<'_>,
    answer: &mut Answer,
) -> Result<(), RowError> {
    match word {
        "append_lines" => told(backend.append_lines(args.u16()?), answer),
        "clear_region" => told(backend.clear_region(args.value::<ClearType>()?), answer),
        "move_cursor" => told(backend.set_cursor_position(args.position()?), answer),
        "fail_after" => {
            backend.fail_after(args.value::<u64>()?);
            Ok(())
        }
        "move_cursor_by_numbers" | "size_screen" | "scroll_region_up" | "scroll_region_down" => {
            call_with_pair(backend, word, args.pair()?, args, answer)
        }
        _ => see(backend, word, args, answer),
    }
}

fn call_with_pair(
    backend: &mut TestBackend,
    word: &str,
    (one, other): (u16, u16),
    args: &mut Args<'_>,
    answer: &mut Answer,
) -> Result<(), RowError> {
    match word {
        "move_cursor_by_numbers" => told(backend.set_cursor(one, other), answer),
        "size_screen" => Ok(backend.resize(one, other)?),
        _ => scroll(backend, word, one..other, args.u16()?, answer),
    }
}

fn scroll(
    backend: &mut TestBackend,
    word: &str,
    rows: Range<u16>,
    count: u16,
    answer: &mut Answer,
) -> Result<(), RowError> {
    if word == "scroll_region_up" {
        told(backend.scroll_region_up(rows, count), answer)
    } else {
        told(backend.scroll_region_down(rows, count), answer)
    }
}

// Asks a backend something that it can refuse, or calls it otherwise.
fn ask(
    backend: &mut TestBackend,
    word: &str,
    args: &mut Args<'_>,
    answer: &mut Answer,
) -> Result<(), RowError> {
    match word {
        "size" => answer.told(backend.size()),
        "window_size" => put_window_size(backend.window_size(), answer),
        "get_cursor_position" => answer.told(backend.get_cursor_position()),
        "get_cursor" => answer.told(backend.get_cursor()),
        _ => call(backend, word, args, answer),
    }
}

fn put_window_size(
    outcome: Result<WindowSize, TestError>,
    answer: &mut Answer,
) -> Result<(), RowError> {
    match outcome {
        Ok(size) => {
            answer.add(size.columns_rows)?;
            answer.add(size.pixels)
        }
        Err(TestError::Memory) => Err(RowError::Lost),
        Err(error) => answer.refused(&error),
    }
}

// Asks what is seen of a backend.
fn see(
    backend: &TestBackend,
    word: &str,
    args: &mut Args<'_>,
    answer: &mut Answer,
) -> Result<(), RowError> {
    match word {
        "cursor_position" => answer.add(backend.cursor_position()),
        "cursor_visible" => answer.add(backend.cursor_visible()),
        "cells_written" => answer.add(backend.cells_written() as usize),
        "scrollback" => answer.add(backend.scrollback().len()),
        "write_to" => put_written(backend, args.alloc, answer),
        _ => compare(backend, word, args, answer),
    }
}

// Compares what is seen of a backend.
fn compare(
    backend: &TestBackend,
    word: &str,
    args: &mut Args<'_>,
    answer: &mut Answer,
) -> Result<(), RowError> {
    match word {
        "lines_are" => answer.add(backend.lines_are(args.texts()?.as_slice())),
        "scrollback_is" => answer.add(backend.scrollback_is(args.texts()?.as_slice())),
        "buffer_is" => answer.add(backend.buffer_is(&filled(args)?)),
        _ => Err(RowError::Unread),
    }
}

// A buffer of an area that is full of one cell.
fn filled(args: &mut Args<'_>) -> Result<Buffer, RowError> {
    let area = args.area()?;
    let cell = args.cell()?;
    Ok(Buffer::filled(args.alloc, area, cell)?)
}

// Adds what a backend writes of itself.
fn put_written(backend: &TestBackend, alloc: Global, answer: &mut Answer) -> Result<(), RowError> {
    let mut written = Vec::new(alloc);
    if backend.write_to(&mut written).is_err() {
        return Err(RowError::Memory);
    }
    let text = String::from_utf8(written).map_err(|_| RowError::Unread)?;
    answer.add(text.as_str())
}

fn made(args: &mut Args<'_>) -> Result<TestBackend, RowError> {
    match args.word()? {
        "new" => Ok(TestBackend::new(args.alloc, args.u16()?, args.u16()?)?),
        "with_lines" => made_with_lines(args.alloc, args.texts()?.as_slice()),
        _ => Err(RowError::Unread),
    }
}

fn made_with_lines(alloc: Global, lines: &[&str]) -> Result<TestBackend, RowError> {
    if lines.len() > 65535 || texts_width(lines) > 65535 {
        return Err(RowError::Requires);
    }
    Ok(TestBackend::with_lines(alloc, lines)?)
}

/// Reads a part of the screen by its name, and prints it.
pub fn clear_type(args: &mut Args<'_>, answer: &mut Answer) -> Result<(), RowError> {
    named::<ClearType>(args, answer)
}

// One call on a backend.
fn step(
    backend: &mut TestBackend,
    alloc: Global,
    tokens: &[Token],
    answer: &mut Answer,
) -> Result<(), RowError> {
    let mut args = Args::new(alloc, tokens);
    let word = args.word()?;
    ask(backend, word, &mut args, answer)?;
    args.end()
}

/// Makes a backend, and calls on it; adds what is seen of it at the end. A call that is refused
/// memory is made once more, over what it left, unless the backend counts its calls to fail.
pub fn backend(
    alloc: Global,
    args: &mut Args<'_>,
    later: &[Vec<Token>],
    answer: &mut Answer,
) -> Result<(), RowError> {
    let mut backend = made(args)?;
    let mut is_counted = false;
    for each in later {
        let tokens = each.as_slice();
        is_counted = is_counted || counts_calls(tokens);
        let mut own = Answer::new(alloc);
        let mut done = step(&mut backend, alloc, tokens, &mut own);
        if !is_counted && matches!(done, Err(RowError::Memory)) {
            own = Answer::new(alloc);
            done = step(&mut backend, alloc, tokens, &mut own);
        }
        done?;
        answer.join(&own)?;
    }
    put_backend(&backend, answer)
}
