//! Calls on one buffer or on two.
ghost use Rattle.std.specs.Prelude.{◌≤◌, OnOk};
ghost use Rattle.rtui_buffer.specs.BufferData.{HasRow};

use crate::cells::change;
use ratatui_core::buffer::{Buffer, diff_rows, lines_width, texts_width};
use ratatui_core::layout::{Position, Rect};
use ratatui_core::text::{Line, Span, Text};
use ratatui_core::widgets::Widget;
use row_words::answer::Answer;
use row_words::args::Args;
use row_words::buffers::put_row;
use row_words::error::RowError;
use row_words::texts::alike;
use row_words::tokens::Token;
use std::alloc::Global;
use std::mem;

// Refuses a place that isn't in a row of the area, or is before its first column.
fn row_at(area: Rect, x: u16, y: u16) -> Result<(), RowError>
    ensures row { OnOk result (HasRow area y) }
    ensures column { OnOk result (area.x ≤ x) }
{
    if area.x <= x && area.y <= y && y - area.y < area.height {
        Ok(())
    } else {
        Err(RowError::Requires)
    }
}

// Paints on a buffer.
fn paint(
    buffer: &mut Buffer,
    word: &str,
    args: &mut Args<'_>,
    answer: &mut Answer,
) -> Result<(), RowError> {
    match word {
        "set_string" => set_string(buffer, args),
        "set_stringn" => answer.add(set_stringn(buffer, args)?),
        "set_span" => answer.add(set_span(buffer, args)?),
        "set_line" => answer.add(set_line(buffer, args)?),
        _ => match word.strip_prefix("render_") {
            Some(kind) => render(buffer, kind, args.rect()?, args),
            None => reshape(buffer, word, args, answer),
        },
    }
}

fn set_string(buffer: &mut Buffer, args: &mut Args<'_>) -> Result<(), RowError> {
    let ((x, y), text) = (args.pair()?, args.text()?);
    row_at(*buffer.area(), x, y)?;
    Ok(buffer.set_string(x, y, text, args.style())?)
}

fn set_stringn(buffer: &mut Buffer, args: &mut Args<'_>) -> Result<(u16, u16), RowError> {
    let ((x, y), text) = (args.pair()?, args.text()?);
    let max = args.value::<usize>()?;
    row_at(*buffer.area(), x, y)?;
    Ok(buffer.set_stringn(x, y, text, max, args.style())?)
}

fn set_span(buffer: &mut Buffer, args: &mut Args<'_>) -> Result<(u16, u16), RowError> {
    let (place, span) = (args.position()?, args.span()?);
    put_span(buffer, place, &span, args.u16()?)
}

fn put_span(
    buffer: &mut Buffer,
    place: Position,
    span: &Span<'_>,
    max: u16,
) -> Result<(u16, u16), RowError> {
    row_at(*buffer.area(), place.x, place.y)?;
    Ok(buffer.set_span(place.x, place.y, span, max)?)
}

fn set_line(buffer: &mut Buffer, args: &mut Args<'_>) -> Result<(u16, u16), RowError> {
    let (place, line) = (args.position()?, args.line()?);
    put_line(buffer, place, &line, args.u16()?)
}

fn put_line(
    buffer: &mut Buffer,
    place: Position,
    line: &Line<'_>,
    max: u16,
) -> Result<(u16, u16), RowError> {
    row_at(*buffer.area(), place.x, place.y)?;
    Ok(buffer.set_line(place.x, place.y, line, max)?)
}

// Renders a string, a span, a line or a text on a buffer.
fn render(
    buffer: &mut Buffer,
    kind: &str,
    area: Rect,
    args: &mut Args<'_>,
) -> Result<(), RowError> {
    match kind {
        "str" | "string" => render_text(buffer, kind, area, args),
        "span" | "lent_span" => render_span(buffer, kind, area, args.span()?),
        "line" | "lent_line" | "some_line" => render_line(buffer, kind, area, args.line()?),
        _ => render_lines(buffer, kind, area, args.lines()?),
    }
}

fn render_text(
    buffer: &mut Buffer,
    kind: &str,
    area: Rect,
    args: &mut Args<'_>,
) -> Result<(), RowError> {
    let text = args.text()?;
    row_at(*buffer.area(), area.x, area.y)?;
    if kind == "str" {
        Ok(text.render(area, buffer)?)
    } else {
        Ok(String::from_str(args.alloc, text)?.render(area, buffer)?)
    }
}

fn render_span(
    buffer: &mut Buffer,
    kind: &str,
    area: Rect,
    span: Span<'_>,
) -> Result<(), RowError> {
    let done = match kind {
        "span" => span.render(area, buffer),
        _ => (&span).render(area, buffer),
    };
    Ok(done?)
}

fn render_line(
    buffer: &mut Buffer,
    kind: &str,
    area: Rect,
    line: Line<'_>,
) -> Result<(), RowError> {
    let done = match kind {
        "line" => line.render(area, buffer),
        "lent_line" => (&line).render(area, buffer),
        _ => Some(line).render(area, buffer),
    };
    Ok(done?)
}

fn render_lines(
    buffer: &mut Buffer,
    kind: &str,
    area: Rect,
    text: Text<'_>,
) -> Result<(), RowError> {
    let done = match kind {
        "text" => text.render(area, buffer),
        "lent_text" => (&text).render(area, buffer),
        _ => return Err(RowError::Unread),
    };
    Ok(done?)
}

// Gives a buffer another area or style, or changes a cell of it.
fn reshape(
    buffer: &mut Buffer,
    word: &str,
    args: &mut Args<'_>,
    answer: &mut Answer,
) -> Result<(), RowError> {
    match word {
        "reset" => {
            buffer.reset();
            Ok(())
        }
        "set_style" => {
            buffer.set_style(args.rect()?, args.style());
            Ok(())
        }
        "resize" | "reserve" => give_area(buffer, word, args),
        "move_to" => move_to(buffer, args.position()?),
        "cell_mut" | "get_mut" | "index_mut" => {
            change_cell(buffer, word, args.position()?, args)
        }
        _ => ask(buffer, word, args, answer),
    }
}

fn give_area(buffer: &mut Buffer, word: &str, args: &mut Args<'_>) -> Result<(), RowError> {
    let area = args.area()?;
    let done = match word {
        "resize" => buffer.resize(area),
        _ => buffer.reserve(area),
    };
    Ok(done?)
}

fn move_to(buffer: &mut Buffer, to: Position) -> Result<(), RowError> {
    let size = buffer.area().as_size();
    if size.width > u16::MAX - to.x || size.height > u16::MAX - to.y {
        return Err(RowError::Requires);
    }
    buffer.move_to(to);
    Ok(())
}

// A call on a cell of a buffer that is lent.
fn change_cell(
    buffer: &mut Buffer,
    lending: &str,
    position: Position,
    args: &mut Args<'_>,
) -> Result<(), RowError> {
    if !buffer.area().contains(position) {
        return Err(RowError::Requires);
    }
    let word = args.word()?;
    match lending {
        "get_mut" => change(buffer.get_mut(position.x, position.y), word, args),
        "index_mut" => change(&mut buffer[position], word, args),
        _ => match buffer.cell_mut(position) {
            Some(cell) => change(cell, word, args),
            None => Err(RowError::Requires),
        },
    }
}

// Asks a buffer something.
fn ask(
    buffer: &Buffer,
    word: &str,
    args: &mut Args<'_>,
    answer: &mut Answer,
) -> Result<(), RowError> {
    match word {
        "area" => answer.add(*buffer.area()),
        "len" => answer.add(buffer.content().len()),
        "is_settled" => answer.add(buffer.is_settled()),
        "show" => answer.put(buffer),
        "clone" => answer.add(buffer.clone(args.alloc)?),
        "row" => put_row_of(buffer, args.u16()?, answer),
        "pos_of" => put_position_of(buffer, args.value::<usize>()?, answer),
        _ => ask_at(buffer, word, args.position()?, answer),
    }
}

fn put_row_of(buffer: &Buffer, y: u16, answer: &mut Answer) -> Result<(), RowError> {
    row_at(*buffer.area(), buffer.area().x, y)?;
    Ok(put_row(buffer.row(y), &mut answer.text)?)
}

fn put_position_of(buffer: &Buffer, index: usize, answer: &mut Answer) -> Result<(), RowError> {
    if index >= buffer.content().len() {
        return Err(RowError::Requires);
    }
    answer.add(buffer.pos_of(index))
}

// Asks a buffer something of a place, for a cell or of a place of its area.
fn ask_at(
    buffer: &Buffer,
    word: &str,
    position: Position,
    answer: &mut Answer,
) -> Result<(), RowError> {
    if word == "cell" {
        return match buffer.cell(position) {
            Some(cell) => answer.put(cell),
            None => answer.word("none"),
        };
    }
    if !buffer.area().contains(position) {
        return Err(RowError::Requires);
    }
    match word {
        "index_of" => answer.add(buffer.index_of(position.x, position.y)),
        "get" => answer.put(buffer.get(position.x, position.y)),
        "index" => answer.put(&buffer[position]),
        "index_pair" => answer.put(&buffer[(position.x, position.y)]),
        _ => Err(RowError::Unread),
    }
}

// A buffer of its own, or of cells, texts or lines.
fn made(args: &mut Args<'_>) -> Result<Buffer, RowError> {
    let alloc = args.alloc;
    match args.word()? {
        "empty" => Ok(Buffer::empty(alloc, args.area()?)?),
        "filled" => Ok(Buffer::filled(alloc, args.area()?, args.cell()?)?),
        "default" => Ok(Buffer::default_in(alloc)),
        "from_texts" => made_from_texts(alloc, args.texts()?.as_slice()),
        "with_lines" => made_with_lines(alloc, args.lines()?.lines.as_slice()),
        _ => Err(RowError::Unread),
    }
}

fn made_from_texts(alloc: Global, texts: &[&str]) -> Result<Buffer, RowError> {
    if texts.len() > 65535 || texts_width(texts) > 65535 {
        return Err(RowError::Requires);
    }
    Ok(Buffer::from_texts(alloc, texts)?)
}

fn made_with_lines(alloc: Global, lines: &[Line<'_>]) -> Result<Buffer, RowError> {
    if lines.len() > 65535 || lines_width(lines) > 65535 {
        return Err(RowError::Requires);
    }
    Ok(Buffer::with_lines(alloc, lines)?)
}

// The updates from one buffer to another.
fn put_diff(
    alloc: Global,
    former: &Buffer,
    next: &Buffer,
    answer: &mut Answer,
) -> Result<(), RowError> {
    let (area, other) = (*former.area(), *next.area());
    if other.x != area.x || other.y != area.y || other.width != area.width {
        return Err(RowError::Requires);
    }
    for (x, y, cell) in former.diff_iter(next) {
        answer.put_update(x, y, cell)?;
    }
    let count = former.diff(alloc, next)?.len();
    answer.add(count)
}

// The updates between rows of two buffers.
fn put_diff_of_rows(
    former: &Buffer,
    next: &Buffer,
    args: &mut Args<'_>,
    answer: &mut Answer,
) -> Result<(), RowError> {
    let ((first, next_first), count) = (args.pair()?, args.u16()?);
    let (area, other) = (*former.area(), *next.area());
    if other.width != area.width
        || u32::from(first) + u32::from(count) > u32::from(area.height)
        || u32::from(next_first) + u32::from(count) > u32::from(other.height)
    {
        return Err(RowError::Requires);
    }
    let mut given = 0usize;
    for (x, y, cell) in diff_rows(former, first, next, next_first, count) {
        answer.put_update(x, y, cell)?;
        given = given.saturating_add(1);
    }
    answer.add(given)
}

// Whether a call asks something, and leaves the buffers as they are.
fn is_question(word: &str) -> bool {
    matches!(
        word,
        "area"
            | "len"
            | "is_settled"
            | "show"
            | "clone"
            | "row"
            | "cell"
            | "pos_of"
            | "index_of"
            | "get"
            | "index"
            | "index_pair"
            | "equal"
            | "diff"
            | "diff_rows"
    )
}

// A call on two buffers.
fn both(
    former: &mut Buffer,
    buffer: &mut Buffer,
    word: &str,
    args: &mut Args<'_>,
    answer: &mut Answer,
) -> Result<(), RowError> {
    match word {
        "other" => {
            *former = mem::replace(buffer, made(args)?);
            Ok(())
        }
        "swap" => {
            mem::swap(former, buffer);
            Ok(())
        }
        "merge" => Ok(buffer.merge(former)?),
        "equal" => alike(former, buffer, answer),
        "diff" => put_diff(args.alloc, former, buffer, answer),
        "diff_rows" => put_diff_of_rows(former, buffer, args, answer),
        _ => paint(buffer, word, args, answer),
    }
}

// One call on two buffers; whether it asks something.
fn step(
    former: &mut Buffer,
    buffer: &mut Buffer,
    alloc: Global,
    tokens: &[Token],
    answer: &mut Answer,
) -> Result<bool, RowError> {
    let mut args = Args::new(alloc, tokens);
    let word = args.word()?;
    both(former, buffer, word, &mut args, answer)?;
    args.end()?;
    Ok(is_question(word))
}

/// Makes a buffer, and calls on it and on the one before it; then adds the buffer itself, unless
/// the last call asks something. A call that is refused memory is made once more, over what it
/// left.
pub fn buffer(
    alloc: Global,
    args: &mut Args<'_>,
    later: &[Vec<Token>],
    answer: &mut Answer,
) -> Result<(), RowError> {
    let mut former = Buffer::default_in(alloc);
    let mut buffer = made(args)?;
    let mut asked = false;
    for each in later {
        let tokens = each.as_slice();
        let mut own = Answer::new(alloc);
        let mut done = step(&mut former, &mut buffer, alloc, tokens, &mut own);
        if let Err(RowError::Memory) = done {
            own = Answer::new(alloc);
            done = step(&mut former, &mut buffer, alloc, tokens, &mut own);
        }
        asked = done?;
        answer.join(&own)?;
    }
    if asked { Ok(()) } else { answer.add(buffer) }
}
