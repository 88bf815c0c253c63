//! Terminals over the backend in memory, and calls on them.
ghost use Rattle.rtui_viewport.specs.Viewports.{FitsEdges};
ghost use Rattle.std.specs.Prelude.{IfOk};

use crate::backends::{self, put_backend};
use ratatui_core::backend::{Backend, TestBackend, TestError};
use ratatui_core::buffer::{Buffer, Cell, CellDiffOption};
use ratatui_core::layout::{Position, Rect};
use ratatui_core::terminal::{Frame, Terminal, TerminalError, TerminalOptions, Viewport};
use ratatui_core::text::Text;
use ratatui_core::widgets::Widget;
use row_words::answer::{Answer, Show};
use row_words::args::Args;
use row_words::error::RowError;
use row_words::tokens::Token;
use std::alloc::{AllocError, Global};

// What a call is refused for, if it is.
type Outcome = Result<(), TerminalError<TestError>>;

// What a frame or rows are painted with: a text, or its characters, each in a column of its own.
#[derive(Drop)]
struct Content<'a> {
    text: Text<'a>,
    by_characters: bool,
}

// A frame's content and where its cursor is, if it is shown.
#[derive(Drop)]
struct Picture<'a> {
    content: Content<'a>,
    cursor: Option<Position>,
}

fn read_content<'a>(args: &mut Args<'a>) -> Result<Content<'a>, RowError> {
    let by_characters = args.takes("chars");
    let text = args.lines()?;
    Ok(Content {
        text,
        by_characters,
    })
}

// A content, and after a comma `cursor` and its place.
fn read_picture<'a>(args: &mut Args<'a>) -> Result<Picture<'a>, RowError> {
    let content = read_content(args)?;
    args.skip_comma();
    let cursor = if args.takes("cursor") {
        Some(args.position()?)
    } else {
        None
    };
    Ok(Picture { content, cursor })
}

fn read_viewport(args: &mut Args<'_>) -> Result<Viewport, RowError>
    ensures { IfOk result FitsEdges }
{
    match args.word()? {
        "screen" => Ok(Viewport::Fullscreen),
        "inline" => Ok(Viewport::Inline(args.u16()?)),
        "fixed" => Ok(Viewport::Fixed(args.area()?)),
        _ => Err(RowError::Unread),
    }
}

// Sets the characters of a text in a row, from a column on.
fn set_characters(
    alloc: Global,
    buffer: &mut Buffer,
    from: Position,
    text: &str,
) -> Result<(), AllocError> {
    let mut place = from;
    for ch in text.chars() {
        if let Some(cell) = buffer.cell_mut(place) {
            cell.set_char(alloc, ch)?;
        }
        place.x = place.x.saturating_add(1);
    }
    Ok(())
}

impl Content<'_> {
    fn paint(&self, alloc: Global, buffer: &mut Buffer) -> Result<(), AllocError> {
        let area = *buffer.area();
        if !self.by_characters {
            return (&self.text).render(area, buffer);
        }
        let mut place = area.as_position();
        for line in self.text.lines.iter() {
            for span in line.spans.iter() {
                set_characters(alloc, buffer, place, span.text())?;
            }
            place.y = place.y.saturating_add(1);
        }
        Ok(())
    }
}

impl Picture<'_> {
    fn paint(&self, alloc: Global, frame: &mut Frame<'_>) -> Result<(), AllocError> {
        if let Some(position) = self.cursor {
            frame.set_cursor_position(position);
        }
        self.content.paint(alloc, frame.buffer_mut())
    }

    fn try_paint(&self, alloc: Global, frame: &mut Frame<'_>) -> Result<(), TestError> {
        self.paint(alloc, frame).map_err(|_| TestError::Memory)
    }
}

fn draw(alloc: Global, terminal: &mut Terminal<TestBackend>, picture: &Picture<'_>) -> Outcome {
    terminal.draw(|frame| picture.paint(alloc, frame))?;
    Ok(())
}

fn draw_anew(
    alloc: Global,
    terminal: &mut Terminal<TestBackend>,
    picture: &Picture<'_>,
) -> Outcome {
    terminal.draw(|frame| {
        frame.buffer_mut().reset();
        picture.paint(alloc, frame)
    })?;
    Ok(())
}

fn try_draw(alloc: Global, terminal: &mut Terminal<TestBackend>, picture: &Picture<'_>) -> Outcome {
    terminal.try_draw(|frame| picture.try_paint(alloc, frame))?;
    Ok(())
}

// Has the first cell of a buffer drawn each time.
fn set_always(buffer: &mut Buffer) {
    if let Some(cell) = buffer.cell_mut(Position::ORIGIN) {
        cell.diff_option = CellDiffOption::AlwaysUpdate;
    }
}

fn draw_always(terminal: &mut Terminal<TestBackend>) -> Outcome {
    terminal.draw(|frame| {
        set_always(frame.buffer_mut());
        Ok(())
    })?;
    Ok(())
}

fn draw_resized(terminal: &mut Terminal<TestBackend>, width: u16, height: u16) -> Outcome {
    let area = Rect::new(0, 0, width, height);
    terminal.draw(|frame| frame.buffer_mut().resize(area))?;
    Ok(())
}

fn draw_told(terminal: &mut Terminal<TestBackend>) -> Outcome {
    terminal.try_draw(|_| Err(TestError::Told))?;
    Ok(())
}

fn draw_refused(terminal: &mut Terminal<TestBackend>) -> Outcome {
    terminal.draw(|_| Err(AllocError))?;
    Ok(())
}

fn apply(terminal: &mut Terminal<TestBackend>, cursor: Option<Position>) -> Outcome {
    let drawn = match cursor {
        Some(_) => terminal.apply_buffer_with_cursor(cursor),
        None => terminal.apply_buffer(),
    };
    drawn?;
    Ok(())
}

// Inserts so many rows with this content.
fn insert(
    alloc: Global,
    terminal: &mut Terminal<TestBackend>,
    height: u16,
    content: &Content<'_>,
) -> Outcome {
    terminal.insert_before(height, |rows| content.paint(alloc, rows))
}

fn insert_resized(terminal: &mut Terminal<TestBackend>, width: u16, height: u16) -> Outcome {
    let area = Rect::new(0, 0, width, height);
    terminal.insert_before(2, |rows| rows.resize(area))
}

fn insert_refused(terminal: &mut Terminal<TestBackend>) -> Outcome {
    terminal.insert_before(2, |_| Err(AllocError))
}

// Gives the current buffer the viewport's area.
fn mend_buffer(terminal: &mut Terminal<TestBackend>) -> Result<(), RowError> {
    let area = terminal.viewport_area();
    let area = Rect::new(area.x, area.y, area.width, area.height);
    Ok(terminal.current_buffer_mut().resize(area)?)
}

// A call that a terminal can refuse, and that takes nothing.
fn call(
    terminal: &mut Terminal<TestBackend>,
    word: &str,
    args: &mut Args<'_>,
    answer: &mut Answer,
) -> Result<(), RowError> {
    match word {
        "clear" => told(terminal.clear(), answer),
        "autoresize" => told(terminal.autoresize(), answer),
        "flush" => told(terminal.flush(), answer),
        "hide_cursor" => told(terminal.hide_cursor(), answer),
        "show_cursor" => told(terminal.show_cursor(), answer),
        "apply_buffer" => told(apply(terminal, None), answer),
        "draw_always" => told(draw_always(terminal), answer),
        "draw_without_memory" => told(draw_refused(terminal), answer),
        "try_draw_told" => told(draw_told(terminal), answer),
        "insert_without_memory" => told(insert_refused(terminal), answer),
        _ => call_with(terminal, word, args, answer),
    }
}

// A call that a terminal can refuse, and that takes something.
fn call_with(
    terminal: &mut Terminal<TestBackend>,
    word: &str,
    args: &mut Args<'_>,
    answer: &mut Answer,
) -> Result<(), RowError> {
    match word {
        "draw" | "draw_anew" | "try_draw" => {
            told(
                draw_as(word, args.alloc, terminal, &read_picture(args)?),
                answer,
            )
        }
        "insert" => {
            let height = args.u16()?;
            told(
                insert(args.alloc, terminal, height, &read_content(args)?),
                answer,
            )
        }
        "resize" => told(terminal.resize(args.area()?), answer),
        "set_cursor_position" | "apply_buffer_with_cursor" => {
            told(at_cursor(terminal, word, args.position()?), answer)
        }
        "set_cursor" | "draw_resized" | "insert_resized" => {
            told(with_pair(terminal, word, args.pair()?), answer)
        }
        _ => touch(terminal, word, args, answer),
    }
}

fn draw_as(
    word: &str,
    alloc: Global,
    terminal: &mut Terminal<TestBackend>,
    picture: &Picture<'_>,
) -> Outcome {
    match word {
        "draw" => draw(alloc, terminal, picture),
        "draw_anew" => draw_anew(alloc, terminal, picture),
        _ => try_draw(alloc, terminal, picture),
    }
}

fn at_cursor(terminal: &mut Terminal<TestBackend>, word: &str, position: Position) -> Outcome {
    match word {
        "set_cursor_position" => terminal.set_cursor_position(position),
        _ => apply(terminal, Some(position)),
    }
}

fn with_pair(
    terminal: &mut Terminal<TestBackend>,
    word: &str,
    (one, other): (u16, u16),
) -> Outcome {
    match word {
        "set_cursor" => terminal.set_cursor(one, other),
        "draw_resized" => draw_resized(terminal, one, other),
        _ => insert_resized(terminal, one, other),
    }
}

// A call that makes none of the backend's, or one of the backend.
fn touch(
    terminal: &mut Terminal<TestBackend>,
    word: &str,
    args: &mut Args<'_>,
    answer: &mut Answer,
) -> Result<(), RowError> {
    match word {
        "swap_buffers" => {
            terminal.swap_buffers();
            Ok(())
        }
        "paint" => paint(terminal, args),
        "mend_buffer" => mend_buffer(terminal),
        "viewport_area" => answer.add(terminal.viewport_area()),
        "is_cursor_hidden" => answer.add(terminal.is_cursor_hidden()),
        "current_buffer" => answer.put(terminal.current_buffer_mut()),
        "frame" => put_frame(terminal, answer),
        "size" => answer.told(terminal.size()),
        "get_cursor_position" => answer.told(terminal.get_cursor_position()),
        "get_cursor" => answer.told(terminal.get_cursor()),
        _ => backends::call(terminal.backend_mut(), word, args, answer),
    }
}

// Paints on the current buffer.
fn paint(terminal: &mut Terminal<TestBackend>, args: &mut Args<'_>) -> Result<(), RowError> {
    let content = read_content(args)?;
    Ok(content.paint(args.alloc, terminal.current_buffer_mut())?)
}

// Adds the area, the size and the number of the next frame.
fn put_frame(terminal: &mut Terminal<TestBackend>, answer: &mut Answer) -> Result<(), RowError> {
    let frame = terminal.get_frame();
    answer.add(frame.area())?;
    answer.add(frame.size())?;
    answer.add(frame.count())
}

// Adds what a call was refused for, if it was for anything but memory.
fn told(outcome: Outcome, answer: &mut Answer) -> Result<(), RowError> {
    match outcome {
        Ok(()) => Ok(()),
        Err(TerminalError::Memory) => Err(RowError::Memory),
        Err(TerminalError::Backend(TestError::Memory)) => Err(RowError::Lost),
        Err(error) => answer.refused(&error),
    }
}

// One call on a terminal, its buffer or its backend.
fn step(
    terminal: &mut Terminal<TestBackend>,
    alloc: Global,
    tokens: &[Token],
    answer: &mut Answer,
) -> Result<(), RowError> {
    let mut args = Args::new(alloc, tokens);
    let word = args.word()?;
    call(terminal, word, &mut args, answer)?;
    args.end()
}

// The same, made once more over what it left if memory was refused; it can be refused for want of
// memory only if it is so twice. Where calls of the backend are counted, none is made twice.
fn step_again(
    terminal: &mut Terminal<TestBackend>,
    alloc: Global,
    tokens: &[Token],
    is_counted: bool,
) -> Result<Answer, RowError> {
    let mut answer = Answer::new(alloc);
    match step(terminal, alloc, tokens, &mut answer) {
        Ok(()) => return Ok(answer),
        Err(RowError::Memory) if !is_counted => {}
        Err(fault) => return Err(fault),
    }
    let mut answer = Answer::new(alloc);
    match step(terminal, alloc, tokens, &mut answer) {
        Ok(()) => {}
        Err(RowError::Memory) => answer.refused(&TerminalError::<TestError>::Memory)?,
        Err(fault) => return Err(fault),
    }
    Ok(answer)
}

// Puts a symbol in each column of each row.
fn fill(backend: &mut TestBackend, symbol: &Cell) -> Result<(), TestError> {
    let area = *backend.buffer().area();
    backend.draw(area.positions().map(|place| (place.x, place.y, symbol)))
}

// Whether a step tells the backend after how many calls it fails.
pub(crate) fn counts_calls(tokens: &[Token]) -> bool {
    match tokens.first() {
        Some(Token::Word(word)) => word.as_str() == "fail_after",
        _ => false,
    }
}

// A screen of a size, prepared, and whether its calls are counted.
fn screen(args: &mut Args<'_>) -> Result<(TestBackend, bool), RowError> {
    let (width, height) = args.pair()?;
    let mut backend = TestBackend::new(args.alloc, width, height)?;
    let is_counted = prepare(&mut backend, args)?;
    Ok((backend, is_counted))
}

// What stands after commas: `full` with a symbol for each cell, `cursor` with its place,
// `fail_after` with a number; whether that stands there.
fn prepare(backend: &mut TestBackend, args: &mut Args<'_>) -> Result<bool, RowError> {
    args.skip_comma();
    if args.takes("full") {
        fill_screen(backend, args)?;
    }
    if args.takes("cursor") {
        place_cursor(backend, args)?;
    }
    let is_counted = args.takes("fail_after");
    if is_counted {
        backend.fail_after(args.value::<u64>()?);
        args.skip_comma();
    }
    Ok(is_counted)
}

fn fill_screen(backend: &mut TestBackend, args: &mut Args<'_>) -> Result<(), RowError> {
    let symbol = Cell::new(args.alloc, args.text()?)?;
    args.skip_comma();
    fill(backend, &symbol).map_err(|_| RowError::Memory)
}

fn place_cursor(backend: &mut TestBackend, args: &mut Args<'_>) -> Result<(), RowError> {
    let position = args.position()?;
    args.skip_comma();
    backend
        .set_cursor_position(position)
        .map_err(|_| RowError::Memory)
}

// Makes calls on a terminal; what is seen of its screen at the end, and its viewport.
fn play(
    terminal: &mut Terminal<TestBackend>,
    alloc: Global,
    steps: &[Vec<Token>],
    is_counted: bool,
    answer: &mut Answer,
) -> Result<(), RowError> {
    let mut is_counted = is_counted;
    for step in steps {
        let tokens = step.as_slice();
        is_counted = is_counted || counts_calls(tokens);
        let own = step_again(terminal, alloc, tokens, is_counted)?;
        answer.join(&own)?;
    }
    put_backend(terminal.backend(), answer)?;
    answer.word("viewport ")?;
    Ok(terminal.viewport_area().show(&mut answer.text)?)
}

/// Makes a terminal, and calls on it; adds what is seen of its screen at the end, and its viewport.
/// A call that is refused memory is made once more, over what it left, unless the backend counts
/// its calls to fail.
pub fn terminal(
    alloc: Global,
    args: &mut Args<'_>,
    later: &[Vec<Token>],
    answer: &mut Answer,
) -> Result<(), RowError> {
    let (backend, is_counted) = screen(args)?;
    let viewport = read_viewport(args)?;
    args.end()?;
    match Terminal::with_options(alloc, backend, TerminalOptions { viewport }) {
        Ok(mut terminal) => play(&mut terminal, alloc, later, is_counted, answer),
        Err(error) => told(Err(error), answer),
    }
}
