//! Workloads on a terminal.
use crate::memory::Memory;
use crate::pictures::{Paint, Picture, texts};
use crate::texts::{LOG, sum};
use crate::{Done, Size, dashboard};
use ratatui_ansi::AnsiBackend;
use ratatui_core::backend::{Backend, TestBackend};
use ratatui_core::buffer::Buffer;
use ratatui_core::layout::{Rect, Size as ScreenSize};
use ratatui_core::style::{Color, Style};
use ratatui_core::terminal::{Terminal, TerminalOptions, Viewport};
use std::alloc::{AllocError, Global};

/// What a round does on a terminal: rows come in above an inline viewport, and a picture is drawn.
#[derive(Clone, Copy)]
pub struct Act {
    /// The rows of an inline viewport; none for the whole screen.
    viewport: Option<u16>,
    inserted: u16,
    picture: Option<Picture>,
}

impl Act {
    /// Draws a picture of the round on the whole screen.
    pub fn draw(picture: Picture) -> Act {
        Act {
            viewport: None,
            inserted: 0,
            picture: Some(picture),
        }
    }

    /// Draws a picture of the round on an inline viewport of so many rows.
    pub fn inline(rows: u16, picture: Picture) -> Act {
        Act {
            viewport: Some(rows),
            inserted: 0,
            picture: Some(picture),
        }
    }

    /// Inserts rows above an inline viewport of five rows, and draws the same picture each time, if
    /// any.
    pub fn insert(rows: u16, picture: Option<Picture>) -> Act {
        Act {
            viewport: Some(5),
            inserted: rows,
            picture,
        }
    }

    // Which picture is drawn in a round.
    fn shown_in(self, round: u64) -> u64 {
        if self.inserted > 0 { 0 } else { round }
    }
}

// A terminal over a backend, with a viewport of so many rows or the whole screen.
fn terminal_of<B: Backend + Drop>(
    alloc: Global,
    backend: B,
    rows: Option<u16>,
) -> Result<Terminal<B>, AllocError> {
    let viewport = match rows {
        Some(rows) => Viewport::Inline(rows),
        None => Viewport::Fullscreen,
    };
    match Terminal::with_options(alloc, backend, TerminalOptions { viewport }) {
        Ok(terminal) => Ok(terminal),
        Err(_) => Err(AllocError),
    }
}

fn draw<B: Backend + Drop>(
    alloc: Global,
    terminal: &mut Terminal<B>,
    paint: &Paint,
    round: u64,
) -> Result<(), AllocError> {
    match terminal.draw(|frame| paint.paint(alloc, frame.buffer_mut(), round)) {
        Ok(_) => Ok(()),
        Err(_) => Err(AllocError),
    }
}

fn insert<B: Backend + Drop>(terminal: &mut Terminal<B>, rows: u16) -> Result<(), AllocError> {
    let style = Style::new().fg(Color::Yellow);
    match terminal.insert_before(rows, |buffer| texts(buffer, LOG, style)) {
        Ok(_) => Ok(()),
        Err(_) => Err(AllocError),
    }
}

// Does all rounds.
fn rounds<B: Backend + Drop>(
    alloc: Global,
    terminal: &mut Terminal<B>,
    act: Act,
    count: u64,
) -> Result<(), AllocError> {
    let paint = Paint::new(alloc, act.picture.unwrap_or(Picture::Nothing))?;
    for round in 0..count {
        if act.inserted > 0 {
            insert(terminal, act.inserted)?;
        }
        if act.picture.is_some() {
            draw(alloc, terminal, &paint, act.shown_in(round))?;
        }
    }
    Ok(())
}

// A sum over what the last round paints; of a dashboard over its upper part, since the twin's gauge
// is filled by other symbols.
fn last_sum(alloc: Global, size: Size, act: Act) -> Result<u64, AllocError> {
    let rows = act.viewport.unwrap_or(size.height);
    let mut last = Buffer::empty(alloc, Rect::new(0, 0, size.width, rows))?;
    let picture = act.picture.unwrap_or(Picture::Nothing);
    let round = act.shown_in(size.count.saturating_sub(1));
    if picture == Picture::Dashboard {
        dashboard::paint_upper(alloc, &mut last, round)?;
    } else {
        Paint::new(alloc, picture)?.paint(alloc, &mut last, round)?;
    }
    Ok(sum(&last))
}

/// Does rounds on a screen in memory, and answers how many cells were written to it, and a sum over
/// it.
pub fn on_screen(alloc: Global, size: Size, act: Act) -> Done {
    let backend = TestBackend::new(alloc, size.width, size.height)?;
    let mut terminal = terminal_of(alloc, backend, act.viewport)?;
    rounds(alloc, &mut terminal, act, size.count)?;
    let backend = terminal.backend();
    Ok(Some((backend.cells_written(), sum(backend.buffer()))))
}

/// Makes a terminal that sends bytes to memory, with a viewport of so many rows or the whole
/// screen; what it sends first was flushed.
pub fn sending(
    alloc: Global,
    size: Size,
    rows: Option<u16>,
) -> Result<Terminal<AnsiBackend<Memory>>, AllocError> {
    let screen = ScreenSize::new(size.width, size.height);
    let Ok(backend) = AnsiBackend::new(alloc, Memory::new(alloc), screen) else {
        return Err(AllocError);
    };
    let mut terminal = terminal_of(alloc, backend, rows)?;
    if terminal.backend_mut().flush().is_err() {
        return Err(AllocError);
    }
    Ok(terminal)
}

/// Does rounds of an application that sends bytes, and answers how many it flushed in them, and a
/// sum over the last picture.
pub fn on_bytes(alloc: Global, size: Size, act: Act) -> Done {
    let mut terminal = sending(alloc, size, act.viewport)?;
    let before = terminal.backend().writer().flushed();
    rounds(alloc, &mut terminal, act, size.count)?;
    let after = terminal.backend().writer().flushed();
    Ok(Some((after.wrapping_sub(before), last_sum(alloc, size, act)?)))
}

fn resize_one(
    terminal: &mut Terminal<TestBackend>,
    width: u16,
    height: u16,
) -> Result<(), AllocError> {
    terminal
        .resize(Rect::new(0, 0, width, height))
        .map_err(|_| AllocError)
}

/// Gives a viewport one column and one row less in each second round.
pub fn resizes(alloc: Global, size: Size) -> Done {
    let backend = TestBackend::new(alloc, size.width, size.height)?;
    let mut terminal = terminal_of(alloc, backend, None)?;
    for round in 0..size.count {
        let less = (round % 2) as u16;
        let (width, height) = (
            size.width.saturating_sub(less),
            size.height.saturating_sub(less),
        );
        resize_one(&mut terminal, width, height)?;
    }
    Ok(Some((size.count, sum(terminal.backend().buffer()))))
}
