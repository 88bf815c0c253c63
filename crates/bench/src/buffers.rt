//! Workloads on one buffer.
use crate::boxes::Border;
use crate::pictures::{Picture, fill, letter, painted, texts, touch};
use crate::texts::{line_of, sum};
use crate::{Done, Size};
use ratatui_core::buffer::{Buffer, Cell, CellWidth};
use ratatui_core::layout::{HorizontalAlignment, Rect};
use ratatui_core::style::{Color, Modifier, Style};
use ratatui_core::text::{Line, Span, Text};
use ratatui_core::widgets::Widget;
use std::alloc::{AllocError, Global};

/// What a round does to a buffer.
#[derive(Drop)]
pub enum Work {
    /// Paints a text in each row.
    Text(String),
    /// Sets a line in each row.
    SetLine(Line<'static>),
    /// Renders a line in each row.
    Line(Line<'static>),
    /// Renders a span in each row.
    Span(Span<'static>),
    /// Renders a text over the whole area.
    Widget(Text<'static>),
    /// The whole area in a style.
    Style,
    Reset,
    /// Sets each cell over the former one.
    Set,
    SetAndReset,
    /// Lays another buffer over it.
    Merge(Buffer),
    /// Down to half the rows, and up again.
    Resize,
    /// Boxes that share their borders, on an emptied buffer.
    Boxes(Border),
}

impl Work {
    pub fn text(text: String) -> Work {
        Work::Text(text)
    }

    pub fn line(alloc: Global, text: String) -> Result<Work, AllocError> {
        Ok(Work::SetLine(Line::raw_string(alloc, text)?))
    }

    /// Makes a line of the words so many times.
    pub fn aligned(
        alloc: Global,
        times: u8,
        alignment: HorizontalAlignment,
    ) -> Result<Work, AllocError> {
        Ok(Work::Line(line_of(alloc, times, Style::new(), 0)?.alignment(alignment)))
    }

    /// Makes a buffer of this size that is laid over.
    pub fn merge(alloc: Global, width: u16, height: u16) -> Result<Work, AllocError> {
        let mut upper = Buffer::empty(alloc, Rect::new(0, 0, width, height))?;
        fill(alloc, &mut upper, 'm')?;
        Ok(Work::Merge(upper))
    }
}

// Sets a line in each row.
fn set_lines(buffer: &mut Buffer, line: &Line<'_>) -> Result<(), AllocError> {
    let area = *buffer.area();
    for row in area.rows() {
        let own = *buffer.area();
        if own.top() <= row.y && row.y < own.bottom() {
            buffer.set_line(own.x, row.y, line, row.width)?;
        }
    }
    Ok(())
}

// The style of a round.
fn style_of(round: u64) -> Style {
    Style::new()
        .fg(Color::Indexed((round % 251) as u8))
        .bg(Color::Blue)
        .add_modifier(Modifier::BOLD)
}

// Renders a line in each row.
fn render_lines(line: &Line<'_>, buffer: &mut Buffer) -> Result<(), AllocError> {
    let area = *buffer.area();
    for y in 0..area.height {
        line.render(Rect::new(0, y, area.width, 1), buffer)?;
    }
    Ok(())
}

// Renders a span in each row.
fn render_spans(span: &Span<'_>, buffer: &mut Buffer) -> Result<(), AllocError> {
    let area = *buffer.area();
    for y in 0..area.height {
        span.render(Rect::new(0, y, area.width, 1), buffer)?;
    }
    Ok(())
}

// Takes away half of the rows, and gives them back.
fn halve(buffer: &mut Buffer) -> Result<(), AllocError> {
    let area = *buffer.area();
    buffer.resize(Rect::new(0, 0, area.width, area.height / 2))?;
    buffer.resize(Rect::new(0, 0, area.width, area.height))
}

fn do_one(alloc: Global, buffer: &mut Buffer, work: &Work, round: u64) -> Result<(), AllocError> {
    let area = *buffer.area();
    match work {
        Work::Text(text) => texts(buffer, text.as_str(), Style::new()),
        Work::SetLine(line) => set_lines(buffer, line),
        Work::Line(line) => render_lines(line, buffer),
        Work::Span(span) => render_spans(span, buffer),
        Work::Widget(text) => text.render(area, buffer),
        Work::Style => {
            buffer.set_style(area, style_of(round));
            Ok(())
        }
        Work::Reset => {
            buffer.reset();
            Ok(())
        }
        Work::Set => fill(alloc, buffer, letter(round)),
        Work::SetAndReset => {
            fill(alloc, buffer, letter(round))?;
            buffer.reset();
            Ok(())
        }
        Work::Merge(upper) => buffer.merge(upper),
        Work::Resize => halve(buffer),
        Work::Boxes(border) => {
            buffer.reset();
            border.grid(alloc, buffer)
        }
    }
}

/// Does a work so many rounds on a buffer with this picture.
pub fn rounds(alloc: Global, size: Size, first: Picture, work: &Work) -> Done {
    let mut buffer = painted(alloc, size.width, size.height, first)?;
    for round in 0..size.count {
        touch(&mut buffer, round);
        do_one(alloc, &mut buffer, work, round)?;
    }
    Ok(Some((size.count, sum(&buffer))))
}

/// Makes empty buffers.
pub fn empties(alloc: Global, size: Size) -> Done {
    let mut all: u64 = 0;
    for round in 0..size.count {
        let mut buffer = Buffer::empty(alloc, Rect::new(0, 0, size.width, size.height))?;
        touch(&mut buffer, round);
        all = all.wrapping_add(buffer.content().len() as u64);
    }
    Ok(Some((all, 0)))
}

/// Makes buffers of one cell's copies.
pub fn fills(alloc: Global, size: Size) -> Done {
    let mut all: u64 = 0;
    for round in 0..size.count {
        let cell = Cell::new(alloc, "x")?;
        let mut buffer = Buffer::filled(alloc, Rect::new(0, 0, size.width, size.height), cell)?;
        touch(&mut buffer, round);
        all = all.wrapping_add(buffer.content().len() as u64);
    }
    Ok(Some((all, 0)))
}

/// Copies a buffer of letters.
pub fn clones(alloc: Global, size: Size) -> Done {
    let mut buffer = painted(alloc, size.width, size.height, Picture::Dots)?;
    let mut all: u64 = 0;
    for round in 0..size.count {
        touch(&mut buffer, round);
        let copy = buffer.clone(alloc)?;
        all = all.wrapping_add(copy.content().len() as u64);
    }
    Ok(Some((all, sum(&buffer))))
}

/// Adds up the widths of all cells, one by one.
pub fn widths(alloc: Global, size: Size, picture: Picture) -> Done {
    let mut buffer = painted(alloc, size.width, size.height, picture)?;
    let mut all: u64 = 0;
    for round in 0..size.count {
        touch(&mut buffer, round);
        for cell in buffer.content() {
            all = all.wrapping_add(u64::from(cell.cell_width()));
        }
    }
    Ok(Some((size.count, all)))
}

// How many updates lead from one buffer to another of its area.
fn updates(previous: &Buffer, newer: &Buffer) -> u64 {
    if previous.area() != newer.area() {
        return 0;
    }
    let mut count: u64 = 0;
    for _update in previous.diff_iter(newer) {
        count = count.wrapping_add(1);
    }
    count
}

/// Makes the diffs of two equal buffers.
pub fn diffs(alloc: Global, size: Size, picture: Picture) -> Done {
    let mut previous = painted(alloc, size.width, size.height, picture)?;
    let mut newer = previous.clone(alloc)?;
    let mut found: u64 = 0;
    for round in 0..size.count {
        touch(&mut previous, round);
        touch(&mut newer, round);
        found = found.wrapping_add(updates(&previous, &newer));
    }
    Ok(Some((found, sum(&newer))))
}
