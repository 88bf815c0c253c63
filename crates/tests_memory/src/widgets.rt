//! Paragraphs, boxes and charts.
use crate::outcome::{Cases, LONG, Outcome, judged};
use rtui_buffer::Buffer;
use rtui_geometry::Rect;
use rtui_text::Line;
use rtui_widgets::Widget;
use std::alloc::{AllocError, Global};
use widget_boxes::Block;
use widget_chart::{Axis, Chart, Dataset};
use widget_paragraph::{Paragraph, Wrap};

// A text of two lines, of which no symbol takes memory.
const SHORT: &str = "The コン\nfox";

// Whether a cell of a buffer has this symbol.
fn has_symbol(buffer: &Buffer, place: usize, symbol: &str) -> bool {
    buffer
        .content()
        .get(place)
        .is_some_and(|cell| cell.symbol() == symbol)
}

// Renders a paragraph over a buffer of six columns and four rows, once more if memory is refused.
fn rendered(alloc: Global, paragraph: &Paragraph<'_>, symbol: &str) -> Result<Outcome, AllocError> {
    let area = Rect::new(0, 0, 6, 4);
    let mut buffer = Buffer::empty(alloc, area)?;
    let is_refused = paragraph.render(area, &mut buffer).is_err();
    let is_again = !is_refused || paragraph.render(area, &mut buffer).is_ok();
    Ok(judged(is_refused, true, is_again && has_symbol(&buffer, 0, symbol)))
}

// How many rows a paragraph takes in four columns.
fn counted(alloc: Global, paragraph: &Paragraph<'_>, count: usize) -> Result<Outcome, AllocError> {
    if let Ok(rows) = paragraph.line_count(alloc, 4) {
        return Ok(judged(false, true, rows == count));
    }
    let rows = paragraph.line_count(alloc, 4)?;
    Ok(judged(true, true, rows == count))
}

// A box with two titles, of which the second one is centred.
fn box_rendered(alloc: Global) -> Result<Outcome, AllocError> {
    let area = Rect::new(0, 0, 8, 2);
    let block = Block::bordered(alloc).title_raw("コ")?;
    let block = block.title(Line::raw(alloc, "n")?.centered())?;
    let mut buffer = Buffer::empty(alloc, area)?;
    let is_refused = (&block).render(area, &mut buffer).is_err();
    let is_right = has_symbol(&buffer, 1, "コ") && has_symbol(&buffer, 3, "n");
    Ok(judged(is_refused, true, is_right))
}

// An axis with two labels and a title.
fn axis_of<'a>(alloc: Global) -> Result<Axis<'a>, AllocError> {
    let labels = vec![in alloc; Line::raw(alloc, "0")?, Line::raw(alloc, "コン")?]?;
    Ok(
        Axis::new()
            .title(Line::raw(alloc, "n")?)
            .bounds([0, 9])
            .labels(labels),
    )
}

// Renders a chart of these data sets over a buffer of 24 columns and eight rows.
fn chart_rendered(alloc: Global, datasets: Vec<Dataset<'_>>) -> Result<Outcome, AllocError> {
    let area = Rect::new(0, 0, 24, 8);
    let chart = Chart::new(datasets)
        .block(Block::bordered(alloc))
        .x_axis(axis_of(alloc)?)
        .y_axis(axis_of(alloc)?);
    let mut buffer = Buffer::empty(alloc, area)?;
    let is_refused = (&chart).render(area, &mut buffer).is_err();
    let is_again = !is_refused || (&chart).render(area, &mut buffer).is_ok();
    Ok(judged(is_refused, true, is_again && has_symbol(&buffer, 125, "└")))
}

// A data set with a name.
fn named<'a>(alloc: Global) -> Result<Vec<Dataset<'a>>, AllocError> {
    let dataset = Dataset::new().data(&[(0, 3), (5, 8)]);
    let mut datasets = Vec::new(alloc);
    datasets.push(dataset.name(Line::raw(alloc, "コ")?))?;
    Ok(datasets)
}

/// Widgets that take memory.
pub struct Widgets;

static WIDGETS: [&str; 4] = [
    "render of a paragraph",
    "render of a wrapped paragraph",
    "line_count of a wrapped paragraph",
    "render of a chart of points",
];

impl Cases for Widgets {
    fn names() -> &'static [&'static str] {
        &WIDGETS
    }

    fn outcome_of(alloc: Global, number: usize) -> Result<Outcome, AllocError> {
        let wrap = Wrap { trim: true };
        match number {
            0 => rendered(alloc, &Paragraph::raw(alloc, LONG)?, LONG),
            1 => rendered(alloc, &Paragraph::raw(alloc, SHORT)?.wrap(wrap), "T"),
            2 => counted(alloc, &Paragraph::raw(alloc, SHORT)?.wrap(wrap), 3),
            _ => chart_rendered(alloc, named(alloc)?),
        }
    }
}

/// Widgets that take no memory.
pub struct WithoutMemory;

static WITHOUT_MEMORY: [&str; 6] = [
    "render of a paragraph of short symbols: no memory",
    "render of a paragraph at the right: no memory",
    "render of a paragraph in a box: no memory",
    "line_count of a paragraph: no memory",
    "render of a box with titles: no memory",
    "render of a chart of labels: no memory",
];

impl Cases for WithoutMemory {
    fn names() -> &'static [&'static str] {
        &WITHOUT_MEMORY
    }

    fn outcome_of(alloc: Global, number: usize) -> Result<Outcome, AllocError> {
        match number {
            0 => rendered(alloc, &Paragraph::raw(alloc, SHORT)?, "T"),
            1 => rendered(alloc, &Paragraph::raw(alloc, SHORT)?.right_aligned(), "T"),
            2 => {
                let block = Block::bordered(alloc).title_raw("fox")?;
                rendered(alloc, &Paragraph::raw(alloc, SHORT)?.block(block), "┌")
            }
            3 => counted(alloc, &Paragraph::raw(alloc, SHORT)?, 2),
            4 => box_rendered(alloc),
            _ => chart_rendered(alloc, Vec::new(alloc)),
        }
    }
}
