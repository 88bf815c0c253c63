//! Lines in a row of cells.

ghost use Rattle.std.specs.Prelude.{true, ◌≡◌, ◌+◌, ◌-◌, ◌<◌, ◌≤◌, length, map, sum_by, IsOk, OnOk, OnErr};
ghost use Rattle.std.specs.List.{concat};
ghost use Rattle.unicode_segmentation.specs.Grapheme.{graphemes};
ghost use Rattle.rtui_cell.specs.Cell.{styled};
ghost use Rattle.rtui_cell.specs.Width.{text_columns};
ghost use Rattle.rtui_text.specs.Widths.{span_width};
ghost use Rattle.rtui_widgets.specs.Inner.{IsPart};
ghost use Rattle.rtui_buffer.specs.Painting.{KeepsUnmarked};
ghost use Rattle.rtui_widgets.specs.Refused.{HasFrontOfParts, HasFrontOfLine};
ghost use Rattle.rtui_widgets.specs.Line.{parts, parts_rendered, part_of, columns_before, line_rendered};
ghost use Rattle.rtui_widgets.specs.Line.{last_fitting, AreShortParts, IsShortLine};

use crate::span::render_span;
use rtui_cell::Cell;
use rtui_layout::HorizontalAlignment;
use rtui_style::Style;
use rtui_text::{Line, Span, text_columns};
use std::alloc::{AllocError, Global};
use unicode_segmentation::UnicodeSegmentation;

// Renders a line in a row, aligned so.
#[tactic(auto, unfolding(crate::specs::Line::line_rendered))]
pub(crate) fn render_line(
    alloc: Global,
    row: &mut [Cell],
    line: &Line<'_>,
    alignment: Option<HorizontalAlignment>,
) -> Result<(), AllocError>
    ensures ok { OnOk result (row.new ≡ line_rendered alignment line.now row.old) }
    ensures short { IsShortLine alignment line.now (length row.old) → IsOk result }
    ensures marks { KeepsUnmarked row.old row.new }
    ensures err { OnErr result (HasFrontOfLine alignment line.now row.old row.new) }
{
    let columns = row.len();
    if columns == 0 {
        return Ok(());
    }
    let width = line.width();
    if width == 0 {
        return Ok(());
    }
    lay_row(row, line.style);
    let indent = columns_before(alignment, columns.saturating_sub(width));
    let skip = columns_before(alignment, width.saturating_sub(columns));
    render_spans(alloc, &mut row[indent..], line.spans.as_slice(), skip)
}

// Lays a style over a row.
pub(crate) fn lay_row(row: &mut [Cell], style: Style)
    ensures { row.new ≡ map (styled style) row.old }
{
    for cell in row.iter_mut() {
        lay(cell, style);
    }
}

// Lays a style over a cell.
fn lay(cell: &mut Cell, style: Style)
    ensures { cell.new ≡ styled style cell.old }
{
    cell.set_style(style);
}

// How many of the columns that are too many stand before what is aligned so.
fn columns_before(alignment: Option<HorizontalAlignment>, excess: usize) -> usize
    ensures value { result ≡ columns_before alignment excess }
    ensures within { result ≤ excess }
{
    match alignment {
        None | Some(HorizontalAlignment::Left) => 0,
        Some(HorizontalAlignment::Center) => excess / 2,
        Some(HorizontalAlignment::Right) => excess,
    }
}

// Renders spans in a row, one after the other, without their first columns.
#[tactic(auto, using(crate::proofs::LineLemmas::spans_steps))]
fn render_spans(
    alloc: Global,
    row: &mut [Cell],
    spans: &[Span<'_>],
    skip: usize,
) -> Result<(), AllocError>
    ensures ok { OnOk result (row.new ≡ parts_rendered (parts skip spans.now) row.old) }
    ensures short { AreShortParts (length row.old) (parts skip spans.now) → IsOk result }
    ensures marks { KeepsUnmarked row.old row.new }
    ensures err { OnErr result (HasFrontOfParts (parts skip spans.now) row.old row.new) }
{
    let mut skip = skip;
    let mut start = 0;
    for span in spans {
        let width = span.width();
        if width <= skip {
            skip -= width;
            continue;
        }
        let part = part_of(span, width, skip);
        start += part.indent.min(row.len() - start);
        if start == row.len() {
            return Ok(());
        }
        render_span(alloc, &mut row[start..], part.content, span.style)?;
        start += part.width.min(row.len() - start);
        skip = 0;
    }
    Ok(())
}

// What shows of a span: after an indent a text, which takes this many columns.
#[derive(Drop)]
struct Part<'a> {
    indent: usize,
    width: usize,
    content: &'a str,
}

// A span of this width without its first columns.
fn part_of<'a>(span: &'a Span<'_>, width: usize, skip: usize) -> Part<'a>
    requires width { width ≡ span_width span.now }
    requires some { skip ≤ width }
    ensures { IsPart (part_of skip span.now) result }
{
    let text = span.text();
    if skip == 0 {
        return Part {
            indent: 0,
            width,
            content: text,
        };
    }
    let room = width - skip;
    let (content, width) = end_of(text, room);
    Part {
        indent: room - width,
        width,
        content,
    }
}

// The longest end of a text whose graphemes fit the room, and how many columns it takes.
#[tactic(auto, using(crate::proofs::LineLemmas::end_steps))]
fn end_of<'a>(text: &'a str, room: usize) -> (&'a str, usize)
    ensures content { result.0.now ≡ concat (last_fitting room (graphemes true text.now)) }
    ensures width { result.1 ≡ sum_by text_columns (last_fitting room (graphemes true text.now)) }
    ensures fits { result.1 ≤ room }
{
    let mut left = text.graphemes(true);
    let mut start = text.len();
    let mut width = 0;
    while let Some(grapheme) = left.next_back() {
        let columns = text_columns(grapheme);
        if columns > room - width {
            return (&text[start..], width);
        }
        width += columns;
        start = left.as_str().len();
    }
    (text, width)
}
