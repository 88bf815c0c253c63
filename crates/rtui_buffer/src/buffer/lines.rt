//! Painting spans and lines.

ghost use Rattle.std.specs.Prelude.{◌≡◌, ◌+◌, ◌-◌, ◌*◌, ◌<◌, ◌≤◌, [], length, IsOk, OnOk, IfOk};
ghost use Rattle.std.specs.Vec.{vec_capacity};
ghost use Rattle.rtui_style.specs.Style.{patch};
ghost use Rattle.rtui_text.specs.Text.{raw_line};
ghost use Rattle.rtui_text.specs.Widths.{line_width};
ghost use Rattle.rtui_buffer.specs.BufferData.{HasRow, position_of, empty_cells, HasRoomFor};
ghost use Rattle.rtui_buffer.specs.Shown.{IsSettledBuffer};
ghost use Rattle.rtui_buffer.specs.Painting.{columns};
ghost use Rattle.rtui_buffer.specs.PaintedText.{room_at, pieces_at, Paints};
ghost use Rattle.rtui_buffer.specs.Line.{line_pieces, line_pieces_at, widest, lines_area, line_rows};
ghost use Rattle.rtui_buffer.specs.Line.{IsOfLines, raw_lines};
ghost use Rattle.rtui_buffer.specs.Inner.{PaintsCells};

use super::painting::{paint_text, room_at};
use super::sized::cut_or_fill;
use crate::buffer::Buffer;
use rtui_cell::Cell;
use rtui_geometry::Rect;
use rtui_style::Style;
use rtui_text::{Line, Span, text_columns};
use std::alloc::{AllocError, Global};

impl Buffer {
    /// Paints a span's text in its style, as `set_stringn` does.
    ///
    /// # Conditions
    ///
    /// Row `y` is one of the area, and column `x` isn't left of it. If not, the Rust crate panics
    /// when it paints a grapheme.
    ///
    /// # Errors
    ///
    /// Those of `set_stringn`.
    pub fn set_span(
        &mut self,
        x: u16,
        y: u16,
        span: &Span<'_>,
        max: u16,
    ) -> Result<(u16, u16), AllocError>
        requires row { HasRow self.old.area y }
        requires column { self.old.area.x ≤ x }
        ensures paints { let ps = pieces_at self.old.area x max span.now.style span.now.content in
            Paints (position_of (x, y)) ps result self.old self.new }
        ensures place { let ps = pieces_at self.old.area x max span.now.style span.now.content in
            IfOk result (λ end. end ≡ (x + columns ps, y)) }
    {
        self.set_stringn(x, y, span.text(), usize::from(max), span.style)
    }

    /// Paints a line from a column and a row on, span after span, each in its style over the line's
    /// and in the width that is left of the area and of `max` columns. A span that is cut does not
    /// end it. It answers the column after the last one that was painted, and the row.
    ///
    /// ```
    /// let mut buffer = Buffer::empty(alloc, Rect::new(0, 0, 9, 1))?;
    /// let mut line = Line::raw(alloc, "tests: ")?;
    /// line.push_span(Span::styled("ok", Style::new().fg(Color::Green)))?;
    /// let (next, _) = buffer.set_line(0, 0, &line, 9)?;
    /// assert!(rt; next == 9);
    /// ```
    ///
    /// # Conditions
    ///
    /// Row `y` is one of the area, and column `x` isn't left of it. If not, the Rust crate panics
    /// when it paints a grapheme.
    ///
    /// # Errors
    ///
    /// `AllocError` if memory is refused; a front of the line's graphemes is painted then, and no
    /// more. Graphemes of at most 22 bytes take none.
    #[tactic(auto, using(crate::proofs::LineLemmas::no_line_steps))]
    pub fn set_line(
        &mut self,
        x: u16,
        y: u16,
        line: &Line<'_>,
        max: u16,
    ) -> Result<(u16, u16), AllocError>
        requires row { HasRow self.old.area y }
        requires column { self.old.area.x ≤ x }
        ensures paints { let ps = line_pieces_at self.old.area x max line.now in
            Paints (position_of (x, y)) ps result self.old self.new }
        ensures place { let ps = line_pieces_at self.old.area x max line.now in
            IfOk result (λ end. end ≡ (x + columns ps, y)) }
    {
        let room = room_at(self.area, x, usize::from(max));
        if room == 0 {
            return Ok((x, y));
        }
        let start = self.index_of(x, y);
        let alloc = *self.content.allocator();
        let spans = line.spans.as_slice();
        let used = paint_spans(
            alloc,
            self.content.as_mut_slice(),
            start,
            room,
            spans,
            line.style,
        )?;
        Ok((x + used, y))
    }

    /// Makes a buffer at the corner `(0, 0)` with these lines, each in a row of its own: as wide as
    /// the widest of them, and as high as there are lines.
    ///
    /// # Conditions
    ///
    /// There are at most 65535 lines, and each takes at most 65535 columns ([`lines_width`] says
    /// how many the widest takes).
    ///
    /// # Errors
    ///
    /// `AllocError` if memory is refused. An empty list takes none.
    pub fn with_lines(alloc: Global, lines: &[Line<'_>]) -> Result<Buffer, AllocError>
        requires height { length lines.now ≤ 65535 }
        requires width { widest lines.now ≤ 65535 }
        ensures lines { IfOk result (IsOfLines lines.now) }
        ensures settled { IfOk result IsSettledBuffer }
        ensures room { IfOk result (HasRoomFor (lines_area lines.now)) }
        ensures succeeds { lines.now ≡ [] → IsOk result }
    {
        let area = Rect {
            x: 0,
            y: 0,
            width: lines_width(lines) as u16,
            height: lines.len() as u16,
        };
        let content = rows_of(alloc, area.width, lines)?;
        Ok(Buffer { area, content })
    }

    /// Makes a buffer with a line for each of these texts, as `with_lines` makes it.
    ///
    /// # Conditions
    ///
    /// There are at most 65535 texts, and each takes at most 65535 columns ([`texts_width`] says
    /// how many the widest takes).
    ///
    /// # Errors
    ///
    /// `AllocError` if memory is refused. An empty list takes none.
    pub fn from_texts(alloc: Global, texts: &[&str]) -> Result<Buffer, AllocError>
        requires height { length texts.now ≤ 65535 }
        requires width { widest (raw_lines texts.now) ≤ 65535 }
        ensures lines { IfOk result (IsOfLines (raw_lines texts.now)) }
        ensures settled { IfOk result IsSettledBuffer }
        ensures room { IfOk result (HasRoomFor (lines_area (raw_lines texts.now))) }
        ensures succeeds { texts.now ≡ [] → IsOk result }
    {
        let mut lines = Vec::with_capacity(alloc, texts.len())?;
        for text in texts {
            lines.push(Line::raw(alloc, text)?)?;
        }
        Buffer::with_lines(alloc, lines.as_slice())
    }
}

/// Returns the greatest width of these lines in columns: that of the buffer that
/// `Buffer::with_lines` makes.
pub fn lines_width(lines: &[Line<'_>]) -> usize
    ensures { result ≡ widest lines.now }
{
    let mut width = 0;
    for line in lines {
        width = line.width().max(width);
    }
    width
}

/// Returns the greatest width of these texts in columns, each as a raw line: that of the buffer
/// that `Buffer::from_texts` makes.
pub fn texts_width(texts: &[&str]) -> usize
    ensures { result ≡ widest (raw_lines texts.now) }
{
    let mut width = 0;
    for text in texts {
        width = raw_width(text).max(width);
    }
    width
}

// How many columns a text takes as a raw line.
fn raw_width(text: &str) -> usize
    ensures { result ≡ line_width (raw_line text.now).spans }
{
    let mut width = 0usize;
    for line in text.lines() {
        width = width.saturating_add(text_columns(line));
    }
    width
}

// Rows of this width, each with a line.
fn rows_of(alloc: Global, width: u16, lines: &[Line<'_>]) -> Result<Vec<Cell>, AllocError>
    requires { length lines.now ≤ 65535 }
    ensures items { IfOk result (λ cells. cells.items ≡ line_rows width lines.now) }
    ensures room { IfOk result (λ cells. width * length lines.now ≤ vec_capacity cells) }
    ensures succeeds { lines.now ≡ [] → IsOk result }
{
    let mut cells = Vec::new(alloc);
    cut_or_fill(&mut cells, usize::from(width) * lines.len())?;
    paint_lines(alloc, cells.as_mut_slice(), width, lines)?;
    Ok(cells)
}

// Paints each line in a row of its own, on empty cells.
fn paint_lines(
    alloc: Global,
    cells: &mut [Cell],
    width: u16,
    lines: &[Line<'_>],
) -> Result<(), AllocError>
    requires empty { cells.old ≡ empty_cells (width * length lines.now) }
    ensures ok { OnOk result (cells.new ≡ line_rows width lines.now) }
    ensures succeeds { lines.now ≡ [] → IsOk result }
{
    let mut start = 0usize;
    for line in lines {
        let end = start + usize::from(width);
        let row = &mut cells[start..end];
        paint_spans(alloc, row, 0, width, line.spans.as_slice(), line.style)?;
        start = end;
    }
    Ok(())
}

// Paints spans one after the other in this room, over a base style, and says how many columns they
// take.
fn paint_spans(
    alloc: Global,
    cells: &mut [Cell],
    start: usize,
    room: u16,
    spans: &[Span<'_>],
    base: Style,
) -> Result<u16, AllocError>
    requires inside { start + room ≤ length cells.old }
    ensures fits { IfOk result (λ n. n ≤ room) }
    ensures columns { IfOk result (λ n. n ≡ columns (line_pieces room base spans.now)) }
    ensures paints { let ps = line_pieces room base spans.now in
        PaintsCells start ps result cells.old cells.new }
{
    let mut used = 0;
    for span in spans {
        if used == room {
            return Ok(used);
        }
        let style = base.patch(span.style);
        used += paint_text(
            alloc,
            cells,
            start + used as usize,
            room - used,
            span.text(),
            style,
        )?;
    }
    Ok(used)
}
