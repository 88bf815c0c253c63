//! One thing put on a buffer.

ghost use Rattle.std.specs.Prelude.{◌≡◌, ◌≤◌, IfOk};
ghost use Rattle.rtui_buffer.specs.Line.{line_pieces};
ghost use Rattle.rtui_buffer.specs.Painting.{columns, text_pieces};
ghost use Rattle.rtui_drawing.specs.Drawings.{put_style, put_pieces, put_line, put_text, put_change};
ghost use Rattle.rtui_drawing.specs.Drawings.{DrawsAll, IsDone, IsRowIn};

use rtui_buffer::Buffer;
use rtui_geometry::Rect;
use rtui_style::Style;
use rtui_text::{Line, Span, Text};
use rtui_widgets::{CellChange, Widget, change_area};
use std::alloc::AllocError;

/// Lays a style over an area.
pub fn put_style(style: Style, area: Rect, buf: &mut Buffer)
    ensures { DrawsAll (put_style style) area buf.old buf.new }
{
    buf.set_style(area, style);
}

/// Puts a line in the first row of an area, aligned as it says.
///
/// # Errors
///
/// `AllocError` if memory is refused; a front of the line's graphemes may stand then.
pub fn put_line(line: &Line<'_>, area: Rect, buf: &mut Buffer) -> Result<(), AllocError>
    ensures { IsDone (put_line line.now) area result buf.old buf.new }
{
    line.render(area, buf)
}

/// Puts a text over an area, a line in each row.
///
/// # Errors
///
/// `AllocError` if memory is refused; the rows above one of them stand then, and a front of its
/// graphemes.
pub fn put_text(text: &Text<'_>, area: Rect, buf: &mut Buffer) -> Result<(), AllocError>
    ensures { IsDone (put_text text.now) area result buf.old buf.new }
{
    text.render(area, buf)
}

/// Changes each cell of an area, as far as the buffer has it.
///
/// # Errors
///
/// `AllocError` if memory is refused; some cells of the area may have changed then.
pub fn put_change<C: CellChange>(change: &C, area: Rect, buf: &mut Buffer) -> Result<(), AllocError>
    ensures { let d = put_change (C.made change.now) (C.is_light change.now) in
        IsDone d area result buf.old buf.new }
{
    change_area(buf, area, change)
}

/// Writes a text at the left of a row, as far as the row has columns, and answers how many it took.
///
/// # Conditions
///
/// The row is one of the buffer's, or a part of one.
///
/// # Errors
///
/// `AllocError` if memory is refused; a front of the text's graphemes stands then.
pub fn write(text: &str, style: Style, row: Rect, buf: &mut Buffer) -> Result<u16, AllocError>
    requires { IsRowIn buf.old.area row }
    ensures done { let ps = text_pieces row.width style text.now in
        IsDone (put_pieces ps) row result buf.old buf.new }
    ensures columns { IfOk result (λ n. n ≡ columns (text_pieces row.width style text.now)) }
    ensures fits { IfOk result (λ n. n ≤ row.width) }
{
    let (x, _) = buf.set_stringn(row.x, row.y, text, usize::from(row.width), style)?;
    Ok(x - row.x)
}

/// Writes a span at the left of a row, as [`write`] does a text.
///
/// # Conditions
///
/// The row is one of the buffer's, or a part of one.
///
/// # Errors
///
/// `AllocError` if memory is refused; a front of the span's graphemes stands then.
pub fn write_span(span: &Span<'_>, row: Rect, buf: &mut Buffer) -> Result<u16, AllocError>
    requires { IsRowIn buf.old.area row }
    ensures done { let ps = text_pieces row.width span.now.style span.now.content in
        IsDone (put_pieces ps) row result buf.old buf.new }
    ensures columns { let ps = text_pieces row.width span.now.style span.now.content in
        IfOk result (λ n. n ≡ columns ps) }
    ensures fits { IfOk result (λ n. n ≤ row.width) }
{
    let (x, _) = buf.set_span(row.x, row.y, span, row.width)?;
    Ok(x - row.x)
}

/// Writes a line at the left of a row, span after span; how it is aligned doesn't matter.
///
/// # Conditions
///
/// The row is one of the buffer's, or a part of one.
///
/// # Errors
///
/// `AllocError` if memory is refused; a front of the line's graphemes stands then.
pub fn write_line(line: &Line<'_>, row: Rect, buf: &mut Buffer) -> Result<u16, AllocError>
    requires { IsRowIn buf.old.area row }
    ensures done { let ps = line_pieces row.width line.now.style line.now.spans in
        IsDone (put_pieces ps) row result buf.old buf.new }
    ensures columns { let ps = line_pieces row.width line.now.style line.now.spans in
        IfOk result (λ n. n ≡ columns ps) }
    ensures fits { IfOk result (λ n. n ≤ row.width) }
{
    let (x, _) = buf.set_line(row.x, row.y, line, row.width)?;
    Ok(x - row.x)
}
