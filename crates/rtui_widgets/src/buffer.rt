//! Spans, lines and texts in a buffer.

ghost use Rattle.std.specs.Prelude.{IsOk, OnOk, OnErr};
ghost use Rattle.rtui_widgets.specs.Rendering.{RendersSpan, RendersLine, RendersText, RendersShortSpan};
ghost use Rattle.rtui_widgets.specs.Rendering.{RendersShortLine, RendersShortText, ChangesWithin};
ghost use Rattle.rtui_widgets.specs.Refused.{LeavesSpan, LeavesLine, LeavesText};

use crate::line::render_line;
use crate::span::render_span;
use crate::text::render_rows;
use rtui_buffer::Buffer;
use rtui_geometry::Rect;
use rtui_text::{Line, Span, Text};
use std::alloc::AllocError;

// Renders a span in the first row of an area.
pub(crate) fn span_in(span: &Span<'_>, area: Rect, buf: &mut Buffer) -> Result<(), AllocError>
    ensures ok { OnOk result (RendersSpan span.now area buf.old buf.new) }
    ensures err { OnErr result (ChangesWithin area buf.old buf.new) }
    ensures left { OnErr result (LeavesSpan span.now area buf.old buf.new) }
    ensures short { RendersShortSpan span.now area buf.old → IsOk result }
{
    let Some(part) = buf.part(area) else {
        return Ok(());
    };
    let start = buf.index_of(part.x, part.y);
    let end = start + usize::from(part.width);
    let alloc = buf.allocator();
    let cells = buf.cells_mut();
    render_span(alloc, &mut cells[start..end], span.text(), span.style)
}

// Renders a line in the first row of an area.
pub(crate) fn line_in(line: &Line<'_>, area: Rect, buf: &mut Buffer) -> Result<(), AllocError>
    ensures ok { OnOk result (RendersLine line.now area buf.old buf.new) }
    ensures err { OnErr result (ChangesWithin area buf.old buf.new) }
    ensures left { OnErr result (LeavesLine line.now area buf.old buf.new) }
    ensures short { RendersShortLine line.now area buf.old → IsOk result }
{
    let Some(part) = buf.part(area) else {
        return Ok(());
    };
    let start = buf.index_of(part.x, part.y);
    let end = start + usize::from(part.width);
    let alloc = buf.allocator();
    let cells = buf.cells_mut();
    render_line(alloc, &mut cells[start..end], line, line.alignment)
}

// Renders a text in the rows of an area.
pub(crate) fn text_in(text: &Text<'_>, area: Rect, buf: &mut Buffer) -> Result<(), AllocError>
    ensures ok { OnOk result (RendersText text.now area buf.old buf.new) }
    ensures err { OnErr result (ChangesWithin area buf.old buf.new) }
    ensures left { OnErr result (LeavesText text.now area buf.old buf.new) }
    ensures short { RendersShortText text.now area buf.old → IsOk result }
{
    let Some(part) = buf.part(area) else {
        return Ok(());
    };
    let start = buf.index_of(part.x, part.y);
    let stride = usize::from(buf.area().width);
    let alloc = buf.allocator();
    render_rows(
        alloc,
        buf.cells_mut(),
        start,
        usize::from(part.width),
        stride,
        usize::from(part.height),
        text,
    )
}
