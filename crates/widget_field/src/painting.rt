//! Texts painted in a row.

ghost use Rattle.std.specs.Prelude.{◌≡◌, ◌+◌, ◌<◌, ◌≤◌, OnOk, IfOk, IsOk};
ghost use Rattle.ratatui_core.specs.Layout.{IsInside};
ghost use Rattle.ratatui_core.specs.Style.{new_style};
ghost use Rattle.ratatui_core.specs.Buffer.{AreShort, columns, text_pieces};
ghost use Rattle.ratatui_core.specs.Widgets.{ChangesWithin};
ghost use Rattle.widget_boxes.specs.Boxes.{IsBoxArea};
ghost use Rattle.widget_field.specs.Fields.{IsShortIn, PaintsTextAt, ShowsParts};

use crate::view::view_start;
use ratatui_core::buffer::Buffer;
use ratatui_core::layout::Rect;
use ratatui_core::style::Style;
use std::alloc::AllocError;

// Paints a text in a style from a place of a part on, in at most so many columns; answers the
// column after it.
pub(crate) fn paint_text(
    text: &str,
    max: u16,
    style: Style,
    x: u16,
    y: u16,
    part: Rect,
    buf: &mut Buffer,
) -> Result<u16, AllocError>
    requires some { IsBoxArea part }
    requires inside { IsInside part buf.old.area }
    requires left { part.x ≤ x }
    requires right { x + max ≤ part.x + part.width }
    requires top { part.y ≤ y }
    requires bottom { y < part.y + part.height }
    ensures within { ChangesWithin part buf.old buf.new }
    ensures ok { OnOk result (PaintsTextAt x y max style text.now buf.old buf.new) }
    ensures end { IfOk result (λ end. end ≡ x + columns (text_pieces max style text.now)) }
    ensures fits { IfOk result (λ end. end ≤ x + max) }
    ensures short { AreShort (text_pieces max style text.now) → IsOk result }
{
    let (end, _) = buf.set_stringn(x, y, text, usize::from(max), style)?;
    Ok(end)
}

// Renders a text before a cursor, whose view began at a byte, and what is after the cursor, in the
// first row of a part; answers where the view begins, and the cursor's column.
#[tactic(auto, using(crate::proofs::PaintLemmas::within_steps))]
pub(crate) fn render_parts(
    text: &str,
    first: usize,
    behind: &str,
    style: Style,
    part: Rect,
    buf: &mut Buffer,
) -> Result<(usize, u16), AllocError>
    requires some { IsBoxArea part }
    requires inside { IsInside part buf.old.area }
    ensures within { ChangesWithin part buf.old buf.new }
    ensures ok { IfOk result (λ at.
        ShowsParts text.now first behind.now style part at.0 at.1 buf.old buf.new) }
    ensures short { IsShortIn new_style text.now → IsShortIn style behind.now → IsOk result }
{
    let room = part.width - 1;
    let start = view_start(text, first, part.width, behind);
    let front = &text[start..];
    let column = paint_text(front, room, Style::new(), part.x, part.y, part, buf)?;
    let beside = part.x + part.width - column;
    paint_text(behind, beside, style, column, part.y, part, buf)?;
    Ok((start, column))
}
