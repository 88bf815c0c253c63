//! Spans in a row of cells.

ghost use Rattle.std.specs.Prelude.{true, ◌≡◌, ◌+◌, ◌-◌, ◌<◌, ◌≤◌, length, IsOk, OnOk, OnErr};
ghost use Rattle.rtui_cell.specs.Symbol.{appended, IsShort};
ghost use Rattle.rtui_cell.specs.Width.{text_width};
ghost use Rattle.rtui_buffer.specs.Painted.{emptied};
ghost use Rattle.rtui_widgets.specs.Span.{span_rendered, IsShortSpan};
ghost use Rattle.rtui_widgets.specs.Refused.{HasFrontOfSpan};
ghost use Rattle.rtui_buffer.specs.Painting.{KeepsUnmarked};
ghost use Rattle.rtui_widgets.specs.Inner.{with_grapheme, with_appended, with_next, next_symbol};

use rtui_buffer::{empty_part, paint_printable};
use rtui_cell::{Cell, CellWidth};
use rtui_style::Style;
use rtui_text::{has_control, printable_front};
use std::alloc::{AllocError, Global};
use unicode_segmentation::UnicodeSegmentation;

// Renders a text in a style from the first column of a row on: printable characters of ASCII at its
// start a byte at a time, and after them grapheme by grapheme.
#[tactic(auto, using(crate::proofs::SpanLemmas::span_steps))]
pub(crate) fn render_span(
    alloc: Global,
    row: &mut [Cell],
    text: &str,
    style: Style,
) -> Result<(), AllocError>
    ensures ok { OnOk result (row.new ≡ span_rendered style text.now row.old) }
    ensures short { IsShortSpan (length row.old) text.now → IsOk result }
    ensures marks { KeepsUnmarked row.old row.new }
    ensures err { OnErr result (HasFrontOfSpan style text.now row.old row.new) }
{
    if row.is_empty() {
        return Ok(());
    }
    let front = printable_front(text, row.len());
    paint_printable(alloc, row, 0, &text.as_bytes()[..front], style)?;
    let mut x = front;
    let mut is_first = front == 0;
    for grapheme in text[front..].graphemes(true) {
        if has_control(grapheme) {
            continue;
        }
        let width = usize::from(grapheme.cell_width());
        if width > row.len() - x {
            return Ok(());
        }
        put_next(alloc, row, x, is_first, grapheme, width, style)?;
        x += width;
        is_first = false;
    }
    Ok(())
}

// Puts the next grapheme, of this width, which stands at column x.
#[tactic(auto, unfolding(crate::specs::Inner::with_next))]
fn put_next(
    alloc: Global,
    row: &mut [Cell],
    x: usize,
    is_first: bool,
    grapheme: &str,
    width: usize,
    style: Style,
) -> Result<(), AllocError>
    requires width { width ≡ text_width grapheme.now }
    requires fits { x + text_width grapheme.now ≤ length row.old }
    requires some { 0 < length row.old }
    requires first { is_first ≡ true → x ≡ 0 }
    ensures ok { OnOk result (row.new ≡ with_next is_first x style grapheme.now row.old) }
    ensures short { IsShort (next_symbol is_first x grapheme.now row.old) → IsOk result }
    ensures err { OnErr result (row.new ≡ row.old) }
{
    if is_first || (x > 0 && width > 0) {
        row[x].put(alloc, grapheme, style)?;
    } else if width == 0 && x > 0 {
        append(alloc, &mut row[x - 1], grapheme, style)?;
    } else {
        append(alloc, &mut row[x], grapheme, style)?;
    }
    empty_behind(row, x, width);
    Ok(())
}

// Appends to a cell's symbol, in a style.
fn append(alloc: Global, cell: &mut Cell, symbol: &str, style: Style) -> Result<(), AllocError>
    ensures ok { OnOk result (cell.new ≡ with_appended style symbol.now cell.old) }
    ensures short { IsShort (appended cell.old.symbol symbol.now) → IsOk result }
    ensures err { OnErr result (cell.new ≡ cell.old) }
{
    cell.append_symbol(alloc, symbol)?;
    cell.set_style(style);
    Ok(())
}

// Empties the columns after the first one of a grapheme.
#[tactic(auto, using(crate::proofs::EmptyLemmas::empty_steps))]
fn empty_behind(row: &mut [Cell], x: usize, width: usize)
    requires { x + width ≤ length row.old }
    ensures { row.new ≡ emptied (x + 1) (width - 1) row.old }
{
    if width > 1 {
        empty_part(row, x + 1, x + width);
    }
}
