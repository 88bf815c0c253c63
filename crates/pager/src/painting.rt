//! Texts and lines in rows of a buffer.

ghost use Rattle.std.specs.Prelude.{◌≡◌, ◌+◌, ◌-◌, ◌^◌, ◌<◌, ◌≤◌, min, OnOk, IfOk};
ghost use Rattle.ratatui_core.specs.Layout.{IsInside};
ghost use Rattle.ratatui_core.specs.Buffer.{IsReadyAt, IsReadyFrom, columns, text_pieces};
ghost use Rattle.ratatui_core.specs.Widgets.{ChangesWithin};
ghost use Rattle.widget_boxes.specs.Boxes.{IsBoxArea};
ghost use Rattle.pager.specs.Symbols.{shown_columns, line_symbol};
ghost use Rattle.pager.specs.Pages.{PaintsText, PaintsLine};
ghost use Rattle.pager.specs.Inner.{PaintsIfInView};

use crate::finder::Finder;
use crate::styles::Run;
use crate::symbols::{first_style, mark_style, runs_after, shown_columns, shown_text};
use crate::view::View;
use ratatui_core::buffer::Buffer;
use ratatui_core::layout::Rect;
use ratatui_core::style::Style;
use std::alloc::AllocError;
use unicode_segmentation::UnicodeSegmentation;

// Paints a text in a style from a place of a part on, in at most so many columns; answers the
// column after it.
pub(crate) fn paint_text(
    text: &str,
    max: u16,
    style: Style,
    x: u16,
    y: u16,
    part: Rect,
    buf: &mut Buffer,
) -> Result<u16, AllocError>
    requires some { IsBoxArea part }
    requires inside { IsInside part buf.old.area }
    requires left { part.x ≤ x }
    requires right { x + max ≤ part.x + part.width }
    requires top { part.y ≤ y }
    requires bottom { y < part.y + part.height }
    ensures within { ChangesWithin part buf.old buf.new }
    ensures ok { OnOk result (PaintsText x y max style text.now buf.old buf.new) }
    ensures end { IfOk result (λ end. end ≡ x + columns (text_pieces max style text.now)) }
    ensures fits { IfOk result (λ end. end ≤ x + max) }
    ensures ready { IsReadyAt x y buf.old → IfOk result (λ end. IsReadyAt end y buf.new) }
{
    let (end, _) = buf.set_stringn(x, y, text, usize::from(max), style)?;
    Ok(end)
}

// Paints a grapheme in a style that begins in a column of its line, if it is in view; answers the
// column after it. The first column of the view stands at x.
fn paint_grapheme(
    grapheme: &str,
    style: Style,
    column: u64,
    view: View,
    x: u16,
    y: u16,
    part: Rect,
    buf: &mut Buffer,
) -> Result<u64, AllocError>
    requires some { IsBoxArea part }
    requires inside { IsInside part buf.old.area }
    requires column { column < view.limit }
    requires limit { view.limit ≤ view.left + view.width }
    requires left { part.x ≤ x }
    requires right { x + view.width ≤ part.x + part.width }
    requires far { view.left < 2 ^ 63 }
    requires top { part.y ≤ y }
    requires bottom { y < part.y + part.height }
    ensures within { ChangesWithin part buf.old buf.new }
    ensures ok { OnOk result
        (PaintsIfInView x y view (line_symbol style column grapheme.now) buf.old buf.new) }
    ensures end { IfOk result (λ end. end ≡ column + shown_columns column grapheme.now) }
    ensures ready { IsReadyAt (x + min (column - view.left) view.width) y buf.old → IfOk result
        (λ end. IsReadyAt (x + min (end - view.left) view.width) y buf.new) }
{
    let columns = shown_columns(column, grapheme);
    let end = column + u64::from(columns);
    if column < view.left || end > view.left + u64::from(view.width) {
        return Ok(end);
    }
    let place = x + (column - view.left) as u16;
    paint_text(shown_text(grapheme), columns, style, place, y, part, buf)?;
    Ok(end)
}

// Paints what shows of a line in its runs of styles in a row from x on, with what is sought marked.
#[tactic(auto, using(crate::proofs::PatternLemmas::nothing_ahead))]
pub(crate) fn paint_line(
    line: &str,
    runs: &[Run],
    finder: &mut Finder<'_>,
    view: View,
    x: u16,
    y: u16,
    part: Rect,
    buf: &mut Buffer,
) -> Result<(), AllocError>
    requires some { IsBoxArea part }
    requires inside { IsInside part buf.old.area }
    requires limit { view.limit ≤ view.left + view.width }
    requires left { part.x ≤ x }
    requires right { x + view.width ≤ part.x + part.width }
    requires far { view.left < 2 ^ 63 }
    requires top { part.y ≤ y }
    requires bottom { y < part.y + part.height }
    ensures within { ChangesWithin part buf.old buf.new }
    ensures ok { OnOk result (PaintsLine x y view finder.old runs.now line.now buf.old buf.new) }
    ensures ready { IsReadyAt x y buf.old → OnOk result (IsReadyFrom (y + 1) buf.new) }
    ensures same { finder.new ≡ finder.old }
{
    let mut ahead = None;
    let mut graphemes = line.graphemes(true);
    let mut runs = runs;
    let mut column = 0;
    let mut marked = 0;
    while column < view.limit {
        let rest = graphemes.as_str();
        let Some(grapheme) = graphemes.next() else {
            return Ok(());
        };
        let byte = line.len().saturating_sub(rest.len());
        runs = runs_after(byte, runs);
        let here = finder.marked(line, marked, rest, &mut ahead);
        let style = mark_style(here, first_style(runs));
        column = paint_grapheme(grapheme, style, column, view, x, y, part, buf)?;
        marked = here.saturating_sub(grapheme.len());
    }
    Ok(())
}
