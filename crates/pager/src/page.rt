//! A page on a buffer.

ghost use Rattle.std.specs.Prelude.{◌≡◌, ◌+◌, ◌-◌, ◌^◌, ◌<◌, ◌≤◌, [], Some, OnOk, IfOk};
ghost use Rattle.ratatui_core.specs.Layout.{IsInside};
ghost use Rattle.ratatui_core.specs.Buffer.{IsReadyAt, IsReadyFrom, IsSettledBuffer};
ghost use Rattle.ratatui_core.specs.Widgets.{ChangesWithin};
ghost use Rattle.widget_boxes.specs.Boxes.{IsBoxArea};
ghost use Rattle.pager.specs.declared.sought.Sought.TheVariants.{Plain};
ghost use Rattle.pager.specs.Pages.{view_at, line_number, PaintsNumber, PaintsNumberIf, PaintsLine, PaintsLineAt};
ghost use Rattle.pager.specs.Pages.{PaintsTextRow, PaintsRowIn, PaintsPageRows, view_from, PaintsPage};

use crate::finder::Finder;
use crate::help::help_text;
use crate::pager::{Mode, Pager};
use crate::painting::{paint_line, paint_text};
use crate::typing::typing_cursor;
use crate::view::View;
use itoa::Buffer as Digits;
use ratatui_app::Application;
use ratatui_core::buffer::Buffer;
use ratatui_core::layout::{Position, Rect};
use ratatui_core::style::Style;
use std::alloc::AllocError;
use text_places::Place;

// Paints a number that ends in column 7 of a row.
fn paint_number(number: u64, y: u16, part: Rect, buf: &mut Buffer) -> Result<u16, AllocError>
    requires some { IsBoxArea part }
    requires inside { IsInside part buf.old.area }
    requires wide { 8 < part.width }
    requires top { part.y ≤ y }
    requires bottom { y < part.y + part.height }
    ensures within { ChangesWithin part buf.old buf.new }
    ensures ok { OnOk result (PaintsNumber number part.x y buf.old buf.new) }
    ensures fits { IfOk result (λ end. end ≤ part.x + 8) }
    ensures ready { IsReadyAt part.x y buf.old → IfOk result (λ end. IsReadyAt end y buf.new) }
{
    let mut digits = Digits::new();
    let text = digits.format(number);
    let count = text.len().min(7) as u16;
    let x = part.x + (7 - count);
    paint_text(text, count, Style::new(), x, y, part, buf)
}

// Paints a number in the columns that numbers take, if they take some and there is one.
fn paint_number_if(
    columns: u16,
    number: u64,
    y: u16,
    part: Rect,
    buf: &mut Buffer,
) -> Result<(), AllocError>
    requires some { IsBoxArea part }
    requires inside { IsInside part buf.old.area }
    requires wide { 0 < columns → (columns ≡ 8) × (8 < part.width) }
    requires top { part.y ≤ y }
    requires bottom { y < part.y + part.height }
    ensures within { ChangesWithin part buf.old buf.new }
    ensures ok { OnOk result (PaintsNumberIf columns number part.x y buf.old buf.new) }
    ensures ready { IsReadyFrom y buf.old → OnOk result (IsReadyAt (part.x + columns) y buf.new) }
{
    if columns == 0 || number == 0 {
        return Ok(());
    }
    paint_number(number, y, part, buf)?;
    Ok(())
}

// Paints a line from its first column on, over the whole row.
fn paint_plain(line: &str, y: u16, part: Rect, buf: &mut Buffer) -> Result<(), AllocError>
    requires some { IsBoxArea part }
    requires inside { IsInside part buf.old.area }
    requires top { part.y ≤ y }
    requires bottom { y < part.y + part.height }
    ensures within { ChangesWithin part buf.old buf.new }
    ensures ok { OnOk result
        (PaintsLine part.x y (view_from 0 part.width) (Plain []) [] line.now buf.old buf.new) }
    ensures ready { IsReadyFrom y buf.old → OnOk result (IsReadyFrom (y + 1) buf.new) }
{
    let view = View::new(0, part.width);
    paint_line(
        line,
        &[],
        &mut Finder::of_text(""),
        view,
        part.x,
        y,
        part,
        buf,
    )
}

impl<'a> Pager<'a> {
    // What a row shows of its line.
    fn view_at(&self, row: usize, width: u16) -> View
        requires { row < 2 ^ 32 }
        ensures view { result ≡ view_at self.now row width }
        ensures left { result.left < 2 ^ 63 }
    {
        if !self.wraps {
            return View::new(u64::from(self.left), width);
        }
        let stride = u64::from(self.stride());
        let left = row as u64 * stride;
        View {
            left,
            limit: left + stride.min(u64::from(width)),
            width,
        }
    }

    // The number of a line that is shown among all lines.
    fn line_number(&self, line: u64) -> u64
        requires { line < 2 ^ 63 }
        ensures number { result ≡ line_number self.now line }
        ensures bound { result < 2 ^ 63 }
    {
        match self.whole {
            Some(_) => self.numbers.get_or(line, line),
            None => line,
        }
    }

    // Paints a line of the text, with its number.
    fn paint_text_line(
        &self,
        line: &str,
        place: Place,
        y: u16,
        finder: &mut Finder<'_>,
        part: Rect,
        buf: &mut Buffer,
    ) -> Result<(), AllocError>
        requires sought { finder.old ≡ self.now.sought }
        requires some { IsBoxArea part }
        requires inside { IsInside part buf.old.area }
        requires top { part.y ≤ y }
        requires bottom { y < part.y + part.height }
        requires place { place.line < 2 ^ 63 }
        requires there { place.row < 2 ^ 32 }
        ensures within { ChangesWithin part buf.old buf.new }
        ensures ok { OnOk result
            (PaintsLineAt (Some line.now) self.now place part y buf.old buf.new) }
        ensures ready { IsReadyFrom y buf.old → OnOk result (IsReadyFrom (y + 1) buf.new) }
        ensures same { finder.new ≡ finder.old }
    {
        let beside = self.number_columns(part.width);
        let line_number = self.line_number(place.line as u64);
        let number = if place.row == 0 { line_number + 1 } else { 0 };
        paint_number_if(beside, number, y, part, buf)?;
        let view = self.view_at(place.row, part.width - beside);
        paint_line(
            line,
            self.styles.line(line_number),
            finder,
            view,
            part.x + beside,
            y,
            part,
            buf,
        )
    }

    // Paints a row of the text.
    fn paint_text_row(
        &self,
        place: Place,
        y: u16,
        finder: &mut Finder<'_>,
        part: Rect,
        buf: &mut Buffer,
    ) -> Result<(), AllocError>
        requires sought { finder.old ≡ self.now.sought }
        requires some { IsBoxArea part }
        requires inside { IsInside part buf.old.area }
        requires place { place.line < 2 ^ 63 }
        requires there { place.row < 2 ^ 32 }
        requires top { part.y ≤ y }
        requires bottom { y < part.y + part.height }
        ensures within { ChangesWithin part buf.old buf.new }
        ensures ok { OnOk result (PaintsTextRow self.now place part y buf.old buf.new) }
        ensures ready { IsReadyFrom y buf.old → OnOk result (IsReadyFrom (y + 1) buf.new) }
        ensures same { finder.new ≡ finder.old }
    {
        match self.document.line(place.line) {
            Some(line) => self.paint_text_line(line, place, y, finder, part, buf),
            None => paint_plain("~", y, part, buf),
        }
    }

    // Paints row k of the page, which shows this place if it shows the text.
    fn paint_row(
        &self,
        k: u16,
        place: Place,
        finder: &mut Finder<'_>,
        part: Rect,
        buf: &mut Buffer,
    ) -> Result<(), AllocError>
        requires sought { finder.old ≡ self.now.sought }
        requires some { IsBoxArea part }
        requires inside { IsInside part buf.old.area }
        requires place { place.line < 2 ^ 63 }
        requires there { place.row < 2 ^ 32 }
        requires row { k < part.height }
        ensures within { ChangesWithin part buf.old buf.new }
        ensures ok { OnOk result
            (PaintsRowIn self.now.mode self.now part k place buf.old buf.new) }
        ensures ready { IsReadyFrom (part.y + k) buf.old
            → OnOk result (IsReadyFrom (part.y + k + 1) buf.new) }
        ensures same { finder.new ≡ finder.old }
    {
        match self.mode {
            Mode::Helping => paint_plain(help_text(k), part.y + k, part, buf),
            _ => self.paint_text_row(place, part.y + k, finder, part, buf),
        }
    }

    // Paints the first rows of the page.
    fn paint_rows(&self, part: Rect, rows: u16, buf: &mut Buffer) -> Result<(), AllocError>
        requires some { IsBoxArea part }
        requires inside { IsInside part buf.old.area }
        requires rows { rows ≤ part.height }
        ensures within { ChangesWithin part buf.old buf.new }
        ensures ok { OnOk result (PaintsPageRows self.now part rows buf.old buf.new) }
        ensures ready { IsReadyFrom part.y buf.old
            → OnOk result (IsReadyFrom (part.y + rows) buf.new) }
    {
        let mut finder = self.sought.finder(self.document.allocator())?;
        let mut place = self.place();
        for k in 0..rows {
            self.paint_row(k, place, &mut finder, part, buf)?;
            place = self.next_place(place);
        }
        Ok(())
    }

    // Paints the page over a part of a buffer.
    fn paint_page(&self, part: Rect, buf: &mut Buffer) -> Result<(), AllocError>
        requires some { IsBoxArea part }
        requires inside { IsInside part buf.old.area }
        ensures within { ChangesWithin part buf.old buf.new }
        ensures ok { OnOk result (PaintsPage self.now part buf.old buf.new) }
        ensures settled { IsReadyFrom part.y buf.old → OnOk result (IsSettledBuffer buf.new) }
    {
        self.paint_rows(part, part.height - 1, buf)?;
        self.paint_status(part, buf)
    }
}

impl<'a> Application for Pager<'a> {
    ghost use Rattle.pager.specs.Pages.{PaintsPager, page_cursor};
    ghost use Rattle.pager.specs.PageLemmas.{pages-settled};

    ghost paints = { PaintsPager };

    ghost cursor = { page_cursor };

    fn paint(&self, area: Rect, buf: &mut Buffer) -> Result<(), AllocError> {
        let Some(part) = buf.part(area) else {
            return Ok(());
        };
        self.paint_page(part, buf)
    }

    fn cursor(&self, area: Rect) -> Option<Position> {
        match self.mode {
            Mode::Asking | Mode::Filtering => typing_cursor(self.typed.before(), area),
            _ => None,
        }
    }

    ghost is_settled = { pages-settled };
}
