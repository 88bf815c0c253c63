//! Rows of lines that are wrapped.

ghost use Rattle.std.specs.Prelude.{◌≡◌, ◌≤◌, ◌<◌, ◌+◌, ◌-◌, true};
ghost use Rattle.std.specs.Str.{IsCharBoundary};
ghost use Rattle.unicode_segmentation.specs.Grapheme.{graphemes};
ghost use Rattle.rtui_text.specs.Printable.{ArePrintable};
ghost use Rattle.ratatui_core.specs.Layout.{IsInside};
ghost use Rattle.widget_boxes.specs.Boxes.{IsBoxArea};
ghost use Rattle.rtui_drawing.specs.Drawings.{DrawsAll, IsDone};
ghost use Rattle.text_area.specs.Lines.{feeds, nth_start};
ghost use Rattle.text_area.specs.Areas.{area_text};
ghost use Rattle.widget_area.specs.TextAreas.{wrapped_row, row_after_line};
ghost use Rattle.widget_area.specs.TextAreas.{row_style_drawing, first_number_drawing};
ghost use Rattle.widget_area.specs.TextAreas.{wrapped_grapheme_drawing, wrapped_graphemes_drawing};
ghost use Rattle.widget_area.specs.TextAreas.{wrapped_text_drawing};
ghost use Rattle.widget_area.specs.TextAreas.{wrapped_line_drawing, wrapped_lines_drawing};

use crate::columns::{front_len, past};
use crate::places::rows_of_columns;
use crate::plan::Plan;
use crate::rows::{Spot, put_style_if};
use crate::widget::TextAreaWidget;
use ratatui_core::buffer::Buffer;
use ratatui_core::layout::Rect;
use rtui_drawing::Cut;
use std::alloc::AllocError;
use unicode_segmentation::UnicodeSegmentation;

impl<'a> TextAreaWidget<'a> {
    // Draws a grapheme of a line that begins in a row, unless its own row is above the view; answers
    // how many columns it took.
    fn draw_wrapped_grapheme(
        &self,
        plan: &Plan,
        begin: usize,
        at: Spot,
        grapheme: &str,
        inner: Rect,
        buf: &mut Buffer,
    ) -> Result<u16, AllocError>
        requires some { IsBoxArea inner }
        requires inside { IsInside inner buf.old.area }
        requires stride { 0 < plan.now.stride }
        requires numbers { plan.now.numbers + plan.now.stride ≤ inner.width }
        requires there { wrapped_row plan.now begin at.column - plan.now.above < inner.height }
        ensures done { let d = wrapped_grapheme_drawing self.now plan.now inner.width begin
            at.column at.byte grapheme.now in IsDone d inner result buf.old buf.new }
        ensures area { buf.new.area ≡ buf.old.area }
    {
        let row = plan.wrapped_row(begin, at.column);
        if row < plan.above {
            return Ok(0);
        }
        let line = Cut::Rows((row - plan.above) as u16, 1).of(inner);
        let part = Cut::After(plan.numbers).of(line);
        let turned = plan.turned(at.column);
        self.draw_grapheme(&turned, at, grapheme, part, buf)
    }

    // Draws a part of a line that begins in a row, read grapheme by grapheme.
    fn draw_wrapped_rest(
        &self,
        plan: &Plan,
        begin: usize,
        from: Spot,
        text: &str,
        inner: Rect,
        buf: &mut Buffer,
    ) -> Result<(), AllocError>
        requires some { IsBoxArea inner }
        requires inside { IsInside inner buf.old.area }
        requires stride { 0 < plan.now.stride }
        requires numbers { plan.now.numbers + plan.now.stride ≤ inner.width }
        ensures done { let d = wrapped_graphemes_drawing self.now plan.now inner begin from.column
            from.byte (graphemes true text.now) in IsDone d inner result buf.old buf.new }
        ensures area { buf.new.area ≡ buf.old.area }
    {
        let mut left = text.graphemes(true);
        let mut at = from;
        'walk: while let Some(grapheme) = left.next() {
            let row = plan.wrapped_row(begin, at.column);
            if row.saturating_sub(plan.above) >= usize::from(inner.height) {
                return Ok(());
            }
            self.draw_wrapped_grapheme(plan, begin, at, grapheme, inner, buf)?;
            at = self.next_spot(at, grapheme);
        }
        Ok(())
    }

    // Draws a part of a line that begins in a row. Printable characters of ASCII above the view are
    // passed at once, and aren't read where the part is known to have nothing else.
    fn draw_wrapped_part(
        &self,
        plan: &Plan,
        begin: usize,
        from: Spot,
        is_plain: bool,
        text: &str,
        inner: Rect,
        buf: &mut Buffer,
    ) -> Result<(), AllocError>
        requires some { IsBoxArea inner }
        requires inside { IsInside inner buf.old.area }
        requires stride { 0 < plan.now.stride }
        requires numbers { plan.now.numbers + plan.now.stride ≤ inner.width }
        requires plain { is_plain ≡ true → ArePrintable text.now }
        ensures done { let d = wrapped_graphemes_drawing self.now plan.now inner begin from.column
            from.byte (graphemes true text.now) in IsDone d inner result buf.old buf.new }
        ensures area { buf.new.area ≡ buf.old.area }
    {
        let hidden = plan.hidden_columns(begin).saturating_sub(from.column);
        let front = front_len(is_plain, text, hidden);
        let at = Spot {
            column: past(from.column, front),
            byte: past(from.byte, front),
        };
        self.draw_wrapped_rest(plan, begin, at, &text[front..], inner, buf)
    }

    // The row after the line of a number, which begins in a row and at a byte.
    fn row_after_line(&self, plan: &Plan, begin: usize, number: usize, start: usize) -> usize
        requires stride { 0 < plan.now.stride }
        requires start { start ≡ nth_start number (area_text self.now.text.now) }
        requires boundary { IsCharBoundary (area_text self.now.text.now) start }
        ensures { result ≡ row_after_line self.now plan.now begin number }
    {
        let end = self.end_column(plan.row, plan.column, number, start);
        past(begin, rows_of_columns(plan.stride, end))
    }

    // Lays the style of the cursor's line over a line's rows in view, if it is that. The line begins
    // in a row and ends before another one.
    fn put_row_style(
        &self,
        plan: &Plan,
        begin: usize,
        end_row: usize,
        number: usize,
        inner: Rect,
        buf: &mut Buffer,
    )
        requires there { begin - plan.now.above < inner.height }
        requires end_row { end_row ≡ row_after_line self.now plan.now begin number }
        ensures drawn { let d = row_style_drawing self.now plan.now inner begin number in
            DrawsAll d inner buf.old buf.new }
        ensures area { buf.new.area ≡ buf.old.area }
    {
        let y = begin.saturating_sub(plan.above);
        let rows = end_row.saturating_sub(plan.above).saturating_sub(y);
        let rows = rows.min(usize::from(inner.height));
        let part = Cut::Rows(y as u16, rows as u16).of(inner);
        put_style_if(number == plan.row, self.cursor_line_style, part, buf);
    }

    // Draws the number of a line that begins in a row, unless that is above the view; answers how
    // many columns it took.
    fn draw_first_number(
        &self,
        plan: &Plan,
        begin: usize,
        number: usize,
        inner: Rect,
        buf: &mut Buffer,
    ) -> Result<u16, AllocError>
        requires some { IsBoxArea inner }
        requires inside { IsInside inner buf.old.area }
        requires there { begin - plan.now.above < inner.height }
        ensures done { let d = first_number_drawing self.now plan.now inner.width begin number in
            IsDone d inner result buf.old buf.new }
        ensures area { buf.new.area ≡ buf.old.area }
    {
        if begin < plan.above {
            return Ok(0);
        }
        let row = Cut::Rows((begin - plan.above) as u16, 1).of(inner);
        self.draw_number(plan, number, row, buf)
    }

    // Draws the graphemes of the line of a number, which begins in a row and at a byte.
    #[tactic(auto, using(rtui_drawing::proofs::DrawingLemmas::drawing_steps))]
    fn draw_wrapped_text(
        &self,
        plan: &Plan,
        begin: usize,
        number: usize,
        start: usize,
        inner: Rect,
        buf: &mut Buffer,
    ) -> Result<(), AllocError>
        requires some { IsBoxArea inner }
        requires inside { IsInside inner buf.old.area }
        requires stride { 0 < plan.now.stride }
        requires numbers { plan.now.numbers + plan.now.stride ≤ inner.width }
        requires start { start ≡ nth_start number (area_text self.now.text.now) }
        requires boundary { IsCharBoundary (area_text self.now.text.now) start }
        ensures done { let d = wrapped_text_drawing self.now plan.now inner begin number in
            IsDone d inner result buf.old buf.new }
        ensures area { buf.new.area ≡ buf.old.area }
    {
        let front = Spot {
            column: 0,
            byte: start,
        };
        let back = Spot {
            column: plan.column,
            byte: self.text.cursor_byte(),
        };
        let is_plain = self.is_plain(plan, number);
        let text = self.front_text(plan, number, start);
        self.draw_wrapped_part(plan, begin, front, is_plain, text, inner, buf)?;
        let text = self.back_text(plan, number);
        self.draw_wrapped_part(plan, begin, back, is_plain, text, inner, buf)
    }

    // Draws the line of a number, which begins in a row and at a byte, and ends before a row.
    #[tactic(auto, using(rtui_drawing::proofs::DrawingLemmas::drawing_steps))]
    fn draw_wrapped_line(
        &self,
        plan: &Plan,
        begin: usize,
        end_row: usize,
        number: usize,
        start: usize,
        inner: Rect,
        buf: &mut Buffer,
    ) -> Result<(), AllocError>
        requires some { IsBoxArea inner }
        requires inside { IsInside inner buf.old.area }
        requires stride { 0 < plan.now.stride }
        requires numbers { plan.now.numbers + plan.now.stride ≤ inner.width }
        requires there { begin - plan.now.above < inner.height }
        requires end_row { end_row ≡ row_after_line self.now plan.now begin number }
        requires start { start ≡ nth_start number (area_text self.now.text.now) }
        requires boundary { IsCharBoundary (area_text self.now.text.now) start }
        ensures done { let d = wrapped_line_drawing self.now plan.now inner begin number in
            IsDone d inner result buf.old buf.new }
        ensures area { buf.new.area ≡ buf.old.area }
    {
        self.put_row_style(plan, begin, end_row, number, inner, buf);
        self.draw_first_number(plan, begin, number, inner, buf)?;
        self.draw_wrapped_text(plan, begin, number, start, inner, buf)
    }

    // Draws the lines in view, the first of which begins at a byte.
    fn draw_wrapped_from(
        &self,
        plan: &Plan,
        first: usize,
        inner: Rect,
        buf: &mut Buffer,
    ) -> Result<(), AllocError>
        requires some { IsBoxArea inner }
        requires inside { IsInside inner buf.old.area }
        requires stride { 0 < plan.now.stride }
        requires numbers { plan.now.numbers + plan.now.stride ≤ inner.width }
        requires within { plan.now.top ≤ feeds (area_text self.now.text.now) }
        requires first { first ≡ nth_start plan.now.top (area_text self.now.text.now) }
        requires boundary { IsCharBoundary (area_text self.now.text.now) first }
        ensures done { let p = plan.now in
            let d = wrapped_lines_drawing self.now p inner 0 p.top inner.height in
            IsDone d inner result buf.old buf.new }
        ensures area { buf.new.area ≡ buf.old.area }
    {
        let mut number = plan.top;
        let mut start = first;
        let mut begin = 0usize;
        for k in 0..inner.height {
            if begin.saturating_sub(plan.above) >= usize::from(inner.height) {
                return Ok(());
            }
            let end_row = self.row_after_line(plan, begin, number, start);
            self.draw_wrapped_line(plan, begin, end_row, number, start, inner, buf)?;
            begin = end_row;
            let Some(next) = self.text.start_after(number, start) else {
                return Ok(());
            };
            number += 1;
            start = next;
        }
        Ok(())
    }

    // Draws the lines in view.
    pub(crate) fn draw_wrapped(
        &self,
        plan: &Plan,
        inner: Rect,
        buf: &mut Buffer,
    ) -> Result<(), AllocError>
        requires some { IsBoxArea inner }
        requires inside { IsInside inner buf.old.area }
        requires stride { 0 < plan.now.stride }
        requires numbers { plan.now.numbers + plan.now.stride ≤ inner.width }
        ensures done { let p = plan.now in
            let d = wrapped_lines_drawing self.now p inner 0 p.top inner.height in
            IsDone d inner result buf.old buf.new }
        ensures area { buf.new.area ≡ buf.old.area }
    {
        match self.text.line_start(plan.top) {
            Some(first) => self.draw_wrapped_from(plan, first, inner, buf),
            None => Ok(()),
        }
    }
}
