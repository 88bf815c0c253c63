//! Rows of a text area.

ghost use Rattle.std.specs.Prelude.{◌≡◌, ◌≤◌, ◌<◌, ◌+◌, ◌-◌, ◌==◌, nat_le, nat_lt, true, [], length};
ghost use Rattle.std.specs.Str.{IsCharBoundary};
ghost use Rattle.unicode_segmentation.specs.Grapheme.{graphemes};
ghost use Rattle.rtui_text.specs.Printable.{ArePrintable};
ghost use Rattle.ratatui_core.specs.Layout.{IsInside};
ghost use Rattle.ratatui_core.specs.Style.{new_style};
ghost use Rattle.ratatui_core.specs.Buffer.{text_pieces};
ghost use Rattle.widget_boxes.specs.Boxes.{IsBoxArea};
ghost use Rattle.rtui_drawing.specs.declared.cut.Cut.TheVariants.{First, After};
ghost use Rattle.rtui_drawing.specs.Drawings.{DrawsAll, IsDone, IsRowIn, draw_if, over, put_style};
ghost use Rattle.rtui_drawing.specs.Drawings.{put_pieces};
ghost use Rattle.text_area.specs.Lines.{feeds, nth_start, nth_line};
ghost use Rattle.text_area.specs.Areas.{area_text};
ghost use Rattle.widget_area.specs.Columns.{past, columns_of_grapheme};
ghost use Rattle.widget_area.specs.TextAreas.{grapheme_drawing, graphemes_drawing, is_selected};
ghost use Rattle.widget_area.specs.TextAreas.{front_text, back_text, line_drawing, number_drawing};
ghost use Rattle.widget_area.specs.TextAreas.{numbered_row_drawing, numbered_rows_drawing, placeholder_drawing};
ghost use Rattle.widget_area.specs.TextAreas.{lines_drawing, planned_drawing};

use crate::columns::{columns_of_grapheme, front_len, past};
use crate::numbers::write_number;
use crate::plan::Plan;
use crate::widget::TextAreaWidget;
use ratatui_core::buffer::Buffer;
use ratatui_core::layout::Rect;
use ratatui_core::style::Style;
use rtui_drawing::{Cut, put_style, write};
use std::alloc::AllocError;
use unicode_segmentation::UnicodeSegmentation;

// Where a grapheme stands: in a column of its line, at a byte of the text.
#[derive(Clone, Copy)]
pub(crate) struct Spot {
    pub(crate) column: usize,
    pub(crate) byte: usize,
}

// Lays a style over an area, if it is to be.
#[tactic(auto, using(crate::proofs::RowLemmas::row_parts))]
pub(crate) fn put_style_if(is_there: bool, style: Style, area: Rect, buf: &mut Buffer)
    ensures drawn { DrawsAll (draw_if is_there (put_style style)) area buf.old buf.new }
    ensures area { buf.new.area ≡ buf.old.area }
{
    if is_there {
        put_style(style, area, buf);
    }
}

// Writes a text at the left of a row, if it is to stand there; answers how many columns it took.
#[tactic(auto, using(crate::proofs::RowLemmas::row_parts))]
fn write_if(
    is_there: bool,
    text: &str,
    style: Style,
    row: Rect,
    buf: &mut Buffer,
) -> Result<u16, AllocError>
    requires { IsRowIn buf.old.area row }
    ensures done { let ps = text_pieces row.width style text.now in
        IsDone (draw_if is_there (put_pieces ps)) row result buf.old buf.new }
    ensures area { buf.new.area ≡ buf.old.area }
{
    if is_there {
        write(text, style, row, buf)
    } else {
        Ok(0)
    }
}

impl<'a> TextAreaWidget<'a> {
    // At which column of a row a grapheme begins that is in view, and how many of its columns are.
    fn in_view(&self, plan: &Plan, at: Spot, grapheme: &str, room: u16) -> (u16, u16)
        requires { at.column - plan.now.left < room }
        ensures column { result.0 ≡ at.column - plan.now.left }
        ensures shown { let n = columns_of_grapheme self.now.tab at.column grapheme.now in
            result.1 ≡ n - (plan.now.left - at.column) }
    {
        let columns = usize::from(columns_of_grapheme(self.tab, at.column, grapheme));
        let x = at.column.saturating_sub(plan.left) as u16;
        let hidden = plan.left.saturating_sub(at.column);
        (x, columns.saturating_sub(hidden) as u16)
    }

    // Draws a grapheme in a row that has its column, or columns right of it; answers how many columns
    // it took.
    #[tactic(auto, using(rtui_drawing::proofs::DrawingLemmas::drawing_steps, crate::proofs::RowLemmas::row_parts))]
    pub(crate) fn draw_grapheme(
        &self,
        plan: &Plan,
        at: Spot,
        grapheme: &str,
        row: Rect,
        buf: &mut Buffer,
    ) -> Result<u16, AllocError>
        requires row { IsRowIn buf.old.area row }
        requires there { at.column - plan.now.left < row.width }
        ensures done { let d = grapheme_drawing self.now plan.now row.width at.column at.byte grapheme.now
            in IsDone d row result buf.old buf.new }
        ensures area { buf.new.area ≡ buf.old.area }
    {
        let (x, shown) = self.in_view(plan, at, grapheme, row.width);
        let part = Cut::After(x).of(row);
        let columns = Cut::First(shown).of(part);
        let is_selected = plan.is_selected(at.byte);
        put_style_if(is_selected, self.selection_style, columns, buf);
        let is_whole = plan.left <= at.column;
        write_if(is_whole, grapheme, Style::new(), part, buf)
    }

    // The spot after a grapheme that stands at a spot.
    pub(crate) fn next_spot(&self, at: Spot, grapheme: &str) -> Spot
        ensures column { result.column
            ≡ past at.column (columns_of_grapheme self.now.tab at.column grapheme.now) }
        ensures byte { result.byte ≡ past at.byte (length grapheme.now) }
    {
        let columns = columns_of_grapheme(self.tab, at.column, grapheme);
        Spot {
            column: past(at.column, usize::from(columns)),
            byte: past(at.byte, grapheme.len()),
        }
    }

    // Draws a part of a line, which begins at a spot, read grapheme by grapheme.
    fn draw_rest(
        &self,
        plan: &Plan,
        from: Spot,
        text: &str,
        row: Rect,
        buf: &mut Buffer,
    ) -> Result<(), AllocError>
        requires { IsRowIn buf.old.area row }
        ensures done { let d = graphemes_drawing self.now plan.now row.width from.column from.byte
            (graphemes true text.now) in IsDone d row result buf.old buf.new }
        ensures area { buf.new.area ≡ buf.old.area }
    {
        let mut left = text.graphemes(true);
        let mut at = from;
        'walk: while let Some(grapheme) = left.next() {
            let x = at.column.saturating_sub(plan.left);
            let room = usize::from(row.width);
            if x >= room {
                return Ok(());
            }
            self.draw_grapheme(plan, at, grapheme, row, buf)?;
            at = self.next_spot(at, grapheme);
        }
        Ok(())
    }

    // Draws a part of a line, which begins at a place. Printable characters of ASCII left of the view
    // are passed at once, and aren't read where the part is known to have nothing else.
    fn draw_part(
        &self,
        plan: &Plan,
        from: Spot,
        is_plain: bool,
        text: &str,
        row: Rect,
        buf: &mut Buffer,
    ) -> Result<(), AllocError>
        requires row { IsRowIn buf.old.area row }
        requires plain { is_plain ≡ true → ArePrintable text.now }
        ensures done { let d = graphemes_drawing self.now plan.now row.width from.column from.byte
            (graphemes true text.now) in IsDone d row result buf.old buf.new }
        ensures area { buf.new.area ≡ buf.old.area }
    {
        let hidden = plan.columns_left().saturating_sub(from.column);
        let front = front_len(is_plain, text, hidden);
        let at = Spot {
            column: past(from.column, front),
            byte: past(from.byte, front),
        };
        self.draw_rest(plan, at, &text[front..], row, buf)
    }

    // The line of a number as far as the cursor, if it is the cursor's, and else the whole line.
    pub(crate) fn front_text(&self, plan: &Plan, number: usize, start: usize) -> &str
        requires start { start ≡ nth_start number (area_text self.now.text.now) }
        requires boundary { IsCharBoundary (area_text self.now.text.now) start }
        ensures { result.now ≡ front_text self.now plan.now number }
    {
        if number == plan.row {
            self.text.cursor_line().0
        } else {
            self.text.line_from(start)
        }
    }

    // What stands after the cursor in the line of a number, if it is the cursor's.
    pub(crate) fn back_text(&self, plan: &Plan, number: usize) -> &str
        ensures { result.now ≡ back_text self.now plan.now number }
    {
        if number == plan.row {
            self.text.cursor_line().1
        } else {
            ""
        }
    }

    // Whether the line of a number is the cursor's and known to have nothing but printable characters
    // of ASCII.
    pub(crate) fn is_plain(&self, plan: &Plan, number: usize) -> bool
        ensures front { result ≡ true → ArePrintable (front_text self.now plan.now number) }
        ensures back { result ≡ true → ArePrintable (back_text self.now plan.now number) }
    {
        number == plan.row && self.text.is_plain_line()
    }

    // Draws the line of a number, which begins at a byte.
    #[tactic(auto, using(rtui_drawing::proofs::DrawingLemmas::drawing_steps))]
    fn draw_line(
        &self,
        plan: &Plan,
        number: usize,
        start: usize,
        row: Rect,
        buf: &mut Buffer,
    ) -> Result<(), AllocError>
        requires row { IsRowIn buf.old.area row }
        requires start { start ≡ nth_start number (area_text self.now.text.now) }
        requires boundary { IsCharBoundary (area_text self.now.text.now) start }
        ensures done { let d = line_drawing self.now plan.now row.width number in
            IsDone d row result buf.old buf.new }
        ensures area { buf.new.area ≡ buf.old.area }
    {
        let front = Spot {
            column: 0,
            byte: start,
        };
        let back = Spot {
            column: plan.column,
            byte: self.text.cursor_byte(),
        };
        let is_plain = self.is_plain(plan, number);
        let text = self.front_text(plan, number, start);
        self.draw_part(plan, front, is_plain, text, row, buf)?;
        let text = self.back_text(plan, number);
        self.draw_part(plan, back, is_plain, text, row, buf)
    }

    // Draws the number of a line, as far as there are columns for numbers; answers how many it took.
    #[tactic(auto, using(rtui_drawing::proofs::DrawingLemmas::drawing_steps, crate::proofs::RowLemmas::row_parts))]
    pub(crate) fn draw_number(
        &self,
        plan: &Plan,
        number: usize,
        row: Rect,
        buf: &mut Buffer,
    ) -> Result<u16, AllocError>
        requires { IsRowIn buf.old.area row }
        ensures done { let d = number_drawing self.now plan.now row.width number in
            IsDone d row result buf.old buf.new }
        ensures area { buf.new.area ≡ buf.old.area }
    {
        let style = self.line_numbers.unwrap_or(Style::new());
        let columns = plan.numbers.saturating_sub(1);
        let part = Cut::First(columns).of(row);
        let next = past(number, 1);
        write_number(next, style, part, buf)
    }

    // Draws the row of a line, which begins at a byte.
    #[tactic(auto, using(rtui_drawing::proofs::DrawingLemmas::drawing_steps, crate::proofs::RowLemmas::row_parts))]
    fn draw_row(
        &self,
        plan: &Plan,
        number: usize,
        start: usize,
        row: Rect,
        buf: &mut Buffer,
    ) -> Result<(), AllocError>
        requires row { IsRowIn buf.old.area row }
        requires numbers { plan.now.numbers ≤ row.width }
        requires start { start ≡ nth_start number (area_text self.now.text.now) }
        requires boundary { IsCharBoundary (area_text self.now.text.now) start }
        ensures done { let d = numbered_row_drawing self.now plan.now row.width number in
            IsDone d row result buf.old buf.new }
        ensures area { buf.new.area ≡ buf.old.area }
    {
        put_style_if(number == plan.row, self.cursor_line_style, row, buf);
        self.draw_number(plan, number, row, buf)?;
        self.draw_line(plan, number, start, Cut::After(plan.numbers).of(row), buf)
    }

    // Draws the lines in view, the first of which begins at a byte.
    fn draw_rows_from(
        &self,
        plan: &Plan,
        first: usize,
        inner: Rect,
        buf: &mut Buffer,
    ) -> Result<(), AllocError>
        requires some { IsBoxArea inner }
        requires inside { IsInside inner buf.old.area }
        requires numbers { plan.now.numbers < inner.width }
        requires within { plan.now.top ≤ feeds (area_text self.now.text.now) }
        requires first { first ≡ nth_start plan.now.top (area_text self.now.text.now) }
        requires boundary { IsCharBoundary (area_text self.now.text.now) first }
        ensures done { let d = numbered_rows_drawing self.now plan.now inner.width 0 inner.height in
            IsDone d inner result buf.old buf.new }
        ensures area { buf.new.area ≡ buf.old.area }
    {
        let mut number = plan.top;
        let mut start = first;
        for k in 0..inner.height {
            let row = Cut::Rows(k, 1).of(inner);
            self.draw_row(plan, number, start, row, buf)?;
            let Some(next) = self.text.start_after(number, start) else {
                return Ok(());
            };
            number += 1;
            start = next;
        }
        Ok(())
    }

    // Draws the lines in view.
    fn draw_rows(&self, plan: &Plan, inner: Rect, buf: &mut Buffer) -> Result<(), AllocError>
        requires some { IsBoxArea inner }
        requires inside { IsInside inner buf.old.area }
        requires numbers { plan.now.numbers < inner.width }
        ensures done { let d = numbered_rows_drawing self.now plan.now inner.width 0 inner.height in
            IsDone d inner result buf.old buf.new }
        ensures area { buf.new.area ≡ buf.old.area }
    {
        match self.text.line_start(plan.top) {
            Some(first) => self.draw_rows_from(plan, first, inner, buf),
            None => Ok(()),
        }
    }

    // Draws the placeholder, if there is no text; answers how many columns it took.
    #[tactic(auto, using(rtui_drawing::proofs::DrawingLemmas::drawing_steps, crate::proofs::RowLemmas::row_parts))]
    fn draw_placeholder(
        &self,
        plan: &Plan,
        inner: Rect,
        buf: &mut Buffer,
    ) -> Result<u16, AllocError>
        requires some { IsBoxArea inner }
        requires inside { IsInside inner buf.old.area }
        requires numbers { plan.now.numbers < inner.width }
        ensures done { let d = placeholder_drawing self.now plan.now inner.width in
            IsDone d inner result buf.old buf.new }
        ensures area { buf.new.area ≡ buf.old.area }
    {
        let first = Cut::Rows(0, 1).of(inner);
        let row = Cut::After(plan.numbers).of(first);
        write_if(
            self.text.is_empty(),
            self.placeholder,
            self.placeholder_style,
            row,
            buf,
        )
    }

    // Draws the lines in view, wrapped or not.
    fn draw_lines(&self, plan: &Plan, inner: Rect, buf: &mut Buffer) -> Result<(), AllocError>
        requires some { IsBoxArea inner }
        requires inside { IsInside inner buf.old.area }
        requires stride { 0 < plan.now.stride }
        requires numbers { plan.now.numbers + plan.now.stride ≤ inner.width }
        ensures done { let d = lines_drawing self.now.wraps self.now plan.now inner in
            IsDone d inner result buf.old buf.new }
        ensures area { buf.new.area ≡ buf.old.area }
    {
        if self.wraps {
            self.draw_wrapped(plan, inner, buf)
        } else {
            self.draw_rows(plan, inner, buf)
        }
    }

    // Draws all that a plan shows.
    #[tactic(auto, using(rtui_drawing::proofs::DrawingLemmas::drawing_steps))]
    pub(crate) fn draw_plan(
        &self,
        plan: &Plan,
        inner: Rect,
        buf: &mut Buffer,
    ) -> Result<(), AllocError>
        requires some { IsBoxArea inner }
        requires inside { IsInside inner buf.old.area }
        requires stride { 0 < plan.now.stride }
        requires numbers { plan.now.numbers + plan.now.stride ≤ inner.width }
        ensures { IsDone (planned_drawing self.now plan.now inner) inner result buf.old buf.new }
    {
        self.draw_lines(plan, inner, buf)?;
        self.draw_placeholder(plan, inner, buf)?;
        Ok(())
    }
}
