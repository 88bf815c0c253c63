//! A text in an area.

ghost use Rattle.std.specs.Prelude.{◌≡◌, ◌+◌, ◌<◌, ◌≤◌, ◌∷◌, [], min, length, Some, None, IsOk, IfOk, OnOk};
ghost use Rattle.std.specs.Prelude.{All, IsTrue, ◌^◌, ◌-◌};
ghost use Rattle.ratatui_core.specs.Layout.{HasPosition, IsInside};
ghost use Rattle.ratatui_core.specs.Buffer.{IsSettledBuffer, IsReadyAt, IsReadyFrom, position_of};
ghost use Rattle.ratatui_core.specs.Buffer.{IsShort, text_width, Paints, piece_of};
ghost use Rattle.ratatui_core.specs.Text.{raw_text, ArePrintable, EachSpanGrapheme};
ghost use Rattle.ratatui_core.specs.Widgets.{ChangesWithin};
ghost use Rattle.ratatui_core.specs.declared.layout.HorizontalAlignment.TheVariants.{Left, Center, Right};
ghost use Rattle.widget_boxes.specs.Boxes.{IsBoxArea};
ghost use Rattle.widget_paragraph.specs.Paragraphs.{IsNewParagraph, aligned_row, aligned_rows};
ghost use Rattle.widget_paragraph.specs.Paragraphs.{columns_scrolled, cut_line, broken_line, rows_of_lines};
ghost use Rattle.widget_paragraph.specs.Paragraphs.{paragraph_rows, rows_taken, rows_shown, indent_of};
ghost use Rattle.widget_paragraph.specs.Paragraphs.{columns_needed};
ghost use Rattle.widget_paragraph.specs.Paragraphs.{graphemes_of, HasShortText};
ghost use Rattle.widget_paragraph.specs.Inner.{grapheme_in};
ghost use Rattle.widget_paragraph.specs.Paragraphs.{PaintsGrapheme, PaintsGraphemes, PaintsRow, PaintsRows};
ghost use Rattle.widget_paragraph.specs.Paragraphs.{FillsText};
ghost use Rattle.widget_paragraph.specs.Inner.{PaintsOn};
ghost use Rattle.widget_paragraph.specs.Inner.{left_of, IsAhead, left_of_cut, IsCut};
ghost use Rattle.widget_paragraph.specs.Reflow.{columns_taken, AllFit, broken_rows};
ghost use Rattle.widget_paragraph.specs.Reflow.{cut_row};

use crate::ahead::Ahead;
use crate::cut::Cut;
use crate::measured::Measured;
use crate::reflow::columns_of;
use ratatui_core::buffer::{Buffer, CellWidth};
use ratatui_core::layout::{HorizontalAlignment, Position, Rect};
use ratatui_core::style::Style;
use ratatui_core::text::{Line, Text};
use ratatui_core::widgets::Widget;
use std::alloc::{AllocError, Global};
use widget_boxes::{Block, columns_around_if, render_frame, rows_around_if};

mod clone;

/// How lines are broken that don't fit.
#[derive(Debug, Default, Clone, Copy, PartialEq, Eq, Hash)]
pub struct Wrap {
    /// Whether blanks at the beginning of a row are left out.
    pub trim: bool,
}

/// A text in an area, in a box if it has one: each line in a row of its own, cut or broken into
/// rows.
///
/// ```
/// let paragraph = Paragraph::raw(alloc, "The quick brown fox")?
///     .wrap(Wrap { trim: true })
///     .block(Block::bordered(alloc));
/// frame.render_widget(paragraph, area)?;
/// ```
#[derive(Debug, PartialEq, Eq, Drop)]
pub struct Paragraph<'a> {
    block: Option<Block<'a>>,
    pub(crate) style: Style,
    wrap: Option<Wrap>,
    text: Text<'a>,
    scroll: Position,
    alignment: HorizontalAlignment,
}

impl<'a> Paragraph<'a> {
    /// Makes a paragraph of a text; takes no memory.
    pub fn new(text: Text<'a>) -> Paragraph<'a>
        ensures { IsNewParagraph text.entry result }
    {
        Paragraph {
            block: None,
            style: Style::new(),
            wrap: None,
            text,
            scroll: Position { x: 0, y: 0 },
            alignment: HorizontalAlignment::Left,
        }
    }

    /// Makes a paragraph of a plain text, a line for each of its lines.
    ///
    /// # Errors
    ///
    /// `AllocError` if memory is refused.
    pub fn raw(alloc: Global, text: &'a str) -> Result<Paragraph<'a>, AllocError>
        ensures { IfOk result (IsNewParagraph (raw_text text.now)) }
    {
        let text = Text::raw(alloc, text)?;
        Ok(Paragraph::new(text))
    }

    /// Puts the paragraph in a box.
    pub fn block(mut self, block: Block<'a>) -> Paragraph<'a>
        ensures { result ≡ record self.entry { block = Some block.entry } }
    {
        self.block = Some(block);
        self
    }

    /// Sets the style of the paragraph.
    pub fn style(mut self, style: Style) -> Paragraph<'a>
        ensures { result ≡ record self.entry { style = style } }
    {
        self.style = style;
        self
    }

    /// Breaks the lines of the paragraph if they don't fit.
    pub fn wrap(mut self, wrap: Wrap) -> Paragraph<'a>
        ensures { result ≡ record self.entry { wrap = Some wrap } }
    {
        self.wrap = Some(wrap);
        self
    }

    /// Leaves out so many of the first rows and of the first columns, in this order.
    pub fn scroll(mut self, offset: (u16, u16)) -> Paragraph<'a>
        ensures { let place = position_of (offset.1, offset.0) in
            result ≡ record self.entry { scroll = place } }
    {
        self.scroll = Position {
            x: offset.1,
            y: offset.0,
        };
        self
    }

    /// Sets the alignment of each line that has none of its own.
    pub fn alignment(mut self, alignment: HorizontalAlignment) -> Paragraph<'a>
        ensures { result ≡ record self.entry { alignment = alignment } }
    {
        self.alignment = alignment;
        self
    }

    /// Aligns the paragraph to the left.
    pub fn left_aligned(self) -> Paragraph<'a>
        ensures { result ≡ record self.entry { alignment = Left } }
    {
        self.alignment(HorizontalAlignment::Left)
    }

    /// Centres the paragraph.
    pub fn centered(self) -> Paragraph<'a>
        ensures { result ≡ record self.entry { alignment = Center } }
    {
        self.alignment(HorizontalAlignment::Center)
    }

    /// Aligns the paragraph to the right.
    pub fn right_aligned(self) -> Paragraph<'a>
        ensures { result ≡ record self.entry { alignment = Right } }
    {
        self.alignment(HorizontalAlignment::Right)
    }

    /// Returns how many rows the paragraph takes in so many columns, with those of its box: none if
    /// there are no columns, and at most `usize::MAX`.
    ///
    /// # Errors
    ///
    /// `AllocError` if memory is refused.
    pub fn line_count(&self, alloc: Global, width: u16) -> Result<usize, AllocError>
        ensures rows { IfOk result (λ n. n ≡ rows_taken self.now width) }
        ensures short { self.now.wrap ≡ None → IsOk result }
    {
        if width < 1 {
            return Ok(0);
        }
        let rows = self.count_rows(alloc, width)?;
        Ok(rows.saturating_add(rows_around_if(&self.block)))
    }

    /// Returns how many columns the paragraph needs so that no line of it is broken or cut, with
    /// those of its box; at most `usize::MAX`.
    pub fn line_width(&self) -> usize
        ensures { result ≡ columns_needed self.now }
    {
        let around = columns_around_if(&self.block);
        self.text.width().saturating_add(around)
    }

    // How many rows the text takes in so many columns.
    fn count_rows(&self, alloc: Global, width: u16) -> Result<usize, AllocError>
        ensures rows { IfOk result (λ n.
            n ≡ min (length (paragraph_rows self.now width)) (2 ^ 64 - 1)) }
        ensures short { self.now.wrap ≡ None → IsOk result }
    {
        match self.wrap {
            None => Ok(self.text.height()),
            Some(wrap) => self.count_broken_rows(alloc, width, wrap),
        }
    }

    // How many rows the lines take that are broken.
    fn count_broken_rows(&self, alloc: Global, width: u16, wrap: Wrap) -> Result<usize, AllocError>
        ensures { let rows = rows_of_lines (Some wrap) self.now width self.now.text.lines in
            IfOk result (λ n. n ≡ min (length rows) (2 ^ 64 - 1)) }
    {
        let mut count = 0usize;
        for line in self.text.lines.as_slice() {
            count = count.saturating_add(self.count_broken(alloc, line, width, wrap)?);
        }
        Ok(count)
    }

    // How many rows a line takes that is broken: one if it is empty.
    fn count_broken(
        &self,
        alloc: Global,
        line: &Line<'a>,
        width: u16,
        wrap: Wrap,
    ) -> Result<usize, AllocError>
        ensures { let rows = broken_line self.now width wrap line.now in
            IfOk result (λ n. n ≡ min (length rows) (2 ^ 64 - 1)) }
    {
        let graphemes = line.styled_graphemes(self.text.style);
        row_count(Ahead::new(alloc, graphemes, width, wrap.trim))
    }

    // Renders the text in a part of the buffer.
    fn render_text(&self, part: Rect, buf: &mut Buffer) -> Result<(), AllocError>
        requires some { IsBoxArea part }
        requires inside { IsInside part buf.old.area }
        ensures within { ChangesWithin part buf.old buf.new }
        ensures ok { OnOk result (FillsText self.now part buf.old buf.new) }
        ensures settled { IsReadyFrom part.y buf.old → OnOk result (IsSettledBuffer buf.new) }
        ensures short { self.now.wrap ≡ None → HasShortText self.now → IsOk result }
    {
        match self.wrap {
            Some(wrap) => self.render_wrapped(part, wrap, buf),
            None => self.render_truncated(part, buf),
        }
    }

    // Each line cut, in a row of its own.
    fn render_truncated(&self, part: Rect, buf: &mut Buffer) -> Result<(), AllocError>
        requires some { IsBoxArea part }
        requires inside { IsInside part buf.old.area }
        ensures within { ChangesWithin part buf.old buf.new }
        ensures ok { let rows = rows_of_lines None self.now part.width self.now.text.lines in
            let shown = rows_shown part.height self.now.scroll.y rows in
            OnOk result (PaintsRows part part.y shown buf.old buf.new) }
        ensures settled { IsReadyFrom part.y buf.old → OnOk result (IsSettledBuffer buf.new) }
        ensures short { HasShortText self.now → IsOk result }
    {
        let lines = self.text.lines.as_slice();
        for k in 0..part.height {
            let Some(line) = lines.get(usize::from(self.scroll.y) + usize::from(k)) else {
                return Ok(());
            };
            self.render_cut(line, part, k, buf)?;
        }
        Ok(())
    }

    // The row of a line that is cut, of which so many columns are left out.
    fn cut<'s>(&'s self, line: &'s Line<'a>, width: u16, columns: u16) -> Cut<'s, 'a>
        ensures cut { IsCut result }
        ensures left { left_of_cut result
            ≡ cut_row width columns (graphemes_of self.now line.now) }
        ensures width { result.width ≡ width }
        ensures used { result.used ≡ 0 }
    {
        Cut::new(line.styled_graphemes(self.text.style), width, columns)
    }

    // The column in which a line that is cut begins: of one at the left the width doesn't matter.
    fn cut_indent(&self, line: &Line<'a>, alignment: HorizontalAlignment, width: u16) -> u16
        ensures { let columns = columns_scrolled alignment self.now.scroll.x in
            let row = cut_row width columns (graphemes_of self.now line.now) in
            result ≡ indent_of alignment (columns_taken row) width }
    {
        match alignment {
            HorizontalAlignment::Left => 0,
            _ => indent(self.cut(line, width, 0).columns(), width, alignment),
        }
    }

    // A line cut, in row k of a part.
    fn render_cut(
        &self,
        line: &Line<'a>,
        part: Rect,
        k: u16,
        buf: &mut Buffer,
    ) -> Result<(), AllocError>
        requires some { IsBoxArea part }
        requires inside { IsInside part buf.old.area }
        requires row { k < part.height }
        ensures within { ChangesWithin part buf.old buf.new }
        ensures ok { let row = cut_line self.now part.width line.now in
            OnOk result (PaintsRow part (part.y + k) row buf.old buf.new) }
        ensures ready { IsReadyFrom (part.y + k) buf.old
            → OnOk result (IsReadyFrom (part.y + k + 1) buf.new) }
        ensures short { EachSpanGrapheme IsShort line.now.spans → IsOk result }
    {
        let alignment = line.alignment.unwrap_or(self.alignment);
        let start = self.cut_indent(line, alignment, part.width);
        let columns = columns_scrolled(alignment, self.scroll.x);
        render_cut_row(self.cut(line, part.width, columns), start, part, k, buf)
    }

    // Each line broken into rows.
    fn render_wrapped(&self, part: Rect, wrap: Wrap, buf: &mut Buffer) -> Result<(), AllocError>
        requires some { IsBoxArea part }
        requires inside { IsInside part buf.old.area }
        ensures within { ChangesWithin part buf.old buf.new }
        ensures ok { let rows = rows_of_lines (Some wrap) self.now part.width self.now.text.lines in
            let shown = rows_shown part.height self.now.scroll.y rows in
            OnOk result (PaintsRows part part.y shown buf.old buf.new) }
        ensures settled { IsReadyFrom part.y buf.old → OnOk result (IsSettledBuffer buf.new) }
    {
        let mut filling = Filling {
            skip: self.scroll.y,
            row: 0,
        };
        for line in self.text.lines.as_slice() {
            if filling.row == part.height {
                return Ok(());
            }
            filling = self.render_broken(line, wrap, filling, part, buf)?;
        }
        Ok(())
    }

    // A line broken into rows, as far as a part that is filled so has room for them; answers how far
    // it is filled then.
    fn render_broken(
        &self,
        line: &Line<'a>,
        wrap: Wrap,
        filling: Filling,
        part: Rect,
        buf: &mut Buffer,
    ) -> Result<Filling, AllocError>
        requires some { IsBoxArea part }
        requires inside { IsInside part buf.old.area }
        requires row { filling.row ≤ part.height }
        ensures within { ChangesWithin part buf.old buf.new }
        ensures row { IfOk result (λ next. next.row ≤ part.height) }
        ensures ok { let rows = broken_line self.now part.width wrap line.now in
            IfOk result (λ next. PaintsOn part filling next rows buf.old buf.new) }
        ensures ready { IsReadyFrom (part.y + filling.row) buf.old
            → IfOk result (λ next. IsReadyFrom (part.y + next.row) buf.new) }
    {
        let alignment = line.alignment.unwrap_or(self.alignment);
        let graphemes = line.styled_graphemes(self.text.style);
        let ahead = Ahead::new(buf.allocator(), graphemes, part.width, wrap.trim);
        render_line(ahead, alignment, filling, part, buf)
    }
}

// How far a part is filled with rows: how many are still to be skipped, and in which row of the part
// the next one stands.
#[derive(Clone, Copy)]
struct Filling {
    skip: u16,
    row: u16,
}

// How many columns a line that is aligned so is scrolled.
fn columns_scrolled(alignment: HorizontalAlignment, columns: u16) -> u16
    ensures { result ≡ columns_scrolled alignment columns }
{
    match alignment {
        HorizontalAlignment::Left => columns,
        _ => 0,
    }
}

// Renders a row, if no rows are to be skipped and a part that is filled so has room for it; answers
// how far it is filled then.
fn render_next(
    row: &[Measured<'_>],
    alignment: HorizontalAlignment,
    filling: Filling,
    part: Rect,
    buf: &mut Buffer,
) -> Result<Filling, AllocError>
    requires some { IsBoxArea part }
    requires inside { IsInside part buf.old.area }
    requires row { filling.row ≤ part.height }
    requires fits { columns_taken row.now ≤ part.width }
    ensures within { ChangesWithin part buf.old buf.new }
    ensures row { IfOk result (λ next. next.row ≤ part.height) }
    ensures ok { let rows = aligned_row alignment row.now ∷ [] in
        IfOk result (λ next. PaintsOn part filling next rows buf.old buf.new) }
    ensures ready { IsReadyFrom (part.y + filling.row) buf.old
        → IfOk result (λ next. IsReadyFrom (part.y + next.row) buf.new) }
{
    let Filling { skip, row: k } = filling;
    if skip > 0 {
        return Ok(Filling {
            skip: skip - 1,
            row: k,
        });
    }
    if k == part.height {
        return Ok(filling);
    }
    render_row(row, alignment, part, k, buf)?;
    Ok(Filling { skip, row: k + 1 })
}

// Renders the rows of a line, as far as a part that is filled so has room for them; answers how far
// it is filled then.
fn render_line(
    line: Ahead<'_, '_>,
    alignment: HorizontalAlignment,
    filling: Filling,
    part: Rect,
    buf: &mut Buffer,
) -> Result<Filling, AllocError>
    requires some { IsBoxArea part }
    requires inside { IsInside part buf.old.area }
    requires row { filling.row ≤ part.height }
    requires line { IsAhead line }
    requires width { line.width ≡ part.width }
    requires fit { AllFit part.width (left_of line) }
    ensures within { ChangesWithin part buf.old buf.new }
    ensures row { IfOk result (λ next. next.row ≤ part.height) }
    ensures ok { let broken = broken_rows part.width line.entry.trim (left_of line.entry) in
        let rows = aligned_rows alignment broken in
        IfOk result (λ next. PaintsOn part filling next rows buf.old buf.new) }
    ensures ready { IsReadyFrom (part.y + filling.row) buf.old
        → IfOk result (λ next. IsReadyFrom (part.y + next.row) buf.new) }
{
    let mut line = line;
    line.fill()?;
    if line.is_empty() {
        return render_next(&[], alignment, filling, part, buf);
    }
    let mut next = filling;
    while !line.is_empty() {
        if next.skip == 0 && next.row == part.height {
            return Ok(next);
        }
        let (row, count) = line.row();
        next = render_next(row, alignment, next, part, buf)?;
        line.pass(count);
        line.fill()?;
    }
    Ok(next)
}

// How many rows a line takes that is broken: one if it is empty.
fn row_count(line: Ahead<'_, '_>) -> Result<usize, AllocError>
    requires ahead { IsAhead line }
    requires fit { AllFit line.width (left_of line) }
    ensures { let rows = broken_rows line.entry.width line.entry.trim (left_of line.entry) in
        IfOk result (λ n. n ≡ min (length rows) (2 ^ 64 - 1)) }
{
    let mut line = line;
    let mut count = 0usize;
    line.fill()?;
    while !line.is_empty() {
        let (_, taken) = line.row();
        line.pass(taken);
        line.fill()?;
        count = count.saturating_add(1);
    }
    Ok(count.max(1))
}

// The column in which a row of this width begins.
fn indent(width: u16, room: u16, alignment: HorizontalAlignment) -> u16
    ensures { result ≡ indent_of alignment width room }
{
    match alignment {
        HorizontalAlignment::Left => 0,
        HorizontalAlignment::Center => (room / 2).saturating_sub(width / 2),
        HorizontalAlignment::Right => room.saturating_sub(width),
    }
}

// The column in which a row begins: of one at the left its width doesn't matter.
fn row_start(row: &[Measured<'_>], room: u16, alignment: HorizontalAlignment) -> u16
    requires { columns_taken row.now ≤ room }
    ensures { result ≡ indent_of alignment (columns_taken row.now) room }
{
    match alignment {
        HorizontalAlignment::Left => 0,
        _ => indent(columns_of(row), room, alignment),
    }
}

// Whether a grapheme is one printable character of ASCII.
#[tactic(auto, using(crate::proofs::ParagraphLemmas::printable_steps))]
fn is_printable(symbol: &str) -> bool
    ensures one { IsTrue result → length symbol.now ≡ 1 }
    ensures printable { IsTrue result → ArePrintable symbol.now }
{
    let bytes = symbol.as_bytes();
    bytes.len() == 1 && bytes[0] >= 0x20 && bytes[0] < 0x7F
}

// Paints a character of one byte and one column straight into its cell.
fn put_printable(
    symbol: &str,
    style: Style,
    x: u16,
    y: u16,
    buf: &mut Buffer,
) -> Result<(), AllocError>
    requires place { HasPosition buf.old.area (position_of (x, y)) }
    requires one { length symbol.now ≡ 1 }
    ensures paints { let ps = piece_of style symbol.now ∷ [] in
        Paints (position_of (x, y)) ps result buf.old buf.new }
    ensures succeeds { IsOk result }
{
    let alloc = buf.allocator();
    buf[(x, y)].put(alloc, symbol, style)
}

// Paints a grapheme in a place of a part, in the columns that it takes.
fn put_grapheme(
    symbol: &str,
    style: Style,
    columns: u16,
    part: Rect,
    x: u16,
    y: u16,
    buf: &mut Buffer,
) -> Result<(), AllocError>
    requires some { IsBoxArea part }
    requires inside { IsInside part buf.old.area }
    requires left { part.x ≤ x }
    requires right { x + columns ≤ part.x + part.width }
    requires top { part.y ≤ y }
    requires bottom { y < part.y + part.height }
    requires width { columns ≡ text_width symbol.now }
    ensures within { ChangesWithin part buf.old buf.new }
    ensures ok { let g = grapheme_in style symbol.now in
        OnOk result (PaintsGrapheme x y g buf.old buf.new) }
    ensures ready { IsReadyAt x y buf.old → OnOk result (IsReadyAt (x + columns) y buf.new) }
    ensures short { IsShort symbol.now → IsOk result }
{
    if is_printable(symbol) {
        return put_printable(symbol, style, x, y, buf);
    }
    buf.set_stringn(x, y, symbol, usize::from(columns), style)?;
    Ok(())
}

// Renders a row that is cut in row k of a part, from a column of the part on.
fn render_cut_row(
    cut: Cut<'_, '_>,
    start: u16,
    part: Rect,
    k: u16,
    buf: &mut Buffer,
) -> Result<(), AllocError>
    requires some { IsBoxArea part }
    requires inside { IsInside part buf.old.area }
    requires row { k < part.height }
    requires cut { IsCut cut }
    requires fits { start + columns_taken (left_of_cut cut) ≤ part.width }
    ensures within { ChangesWithin part buf.old buf.new }
    ensures ok { let gs = left_of_cut cut.entry in
        OnOk result (PaintsGraphemes (part.x + start) (part.y + k) gs buf.old buf.new) }
    ensures ready { IsReadyFrom (part.y + k) buf.old
        → OnOk result (IsReadyFrom (part.y + k + 1) buf.new) }
    ensures short { All (λ g. IsShort g.symbol) (left_of_cut cut.entry) → IsOk result }
{
    let mut cut = cut;
    let mut used = start;
    while let Some(grapheme) = cut.next() {
        let columns = grapheme.symbol.cell_width();
        put_grapheme(
            grapheme.symbol,
            grapheme.style,
            columns,
            part,
            part.x + used,
            part.y + k,
            buf,
        )?;
        used += columns;
    }
    Ok(())
}

// Renders graphemes that fit in row k of a part.
#[tactic(auto, using(crate::proofs::ParagraphLemmas::within_steps))]
fn render_row(
    row: &[Measured<'_>],
    alignment: HorizontalAlignment,
    part: Rect,
    k: u16,
    buf: &mut Buffer,
) -> Result<(), AllocError>
    requires some { IsBoxArea part }
    requires inside { IsInside part buf.old.area }
    requires row { k < part.height }
    requires fits { columns_taken row.now ≤ part.width }
    ensures within { ChangesWithin part buf.old buf.new }
    ensures ok { let shown = aligned_row alignment row.now in
        OnOk result (PaintsRow part (part.y + k) shown buf.old buf.new) }
    ensures ready { IsReadyFrom (part.y + k) buf.old
        → OnOk result (IsReadyFrom (part.y + k + 1) buf.new) }
{
    let mut used = row_start(row, part.width, alignment);
    for grapheme in row {
        let columns = grapheme.columns();
        let x = part.x + used;
        put_grapheme(
            grapheme.symbol(),
            grapheme.style(),
            columns,
            part,
            x,
            part.y + k,
            buf,
        )?;
        used += columns;
    }
    Ok(())
}

/// Over the area, as far as the buffer has it: the style, the box, and the text inside it.
impl<'b, 'a> Widget for &'b Paragraph<'a> {
    ghost use Rattle.widget_paragraph.specs.Paragraphs.{RendersParagraph, IsShortParagraph};

    ghost renders = { λ p. RendersParagraph p.now };

    ghost is_short = { λ p _. IsShortParagraph p.now };

    fn render(self, area: Rect, buf: &mut Buffer) -> Result<(), AllocError> {
        let Some(inner) = render_frame(self.style, &self.block, area, buf)? else {
            return Ok(());
        };
        self.render_text(inner, buf)
    }
}

impl<'a> Widget for Paragraph<'a> {
    ghost use Rattle.widget_paragraph.specs.Paragraphs.{RendersParagraph, IsShortParagraph};

    ghost renders = { RendersParagraph };

    ghost is_short = { λ p _. IsShortParagraph p };

    fn render(self, area: Rect, buf: &mut Buffer) -> Result<(), AllocError> {
        (&self).render(area, buf)
    }
}
