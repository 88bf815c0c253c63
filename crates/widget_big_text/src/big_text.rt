//! Lines in large letters.

ghost use Rattle.std.specs.Prelude.{◌≡◌, length, Some, IsOk, OnOk, IfOk, true};
ghost use Rattle.ratatui_core.specs.Text.{raw_text};
ghost use Rattle.ratatui_core.specs.Buffer.{ChangesEach};
ghost use Rattle.ratatui_core.specs.declared.layout.HorizontalAlignment.TheVariants.{Left, Center, Right};
ghost use Rattle.widget_big_text.specs.Glyphs.{glyph_of};
ghost use Rattle.widget_big_text.specs.BigTexts.{IsNewBigText, big_letter_cell, letters_of, line_start, big_cell};
ghost use Rattle.widget_big_text.specs.Inner.{letters_over, line_over, free_columns};

use crate::font::glyph;
use crate::letter::Letter;
use crate::pixel_size::PixelSize;
use ratatui_core::buffer::{Buffer, change_area};
use ratatui_core::layout::{HorizontalAlignment, Rect};
use ratatui_core::style::Style;
use ratatui_core::text::{Line, Lines, StyledGrapheme, Text};
use ratatui_core::widgets::Widget;
use rtui_drawing::Cut;
use rtui_inside::{DrawInside, render_inside};
use std::alloc::{AllocError, Global};
use widget_boxes::{Block, cloned_block};

/// Lines in large letters, one below the other: each character of ASCII is drawn by eight by eight
/// pixels. A grapheme shows the letter of its first character; one that the font doesn't have is
/// blank, and as wide.
///
/// ```
/// let text = BigText::raw(alloc, "Rattle")?.pixel_size(PixelSize::Quadrant).cyan();
/// frame.render_widget(text, area)
/// ```
#[derive(Debug, PartialEq, Eq, Drop)]
pub struct BigText<'a> {
    block: Option<Block<'a>>,
    lines: Vec<Line<'a>>,
    pub(crate) style: Style,
    pixel_size: PixelSize,
    alignment: HorizontalAlignment,
}

impl<'a> BigText<'a> {
    /// Makes a big text of these lines from the left, without a box and a style; a pixel is a cell.
    /// Takes no memory.
    pub fn new(lines: Vec<Line<'a>>) -> BigText<'a>
        ensures { IsNewBigText lines.entry.items result }
    {
        BigText {
            block: None,
            lines,
            style: Style::new(),
            pixel_size: PixelSize::Full,
            alignment: HorizontalAlignment::Left,
        }
    }

    /// Makes a big text of a plain text, a line for each of its lines, as [`new`](BigText::new)
    /// does.
    ///
    /// # Errors
    ///
    /// `AllocError` if memory is refused.
    pub fn raw(alloc: Global, text: &'a str) -> Result<BigText<'a>, AllocError>
        ensures { IfOk result (IsNewBigText (raw_text text.now).lines) }
    {
        let text = Text::raw(alloc, text)?;
        Ok(BigText::new(text.lines.into_vec()))
    }

    /// Sets the lines of the big text.
    pub fn lines(mut self, lines: Vec<Line<'a>>) -> BigText<'a>
        ensures { result ≡ record self.entry { lines = lines.entry } }
    {
        self.lines = lines;
        self
    }

    /// Puts the big text in a box.
    pub fn block(mut self, block: Block<'a>) -> BigText<'a>
        ensures { result ≡ record self.entry { block = Some block.entry } }
    {
        self.block = Some(block);
        self
    }

    /// Sets the style of the letters, which lies under that of a line and of a span; the box and
    /// what is beside the letters keep theirs.
    pub fn style(mut self, style: Style) -> BigText<'a>
        ensures { result ≡ record self.entry { style = style } }
    {
        self.style = style;
        self
    }

    /// Sets how large a pixel is.
    pub fn pixel_size(mut self, pixel_size: PixelSize) -> BigText<'a>
        ensures { result ≡ record self.entry { pixel_size = pixel_size } }
    {
        self.pixel_size = pixel_size;
        self
    }

    /// Sets the alignment of each line that has none of its own.
    pub fn alignment(mut self, alignment: HorizontalAlignment) -> BigText<'a>
        ensures { result ≡ record self.entry { alignment = alignment } }
    {
        self.alignment = alignment;
        self
    }

    /// Aligns to the left each line that has no alignment of its own.
    pub fn left_aligned(self) -> BigText<'a>
        ensures { result ≡ record self.entry { alignment = Left } }
    {
        self.alignment(HorizontalAlignment::Left)
    }

    /// Centers each line that has no alignment of its own.
    pub fn centered(self) -> BigText<'a>
        ensures { result ≡ record self.entry { alignment = Center } }
    {
        self.alignment(HorizontalAlignment::Center)
    }

    /// Aligns to the right each line that has no alignment of its own.
    pub fn right_aligned(self) -> BigText<'a>
        ensures { result ≡ record self.entry { alignment = Right } }
    {
        self.alignment(HorizontalAlignment::Right)
    }

    /// Makes an equal big text.
    ///
    /// # Errors
    ///
    /// `AllocError` if memory is refused.
    pub fn clone(&self, alloc: Global) -> Result<BigText<'a>, AllocError>
        ensures { let same = ⟦<BigText<'a> as PartialEq>⟧.eq in
            IfOk result (λ text. same self.now text ≡ true) }
    {
        Ok(BigText {
            block: cloned_block(alloc, &self.block)?,
            lines: Lines::from_slice(alloc, self.lines.as_slice())?.into_vec(),
            style: self.style,
            pixel_size: self.pixel_size,
            alignment: self.alignment,
        })
    }

    // How many columns are free beside the letters of a line.
    fn free_columns(&self, line: &Line<'a>, width: u16) -> u16
        ensures { result ≡ free_columns self.now line.now width }
    {
        let columns = self.pixel_size.letter_columns();
        let mut free = width;
        for _ in line.styled_graphemes(self.style) {
            if free == 0 {
                return 0;
            }
            free = free.saturating_sub(columns);
        }
        free
    }

    // Before which column the letters of a line begin.
    fn line_start(&self, line: &Line<'a>, width: u16) -> u16
        ensures { result ≡ line_start self.now line.now width }
    {
        match line.alignment.unwrap_or(self.alignment) {
            HorizontalAlignment::Left => 0,
            HorizontalAlignment::Center => self.free_columns(line, width) / 2,
            HorizontalAlignment::Right => self.free_columns(line, width),
        }
    }

    // Draws a letter at the corner of an area.
    fn draw_letter(
        &self,
        letter: &StyledGrapheme<'_>,
        area: Rect,
        buf: &mut Buffer,
    ) -> Result<(), AllocError>
        ensures ok { let g = letter.now in
            let f = big_letter_cell self.now.pixel_size (glyph_of g.symbol.now) g.style area in
            OnOk result (ChangesEach area f buf.old buf.new) }
        ensures succeeds { IsOk result }
    {
        let letter = Letter {
            rows: glyph(letter.symbol),
            size: self.pixel_size,
            style: letter.style,
            area,
        };
        change_area(buf, area, &letter)
    }

    // Draws the letters of a line one beside the other, as far as an area has columns.
    fn draw_letters(&self, line: &Line<'a>, area: Rect, buf: &mut Buffer) -> Result<(), AllocError>
        ensures ok { let f = letters_over self.now.pixel_size (letters_of self.now line.now) area in
            OnOk result (ChangesEach area f buf.old buf.new) }
        ensures succeeds { IsOk result }
    {
        let columns = self.pixel_size.letter_columns();
        let mut rest = area;
        for letter in line.styled_graphemes(self.style) {
            if rest.width == 0 {
                return Ok(());
            }
            self.draw_letter(&letter, Cut::First(columns).of(rest), buf)?;
            rest = Cut::After(columns).of(rest);
        }
        Ok(())
    }

    // Draws a line, aligned as it says.
    fn draw_line(&self, line: &Line<'a>, area: Rect, buf: &mut Buffer) -> Result<(), AllocError>
        ensures ok { let f = line_over self.now line.now area in
            OnOk result (ChangesEach area f buf.old buf.new) }
        ensures succeeds { IsOk result }
    {
        let start = self.line_start(line, area.width);
        self.draw_letters(line, Cut::After(start).of(area), buf)
    }

    // Draws the lines one below the other, as far as an area has rows.
    fn draw_lines(&self, area: Rect, buf: &mut Buffer) -> Result<(), AllocError>
        ensures ok { OnOk result (ChangesEach area (big_cell self.now area) buf.old buf.new) }
        ensures succeeds { IsOk result }
    {
        let rows = self.pixel_size.letter_rows();
        let mut rest = area;
        for line in self.lines.as_slice() {
            if rest.height == 0 {
                return Ok(());
            }
            self.draw_line(line, Cut::Rows(0, rows).of(rest), buf)?;
            rest = Cut::Below(rows).of(rest);
        }
        Ok(())
    }
}

// The letters inside the box.
impl<'a> DrawInside for BigText<'a> {
    ghost use Rattle.widget_big_text.specs.BigTexts.{big_text_drawing};

    ghost drawing = { big_text_drawing };

    fn draw_inside(&self, inner: Rect, buf: &mut Buffer) -> Result<(), AllocError> {
        self.draw_lines(inner, buf)
    }
}

/// Over the area, as far as the buffer has it: the box, and inside the letters, each over all the
/// cells of its part, in the style of the text under that of its line and its span. What is beside
/// letters stays.
impl<'b, 'a> Widget for &'b BigText<'a> {
    ghost use Rattle.widget_big_text.specs.BigTexts.{RendersBigText, LeavesBigText, IsShortBigText};

    ghost renders = { λ text. RendersBigText text.now };

    ghost leaves = { λ text. LeavesBigText text.now };

    ghost is_short = { λ text _. IsShortBigText text.now };

    fn render(self, area: Rect, buf: &mut Buffer) -> Result<(), AllocError> {
        render_inside(self, Style::new(), &self.block, area, buf)
    }
}

impl<'a> Widget for BigText<'a> {
    ghost use Rattle.widget_big_text.specs.BigTexts.{RendersBigText, LeavesBigText, IsShortBigText};

    ghost renders = { RendersBigText };

    ghost leaves = { LeavesBigText };

    ghost is_short = { λ text _. IsShortBigText text };

    fn render(self, area: Rect, buf: &mut Buffer) -> Result<(), AllocError> {
        (&self).render(area, buf)
    }
}
