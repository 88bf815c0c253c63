//! A box with borders, titles and padding.

ghost use Rattle.std.specs.Prelude.{◌≡◌, ◌-◌, ◌≤◌, IfOk, None, Some};
ghost use Rattle.widget_boxes.specs.declared.title.TitlePosition.TheVariants.{Top, Bottom};
ghost use Rattle.ratatui_core.specs.Symbols.{border_texts};
ghost use Rattle.ratatui_core.specs.Text.{raw_line};
ghost use Rattle.widget_boxes.specs.Kinds.{border_of_kind};
ghost use Rattle.widget_boxes.specs.Boxes.{AddsTitle, IsNewBlock, has_side, has_row, has_title, is_in_row};
ghost use Rattle.widget_boxes.specs.Boxes.{inner_of, columns_around, rows_around};

use crate::border_type::BorderType;
use crate::borders::Borders;
use crate::padding::Padding;
use crate::title::{Title, TitlePosition};
use bitflags::Flags;
use ratatui_core::buffer::Buffer;
use ratatui_core::layout::{HorizontalAlignment, Rect};
use ratatui_core::style::Style;
use ratatui_core::symbols::border;
use ratatui_core::symbols::merge::MergeStrategy;
use ratatui_core::text::Line;
use ratatui_core::widgets::Widget;
use std::alloc::{AllocError, Global};

mod clone;
mod sides;
mod titles;

/// A box: borders on some of its sides, titles in its first and its last row, and the space inside.
///
/// ```
/// let block = Block::bordered(alloc).border_type(BorderType::Rounded).title_raw("Files")?;
/// let inside = block.inner(area);
/// block.render(area, buf)?;
/// ```
#[derive(Debug, PartialEq, Eq, Drop)]
pub struct Block<'a> {
    titles: Vec<Title<'a>>,
    titles_style: Style,
    titles_alignment: HorizontalAlignment,
    titles_position: TitlePosition,
    borders: Borders,
    border_style: Style,
    border_set: border::Set<'a>,
    pub(crate) style: Style,
    padding: Padding,
    merge_borders: MergeStrategy,
}

impl<'a> Block<'a> {
    /// Makes a box without borders, titles, padding and style; takes no memory.
    pub fn new(alloc: Global) -> Block<'a>
        ensures { IsNewBlock 0 result }
    {
        Block {
            titles: Vec::new(alloc),
            titles_style: Style::new(),
            titles_alignment: HorizontalAlignment::Left,
            titles_position: TitlePosition::Top,
            borders: Borders::NONE,
            border_style: Style::new(),
            border_set: border::PLAIN,
            style: Style::new(),
            padding: Padding::ZERO,
            merge_borders: MergeStrategy::Replace,
        }
    }

    /// Makes a box with plain lines on each side; takes no memory.
    pub fn bordered(alloc: Global) -> Block<'a>
        ensures { IsNewBlock 15 result }
    {
        Block::new(alloc).borders(Borders::ALL)
    }

    /// Adds a title, which stands where the titles do.
    ///
    /// # Errors
    ///
    /// `AllocError` if memory is refused; the box is gone then.
    pub fn title(self, line: Line<'a>) -> Result<Block<'a>, AllocError>
        ensures { IfOk result (AddsTitle None line.entry self.entry) }
    {
        self.with_title(None, line)
    }

    /// Adds a plain text as a title, which stands where the titles do.
    ///
    /// # Errors
    ///
    /// `AllocError` if memory is refused; the box is gone then.
    pub fn title_raw(self, text: &'a str) -> Result<Block<'a>, AllocError>
        ensures { IfOk result (AddsTitle None (raw_line text.now) self.entry) }
    {
        let line = Line::raw(*self.titles.allocator(), text)?;
        self.title(line)
    }

    /// Adds a title in the first row.
    ///
    /// # Errors
    ///
    /// `AllocError` if memory is refused; the box is gone then.
    pub fn title_top(self, line: Line<'a>) -> Result<Block<'a>, AllocError>
        ensures { IfOk result (AddsTitle (Some Top) line.entry self.entry) }
    {
        self.with_title(Some(TitlePosition::Top), line)
    }

    /// Adds a title in the last row.
    ///
    /// # Errors
    ///
    /// `AllocError` if memory is refused; the box is gone then.
    pub fn title_bottom(self, line: Line<'a>) -> Result<Block<'a>, AllocError>
        ensures { IfOk result (AddsTitle (Some Bottom) line.entry self.entry) }
    {
        self.with_title(Some(TitlePosition::Bottom), line)
    }

    // The box with a title after the others.
    fn with_title(
        mut self,
        position: Option<TitlePosition>,
        line: Line<'a>,
    ) -> Result<Block<'a>, AllocError>
        ensures { IfOk result (AddsTitle position line.entry self.entry) }
    {
        self.titles.push(Title { position, line })?;
        Ok(self)
    }

    /// Lays a style under each title.
    pub fn title_style(mut self, style: Style) -> Block<'a>
        ensures { result ≡ record self.entry { titles_style = style } }
    {
        self.titles_style = style;
        self
    }

    /// Sets the alignment of each title that has none of its own.
    pub fn title_alignment(mut self, alignment: HorizontalAlignment) -> Block<'a>
        ensures { result ≡ record self.entry { titles_alignment = alignment } }
    {
        self.titles_alignment = alignment;
        self
    }

    /// Sets the row of each title that doesn't say its own.
    pub fn title_position(mut self, position: TitlePosition) -> Block<'a>
        ensures { result ≡ record self.entry { titles_position = position } }
    {
        self.titles_position = position;
        self
    }

    /// Sets the style of the borders.
    pub fn border_style(mut self, style: Style) -> Block<'a>
        ensures { result ≡ record self.entry { border_style = style } }
    {
        self.border_style = style;
        self
    }

    /// Sets the style of the box.
    pub fn style(mut self, style: Style) -> Block<'a>
        ensures { result ≡ record self.entry { style = style } }
    {
        self.style = style;
        self
    }

    /// Sets the sides that have borders.
    pub fn borders(mut self, borders: Borders) -> Block<'a>
        ensures { result ≡ record self.entry { borders = borders } }
    {
        self.borders = borders;
        self
    }

    /// Sets the kind of the borders.
    pub fn border_type(self, border_type: BorderType) -> Block<'a>
        ensures symbols { border_texts result.border_set ≡ border_of_kind border_type }
        ensures rest { result ≡ record self.entry { border_set = result.border_set } }
    {
        self.border_set(border_type.to_border_set())
    }

    /// Sets the symbols of the borders.
    pub fn border_set(mut self, border_set: border::Set<'a>) -> Block<'a>
        ensures { result ≡ record self.entry { border_set = border_set.entry } }
    {
        self.border_set = border_set;
        self
    }

    /// Sets the space inside, in columns and rows.
    pub fn padding(mut self, padding: Padding) -> Block<'a>
        ensures { result ≡ record self.entry { padding = padding } }
    {
        self.padding = padding;
        self
    }

    /// Sets the strategy by which the borders are joined with what stands there.
    pub fn merge_borders(mut self, strategy: MergeStrategy) -> Block<'a>
        ensures { result ≡ record self.entry { merge_borders = strategy } }
    {
        self.merge_borders = strategy;
        self
    }

    /// Returns what is inside: the area without the rows and columns of borders and titles, and
    /// without the padding.
    pub fn inner(&self, area: Rect) -> Rect
        ensures { result ≡ inner_of self.now area }
    {
        let left = u16::from(self.has_side(Borders::LEFT));
        let right = u16::from(self.has_side(Borders::RIGHT));
        let top = u16::from(self.has_row(Borders::TOP, TitlePosition::Top));
        let bottom = u16::from(self.has_row(Borders::BOTTOM, TitlePosition::Bottom));
        let columns = self.padding.left.saturating_add(self.padding.right);
        let rows = self.padding.top.saturating_add(self.padding.bottom);
        let x = area.x.saturating_add(left).min(area.right());
        let y = area.y.saturating_add(top).min(area.bottom());
        Rect {
            x: x.saturating_add(self.padding.left),
            y: y.saturating_add(self.padding.top),
            width: inside(area.width, left, right, columns),
            height: inside(area.height, top, bottom, rows),
        }
    }

    /// Returns how many columns the box takes left and right of what is inside.
    pub fn columns_around(&self) -> usize
        ensures { result ≡ columns_around self.now }
    {
        let left = usize::from(self.has_side(Borders::LEFT));
        let right = usize::from(self.has_side(Borders::RIGHT));
        let padding = self.padding.left.saturating_add(self.padding.right);
        left + right + usize::from(padding)
    }

    /// Returns how many rows the box takes above and below what is inside.
    pub fn rows_around(&self) -> usize
        ensures { result ≡ rows_around self.now }
    {
        let top = usize::from(self.has_row(Borders::TOP, TitlePosition::Top));
        let bottom = usize::from(self.has_row(Borders::BOTTOM, TitlePosition::Bottom));
        let padding = self.padding.top.saturating_add(self.padding.bottom);
        top + bottom + usize::from(padding)
    }

    // Whether a side is drawn.
    pub(crate) fn has_side(&self, side: Borders) -> bool
        ensures { result ≡ has_side self.now side }
    {
        self.borders.contains(side)
    }

    // Whether the row at this side is no part of the inside.
    fn has_row(&self, side: Borders, position: TitlePosition) -> bool
        ensures { result ≡ has_row self.now side position }
    {
        self.has_side(side) || self.has_title_at_position(position)
    }

    // Whether a title stands in this row.
    fn has_title_at_position(&self, position: TitlePosition) -> bool
        ensures { result ≡ has_title self.now position }
    {
        let own = self.titles_position;
        self.titles
            .as_slice()
            .iter()
            .any(|title| is_in_row(title, own, position))
    }
}

// Whether a title stands in a row, where those stand in another one that don't say so themselves.
pub(crate) fn is_in_row(title: &Title<'_>, own: TitlePosition, position: TitlePosition) -> bool
    ensures { result ≡ is_in_row own position title.now }
{
    match (title.position.unwrap_or(own), position) {
        (TitlePosition::Top, TitlePosition::Top) => true,
        (TitlePosition::Bottom, TitlePosition::Bottom) => true,
        _ => false,
    }
}

// A number less three others.
fn inside(size: u16, first: u16, last: u16, padding: u16) -> u16
    ensures { result ≡ size - first - last - padding }
{
    size.saturating_sub(first)
        .saturating_sub(last)
        .saturating_sub(padding)
}

/// Over the area, as far as the buffer has it: the style over all of it, the borders, and the
/// titles.
impl<'b, 'a> Widget for &'b Block<'a> {
    ghost use Rattle.widget_boxes.specs.Boxes.{RendersBlock, IsShortBlock};

    ghost renders = { λ b. RendersBlock b.now };

    ghost is_short = { λ b. IsShortBlock b.now };

    fn render(self, area: Rect, buf: &mut Buffer) -> Result<(), AllocError> {
        let Some(part) = buf.part(area) else {
            return Ok(());
        };
        buf.set_style(part, self.style);
        self.render_borders(part, buf)?;
        if self.titles.as_slice().is_empty() {
            return Ok(());
        }
        self.render_titles(part, buf)
    }
}

impl<'a> Widget for Block<'a> {
    ghost use Rattle.widget_boxes.specs.Boxes.{RendersBlock, IsShortBlock};

    ghost renders = { RendersBlock };

    ghost is_short = { IsShortBlock };

    fn render(self, area: Rect, buf: &mut Buffer) -> Result<(), AllocError> {
        (&self).render(area, buf)
    }
}
