//! The titles of a box.

ghost use Rattle.std.specs.Prelude.{◌≡◌, ◌+◌, ◌≤◌, ◌<◌, false, IsOk, OnOk, reverse};
ghost use Rattle.ratatui_core.specs.Widgets.{ChangesWithin};
ghost use Rattle.ratatui_core.specs.declared.layout.HorizontalAlignment.TheVariants.{Left, Center, Right};
ghost use Rattle.widget_boxes.specs.Titles.{side_of, title_width, titles_width, title_at, without_first};
ghost use Rattle.widget_boxes.specs.Titles.{from_left, from_right, from_outside, from_centre, RendersTitle};
ghost use Rattle.widget_boxes.specs.Titles.{RendersTitles};
ghost use Rattle.widget_boxes.specs.Boxes.{has_title, titles_area, is_placed, lines_placed, row_titles};
ghost use Rattle.widget_boxes.specs.Boxes.{placed_titles, IsBoxArea};
ghost use Rattle.widget_boxes.specs.Inner.{KeepsOffTitles};
ghost use Rattle.widget_boxes.specs.Lines.{IsShortTitle};
ghost use Rattle.widget_boxes.specs.Boxes.{HasShortTitles, centre_width, AreShortTitles};

use crate::block::{Block, is_in_row};
use crate::borders::Borders;
use crate::title::{Title, TitlePosition};
use ratatui_core::buffer::Buffer;
use ratatui_core::layout::{HorizontalAlignment, Rect};
use ratatui_core::text::Line;
use ratatui_core::widgets::Widget;
use std::alloc::AllocError;

// How many columns a line takes, at most 65535.
fn columns_of(line: &Line<'_>) -> u16
    ensures { result ≡ title_width line.now }
{
    line.width().min(65535) as u16
}

// An area without its first columns.
fn without_first(area: Rect, columns: u16) -> Rect
    ensures { result ≡ without_first columns area }
{
    Rect {
        x: area.x.saturating_add(columns),
        width: area.width.saturating_sub(columns),
        ..area
    }
}

// An area without a title of so many columns at its left, and without the column after it.
fn after_title(area: Rect, columns: u16) -> Rect
    ensures { result ≡ without_first (columns + 1) area }
{
    Rect {
        x: area.x.saturating_add(columns).saturating_add(1),
        width: area.width.saturating_sub(columns).saturating_sub(1),
        ..area
    }
}

impl<'a> Block<'a> {
    // Renders the titles: in the first row and in the last one those at the left, in the centre and
    // at the right.
    pub(crate) fn render_titles(&self, area: Rect, buf: &mut Buffer) -> Result<(), AllocError>
        requires { IsBoxArea area }
        ensures keeps { KeepsOffTitles self.now area buf.old buf.new }
        ensures ok { let ts = placed_titles self.now area in
            OnOk result (RendersTitles self.now.titles_style ts buf.old buf.new) }
        ensures short { AreShortTitles self.now area → IsOk result }
    {
        self.render_title_position(TitlePosition::Top, area, buf)?;
        self.render_title_position(TitlePosition::Bottom, area, buf)
    }

    // Renders the titles of a row.
    fn render_title_position(
        &self,
        position: TitlePosition,
        area: Rect,
        buf: &mut Buffer,
    ) -> Result<(), AllocError>
        requires { IsBoxArea area }
        ensures within { ChangesWithin (titles_area self.now area position) buf.old buf.new }
        ensures none { has_title self.now position ≡ false → buf.new ≡ buf.old }
        ensures ok { let ts = row_titles self.now (titles_area self.now area position) position in
            OnOk result (RendersTitles self.now.titles_style ts buf.old buf.new) }
        ensures short { AreShortTitles self.now area → IsOk result }
    {
        if !self.has_title_at_position(position) {
            return Ok(());
        }
        let row = self.titles_area(area, position);
        self.render_from_left(position, HorizontalAlignment::Left, row, buf)?;
        self.render_center_titles(position, row, buf)?;
        self.render_right_titles(position, row, buf)
    }

    // Where the titles of this row stand: between the borders.
    fn titles_area(&self, area: Rect, position: TitlePosition) -> Rect
        requires { IsBoxArea area }
        ensures { result ≡ titles_area self.now area position }
    {
        let left = u16::from(self.has_side(Borders::LEFT));
        let right = u16::from(self.has_side(Borders::RIGHT));
        let y = match position {
            TitlePosition::Top => area.y,
            TitlePosition::Bottom => area.y + (area.height - 1),
        };
        Rect {
            x: area.x + left,
            y,
            width: area.width.saturating_sub(left).saturating_sub(right),
            height: 1,
        }
    }

    // Whether a title stands in this row, aligned so.
    fn is_placed(
        &self,
        title: &Title<'a>,
        position: TitlePosition,
        alignment: HorizontalAlignment,
    ) -> bool
        ensures { result ≡ is_placed self.now position alignment title.now }
    {
        let own = title.line.alignment.unwrap_or(self.titles_alignment);
        is_in_row(title, self.titles_position, position) && own == alignment
    }

    // Renders a title over an area of a row, in the style of the titles.
    fn render_title(&self, line: &Line<'a>, area: Rect, buf: &mut Buffer) -> Result<(), AllocError>
        ensures within { ChangesWithin area buf.old buf.new }
        ensures ok { let t = title_at line.now area in
            OnOk result (RendersTitle self.now.titles_style t buf.old buf.new) }
        ensures short { IsShortTitle line.now → IsOk result }
    {
        buf.set_style(area, self.titles_style);
        line.render(area, buf)
    }

    // Renders the titles of a row that are aligned so, from the left on, with a column between each
    // two.
    fn render_from_left(
        &self,
        position: TitlePosition,
        alignment: HorizontalAlignment,
        row: Rect,
        buf: &mut Buffer,
    ) -> Result<(), AllocError>
        ensures within { ChangesWithin row buf.old buf.new }
        ensures ok { let lines = lines_placed self.now position alignment self.now.titles.items in
            OnOk result
            (RendersTitles self.now.titles_style (from_left row lines) buf.old buf.new) }
        ensures short { HasShortTitles self.now → IsOk result }
    {
        let mut left = row;
        for title in self.titles.as_slice() {
            if !self.is_placed(title, position, alignment) {
                continue;
            }
            if left.width == 0 {
                return Ok(());
            }
            let columns = columns_of(&title.line);
            let area = Rect {
                width: columns.min(left.width),
                ..left
            };
            self.render_title(&title.line, area, buf)?;
            left = after_title(left, columns);
        }
        Ok(())
    }

    // Renders the titles at the right, the last one first, with a column between each two.
    fn render_right_titles(
        &self,
        position: TitlePosition,
        row: Rect,
        buf: &mut Buffer,
    ) -> Result<(), AllocError>
        requires { row.x + row.width ≤ 65535 }
        ensures within { ChangesWithin row buf.old buf.new }
        ensures ok { let titles = reverse self.now.titles.items in
            let ts = from_right row (lines_placed self.now position Right titles) in
            OnOk result (RendersTitles self.now.titles_style ts buf.old buf.new) }
        ensures short { HasShortTitles self.now → IsOk result }
    {
        let titles = self.titles.as_slice();
        let mut left = row;
        for k in (0..titles.len()).rev() {
            let title = &titles[k];
            if !self.is_placed(title, position, HorizontalAlignment::Right) {
                continue;
            }
            if left.width == 0 {
                return Ok(());
            }
            let columns = columns_of(&title.line);
            let width = columns.min(left.width);
            let area = Rect {
                x: left.x + (left.width - width),
                width,
                ..left
            };
            self.render_title(&title.line, area, buf)?;
            left.width = left.width.saturating_sub(columns).saturating_sub(1);
        }
        Ok(())
    }

    // How many columns the centred titles of a row take with one between each two, at most 65535.
    fn centered_columns(&self, position: TitlePosition) -> u16
        ensures { let lines = lines_placed self.now position Center self.now.titles.items in
            result ≡ titles_width lines }
    {
        let mut columns = 0usize;
        for title in self.titles.as_slice() {
            if self.is_placed(title, position, HorizontalAlignment::Center) {
                let width = usize::from(columns_of(&title.line));
                columns = columns.saturating_add(width + 1);
            }
        }
        columns.saturating_sub(1).min(65535) as u16
    }

    // Renders the titles in the centre as one, with a column between each two; if they don't fit
    // they are cut on both sides.
    fn render_center_titles(
        &self,
        position: TitlePosition,
        row: Rect,
        buf: &mut Buffer,
    ) -> Result<(), AllocError>
        ensures within { ChangesWithin row buf.old buf.new }
        ensures ok { let lines = lines_placed self.now position Center self.now.titles.items in
            OnOk result
            (RendersTitles self.now.titles_style (from_centre row lines) buf.old buf.new) }
        ensures short { HasShortTitles self.now
            → centre_width self.now position ≤ row.width → IsOk result }
    {
        let columns = self.centered_columns(position);
        if columns <= row.width {
            let left = without_first(row, (row.width - columns) / 2);
            self.render_from_left(position, HorizontalAlignment::Center, left, buf)
        } else {
            self.render_cut(position, row, (columns - row.width) / 2, buf)
        }
    }

    // Renders the titles in the centre without so many columns at the left, as far as the row goes.
    fn render_cut(
        &self,
        position: TitlePosition,
        row: Rect,
        excess: u16,
        buf: &mut Buffer,
    ) -> Result<(), AllocError>
        ensures within { ChangesWithin row buf.old buf.new }
        ensures ok { let lines = lines_placed self.now position Center self.now.titles.items in
            let ts = from_outside excess row lines in
            OnOk result (RendersTitles self.now.titles_style ts buf.old buf.new) }
    {
        let alloc = buf.allocator();
        let mut left = row;
        let mut offset = excess;
        for title in self.titles.as_slice() {
            if !self.is_placed(title, position, HorizontalAlignment::Center) {
                continue;
            }
            if left.width == 0 {
                return Ok(());
            }
            let width = columns_of(&title.line)
                .min(left.width)
                .saturating_sub(offset);
            let line = title.line.clone(alloc)?.alignment(side_of(offset));
            self.render_title(&line, Rect { width, ..left }, buf)?;
            offset = offset.saturating_sub(width).saturating_sub(1);
            left = after_title(left, width);
        }
        Ok(())
    }
}

// The side at which a title stands of which so many columns are cut at the left.
fn side_of(offset: u16) -> HorizontalAlignment
    ensures { result ≡ side_of offset }
{
    if offset == 0 {
        HorizontalAlignment::Left
    } else {
        HorizontalAlignment::Right
    }
}
