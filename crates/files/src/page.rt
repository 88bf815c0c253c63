//! A page on a buffer.

ghost use Rattle.std.specs.Prelude.{◌≡◌, ◌+◌, ◌<◌, ◌≤◌, ℕ, OnOk};
ghost use Rattle.ratatui_core.specs.Layout.{IsInside};
ghost use Rattle.ratatui_core.specs.Buffer.{IsReadyAt, IsReadyFrom};
ghost use Rattle.ratatui_core.specs.Widgets.{ChangesWithin};
ghost use Rattle.widget_boxes.specs.Boxes.{IsBoxArea};
ghost use Rattle.files.specs.Columns.{above_width, ahead_start};
ghost use Rattle.files.specs.Pages.{style_in, above_style, PaintsInColumns, PaintsWhole, PaintsAbove, PaintsFolder, PaintsAhead, PaintsColumns};
ghost use Rattle.files.specs.Pages.{PaintsListRow, PaintsFirstRows, cursor_at_column};

use crate::browser::{Browser, Mode};
use crate::columns::{above_width, ahead_start, folder_width};
use ratatui_app::Application;
use ratatui_core::buffer::Buffer;
use ratatui_core::layout::{Position, Rect};
use ratatui_core::style::{Modifier, Style};
use std::alloc::AllocError;

// Paints a text in so many columns of a row, from one on.
fn paint_text(
    text: &str,
    style: Style,
    at: Position,
    width: u16,
    part: Rect,
    buf: &mut Buffer,
) -> Result<(), AllocError>
    requires some { IsBoxArea part }
    requires inside { IsInside part buf.old.area }
    requires left { part.x ≤ at.x }
    requires right { at.x + width ≤ part.x + part.width }
    requires top { part.y ≤ at.y }
    requires bottom { at.y < part.y + part.height }
    ensures within { ChangesWithin part buf.old buf.new }
    ensures ok { OnOk result (PaintsInColumns at.x at.y width style text.now buf.old buf.new) }
    ensures ready { IsReadyAt at.x at.y buf.old → OnOk result
        ((end : ℕ) → at.x + width ≤ end → end ≤ part.x + part.width → IsReadyAt end at.y buf.new) }
{
    buf.set_stringn(at.x, at.y, text, usize::from(width), style)?;
    Ok(())
}

// Where the cursor stands after so many columns of the last row, if the row goes so far.
fn cursor_at_column(column: usize, area: Rect) -> Option<Position>
    ensures { result ≡ cursor_at_column column area }
{
    if area.height == 0 || column >= usize::from(area.width) {
        return None;
    }
    Some(Position {
        x: area.x.saturating_add(column as u16),
        y: area.y.saturating_add(area.height - 1),
    })
}

impl Browser {
    // The style of a row.
    fn style_in(&self, k: u16, height: u16) -> Style
        requires { k < height }
        ensures { result ≡ style_in k height self.now }
    {
        if k == height - 1 {
            Style::new()
        } else if k == 0 {
            Style::new().add_modifier(Modifier::BOLD)
        } else if self.shows_entries() && self.place_in_row(k) == self.selected {
            Style::new().add_modifier(Modifier::REVERSED)
        } else {
            Style::new()
        }
    }

    // The style of a row of the folder above.
    fn above_style(&self, k: u16, height: u16) -> Style
        ensures { result ≡ above_style k height self.now }
    {
        if self.is_own_row(k, height) {
            Style::new().add_modifier(Modifier::REVERSED)
        } else {
            Style::new()
        }
    }

    // Paints a row of one column.
    fn paint_whole(&self, k: u16, part: Rect, buf: &mut Buffer) -> Result<(), AllocError>
        requires some { IsBoxArea part }
        requires inside { IsInside part buf.old.area }
        requires row { k < part.height }
        ensures within { ChangesWithin part buf.old buf.new }
        ensures ok { OnOk result (PaintsWhole self.now part k buf.old buf.new) }
        ensures ready { IsReadyAt part.x (part.y + k) buf.old
            → OnOk result (IsReadyAt (part.x + part.width) (part.y + k) buf.new) }
    {
        let text = self.text_in(k, part.width, part.height)?;
        let style = self.style_in(k, part.height);
        let at = Position {
            x: part.x,
            y: part.y + k,
        };
        paint_text(text.as_str(), style, at, part.width, part, buf)
    }

    // Paints a row of the folder above.
    fn paint_above(&self, k: u16, part: Rect, buf: &mut Buffer) -> Result<(), AllocError>
        requires some { IsBoxArea part }
        requires inside { IsInside part buf.old.area }
        requires row { k < part.height }
        requires wide { 60 ≤ part.width }
        ensures within { ChangesWithin part buf.old buf.new }
        ensures ok { OnOk result (PaintsAbove self.now part k buf.old buf.new) }
        ensures ready { IsReadyAt part.x (part.y + k) buf.old
            → OnOk result (IsReadyAt (part.x + above_width part.width) (part.y + k) buf.new) }
    {
        let text = self.above_text(k, part.height)?;
        let style = self.above_style(k, part.height);
        let at = Position {
            x: part.x,
            y: part.y + k,
        };
        let width = above_width(part.width) - 1;
        paint_text(text.as_str(), style, at, width, part, buf)
    }

    // Paints a row of the folder.
    fn paint_folder(&self, k: u16, part: Rect, buf: &mut Buffer) -> Result<(), AllocError>
        requires some { IsBoxArea part }
        requires inside { IsInside part buf.old.area }
        requires row { k < part.height }
        requires wide { 60 ≤ part.width }
        ensures within { ChangesWithin part buf.old buf.new }
        ensures ok { OnOk result (PaintsFolder self.now part k buf.old buf.new) }
        ensures ready { IsReadyAt (part.x + above_width part.width) (part.y + k) buf.old
            → OnOk result (IsReadyAt (part.x + ahead_start part.width) (part.y + k) buf.new) }
    {
        let width = folder_width(part.width) - 1;
        let text = self.entry_text(self.place_in_row(k), width)?;
        let style = self.style_in(k, part.height);
        let at = Position {
            x: part.x + above_width(part.width),
            y: part.y + k,
        };
        paint_text(text.as_str(), style, at, width, part, buf)
    }

    // Paints a row of what is selected.
    fn paint_ahead(&self, k: u16, part: Rect, buf: &mut Buffer) -> Result<(), AllocError>
        requires some { IsBoxArea part }
        requires inside { IsInside part buf.old.area }
        requires row { k < part.height }
        requires wide { 60 ≤ part.width }
        ensures within { ChangesWithin part buf.old buf.new }
        ensures ok { OnOk result (PaintsAhead self.now part k buf.old buf.new) }
        ensures ready { IsReadyAt (part.x + ahead_start part.width) (part.y + k) buf.old
            → OnOk result (IsReadyAt (part.x + part.width) (part.y + k) buf.new) }
    {
        let start = ahead_start(part.width);
        let text = self.ahead_text(k)?;
        let at = Position {
            x: part.x + start,
            y: part.y + k,
        };
        let width = part.width - start;
        paint_text(text.as_str(), Style::new(), at, width, part, buf)
    }

    // Paints the three columns of a row.
    fn paint_columns(&self, k: u16, part: Rect, buf: &mut Buffer) -> Result<(), AllocError>
        requires some { IsBoxArea part }
        requires inside { IsInside part buf.old.area }
        requires row { k < part.height }
        requires wide { 60 ≤ part.width }
        ensures within { ChangesWithin part buf.old buf.new }
        ensures ok { OnOk result (PaintsColumns self.now part k buf.old buf.new) }
        ensures ready { IsReadyAt part.x (part.y + k) buf.old
            → OnOk result (IsReadyAt (part.x + part.width) (part.y + k) buf.new) }
    {
        self.paint_above(k, part, buf)?;
        self.paint_folder(k, part, buf)?;
        self.paint_ahead(k, part, buf)
    }

    // Paints a row.
    fn paint_row(&self, k: u16, part: Rect, buf: &mut Buffer) -> Result<(), AllocError>
        requires some { IsBoxArea part }
        requires inside { IsInside part buf.old.area }
        requires row { k < part.height }
        ensures within { ChangesWithin part buf.old buf.new }
        ensures ok { OnOk result (PaintsListRow self.now part k buf.old buf.new) }
        ensures ready { IsReadyFrom (part.y + k) buf.old
            → OnOk result (IsReadyFrom (part.y + k + 1) buf.new) }
    {
        if self.is_parted(k, part.width, part.height) {
            self.paint_columns(k, part, buf)
        } else {
            self.paint_whole(k, part, buf)
        }
    }

    // Paints all rows.
    fn paint_rows(&self, part: Rect, buf: &mut Buffer) -> Result<(), AllocError>
        requires some { IsBoxArea part }
        requires inside { IsInside part buf.old.area }
        ensures within { ChangesWithin part buf.old buf.new }
        ensures ok { OnOk result (PaintsFirstRows self.now part part.height buf.old buf.new) }
        ensures ready { IsReadyFrom part.y buf.old
            → OnOk result (IsReadyFrom (part.y + part.height) buf.new) }
    {
        for k in 0..part.height {
            self.paint_row(k, part, buf)?;
        }
        Ok(())
    }
}

impl Application for Browser {
    ghost use Rattle.files.specs.Pages.{PaintsBrowser, browser_cursor};
    ghost use Rattle.files.specs.PageLemmas.{browser-settled};

    ghost paints = { PaintsBrowser };

    ghost cursor = { browser_cursor };

    fn paint(&self, area: Rect, buf: &mut Buffer) -> Result<(), AllocError> {
        let Some(part) = buf.part(area) else {
            return Ok(());
        };
        self.paint_rows(part, buf)
    }

    fn cursor(&self, area: Rect) -> Option<Position> {
        match self.mode {
            Mode::Renaming
            | Mode::Making
            | Mode::Pasting
            | Mode::Seeking
            | Mode::Going
            | Mode::Completing => cursor_at_column(self.column, area),
            _ => None,
        }
    }

    ghost is_settled = { browser-settled };
}
