//! A box in the middle of an area.

ghost use Rattle.std.specs.Prelude.{◌≡◌, ◌-◌, ◌/◌, min, Some, true, IfOk};
ghost use Rattle.ratatui_core.specs.Layout.{EdgesFit, IsInside};
ghost use Rattle.ratatui_core.specs.Text.{raw_text};
ghost use Rattle.widget_popup.specs.Places.{popup_area, popup_inner};
ghost use Rattle.widget_popup.specs.Popups.{IsNewPopup};

use ratatui_core::buffer::Buffer;
use ratatui_core::layout::Rect;
use ratatui_core::style::Style;
use ratatui_core::text::Text;
use ratatui_core::widgets::Widget;
use rtui_drawing::put_text;
use rtui_inside::{DrawInside, render_inside};
use std::alloc::{AllocError, Global};
use widget_boxes::{Block, Clear, cloned_block, columns_around_if, inner_if, rows_around_if};

/// A text in the middle of an area, in a box if it has one, over what stands there: as large as the
/// text, which isn't wrapped, and at most as the area.
///
/// ```
/// let popup = Popup::raw(alloc, "Remove it? y/n")?
///     .block(Block::bordered(alloc).title_raw("Remove")?)
///     .style(Style::new().on_red());
/// frame.render_widget(popup, area)
/// ```
#[derive(Debug, PartialEq, Eq, Drop)]
pub struct Popup<'a> {
    text: Text<'a>,
    block: Option<Block<'a>>,
    pub(crate) style: Style,
}

impl<'a> Popup<'a> {
    /// Makes a popup of a text, without a box and a style; takes no memory.
    pub fn new(text: Text<'a>) -> Popup<'a>
        ensures { IsNewPopup text.entry result }
    {
        Popup {
            text,
            block: None,
            style: Style::new(),
        }
    }

    /// Makes a popup of a plain text, as `Text::raw` makes it, without a box and a style.
    ///
    /// # Errors
    ///
    /// `AllocError` if memory is refused.
    pub fn raw(alloc: Global, text: &'a str) -> Result<Popup<'a>, AllocError>
        ensures { IfOk result (IsNewPopup (raw_text text.now)) }
    {
        Ok(Popup::new(Text::raw(alloc, text)?))
    }

    /// Puts the popup in a box.
    pub fn block(mut self, block: Block<'a>) -> Popup<'a>
        ensures { result ≡ record self.entry { block = Some block.entry } }
    {
        self.block = Some(block);
        self
    }

    /// Sets the style of the popup.
    pub fn style(mut self, style: Style) -> Popup<'a>
        ensures { result ≡ record self.entry { style = style } }
    {
        self.style = style;
        self
    }

    /// Returns where the popup stands in an area: in the middle. A column or a row that is odd is
    /// left at the right or below.
    #[tactic(auto, using(crate::proofs::PlaceLemmas::place_steps))]
    pub fn area(&self, area: Rect) -> Rect
        ensures value { result ≡ popup_area self.now area }
        ensures inside { IsInside result area }
        ensures fits { EdgesFit area → EdgesFit result }
    {
        let columns = columns_around_if(&self.block).saturating_add(self.text.width());
        let rows = rows_around_if(&self.block).saturating_add(self.text.height());
        let (before, width) = middle(area.width, columns);
        let (above, height) = middle(area.height, rows);
        Rect {
            x: area.x.saturating_add(before),
            y: area.y.saturating_add(above),
            width,
            height,
        }
    }

    /// Returns where the text of the popup stands in an area: inside its box.
    pub fn inner(&self, area: Rect) -> Rect
        ensures value { result ≡ popup_inner self.now area }
        ensures inside { IsInside result area }
    {
        inner_if(&self.block, self.area(area))
    }

    /// Makes an equal popup.
    ///
    /// # Errors
    ///
    /// `AllocError` if memory is refused.
    pub fn clone(&self, alloc: Global) -> Result<Popup<'a>, AllocError>
        ensures { let same = ⟦<Popup<'a> as PartialEq>⟧.eq in
            IfOk result (λ popup. same self.now popup ≡ true) }
    {
        Ok(Popup {
            text: self.text.clone(alloc)?,
            block: cloned_block(alloc, &self.block)?,
            style: self.style,
        })
    }
}

// So many columns or rows in the middle of a room, or all of it: how many are left before them, and
// how many they are.
fn middle(room: u16, wanted: usize) -> (u16, u16)
    ensures before { result.0 ≡ (room - wanted) / 2 }
    ensures size { result.1 ≡ min wanted room }
{
    let size = wanted.min(usize::from(room)) as u16;
    ((room - size) / 2, size)
}

// The text.
impl<'a> DrawInside for Popup<'a> {
    ghost use Rattle.widget_popup.specs.Popups.{popup_drawing};

    ghost drawing = { popup_drawing };

    fn draw_inside(&self, inner: Rect, buf: &mut Buffer) -> Result<(), AllocError> {
        put_text(&self.text, inner, buf)
    }
}

/// In the middle of the area, as far as the buffer has it: each cell is emptied, and over that come
/// the style, the box, and inside the lines from the first one on, as far as there are columns and
/// rows. Nothing else changes.
impl<'b, 'a> Widget for &'b Popup<'a> {
    ghost use Rattle.widget_popup.specs.Places.{popup_area};
    ghost use Rattle.widget_popup.specs.Popups.{RendersPopup, LeavesPopup, IsShortPopup};

    ghost renders = { λ popup. RendersPopup popup.now };

    ghost reach = { λ popup. popup_area popup.now };

    ghost leaves = { λ popup. LeavesPopup popup.now };

    ghost is_short = { λ popup. IsShortPopup popup.now };

    fn render(self, area: Rect, buf: &mut Buffer) -> Result<(), AllocError> {
        let own = self.area(area);
        Clear.render(own, buf)?;
        render_inside(self, self.style, &self.block, own, buf)
    }
}

impl<'a> Widget for Popup<'a> {
    ghost use Rattle.widget_popup.specs.Places.{popup_area};
    ghost use Rattle.widget_popup.specs.Popups.{RendersPopup, LeavesPopup, IsShortPopup};

    ghost renders = { RendersPopup };

    ghost reach = { popup_area };

    ghost leaves = { LeavesPopup };

    ghost is_short = { IsShortPopup };

    fn render(self, area: Rect, buf: &mut Buffer) -> Result<(), AllocError> {
        (&self).render(area, buf)
    }
}
