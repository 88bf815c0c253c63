//! A line on a colour, without any promise.

use ratatui_core::buffer::Buffer;
use ratatui_core::layout::Rect;
use ratatui_core::style::Style;
use ratatui_core::text::Line;
use ratatui_core::widgets::Widget;
use std::alloc::AllocError;

/// A line on a colour. It promises nothing but what each widget does: that no cell outside its area
/// changes.
#[derive(Drop)]
pub struct Banner<'a> {
    /// The colour under the line.
    pub style: Style,
    /// What stands in its first row.
    pub line: Line<'a>,
}

impl<'b, 'a> Widget for &'b Banner<'a> {
    ghost use Rattle.std.specs.Prelude.{⊤};

    ghost renders = { λ _ _ _ _. ⊤ };

    fn render(self, area: Rect, buf: &mut Buffer) -> Result<(), AllocError> {
        buf.set_style(area, self.style);
        (&self.line).render(area, buf)
    }
}
