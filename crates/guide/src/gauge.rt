//! A labelled bar.

ghost use Rattle.ratatui_core.specs.Layout.{intersected};

use ratatui_core::buffer::Buffer;
use ratatui_core::layout::Rect;
use ratatui_core::style::Style;
use ratatui_core::text::Line;
use ratatui_core::widgets::Widget;
use std::alloc::AllocError;

/// A bar in one row, with a label on it.
#[derive(Debug, Drop)]
pub struct Gauge<'a> {
    /// How many columns are filled.
    pub filled: u16,
    /// What stands on the bar, from its left end on.
    pub label: Line<'a>,
    /// How the bar looks.
    pub style: Style,
}

/// In the first row of the area, as far as the buffer has it: the bar's style over the columns that
/// are filled, and on them the label. What doesn't fit is cut.
impl<'b, 'a> Widget for &'b Gauge<'a> {
    ghost use Rattle.ratatui_core.specs.Buffer.{AreShort};
    ghost use Rattle.guide.specs.Gauges.{RendersGauge, label_pieces};

    ghost renders = { λ gauge. RendersGauge gauge.now };

    ghost is_short = { λ gauge area s.
        AreShort (label_pieces gauge.now (intersected area s.area) s.area) };

    fn render(self, area: Rect, buf: &mut Buffer) -> Result<(), AllocError> {
        let Some(part) = buf.part(area) else {
            return Ok(());
        };
        let bar = Rect {
            width: self.filled.min(part.width),
            height: 1,
            ..part
        };
        buf.set_style(bar, self.style);
        buf.set_line(part.x, part.y, &self.label, part.width)?;
        Ok(())
    }
}
