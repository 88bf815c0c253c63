//! Gauges, styled by name: `.red().on_white().bold()`.

use crate::gauge::Gauge;
use crate::line_gauge::LineGauge;
use ratatui_core::style::{Style, Styled, Stylize};

impl<'a> Styled for Gauge<'a> {
    type Item = Gauge<'a>;

    ghost style_of = { λ gauge. gauge.style };

    ghost with_style = { λ gauge style. record gauge { style = style } };

    fn style(&self) -> Style {
        self.style
    }

    fn set_style(self, style: Style) -> Gauge<'a> {
        self.style(style)
    }
}

impl Stylize for Gauge<'_> {}

impl<'a> Styled for LineGauge<'a> {
    type Item = LineGauge<'a>;

    ghost style_of = { λ gauge. gauge.style };

    ghost with_style = { λ gauge style. record gauge { style = style } };

    fn style(&self) -> Style {
        self.style
    }

    fn set_style(self, style: Style) -> LineGauge<'a> {
        self.style(style)
    }
}

impl Stylize for LineGauge<'_> {}
