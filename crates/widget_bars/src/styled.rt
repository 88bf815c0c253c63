//! Bar charts, styled by name: `.red().on_white().bold()`.

use crate::chart::BarChart;
use ratatui_core::style::{Style, Styled, Stylize};

impl<'a> Styled for BarChart<'a> {
    type Item = BarChart<'a>;

    ghost style_of = { λ chart. chart.style };

    ghost with_style = { λ chart style. record chart { style = style } };

    fn style(&self) -> Style {
        self.style
    }

    fn set_style(self, style: Style) -> BarChart<'a> {
        self.style(style)
    }
}

impl Stylize for BarChart<'_> {}
