//! Charts, axes and data sets, styled by name: `.red().on_white().bold()`.

use crate::axis::Axis;
use crate::chart::Chart;
use crate::dataset::Dataset;
use ratatui_core::style::{Style, Styled, Stylize};

impl<'a> Styled for Chart<'a> {
    type Item = Chart<'a>;

    ghost style_of = { λ chart. chart.style };

    ghost with_style = { λ chart style. record chart { style = style } };

    fn style(&self) -> Style {
        self.style
    }

    fn set_style(self, style: Style) -> Chart<'a> {
        self.style(style)
    }
}

impl Stylize for Chart<'_> {}

impl<'a> Styled for Axis<'a> {
    type Item = Axis<'a>;

    ghost style_of = { λ axis. axis.style };

    ghost with_style = { λ axis style. record axis { style = style } };

    fn style(&self) -> Style {
        self.style
    }

    fn set_style(self, style: Style) -> Axis<'a> {
        self.style(style)
    }
}

impl Stylize for Axis<'_> {}

impl<'a> Styled for Dataset<'a> {
    type Item = Dataset<'a>;

    ghost style_of = { λ dataset. dataset.style };

    ghost with_style = { λ dataset style. record dataset { style = style } };

    fn style(&self) -> Style {
        self.style
    }

    fn set_style(self, style: Style) -> Dataset<'a> {
        self.style(style)
    }
}

impl Stylize for Dataset<'_> {}
