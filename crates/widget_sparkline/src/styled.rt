//! Sparklines, styled by name: `.red().on_white().bold()`.

use crate::sparkline::Sparkline;
use ratatui_core::style::{Style, Styled, Stylize};

impl<'a> Styled for Sparkline<'a> {
    type Item = Sparkline<'a>;

    ghost style_of = { λ line. line.style };

    ghost with_style = { λ line style. record line { style = style } };

    fn style(&self) -> Style {
        self.style
    }

    fn set_style(self, style: Style) -> Sparkline<'a> {
        self.style(style)
    }
}

impl Stylize for Sparkline<'_> {}
