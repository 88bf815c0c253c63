//! Throbbers, styled by name: `.red().on_white().bold()`.

use crate::throbber::Throbber;
use ratatui_core::style::{Style, Styled, Stylize};

impl<'a> Styled for Throbber<'a> {
    type Item = Throbber<'a>;

    ghost style_of = { λ throbber. throbber.style };

    ghost with_style = { λ throbber style. record throbber { style = style } };

    fn style(&self) -> Style {
        self.style
    }

    fn set_style(self, style: Style) -> Throbber<'a> {
        self.style(style)
    }
}

impl Stylize for Throbber<'_> {}
