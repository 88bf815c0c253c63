//! Big texts, styled by name: `.red().on_white().bold()`.

use crate::big_text::BigText;
use ratatui_core::style::{Style, Styled, Stylize};

impl<'a> Styled for BigText<'a> {
    type Item = BigText<'a>;

    ghost style_of = { λ text. text.style };

    ghost with_style = { λ text style. record text { style = style } };

    fn style(&self) -> Style {
        self.style
    }

    fn set_style(self, style: Style) -> BigText<'a> {
        self.style(style)
    }
}

impl Stylize for BigText<'_> {}
