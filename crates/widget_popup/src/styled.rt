//! Popups, styled by name: `.red().on_white().bold()`.

use crate::popup::Popup;
use ratatui_core::style::{Style, Styled, Stylize};

impl<'a> Styled for Popup<'a> {
    type Item = Popup<'a>;

    ghost style_of = { λ popup. popup.style };

    ghost with_style = { λ popup style. record popup { style = style } };

    fn style(&self) -> Style {
        self.style
    }

    fn set_style(self, style: Style) -> Popup<'a> {
        self.style(style)
    }
}

impl Stylize for Popup<'_> {}
