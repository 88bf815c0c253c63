//! Widgets of text areas, styled by name: `.red().on_white().bold()`.

use crate::widget::TextAreaWidget;
use ratatui_core::style::{Style, Styled, Stylize};

impl<'a> Styled for TextAreaWidget<'a> {
    type Item = TextAreaWidget<'a>;

    ghost style_of = { λ widget. widget.style };

    ghost with_style = { λ widget style. record widget { style = style } };

    fn style(&self) -> Style {
        self.style
    }

    fn set_style(self, style: Style) -> TextAreaWidget<'a> {
        self.style(style)
    }
}

impl Stylize for TextAreaWidget<'_> {}
