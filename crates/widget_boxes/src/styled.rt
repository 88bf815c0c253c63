//! Blocks, styled by name: `.red().on_white().bold()`.

use crate::block::Block;
use ratatui_core::style::{Style, Styled, Stylize};

impl<'a> Styled for Block<'a> {
    type Item = Block<'a>;

    ghost style_of = { λ block. block.style };

    ghost with_style = { λ block style. record block { style = style } };

    fn style(&self) -> Style {
        self.style
    }

    fn set_style(self, style: Style) -> Block<'a> {
        self.style(style)
    }
}

impl Stylize for Block<'_> {}
