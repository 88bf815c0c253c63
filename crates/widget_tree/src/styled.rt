//! Trees, styled by name: `.red().on_white().bold()`.

use crate::tree::Tree;
use ratatui_core::style::{Style, Styled, Stylize};

impl<'a> Styled for Tree<'a> {
    type Item = Tree<'a>;

    ghost style_of = { λ tree. tree.style };

    ghost with_style = { λ tree style. record tree { style = style } };

    fn style(&self) -> Style {
        self.style
    }

    fn set_style(self, style: Style) -> Tree<'a> {
        self.style(style)
    }
}

impl Stylize for Tree<'_> {}
