//! Lists and their items, styled by name: `.red().on_white().bold()`.

use crate::item::ListItem;
use crate::list::List;
use ratatui_core::style::{Style, Styled, Stylize};

impl<'a> Styled for List<'a> {
    type Item = List<'a>;

    ghost style_of = { λ list. list.style };

    ghost with_style = { λ list style. record list { style = style } };

    fn style(&self) -> Style {
        self.style
    }

    fn set_style(self, style: Style) -> List<'a> {
        self.style(style)
    }
}

impl Stylize for List<'_> {}

impl<'a> Styled for ListItem<'a> {
    type Item = ListItem<'a>;

    ghost style_of = { λ item. item.style };

    ghost with_style = { λ item style. record item { style = style } };

    fn style(&self) -> Style {
        self.style
    }

    fn set_style(self, style: Style) -> ListItem<'a> {
        self.style(style)
    }
}

impl Stylize for ListItem<'_> {}
