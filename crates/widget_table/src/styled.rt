//! Tables, their rows and their cells, styled by name: `.red().on_white().bold()`.

use crate::cell::Cell;
use crate::row::Row;
use crate::table::Table;
use ratatui_core::style::{Style, Styled, Stylize};

impl<'a> Styled for Table<'a> {
    type Item = Table<'a>;

    ghost style_of = { λ table. table.style };

    ghost with_style = { λ table style. record table { style = style } };

    fn style(&self) -> Style {
        self.style
    }

    fn set_style(self, style: Style) -> Table<'a> {
        self.style(style)
    }
}

impl Stylize for Table<'_> {}

impl<'a> Styled for Row<'a> {
    type Item = Row<'a>;

    ghost style_of = { λ row. row.style };

    ghost with_style = { λ row style. record row { style = style } };

    fn style(&self) -> Style {
        self.style
    }

    fn set_style(self, style: Style) -> Row<'a> {
        self.style(style)
    }
}

impl Stylize for Row<'_> {}

impl<'a> Styled for Cell<'a> {
    type Item = Cell<'a>;

    ghost style_of = { λ cell. cell.style };

    ghost with_style = { λ cell style. record cell { style = style } };

    fn style(&self) -> Style {
        self.style
    }

    fn set_style(self, style: Style) -> Cell<'a> {
        self.style(style)
    }
}

impl Stylize for Cell<'_> {}
