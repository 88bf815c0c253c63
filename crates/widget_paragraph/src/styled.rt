//! Paragraphs, styled by name: `.red().on_white().bold()`.

use crate::paragraph::Paragraph;
use ratatui_core::style::{Style, Styled, Stylize};

impl<'a> Styled for Paragraph<'a> {
    type Item = Paragraph<'a>;

    ghost style_of = { λ paragraph. paragraph.style };

    ghost with_style = { λ paragraph style. record paragraph { style = style } };

    fn style(&self) -> Style {
        self.style
    }

    fn set_style(self, style: Style) -> Paragraph<'a> {
        self.style(style)
    }
}

impl Stylize for Paragraph<'_> {}
