//! What has a style, and texts in one: a bare text has the style that changes nothing, and becomes a
//! span.

ghost use Rattle.std.specs.Prelude.{◌≡◌};
ghost use Rattle.std.specs.Cow.{cow_str_bytes};
ghost use Rattle.std.specs.String.{string_bytes};
ghost use Rattle.rtui_style.specs.Style.{new_style};
ghost use Rattle.rtui_style.specs.declared.Style.{Style};

use crate::{Line, Span, StyledGrapheme, Stylize, Text};
use rtui_style::Style;
use std::borrow::CowStr;

/// What has a style that can be replaced.
pub trait Styled {
    /// What it becomes with another style.
    type Item;

    // its style
    ghost style_of: { Self → Style };

    // what it becomes with this style
    ghost with_style: { Self → Style → Self.Item };

    /// Returns its style.
    fn style(&self) -> Style
        ensures { result ≡ style_of self.now };

    /// Returns what it becomes with this style in place of its own.
    fn set_style(self, style: Style) -> Self::Item
        ensures { result ≡ with_style self style };
}

impl<'a> Styled for &'a str {
    type Item = Span<'a>;

    ghost style_of = { λ _. new_style };

    ghost with_style = { λ text style. record { style = style; content = text.now } };

    fn style(&self) -> Style {
        Style::new()
    }

    fn set_style(self, style: Style) -> Span<'a> {
        Span::styled(self, style)
    }
}

impl Stylize for &str {}

impl Styled for String {
    type Item = Span<'static>;

    ghost style_of = { λ _. new_style };

    ghost with_style = { λ text style. record { style = style; content = string_bytes text } };

    fn style(&self) -> Style {
        Style::new()
    }

    fn set_style(self, style: Style) -> Span<'static> {
        Span::from(self).style(style)
    }
}

impl Stylize for String {}

impl<'a> Styled for CowStr<'a> {
    type Item = Span<'a>;

    ghost style_of = { λ _. new_style };

    ghost with_style = { λ text style. record { style = style; content = cow_str_bytes text } };

    fn style(&self) -> Style {
        Style::new()
    }

    fn set_style(self, style: Style) -> Span<'a> {
        Span::from(self).style(style)
    }
}

impl Stylize for CowStr<'_> {}

impl<'a> Styled for StyledGrapheme<'a> {
    type Item = StyledGrapheme<'a>;

    ghost style_of = { λ grapheme. grapheme.style };

    ghost with_style = { λ grapheme style. record grapheme { style = style } };

    fn style(&self) -> Style {
        self.style
    }

    fn set_style(self, style: Style) -> StyledGrapheme<'a> {
        StyledGrapheme { style, ..self }
    }
}

impl Stylize for StyledGrapheme<'_> {}

impl<'a> Styled for Span<'a> {
    type Item = Span<'a>;

    ghost style_of = { λ span. span.style };

    ghost with_style = { λ span style. record span { style = style } };

    fn style(&self) -> Style {
        self.style
    }

    fn set_style(self, style: Style) -> Span<'a> {
        Span { style, ..self }
    }
}

impl Stylize for Span<'_> {}

impl<'a> Styled for Line<'a> {
    type Item = Line<'a>;

    ghost style_of = { λ line. line.style };

    ghost with_style = { λ line style. record line { style = style } };

    fn style(&self) -> Style {
        self.style
    }

    fn set_style(self, style: Style) -> Line<'a> {
        Line { style, ..self }
    }
}

impl Stylize for Line<'_> {}

impl<'a> Styled for Text<'a> {
    type Item = Text<'a>;

    ghost style_of = { λ text. text.style };

    ghost with_style = { λ text style. record text { style = style } };

    fn style(&self) -> Style {
        self.style
    }

    fn set_style(self, style: Style) -> Text<'a> {
        Text { style, ..self }
    }
}

impl Stylize for Text<'_> {}
