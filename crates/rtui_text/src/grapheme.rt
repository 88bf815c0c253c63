ghost use Rattle.std.specs.Prelude.{◌≡◌, true, chars};
ghost use Rattle.std.specs.Char.{is_whitespace};
ghost use Rattle.std.specs.List.{list_all};
ghost use Rattle.rtui_text.specs.Graphemes.{has_control, is_whitespace_symbol};

use crate::span::Span;
use crate::span_graphemes::SpanGraphemes;
use rtui_style::Style;
use std::slice;

const NO_BREAK_SPACE: &str = "\u{A0}";

const ZERO_WIDTH_SPACE: &str = "\u{200B}";

/// A grapheme in a style.
#[derive(Debug, Default, Clone, PartialEq, Eq, Hash, Drop)]
pub struct StyledGrapheme<'a> {
    /// The grapheme.
    pub symbol: &'a str,
    /// Its style.
    pub style: Style,
}

impl<'a> StyledGrapheme<'a> {
    /// Makes a grapheme in a style.
    pub fn new(symbol: &'a str, style: Style) -> StyledGrapheme<'a>
        ensures symbol { result.symbol.now ≡ symbol.now }
        ensures style { result.style ≡ style }
    {
        StyledGrapheme { symbol, style }
    }

    /// Returns whether it is white space: the zero-width space, or nothing but white space and not
    /// the no-break space.
    pub fn is_whitespace(&self) -> bool
        ensures { result ≡ is_whitespace_symbol self.now.symbol.now }
    {
        let symbol = self.symbol;
        symbol == ZERO_WIDTH_SPACE || is_white_space(symbol) && symbol != NO_BREAK_SPACE
    }
}

// Whether a text has nothing but white space.
fn is_white_space(text: &str) -> bool
    ensures { result ≡ list_all is_whitespace (chars text.now) }
{
    text.chars().all(|c| c.is_whitespace())
}

/// Returns whether a control character stands in a text.
pub fn has_control(text: &str) -> bool
    ensures { result ≡ has_control text.now }
{
    text.chars().any(|c| c.is_control())
}

/// The graphemes of a line, which takes no memory.
#[derive(Debug, Drop)]
pub struct LineGraphemes<'l, 'a> {
    current: SpanGraphemes<'l>,
    spans: slice::Iter<'l, Span<'a>>,
    style: Style,
}

impl<'l, 'a> LineGraphemes<'l, 'a> {
    ghost use Rattle.rtui_text.specs.Graphemes.{line_graphemes_left, line_graphemes};

    pub(crate) fn new(spans: &'l [Span<'a>], style: Style) -> LineGraphemes<'l, 'a>
        ensures { line_graphemes_left result ≡ line_graphemes style spans.now }
    {
        LineGraphemes {
            current: SpanGraphemes::new("", style),
            spans: spans.iter(),
            style,
        }
    }
}

impl<'l, 'a> Iterator for LineGraphemes<'l, 'a> {
    ghost use Rattle.std.specs.Iterator.{YieldsFirstBy, item_count};
    ghost use Rattle.rtui_text.specs.Graphemes.{line_graphemes_left, grapheme_data};

    type Item = StyledGrapheme<'l>;

    ghost next_gives = { YieldsFirstBy grapheme_data line_graphemes_left };

    ghost remaining = { item_count line_graphemes_left };

    fn next(&mut self) -> Option<StyledGrapheme<'l>> {
        loop {
            if let Some(grapheme) = self.current.next() {
                return Some(grapheme);
            }
            let span = self.spans.next()?;
            self.current = span.styled_graphemes(self.style);
        }
    }
}
