//! The graphemes of a span.
ghost use Rattle.std.specs.Prelude.{◌≡◌, ◌<◌, [], true, length};
ghost use Rattle.unicode_segmentation.specs.Iter.{graphemes_left};
ghost use Rattle.rtui_text.specs.Printable.{ArePrintable};

use crate::grapheme::{StyledGrapheme, has_control};
use crate::printable::printable_front;
use rtui_style::Style;
use unicode_segmentation::{Graphemes, UnicodeSegmentation};

// At most so many bytes are looked at before the first of them is given.
const LOOK_AHEAD: usize = 64;

/// The graphemes of a span, which takes no memory. What isn't read isn't looked at.
#[derive(Debug, Drop)]
pub struct SpanGraphemes<'a> {
    // What is left of a front of printable characters of ASCII, each a grapheme of its own.
    front: &'a str,
    // What comes after the front, not yet looked at.
    ahead: &'a str,
    // What comes from the first other character on, once all before it is read.
    graphemes: Graphemes<'a>,
    style: Style,
    ghost printable: { ArePrintable front.now },
    ghost unread: { 0 < length ahead.now → graphemes_left graphemes ≡ [] },
}

impl<'a> SpanGraphemes<'a> {
    ghost use Rattle.unicode_segmentation.specs.Grapheme.{graphemes};
    ghost use Rattle.rtui_text.specs.Graphemes.{in_style, span_graphemes_left};

    #[tactic(auto, using(crate::proofs::GraphemeLemmas::unread_rules))]
    pub(crate) fn new(text: &'a str, style: Style) -> SpanGraphemes<'a>
        ensures { span_graphemes_left result ≡ in_style style (graphemes true text.now) }
    {
        SpanGraphemes {
            front: "",
            ahead: text,
            graphemes: "".graphemes(true),
            style,
        }
    }

    // Nothing comes after an empty front then but what is looked at.
    #[tactic(auto, using(crate::proofs::GraphemeLemmas::ahead_rules))]
    fn look_ahead(&mut self)
        ensures left { span_graphemes_left self.new ≡ span_graphemes_left self.old }
        ensures looked { self.new.front.now ≡ [] → self.new.ahead.now ≡ [] }
    {
        if !self.front.is_empty() || self.ahead.is_empty() {
            return;
        }
        let (front, rest) = self.ahead.split_at(printable_front(self.ahead, LOOK_AHEAD));
        if front.is_empty() {
            self.graphemes = rest.graphemes(true);
            self.ahead = "";
            return;
        }
        self.front = front;
        self.ahead = rest;
    }
}

impl<'a> Iterator for SpanGraphemes<'a> {
    ghost use Rattle.std.specs.Iterator.{YieldsFirstBy, item_count};
    ghost use Rattle.rtui_text.specs.Graphemes.{span_graphemes_left, grapheme_data};

    type Item = StyledGrapheme<'a>;

    ghost next_gives = { YieldsFirstBy grapheme_data span_graphemes_left };

    ghost remaining = { item_count span_graphemes_left };

    #[tactic(auto, using(crate::proofs::GraphemeLemmas::front_rules))]
    fn next(&mut self) -> Option<StyledGrapheme<'a>> {
        self.look_ahead();
        if !self.front.is_empty() {
            let (symbol, rest) = self.front.split_at(1);
            self.front = rest;
            let style = self.style;
            return Some(StyledGrapheme { symbol, style });
        }
        while let Some(symbol) = self.graphemes.next() {
            if !has_control(symbol) {
                let style = self.style;
                return Some(StyledGrapheme { symbol, style });
            }
        }
        None
    }
}
