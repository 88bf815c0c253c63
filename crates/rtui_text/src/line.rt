ghost use Rattle.std.specs.Prelude.{◌≡◌, List, ◌++◌, [], ◌∷◌, Some, IsOk, IfOk, OnOk, OnErr};
ghost use Rattle.std.specs.String.{string_bytes};
ghost use Rattle.std.specs.Iterator.{IsFinite, Drains, ExtendsWithItems};
ghost use Rattle.std.specs.Slice.Iter.{iter_rest, iter_mut_rest};
ghost use Rattle.std.specs.Vec.Iter.{into_iter_items};
ghost use Rattle.std.specs.Hash as fed;
ghost use Rattle.std.specs.Hash.{on_Alike, and-Alike, items_Alike};
ghost use Rattle.std.specs.Cmp.{and_equiv, on_equiv, partial_equiv_from_equiv};
ghost use Rattle.std.specs.Cmp.Lexicographic.{lists_equiv};
ghost use Rattle.std.specs.Ordering.{on, eq_of_both};
ghost use Rattle.rtui_text.specs.contracts.span.SpanEq.TheImpl.Laws.{laws-law as span_laws};
ghost use Rattle.rtui_text.specs.contracts.span.SpanHash.TheImpl.Laws.{respects_eq-law as span_hashes};
ghost use Rattle.rtui_text.specs.contracts.line.LineHeadEq.TheImpl.Laws.{laws-law as head_laws};
ghost use Rattle.rtui_text.specs.contracts.line.LineHeadHash.TheImpl.Laws.{respects_eq-law as head_hashes};
ghost use Rattle.rtui_style.specs.Style.{patch, reset_style};
ghost use Rattle.rtui_text.specs.Text.{SpanData, line_of, raw_line, text_of, with_span};
ghost use Rattle.rtui_text.specs.Inner.{IsUnbroken};
ghost use Rattle.rtui_text.specs.Widths.{line_width};
ghost use Rattle.rtui_text.specs.Graphemes.{line_graphemes, line_graphemes_left};
ghost use Rattle.rtui_text.specs.Display.{line_content, printed_spans};
ghost use Rattle.rtui_text.specs.LineHead.{line_head};

use crate::grapheme::LineGraphemes;
use crate::span::Span;
use crate::spans::Spans;
use crate::text::Text;
use rtui_layout::HorizontalAlignment;
use rtui_style::Style;
use std::alloc::{AllocError, Global};
use std::hash::{Hash, Hasher};
use std::marker::Model;
use std::{fmt, slice, vec};

// What a line has besides its spans, and a text besides its lines.
#[derive(Clone, Copy, PartialEq, Eq, Hash)]
pub(crate) struct LineHead {
    pub(crate) style: Style,
    pub(crate) alignment: Option<HorizontalAlignment>,
}

/// Spans in a row, with the style of the whole under those of the spans.
///
/// ```
/// let mut line = Line::raw(alloc, "total: ")?.right_aligned();
/// line.push_span(Span::styled("42", Style::new().fg(Color::Green)))?;
/// ```
#[derive(Debug, Drop)]
pub struct Line<'a> {
    /// The style of the whole line, under those of its spans.
    pub style: Style,
    /// Where the line stands between left and right, if it says so.
    pub alignment: Option<HorizontalAlignment>,
    /// The spans, from left to right.
    pub spans: Spans<'a>,
}

impl<'a> Model for Line<'a> {
    ghost use Rattle.rtui_text.specs.Text.{LineData};

    ghost Value = { LineData };

    ghost view = { λ l. record { style = l.style; alignment = l.alignment; spans = l.spans } };
}

impl<'a> Line<'a> {
    /// Makes a line without spans, style or alignment; takes no memory.
    pub fn default_in(alloc: Global) -> Line<'a>
        ensures { result ≡ line_of [] }
    {
        Line::from(Spans::new(alloc))
    }

    /// Makes a plain span for each line of a text, none for the empty text. The line breaks
    /// themselves vanish: the lines stand one after the other.
    ///
    /// # Errors
    ///
    /// `AllocError` if memory is refused.
    pub fn raw(alloc: Global, content: &'a str) -> Result<Line<'a>, AllocError>
        ensures { IfOk result (λ l. l ≡ raw_line content.now) }
    {
        let mut spans = Spans::new(alloc);
        for line in content.lines() {
            spans.push(Span::raw(line))?;
        }
        Ok(Line::from(spans))
    }

    // The line that `raw` makes of a text without line breaks, which aren't looked for.
    pub(crate) fn unbroken(alloc: Global, content: &'a str) -> Result<Line<'a>, AllocError>
        ensures { IsUnbroken content.now → IfOk result (λ l. l ≡ raw_line content.now) }
    {
        if content.is_empty() {
            return Ok(Line::default_in(alloc));
        }
        Line::from_span(alloc, Span::raw(content))
    }

    /// Makes the line that `raw` makes of a text, with a style of the whole.
    ///
    /// # Errors
    ///
    /// `AllocError` if memory is refused.
    pub fn styled(alloc: Global, content: &'a str, style: Style) -> Result<Line<'a>, AllocError>
        ensures { IfOk result (λ l. l ≡ record (raw_line content.now) { style = style }) }
    {
        let mut line = Line::raw(alloc, content)?;
        line.style = style;
        Ok(line)
    }

    /// Makes the same line as `raw` makes of the text, with copies of its lines.
    ///
    /// # Errors
    ///
    /// `AllocError` if memory is refused.
    pub fn raw_string(alloc: Global, content: String) -> Result<Line<'a>, AllocError>
        ensures { IfOk result (λ l. l ≡ raw_line (string_bytes content)) }
    {
        Line::copied(alloc, content.as_str())
    }

    // The same line as `raw` makes of the text, with copies of its lines.
    pub(crate) fn copied(alloc: Global, content: &str) -> Result<Line<'a>, AllocError>
        ensures { IfOk result (λ l. l ≡ raw_line content.now) }
    {
        let mut spans = Spans::new(alloc);
        for line in content.lines() {
            spans.push(Span::from(String::from_str(alloc, line)?))?;
        }
        Ok(Line::from(spans))
    }

    /// Makes a line of one span.
    ///
    /// # Errors
    ///
    /// `AllocError` if memory is refused.
    pub fn from_span(alloc: Global, span: Span<'a>) -> Result<Line<'a>, AllocError>
        ensures { IfOk result (λ l. l ≡ line_of (span.entry ∷ [])) }
    {
        Ok(Line::from(vec![in alloc; span]?))
    }

    /// Makes a line of spans equal to these.
    ///
    /// # Errors
    ///
    /// `AllocError` if memory is refused. An empty list takes none.
    pub fn from_slice(alloc: Global, spans: &[Span<'a>]) -> Result<Line<'a>, AllocError>
        ensures value { IfOk result (λ l. l ≡ line_of spans.now) }
        ensures succeeds { spans.now ≡ [] → IsOk result }
    {
        Ok(Line::from(Spans::from_slice(alloc, spans)?))
    }

    /// Puts spans equal to these in place of the line's own.
    ///
    /// # Errors
    ///
    /// `AllocError` if memory is refused; the line is gone then. An empty list takes none.
    pub fn spans(self, spans: &[Span<'a>]) -> Result<Line<'a>, AllocError>
        ensures value { IfOk result (λ l. l ≡ record self.entry { spans = spans.now }) }
        ensures succeeds { spans.now ≡ [] → IsOk result }
    {
        let spans = Spans::from_slice(self.spans.allocator(), spans)?;
        Ok(Line { spans, ..self })
    }

    /// Sets the style of the line.
    pub fn style(mut self, style: Style) -> Line<'a>
        ensures { result ≡ record self.entry { style = style } }
    {
        self.style = style;
        self
    }

    /// Lays a style over the line's own.
    pub fn patch_style(mut self, style: Style) -> Line<'a>
        ensures { result ≡ record self.entry { style = patch self.entry.style style } }
    {
        self.style = self.style.patch(style);
        self
    }

    /// Lays a style over the line's own that sets all colours to the terminal's and takes every
    /// modifier away.
    pub fn reset_style(self) -> Line<'a>
        ensures { result ≡ record self.entry { style = patch self.entry.style reset_style } }
    {
        self.patch_style(Style::reset())
    }

    /// Sets the alignment of the line.
    pub fn alignment(mut self, alignment: HorizontalAlignment) -> Line<'a>
        ensures { result ≡ record self.entry { alignment = Some alignment } }
    {
        self.alignment = Some(alignment);
        self
    }

    /// Aligns the line to the left.
    pub fn left_aligned(self) -> Line<'a>
        ensures { result ≡ record self.entry { alignment = Some HorizontalAlignment.Left } }
    {
        self.alignment(HorizontalAlignment::Left)
    }

    /// Centres the line.
    pub fn centered(self) -> Line<'a>
        ensures { result ≡ record self.entry { alignment = Some HorizontalAlignment.Center } }
    {
        self.alignment(HorizontalAlignment::Center)
    }

    /// Aligns the line to the right.
    pub fn right_aligned(self) -> Line<'a>
        ensures { result ≡ record self.entry { alignment = Some HorizontalAlignment.Right } }
    {
        self.alignment(HorizontalAlignment::Right)
    }

    /// Returns the graphemes without a control character, each in its span's style over the line's
    /// over a base style.
    pub fn styled_graphemes<'l>(&'l self, base_style: Style) -> LineGraphemes<'l, 'a>
        ensures { line_graphemes_left result
            ≡ line_graphemes (patch base_style self.now.style) self.now.spans }
    {
        LineGraphemes::new(self.spans.as_slice(), base_style.patch(self.style))
    }

    /// Returns the spans, one by one.
    pub fn iter(&self) -> slice::Iter<'_, Span<'a>>
        ensures { iter_rest result ≡ self.now.spans }
    {
        self.spans.iter()
    }

    /// Returns the spans, one by one, to be written.
    pub fn iter_mut(&mut self) -> slice::IterMut<'_, Span<'a>>
        ensures { iter_mut_rest result ≡ self.old.spans }
    {
        self.spans.iter_mut()
    }

    /// Makes a line of the spans that an iterator gives.
    ///
    /// # Conditions
    ///
    /// The iterator comes to an end, and `next` may be called on it until then.
    ///
    /// # Errors
    ///
    /// `AllocError` if memory is refused.
    pub fn try_from_iter<I>(alloc: Global, spans: I) -> Result<Line<'a>, AllocError>
    where
        I: IntoIterator<Item = Span<'a>>,
        requires { (it : I.IntoIter) → I.into_iter_gives spans it
            → I.IntoIter.can_next it × IsFinite (I.IntoIter.remaining it) }
        ensures { IfOk result (λ made. (it : I.IntoIter) × (items : List SpanData)
            × I.into_iter_gives spans it × Drains I.IntoIter.next_gives it items
            × (made ≡ line_of items)) }
    {
        Ok(Line::from(Vec::from_iter(alloc, spans)?))
    }

    /// Puts the spans that an iterator gives after the others.
    ///
    /// # Conditions
    ///
    /// The iterator comes to an end, and `next` may be called on it until then.
    ///
    /// # Errors
    ///
    /// `AllocError` if memory is refused; the spans that were put until then stay.
    pub fn try_extend<I>(&mut self, spans: I) -> Result<(), AllocError>
    where
        I: IntoIterator<Item = Span<'a>>,
        requires { (it : I.IntoIter) → I.into_iter_gives spans it
            → I.IntoIter.can_next it × IsFinite (I.IntoIter.remaining it) }
        ensures { ExtendsWithItems I.into_iter_gives I.IntoIter.next_gives
            (λ old more new. new ≡ record old { spans = old.spans ++ more })
            spans self.old self.new result }
    {
        self.spans.extend(spans)
    }

    /// Puts a span after the others.
    ///
    /// # Errors
    ///
    /// `AllocError` if memory is refused; nothing has changed then.
    pub fn push_span(&mut self, span: Span<'a>) -> Result<(), AllocError>
        ensures ok { OnOk result (self.new ≡ with_span span.entry self.old) }
        ensures err { OnErr result (self.new ≡ self.old) }
    {
        self.spans.push(span)
    }

    /// Puts a span after the others.
    ///
    /// # Errors
    ///
    /// `AllocError` if memory is refused; the line is gone then.
    pub fn try_add(mut self, span: Span<'a>) -> Result<Line<'a>, AllocError>
        ensures { IfOk result (λ l. l ≡ with_span span.entry self.entry) }
    {
        self.push_span(span)?;
        Ok(self)
    }

    /// Makes a text of this line and another one below it.
    ///
    /// # Errors
    ///
    /// `AllocError` if memory is refused; both lines are gone then.
    pub fn try_add_line(self, line: Line<'a>) -> Result<Text<'a>, AllocError>
        ensures { IfOk result (λ t. t ≡ text_of (self.entry ∷ line.entry ∷ [])) }
    {
        Text::from_line(self.spans.allocator(), self)?.try_add_line(line)
    }

    /// Returns the texts of the spans, one after the other.
    ///
    /// # Errors
    ///
    /// `AllocError` if memory is refused; the line is gone then. A line without spans takes none.
    pub fn try_into_string(self) -> Result<String, AllocError>
        ensures content { IfOk result (λ s. string_bytes s ≡ line_content self.entry.spans) }
        ensures succeeds { self.entry.spans ≡ [] → IsOk result }
    {
        let mut content = String::new(self.spans.allocator());
        for span in self.spans.as_slice() {
            content.push_str(span.text())?;
        }
        Ok(content)
    }

    /// Returns how many columns the spans take together, at most the greatest `usize`.
    pub fn width(&self) -> usize
        ensures { result ≡ line_width self.now.spans }
    {
        let mut width = 0usize;
        for span in self.spans.as_slice() {
            width = width.saturating_add(span.width());
        }
        width
    }

    /// Makes an equal line.
    ///
    /// # Errors
    ///
    /// `AllocError` if memory is refused. A line without spans takes none.
    pub fn clone(&self, alloc: Global) -> Result<Line<'a>, AllocError>
        ensures value { IfOk result (λ l. l ≡ self.now) }
        ensures succeeds { self.now.spans ≡ [] → IsOk result }
    {
        Ok(Line {
            style: self.style,
            alignment: self.alignment,
            spans: self.spans.clone(alloc)?,
        })
    }

    fn head(&self) -> LineHead
        ensures { result ≡ line_head self.now }
    {
        LineHead {
            style: self.style,
            alignment: self.alignment,
        }
    }
}

/// These spans, without a style or an alignment; takes no memory.
impl<'a> From<Spans<'a>> for Line<'a> {
    ghost from_gives = { λ spans l. l ≡ line_of spans };

    fn from(spans: Spans<'a>) -> Line<'a> {
        Line {
            style: Style::new(),
            alignment: None,
            spans,
        }
    }
}

/// These spans, without a style or an alignment; takes no memory.
impl<'a> From<Vec<Span<'a>>> for Line<'a> {
    ghost from_gives = { λ v l. l ≡ line_of v.items };

    fn from(spans: Vec<Span<'a>>) -> Line<'a> {
        Line::from(Spans::from(spans))
    }
}

impl<'a> IntoIterator for Line<'a> {
    type Item = Span<'a>;

    type IntoIter = vec::IntoIter<Span<'a>>;

    ghost into_iter_gives = { λ it items. into_iter_items items ≡ it.spans };

    fn into_iter(self) -> vec::IntoIter<Span<'a>> {
        self.spans.into_iter()
    }
}

impl<'b, 'a> IntoIterator for &'b Line<'a> {
    type Item = &'b Span<'a>;

    type IntoIter = slice::Iter<'b, Span<'a>>;

    ghost into_iter_gives = { λ it items. iter_rest items ≡ it.now.spans };

    fn into_iter(self) -> slice::Iter<'b, Span<'a>> {
        self.iter()
    }
}

impl<'b, 'a> IntoIterator for &'b mut Line<'a> {
    type Item = &'b mut Span<'a>;

    type IntoIter = slice::IterMut<'b, Span<'a>>;

    ghost into_iter_gives = { λ it items. iter_mut_rest items ≡ it.now.spans };

    fn into_iter(self) -> slice::IterMut<'b, Span<'a>> {
        self.iter_mut()
    }
}

impl<'a> PartialEq for Line<'a> {
    ghost use Rattle.rtui_text.specs.LineHead.{line_head};

    ghost eq = { eq_of_both
        (on line_head ⟦<LineHead as PartialEq>⟧.eq)
        (on (λ l. l.spans) ⟦<Spans<'a> as PartialEq>⟧.eq) };

    ghost laws = { partial_equiv_from_equiv (and_equiv
        (on_equiv line_head head_laws)
        (on_equiv (λ l. l.spans) (lists_equiv span_laws))) };

    fn eq(&self, other: &Self) -> bool {
        self.head() == other.head() && self.spans == other.spans
    }
}

impl<'a> Eq for Line<'a> {
    ghost use Rattle.rtui_text.specs.LineHead.{line_head};

    ghost laws = { and_equiv
        (on_equiv line_head head_laws)
        (on_equiv (λ l. l.spans) (lists_equiv span_laws)) };
}

impl<'a> Hash for Line<'a> {
    ghost use Rattle.rtui_text.specs.LineHead.{line_head};

    ghost hash_input = { λ l. ⟦<LineHead as Hash>⟧.hash_input (line_head l)
        ++ ⟦<Spans<'a> as Hash>⟧.hash_input l.spans };

    ghost respects_eq = { (and-Alike
        (on_Alike line_head (record { fed = head_hashes }))
        (on_Alike (λ l. l.spans) (items_Alike (record { fed = span_hashes })))).fed };

    fn hash<H: Hasher>(&self, state: &mut H) {
        self.head().hash(state);
        self.spans.hash(state);
    }
}

/// The spans, one after the other, each without its line breaks.
impl fmt::Display for Line<'_> {
    ghost output = { λ l. Some (printed_spans l.spans) };

    fn fmt<W: fmt::Write>(&self, f: &mut fmt::Formatter<W>) -> fmt::Result {
        for span in self.spans.as_slice() {
            write!(f, "{span}")?;
        }
        Ok(())
    }
}
