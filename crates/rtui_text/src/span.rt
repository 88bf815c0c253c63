ghost use Rattle.std.specs.Prelude.{◌≡◌, ◌++◌, [], ◌∷◌, Some, IfOk, nat_eq};
ghost use Rattle.std.specs.String.{string_bytes};
ghost use Rattle.std.specs.Cow.{cow_str_bytes};
ghost use Rattle.std.specs.Hash as fed;
ghost use Rattle.std.specs.Hash.{on_Alike, and-Alike};
ghost use Rattle.std.specs.Cmp.{and_equiv, on_equiv, partial_equiv_from_equiv};
ghost use Rattle.std.specs.Cmp.Lexicographic.{pointwise, nat_list_eq_equiv};
ghost use Rattle.std.specs.Ordering.{on, eq_of_both};
ghost use Rattle.rtui_style.specs.contracts.StyleEq.TheImpl.Laws.{laws-law as style_laws};
ghost use Rattle.rtui_style.specs.contracts.StyleHash.TheImpl.Laws.{respects_eq-law as style_hashes};
ghost use Rattle.rtui_style.specs.Style.{patch, reset_style};
ghost use Rattle.rtui_text.specs.Text.{unstyled, line_of};
ghost use Rattle.rtui_text.specs.Widths.{span_width};
ghost use Rattle.rtui_text.specs.Graphemes.{span_graphemes, span_graphemes_left};
ghost use Rattle.rtui_text.specs.Display.{printed_span};
ghost use Rattle.rtui_text.specs.Hashing.{text_Alike};

use crate::columns::text_columns;
use crate::line::Line;
use crate::span_graphemes::SpanGraphemes;
use rtui_layout::HorizontalAlignment;
use rtui_style::Style;
use std::alloc::{AllocError, Global};
use std::borrow::CowStr;
use std::fmt;
use std::hash::{Hash, Hasher};
use std::marker::Model;

/// A text in one style. Whether the text is borrowed or owned makes no difference to its value.
///
/// ```
/// let plain = Span::raw("files");
/// let warning = Span::styled("no space left", Style::new().fg(Color::Red));
/// let line = plain.try_add(alloc, warning)?;
/// ```
#[derive(Debug, Drop)]
pub struct Span<'a> {
    /// The style of the text.
    pub style: Style,
    /// The text, borrowed or owned.
    pub content: CowStr<'a>,
}

impl<'a> Model for Span<'a> {
    ghost use Rattle.std.specs.Cow.{cow_str_bytes};
    ghost use Rattle.rtui_text.specs.Text.{SpanData};

    ghost Value = { SpanData };

    ghost view = { λ s. record { style = s.style; content = cow_str_bytes s.content } };
}

impl<'a> Span<'a> {
    /// Makes a span of a borrowed text in the style that changes nothing.
    pub fn raw(content: &'a str) -> Span<'a>
        ensures { result ≡ unstyled content.now }
    {
        Span::styled(content, Style::new())
    }

    /// Makes a span of a borrowed text in a style.
    pub fn styled(content: &'a str, style: Style) -> Span<'a>
        ensures { result ≡ record { style = style; content = content.now } }
    {
        let content = CowStr::Borrowed(content);
        Span { style, content }
    }

    /// Sets the text of the span, which borrows it.
    pub fn content(mut self, content: &'a str) -> Span<'a>
        ensures { result ≡ record self.entry { content = content.now } }
    {
        self.content = CowStr::Borrowed(content);
        self
    }

    /// Sets the style of the span.
    pub fn style(mut self, style: Style) -> Span<'a>
        ensures { result ≡ record self.entry { style = style } }
    {
        self.style = style;
        self
    }

    /// Lays a style over the span's own.
    pub fn patch_style(mut self, style: Style) -> Span<'a>
        ensures { result ≡ record self.entry { style = patch self.entry.style style } }
    {
        self.style = self.style.patch(style);
        self
    }

    /// Lays a style over the span's own that sets all colours to the terminal's and takes every
    /// modifier away.
    pub fn reset_style(self) -> Span<'a>
        ensures { result ≡ record self.entry { style = patch self.entry.style reset_style } }
    {
        self.patch_style(Style::reset())
    }

    /// Returns the text.
    pub fn text(&self) -> &str
        ensures { result.now ≡ self.now.content }
    {
        self.content.as_str()
    }

    /// Returns how many columns the text takes. The half-width katakana sound marks take none.
    pub fn width(&self) -> usize
        ensures { result ≡ span_width self.now }
    {
        text_columns(self.text())
    }

    /// Returns the graphemes without a control character, each in the span's style over a base
    /// style.
    pub fn styled_graphemes(&self, base_style: Style) -> SpanGraphemes<'_>
        ensures { span_graphemes_left result ≡ span_graphemes base_style self.now }
    {
        SpanGraphemes::new(self.text(), base_style.patch(self.style))
    }

    /// Makes a line of this span, aligned to the left.
    ///
    /// # Errors
    ///
    /// `AllocError` if memory is refused; the span is gone then.
    pub fn into_left_aligned_line(self, alloc: Global) -> Result<Line<'a>, AllocError>
        ensures { let line = line_of (self.entry ∷ []) in
            IfOk result (λ l. l ≡ record line { alignment = Some HorizontalAlignment.Left }) }
    {
        Ok(Line::from_span(alloc, self)?.left_aligned())
    }

    /// Makes a line of this span, aligned to the left: the old name of `into_left_aligned_line`.
    ///
    /// # Errors
    ///
    /// `AllocError` if memory is refused; the span is gone then.
    pub fn to_left_aligned_line(self, alloc: Global) -> Result<Line<'a>, AllocError>
        ensures { let line = line_of (self.entry ∷ []) in
            IfOk result (λ l. l ≡ record line { alignment = Some HorizontalAlignment.Left }) }
    {
        self.into_left_aligned_line(alloc)
    }

    /// Makes a line of this span, centred.
    ///
    /// # Errors
    ///
    /// `AllocError` if memory is refused; the span is gone then.
    pub fn into_centered_line(self, alloc: Global) -> Result<Line<'a>, AllocError>
        ensures { let line = line_of (self.entry ∷ []) in
            IfOk result (λ l. l ≡ record line { alignment = Some HorizontalAlignment.Center }) }
    {
        Ok(Line::from_span(alloc, self)?.centered())
    }

    /// Makes a line of this span, centred: the old name of `into_centered_line`.
    ///
    /// # Errors
    ///
    /// `AllocError` if memory is refused; the span is gone then.
    pub fn to_centered_line(self, alloc: Global) -> Result<Line<'a>, AllocError>
        ensures { let line = line_of (self.entry ∷ []) in
            IfOk result (λ l. l ≡ record line { alignment = Some HorizontalAlignment.Center }) }
    {
        self.into_centered_line(alloc)
    }

    /// Makes a line of this span, aligned to the right.
    ///
    /// # Errors
    ///
    /// `AllocError` if memory is refused; the span is gone then.
    pub fn into_right_aligned_line(self, alloc: Global) -> Result<Line<'a>, AllocError>
        ensures { let line = line_of (self.entry ∷ []) in
            IfOk result (λ l. l ≡ record line { alignment = Some HorizontalAlignment.Right }) }
    {
        Ok(Line::from_span(alloc, self)?.right_aligned())
    }

    /// Makes a line of this span, aligned to the right: the old name of `into_right_aligned_line`.
    ///
    /// # Errors
    ///
    /// `AllocError` if memory is refused; the span is gone then.
    pub fn to_right_aligned_line(self, alloc: Global) -> Result<Line<'a>, AllocError>
        ensures { let line = line_of (self.entry ∷ []) in
            IfOk result (λ l. l ≡ record line { alignment = Some HorizontalAlignment.Right }) }
    {
        self.into_right_aligned_line(alloc)
    }

    /// Makes a line of this span and another after it.
    ///
    /// # Errors
    ///
    /// `AllocError` if memory is refused; both spans are gone then.
    pub fn try_add(self, alloc: Global, other: Span<'a>) -> Result<Line<'a>, AllocError>
        ensures { IfOk result (λ l. l ≡ line_of (self.entry ∷ other.entry ∷ [])) }
    {
        Line::from_span(alloc, self)?.try_add(other)
    }

    /// Makes an equal span, which borrows what this one borrows.
    ///
    /// # Errors
    ///
    /// `AllocError` if memory is refused.
    pub fn clone(&self, alloc: Global) -> Result<Span<'a>, AllocError>
        ensures { IfOk result (λ s. s ≡ self.now) }
    {
        let content = match &self.content {
            CowStr::Borrowed(text) => CowStr::Borrowed(*text),
            CowStr::Owned(text) => CowStr::Owned(String::from_str(alloc, text.as_str())?),
        };
        Ok(Span {
            style: self.style,
            content,
        })
    }
}

impl PartialEq for Span<'_> {
    ghost eq = { eq_of_both
        (on (λ s. s.style) ⟦<Style as PartialEq>⟧.eq)
        (on (λ s. s.content) (pointwise nat_eq)) };

    ghost laws = { partial_equiv_from_equiv (and_equiv
        (on_equiv (λ s. s.style) style_laws)
        (on_equiv (λ s. s.content) nat_list_eq_equiv)) };

    fn eq(&self, other: &Self) -> bool {
        self.style == other.style && self.text() == other.text()
    }
}

impl Eq for Span<'_> {
    ghost laws = { and_equiv
        (on_equiv (λ s. s.style) style_laws)
        (on_equiv (λ s. s.content) nat_list_eq_equiv) };
}

impl Hash for Span<'_> {
    ghost hash_input = { λ s. ⟦<Style as Hash>⟧.hash_input s.style ++ fed.str s.content };

    ghost respects_eq = { (and-Alike
        (on_Alike (λ s. s.style) (record { fed = style_hashes }))
        (on_Alike (λ s. s.content) text_Alike)).fed };

    fn hash<H: Hasher>(&self, state: &mut H) {
        self.style.hash(state);
        self.text().hash(state);
    }
}

/// The empty text in the style that changes nothing.
impl<'a> Default for Span<'a> {
    ghost is_default = { λ s. s ≡ unstyled [] };

    fn default() -> Span<'a> {
        Span::raw("")
    }
}

/// Borrows the text.
impl<'a> From<&'a str> for Span<'a> {
    ghost from_gives = { λ text s. s ≡ unstyled text.now };

    fn from(text: &'a str) -> Span<'a> {
        Span::raw(text)
    }
}

/// Takes the text over.
impl<'a> From<String> for Span<'a> {
    ghost from_gives = { λ text s. s ≡ unstyled (string_bytes text) };

    fn from(text: String) -> Span<'a> {
        Span::from(CowStr::Owned(text))
    }
}

/// Borrows the text, or takes it over.
impl<'a> From<CowStr<'a>> for Span<'a> {
    ghost from_gives = { λ text s. s ≡ unstyled (cow_str_bytes text) };

    fn from(content: CowStr<'a>) -> Span<'a> {
        Span {
            style: Style::new(),
            content,
        }
    }
}

/// The lines of the text, without their breaks.
impl fmt::Display for Span<'_> {
    ghost output = { λ s. Some (printed_span s) };

    fn fmt<W: fmt::Write>(&self, f: &mut fmt::Formatter<W>) -> fmt::Result {
        for line in self.text().lines() {
            f.write_str(line)?;
        }
        Ok(())
    }
}
