ghost use Rattle.std.specs.Prelude.{◌≡◌, List, ◌++◌, [], ◌∷◌, Some, length, IsOk, IfOk, OnOk, OnErr};
ghost use Rattle.std.specs.String.{string_bytes};
ghost use Rattle.std.specs.Iterator.{IsFinite, Drains, ExtendsWithItems};
ghost use Rattle.std.specs.Slice.Iter.{iter_rest, iter_mut_rest};
ghost use Rattle.std.specs.Vec.Iter.{into_iter_items};
ghost use Rattle.std.specs.Hash as fed;
ghost use Rattle.std.specs.Hash.{on_Alike, and-Alike, items_Alike};
ghost use Rattle.std.specs.Cmp.{and_equiv, on_equiv, partial_equiv_from_equiv};
ghost use Rattle.std.specs.Cmp.Lexicographic.{lists_equiv};
ghost use Rattle.std.specs.Ordering.{on, eq_of_both};
ghost use Rattle.rtui_text.specs.contracts.line.LineEq.TheImpl.Laws.{laws-law as line_laws};
ghost use Rattle.rtui_text.specs.contracts.line.LineHash.TheImpl.Laws.{respects_eq-law as line_hashes};
ghost use Rattle.rtui_text.specs.contracts.line.LineHeadEq.TheImpl.Laws.{laws-law as head_laws};
ghost use Rattle.rtui_text.specs.contracts.line.LineHeadHash.TheImpl.Laws.{respects_eq-law as head_hashes};
ghost use Rattle.rtui_style.specs.Style.{patch, reset_style};
ghost use Rattle.rtui_text.specs.Text.{LineData, line_of, text_of, text_lines, raw_text, with_last_span};
ghost use Rattle.rtui_text.specs.LineHead.{text_head};
ghost use Rattle.rtui_text.specs.Widths.{widest};
ghost use Rattle.rtui_text.specs.Display.{printed_lines};

use crate::line::{Line, LineHead};
use crate::lines::Lines;
use crate::span::Span;
use rtui_layout::HorizontalAlignment;
use rtui_style::Style;
use std::alloc::{AllocError, Global};
use std::hash::{Hash, Hasher};
use std::marker::Model;
use std::{fmt, slice, vec};

/// Lines one below the other, with the style of the whole under those of the lines.
///
/// ```
/// let mut text = Text::raw(alloc, "first line\nsecond line")?.centered();
/// text.push_line(Line::raw(alloc, "third line")?)?;
/// ```
#[derive(Debug, Drop)]
pub struct Text<'a> {
    /// Where the lines that don't say so themselves stand between left and right.
    pub alignment: Option<HorizontalAlignment>,
    /// The style of the whole text.
    pub style: Style,
    /// The lines, from top to bottom.
    pub lines: Lines<'a>,
}

impl<'a> Model for Text<'a> {
    ghost use Rattle.rtui_text.specs.Text.{TextData};

    ghost Value = { TextData };

    ghost view = { λ t. record { alignment = t.alignment; style = t.style; lines = t.lines } };
}

impl<'a> Text<'a> {
    /// Makes a text without lines, style or alignment; takes no memory.
    pub fn default_in(alloc: Global) -> Text<'a>
        ensures { result ≡ text_of [] }
    {
        Text::from(Lines::new(alloc))
    }

    /// Makes a line for each line of a text, and one without spans for the empty text.
    ///
    /// # Errors
    ///
    /// `AllocError` if memory is refused.
    pub fn raw(alloc: Global, content: &'a str) -> Result<Text<'a>, AllocError>
        ensures { IfOk result (λ t. t ≡ raw_text content.now) }
    {
        if content.is_empty() {
            return Text::from_line(alloc, Line::default_in(alloc));
        }
        let mut lines = Lines::new(alloc);
        for line in content.lines() {
            lines.push(Line::unbroken(alloc, line)?)?;
        }
        Ok(Text::from(lines))
    }

    /// Makes the same text as `raw` makes, with copies of the lines.
    ///
    /// # Errors
    ///
    /// `AllocError` if memory is refused.
    pub fn raw_string(alloc: Global, content: String) -> Result<Text<'a>, AllocError>
        ensures { IfOk result (λ t. t ≡ raw_text (string_bytes content)) }
    {
        Text::copied(alloc, content.as_str())
    }

    // The same text as `raw` makes, with copies of the lines.
    fn copied(alloc: Global, content: &str) -> Result<Text<'a>, AllocError>
        ensures { IfOk result (λ t. t ≡ raw_text content.now) }
    {
        if content.is_empty() {
            return Text::raw(alloc, "");
        }
        let mut lines = Lines::new(alloc);
        for line in content.lines() {
            lines.push(Line::copied(alloc, line)?)?;
        }
        Ok(Text::from(lines))
    }

    /// Makes the text that `raw` makes, with a style of the whole.
    ///
    /// # Errors
    ///
    /// `AllocError` if memory is refused.
    pub fn styled(alloc: Global, content: &'a str, style: Style) -> Result<Text<'a>, AllocError>
        ensures { IfOk result (λ t. t ≡ record (raw_text content.now) { style = style }) }
    {
        Ok(Text::raw(alloc, content)?.style(style))
    }

    /// Makes a text of one line of one span.
    ///
    /// # Errors
    ///
    /// `AllocError` if memory is refused.
    pub fn from_span(alloc: Global, span: Span<'a>) -> Result<Text<'a>, AllocError>
        ensures { IfOk result (λ t. t ≡ text_of (line_of (span.entry ∷ []) ∷ [])) }
    {
        Text::from_line(alloc, Line::from_span(alloc, span)?)
    }

    /// Makes a text of one line.
    ///
    /// # Errors
    ///
    /// `AllocError` if memory is refused.
    pub fn from_line(alloc: Global, line: Line<'a>) -> Result<Text<'a>, AllocError>
        ensures { IfOk result (λ t. t ≡ text_of (line.entry ∷ [])) }
    {
        Ok(Text::from(vec![in alloc; line]?))
    }

    /// Makes a text of lines equal to these.
    ///
    /// # Errors
    ///
    /// `AllocError` if memory is refused. An empty list takes none.
    pub fn from_slice(alloc: Global, lines: &[Line<'a>]) -> Result<Text<'a>, AllocError>
        ensures value { IfOk result (λ t. t ≡ text_of lines.now) }
        ensures succeeds { lines.now ≡ [] → IsOk result }
    {
        Ok(Text::from(Lines::from_slice(alloc, lines)?))
    }

    /// Returns how many columns the widest line takes; 0 if there are no lines.
    pub fn width(&self) -> usize
        ensures { result ≡ widest self.now.lines }
    {
        let mut width = 0;
        for line in self.lines.as_slice() {
            width = line.width().max(width);
        }
        width
    }

    /// Returns how many lines there are.
    pub fn height(&self) -> usize
        ensures { result ≡ length self.now.lines }
    {
        self.lines.len()
    }

    /// Sets the style of the text.
    pub fn style(mut self, style: Style) -> Text<'a>
        ensures { result ≡ record self.entry { style = style } }
    {
        self.style = style;
        self
    }

    /// Lays a style over the text's own.
    pub fn patch_style(mut self, style: Style) -> Text<'a>
        ensures { result ≡ record self.entry { style = patch self.entry.style style } }
    {
        self.style = self.style.patch(style);
        self
    }

    /// Lays a style over the text's own that sets all colours to the terminal's and takes every
    /// modifier away.
    pub fn reset_style(self) -> Text<'a>
        ensures { result ≡ record self.entry { style = patch self.entry.style reset_style } }
    {
        self.patch_style(Style::reset())
    }

    /// Sets the alignment of each line that has none of its own.
    pub fn alignment(mut self, alignment: HorizontalAlignment) -> Text<'a>
        ensures { result ≡ record self.entry { alignment = Some alignment } }
    {
        self.alignment = Some(alignment);
        self
    }

    /// Aligns the text to the left.
    pub fn left_aligned(self) -> Text<'a>
        ensures { result ≡ record self.entry { alignment = Some HorizontalAlignment.Left } }
    {
        self.alignment(HorizontalAlignment::Left)
    }

    /// Centres the text.
    pub fn centered(self) -> Text<'a>
        ensures { result ≡ record self.entry { alignment = Some HorizontalAlignment.Center } }
    {
        self.alignment(HorizontalAlignment::Center)
    }

    /// Aligns the text to the right.
    pub fn right_aligned(self) -> Text<'a>
        ensures { result ≡ record self.entry { alignment = Some HorizontalAlignment.Right } }
    {
        self.alignment(HorizontalAlignment::Right)
    }

    /// Returns the lines, one by one.
    pub fn iter(&self) -> slice::Iter<'_, Line<'a>>
        ensures { iter_rest result ≡ self.now.lines }
    {
        self.lines.iter()
    }

    /// Returns the lines, one by one, to be written.
    pub fn iter_mut(&mut self) -> slice::IterMut<'_, Line<'a>>
        ensures { iter_mut_rest result ≡ self.old.lines }
    {
        self.lines.iter_mut()
    }

    /// Makes a text of the lines that an iterator gives.
    ///
    /// # Conditions
    ///
    /// The iterator comes to an end, and `next` may be called on it until then.
    ///
    /// # Errors
    ///
    /// `AllocError` if memory is refused.
    pub fn try_from_iter<I>(alloc: Global, lines: I) -> Result<Text<'a>, AllocError>
    where
        I: IntoIterator<Item = Line<'a>>,
        requires { (it : I.IntoIter) → I.into_iter_gives lines it
            → I.IntoIter.can_next it × IsFinite (I.IntoIter.remaining it) }
        ensures { IfOk result (λ made. (it : I.IntoIter) × (items : List LineData)
            × I.into_iter_gives lines it × Drains I.IntoIter.next_gives it items
            × (made ≡ text_of items)) }
    {
        Ok(Text::from(Vec::from_iter(alloc, lines)?))
    }

    /// Puts the lines that an iterator gives below the others.
    ///
    /// # Conditions
    ///
    /// The iterator comes to an end, and `next` may be called on it until then.
    ///
    /// # Errors
    ///
    /// `AllocError` if memory is refused; the lines that were put until then stay.
    pub fn try_extend<I>(&mut self, lines: I) -> Result<(), AllocError>
    where
        I: IntoIterator<Item = Line<'a>>,
        requires { (it : I.IntoIter) → I.into_iter_gives lines it
            → I.IntoIter.can_next it × IsFinite (I.IntoIter.remaining it) }
        ensures { ExtendsWithItems I.into_iter_gives I.IntoIter.next_gives
            (λ old more new. new ≡ record old { lines = old.lines ++ more })
            lines self.old self.new result }
    {
        self.lines.extend(lines)
    }

    /// Puts a line below the others.
    ///
    /// # Errors
    ///
    /// `AllocError` if memory is refused; nothing has changed then.
    pub fn push_line(&mut self, line: Line<'a>) -> Result<(), AllocError>
        ensures ok { let lines = self.old.lines ++ line.entry ∷ [] in
            OnOk result (self.new ≡ record self.old { lines = lines }) }
        ensures err { OnErr result (self.new ≡ self.old) }
    {
        self.lines.push(line)
    }

    /// Puts a span at the end of the last line, or into a new line if there is none.
    ///
    /// # Errors
    ///
    /// `AllocError` if memory is refused; nothing has changed then.
    pub fn push_span(&mut self, span: Span<'a>) -> Result<(), AllocError>
        ensures ok { let lines = with_last_span span.entry self.old.lines in
            OnOk result (self.new ≡ record self.old { lines = lines }) }
        ensures err { OnErr result (self.new ≡ self.old) }
    {
        self.lines.push_span(span)
    }

    /// Puts the lines of another text below the others.
    ///
    /// # Errors
    ///
    /// `AllocError` if memory is refused; nothing has changed then.
    pub fn append(&mut self, text: Text<'a>) -> Result<(), AllocError>
        ensures ok { let lines = self.old.lines ++ text.entry.lines in
            OnOk result (self.new ≡ record self.old { lines = lines }) }
        ensures err { OnErr result (self.new ≡ self.old) }
    {
        self.lines.append(text.lines)
    }

    /// Puts a line below the others.
    ///
    /// # Errors
    ///
    /// `AllocError` if memory is refused; the text is gone then.
    pub fn try_add_line(mut self, line: Line<'a>) -> Result<Text<'a>, AllocError>
        ensures { let lines = self.entry.lines ++ line.entry ∷ [] in
            IfOk result (λ t. t ≡ record self.entry { lines = lines }) }
    {
        self.push_line(line)?;
        Ok(self)
    }

    /// Puts the lines of another text below the others.
    ///
    /// # Errors
    ///
    /// `AllocError` if memory is refused; both texts are gone then.
    pub fn try_add(mut self, text: Text<'a>) -> Result<Text<'a>, AllocError>
        ensures { let lines = self.entry.lines ++ text.entry.lines in
            IfOk result (λ t. t ≡ record self.entry { lines = lines }) }
    {
        self.append(text)?;
        Ok(self)
    }

    /// Makes an equal text.
    ///
    /// # Errors
    ///
    /// `AllocError` if memory is refused. A text without lines takes none.
    pub fn clone(&self, alloc: Global) -> Result<Text<'a>, AllocError>
        ensures value { IfOk result (λ t. t ≡ self.now) }
        ensures succeeds { self.now.lines ≡ [] → IsOk result }
    {
        Ok(Text {
            alignment: self.alignment,
            style: self.style,
            lines: self.lines.clone(alloc)?,
        })
    }

    fn head(&self) -> LineHead
        ensures { result ≡ text_head self.now }
    {
        LineHead {
            style: self.style,
            alignment: self.alignment,
        }
    }
}

/// These lines, without a style or an alignment; takes no memory.
impl<'a> From<Lines<'a>> for Text<'a> {
    ghost from_gives = { λ lines t. t ≡ text_of lines };

    fn from(lines: Lines<'a>) -> Text<'a> {
        Text {
            alignment: None,
            style: Style::new(),
            lines,
        }
    }
}

/// These lines, without a style or an alignment; takes no memory.
impl<'a> From<Vec<Line<'a>>> for Text<'a> {
    ghost from_gives = { λ v t. t ≡ text_of v.items };

    fn from(lines: Vec<Line<'a>>) -> Text<'a> {
        Text::from(Lines::from(lines))
    }
}

impl<'a> IntoIterator for Text<'a> {
    type Item = Line<'a>;

    type IntoIter = vec::IntoIter<Line<'a>>;

    ghost into_iter_gives = { λ it items. into_iter_items items ≡ it.lines };

    fn into_iter(self) -> vec::IntoIter<Line<'a>> {
        self.lines.into_iter()
    }
}

impl<'b, 'a> IntoIterator for &'b Text<'a> {
    type Item = &'b Line<'a>;

    type IntoIter = slice::Iter<'b, Line<'a>>;

    ghost into_iter_gives = { λ it items. iter_rest items ≡ it.now.lines };

    fn into_iter(self) -> slice::Iter<'b, Line<'a>> {
        self.iter()
    }
}

impl<'b, 'a> IntoIterator for &'b mut Text<'a> {
    type Item = &'b mut Line<'a>;

    type IntoIter = slice::IterMut<'b, Line<'a>>;

    ghost into_iter_gives = { λ it items. iter_mut_rest items ≡ it.now.lines };

    fn into_iter(self) -> slice::IterMut<'b, Line<'a>> {
        self.iter_mut()
    }
}

impl<'a> PartialEq for Text<'a> {
    ghost use Rattle.rtui_text.specs.LineHead.{text_head};

    ghost eq = { eq_of_both
        (on text_head ⟦<LineHead as PartialEq>⟧.eq)
        (on (λ t. t.lines) ⟦<Lines<'a> as PartialEq>⟧.eq) };

    ghost laws = { partial_equiv_from_equiv (and_equiv
        (on_equiv text_head head_laws)
        (on_equiv (λ t. t.lines) (lists_equiv line_laws))) };

    fn eq(&self, other: &Self) -> bool {
        self.head() == other.head() && self.lines == other.lines
    }
}

impl<'a> Eq for Text<'a> {
    ghost use Rattle.rtui_text.specs.LineHead.{text_head};

    ghost laws = { and_equiv
        (on_equiv text_head head_laws)
        (on_equiv (λ t. t.lines) (lists_equiv line_laws)) };
}

impl<'a> Hash for Text<'a> {
    ghost use Rattle.rtui_text.specs.LineHead.{text_head};

    ghost hash_input = { λ t. ⟦<LineHead as Hash>⟧.hash_input (text_head t)
        ++ ⟦<Lines<'a> as Hash>⟧.hash_input t.lines };

    ghost respects_eq = { (and-Alike
        (on_Alike text_head (record { fed = head_hashes }))
        (on_Alike (λ t. t.lines) (items_Alike (record { fed = line_hashes })))).fed };

    fn hash<H: Hasher>(&self, state: &mut H) {
        self.head().hash(state);
        self.lines.hash(state);
    }
}

/// The lines, with a line break between each two.
impl fmt::Display for Text<'_> {
    ghost output = { λ t. Some (printed_lines t.lines) };

    fn fmt<W: fmt::Write>(&self, f: &mut fmt::Formatter<W>) -> fmt::Result {
        if let Some((last, others)) = self.lines.as_slice().split_last() {
            for line in others {
                writeln!(f, "{line}")?;
            }
            write!(f, "{last}")?;
        }
        Ok(())
    }
}
