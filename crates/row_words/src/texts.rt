//! Spans, lines, texts, graphemes and masked texts: as words, and calls on them.
use crate::answer::{Answer, Show, quote};
use crate::args::Args;
use crate::error::RowError;
use crate::styles::put_style;
use ratatui_core::layout::HorizontalAlignment;
use ratatui_core::style::Style;
use ratatui_core::text::{Line, Span, StyledGrapheme, Text};
use std::alloc::AllocError;
use std::hash::{BuildHasher, BuildHasherDefault, FoldHasher, Hash};

impl<'a> Args<'a> {
    /// Takes a span: a text, and its style.
    pub fn span(&mut self) -> Result<Span<'a>, RowError> {
        Ok(Span::styled(self.text()?, self.style()))
    }

    /// Takes a line: spans with a `+` between two, after them `style` with its words, and `aligned`
    /// with how.
    pub fn line(&mut self) -> Result<Line<'a>, RowError> {
        self.skip_comma();
        let mut line = Line::default_in(self.alloc);
        for _ in 0..self.len() {
            if !self.read_part(&mut line)? {
                break;
            }
        }
        Ok(line)
    }

    // Reads a part of a line; whether there was one.
    fn read_part(&mut self, line: &mut Line<'a>) -> Result<bool, RowError> {
        if let Some(text) = self.next_text() {
            line.push_span(Span::styled(text, self.style()))?;
        } else if self.takes("style") {
            line.style = self.style();
        } else if self.takes("aligned") {
            line.alignment = Some(self.value::<HorizontalAlignment>()?);
        } else {
            return Ok(self.takes("+") || self.takes("empty"));
        }
        Ok(true)
    }

    /// Takes a text: lines with a `/` between two, and after a `//` the style and alignment of the
    /// whole; `nothing` has no lines.
    pub fn lines(&mut self) -> Result<Text<'a>, RowError> {
        self.skip_comma();
        let mut text = Text::default_in(self.alloc);
        if !self.takes("nothing") {
            self.read_lines(&mut text)?;
        }
        if self.takes("//") {
            text.style = self.style();
            text.alignment = self.alignment()?;
        }
        Ok(text)
    }

    fn read_lines(&mut self, text: &mut Text<'a>) -> Result<(), RowError> {
        text.push_line(self.line()?)?;
        for _ in 0..self.len() {
            if !self.takes("/") {
                break;
            }
            text.push_line(self.line()?)?;
        }
        Ok(())
    }

    fn alignment(&mut self) -> Result<Option<HorizontalAlignment>, RowError> {
        if self.takes("aligned") {
            Ok(Some(self.value::<HorizontalAlignment>()?))
        } else {
            Ok(None)
        }
    }
}

/// Returns the hash of a value.
pub fn hash_of<T: Hash>(value: &T) -> u64 {
    BuildHasherDefault::<FoldHasher>::default().hash_one(value)
}

/// Adds whether two values are equal with equal hashes, or differ.
pub fn alike<T: PartialEq + Hash>(one: &T, other: &T, answer: &mut Answer) -> Result<(), RowError> {
    if one == other && hash_of(one) != hash_of(other) {
        return Err(RowError::Unread);
    }
    answer.add(one == other)
}

fn put_span(text: &str, style: Style, out: &mut String) -> Result<(), AllocError> {
    quote(text, out)?;
    put_style(style, out)
}

fn put_aligned(alignment: Option<HorizontalAlignment>, out: &mut String) -> Result<(), AllocError> {
    match alignment {
        Some(alignment) => write!(out, " aligned {alignment}"),
        None => Ok(()),
    }
}

fn put_spans(line: &Line<'_>, out: &mut String) -> Result<(), AllocError> {
    if line.spans.is_empty() {
        return out.push_str("empty");
    }
    for (place, span) in line.spans.iter().enumerate() {
        if place > 0 {
            out.push_str(" + ")?;
        }
        put_span(span.text(), span.style, out)?;
    }
    Ok(())
}

fn put_line(line: &Line<'_>, out: &mut String) -> Result<(), AllocError> {
    put_spans(line, out)?;
    if line.style != Style::new() {
        out.push_str(" style")?;
        put_style(line.style, out)?;
    }
    put_aligned(line.alignment, out)
}

fn put_lines(text: &Text<'_>, out: &mut String) -> Result<(), AllocError> {
    if text.lines.is_empty() {
        return out.push_str("nothing");
    }
    for (place, line) in text.lines.iter().enumerate() {
        if place > 0 {
            out.push_str(" / ")?;
        }
        put_line(line, out)?;
    }
    Ok(())
}

impl Show for Span<'_> {
    fn show(&self, out: &mut String) -> Result<(), AllocError> {
        put_span(self.text(), self.style, out)
    }
}

impl Show for StyledGrapheme<'_> {
    fn show(&self, out: &mut String) -> Result<(), AllocError> {
        put_span(self.symbol, self.style, out)
    }
}

impl Show for Line<'_> {
    fn show(&self, out: &mut String) -> Result<(), AllocError> {
        put_line(self, out)
    }
}

impl Show for Text<'_> {
    fn show(&self, out: &mut String) -> Result<(), AllocError> {
        put_lines(self, out)?;
        if self.style != Style::new() || self.alignment.is_some() {
            out.push_str(" //")?;
            put_style(self.style, out)?;
        }
        put_aligned(self.alignment, out)
    }
}
