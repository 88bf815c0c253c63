//! Texts, and what is made of them.
use crate::Done;
use ratatui_core::buffer::Buffer;
use ratatui_core::style::{Color, Modifier, Style};
use ratatui_core::text::{Line, Span, Text, ToSpan};
use std::alloc::{AllocError, Global};

/// Two sentences and a half, 193 columns.
pub const SENTENCE: &str =
    "The quick brown fox jumps over the lazy dog, and then it sleeps in the sun. \
     The quick brown fox jumps over the lazy dog, and then it sleeps in the sun. \
     The quick brown fox jumps over the lazy dog";

/// A line of a log.
pub const LOG: &str = "2026-11-23T12:30:00.123Z INFO worker-7 request GET \
    /api/v1/items/4711 took 12.3 ms, status 200, 1834 bytes\n";

// Graphemes of one and of many characters, of one column and of two.
const MARKS: &str = "日本語👨‍👩‍👧‍👦e\u{301}한글🇯🇵👍🏽ñ😀漢字✈️Ω";

// A line of a program's source, cut where its colours change.
static WORDS: [&str; 6] = [
    "let buffer",
    " = ",
    "Buffer::filled(area, cell)",
    "?; ",
    "// a grid of cells over an area of a screen, row by row",
    "!",
];

/// Makes a text of 250 printable characters.
pub fn ascii(alloc: Global) -> Result<String, AllocError> {
    let mut text = String::new(alloc);
    for i in 0..250u32 {
        text.push(char::from(b'!' + (i % 90) as u8))?;
    }
    Ok(text)
}

/// Makes a text of 130 wide characters, from this one on.
pub fn wide(alloc: Global, from: u64) -> Result<String, AllocError> {
    let all = "日本語の文字列を長い行に並べる".repeat(alloc, 11)?;
    let mut cut = String::new(alloc);
    let skipped = (from % 15) as usize;
    for ch in all.chars().skip(skipped).take(130) {
        cut.push(ch)?;
    }
    Ok(cut)
}

/// Makes a green span of graphemes of all kinds.
pub fn marks(alloc: Global) -> Result<Span<'static>, AllocError> {
    let span = MARKS.repeat(alloc, 8)?.to_span(alloc)?;
    Ok(span.style(Style::new().fg(Color::Green)))
}

/// Makes a line of the words so many times, one after the other, in this style and in colours from
/// this one on.
pub fn line_of(
    alloc: Global,
    times: u8,
    style: Style,
    first: u16,
) -> Result<Line<'static>, AllocError> {
    let mut spans = Vec::new(alloc);
    for _time in 0..times {
        for (k, word) in WORDS.iter().enumerate() {
            let color = (usize::from(first).wrapping_add(k) % 251) as u8;
            spans.push(Span::styled(*word, style.fg(Color::Indexed(color))))?;
        }
    }
    Ok(Line::from(spans))
}

/// Makes a text of an empty line, and so many bold lines of the words.
pub fn text_of(alloc: Global, count: u16) -> Result<Text<'static>, AllocError> {
    let style = Style::new().add_modifier(Modifier::BOLD);
    let mut lines = Vec::new(alloc);
    lines.push(Line::default_in(alloc))?;
    for first in 0..count {
        lines.push(line_of(alloc, 1, style, first)?)?;
    }
    Ok(Text::from(lines))
}

/// Makes a text of 100,000 bytes, and counts its lines.
pub fn text_raw(alloc: Global, count: u64) -> Done {
    let content = LOG.repeat(alloc, 935)?;
    let mut all: u64 = 0;
    for _round in 0..count {
        let text = Text::raw(alloc, content.as_str())?;
        all = all.wrapping_add(text.height() as u64);
    }
    Ok(Some((count, all)))
}

fn mixed(sum: u64, byte: u8) -> u64 {
    (sum ^ u64::from(byte)).wrapping_mul(0x100000001B3)
}

/// Returns a sum over the symbols and modifiers of a buffer.
pub fn sum(buffer: &Buffer) -> u64 {
    let mut sum = 0xCBF29CE484222325;
    for cell in buffer.content() {
        for byte in cell.symbol().as_bytes() {
            sum = mixed(sum, *byte);
        }
        sum = mixed(sum, (bitflags::Flags::bits(&cell.modifier) & 0xFF) as u8);
    }
    sum
}
