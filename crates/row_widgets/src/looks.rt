//! Styles, and texts with styles in them.

use ratatui_core::style::{Color, Modifier, Style};
use ratatui_core::text::{Line, Span, Text};
use std::alloc::{AllocError, Global};

/// Returns the colour that a small letter says.
pub fn color_of(letter: char) -> Option<Color> {
    match letter {
        'k' => Some(Color::Black),
        'r' => Some(Color::Red),
        'g' => Some(Color::Green),
        'y' => Some(Color::Yellow),
        'b' => Some(Color::Blue),
        'm' => Some(Color::Magenta),
        'c' => Some(Color::Cyan),
        'w' => Some(Color::White),
        'n' => Some(Color::Reset),
        _ => None,
    }
}

/// Returns the modifier that a sign says.
pub fn modifier_of(sign: char) -> Modifier {
    match sign {
        '*' => Modifier::BOLD,
        '.' => Modifier::DIM,
        '/' => Modifier::ITALIC,
        '_' => Modifier::UNDERLINED,
        '^' => Modifier::REVERSED,
        '~' => Modifier::CROSSED_OUT,
        _ => Modifier::NONE,
    }
}

// A style with what a sign says: a small letter a foreground, a capital a background, any other a
// modifier.
fn with_sign(style: Style, sign: char) -> Style {
    if let Some(color) = color_of(sign) {
        return style.fg(color);
    }
    match color_of(sign.to_ascii_lowercase()) {
        Some(color) => style.bg(color),
        None => style.add_modifier(modifier_of(sign)),
    }
}

/// Returns the style that signs say.
pub fn style_of(signs: &str) -> Style {
    let mut style = Style::new();
    for sign in signs.chars() {
        style = with_sign(style, sign);
    }
    style
}

/// Returns the style that stands in front of a text, as in `<rG>text`, and the text.
pub fn styled_front(text: &str) -> (Style, &str) {
    let (front, rest) = text.split_once(">").unwrap_or(("", text));
    match front.strip_prefix("<") {
        Some(signs) => (style_of(signs), rest),
        None => (Style::new(), text),
    }
}

/// Returns the span that a text says, with a style in front.
pub fn span_of(text: &str) -> Span<'_> {
    let (style, content) = styled_front(text);
    Span::styled(content, style)
}

/// Returns the line that a text says: each `{r}` begins a span of this style.
pub fn line_of<'a>(alloc: Global, text: &'a str) -> Result<Line<'a>, AllocError> {
    let (front, rest) = text.split_once("{").unwrap_or((text, ""));
    let mut line = Line::raw(alloc, front)?;
    for part in rest.split("{") {
        if let Some((signs, content)) = part.split_once("}") {
            line.push_span(Span::styled(content, style_of(signs)))?;
        }
    }
    Ok(line)
}

/// Returns the lines of a text, which this separator parts; none of an empty text.
pub fn lines_of<'a>(
    alloc: Global,
    text: &'a str,
    separator: &str,
) -> Result<Vec<Line<'a>>, AllocError> {
    let mut lines = Vec::new(alloc);
    if text.is_empty() {
        return Ok(lines);
    }
    for part in text.split(separator) {
        lines.push(line_of(alloc, part)?)?;
    }
    Ok(lines)
}

/// Returns the text that this separator parts into lines.
pub fn text_of<'a>(alloc: Global, text: &'a str, separator: &str) -> Result<Text<'a>, AllocError> {
    let mut content = Text::default_in(alloc);
    for part in text.split(separator) {
        content.push_line(line_of(alloc, part)?)?;
    }
    Ok(content)
}
