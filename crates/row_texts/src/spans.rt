//! Calls on spans.
use ratatui_core::style::Style;
use ratatui_core::text::{Line, Span};
use row_words::answer::Answer;
use row_words::args::Args;
use row_words::error::RowError;
use row_words::texts::alike;
use row_words::tokens::Token;
use std::alloc::{AllocError, Global};
use std::borrow::CowStr;
use std::mem;

fn made<'a>(args: &mut Args<'a>) -> Result<Span<'a>, RowError> {
    match args.word()? {
        "default" => Ok(Span::default()),
        "span" => args.span(),
        word => made_of_text(word, args.text()?, args),
    }
}

fn made_of_text<'a>(word: &str, text: &'a str, args: &mut Args<'a>) -> Result<Span<'a>, RowError> {
    match word {
        "raw" => Ok(Span::raw(text)),
        "styled" => Ok(Span::styled(text, args.style())),
        "from" => Ok(Span::from(text)),
        "from_string" => Ok(Span::from(String::from_str(args.alloc, text)?)),
        "from_cow" => Ok(Span::from(CowStr::Borrowed(text))),
        _ => Err(RowError::Unread),
    }
}

fn changed<'a>(span: Span<'a>, word: &str, args: &mut Args<'a>) -> Result<Span<'a>, RowError> {
    match word {
        "content" => Ok(span.content(args.text()?)),
        "style" => Ok(span.style(args.style())),
        "patch_style" => Ok(span.patch_style(args.style())),
        "reset_style" => Ok(span.reset_style()),
        _ => Err(RowError::Unread),
    }
}

// Whether a call asks a span something, and leaves it as it is.
fn is_question(word: &str) -> bool {
    matches!(
        word,
        "width" | "text" | "clone" | "print" | "equal" | "styled_graphemes" | "try_add"
    ) || word.ends_with("_aligned_line")
        || word.ends_with("_centered_line")
}

// Asks a span something.
fn ask(
    span: &Span<'_>,
    word: &str,
    args: &mut Args<'_>,
    answer: &mut Answer,
) -> Result<(), RowError> {
    match word {
        "width" => answer.add(span.width()),
        "text" => answer.add(span.text()),
        "print" => answer.print(args.alloc, span),
        "styled_graphemes" => put_graphemes(span, args.style(), answer),
        "equal" => alike(span, &args.span()?, answer),
        "try_add" => put_sum(span, args.span()?, args.alloc, answer),
        _ => ask_copy(span.clone(args.alloc)?, word, args.alloc, answer),
    }
}

fn put_graphemes(span: &Span<'_>, style: Style, answer: &mut Answer) -> Result<(), RowError> {
    for grapheme in span.styled_graphemes(style) {
        answer.add(grapheme)?;
    }
    Ok(())
}

fn put_sum(
    span: &Span<'_>,
    other: Span<'_>,
    alloc: Global,
    answer: &mut Answer,
) -> Result<(), RowError> {
    let line = span.clone(alloc)?.try_add(alloc, other)?;
    answer.add(line)
}

// Adds a copy of a span, or a line that is made of it.
fn ask_copy(
    span: Span<'_>,
    word: &str,
    alloc: Global,
    answer: &mut Answer,
) -> Result<(), RowError> {
    match word {
        "clone" => answer.add(span),
        _ => {
            let line = aligned(span, word, alloc)?;
            answer.add(line)
        }
    }
}

// A span as a line that is aligned by a call, under its name or its former one.
fn aligned<'a>(span: Span<'a>, word: &str, alloc: Global) -> Result<Line<'a>, AllocError> {
    match word {
        "into_left_aligned_line" => span.into_left_aligned_line(alloc),
        "into_centered_line" => span.into_centered_line(alloc),
        "into_right_aligned_line" => span.into_right_aligned_line(alloc),
        "to_left_aligned_line" => span.to_left_aligned_line(alloc),
        "to_centered_line" => span.to_centered_line(alloc),
        _ => span.to_right_aligned_line(alloc),
    }
}

// One call on a span.
fn step<'a>(span: &mut Span<'a>, args: &mut Args<'a>, answer: &mut Answer) -> Result<(), RowError> {
    let word = args.word()?;
    if is_question(word) {
        ask(span, word, args, answer)?;
    } else {
        *span = changed(mem::take(span), word, args)?;
    }
    args.end()
}

/// Makes a span, and calls on it; adds the span itself if nothing was asked.
pub fn span<'a>(
    alloc: Global,
    args: &mut Args<'a>,
    later: &'a [Vec<Token>],
    answer: &mut Answer,
) -> Result<(), RowError> {
    let mut span = made(args)?;
    for each in later {
        step(&mut span, &mut Args::new(alloc, each.as_slice()), answer)?;
    }
    if answer.is_empty() {
        answer.add(span)
    } else {
        Ok(())
    }
}
