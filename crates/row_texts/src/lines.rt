//! Calls on lines.
use ratatui_core::layout::HorizontalAlignment;
use ratatui_core::style::Style;
use ratatui_core::text::{Line, Span, Spans};
use row_words::answer::Answer;
use row_words::args::Args;
use row_words::error::RowError;
use row_words::texts::alike;
use row_words::tokens::Token;
use std::alloc::Global;

fn made<'a>(args: &mut Args<'a>) -> Result<Line<'a>, RowError> {
    match args.word()? {
        "default" => Ok(Line::default_in(args.alloc)),
        "line" => args.line(),
        word @ ("raw" | "styled" | "raw_string") => made_of_text(word, args.text()?, args),
        "from_span" => Ok(Line::from_span(args.alloc, args.span()?)?),
        word => made_of(word, args.alloc, args.line()?),
    }
}

fn made_of_text<'a>(word: &str, text: &'a str, args: &mut Args<'a>) -> Result<Line<'a>, RowError> {
    let made = match word {
        "raw" => Line::raw(args.alloc, text),
        "styled" => Line::styled(args.alloc, text, args.style()),
        _ => Line::raw_string(args.alloc, String::from_str(args.alloc, text)?),
    };
    Ok(made?)
}

// A line of the spans of another one.
fn made_of<'a>(word: &str, alloc: Global, line: Line<'a>) -> Result<Line<'a>, RowError> {
    match word {
        "try_from_iter" => Ok(Line::try_from_iter(alloc, line)?),
        _ => made_of_spans(word, alloc, line.spans),
    }
}

fn made_of_spans<'a>(word: &str, alloc: Global, spans: Spans<'a>) -> Result<Line<'a>, RowError> {
    match word {
        "from_vec" => Ok(Line::from(spans.into_vec())),
        _ => made_of_slice(word, alloc, spans.as_slice()),
    }
}

fn made_of_slice<'a>(word: &str, alloc: Global, spans: &[Span<'a>]) -> Result<Line<'a>, RowError> {
    match word {
        "from_slice" => Ok(Line::from_slice(alloc, spans)?),
        "from_spans" => Ok(Line::from(Spans::from_slice(alloc, spans)?)),
        _ => Err(RowError::Unread),
    }
}

// A line after a call that changes it.
fn changed<'a>(line: Line<'a>, word: &str, args: &mut Args<'a>) -> Result<Line<'a>, RowError> {
    match word {
        "spans" | "try_extend" => with_line(line, word, args.line()?),
        "try_add" | "push_span" => with_span(line, word, args.span()?),
        "alignment" => Ok(line.alignment(args.value::<HorizontalAlignment>()?)),
        "iter_mut" => Ok(restyled(line, args.style())),
        _ => set(line, word, args),
    }
}

fn with_line<'a>(mut line: Line<'a>, word: &str, other: Line<'a>) -> Result<Line<'a>, RowError> {
    if word == "spans" {
        return Ok(line.spans(other.spans.as_slice())?);
    }
    line.try_extend(other)?;
    Ok(line)
}

fn with_span<'a>(mut line: Line<'a>, word: &str, span: Span<'a>) -> Result<Line<'a>, RowError> {
    if word == "try_add" {
        return Ok(line.try_add(span)?);
    }
    line.push_span(span)?;
    Ok(line)
}

// A line after a call that sets its style or its alignment.
fn set<'a>(line: Line<'a>, word: &str, args: &mut Args<'a>) -> Result<Line<'a>, RowError> {
    match word {
        "style" => Ok(line.style(args.style())),
        "patch_style" => Ok(line.patch_style(args.style())),
        "reset_style" => Ok(line.reset_style()),
        "left_aligned" => Ok(line.left_aligned()),
        "centered" => Ok(line.centered()),
        "right_aligned" => Ok(line.right_aligned()),
        _ => Err(RowError::Unread),
    }
}

// A line with a style laid over that of each span.
fn restyled<'a>(mut line: Line<'a>, style: Style) -> Line<'a> {
    for span in line.iter_mut() {
        span.style = span.style.patch(style);
    }
    line
}

// Whether a call asks a line something, and leaves it as it is.
fn is_question(word: &str) -> bool {
    matches!(
        word,
        "width"
            | "clone"
            | "print"
            | "equal"
            | "styled_graphemes"
            | "iter"
            | "try_add_line"
            | "try_into_string"
    )
}

// Asks a line something.
fn ask<'a>(
    line: &Line<'a>,
    word: &str,
    args: &mut Args<'a>,
    answer: &mut Answer,
) -> Result<(), RowError> {
    match word {
        "width" => answer.add(line.width()),
        "print" => answer.print(args.alloc, line),
        "styled_graphemes" => put_graphemes(line, args.style(), answer),
        "iter" => put_texts(line, answer),
        "equal" => alike(line, &args.line()?, answer),
        _ => ask_copy(line.clone(args.alloc)?, word, args, answer),
    }
}

fn put_graphemes(line: &Line<'_>, style: Style, answer: &mut Answer) -> Result<(), RowError> {
    for grapheme in line.styled_graphemes(style) {
        answer.add(grapheme)?;
    }
    Ok(())
}

fn put_texts(line: &Line<'_>, answer: &mut Answer) -> Result<(), RowError> {
    for span in line.iter() {
        answer.add(span.text())?;
    }
    Ok(())
}

// Adds a copy of a line, or what is made of it.
fn ask_copy<'a>(
    line: Line<'a>,
    word: &str,
    args: &mut Args<'a>,
    answer: &mut Answer,
) -> Result<(), RowError> {
    match word {
        "clone" => answer.add(line),
        "try_into_string" => answer.add(line.try_into_string()?.as_str()),
        _ => put_sum(line, args.line(), answer),
    }
}

fn put_sum<'a>(
    line: Line<'a>,
    other: Result<Line<'a>, RowError>,
    answer: &mut Answer,
) -> Result<(), RowError> {
    let text = line.try_add_line(other?)?;
    answer.add(text)
}

// A line after one call on it.
fn step<'a>(
    line: Line<'a>,
    args: &mut Args<'a>,
    answer: &mut Answer,
) -> Result<Line<'a>, RowError> {
    let word = args.word()?;
    if !is_question(word) {
        return changed(line, word, args);
    }
    ask(&line, word, args, answer)?;
    Ok(line)
}

/// Makes a line, and calls on it; adds the line itself if nothing was asked.
pub fn line<'a>(
    alloc: Global,
    args: &mut Args<'a>,
    later: &'a [Vec<Token>],
    answer: &mut Answer,
) -> Result<(), RowError> {
    let mut line = made(args)?;
    for each in later {
        let mut args = Args::new(alloc, each.as_slice());
        line = step(line, &mut args, answer)?;
        args.end()?;
    }
    if answer.is_empty() {
        answer.add(line)
    } else {
        Ok(())
    }
}
