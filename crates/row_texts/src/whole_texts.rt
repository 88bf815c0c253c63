//! Calls on texts, on masked ones, and on what prints.
use ratatui_core::layout::HorizontalAlignment;
use ratatui_core::style::Style;
use ratatui_core::text::{Line, Lines, Masked, Span, Text, ToLine, ToSpan, ToText};
use row_words::answer::Answer;
use row_words::args::Args;
use row_words::error::RowError;
use row_words::texts::alike;
use row_words::tokens::Token;
use std::alloc::Global;
use std::fmt::Display;

fn made<'a>(args: &mut Args<'a>) -> Result<Text<'a>, RowError> {
    match args.word()? {
        "default" => Ok(Text::default_in(args.alloc)),
        "text" => args.lines(),
        word @ ("raw" | "styled" | "raw_string") => made_of_text(word, args.text()?, args),
        word => made_of_part(word, args),
    }
}

fn made_of_text<'a>(word: &str, text: &'a str, args: &mut Args<'a>) -> Result<Text<'a>, RowError> {
    let made = match word {
        "raw" => Text::raw(args.alloc, text),
        "styled" => Text::styled(args.alloc, text, args.style()),
        _ => Text::raw_string(args.alloc, String::from_str(args.alloc, text)?),
    };
    Ok(made?)
}

fn made_of_part<'a>(word: &str, args: &mut Args<'a>) -> Result<Text<'a>, RowError> {
    match word {
        "from_span" => Ok(Text::from_span(args.alloc, args.span()?)?),
        "from_line" => Ok(Text::from_line(args.alloc, args.line()?)?),
        _ => made_of(word, args.alloc, args.lines()?),
    }
}

// A text of the lines of another one.
fn made_of<'a>(word: &str, alloc: Global, text: Text<'a>) -> Result<Text<'a>, RowError> {
    match word {
        "from_slice" => Ok(Text::from_slice(alloc, text.lines.as_slice())?),
        "try_from_iter" => Ok(Text::try_from_iter(alloc, text)?),
        _ => made_of_lines(word, text.lines),
    }
}

fn made_of_lines<'a>(word: &str, lines: Lines<'a>) -> Result<Text<'a>, RowError> {
    match word {
        "from_vec" => Ok(Text::from(lines.into_vec())),
        "from_lines" => Ok(Text::from(lines)),
        _ => Err(RowError::Unread),
    }
}

// A text after a call that changes it.
fn changed<'a>(text: Text<'a>, word: &str, args: &mut Args<'a>) -> Result<Text<'a>, RowError> {
    match word {
        "try_add" | "append" | "try_extend" => with_text(text, word, args.lines()?),
        "try_add_line" | "push_line" => with_line(text, word, args.line()?),
        "push_span" => with_span(text, args.span()?),
        "alignment" => Ok(text.alignment(args.value::<HorizontalAlignment>()?)),
        "iter_mut" => Ok(restyled(text, args.style())),
        _ => set(text, word, args),
    }
}

fn with_text<'a>(mut text: Text<'a>, word: &str, other: Text<'a>) -> Result<Text<'a>, RowError> {
    match word {
        "append" => text.append(other)?,
        "try_extend" => text.try_extend(other)?,
        _ => return Ok(text.try_add(other)?),
    }
    Ok(text)
}

fn with_line<'a>(mut text: Text<'a>, word: &str, line: Line<'a>) -> Result<Text<'a>, RowError> {
    if word == "try_add_line" {
        return Ok(text.try_add_line(line)?);
    }
    text.push_line(line)?;
    Ok(text)
}

fn with_span<'a>(mut text: Text<'a>, span: Span<'a>) -> Result<Text<'a>, RowError> {
    text.push_span(span)?;
    Ok(text)
}

// A text after a call that sets its style or its alignment.
fn set<'a>(text: Text<'a>, word: &str, args: &mut Args<'a>) -> Result<Text<'a>, RowError> {
    match word {
        "style" => Ok(text.style(args.style())),
        "patch_style" => Ok(text.patch_style(args.style())),
        "reset_style" => Ok(text.reset_style()),
        "left_aligned" => Ok(text.left_aligned()),
        "centered" => Ok(text.centered()),
        "right_aligned" => Ok(text.right_aligned()),
        _ => Err(RowError::Unread),
    }
}

// A text with a style laid over that of each line.
fn restyled<'a>(mut text: Text<'a>, style: Style) -> Text<'a> {
    for line in text.iter_mut() {
        line.style = line.style.patch(style);
    }
    text
}

// Whether a call asks a text something, and leaves it as it is.
fn is_question(word: &str) -> bool {
    matches!(
        word,
        "width" | "height" | "clone" | "print" | "equal" | "iter"
    )
}

// Asks a text something.
fn ask(
    text: &Text<'_>,
    word: &str,
    args: &mut Args<'_>,
    answer: &mut Answer,
) -> Result<(), RowError> {
    match word {
        "width" => answer.add(text.width()),
        "height" => answer.add(text.height()),
        "print" => answer.print(args.alloc, text),
        "iter" => put_lines(args.alloc, text, answer),
        "equal" => alike(text, &args.lines()?, answer),
        _ => answer.add(text.clone(args.alloc)?),
    }
}

fn put_lines(alloc: Global, text: &Text<'_>, answer: &mut Answer) -> Result<(), RowError> {
    for line in text.iter() {
        answer.print(alloc, line)?;
    }
    Ok(())
}

// A text after one call on it.
fn step<'a>(
    text: Text<'a>,
    args: &mut Args<'a>,
    answer: &mut Answer,
) -> Result<Text<'a>, RowError> {
    let word = args.word()?;
    if !is_question(word) {
        return changed(text, word, args);
    }
    ask(&text, word, args, answer)?;
    Ok(text)
}

/// Makes a text, and calls on it; adds the text itself if nothing was asked.
pub fn text<'a>(
    alloc: Global,
    args: &mut Args<'a>,
    later: &'a [Vec<Token>],
    answer: &mut Answer,
) -> Result<(), RowError> {
    let mut text = made(args)?;
    for each in later {
        let mut args = Args::new(alloc, each.as_slice());
        text = step(text, &mut args, answer)?;
        args.end()?;
    }
    if answer.is_empty() {
        answer.add(text)
    } else {
        Ok(())
    }
}

/// Makes a call on a masked text: the text, its mask, and what is asked.
pub fn masked(args: &mut Args<'_>, answer: &mut Answer) -> Result<(), RowError> {
    let word = args.word()?;
    let (text, mask) = (args.text()?, args.char()?);
    match word {
        "equal" => {
            let other = Masked::new(args.text()?, args.char()?);
            alike(&Masked::new(text, mask), &other, answer)
        }
        "from_string" => {
            let other = Masked::from_string(String::from_str(args.alloc, text)?, mask);
            answer.add(other == Masked::new(text, mask))
        }
        _ => ask_masked(&Masked::new(text, mask), word, args.alloc, answer),
    }
}

fn ask_masked(
    masked: &Masked<'_>,
    word: &str,
    alloc: Global,
    answer: &mut Answer,
) -> Result<(), RowError> {
    match word {
        "mask_char" => answer.print(alloc, &masked.mask_char()),
        "print" => answer.print(alloc, masked),
        "value" => answer.add(masked.value(alloc)?.as_str()),
        "debug" => answer.add(format!(in alloc; "{masked:?}")?.as_str()),
        "to_text" => answer.add(masked.to_text(alloc)?),
        "clone" => answer.add(masked.clone(alloc)? == *masked),
        _ => Err(RowError::Unread),
    }
}

fn printed<T: Display>(
    word: &str,
    value: &T,
    alloc: Global,
    answer: &mut Answer,
) -> Result<(), RowError> {
    match word {
        "to_span" => answer.add(value.to_span(alloc)?),
        "to_line" => answer.add(value.to_line(alloc)?),
        "to_text" => answer.add(value.to_text(alloc)?),
        _ => Err(RowError::Unread),
    }
}

/// Adds what prints, as a span, a line or a text.
pub fn to_text(args: &mut Args<'_>, answer: &mut Answer) -> Result<(), RowError> {
    let alloc = args.alloc;
    let word = args.word()?;
    match args.word()? {
        "str" => printed(word, &args.text()?, alloc, answer),
        "String" => printed(word, &String::from_str(alloc, args.text()?)?, alloc, answer),
        "char" => printed(word, &args.char()?, alloc, answer),
        "bool" => printed(word, &args.value::<bool>()?, alloc, answer),
        "i32" => printed(word, &args.value::<i32>()?, alloc, answer),
        "u64" => printed(word, &args.value::<u64>()?, alloc, answer),
        "position" => printed(word, &args.position()?, alloc, answer),
        "span" => printed(word, &args.span()?, alloc, answer),
        _ => Err(RowError::Unread),
    }
}
