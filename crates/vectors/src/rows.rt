//! Rows: a call, and what it answers.
use crate::scripts;
use row_screens::{backends, buffers, cells, terminals};
use row_texts::{lines, spans, stylize, whole_texts};
use row_values::{borders, geometry, layouts, palettes, styles, symbols};
use row_words::answer::Answer;
use row_words::args::Args;
use row_words::error::RowError;
use row_words::tokens::{Token, steps_of};
use std::alloc::{AllocError, Global};

/// How many rows of a file hold and don't, and what is told of those that don't.
#[derive(Drop)]
pub struct Tally {
    pub held: usize,
    pub failed: usize,
    pub report: String,
}

impl Tally {
    pub fn new(alloc: Global) -> Tally {
        Tally {
            held: 0,
            failed: 0,
            report: String::new(alloc),
        }
    }
}

// Makes the call of a row that has but one.
fn make_call(subject: &str, args: &mut Args<'_>, answer: &mut Answer) -> Result<(), RowError> {
    match subject {
        "rect" => geometry::rect(args, answer),
        "position" => geometry::position(args, answer),
        "offset" => geometry::offset(args, answer),
        "size" => geometry::size(args, answer),
        "margin" => geometry::margin(args, answer),
        "width" => borders::width(args, answer),
        "merge" => borders::merge(args, answer),
        "clear_type" => backends::clear_type(args, answer),
        "palette" => palettes::palette(args, answer),
        "symbols" => symbols::symbols(args, answer),
        "script" => scripts::script(args, answer),
        "layout_part" => layouts::layout_part(args, answer),
        "color" => styles::color(args, answer),
        "modifier" => styles::modifier(args, answer),
        "stylize" => stylize::stylize(args, answer),
        "masked" => whole_texts::masked(args, answer),
        "to_text" => whole_texts::to_text(args, answer),
        _ => Err(RowError::Unread),
    }
}

// Makes the calls of a row, each of which takes all its arguments.
fn make_calls(
    alloc: Global,
    subject: &str,
    steps: &[Vec<Token>],
    answer: &mut Answer,
) -> Result<(), RowError> {
    let Some((first, later)) = steps.split_first() else {
        return Err(RowError::Unread);
    };
    let mut args = Args::new(alloc, first.as_slice());
    let done = match subject {
        "iterators" => geometry::iterators(alloc, &mut args, later, answer),
        "cell" => cells::cell(alloc, &mut args, later, answer),
        "buffer" | "diff" | "render" => buffers::buffer(alloc, &mut args, later, answer),
        "backend" => backends::backend(alloc, &mut args, later, answer),
        "terminal" => terminals::terminal(alloc, &mut args, later, answer),
        "layout" => layouts::layout(alloc, &mut args, later, answer),
        "style" => styles::style(alloc, &mut args, later, answer),
        "span" => spans::span(alloc, &mut args, later, answer),
        "line" => lines::line(alloc, &mut args, later, answer),
        "text" => whole_texts::text(alloc, &mut args, later, answer),
        _ if later.is_empty() => make_call(subject, &mut args, answer),
        _ => Err(RowError::Unread),
    };
    done?;
    args.end()
}

// What the calls of a row answer.
fn answer_of(alloc: Global, subject: &str, call: &str) -> Result<String, RowError> {
    let mut answer = Answer::new(alloc);
    let steps = steps_of(alloc, call)?;
    make_calls(alloc, subject, steps.as_slice(), &mut answer)?;
    Ok(answer.text)
}

/// Checks a line of a file: a row, a comment or nothing. A row to which memory was refused is read
/// once more.
pub fn check(
    alloc: Global,
    subject: &str,
    line: &str,
    tally: &mut Tally,
) -> Result<(), AllocError> {
    if line.is_empty() || line.starts_with('#') {
        return Ok(());
    }
    let (call, wanted) = line.rsplit_once(" = ").unwrap_or((line, ""));
    let mut got = answer_of(alloc, subject, call);
    if got.as_ref().is_err_and(|fault| fault.is_memory()) {
        got = answer_of(alloc, subject, call);
    }
    let given = match &got {
        Ok(text) => text.as_str(),
        Err(fault) => fault.word(),
    };
    if given == wanted {
        tally.held = tally.held.saturating_add(1);
        return Ok(());
    }
    tally.failed = tally.failed.saturating_add(1);
    writeln!(tally.report, "{subject}: {call} = {given}, not {wanted}")
}
