//! Calls on cells.
use ratatui_core::buffer::{Cell, CellWidth};
use ratatui_core::style::Color;
use row_words::answer::Answer;
use row_words::args::Args;
use row_words::error::RowError;
use row_words::names::strategy_of;
use row_words::texts::alike;
use row_words::tokens::Token;
use std::alloc::Global;

/// Makes a call that changes a cell.
pub fn change(cell: &mut Cell, word: &str, args: &mut Args<'_>) -> Result<(), RowError> {
    match word {
        "set_symbol" | "append_symbol" | "merge_symbol" => {
            change_symbol(cell, word, args.text()?, args)
        }
        "set_char" => Ok(cell.set_char(args.alloc, args.char()?)?),
        "set_fg" | "set_bg" => {
            colour(cell, word, args.color()?);
            Ok(())
        }
        "set_style" => {
            cell.set_style(args.style());
            Ok(())
        }
        _ => change_drawing(cell, word, args),
    }
}

fn change_symbol(
    cell: &mut Cell,
    word: &str,
    text: &str,
    args: &mut Args<'_>,
) -> Result<(), RowError> {
    let alloc = args.alloc;
    let done = match word {
        "set_symbol" => cell.set_symbol(alloc, text),
        "append_symbol" => cell.append_symbol(alloc, text),
        _ => cell.merge_symbol(alloc, text, strategy_of(args.word()?)?),
    };
    Ok(done?)
}

fn colour(cell: &mut Cell, word: &str, color: Color) {
    if word == "set_fg" {
        cell.set_fg(color);
    } else {
        cell.set_bg(color);
    }
}

// Changes how a cell is drawn, or makes it an empty one.
fn change_drawing(cell: &mut Cell, word: &str, args: &mut Args<'_>) -> Result<(), RowError> {
    match word {
        "set_skip" => {
            cell.set_skip(args.value::<bool>()?);
        }
        "set_diff_option" => {
            cell.set_diff_option(args.option()?);
        }
        "reset" => cell.reset(),
        _ => return Err(RowError::Unread),
    }
    Ok(())
}

// Whether a call changes a cell.
fn is_change(word: &str) -> bool {
    word == "reset" || word.starts_with("set_") || word == "append_symbol" || word == "merge_symbol"
}

// Asks a cell something.
fn ask(cell: &Cell, word: &str, args: &mut Args<'_>, answer: &mut Answer) -> Result<(), RowError> {
    match word {
        "symbol" => answer.add(cell.symbol()),
        "cell_width" => answer.add(cell.cell_width()),
        "style" => answer.add(cell.style()),
        "is_skipped" => answer.add(cell.is_skipped()),
        "is_single_byte" => answer.add(cell.is_single_byte()),
        "clone" => answer.add(cell.clone(args.alloc)?),
        "clone_from" => answer.add(cloned_from(args.cell()?, cell, args.alloc)?),
        "equal" => alike(cell, &args.cell()?, answer),
        _ => Err(RowError::Unread),
    }
}

fn cloned_from(mut cell: Cell, source: &Cell, alloc: Global) -> Result<Cell, RowError> {
    cell.clone_from(alloc, source)?;
    Ok(cell)
}

fn made(args: &mut Args<'_>) -> Result<Cell, RowError> {
    match args.word()? {
        "new" => Ok(Cell::new(args.alloc, args.text()?)?),
        "from_char" => Ok(Cell::from_char(args.alloc, args.char()?)?),
        "EMPTY" => Ok(Cell::EMPTY),
        "default" => Ok(Cell::default()),
        "cell" => args.cell(),
        _ => Err(RowError::Unread),
    }
}

// One call on a cell.
fn step(
    cell: &mut Cell,
    alloc: Global,
    tokens: &[Token],
    answer: &mut Answer,
) -> Result<(), RowError> {
    let mut args = Args::new(alloc, tokens);
    let word = args.word()?;
    if is_change(word) {
        change(cell, word, &mut args)?;
    } else {
        ask(cell, word, &mut args, answer)?;
    }
    args.end()
}

/// Makes a cell, and calls on it; adds the cell itself if nothing was asked. A call that is refused
/// memory is made once more, over what it left.
pub fn cell(
    alloc: Global,
    args: &mut Args<'_>,
    later: &[Vec<Token>],
    answer: &mut Answer,
) -> Result<(), RowError> {
    let mut cell = made(args)?;
    for each in later {
        let tokens = each.as_slice();
        let mut own = Answer::new(alloc);
        let mut done = step(&mut cell, alloc, tokens, &mut own);
        if let Err(RowError::Memory) = done {
            own = Answer::new(alloc);
            done = step(&mut cell, alloc, tokens, &mut own);
        }
        done?;
        answer.join(&own)?;
    }
    if answer.is_empty() {
        answer.add(cell)
    } else {
        Ok(())
    }
}
