//! Widths of texts, and borders that are joined.
use ratatui_core::buffer::CellWidth;
use ratatui_core::symbols::merge::BorderSymbol;
use ratatui_core::text::text_columns;
use row_words::answer::Answer;
use row_words::args::Args;
use row_words::error::RowError;
use row_words::names::strategy_of;
use std::alloc::AllocError;

/// Makes a call on a text's width.
pub fn width(args: &mut Args<'_>, answer: &mut Answer) -> Result<(), RowError> {
    match args.word()? {
        "cell_width" => answer.add(args.text()?.cell_width()),
        "text_columns" => answer.add(text_columns(args.text()?)),
        _ => Err(RowError::Unread),
    }
}

/// Adds a symbol that is joined to another one, or a border symbol by its arms.
pub fn merge(args: &mut Args<'_>, answer: &mut Answer) -> Result<(), RowError> {
    match args.word()? {
        "arms" => arms(args.text()?, answer),
        word => joined(word, args.text()?, args.text()?, answer),
    }
}

fn joined(word: &str, prev: &str, next: &str, answer: &mut Answer) -> Result<(), RowError> {
    match word {
        "crossed" => crossed(prev, next, answer),
        _ => answer.add(strategy_of(word)?.merge(prev, next)),
    }
}

fn arms(text: &str, answer: &mut Answer) -> Result<(), RowError> {
    match text.parse::<BorderSymbol>() {
        Ok(symbol) => {
            put_arms(symbol, &mut answer.text)?;
            answer.add(symbol.to_str())
        }
        Err(error) => answer.refused(&error),
    }
}

// Writes the arms of a border symbol: to the right, up, to the left and down.
fn put_arms(symbol: BorderSymbol, out: &mut String) -> Result<(), AllocError> {
    let (right, up) = (symbol.right, symbol.up);
    let (left, down) = (symbol.left, symbol.down);
    write!(out, "{right:?} {up:?} {left:?} {down:?}")
}

// The symbol that has the arms of two border symbols, those of the second one where both have one.
fn crossed(prev: &str, next: &str, answer: &mut Answer) -> Result<(), RowError> {
    match (prev.parse::<BorderSymbol>(), next.parse::<BorderSymbol>()) {
        (Ok(prev), Ok(next)) => answer.add(prev.exact(next).to_str()),
        _ => Err(RowError::Unread),
    }
}
