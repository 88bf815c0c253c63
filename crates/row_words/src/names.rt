//! Values that have names.
use crate::answer::Answer;
use crate::args::Args;
use crate::error::RowError;
use ratatui_core::symbols::merge::MergeStrategy;
use std::fmt::Display;
use std::str::FromStr;

/// Returns what a table has under a name, if it has the name.
pub fn entry_of<'t, T>(table: &'t [(&str, T)], name: &str) -> Option<&'t T> {
    for (own, entry) in table {
        if *own == name {
            return Some(entry);
        }
    }
    None
}

/// Reads a text as the name of a value, and prints the value or why it is none.
pub fn named<T: FromStr + Display + Drop>(
    args: &mut Args<'_>,
    answer: &mut Answer,
) -> Result<(), RowError>
where
    T::Err: Display + Drop,
{
    let alloc = args.alloc;
    match args.text()?.parse::<T>() {
        Ok(value) => answer.print(alloc, &value),
        Err(error) => answer.print(alloc, &error),
    }
}

/// Returns how borders are joined, by a name.
pub fn strategy_of(word: &str) -> Result<MergeStrategy, RowError> {
    match word {
        "replace" => Ok(MergeStrategy::Replace),
        "exact" => Ok(MergeStrategy::Exact),
        "fuzzy" => Ok(MergeStrategy::Fuzzy),
        "default" => Ok(MergeStrategy::default()),
        _ => Err(RowError::Unread),
    }
}
