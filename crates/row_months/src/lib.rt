//! Rows of calendars, and the pictures that they ask for.
//!
//! A row has a date, the columns and rows of a buffer of points, words and events, with a tab
//! between each two, as `2026-11-01`, `21x7`, `month:a days:b`, `2026-11-29:c`. A word is one of
//! `month`, `weekdays`, `beside` and `days` with the letters of a style, `box`, `title`, and
//! `in:X,Y,COLUMNS,ROWS` for an area that isn't the whole buffer; an event is a date with the
//! letters of its style; `-` is none of them. A small letter is a foreground of that name, a capital
//! one a background.
//!
//! A picture has how many columns and rows the calendar takes, and what the buffer shows: beside its
//! symbols the letters of the foregrounds, and then those of the backgrounds.
#![tactic(auto)]

mod cases;
mod shown;
mod styles;

use crate::cases::Case;
use std::alloc::{AllocError, Global};

/// Returns the picture that a row asks for; none if a line is no row of a calendar.
///
/// # Errors
///
/// `AllocError` if memory is refused.
pub fn picture(alloc: Global, line: &str) -> Result<Option<String>, AllocError> {
    match Case::read(line) {
        Some(case) => Ok(Some(case.shown(alloc)?)),
        None => Ok(None),
    }
}
