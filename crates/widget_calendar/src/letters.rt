//! Characters in cells.

ghost use Rattle.std.specs.Prelude.{◌≡◌, ◌+◌, ◌≤◌, length, OnOk, OnErr, IsOk};
ghost use Rattle.std.specs.Int.{IsInRange};
ghost use Rattle.widget_calendar.specs.Calendars.{written, month_name, month_text};

use arrayvec::ArrayString;
use itoa::Buffer as Digits;
use jiff::civil::Date;
use ratatui_core::buffer::{Cell, CellChange};
use ratatui_core::layout::{Position, Rect};
use ratatui_core::style::Style;
use std::alloc::{AllocError, Global};

/// The weekdays, each over its column.
pub(crate) const WEEKDAYS: &str = " Su Mo Tu We Th Fr Sa";

/// Puts a character in a style into a cell; takes no memory.
pub(crate) fn put_char(
    alloc: Global,
    ch: char,
    style: Style,
    cell: &mut Cell,
) -> Result<(), AllocError>
    ensures ok { OnOk result (cell.new ≡ written ch style cell.old) }
    ensures err { OnErr result (cell.new ≡ cell.old) }
    ensures succeeds { IsOk result }
{
    cell.set_char(alloc, ch)?;
    cell.set_style(style);
    Ok(())
}

/// A text from the left of a row on, but for its first characters.
#[derive(Drop)]
pub(crate) struct Letters<'a> {
    pub(crate) text: &'a str,
    pub(crate) skipped: usize,
    pub(crate) style: Style,
    pub(crate) row: Rect,
}

impl<'a> CellChange for Letters<'a> {
    ghost use Rattle.std.specs.Prelude.{⊤};
    ghost use Rattle.widget_calendar.specs.Calendars.{letter_cell};

    ghost made = { λ l. letter_cell l.text.now l.skipped l.style l.row };

    ghost is_light = { λ _ _ _. ⊤ };

    fn change(&self, alloc: Global, position: Position, cell: &mut Cell) -> Result<(), AllocError> {
        let from_left = usize::from(position.x.saturating_sub(self.row.x));
        let number = from_left.saturating_add(self.skipped);
        let letters = self.text.as_bytes();
        if number >= letters.len() {
            return Ok(());
        }
        put_char(alloc, char::from(letters[number]), self.style, cell)
    }
}

/// The month of a date, and its year.
pub(crate) fn month_text(date: Date) -> ArrayString<16>
    ensures { result.bytes ≡ month_text date }
{
    let plain = date.to_plain();
    let mut digits = Digits::new();
    let mut text = ArrayString::new();
    text.push_str(month_name(plain.month));
    text.push_str(" ");
    text.push_str(digits.format(plain.year));
    text
}

// The name of a month.
fn month_name(month: u8) -> &'static str
    requires { IsInRange 1 12 month }
    ensures name { result.now ≡ month_name month }
    ensures short { length result.now ≤ 9 }
{
    match month {
        1 => "January",
        2 => "February",
        3 => "March",
        4 => "April",
        5 => "May",
        6 => "June",
        7 => "July",
        8 => "August",
        9 => "September",
        10 => "October",
        11 => "November",
        _ => "December",
    }
}
