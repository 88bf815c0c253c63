//! Dates as they are written.

ghost use Rattle.std.specs.Prelude.{◌≡◌, ◌++◌, OnOk, string_bytes, unsigned_abs};
ghost use Rattle.std.specs.Duration.{as_nanos};
ghost use Rattle.files.specs.Dates.{IsDateAfter, two_digits, four_digits, day_text, date_text, minute_text};
ghost use Rattle.files.specs.Dates.{clock_text, time_text};
ghost use Rattle.files.specs.Dates.{date_time_text, date_minute_text};

use itoa::Buffer as Digits;
use jiff_core::civil::{Date, DateTime, Time};
use std::alloc::AllocError;
use std::time::Duration;

/// Returns the date and the time of day so long after 1970, where no zone's time is counted. None
/// after the year 9999, and only then.
pub(crate) fn date_after(since_1970: Duration) -> Option<DateTime>
    ensures { IsDateAfter (as_nanos since_1970) result }
{
    let Ok(nanos) = i128::try_from(since_1970.as_nanos()) else {
        return None;
    };
    match DateTime::from_nanosecond(nanos) {
        Ok(date) => Some(date),
        Err(_) => None,
    }
}

// Appends the last two digits of a number.
fn push_two(text: &mut String, number: u32) -> Result<(), AllocError>
    ensures { OnOk result (string_bytes text.new ≡ string_bytes text.old ++ two_digits number) }
{
    let mut digits = Digits::new();
    text.push_str(digits.format(number / 10 % 10))?;
    text.push_str(digits.format(number % 10))
}

// Appends the last four digits of a number.
fn push_four(text: &mut String, number: u32) -> Result<(), AllocError>
    ensures { OnOk result (string_bytes text.new ≡ string_bytes text.old ++ four_digits number) }
{
    push_two(text, number / 100)?;
    push_two(text, number)
}

// Appends a year.
fn push_year(text: &mut String, year: i16) -> Result<(), AllocError>
    ensures { OnOk result (string_bytes text.new
        ≡ string_bytes text.old ++ four_digits (unsigned_abs year)) }
{
    push_four(text, u32::from(year.unsigned_abs()))
}

// Appends a month and a day, as `-02-29`.
fn push_day(text: &mut String, month: u8, day: u8) -> Result<(), AllocError>
    ensures { OnOk result (string_bytes text.new ≡ string_bytes text.old ++ day_text month day) }
{
    text.push_str("-")?;
    push_two(text, u32::from(month))?;
    text.push_str("-")?;
    push_two(text, u32::from(day))
}

// Appends a date, as `2024-02-29`.
fn push_date(text: &mut String, date: Date) -> Result<(), AllocError>
    ensures { OnOk result (string_bytes text.new ≡ string_bytes text.old ++ date_text date) }
{
    push_year(text, date.year)?;
    push_day(text, date.month, date.day)
}

// Appends a time of day up to its minute, as `23:59`.
fn push_minute(text: &mut String, time: Time) -> Result<(), AllocError>
    ensures { OnOk result (string_bytes text.new ≡ string_bytes text.old ++ minute_text time) }
{
    push_two(text, u32::from(time.hour))?;
    text.push_str(":")?;
    push_two(text, u32::from(time.minute))
}

// Appends a time of day, as `23:59:05`.
fn push_clock(text: &mut String, time: Time) -> Result<(), AllocError>
    ensures { OnOk result (string_bytes text.new ≡ string_bytes text.old ++ clock_text time) }
{
    push_minute(text, time)?;
    text.push_str(":")?;
    push_two(text, u32::from(time.second))
}

// Appends a time of day, as `T23:59:05`.
fn push_time(text: &mut String, time: Time) -> Result<(), AllocError>
    ensures { OnOk result (string_bytes text.new ≡ string_bytes text.old ++ time_text time) }
{
    text.push_str("T")?;
    push_clock(text, time)
}

/// Appends a date and a time of day, as `2024-02-29T23:59:05`.
pub(crate) fn push_date_time(text: &mut String, date: DateTime) -> Result<(), AllocError>
    ensures { OnOk result (string_bytes text.new ≡ string_bytes text.old ++ date_time_text date) }
{
    push_date(text, date.date)?;
    push_time(text, date.time)
}

/// Appends a date and a time of day up to its minute, as `2024-02-29 23:59`.
pub(crate) fn push_date_minute(text: &mut String, date: DateTime) -> Result<(), AllocError>
    ensures { OnOk result (string_bytes text.new ≡ string_bytes text.old ++ date_minute_text date) }
{
    push_date(text, date.date)?;
    text.push_str(" ")?;
    push_minute(text, date.time)
}
