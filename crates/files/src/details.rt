//! What is told of an entry beside its name: who may do what, its size, and when it was changed.

ghost use Rattle.std.specs.Prelude.{◌≡◌, ◌++◌, OnOk, string_bytes};
ghost use Rattle.files.specs.Details.{right_shown, three_rights, mode_text, kind_letter, mode_detail};
ghost use Rattle.files.specs.Details.{size_detail, date_shown, date_detail, details_told};

use crate::dates::push_date_minute;
use crate::list::Row;
use itoa::Buffer as Digits;
use jiff_core::civil::DateTime;
use std::alloc::AllocError;

// Appends a letter if the lowest bit says so, or else a dash.
fn push_right(text: &mut String, bits: u32, letter: &str) -> Result<(), AllocError>
    ensures { OnOk result (string_bytes text.new
        ≡ string_bytes text.old ++ right_shown bits letter.now) }
{
    text.push_str(if bits % 2 == 1 { letter } else { "-" })
}

// Appends whether something may be read, written and run, as the lowest three bits say.
fn push_three(text: &mut String, bits: u32) -> Result<(), AllocError>
    ensures { OnOk result (string_bytes text.new ≡ string_bytes text.old ++ three_rights bits) }
{
    push_right(text, bits / 4, "r")?;
    push_right(text, bits / 2, "w")?;
    push_right(text, bits, "x")
}

// Appends who may do what, as `rwxr-xr-x`: the owner, the group, and all others.
fn push_mode(text: &mut String, mode: u32) -> Result<(), AllocError>
    ensures { OnOk result (string_bytes text.new ≡ string_bytes text.old ++ mode_text mode) }
{
    push_three(text, mode / 64)?;
    push_three(text, mode / 8)?;
    push_three(text, mode)
}

// The letter of what an entry is.
fn kind_letter(row: &Row) -> &'static str
    ensures { result.now ≡ kind_letter row.now }
{
    if !row.is_leaf {
        "d"
    } else if row.is_link {
        "l"
    } else if row.size.is_some() {
        "-"
    } else {
        "?"
    }
}

// Appends what an entry is, and who may do what with it, if that is known.
fn push_mode_detail(text: &mut String, row: &Row) -> Result<(), AllocError>
    ensures { OnOk result (string_bytes text.new ≡ string_bytes text.old ++ mode_detail row.now) }
{
    match row.mode {
        Some(mode) => {
            text.push_str("  ")?;
            text.push_str(kind_letter(row))?;
            push_mode(text, mode)
        }
        None => Ok(()),
    }
}

// Appends how many bytes a file has.
fn push_size_detail(text: &mut String, size: Option<u64>) -> Result<(), AllocError>
    ensures { OnOk result (string_bytes text.new ≡ string_bytes text.old ++ size_detail size) }
{
    match size {
        Some(size) => {
            text.push_str("  ")?;
            let mut digits = Digits::new();
            text.push_str(digits.format(size))
        }
        None => Ok(()),
    }
}

/// Appends a date and a time of day, if they are known.
pub(crate) fn push_date_shown(text: &mut String, date: Option<DateTime>) -> Result<(), AllocError>
    ensures { OnOk result (string_bytes text.new ≡ string_bytes text.old ++ date_shown date) }
{
    match date {
        Some(date) => push_date_minute(text, date),
        None => Ok(()),
    }
}

// Appends when an entry was changed, if that is known.
fn push_date_detail(text: &mut String, date: Option<DateTime>) -> Result<(), AllocError>
    ensures { OnOk result (string_bytes text.new ≡ string_bytes text.old ++ date_detail date) }
{
    match date {
        Some(date) => {
            text.push_str("  ")?;
            push_date_minute(text, date)
        }
        None => Ok(()),
    }
}

/// Appends what is told of an entry: who may do what with it, its size, and when it was changed, as
/// far as that is known.
pub(crate) fn push_details(text: &mut String, row: &Row) -> Result<(), AllocError>
    ensures { OnOk result (string_bytes text.new ≡ string_bytes text.old ++ details_told row.now) }
{
    push_mode_detail(text, row)?;
    push_size_detail(text, row.size)?;
    push_date_detail(text, row.date)
}
