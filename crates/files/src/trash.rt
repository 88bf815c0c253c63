//! What is put into the trash, under which name, and what is written of it.

ghost use Rattle.std.specs.Prelude.{◌≡◌, ◌++◌, IfOk, IfSome, OnOk, string_bytes};
ghost use Rattle.std.specs.Str.{bytes_eq};
ghost use Rattle.percent_encoding.specs.Percent.{percent_encode};
ghost use Rattle.files.specs.declared.trash.TheConstants.{KEPT};
ghost use Rattle.files.specs.Trash.{discard_in, numbered, info_name, place_line, date_line, info_text, has_name, is_free, IsLeastFree, discard_plan};

use crate::browser::Browser;
use crate::dates::push_date_time;
use itoa::Buffer as Digits;
use jiff_core::civil::DateTime;
use percent_encoding::{AsciiSet, NON_ALPHANUMERIC, ascii_set, utf8_percent_encode};
use ratatui_files::{Bytes, Command, Entries, Info, Path, Text};
use std::alloc::{AllocError, Global};
use std::time::Duration;

/// What stands as itself in a path that is written of something in the trash: letters, digits, and
/// these.
const KEPT: AsciiSet = ascii_set!(
    NON_ALPHANUMERIC
        .remove(b'/')
        .remove(b'-')
        .remove(b'.')
        .remove(b'_')
        .remove(b'~')
);

/// An entry that is to be put into the trash.
#[derive(Drop)]
pub struct Discard {
    /// Where it is.
    pub from: Path,
    /// Its name.
    pub name: Text,
    /// The trash.
    pub trash: Path,
    /// The folder there of what was put into it.
    pub files: Path,
    /// The folder there of what is written of that.
    pub info: Path,
}

/// What the trash holds, and the time.
#[derive(Drop)]
pub(crate) struct Seen {
    pub(crate) files: Entries,
    pub(crate) info: Entries,
    pub(crate) time: Duration,
}

/// How something is put into the trash: what is written of it, the move, and what takes back the
/// first if the second fails.
#[derive(Drop)]
pub(crate) struct Plan {
    pub(crate) write: Command,
    pub(crate) put: Command,
    pub(crate) undo: Command,
}

// The name that something gets in the trash.
fn numbered(alloc: Global, name: &str, number: u32) -> Result<String, AllocError>
    ensures { IfOk result (λ text. string_bytes text ≡ numbered number name.now) }
{
    let mut text = String::from_str(alloc, name)?;
    if number != 1 {
        text.push_str(".")?;
        let mut digits = Digits::new();
        text.push_str(digits.format(number))?;
    }
    Ok(text)
}

// The name of the file with what is written of it.
fn info_name(alloc: Global, name: &str, number: u32) -> Result<String, AllocError>
    ensures { IfOk result (λ text. string_bytes text ≡ info_name number name.now) }
{
    let mut text = numbered(alloc, name, number)?;
    text.push_str(".trashinfo")?;
    Ok(text)
}

// Whether an entry has this name.
fn is_named(name: &str, info: &Info) -> bool
    ensures { result ≡ bytes_eq info.now.name name.now }
{
    info.name.as_str() == name
}

// Whether one of these entries has this name.
fn has_name(name: &str, entries: &[Info]) -> bool
    ensures { result ≡ has_name name.now entries.now }
{
    entries.iter().any(|info| is_named(name, info))
}

// Whether neither folder of the trash has the name with this number.
fn is_free(alloc: Global, name: &str, seen: &Seen, number: u32) -> Result<bool, AllocError>
    ensures { IfOk result (λ free. free ≡ is_free name.now seen.now number) }
{
    let text = numbered(alloc, name, number)?;
    if has_name(text.as_str(), seen.files.as_slice()) {
        return Ok(false);
    }
    let text = info_name(alloc, name, number)?;
    Ok(!has_name(text.as_str(), seen.info.as_slice()))
}

/// Returns the least number, from 1 on, with which a name is free in the trash.
pub(crate) fn free_number(alloc: Global, name: &str, seen: &Seen) -> Result<Option<u32>, AllocError>
    ensures { IfOk result (λ number. IfSome number (IsLeastFree name.now seen.now)) }
{
    for number in 1..u32::MAX {
        if is_free(alloc, name, seen, number)? {
            return Ok(Some(number));
        }
    }
    Ok(None)
}

// Appends a path as it is written there.
fn push_path(text: &mut String, path: &str) -> Result<(), AllocError>
    ensures { OnOk result (string_bytes text.new
        ≡ string_bytes text.old ++ percent_encode KEPT path.now) }
{
    utf8_percent_encode(path, KEPT).append_to(text)
}

// Appends where something was.
fn push_place(text: &mut String, from: &str) -> Result<(), AllocError>
    ensures { OnOk result (string_bytes text.new ≡ string_bytes text.old ++ place_line from.now) }
{
    text.push_str("[Trash Info]\nPath=/")?;
    push_path(text, from)
}

// Appends when something was put into the trash.
fn push_when(text: &mut String, date: DateTime) -> Result<(), AllocError>
    ensures { OnOk result (string_bytes text.new ≡ string_bytes text.old ++ date_line date) }
{
    text.push_str("\nDeletionDate=")?;
    push_date_time(text, date)?;
    text.push_str("\n")
}

// Appends what is written of something in the trash.
fn push_info(text: &mut String, from: &str, date: DateTime) -> Result<(), AllocError>
    ensures { OnOk result (string_bytes text.new
        ≡ string_bytes text.old ++ info_text from.now date) }
{
    push_place(text, from)?;
    push_when(text, date)
}

// What is written of something in the trash.
fn info_text(alloc: Global, from: &str, date: DateTime) -> Result<Bytes, AllocError>
    ensures { IfOk result (λ bytes. bytes ≡ info_text from.now date) }
{
    let mut text = String::new(alloc);
    push_info(&mut text, from, date)?;
    Ok(Bytes::new(text.into_bytes()))
}

/// Returns how something is put into the trash, under its name with this number.
pub(crate) fn discard_plan(
    alloc: Global,
    discard: &Discard,
    number: u32,
    date: DateTime,
) -> Result<Option<Plan>, AllocError>
    ensures { IfOk result (λ plan. IfSome plan (λ p. p ≡ discard_plan discard.now number date)) }
{
    let name = numbered(alloc, discard.name.as_str(), number)?;
    let Some(to) = discard.files.entry(alloc, name.as_str())? else {
        return Ok(None);
    };
    let name = info_name(alloc, discard.name.as_str(), number)?;
    let Some(info) = discard.info.entry(alloc, name.as_str())? else {
        return Ok(None);
    };
    let text = info_text(alloc, discard.from.as_str(), date)?;
    Ok(Some(Plan {
        undo: Command::Remove(info.copy(alloc)?),
        write: Command::Write(info, text),
        put: Command::Rename(discard.from.copy(alloc)?, to),
    }))
}

impl Browser {
    /// Returns what the question is about whether the entry that is selected is to be put into the
    /// trash. None if there is no trash, or no entry.
    ///
    /// # Errors
    ///
    /// `AllocError` if memory is refused.
    pub fn discard(&self) -> Result<Option<Discard>, AllocError>
        ensures { IfOk result (λ discard. discard ≡ discard_in self.now) }
    {
        let Some(trash) = &self.trash else {
            return Ok(None);
        };
        let Some(from) = self.folder.entry(self.alloc, self.selected_text())? else {
            return Ok(None);
        };
        let Some(files) = trash.entry(self.alloc, "files")? else {
            return Ok(None);
        };
        let Some(info) = trash.entry(self.alloc, "info")? else {
            return Ok(None);
        };
        Ok(Some(Discard {
            from,
            name: Text::copy(self.alloc, self.selected_text())?,
            trash: trash.copy(self.alloc)?,
            files,
            info,
        }))
    }
}
