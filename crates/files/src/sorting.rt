//! Entries of a folder, in order.

ghost use Rattle.std.specs.Prelude.{◌≡◌, IfOk, OnOk, option_map};
ghost use Rattle.std.specs.Duration.{as_nanos};
ghost use Rattle.files.specs.Sorting.{is_listed, IsDateOf, IsRowFor, AddsIf, IsListOf, IsPlaceOf};

use crate::dates::date_after;
use crate::list::{Row, Rows};
use crate::name_keys::name_sort_key;
use crate::order::Order;
use jiff_core::civil::DateTime;
use ratatui_files::{Entries, Info, Kind};
use std::alloc::{AllocError, Global};
use std::time::Duration;

/// Returns whether an entry of this name is listed.
pub(crate) fn is_listed(has_hidden: bool, name: &str) -> bool
    ensures { result ≡ is_listed has_hidden name.now }
{
    has_hidden || !name.starts_with('.')
}

// A time in nanoseconds.
fn nanos(time: Option<Duration>) -> Option<u128>
    ensures { result ≡ option_map as_nanos time }
{
    match time {
        Some(time) => Some(time.as_nanos()),
        None => None,
    }
}

// The date of a time, if that is known.
fn date_of(time: Option<Duration>) -> Option<DateTime>
    ensures { IsDateOf time result }
{
    match time {
        Some(time) => date_after(time),
        None => None,
    }
}

// What is told of an entry in its row.
fn row_of(alloc: Global, info: Info) -> Result<Row, AllocError>
    ensures { IfOk result (IsRowFor info) }
{
    let key = name_sort_key(alloc, info.name.as_str())?;
    let Info {
        name,
        kind,
        size,
        modified,
        mode,
    } = info;
    let size = match kind {
        Kind::File => Some(size),
        _ => None,
    };
    Ok(Row {
        is_leaf: kind != Kind::Folder,
        name: name.into_string(),
        is_link: kind == Kind::Link,
        size,
        changed: nanos(modified),
        date: date_of(modified),
        mode,
        key,
    })
}

// Appends the row of an entry, if it is listed.
fn add(alloc: Global, info: Info, has_hidden: bool, rows: &mut Vec<Row>) -> Result<(), AllocError>
    ensures { OnOk result (AddsIf has_hidden info rows.old.items rows.new.items) }
{
    if is_listed(has_hidden, info.name.as_str()) {
        let row = row_of(alloc, info)?;
        rows.push(row)?;
    }
    Ok(())
}

/// Returns the rows of entries, in order.
pub(crate) fn sorted(
    alloc: Global,
    entries: Entries,
    has_hidden: bool,
    order: Order,
) -> Result<Rows, AllocError>
    ensures { IfOk result (IsListOf order has_hidden entries) }
{
    let entries = entries.into_vec();
    let mut rows = Vec::with_capacity(alloc, entries.len())?;
    for info in entries {
        add(alloc, info, has_hidden, &mut rows)?;
    }
    order.sort(&mut rows)?;
    Ok(Rows::new(rows))
}

/// Returns the row of a name, from 0 on, or else another one.
pub(crate) fn place_of(rows: &[Row], name: &str, other: usize) -> usize
    ensures { IsPlaceOf name.now other rows.now result }
{
    for (place, row) in rows.iter().enumerate() {
        if row.name.as_str() == name {
            return place;
        }
    }
    other
}
