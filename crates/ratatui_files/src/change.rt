//! What commands tell of a tree, and what they make of it.

ghost use Rattle.std.specs.Prelude.{◌≡◌, ◌≤◌, IfOk, OnOk, OnErr, take, drop, length, map};
ghost use Rattle.std.specs.Prelude.{vec_len};
ghost use Rattle.std.specs.Vec.{vec_capacity};
ghost use Rattle.ratatui_files.specs.Paths.{moved_path};
ghost use Rattle.ratatui_files.specs.Trees.{entries_in, without, with_node, renamed, info_of};
ghost use Rattle.ratatui_files.specs.Trees.{info_in};
ghost use Rattle.ratatui_files.specs.Inner.{with_paths};

use crate::answer::{Entries, Info, Kind};
use crate::node::{Entry, Node};
use crate::path::{moved_path, name_in};
use crate::text::{Bytes, Text};
use crate::tree::{bytes_of, is_at};
use std::alloc::{AllocError, Global};
use std::time::Duration;

// What is told of a thing with a name.
fn info_of(alloc: Global, entry: &Entry, name: &str) -> Result<Info, AllocError>
    ensures { IfOk result (λ info. info ≡ info_of entry.now name.now) }
{
    let (kind, mode) = match entry.node {
        Node::Folder => (Kind::Folder, 0o755),
        Node::File(_) => (Kind::File, 0o644),
    };
    Ok(Info {
        name: Text::copy(alloc, name)?,
        kind,
        size: bytes_of(&entry.node).len() as u64,
        modified: Some(entry.modified),
        mode: Some(mode),
    })
}

// What is told of a thing if it stands in a folder.
fn info_in(alloc: Global, folder: &str, entry: &Entry) -> Result<Option<Info>, AllocError>
    ensures { IfOk result (λ info. info ≡ info_in folder.now entry.now) }
{
    match name_in(folder, entry.path.as_str()) {
        Some(name) => Ok(Some(info_of(alloc, entry, name)?)),
        None => Ok(None),
    }
}

// What stands in a folder.
pub(crate) fn entries_in(
    alloc: Global,
    folder: &str,
    entries: &[Entry],
) -> Result<Entries, AllocError>
    ensures { IfOk result (λ infos. infos ≡ entries_in folder.now entries.now) }
{
    let mut infos = Vec::new(alloc);
    for entry in entries {
        let Some(info) = info_in(alloc, folder, entry)? else {
            continue;
        };
        infos.push(info)?;
    }
    Ok(Entries::new(infos))
}

// Some of these bytes, from one on.
pub(crate) fn part(
    alloc: Global,
    bytes: &[u8],
    start: u64,
    most: usize,
) -> Result<Bytes, AllocError>
    ensures { IfOk result (λ part. part ≡ take most (drop start bytes.now)) }
{
    let start = start.min(bytes.len() as u64) as usize;
    let rest = &bytes[start..];
    Bytes::copy(alloc, &rest[..most.min(rest.len())])
}

// The tree without what stands at a path.
pub(crate) fn remove(path: &str, entries: &mut Vec<Entry>)
    ensures items { entries.new.items ≡ without path.now entries.old.items }
    ensures capacity { vec_capacity entries.new ≡ vec_capacity entries.old }
    ensures len { vec_len entries.new ≤ vec_len entries.old }
{
    entries.retain(|entry| !is_at(path, entry));
}

// Puts something at a path, in place of what stands there.
pub(crate) fn put(
    alloc: Global,
    path: &str,
    node: Node,
    time: Duration,
    entries: &mut Vec<Entry>,
) -> Result<(), AllocError>
    ensures ok { OnOk result (entries.new.items ≡ with_node path.now node time entries.old.items) }
    ensures refused { OnErr result (entries.new.items ≡ entries.old.items) }
{
    let entry = Entry {
        path: Text::copy(alloc, path)?,
        node,
        modified: time,
    };
    entries.try_reserve(1)?;
    remove(path, entries);
    entries.push(entry)?;
    Ok(())
}

// The paths of all, once what is at a path, or in it, is moved.
fn moved_paths(
    alloc: Global,
    from: &str,
    to: &str,
    entries: &[Entry],
) -> Result<Vec<Text>, AllocError>
    ensures { IfOk result (λ paths.
        paths.items ≡ map (λ e. moved_path from.now to.now e.path) entries.now) }
{
    let mut paths = Vec::new(alloc);
    for entry in entries {
        paths.push(moved_path(alloc, from, to, entry.path.as_str())?)?;
    }
    Ok(paths)
}

// Gives these paths to the entries, in order.
fn give_paths(paths: Vec<Text>, entries: &mut [Entry])
    ensures { entries.new ≡ with_paths entries.old paths.items }
{
    let mut paths = paths.into_iter();
    for entry in entries.iter_mut() {
        let Some(path) = paths.next() else {
            return;
        };
        entry.path = path;
    }
}

// Moves what is at a path, or in it, to another one.
pub(crate) fn rename(
    alloc: Global,
    from: &str,
    to: &str,
    entries: &mut Vec<Entry>,
) -> Result<(), AllocError>
    ensures ok { OnOk result (entries.new.items ≡ renamed from.now to.now entries.old.items) }
    ensures refused { OnErr result (entries.new.items ≡ entries.old.items) }
{
    let paths = moved_paths(alloc, from, to, entries.as_slice())?;
    give_paths(paths, entries.as_mut_slice());
    Ok(())
}
