//! What stands at which path of a tree, and why a command is refused.

ghost use Rattle.std.specs.Prelude.{◌≡◌, option_map, find, None};
ghost use Rattle.std.specs.Option.{option_copied};
ghost use Rattle.ratatui_files.specs.Paths.{is_inside, name_in};
ghost use Rattle.ratatui_files.specs.Trees.{stands_at, node_at, bytes_at, has_folder, is_in_file};
ghost use Rattle.ratatui_files.specs.Trees.{is_bare, is_file, bytes_of};
ghost use Rattle.ratatui_files.specs.Changes.{lack, lacks_folder, refuses_any, refuses_file};
ghost use Rattle.ratatui_files.specs.Changes.{refuses_folder, refuses_new, refuses_write};
ghost use Rattle.ratatui_files.specs.Changes.{refuses_rename, refuses_remove_folder, refusal};
ghost use Rattle.ratatui_files.specs.Changes.{or_else};
ghost use Rattle.ratatui_files.specs.Inner.{found_node};

use crate::answer::Failure;
use crate::command::Command;
use crate::node::{Entry, Node};
use crate::path::{is_inside, is_named_in};

// Whether this is a file.
fn is_file(node: &Node) -> bool
    ensures { result ≡ is_file node.now }
{
    match node {
        Node::Folder => false,
        Node::File(_) => true,
    }
}

// What this holds, if it is a file.
pub(crate) fn bytes_of(node: &Node) -> &[u8]
    ensures { result.now ≡ bytes_of node.now }
{
    match node {
        Node::Folder => &[],
        Node::File(bytes) => bytes.as_slice(),
    }
}

// Whether this stands at a path.
pub(crate) fn is_at(path: &str, entry: &Entry) -> bool
    ensures { result ≡ stands_at path.now entry.now }
{
    entry.path.as_str() == path
}

// What is found at a path other than that of the folder that all is in.
fn entry_at<'a>(path: &str, entries: &'a [Entry]) -> Option<&'a Entry>
    ensures { option_copied result ≡ find (stands_at path.now) entries.now }
{
    entries.iter().find(|entry| is_at(path, entry))
}

// What stands at a path.
#[derive(Clone, Copy)]
pub(crate) enum Found<'a> {
    Nothing,
    Folder,
    File(&'a [u8]),
}

// What stands at a path.
fn found_at<'a>(path: &str, entries: &'a [Entry]) -> Found<'a>
    ensures { found_node result ≡ node_at path.now entries.now }
{
    if path.is_empty() {
        return Found::Folder;
    }
    match entry_at(path, entries) {
        None => Found::Nothing,
        Some(entry) => match &entry.node {
            Node::Folder => Found::Folder,
            Node::File(bytes) => Found::File(bytes.as_slice()),
        },
    }
}

// What the file at a path holds.
pub(crate) fn bytes_at<'a>(path: &str, entries: &'a [Entry]) -> &'a [u8]
    ensures { result.now ≡ bytes_at path.now entries.now }
{
    match found_at(path, entries) {
        Found::Nothing | Found::Folder => &[],
        Found::File(bytes) => bytes,
    }
}

// Whether there is a folder for a thing of that path.
fn has_folder(path: &str, entries: &[Entry]) -> bool
    ensures { result ≡ has_folder path.now entries.now }
{
    is_named_in("", path)
        || entries.iter().any(|entry| !is_file(&entry.node)
            && is_named_in(entry.path.as_str(), path))
}

// Whether a file stands where a folder would have to, for a thing to be at this path.
fn is_in_file(path: &str, entries: &[Entry]) -> bool
    ensures { result ≡ is_in_file path.now entries.now }
{
    entries.iter().any(|entry| is_file(&entry.node) && is_inside(entry.path.as_str(), path))
}

// Whether nothing stands in a folder.
fn is_bare(folder: &str, entries: &[Entry]) -> bool
    ensures { result ≡ is_bare folder.now entries.now }
{
    !entries
        .iter()
        .any(|entry| is_named_in(folder, entry.path.as_str()))
}

// Why nothing is at a path.
fn lack(path: &str, entries: &[Entry]) -> Failure
    ensures { result ≡ lack path.now entries.now }
{
    if is_in_file(path, entries) {
        Failure::NotAFolder
    } else {
        Failure::NotFound
    }
}

// Why nothing can be made at a path, though nothing is there.
fn lacks_folder(path: &str, entries: &[Entry]) -> Option<Failure>
    ensures { result ≡ lacks_folder path.now entries.now }
{
    if has_folder(path, entries) {
        None
    } else {
        Some(lack(path, entries))
    }
}

fn refuses_any(path: &str, entries: &[Entry]) -> Option<Failure>
    ensures { result ≡ refuses_any path.now entries.now }
{
    match found_at(path, entries) {
        Found::Nothing => Some(lack(path, entries)),
        Found::Folder | Found::File(_) => None,
    }
}

fn refuses_file(path: &str, entries: &[Entry]) -> Option<Failure>
    ensures { result ≡ refuses_file path.now entries.now }
{
    match found_at(path, entries) {
        Found::Nothing => Some(lack(path, entries)),
        Found::Folder => Some(Failure::IsAFolder),
        Found::File(_) => None,
    }
}

fn refuses_folder(path: &str, entries: &[Entry]) -> Option<Failure>
    ensures { result ≡ refuses_folder path.now entries.now }
{
    match found_at(path, entries) {
        Found::Nothing => Some(lack(path, entries)),
        Found::Folder => None,
        Found::File(_) => Some(Failure::NotAFolder),
    }
}

fn refuses_new(path: &str, entries: &[Entry]) -> Option<Failure>
    ensures { result ≡ refuses_new path.now entries.now }
{
    match found_at(path, entries) {
        Found::Nothing => lacks_folder(path, entries),
        Found::Folder | Found::File(_) => Some(Failure::Exists),
    }
}

fn refuses_write(path: &str, entries: &[Entry]) -> Option<Failure>
    ensures { result ≡ refuses_write path.now entries.now }
{
    match found_at(path, entries) {
        Found::Nothing => lacks_folder(path, entries),
        Found::Folder => Some(Failure::IsAFolder),
        Found::File(_) => None,
    }
}

fn refuses_rename(from: &str, to: &str, entries: &[Entry]) -> Option<Failure>
    ensures { result ≡ refuses_rename from.now to.now entries.now }
{
    if let Some(failure) = refuses_any(from, entries) {
        return Some(failure);
    }
    if is_inside(from, to) {
        Some(Failure::IntoItself)
    } else {
        refuses_new(to, entries)
    }
}

fn refuses_copy(from: &str, to: &str, entries: &[Entry]) -> Option<Failure>
    ensures { result
        ≡ or_else (refuses_file from.now entries.now) (refuses_new to.now entries.now) }
{
    match refuses_file(from, entries) {
        Some(failure) => Some(failure),
        None => refuses_new(to, entries),
    }
}

fn refuses_remove_folder(path: &str, entries: &[Entry]) -> Option<Failure>
    ensures { result ≡ refuses_remove_folder path.now entries.now }
{
    if path.is_empty() {
        return Some(Failure::NotAllowed);
    }
    if let Some(failure) = refuses_folder(path, entries) {
        return Some(failure);
    }
    if is_bare(path, entries) {
        None
    } else {
        Some(Failure::NotEmpty)
    }
}

// Why a command is refused, if it is.
pub(crate) fn refusal(command: &Command, entries: &[Entry]) -> Option<Failure>
    ensures { result ≡ refusal command.now entries.now }
{
    match command {
        Command::List(folder) => refuses_folder(folder.as_str(), entries),
        Command::Read(path, _, _) | Command::Remove(path) => refuses_file(path.as_str(), entries),
        Command::Write(path, _) => refuses_write(path.as_str(), entries),
        Command::Rename(from, to) => refuses_rename(from.as_str(), to.as_str(), entries),
        Command::Copy(from, to) => refuses_copy(from.as_str(), to.as_str(), entries),
        Command::RemoveFolder(path) => refuses_remove_folder(path.as_str(), entries),
        Command::MakeFolder(path) | Command::MakeFile(path) => refuses_new(path.as_str(), entries),
        Command::Now => None,
    }
}
