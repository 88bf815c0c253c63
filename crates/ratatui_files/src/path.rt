//! Paths in a tree of files.

ghost use Rattle.std.specs.Prelude.{◌≡◌, [], false, IsTrue, MatchOption, IfOk, is_some};
ghost use Rattle.std.specs.Prelude.{if◌then◌else◌};
ghost use Rattle.std.specs.Prelude.{string_bytes, Some, None};
ghost use Rattle.std.specs.Str.{bytes_eq};
ghost use Rattle.std.specs.List.{list_any};
ghost use Rattle.std.specs.Option.{option_copied};
ghost use Rattle.ratatui_files.specs.Paths.{is_slash, is_unnamed, is_name, is_path, path_from};
ghost use Rattle.ratatui_files.specs.Paths.{is_inside};
ghost use Rattle.ratatui_files.specs.Paths.{name_in, only_name, after_start, moved_path, path_in};

use crate::text::Text;
use std::alloc::{AllocError, Global};
use std::marker::Model;

/// Where something stands in a tree of files: names with `/` between them, as `notes/today.txt`.
/// The empty path is the folder that all is in. No name is empty, `.` or `..`, and none has a NUL,
/// so a path leads out of no tree.
#[derive(Debug, Drop)]
pub struct Path {
    text: String,
}

impl Model for Path {
    ghost use Rattle.std.specs.Prelude.{ℕ, List, string_bytes, IsTrue};
    ghost use Rattle.ratatui_files.specs.Paths.{is_path};

    ghost Value = { List ℕ };

    ghost view = { λ path. string_bytes path.text };

    ghost invariant = { λ path. IsTrue (is_path (string_bytes path.text)) };
}

impl Path {
    /// Makes the path that a text is, if it is one.
    pub fn new(text: String) -> Option<Path>
        ensures { MatchOption result (is_path (string_bytes text) ≡ false)
            (λ path. path ≡ string_bytes text) }
    {
        if is_path(text.as_bytes()) {
            Some(Path { text })
        } else {
            None
        }
    }

    /// Returns the folder that all is in.
    pub fn root(alloc: Global) -> Path
        ensures { result ≡ [] }
    {
        Path {
            text: String::new(alloc),
        }
    }

    /// Copies it.
    ///
    /// # Errors
    ///
    /// `AllocError` if memory is refused.
    pub fn copy(&self, alloc: Global) -> Result<Path, AllocError>
        ensures { IfOk result (λ copy. copy ≡ self.now) }
    {
        Ok(Path {
            text: String::from_str(alloc, self.text.as_str())?,
        })
    }

    /// Lends it as a `str`.
    pub fn as_str(&self) -> &str
        ensures value { result.now ≡ self.now }
        ensures is { IsTrue (is_path self.now) }
    {
        self.text.as_str()
    }

    /// Returns whether it lies in this folder, or in a folder of it.
    pub fn is_inside(&self, folder: &Path) -> bool
        ensures { result ≡ is_inside folder.now self.now }
    {
        is_inside(folder.as_str(), self.as_str())
    }

    /// Returns the path of a name in this folder, or none if that can't be a name.
    ///
    /// # Errors
    ///
    /// `AllocError` if memory is refused.
    pub fn entry(&self, alloc: Global, name: &str) -> Result<Option<Path>, AllocError>
        ensures { IfOk result (λ path.
            path ≡ (if is_name name.now then Some (path_in self.now name.now) else None)) }
    {
        if !is_name(name.as_bytes()) {
            return Ok(None);
        }
        let text = path_in(alloc, self.text.as_str(), name)?;
        Ok(Some(Path { text }))
    }
}

// Whether there is a NUL or a slash in a text.
fn has_unnamed(text: &[u8]) -> bool
    ensures { result ≡ list_any is_unnamed text.now }
{
    text.iter().any(|b| *b == 0 || *b == b'/')
}

// Whether there is a slash in a text.
fn has_slash(text: &[u8]) -> bool
    ensures { result ≡ list_any is_slash text.now }
{
    text.iter().any(|b| *b == b'/')
}

/// Returns whether a text can be a name in a folder.
pub fn is_name(name: &[u8]) -> bool
    ensures { result ≡ is_name name.now }
{
    name != b"".as_slice()
        && name != b".".as_slice()
        && name != b"..".as_slice()
        && !has_unnamed(name)
}

/// Returns whether a text is a path.
pub fn is_path(text: &[u8]) -> bool
    ensures { result ≡ is_path text.now }
{
    text.is_empty() || text.split(|b| *b == b'/').all(is_name)
}

// The path of a name in a folder.
fn path_in(alloc: Global, folder: &str, name: &str) -> Result<String, AllocError>
    ensures { IfOk result (λ text. string_bytes text ≡ path_in folder.now name.now) }
{
    if folder.is_empty() {
        return String::from_str(alloc, name);
    }
    let mut text = String::from_str(alloc, folder)?;
    text.push_str("/")?;
    text.push_str(name)?;
    Ok(text)
}

// What follows a beginning of a text.
fn after_start<'a>(start: &str, text: &'a str) -> Option<&'a str>
    ensures { option_copied result ≡ after_start start.now text.now }
{
    match text.strip_prefix(start) {
        Some(rest) => Some(rest),
        None => None,
    }
}

// The path of a thing from a folder that it is in, or in a folder of which.
fn path_from<'a>(folder: &str, path: &'a str) -> Option<&'a str>
    ensures { option_copied result ≡ path_from folder.now path.now }
{
    if !folder.is_empty() {
        return after_start("/", after_start(folder, path)?);
    }
    if path.is_empty() { None } else { Some(path) }
}

// Whether something is in a folder, or in a folder of it.
pub(crate) fn is_inside(folder: &str, path: &str) -> bool
    ensures { result ≡ is_inside folder.now path.now }
{
    path_from(folder, path).is_some()
}

// The name of a thing in the folder that it is in.
pub(crate) fn name_in<'a>(folder: &str, path: &'a str) -> Option<&'a str>
    ensures { option_copied result ≡ name_in folder.now path.now }
{
    let name = path_from(folder, path)?;
    if has_slash(name.as_bytes()) {
        None
    } else {
        Some(name)
    }
}

// Whether a thing is in a folder, and not only in a folder of it.
pub(crate) fn is_named_in(folder: &str, path: &str) -> bool
    ensures { result ≡ is_some (name_in folder.now path.now) }
{
    name_in(folder, path).is_some()
}

// Where a thing is once another one, or a folder that it is in, is moved_path.
pub(crate) fn moved_path(
    alloc: Global,
    from: &str,
    to: &str,
    path: &str,
) -> Result<Text, AllocError>
    ensures { IfOk result (λ text. text ≡ moved_path from.now to.now path.now) }
{
    if path == from {
        return Text::copy(alloc, to);
    }
    let Some(rest) = path_from(from, path) else {
        return Text::copy(alloc, path);
    };
    let mut text = String::from_str(alloc, to)?;
    text.push_str("/")?;
    text.push_str(rest)?;
    Ok(Text::new(text))
}
