//! Where a typed path leads.

ghost use Rattle.std.specs.Prelude.{◌≡◌, OnOk, IfOk, option_map, string_bytes};
ghost use Rattle.std.specs.List.{slice_split};
ghost use Rattle.std.specs.Str.{byte};
ghost use Rattle.std.specs.Path.{rsplit_once};
ghost use Rattle.std.specs.Option.{option_copied};
ghost use Rattle.ratatui_files.specs.Paths.{is_slash, path_in};
ghost use Rattle.files.specs.Ways.{after_tilde, path_meant, cut_path, after_part, after_parts, way_of};

use crate::browser::Browser;
use crate::texts::after_start;
use ratatui_files::Path;
use std::alloc::{AllocError, Global};

// What follows a tilde that is the first name of a typed path.
fn after_tilde(text: &str) -> Option<&str>
    ensures { option_copied result ≡ after_tilde text.now }
{
    match after_start("~", text) {
        Some(rest) if rest.is_empty() || rest.starts_with('/') => Some(rest),
        _ => None,
    }
}

/// Returns what stands before the last slash of a path and what stands after it, if it has one.
pub(crate) fn cut_at_slash(path: &str) -> Option<(&str, &str)>
    ensures { option_map (λ parts. (parts.0.now, parts.1.now)) result
        ≡ rsplit_once (byte "/") path.now }
{
    match path.rsplit_once('/') {
        Some((front, back)) => Some((front, back)),
        None => None,
    }
}

// The path above a path, if that isn't empty.
fn cut_path(path: &str) -> &str
    ensures { result.now ≡ cut_path path.now }
{
    match cut_at_slash(path) {
        Some((above, _)) => above,
        None => "",
    }
}

// Appends a name to a path, or a path to a folder's.
fn push_part(path: &mut String, part: &str) -> Result<(), AllocError>
    ensures { OnOk result (string_bytes path.new ≡ path_in (string_bytes path.old) part.now) }
{
    if !path.is_empty() {
        path.push_str("/")?;
    }
    path.push_str(part)
}

// Where a part of a typed path leads.
fn after_part(alloc: Global, path: String, part: &str) -> Result<Option<String>, AllocError>
    ensures { IfOk result (λ next.
        option_map string_bytes next ≡ after_part (string_bytes path) part.now) }
{
    match part {
        "" | "." => Ok(Some(path)),
        ".." if path.is_empty() => Ok(None),
        ".." => Ok(Some(String::from_str(alloc, cut_path(path.as_str()))?)),
        name => {
            let mut path = path;
            push_part(&mut path, name)?;
            Ok(Some(path))
        }
    }
}

// Where the parts of a typed path lead, one after the other.
fn after_parts(alloc: Global, text: &str) -> Result<Option<String>, AllocError>
    ensures { IfOk result (λ path.
        option_map string_bytes path ≡ after_parts (slice_split is_slash text.now)) }
{
    let mut at = Some(String::new(alloc));
    for part in text.split('/') {
        at = match at {
            Some(path) => after_part(alloc, path, part)?,
            None => None,
        };
    }
    Ok(at)
}

impl Browser {
    // A typed path, from the folder on above which nothing is reached.
    fn path_meant(&self, text: &str) -> Result<String, AllocError>
        ensures { IfOk result (λ path. string_bytes path ≡ path_meant self.now text.now) }
    {
        if let Some(rest) = after_tilde(text) {
            return String::from_str(self.alloc, rest);
        }
        if text.starts_with('/') {
            return String::from_str(self.alloc, text);
        }
        let mut path = String::from_str(self.alloc, self.inner_text())?;
        path.push_str("/")?;
        path.push_str(text)?;
        Ok(path)
    }

    /// Returns where a typed path leads, if that isn't above the folder above which nothing is
    /// reached.
    pub(crate) fn way_of(&self, text: &str) -> Result<Option<Path>, AllocError>
        ensures { IfOk result (λ path. path ≡ way_of self.now text.now) }
    {
        let meant = self.path_meant(text)?;
        let Some(inner) = after_parts(self.alloc, meant.as_str())? else {
            return Ok(None);
        };
        let mut path = String::from_str(self.alloc, self.base.as_str())?;
        if !inner.is_empty() {
            push_part(&mut path, inner.as_str())?;
        }
        Ok(Path::new(path))
    }
}
