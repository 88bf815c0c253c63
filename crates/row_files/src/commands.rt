//! Commands as text.

use ratatui_files::{Bytes, Command, Path};
use std::alloc::{AllocError, Global};

// The path that a word is.
fn path_of(alloc: Global, word: &str) -> Result<Option<Path>, AllocError> {
    if word == "." {
        return Ok(Some(Path::root(alloc)));
    }
    Ok(Path::new(String::from_str(alloc, word)?))
}

// A command about one path.
fn command_at(
    alloc: Global,
    word: &str,
    path: Path,
    rest: &str,
) -> Result<Option<Command>, AllocError> {
    Ok(match word {
        "list" => Some(Command::List(path)),
        "read" => {
            let (start, most) = rest.split_once(' ').unwrap_or((rest, ""));
            match (start.parse::<u64>(), most.parse::<usize>()) {
                (Ok(start), Ok(most)) => Some(Command::Read(path, start, most)),
                _ => None,
            }
        }
        "write" => Some(Command::Write(path, Bytes::copy(alloc, rest.as_bytes())?)),
        "remove" => Some(Command::Remove(path)),
        "remove-folder" => Some(Command::RemoveFolder(path)),
        "folder" => Some(Command::MakeFolder(path)),
        "file" => Some(Command::MakeFile(path)),
        _ => None,
    })
}

// A command about two paths.
fn command_between(word: &str, from: Path, to: Path) -> Option<Command> {
    match word {
        "rename" => Some(Command::Rename(from, to)),
        "copy" => Some(Command::Copy(from, to)),
        _ => None,
    }
}

/// Returns the command that a text says, if it says one.
pub fn command_of(alloc: Global, text: &str) -> Result<Option<Command>, AllocError> {
    let (word, rest) = text.split_once(' ').unwrap_or((text, ""));
    let (first, more) = rest.split_once(' ').unwrap_or((rest, ""));
    let Some(path) = path_of(alloc, first)? else {
        return Ok(None);
    };
    if word != "rename" && word != "copy" {
        return command_at(alloc, word, path, more);
    }
    Ok(match path_of(alloc, more)? {
        Some(to) => command_between(word, path, to),
        None => None,
    })
}
