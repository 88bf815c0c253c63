//! Commands of files.

use crate::path::Path;
use crate::text::Bytes;

/// What is to be done to files. Each has its answer, or a failure, and then nothing has changed.
#[derive(Debug, Drop)]
pub enum Command {
    /// Tell what stands in a folder.
    List(Path),
    /// Read a file from a byte on, at most so many bytes.
    Read(Path, u64, usize),
    /// Give a file these bytes, in place of what it held; without a file there, make one. What
    /// stood there stays until the new file is whole.
    Write(Path, Bytes),
    /// Give what is at the first path the second one, at which nothing stands.
    Rename(Path, Path),
    /// Make a file at the second path, at which nothing stands, that holds what the first one
    /// holds.
    Copy(Path, Path),
    /// Remove a file or a link.
    Remove(Path),
    /// Remove an empty folder.
    RemoveFolder(Path),
    /// Make a folder where nothing stands.
    MakeFolder(Path),
    /// Make an empty file where nothing stands.
    MakeFile(Path),
    /// Tell the time.
    Now,
}
