//! Answers to commands of files.

ghost use Rattle.std.specs.Prelude.{◌≡◌};
ghost use Rattle.ratatui_files.specs.Failures.{failure_of};

use crate::text::{Bytes, Text};
use std::io::ErrorKind;
use std::marker::Model;
use std::time::Duration;
use thiserror::Error;

/// What something is.
#[derive(Debug, Clone, Copy, PartialEq, Eq)]
pub enum Kind {
    /// A folder.
    Folder,
    /// A file.
    File,
    /// A symbolic link, whatever it leads to.
    Link,
    /// A device, a socket or a pipe, or something that can't be looked at.
    Other,
}

/// What is told of an entry of a folder.
#[derive(Debug, Drop)]
pub struct Info {
    /// Its name.
    pub name: Text,
    /// What it is.
    pub kind: Kind,
    /// How many bytes a file has.
    pub size: u64,
    /// When it was changed last, as the time since 1970, if that is known.
    pub modified: Option<Duration>,
    /// Who may read, write and run it, as the lowest nine bits, if that is known.
    pub mode: Option<u32>,
}

/// Entries of a folder, in any order.
#[derive(Debug, Drop)]
pub struct Entries {
    entries: Vec<Info>,
}

impl Model for Entries {
    ghost use Rattle.std.specs.Prelude.{List};
    ghost use Rattle.ratatui_files.specs.declared.answer.Info.{Info};

    ghost Value = { List Info };

    ghost view = { λ entries. entries.entries.items };
}

impl Entries {
    /// Takes these entries.
    pub fn new(entries: Vec<Info>) -> Entries
        ensures { result ≡ entries.items }
    {
        Entries { entries }
    }

    /// Lends them as a slice.
    pub fn as_slice(&self) -> &[Info]
        ensures { result.now ≡ self.now }
    {
        self.entries.as_slice()
    }

    /// Gives their `Vec` back.
    pub fn into_vec(self) -> Vec<Info>
        ensures { result.items ≡ self }
    {
        self.entries
    }
}

/// Why a command wasn't done.
#[derive(Debug, Clone, Copy, PartialEq, Eq, Error)]
pub enum Failure {
    /// There is nothing of that path.
    #[error("not found")]
    NotFound,
    /// It isn't allowed.
    #[error("not allowed")]
    NotAllowed,
    /// There is something of that path already.
    #[error("it exists already")]
    Exists,
    /// There is no room for it.
    #[error("no room is left")]
    Full,
    /// The folder isn't empty.
    #[error("the folder isn't empty")]
    NotEmpty,
    /// It isn't a folder.
    #[error("not a folder")]
    NotAFolder,
    /// It is a folder, where a file is wanted.
    #[error("a folder")]
    IsAFolder,
    /// It is neither a file nor a folder.
    #[error("not a file")]
    NotAFile,
    /// It would lie in itself.
    #[error("it would lie in itself")]
    IntoItself,
    /// It lies on another device, or would.
    #[error("on another device")]
    OtherDevice,
    /// A name is too long, or can't be one there.
    #[error("not a name")]
    BadName,
    /// Memory was refused.
    #[error("no memory")]
    Memory,
    /// It is none of these.
    #[error("the system refused")]
    Other,
}

impl Failure {
    /// Returns what a kind of error of the system is called here.
    pub fn of(kind: ErrorKind) -> Failure
        ensures { result ≡ failure_of kind }
    {
        match kind {
            ErrorKind::NotFound => Failure::NotFound,
            ErrorKind::PermissionDenied | ErrorKind::ReadOnlyFilesystem => Failure::NotAllowed,
            ErrorKind::AlreadyExists => Failure::Exists,
            ErrorKind::StorageFull | ErrorKind::QuotaExceeded => Failure::Full,
            ErrorKind::DirectoryNotEmpty => Failure::NotEmpty,
            ErrorKind::NotADirectory => Failure::NotAFolder,
            ErrorKind::IsADirectory => Failure::IsAFolder,
            ErrorKind::CrossesDevices => Failure::OtherDevice,
            ErrorKind::InvalidFilename => Failure::BadName,
            ErrorKind::OutOfMemory => Failure::Memory,
            _ => Failure::Other,
        }
    }
}

/// What a command is answered.
#[derive(Debug, Drop)]
pub enum Answer {
    /// What stands in a folder, and how many entries beside that have names that are no texts.
    Listed(Entries, u64),
    /// Some of the bytes of a file.
    Read(Bytes),
    /// It was done.
    Done,
    /// The time since 1970.
    Time(Duration),
    /// It wasn't done, and nothing has changed.
    Failed(Failure),
}
