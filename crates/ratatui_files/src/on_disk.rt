//! The system's files.

ghost use Rattle.std.specs.Prelude.{◌≡◌, ◌≤◌, IfOk, length};
ghost use Rattle.std.specs.IoError.{error_kind};
ghost use Rattle.ratatui_files.specs.Failures.{failure_of};
ghost use Rattle.ratatui_files.specs.Performing.{IsAnswerTo};
ghost use Rattle.ratatui_files.specs.declared.answer.Failure.TheVariants.{Memory};

use crate::answer::{Answer, Entries, Failure, Info, Kind};
use crate::command::Command;
use crate::path::Path;
use crate::performs::Performs;
use crate::text::{Bytes, Text};
use std::alloc::{AllocError, Global};
use std::fs::{self, DirEntry, FileType, Metadata, OpenFile, OpenOptions, Permissions};
use std::io::{self, ErrorKind, Read, Seek, SeekFrom, Write};
use std::os::unix::fs::PermissionsExt;
use std::rt::{Clock, Files};
use std::time::{Duration, SystemTime, UNIX_EPOCH};

impl From<io::Error> for Failure {
    ghost from_gives = { λ error failure. failure ≡ failure_of (error_kind error) };

    fn from(error: io::Error) -> Failure {
        Failure::of(error.kind())
    }
}

impl From<AllocError> for Failure {
    ghost from_gives = { λ _ failure. failure ≡ Memory };

    fn from(_: AllocError) -> Failure {
        Failure::Memory
    }
}

// What something is.
fn kind_of(file_type: FileType) -> Kind {
    if file_type.is_dir() {
        Kind::Folder
    } else if file_type.is_file() {
        Kind::File
    } else if file_type.is_symlink() {
        Kind::Link
    } else {
        Kind::Other
    }
}

// When something was changed last, if that is known.
fn modified(metadata: &Metadata) -> Option<Duration> {
    let Ok(time) = metadata.modified() else {
        return None;
    };
    match time.duration_since(UNIX_EPOCH) {
        Ok(time) => Some(time),
        Err(_) => None,
    }
}

// What is told of an entry of a folder. What can't be looked at has its name.
fn info<R: Files>(alloc: Global, entry: &DirEntry<R, Global>) -> Result<Info, AllocError> {
    let name = Text::copy(alloc, entry.file_name())?;
    match entry.metadata() {
        Ok(metadata) => Ok(Info {
            name,
            kind: kind_of(metadata.file_type()),
            size: metadata.len(),
            modified: modified(&metadata),
            mode: Some(metadata.permissions().mode() & 0o7777),
        }),
        Err(_) => Ok(Info {
            name,
            kind: Kind::Other,
            size: 0,
            modified: None,
            mode: None,
        }),
    }
}

// The folder in which something stands, of which a place is told.
fn folder_of(place: &str) -> &str {
    match place.rsplit_once('/') {
        Some((folder, _)) => folder,
        None => ".",
    }
}

/// The system's files in a folder. What is done to a link is done to what it leads to, but a link
/// that is removed or renamed is so itself.
///
/// A file is written, and copied, beside its place, and put there when it is whole. Whether anything
/// stands where nothing is to stand is looked at first: what another program makes there meanwhile
/// is replaced. But an empty file or a folder that is made never replaces anything.
#[derive(Drop)]
pub struct OnDisk<'a, R> {
    rt: &'a R,
    folder: &'a str,
}

impl<'a, R: Files + Alloc<A = Global> + Clock + Clone + Drop> OnDisk<'a, R> {
    /// Takes the files in the folder at this path of the system's.
    pub fn new(rt: &'a R, folder: &'a str) -> OnDisk<'a, R>
        ensures { result.folder.now ≡ folder.now }
    {
        OnDisk { rt, folder }
    }

    // Where something stands, as the system has it.
    fn place(&self, path: &Path) -> Result<String, AllocError> {
        let folder = if self.folder.is_empty() {
            "."
        } else {
            self.folder
        };
        let mut place = String::from_str(self.rt.alloc(), folder)?;
        if !path.as_str().is_empty() {
            if !folder.ends_with('/') {
                place.push('/')?;
            }
            place.push_str(path.as_str())?;
        }
        Ok(place)
    }

    // Fails if something stands there.
    fn want_nothing(&self, place: &str) -> Result<(), Failure> {
        match fs::symlink_metadata(self.rt, place) {
            Ok(_) => Err(Failure::Exists),
            Err(error) => match Failure::from(error) {
                Failure::NotFound => Ok(()),
                failure => Err(failure),
            },
        }
    }

    // What is known of the file there; fails if it is none.
    fn want_file(&self, place: &str) -> Result<Metadata, Failure> {
        let metadata = fs::metadata(self.rt, place)?;
        if metadata.is_dir() {
            Err(Failure::IsAFolder)
        } else if metadata.is_file() {
            Ok(metadata)
        } else {
            Err(Failure::NotAFile)
        }
    }

    // What stands in a folder, and how many names are no texts.
    fn list(&self, folder: &Path) -> Result<(Entries, u64), Failure> {
        let place = self.place(folder)?;
        let mut entries = Vec::new(self.rt.alloc());
        let mut unnamed: u64 = 0;
        for entry in fs::read_dir(self.rt, place.as_str())? {
            match entry {
                Ok(entry) => {
                    let info = info(self.rt.alloc(), &entry)?;
                    entries.push(info).map_err(AllocError::from)?;
                }
                Err(error) => {
                    if error.kind() != ErrorKind::InvalidFilename {
                        return Err(Failure::from(error));
                    }
                    unnamed = unnamed.saturating_add(1);
                }
            }
        }
        Ok((Entries::new(entries), unnamed))
    }

    // Some bytes of a file, from one on.
    fn read(&self, path: &Path, start: u64, most: usize) -> Result<Bytes, Failure>
        ensures { IfOk result (λ bytes. length bytes ≤ most) }
    {
        let place = self.place(path)?;
        self.want_file(place.as_str())?;
        let mut bytes = Vec::new(self.rt.alloc());
        if i64::try_from(start).is_ok() {
            let mut file = fs::open(self.rt, place.as_str())?;
            file.seek(SeekFrom::Start(start))?;
            file.take(most as u64).read_to_end(&mut bytes)?;
        }
        bytes.truncate(most);
        Ok(Bytes::new(bytes))
    }

    // Makes an empty file, and opens it. Fails if something stands there.
    fn create_new(&self, place: &str) -> io::Result<R::File> {
        OpenOptions::new()
            .write(true)
            .create_new(true)
            .open(self.rt, place)
    }

    // Makes an empty file beside a place, and tells where.
    fn make_beside(&self, place: &str) -> Result<(String, R::File), Failure> {
        let folder = folder_of(place);
        for number in 0..u8::MAX {
            let beside = format!(in self.rt.alloc(); "{folder}/.new~{number}")?;
            match self.create_new(beside.as_str()) {
                Ok(file) => return Ok((beside, file)),
                Err(error) => match Failure::from(error) {
                    Failure::Exists => {}
                    failure => return Err(failure),
                },
            }
        }
        Err(Failure::Exists)
    }

    // Puts what was made beside a place there, if it was made. Else it is removed.
    fn put(&self, made: Result<(), Failure>, beside: &str, place: &str) -> Result<(), Failure> {
        let put = match made {
            Ok(()) => fs::rename(self.rt, beside, place).map_err(Failure::from),
            Err(failure) => Err(failure),
        };
        if put.is_err() {
            let _ = fs::remove_file(self.rt, beside);
        }
        put
    }

    // Writes bytes into a new file, which is to be used as the one before it was.
    fn fill(
        &self,
        mut file: R::File,
        beside: &str,
        permissions: Option<Permissions>,
        bytes: &[u8],
    ) -> Result<(), Failure> {
        if let Some(permissions) = permissions {
            fs::set_permissions(self.rt, beside, permissions)?;
        }
        file.write_all(bytes)?;
        file.sync_all()?;
        Ok(())
    }

    // Gives a file these bytes.
    fn write(&self, path: &Path, bytes: &[u8]) -> Result<(), Failure> {
        let place = self.place(path)?;
        let place = match fs::canonicalize(self.rt, place.as_str()) {
            Ok(path) => String::from_str(self.rt.alloc(), path.as_path().as_str())?,
            Err(_) => place,
        };
        let permissions = match self.want_file(place.as_str()) {
            Ok(metadata) => Some(metadata.permissions()),
            Err(Failure::NotFound) => None,
            Err(failure) => return Err(failure),
        };
        let (beside, file) = self.make_beside(place.as_str())?;
        let made = self.fill(file, beside.as_str(), permissions, bytes);
        self.put(made, beside.as_str(), place.as_str())
    }

    fn rename(&self, from: &Path, to: &Path) -> Result<(), Failure> {
        let from_place = self.place(from)?;
        fs::symlink_metadata(self.rt, from_place.as_str())?;
        if to.is_inside(from) {
            return Err(Failure::IntoItself);
        }
        let to_place = self.place(to)?;
        self.want_nothing(to_place.as_str())?;
        fs::rename(self.rt, from_place.as_str(), to_place.as_str())?;
        Ok(())
    }

    fn copy(&self, from: &Path, to: &Path) -> Result<(), Failure> {
        let from = self.place(from)?;
        let to = self.place(to)?;
        self.want_file(from.as_str())?;
        self.want_nothing(to.as_str())?;
        let (beside, _file) = self.make_beside(to.as_str())?;
        let made = match fs::copy(self.rt, from.as_str(), beside.as_str()) {
            Ok(_) => Ok(()),
            Err(error) => Err(Failure::from(error)),
        };
        self.put(made, beside.as_str(), to.as_str())
    }

    fn remove(&self, path: &Path) -> Result<(), Failure> {
        let place = self.place(path)?;
        fs::remove_file(self.rt, place.as_str())?;
        Ok(())
    }

    fn remove_folder(&self, path: &Path) -> Result<(), Failure> {
        if path.as_str().is_empty() {
            return Err(Failure::NotAllowed);
        }
        let place = self.place(path)?;
        fs::remove_dir(self.rt, place.as_str())?;
        Ok(())
    }

    fn make_folder(&self, path: &Path) -> Result<(), Failure> {
        let place = self.place(path)?;
        fs::create_dir(self.rt, place.as_str())?;
        Ok(())
    }

    fn make_file(&self, path: &Path) -> Result<(), Failure> {
        if path.as_str().is_empty() {
            return Err(Failure::Exists);
        }
        let place = self.place(path)?;
        self.create_new(place.as_str())?;
        Ok(())
    }

    fn answer(&self, command: &Command) -> Result<Answer, Failure>
        ensures { IfOk result (λ answer. IsAnswerTo command.now answer) }
    {
        match command {
            Command::List(folder) => {
                let (entries, unnamed) = self.list(folder)?;
                return Ok(Answer::Listed(entries, unnamed));
            }
            Command::Read(path, start, most) => {
                return Ok(Answer::Read(self.read(path, *start, *most)?));
            }
            Command::Now => return Ok(Answer::Time(self.rt.since_1970()?)),
            Command::Write(path, bytes) => self.write(path, bytes.as_slice())?,
            Command::Rename(from, to) => self.rename(from, to)?,
            Command::Copy(from, to) => self.copy(from, to)?,
            Command::Remove(path) => self.remove(path)?,
            Command::RemoveFolder(path) => self.remove_folder(path)?,
            Command::MakeFolder(path) => self.make_folder(path)?,
            Command::MakeFile(path) => self.make_file(path)?,
        }
        Ok(Answer::Done)
    }
}

impl<'a, R: Files + Alloc<A = Global> + Clock + Clone + Drop> Performs for OnDisk<'a, R> {
    // nothing is known of what a file system answers, but that it is an answer to this command
    ghost does = { λ _ command answer _. IsAnswerTo command answer };

    fn perform(&mut self, command: &Command) -> Answer {
        match self.answer(command) {
            Ok(answer) => answer,
            Err(failure) => Answer::Failed(failure),
        }
    }
}
