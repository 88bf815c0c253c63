//! The file that is edited.

use editor::Editor;
use ratatui_files::{Answer, Bytes, Command, Failure, Path, Performs};
use std::alloc::{AllocError, Global};
use thiserror::Error;

// Why a file wasn't read or saved.
#[derive(Debug, Drop, Error)]
pub enum FileError {
    // A command wasn't done.
    #[error("{0}")]
    Failed(Failure),
    // What the file holds isn't UTF-8.
    #[error("it isn't UTF-8")]
    NotText,
}

impl From<AllocError> for FileError {
    fn from(_: AllocError) -> FileError {
        FileError::Failed(Failure::Memory)
    }
}

// The path of a file, and what it held when it was read or saved last: nothing if there was none.
#[derive(Drop)]
pub struct EditedFile<P> {
    alloc: Global,
    files: P,
    path: Path,
    text: Option<String>,
}

// Reads a file, if there is one of that path.
fn read<P: Performs>(
    alloc: Global,
    files: &mut P,
    path: &Path,
) -> Result<Option<String>, FileError> {
    match files.perform(&Command::Read(path.copy(alloc)?, 0, usize::MAX)) {
        Answer::Read(bytes) => match String::from_utf8(bytes.into_vec()) {
            Ok(text) => Ok(Some(text)),
            Err(_) => Err(FileError::NotText),
        },
        Answer::Failed(Failure::NotFound) => Ok(None),
        Answer::Failed(failure) => Err(FileError::Failed(failure)),
        _ => Err(FileError::Failed(Failure::Other)),
    }
}

impl<P: Performs + Drop> EditedFile<P> {
    // Reads a file, and answers its text: none if there is no file.
    pub fn read(
        alloc: Global,
        mut files: P,
        path: Path,
    ) -> Result<(EditedFile<P>, String), FileError> {
        let text = read(alloc, &mut files, &path)?;
        let copy = match &text {
            Some(text) => String::from_str(alloc, text.as_str())?,
            None => String::new(alloc),
        };
        let file = EditedFile {
            alloc,
            files,
            path,
            text,
        };
        Ok((file, copy))
    }

    // Whether the file holds what it held when it was read or saved last.
    pub fn is_same(&mut self) -> Result<bool, FileError> {
        let now = read(self.alloc, &mut self.files, &self.path)?;
        Ok(match (&now, &self.text) {
            (None, None) => true,
            (Some(now), Some(text)) => now.as_str() == text.as_str(),
            _ => false,
        })
    }

    // Saves the text of an editor, and keeps a copy of what the file holds from then on. If that fails
    // the file is as it was.
    pub fn save(&mut self, editor: &Editor) -> Result<(), FileError> {
        let text = editor.copied_text()?;
        let bytes = Bytes::copy(self.alloc, text.as_str().as_bytes())?;
        match self
            .files
            .perform(&Command::Write(self.path.copy(self.alloc)?, bytes))
        {
            Answer::Done => {
                self.text = Some(text);
                Ok(())
            }
            Answer::Failed(failure) => Err(FileError::Failed(failure)),
            _ => Err(FileError::Failed(Failure::Other)),
        }
    }
}
