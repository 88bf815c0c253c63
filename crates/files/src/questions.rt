//! What is done to files if a question is answered by yes.

ghost use Rattle.std.specs.Prelude.{◌≡◌, IfOk};
ghost use Rattle.files.specs.Questions.{removal, change_in};

use crate::browser::{Browser, Mode};
use crate::list::Row;
use crate::texts::folder_typed;
use ratatui_files::{Command, Path};
use std::alloc::AllocError;

// The removal of what is at a path.
fn removal(row: &Row, path: Path) -> Command
    ensures { result ≡ removal row.now path }
{
    if row.is_leaf {
        Command::Remove(path)
    } else {
        Command::RemoveFolder(path)
    }
}

impl Browser {
    // The removal of the entry that is selected.
    fn removing(&self) -> Result<Option<Command>, AllocError>
        ensures { IfOk result (λ command. command ≡ change_in Mode.Removing self.now) }
    {
        let Some(row) = self.list.get(self.selected) else {
            return Ok(None);
        };
        match self.folder.entry(self.alloc, row.name.as_str())? {
            Some(path) => Ok(Some(removal(row, path))),
            None => Ok(None),
        }
    }

    // The renaming of the entry that is selected.
    fn renaming(&self) -> Result<Option<Command>, AllocError>
        ensures { IfOk result (λ command. command ≡ change_in Mode.Renaming self.now) }
    {
        let Some(from) = self.folder.entry(self.alloc, self.selected_text())? else {
            return Ok(None);
        };
        match self.folder.entry(self.alloc, self.typed.text())? {
            Some(to) => Ok(Some(Command::Rename(from, to))),
            None => Ok(None),
        }
    }

    // The making of a file, or of a folder if that is what the typed text names.
    fn making(&self) -> Result<Option<Command>, AllocError>
        ensures { IfOk result (λ command. command ≡ change_in Mode.Making self.now) }
    {
        let text = self.typed.text();
        if let Some(name) = folder_typed(text) {
            let path = self.folder.entry(self.alloc, name)?;
            return Ok(path.map(Command::MakeFolder));
        }
        let path = self.folder.entry(self.alloc, text)?;
        Ok(path.map(Command::MakeFile))
    }

    // The copying or moving of what was noted.
    fn pasting(&self) -> Result<Option<Command>, AllocError>
        ensures { IfOk result (λ command. command ≡ change_in Mode.Pasting self.now) }
    {
        let Some(noted) = &self.noted else {
            return Ok(None);
        };
        let Some(to) = self.folder.entry(self.alloc, self.typed.text())? else {
            return Ok(None);
        };
        let from = noted.path.copy(self.alloc)?;
        if noted.is_moved {
            Ok(Some(Command::Rename(from, to)))
        } else {
            Ok(Some(Command::Copy(from, to)))
        }
    }

    // The way back of what was renamed or moved last.
    fn undoing(&self) -> Result<Option<Command>, AllocError>
        ensures { IfOk result (λ command. command ≡ change_in Mode.Undoing self.now) }
    {
        match &self.last_move {
            Some(moved) => {
                let to = moved.from.copy(self.alloc)?;
                let from = moved.to.copy(self.alloc)?;
                Ok(Some(Command::Rename(from, to)))
            }
            None => Ok(None),
        }
    }

    /// Returns what the question is about: what is done to files if it is answered by yes. None if
    /// nothing is asked, or a name can't be one.
    ///
    /// # Errors
    ///
    /// `AllocError` if memory is refused.
    pub fn change(&self) -> Result<Option<Command>, AllocError>
        ensures { IfOk result (λ command. command ≡ change_in self.now.mode self.now) }
    {
        match self.mode {
            Mode::Removing => self.removing(),
            Mode::Renaming => self.renaming(),
            Mode::Making => self.making(),
            Mode::Pasting => self.pasting(),
            Mode::Undoing => self.undoing(),
            _ => Ok(None),
        }
    }
}
