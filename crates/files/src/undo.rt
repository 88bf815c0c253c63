//! What was renamed or moved last, and how it gets its old place back.

ghost use Rattle.std.specs.Prelude.{◌≡◌, IfOk};
ghost use Rattle.std.specs.Option.{option_or};
ghost use Rattle.files.specs.Moves.{move_made, asking_to_undo, undo_note};

use crate::browser::{Browser, Mode, Note};
use ratatui_files::{Command, Path};
use std::alloc::AllocError;

/// Something that was renamed or moved.
#[derive(Drop)]
pub struct Moved {
    /// Where it was.
    pub from: Path,
    /// Where it is.
    pub to: Path,
}

impl Browser {
    /// Returns what is renamed or moved by the change that is asked about.
    pub(crate) fn move_made(&self) -> Result<Option<Moved>, AllocError>
        ensures { IfOk result (λ moved. moved ≡ move_made self.now) }
    {
        match self.change()? {
            Some(Command::Rename(from, to)) => Ok(Some(Moved { from, to })),
            _ => Ok(None),
        }
    }

    /// Takes note of what was renamed or moved, if something was.
    pub(crate) fn note_move(&mut self, moved: Option<Moved>)
        ensures { self.new
            ≡ record self.old { last_move = option_or moved self.old.last_move } }
    {
        match moved {
            Some(moved) => self.last_move = Some(moved),
            None => {}
        }
    }

    /// Asks whether what was renamed or moved last is to get its old place back, and answers what is
    /// told.
    pub(crate) fn ask_to_undo(&mut self) -> Note
        ensures mode { self.new ≡ asking_to_undo self.old }
        ensures note { result ≡ undo_note self.old.last_move }
    {
        match &self.last_move {
            Some(_) => {}
            None => return Note::NothingMoved,
        }
        self.mode = Mode::Undoing;
        Note::Place
    }
}
