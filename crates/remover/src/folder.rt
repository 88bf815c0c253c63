//! A folder whose answers are known.

ghost use Rattle.std.specs.Prelude.{◌≡◌, ◌∷◌, IfOk};
ghost use Rattle.ratatui_app.specs.Glass.{StandsOnGlass, no_cursor};
ghost use Rattle.ratatui_app.specs.Lines.{PaintsFirstLine};
ghost use Rattle.remover.specs.Removing.{question};

use crate::name::Name;
use crate::remover::Remover;
use ratatui_acts::Outside;
use ratatui_app::OnGlass;
use std::io::{self, ErrorKind, Write};

/// A folder of which it is known which files can be removed, one after the other; after that it is
/// lost.
#[derive(Debug, Drop, Clone, Copy)]
pub struct Folder<'a> {
    answers: &'a [bool],
}

impl<'a> Folder<'a> {
    /// Makes a folder that answers so.
    pub fn new(answers: &'a [bool]) -> Folder<'a>
        ensures { result.answers.now ≡ answers.now }
    {
        Folder { answers }
    }

    // Removes a file of this name. Nobody can ask for that but where each terminal that has read
    // what was sent shows the question that names the file.
    fn remove<W: Write + Drop>(&mut self, _glass: &OnGlass<W>, _name: &Name) -> io::Result<bool>
        requires on_glass { StandsOnGlass (PaintsFirstLine (question _name.now)) no_cursor _glass.now.terminal }
        ensures { IfOk result (λ is_removed.
            self.old.answers.now ≡ is_removed ∷ self.new.answers.now) }
    {
        let answers = self.answers;
        let Some(first) = answers.first() else {
            return Err(ErrorKind::NotFound.into());
        };
        self.answers = &answers[1..];
        Ok(*first)
    }
}

impl<'a, W: Write + Drop> Outside<Remover, OnGlass<W>> for Folder<'a> {
    ghost use Rattle.std.specs.Prelude.{◌≡◌, ◌∷◌};

    ghost answers = { λ folder _ is_removed left.
        folder.answers.now ≡ is_removed ∷ left.answers.now };

    fn perform(
        &mut self,
        glass: &OnGlass<W>,
        _state: &Remover,
        command: &Name,
    ) -> io::Result<bool> {
        self.remove(glass, command)
    }
}
