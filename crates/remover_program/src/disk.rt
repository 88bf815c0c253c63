//! A folder of files.

ghost use Rattle.ratatui_app.specs.Glass.{StandsOnGlass, no_cursor};
ghost use Rattle.ratatui_app.specs.Lines.{PaintsFirstLine};
ghost use Rattle.remover.specs.Removing.{question};

use ratatui_acts::Outside;
use ratatui_app::OnGlass;
use ratatui_files::{Answer, Command, Path, Performs};
use remover::{Name, Remover};
use std::alloc::Global;
use std::io::{self, Write};

/// A folder of files, of which some are removed.
#[derive(Drop)]
pub struct Disk<P> {
    alloc: Global,
    files: P,
}

impl<P: Performs + Drop> Disk<P> {
    /// Takes the folder in which this does commands.
    pub fn new(alloc: Global, files: P) -> Disk<P> {
        Disk { alloc, files }
    }

    // Removes a file of this name. Nobody can ask for that but where each terminal that has read
    // what was sent shows the question that names the file. Answers whether it is gone.
    fn remove<W: Write + Drop>(&mut self, _glass: &OnGlass<W>, name: &Name) -> io::Result<bool>
        requires { StandsOnGlass (PaintsFirstLine (question name.now)) no_cursor _glass.now.terminal }
    {
        let Some(path) = Path::root(self.alloc).entry(self.alloc, name.as_str())? else {
            return Ok(false);
        };
        Ok(matches!(self.files.perform(&Command::Remove(path)), Answer::Done))
    }
}

impl<P: Performs + Drop, W: Write + Drop> Outside<Remover, OnGlass<W>> for Disk<P> {
    // what is known of a removal is what the files' outside says
    ghost answers = { λ _ _ _ _. Unit {0} };

    fn perform(
        &mut self,
        glass: &OnGlass<W>,
        _state: &Remover,
        command: &Name,
    ) -> io::Result<bool> {
        self.remove(glass, command)
    }
}
