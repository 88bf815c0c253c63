//! What does commands of files.

use crate::answer::Answer;
use crate::command::Command;

/// What does commands of files, and answers them.
pub trait Performs {
    ghost use Rattle.ratatui_files.specs.declared.command.Command.{Command};
    ghost use Rattle.ratatui_files.specs.declared.answer.Answer.{Answer};

    // a command was done with this answer, and this is left
    ghost does: { Self → Command → Answer → Self → Type 0 };

    /// Does a command, and answers it.
    fn perform(&mut self, command: &Command) -> Answer
        ensures { does self.old command.now result self.new };
}
