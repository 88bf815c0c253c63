//! Files as what is outside of an application that acts.

ghost use Rattle.std.specs.Prelude.{◌≡◌};

use crate::answer::Answer;
use crate::command::Command;
use crate::performs::Performs;
use ratatui_acts::{Acts, Glass, Outside};
use std::io;

/// What is a command of files, or holds one.
pub trait HoldsCommand {
    ghost use Rattle.std.specs.Prelude.{◌≡◌};
    ghost use Rattle.ratatui_files.specs.declared.command.Command.{Command};

    // the command
    ghost held: { Self → Command };

    /// Lends the command.
    fn command(&self) -> &Command
        ensures { result.now ≡ held self.now };
}

impl HoldsCommand for Command {
    ghost held = { λ command. command };

    fn command(&self) -> &Command {
        self
    }
}

/// What is outside of an application whose commands are commands of files, or hold them.
#[derive(Debug, Drop)]
pub struct Files<P> {
    performs: P,
}

impl<P: Performs> Files<P> {
    /// Makes the outside that does commands by this.
    pub fn new(performs: P) -> Files<P>
        ensures { result.performs ≡ performs }
    {
        Files { performs }
    }

    /// Lends what does the commands.
    pub fn performs(&self) -> &P
        ensures { result.now ≡ self.now.performs }
    {
        &self.performs
    }
}

impl<C: HoldsCommand, A: Acts<Command = C, Answer = Answer>, G: Glass<A>, P: Performs> Outside<A, G>
    for Files<P> {
    ghost answers = { λ before c a after. P.does before.performs (C.held c) a after.performs };

    fn perform(&mut self, _glass: &G, _state: &A, command: &C) -> io::Result<Answer> {
        Ok(self.performs.perform(command.command()))
    }
}
