//! What fails at some command.

ghost use Rattle.std.specs.Prelude.{◌≡◌, false};
ghost use Rattle.ratatui_files.specs.Failing.{FailsAtOne};

use crate::answer::{Answer, Failure};
use crate::command::Command;
use crate::performs::Performs;

/// What does all commands but one, at which it fails and changes nothing.
#[derive(Debug, Drop)]
pub struct Failing<P> {
    performs: P,
    before: u64,
    failure: Failure,
    has_failed: bool,
}

impl<P: Performs> Failing<P> {
    /// Makes what does so many commands, then fails at one, and does all that follow.
    pub fn new(performs: P, before: u64, failure: Failure) -> Failing<P>
        ensures { result ≡ record {
          performs = performs;
          before = before;
          failure = failure;
          has_failed = false;
        } }
    {
        Failing {
            performs,
            before,
            failure,
            has_failed: false,
        }
    }

    /// Lends what does the commands.
    pub fn performs(&self) -> &P
        ensures { result.now ≡ self.now.performs }
    {
        &self.performs
    }
}

impl<P: Performs> Performs for Failing<P> {
    ghost does = { FailsAtOne P.does };

    fn perform(&mut self, command: &Command) -> Answer {
        if self.has_failed {
            return self.performs.perform(command);
        }
        if self.before == 0 {
            self.has_failed = true;
            return Answer::Failed(self.failure);
        }
        self.before -= 1;
        self.performs.perform(command)
    }
}
