//! What is outside: what gives reads, and what does what a state asks for.

ghost use Rattle.std.specs.Prelude.{◌≡◌, Option, Some, None, false, length, take, IfOk, OnErr};
ghost use Rattle.std.specs.Prelude.{List, ℕ};
ghost use Rattle.std.specs.Counts.{IsPrefixLen};
ghost use Rattle.std.specs.declared.time.Duration.{Duration as Time};
ghost use Rattle.ratatui_acts.specs.Hearing.{GivesUntimed, FailsToGive};

use crate::acts::Acts;
use crate::glass::Glass;
use ratatui_reads::Source;
use std::io;
use std::time::Duration;

/// What a read gave.
#[derive(Debug, Drop, Clone, Copy, PartialEq, Eq)]
pub struct Heard {
    /// How many bytes came. None is a tick.
    pub count: usize,
    /// How much time has gone since the last tick, or since the beginning; a tick tells it.
    pub passed: Duration,
}

/// What gives reads to a state. It may rely on this: where it is read, the glass shows the state
/// that came of all that it gave before, and this state asks for nothing.
pub trait Hears<A: Acts, G: Glass<A>> {
    // a read with room for so many bytes gave these, so much time had gone, and this is left
    ghost gives: { Self → ℕ → List ℕ → Time → Self → Type 0 };

    // a read failed
    ghost fails: { Self → Self → Type 0 };

    /// Reads once into a buffer, and answers how many bytes came, and after how much time.
    ///
    /// # Errors
    ///
    /// The source failed. It gave nothing then.
    fn hear(&mut self, glass: &G, state: &A, buf: &mut [u8]) -> io::Result<Heard>
        requires shown { G.shows glass.now state.now }
        requires free { A.asked state.now ≡ None }
        requires goes_on { A.is_over state.now ≡ false }
        ensures fits { IfOk result (λ heard. IsPrefixLen heard.count buf.new) }
        ensures gives { IfOk result (λ heard.
            gives self.old (length buf.new) (take heard.count buf.new) heard.passed self.new) }
        ensures fails { OnErr result (fails self.old self.new) };
}

impl<A: Acts, G: Glass<A>, S: Source> Hears<A, G> for S {
    ghost gives = { GivesUntimed S.coming };

    ghost fails = { FailsToGive S.coming };

    fn hear(&mut self, _glass: &G, _state: &A, buf: &mut [u8]) -> io::Result<Heard> {
        match self.read_once(buf) {
            Ok(count) => Ok(Heard {
                count,
                passed: Duration::ZERO,
            }),
            Err(error) => Err(error),
        }
    }
}

/// What does what a state asks for. It may rely on this: what it does is what the state asks for
/// that the glass shows.
pub trait Outside<A: Acts, G: Glass<A>> {
    // a command was done with this answer, and this is left
    ghost answers: { Self → A.Command → A.Answer → Self → Type 0 };

    /// Does what the state asks for.
    ///
    /// # Errors
    ///
    /// What is outside is lost. That something couldn't be done is an answer, and no error.
    fn perform(&mut self, glass: &G, state: &A, command: &A::Command) -> io::Result<A::Answer>
        requires shown { G.shows glass.now state.now }
        requires asked { A.asked state.now ≡ Some command.now }
        requires goes_on { A.is_over state.now ≡ false }
        ensures answers { IfOk result (λ answer. answers self.old command.now answer self.new) };
}
