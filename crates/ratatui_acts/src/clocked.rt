//! A source and a clock.

ghost use Rattle.std.specs.Prelude.{◌≡◌, ◌+◌, ℕ, IfOk};
ghost use Rattle.std.specs.Duration.{as_nanos};
ghost use Rattle.std.specs.Time.{instant_nanos};
ghost use Rattle.ratatui_acts.specs.Hearing.{GivesTimed, FailsToGive};

use crate::acts::Acts;
use crate::glass::Glass;
use crate::outside::{Heard, Hears};
use ratatui_reads::Source;
use std::io;
use std::rt::Clock;
use std::time::{Duration, Instant};

/// A source of reads, and the clock by which its ticks are told.
#[derive(Drop)]
pub struct Clocked<'a, S, C> {
    source: S,
    clock: &'a C,
    last: Instant,
}

impl<'a, S: Source + Drop, C: Clock> Clocked<'a, S, C> {
    /// Makes a source whose time begins now.
    ///
    /// # Errors
    ///
    /// The clock can't be read.
    pub fn new(source: S, clock: &'a C) -> io::Result<Clocked<'a, S, C>>
        ensures { IfOk result (λ clocked. clocked.source ≡ source) }
    {
        let last = Instant::now(clock)?;
        Ok(Clocked {
            source,
            clock,
            last,
        })
    }

    // How much time has gone since the last tick. A clock that can't be read, or that went back,
    // stands still.
    fn tick(&mut self) -> Duration
        ensures source { self.new.source ≡ self.old.source }
        ensures time { instant_nanos self.new.last
            ≡ instant_nanos self.old.last + as_nanos result }
    {
        let Ok(now) = Instant::now(self.clock) else {
            return Duration::ZERO;
        };
        match now.checked_duration_since(self.last) {
            Some(passed) => {
                self.last = now;
                passed
            }
            None => Duration::ZERO,
        }
    }
}

impl<'a, A: Acts, G: Glass<A>, S: Source + Drop, C: Clock> Hears<A, G> for Clocked<'a, S, C> {
    ghost gives = { GivesTimed (λ c. S.coming c.source) (λ c. instant_nanos c.last) };

    ghost fails = { FailsToGive (λ c. S.coming c.source) };

    fn hear(&mut self, _glass: &G, _state: &A, buf: &mut [u8]) -> io::Result<Heard> {
        match self.source.read_once(buf) {
            Ok(count) => Ok(Heard {
                count,
                passed: if count == 0 {
                    self.tick()
                } else {
                    Duration::ZERO
                },
            }),
            Err(error) => Err(error),
        }
    }
}
