//! Where a backend's bytes go, and the calls that failed to send them.

ghost use Rattle.std.specs.Prelude.{◌≡◌, ◌+◌, ◌-◌, ◌^◌, min, [], ◌++◌, true, false, IfOk, IfErr, OnOk, OnErr};
ghost use Rattle.std.specs.Io.KnownBytes.{Appends};
ghost use Rattle.ratatui_ansi.specs.Backend.{IsTied};
ghost use Rattle.ratatui_ansi.specs.Inner.Sender.{WritesWhole, BreaksAt};
ghost use Rattle.ratatui_ansi.specs.declared.error.AnsiError.TheVariants.{Broken};

use crate::error::AnsiError;
use crate::sent::Sent;
use ansi_model::update_end;
use std::io::{self, Write};

/// A writer, what it was sent, and what of it was sent since the last flush: only clauses see these
/// two. A call counts as failed from its beginning until it has sent all.
#[derive(Drop)]
pub(crate) struct Sender<W: Write> {
    pub(crate) writer: W,
    pub(crate) sent: Sent,
    pub(crate) held: Sent,
    /// How many calls failed, as far as the count goes.
    pub(crate) failures: u64,
    /// Whether a write failed: nothing is known of the terminal since.
    pub(crate) is_broken: bool,
}

impl<W: Write> Sender<W> {
    /// Takes a writer to which nothing was sent.
    pub(crate) fn new(writer: W) -> Sender<W>
        ensures writer { result.writer ≡ writer }
        ensures before { result.sent.before ≡ W.contents writer }
        ensures sent { result.sent.bytes ≡ [] }
        ensures tied { Appends result.sent.before (W.contents result.writer) result.sent.bytes }
        ensures failures { result.failures ≡ 0 }
        ensures works { result.is_broken ≡ false }
    {
        let sent = Sent::new(&writer);
        let held = Sent::new(&writer);
        Sender {
            writer,
            sent,
            held,
            failures: 0,
            is_broken: false,
        }
    }

    /// Counts a call as failed until it has sent all; answers how many had failed before it.
    pub(crate) fn count(&mut self) -> u64
        ensures before { result ≡ self.old.failures }
        ensures rest { self.new
            ≡ record self.old { failures = min (self.old.failures + 1) (2 ^ 64 - 1) } }
    {
        let failures = self.failures;
        self.failures = failures.saturating_add(1);
        failures
    }

    /// Refuses a call after a failed write, and counts it then.
    pub(crate) fn check(&mut self) -> Result<(), AnsiError>
        ensures works { OnOk result (self.old.is_broken ≡ false) }
        ensures stays { OnOk result (self.new ≡ self.old) }
        ensures refused { IfErr result (λ error. error ≡ Broken) }
        ensures broken { OnErr result (self.old.is_broken ≡ true) }
        ensures counted { OnErr result (self.new
            ≡ record self.old { failures = min (self.old.failures + 1) (2 ^ 64 - 1) }) }
    {
        if self.is_broken {
            let _before = self.count();
            return Err(AnsiError::Broken);
        }
        Ok(())
    }

    /// Begins a call that sends: counts it, and refuses it after a failed write. Answers how many
    /// had failed before it.
    pub(crate) fn begin(&mut self) -> Result<u64, AnsiError>
        ensures before { IfOk result (λ failures. failures ≡ self.old.failures) }
        ensures works { OnOk result (self.old.is_broken ≡ false) }
        ensures refused { IfErr result (λ error. error ≡ Broken) }
        ensures broken { OnErr result (self.old.is_broken ≡ true) }
        ensures rest { self.new
            ≡ record self.old { failures = min (self.old.failures + 1) (2 ^ 64 - 1) } }
    {
        self.check()?;
        Ok(self.count())
    }

    /// Writes a text whole; then as many calls failed as had before this one. After an Err it isn't
    /// known what of it was written.
    pub(crate) fn send(&mut self, text: &str, failures: u64) -> io::Result<()>
        ensures all { OnOk result (WritesWhole W.contents text.now failures self.old self.new) }
        ensures before { self.new.sent.before ≡ self.old.sent.before }
        ensures fails { OnErr result (BreaksAt self.old self.new) }
    {
        self.is_broken = true;
        self.writer.write_all(text.as_bytes())?;
        self.sent.note(text.as_bytes());
        self.held.note(text.as_bytes());
        self.finish(failures);
        Ok(())
    }

    /// Writes a text that doesn't count as sent, and then another one whole. After an Err it isn't
    /// known what of them was written.
    pub(crate) fn send_first(&mut self, first: &str, text: &str) -> io::Result<()>
        ensures before { OnOk result
            (Appends (W.contents self.old.writer) self.new.sent.before first.now) }
        ensures sent { OnOk result (self.new.sent.bytes ≡ text.now) }
        ensures tied { OnOk result (IsTied W.contents self.new.sent.before
            self.new.writer self.new.sent.bytes) }
        ensures works { OnOk result (self.new.is_broken ≡ false) }
        ensures finished { OnOk result (self.new.failures ≡ 0) }
    {
        self.send(first, 0)?;
        self.renew();
        self.send(text, 0)
    }

    // Ends a synchronized update after a failed write, as far as the writer takes that.
    fn end_update(&mut self)
        ensures { self.new ≡ record self.old { writer = self.new.writer } }
    {
        let _ended = self.writer.write_all(update_end().as_bytes());
    }

    /// Ends a synchronized update, if a write failed before, as far as the writer takes that.
    pub(crate) fn mend(&mut self)
        ensures writer { self.new ≡ record self.old { writer = self.new.writer } }
        ensures works { self.old.is_broken ≡ false → self.new ≡ self.old }
    {
        if self.is_broken {
            self.end_update();
        }
    }

    /// Writes a last text and has it sent on, as far as the writer takes that.
    pub(crate) fn give_back(&mut self, text: &str) {
        self.mend();
        let _written = self.writer.write_all(text.as_bytes());
        let _flushed = self.writer.flush();
    }

    /// Writes the text of a draw whole, as `send` does; after an Err no synchronized update goes
    /// on, as far as the writer takes its end.
    pub(crate) fn send_draw(
        &mut self,
        text: &str,
        failures: u64,
        is_synchronized: bool,
    ) -> io::Result<()>
        ensures all { OnOk result (WritesWhole W.contents text.now failures self.old self.new) }
        ensures before { self.new.sent.before ≡ self.old.sent.before }
        ensures fails { OnErr result (BreaksAt self.old self.new) }
    {
        match self.send(text, failures) {
            Ok(()) => Ok(()),
            Err(error) => {
                if is_synchronized {
                    self.end_update();
                }
                Err(error)
            }
        }
    }

    /// Has the writer send on what it kept back; then as many calls failed as had before this one.
    pub(crate) fn flush(&mut self, failures: u64) -> io::Result<()>
        ensures sent { self.new.sent ≡ self.old.sent }
        ensures held { OnOk result (self.new.held.bytes ≡ []) }
        ensures tied { IsTied W.contents self.old.sent.before self.old.writer self.old.sent.bytes
            → IsTied W.contents self.new.sent.before self.new.writer self.new.sent.bytes }
        ensures works { OnOk result (self.new.is_broken ≡ false) }
        ensures finished { OnOk result (self.new.failures ≡ failures) }
        ensures broken { OnErr result (self.new.is_broken ≡ true) }
        ensures failed { OnErr result (self.new.failures ≡ self.old.failures) }
    {
        self.is_broken = true;
        self.writer.flush()?;
        self.held = Sent::new(&self.writer);
        self.finish(failures);
        Ok(())
    }

    /// Takes it from now on that nothing is known of the terminal, as after a failed write.
    pub(crate) fn leave_off(&mut self)
        ensures { self.new ≡ record self.old {
          failures = min (self.old.failures + 1) (2 ^ 64 - 1);
          is_broken = true;
        } }
    {
        let _before = self.count();
        self.is_broken = true;
    }

    // Ends a call that sent all.
    fn finish(&mut self, failures: u64)
        ensures { self.new ≡ record self.old { failures = failures; is_broken = false } }
    {
        self.failures = failures;
        self.is_broken = false;
    }

    /// Takes it from now on that nothing was sent to the writer.
    pub(crate) fn renew(&mut self)
        ensures writer { self.new.writer ≡ self.old.writer }
        ensures before { self.new.sent.before ≡ W.contents self.old.writer }
        ensures sent { self.new.sent.bytes ≡ [] }
        ensures held { self.new.held ≡ self.old.held }
        ensures tied { IsTied W.contents self.new.sent.before
            self.new.writer self.new.sent.bytes }
        ensures failures { self.new.failures ≡ self.old.failures }
        ensures works { self.new.is_broken ≡ self.old.is_broken }
    {
        self.sent = Sent::new(&self.writer);
    }
}
