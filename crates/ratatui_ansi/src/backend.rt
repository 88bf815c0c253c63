//! A backend for terminals that read escape sequences.

ghost use Rattle.std.specs.Prelude.{◌≡◌, ℕ, ◌<◌, List, [], ◌++◌, true, false, IsSome, IsOk, IfOk, IfErr, OnOk};
ghost use Rattle.std.specs.Io.KnownBytes.{Appends as AppendsKnown};
ghost use Rattle.std.specs.Borrow.{sem, Lends};
ghost use Rattle.ratatui_core.specs.Backend.{Counts, IsBlankScreen, cursor_of};
ghost use Rattle.ansi_model.specs.Beginnings.{MakesBlank, SavesScreen, SavesHigher, OpensAlternate};
ghost use Rattle.ansi_model.specs.Endings.{ClosesAlternate, left_below};
ghost use Rattle.ansi_model.specs.Sends.{Performs};
ghost use Rattle.ratatui_ansi.specs.Backend.{BackendState, shown_by, with_writer, IsAlwaysKnown, BeginsBy, HasSize};
ghost use Rattle.ratatui_ansi.specs.Backend.{LeavesTerminal, BringsBack};
ghost use Rattle.ratatui_ansi.specs.contracts.backend.AnsiBackend.{the_row};
ghost use Rattle.ratatui_ansi.specs.Headline.{IsReadByAll};
ghost use Rattle.ratatui_ansi.specs.Inner.Tracker.{BeginsBlank, CallDoes, IsCommanded};
ghost use Rattle.ratatui_ansi.specs.Settings.{UndoesFirst, no_settings};
ghost use Rattle.ratatui_ansi.specs.Refusals.{Answers, RefusesToBegin, FailsToRestart, FailsToResize};
ghost use Rattle.ratatui_ansi.specs.Refusals.{IsOfLeaving};
ghost use Rattle.ratatui_ansi.specs.Inner.Tracker.{IsOfCall};

use crate::error::AnsiError;
use crate::sender::Sender;
use crate::settings::{Farewell, Settings};
use crate::tracker::{Call, Tracker};
use ansi_model::{closing_alternate, leaving, opening_alternate, save_screen};
use ratatui_core::layout::Size;
use std::alloc::Global;
use std::io::Write;
use std::marker::Model;

/// A backend that writes escape sequences to a writer. It begins with those that make any terminal
/// of its size blank, and its screen is what such a terminal shows that has read what the writer
/// was sent. Each call writes once, or nothing if it is refused or the terminal is so already, and
/// counts as failed until it has succeeded; after a failed write every call is refused until
/// `restart`. It keeps no byte of what it wrote.
///
/// A drop gives the terminal back, as `leave` does, as far as the writer takes that: it can't tell
/// that the writer failed. So does a beginning that fails to write.
pub struct AnsiBackend<W: Write> {
    pub(crate) sender: Sender<W>,
    pub(crate) tracker: Tracker,
    is_on_alternate: bool,
    pub(crate) settings: Settings,
    alloc: Global,
}

impl<W: Write> Model for AnsiBackend<W> {
    ghost use Rattle.std.specs.Prelude.{◌≡◌, false};
    ghost use Rattle.ratatui_ansi.specs.Backend.{BackendState, IsInOrder, IsTied};

    ghost Value = { BackendState W };

    ghost view = { λ b. record {
      writer = b.sender.writer;
      before = b.sender.sent.before;
      sent = b.sender.sent.bytes;
      held = b.sender.held.bytes;
      size = b.tracker.size;
      has_underline_colors = b.tracker.has_underline_colors;
      ambiguous_is_wide = b.tracker.ambiguous_is_wide;
      is_synchronized = b.tracker.is_synchronized;
      is_on_alternate = b.is_on_alternate;
      settings = b.settings;
      written = b.tracker.written;
      failures = b.sender.failures;
      is_broken = b.sender.is_broken;
    } };

    ghost invariant = { λ b. IsInOrder b.tracker.size b.tracker.cursor b.tracker.continuations.items
        b.tracker.draft.items b.tracker.is_visible b.sender.is_broken b.sender.failures
        b.sender.sent.bytes
        × (b.sender.is_broken ≡ false
        → IsTied W.contents b.sender.sent.before b.sender.writer b.sender.sent.bytes) };
}

impl<W: Write + Drop> Drop for AnsiBackend<W> {
    fn drop(self) {
        let AnsiBackend {
            mut sender,
            tracker,
            is_on_alternate,
            settings,
            alloc: _alloc,
        } = self;
        sender.give_back(farewell(settings, is_on_alternate, tracker.size.height).as_str());
    }
}

// What gives a terminal back, after all that was set is taken back: from its alternate screen, or
// from its main one, of which a program had this many rows.
fn farewell(settings: Settings, is_on_alternate: bool, height: u16) -> Farewell
    ensures undoes { (old : List ℕ) → UndoesFirst settings old (old ++ result.bytes) }
    ensures left { is_on_alternate ≡ false
        → (old : List ℕ) → Performs old (old ++ result.bytes) (left_below height) }
    ensures back { is_on_alternate ≡ true
        → (old : List ℕ) → ClosesAlternate old (old ++ result.bytes) }
{
    let mut text = settings.undo();
    if is_on_alternate {
        text.push_str(closing_alternate());
    } else {
        text.push_str(leaving(height).as_str());
    }
    text
}

impl<W: Write + Drop> AnsiBackend<W> {
    // A backend of a screen of this size, whose beginning is tracked: the writer is sent a text
    // first, which doesn't count as sent, and then what was collected.
    fn begin(
        alloc: Global,
        writer: W,
        size: Size,
        tracker: Tracker,
        first: &str,
        is_on_alternate: bool,
    ) -> Result<AnsiBackend<W>, AnsiError>
        requires blank { BeginsBlank size tracker }
        requires colors { tracker.has_underline_colors ≡ false }
        requires ambiguous { tracker.ambiguous_is_wide ≡ false }
        requires synchronized { tracker.is_synchronized ≡ false }
        ensures blank { IfOk result (λ b. IsBlankScreen size.width size.height (shown_by b)) }
        ensures before { IfOk result
            (λ b. AppendsKnown (W.contents writer) b.before first.now) }
        ensures sent { IfOk result (λ b. MakesBlank size.width size.height [] b.sent) }
        ensures is_size { IfOk result (λ b. b.size ≡ size) }
        ensures colors { IfOk result (λ b. b.has_underline_colors ≡ false) }
        ensures ambiguous { IfOk result (λ b. b.ambiguous_is_wide ≡ false) }
        ensures synchronized { IfOk result (λ b. b.is_synchronized ≡ false) }
        ensures alternate { IfOk result (λ b. b.is_on_alternate ≡ is_on_alternate) }
        ensures settings { IfOk result (λ b. b.settings ≡ no_settings) }
        ensures failures { IfOk result (λ b. b.failures ≡ 0) }
        ensures works { IfOk result (λ b. b.is_broken ≡ false) }
        ensures refused { IfErr result IsOfLeaving }
    {
        let mut sender = Sender::new(writer);
        match sender.send_first(first, tracker.out.as_str()) {
            Ok(()) => Ok(AnsiBackend {
                sender,
                tracker,
                is_on_alternate,
                settings: Settings::none(),
                alloc,
            }),
            Err(error) => {
                let last = farewell(Settings::none(), is_on_alternate, size.height);
                sender.give_back(last.as_str());
                Err(AnsiError::Write(error))
            }
        }
    }

    /// Makes a backend of a screen of this size in columns and rows, over a terminal that is made
    /// blank: what stood on it is scrolled into its history, with an empty row after it, and then
    /// what makes it blank is written. On a terminal that is higher these are its first rows; the
    /// row after them is scrolled off, too, and what stands below it stays.
    ///
    /// ```
    /// let writer = BufWriter::new(alloc, rt.stdout())?;
    /// let backend = AnsiBackend::new(alloc, writer, Size { width: 80, height: 24 })?;
    /// let mut terminal = Terminal::new(alloc, backend)?;
    /// ```
    ///
    /// # Errors
    ///
    /// - `Size`: the screen has no columns or no rows. Nothing was written.
    /// - `Memory`: memory was refused. Nothing was written.
    /// - `Write`: the writer failed.
    ///
    /// The writer is dropped then.
    pub fn new(alloc: Global, writer: W, size: Size) -> Result<AnsiBackend<W>, AnsiError>
        ensures blank { IfOk result (λ b. IsBlankScreen size.width size.height (shown_by b)) }
        ensures before { IfOk result (λ b. BeginsBy (SavesScreen size.width size.height)
            (W.contents writer) b.before) }
        ensures higher { IfOk result (λ b. BeginsBy (SavesHigher size.width size.height)
            (W.contents writer) b.before) }
        ensures sent { IfOk result (λ b. MakesBlank size.width size.height [] b.sent) }
        ensures is_size { IfOk result (λ b. b.size ≡ size) }
        ensures colors { IfOk result (λ b. b.has_underline_colors ≡ false) }
        ensures ambiguous { IfOk result (λ b. b.ambiguous_is_wide ≡ false) }
        ensures synchronized { IfOk result (λ b. b.is_synchronized ≡ false) }
        ensures alternate { IfOk result (λ b. b.is_on_alternate ≡ false) }
        ensures settings { IfOk result (λ b. b.settings ≡ no_settings) }
        ensures failures { IfOk result (λ b. b.failures ≡ 0) }
        ensures works { IfOk result (λ b. b.is_broken ≡ false) }
        ensures size { OnOk result ((0 < size.width) × (0 < size.height)) }
        ensures refused { IfErr result (RefusesToBegin size.width size.height) }
    {
        let tracker = Tracker::new(alloc, size)?;
        let mut first = String::new(alloc);
        save_screen(&mut first, size.height)?;
        AnsiBackend::begin(alloc, writer, size, tracker, first.as_str(), false)
    }

    /// Makes the same on the terminal's alternate screen: its main screen is put aside as it is,
    /// and `leave` brings it back. Rows that scroll off an alternate screen can't be scrolled back
    /// to.
    ///
    /// # Errors
    ///
    /// As of `new`.
    pub fn new_on_alternate_screen(
        alloc: Global,
        writer: W,
        size: Size,
    ) -> Result<AnsiBackend<W>, AnsiError>
        ensures blank { IfOk result (λ b. IsBlankScreen size.width size.height (shown_by b)) }
        ensures before { IfOk result (λ b. BeginsBy (OpensAlternate size.width size.height)
            (W.contents writer) b.before) }
        ensures sent { IfOk result (λ b. MakesBlank size.width size.height [] b.sent) }
        ensures is_size { IfOk result (λ b. b.size ≡ size) }
        ensures colors { IfOk result (λ b. b.has_underline_colors ≡ false) }
        ensures ambiguous { IfOk result (λ b. b.ambiguous_is_wide ≡ false) }
        ensures synchronized { IfOk result (λ b. b.is_synchronized ≡ false) }
        ensures alternate { IfOk result (λ b. b.is_on_alternate ≡ true) }
        ensures settings { IfOk result (λ b. b.settings ≡ no_settings) }
        ensures failures { IfOk result (λ b. b.failures ≡ 0) }
        ensures works { IfOk result (λ b. b.is_broken ≡ false) }
        ensures size { OnOk result ((0 < size.width) × (0 < size.height)) }
        ensures refused { IfErr result (RefusesToBegin size.width size.height) }
    {
        let tracker = Tracker::new(alloc, size)?;
        AnsiBackend::begin(alloc, writer, size, tracker, opening_alternate(), true)
    }

    /// Returns the writer. If its bytes are known, and no write failed since the backend began or
    /// began again, it holds what it held then, and after that what was sent since: each terminal
    /// of this size that reads this shows the backend's screen, however it was left before, and the
    /// model is sure of it. If no call failed, no write did. The bytes are known of each writer of
    /// a kind of which they always are.
    pub fn writer(&self) -> &W
        ensures writer { result.now ≡ self.now.writer }
        ensures tied { self.now.is_broken ≡ false
            → AppendsKnown self.now.before (W.contents self.now.writer) self.now.sent }
        ensures known { self.now.is_broken ≡ false
            → IsAlwaysKnown W.contents → IsSome self.now.before }
        ensures unfailed { self.now.failures ≡ 0 → self.now.is_broken ≡ false }
        ensures read { self.now.is_broken ≡ false → IsReadByAll self.now }
    {
        &self.sender.writer
    }

    /// Returns the writer, to be written by hand between two calls. What its terminal shows isn't
    /// known from then on: so this counts as a failed call, and each call is refused until
    /// `restart` or `resize` begins again after what was written.
    pub fn writer_mut(&mut self) -> &mut W
        ensures* writes_back { let row = the_row W.row W.Write in
            sem 𝓛 (Lends row W.row self.entry result (with_writer self.entry.now)) }
        ensures value { result.now ≡ self.old.writer }
    {
        self.sender.leave_off();
        &mut self.sender.writer
    }

    /// Returns the writer, as `writer` lends it.
    pub fn into_writer(self) -> W
        ensures writer { result ≡ self.writer }
        ensures tied { self.is_broken ≡ false
            → AppendsKnown self.before (W.contents result) self.sent }
        ensures known { self.is_broken ≡ false → IsAlwaysKnown W.contents → IsSome self.before }
        ensures unfailed { self.failures ≡ 0 → self.is_broken ≡ false }
        ensures read { self.is_broken ≡ false → IsReadByAll self }
    {
        let AnsiBackend {
            sender,
            tracker: _tracker,
            is_on_alternate: _,
            settings: _,
            alloc: _alloc,
        } = self;
        sender.writer
    }

    /// Gives the terminal back, also after a failed write, and answers the writer, which has sent
    /// all on. What the backend's calls set is taken back first: that the mouse, pastes, the focus
    /// and sizes are told, keyboard flags, the cursor's shape, and the window's title on terminals
    /// that keep titles. Then the terminal is in its own colours and without margins, and its cursor is shown. On
    /// its main screen that stands at the beginning of the row after the backend's last one: where
    /// there is none, the screen scrolls by one row; a higher terminal doesn't scroll. From its
    /// alternate screen the main one comes back as it was put aside, with its cursor. This takes no
    /// memory. Unless a write failed since the backend began or began again, each terminal of its size
    /// shows its screen before.
    ///
    /// # Errors
    ///
    /// `Write`: the writer failed. It is dropped then.
    pub fn leave(self) -> Result<W, AnsiError>
        ensures known { self.is_broken ≡ false → IsAlwaysKnown W.contents → IsSome self.before }
        ensures unfailed { self.failures ≡ 0 → self.is_broken ≡ false }
        ensures read { OnOk result (self.is_broken ≡ false → IsReadByAll self) }
        ensures left { IfOk result (λ writer. self.is_broken ≡ false
            → self.is_on_alternate ≡ false → LeavesTerminal self (W.contents writer)) }
        ensures back { IfOk result (λ writer. self.is_broken ≡ false
            → self.is_on_alternate ≡ true → BringsBack self (W.contents writer)) }
        ensures why { IfErr result IsOfLeaving }
    {
        let AnsiBackend {
            mut sender,
            tracker,
            is_on_alternate,
            settings,
            alloc: _alloc,
        } = self;
        let last = farewell(settings, is_on_alternate, tracker.size.height);
        let count = sender.failures;
        sender.mend();
        sender.send(last.as_str(), count)?;
        sender.flush(count)?;
        Ok(sender.writer)
    }

    /// Sets whether from now on the backend sends colours of the underline, or refuses them, as it
    /// does at first: some terminals misread them.
    pub fn set_underline_colors(&mut self, has_underline_colors: bool)
        ensures { self.new ≡ record self.old { has_underline_colors = has_underline_colors } }
    {
        self.tracker.has_underline_colors = has_underline_colors;
    }

    /// Sets whether from now on a draw sends a move between each symbol but ASCII and the next one,
    /// or none, as at first: some terminals are set to take ambiguous characters, such as lines and
    /// letters with accents, as wide, and would shift what comes after them.
    pub fn set_ambiguous_is_wide(&mut self, ambiguous_is_wide: bool)
        ensures { self.new ≡ record self.old { ambiguous_is_wide = ambiguous_is_wide } }
    {
        self.tracker.ambiguous_is_wide = ambiguous_is_wide;
    }

    /// Sets whether from now on each draw is sent within a synchronized update, which the terminal
    /// shows at once, or none is, as at first. After a failed write the update's end is sent, as
    /// far as the writer takes it.
    pub fn set_synchronized(&mut self, is_synchronized: bool)
        ensures { self.new ≡ record self.old { is_synchronized = is_synchronized } }
    {
        self.tracker.is_synchronized = is_synchronized;
    }

    /// Begins again, also after a failed write, on a terminal that is made blank: what makes it
    /// blank is written, and is all that counts as sent. What was set on it stays set.
    ///
    /// # Errors
    ///
    /// - `Memory`: memory was refused. Only the count of failures has changed then.
    /// - `Write`: the writer failed. Every call is refused until the next `restart` or `resize`.
    pub fn restart(&mut self) -> Result<(), AnsiError>
        ensures blank { OnOk result (IsBlankScreen self.old.size.width self.old.size.height
            (shown_by self.new)) }
        ensures before { OnOk result (self.new.before ≡ W.contents self.old.writer) }
        ensures sent { OnOk result
            (MakesBlank self.old.size.width self.old.size.height [] self.new.sent) }
        ensures works { OnOk result (self.new.is_broken ≡ false) }
        ensures refused { IfErr result (FailsToRestart self.old self.new) }
        ensures size { self.new.size ≡ self.old.size }
        ensures colors { self.new.has_underline_colors ≡ self.old.has_underline_colors }
        ensures ambiguous { self.new.ambiguous_is_wide ≡ self.old.ambiguous_is_wide }
        ensures synchronized { self.new.is_synchronized ≡ self.old.is_synchronized }
        ensures alternate { self.new.is_on_alternate ≡ self.old.is_on_alternate }
        ensures settings { self.new.settings ≡ self.old.settings }
        ensures counts { Counts result self.old.failures self.new.failures }
    {
        let size = self.tracker.size;
        self.begin_again(size)
    }

    // Begins again on a terminal of this size.
    fn begin_again(&mut self, size: Size) -> Result<(), AnsiError>
        ensures blank { OnOk result (IsBlankScreen size.width size.height (shown_by self.new)) }
        ensures before { OnOk result (self.new.before ≡ W.contents self.old.writer) }
        ensures sent { OnOk result (MakesBlank size.width size.height [] self.new.sent) }
        ensures size { OnOk result (self.new.size ≡ size) }
        ensures works { OnOk result (self.new.is_broken ≡ false) }
        ensures refused { IfErr result (FailsToResize size self.old self.new) }
        ensures colors { self.new.has_underline_colors ≡ self.old.has_underline_colors }
        ensures ambiguous { self.new.ambiguous_is_wide ≡ self.old.ambiguous_is_wide }
        ensures synchronized { self.new.is_synchronized ≡ self.old.is_synchronized }
        ensures alternate { self.new.is_on_alternate ≡ self.old.is_on_alternate }
        ensures settings { self.new.settings ≡ self.old.settings }
        ensures counts { Counts result self.old.failures self.new.failures }
    {
        let failures = self.sender.count();
        let mut tracker = Tracker::new(self.alloc, size)?;
        tracker.has_underline_colors = self.tracker.has_underline_colors;
        tracker.ambiguous_is_wide = self.tracker.ambiguous_is_wide;
        tracker.is_synchronized = self.tracker.is_synchronized;
        self.sender.renew();
        self.sender.send(tracker.out.as_str(), failures)?;
        self.tracker = tracker;
        Ok(())
    }

    /// Takes it that the window has this size. If it is another one than the backend's, the backend
    /// begins again on a terminal of this size, which is made blank, so that the next draw of a
    /// terminal over it finds another size. A size that the backend has already changes nothing,
    /// unless a write failed before: then it begins again, too.
    ///
    /// # Errors
    ///
    /// - `Size`: the size has no columns or no rows. Only the count of failures has changed then.
    /// - `Memory`: memory was refused. Only the count of failures has changed then.
    /// - `Write`: the writer failed. The backend keeps its size, and every call is refused until
    ///   the next `restart` or `resize`.
    pub fn resize(&mut self, size: Size) -> Result<(), AnsiError>
        ensures kept { HasSize size self.old → (self.new ≡ self.old) × IsOk result }
        ensures blank { (HasSize size self.old → ⊥) → OnOk result
            (IsBlankScreen size.width size.height (shown_by self.new)) }
        ensures before { (HasSize size self.old → ⊥) → OnOk result
            (self.new.before ≡ W.contents self.old.writer) }
        ensures sent { (HasSize size self.old → ⊥) → OnOk result
            (MakesBlank size.width size.height [] self.new.sent) }
        ensures size { OnOk result (self.new.size ≡ size) }
        ensures works { OnOk result (self.new.is_broken ≡ false) }
        ensures refused { IfErr result (FailsToResize size self.old self.new) }
        ensures colors { self.new.has_underline_colors ≡ self.old.has_underline_colors }
        ensures ambiguous { self.new.ambiguous_is_wide ≡ self.old.ambiguous_is_wide }
        ensures synchronized { self.new.is_synchronized ≡ self.old.is_synchronized }
        ensures alternate { self.new.is_on_alternate ≡ self.old.is_on_alternate }
        ensures settings { self.new.settings ≡ self.old.settings }
        ensures counts { Counts result self.old.failures self.new.failures }
    {
        if self.has_size(size) {
            return Ok(());
        }
        self.begin_again(size)
    }

    // Whether a size is the backend's own, and no write failed.
    fn has_size(&self, size: Size) -> bool
        ensures yes { result ≡ true → HasSize size self.now }
        ensures no { result ≡ false → HasSize size self.now → ⊥ }
    {
        let own = self.tracker.size;
        own.width == size.width && own.height == size.height && !self.sender.is_broken
    }

    // Makes a call that draws no cells.
    pub(crate) fn send(&mut self, call: Call) -> Result<(), AnsiError>
        ensures ok { OnOk result (CallDoes call (shown_by self.old) (shown_by self.new)) }
        ensures sent { OnOk result
            (IsCommanded call (cursor_of (shown_by self.old)) self.old.sent self.new.sent) }
        ensures why { IfErr result (IsOfCall call (shown_by self.old)) }
        ensures state { Answers result self.old self.new }
        ensures counts { Counts result self.old.failures self.new.failures }
    {
        let failures = self.sender.begin()?;
        self.tracker.out.clear();
        self.tracker.collect(call)?;
        self.sender.send(self.tracker.out.as_str(), failures)?;
        Ok(())
    }
}
