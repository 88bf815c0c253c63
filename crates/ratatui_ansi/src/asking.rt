//! What the backend asks of its terminal and tells it, beside its screen.

ghost use Rattle.std.specs.Prelude.{◌≡◌, ◌++◌, not, if◌then◌else◌, IfErr, OnOk};
ghost use Rattle.ratatui_core.specs.Backend.{Counts, cursor_of};
ghost use Rattle.ansi_model.specs.Commands.{command_bytes, keyboard_bytes, titled_bytes, size_question};
ghost use Rattle.ratatui_ansi.specs.Backend.{shown_by};
ghost use Rattle.ratatui_ansi.specs.Inner.Tracker.{CallDoes, IsCommanded, IsOfCall};
ghost use Rattle.ratatui_ansi.specs.Refusals.{Answers, AnswersSet, IsOfWriting};
ghost use Rattle.ratatui_ansi.specs.Settings.{after_command, with_flags, with_title, noted};

use crate::backend::AnsiBackend;
use crate::error::AnsiError;
use crate::settings::Settings;
use crate::tracker::Call;
use ansi_model::{Command, KeyboardEnhancementFlags, SetCursorStyle};
use std::io::Write;

impl<W: Write + Drop> AnsiBackend<W> {
    /// Sets whether from now on the terminal tells presses, moves and the wheel of the mouse on its
    /// input. The screen stays.
    ///
    /// # Errors
    ///
    /// `Memory`, `Broken` and `Write`, as of every call that writes.
    pub fn set_mouse_capture(&mut self, is_captured: bool) -> Result<(), AnsiError>
        ensures ok { OnOk result (shown_by self.new ≡ shown_by self.old) }
        ensures sent { OnOk result (self.new.sent ≡ self.old.sent ++ command_bytes
            (if is_captured then Command.EnableMouseCapture else Command.DisableMouseCapture)) }
        ensures why { IfErr result IsOfWriting }
        ensures state { AnswersSet result
            (after_command (if is_captured then Command.EnableMouseCapture else Command.DisableMouseCapture)
            self.old.settings) self.old self.new }
        ensures counts { Counts result self.old.failures self.new.failures }
    {
        let command = if is_captured {
            Command::EnableMouseCapture
        } else {
            Command::DisableMouseCapture
        };
        self.set(Call::Command(command), self.settings.after(command))
    }

    /// Sets whether from now on the terminal encloses what is pasted in marks on its input. The
    /// screen stays.
    ///
    /// # Errors
    ///
    /// `Memory`, `Broken` and `Write`, as of every call that writes.
    pub fn set_bracketed_paste(&mut self, is_bracketed: bool) -> Result<(), AnsiError>
        ensures ok { OnOk result (shown_by self.new ≡ shown_by self.old) }
        ensures sent { OnOk result (self.new.sent ≡ self.old.sent ++ command_bytes
            (if is_bracketed then Command.EnableBracketedPaste else Command.DisableBracketedPaste)) }
        ensures why { IfErr result IsOfWriting }
        ensures state { AnswersSet result
            (after_command (if is_bracketed then Command.EnableBracketedPaste else Command.DisableBracketedPaste)
            self.old.settings) self.old self.new }
        ensures counts { Counts result self.old.failures self.new.failures }
    {
        let command = if is_bracketed {
            Command::EnableBracketedPaste
        } else {
            Command::DisableBracketedPaste
        };
        self.set(Call::Command(command), self.settings.after(command))
    }

    /// Sets whether from now on the terminal tells on its input that its window has the focus or
    /// lost it. The screen stays.
    ///
    /// # Errors
    ///
    /// `Memory`, `Broken` and `Write`, as of every call that writes.
    pub fn set_focus_change(&mut self, is_told: bool) -> Result<(), AnsiError>
        ensures ok { OnOk result (shown_by self.new ≡ shown_by self.old) }
        ensures sent { OnOk result (self.new.sent ≡ self.old.sent ++ command_bytes
            (if is_told then Command.EnableFocusChange else Command.DisableFocusChange)) }
        ensures why { IfErr result IsOfWriting }
        ensures state { AnswersSet result
            (after_command (if is_told then Command.EnableFocusChange else Command.DisableFocusChange)
            self.old.settings) self.old self.new }
        ensures counts { Counts result self.old.failures self.new.failures }
    {
        let command = if is_told {
            Command::EnableFocusChange
        } else {
            Command::DisableFocusChange
        };
        self.set(Call::Command(command), self.settings.after(command))
    }

    /// Asks the terminal where its cursor is; the answer comes on its input. The screen stays.
    ///
    /// # Errors
    ///
    /// `Memory`, `Broken` and `Write`, as of every call that writes.
    pub fn ask_cursor_position(&mut self) -> Result<(), AnsiError>
        ensures ok { OnOk result (shown_by self.new ≡ shown_by self.old) }
        ensures sent { OnOk result
            (self.new.sent ≡ self.old.sent ++ command_bytes Command.AskCursorPosition) }
        ensures why { IfErr result IsOfWriting }
        ensures state { Answers result self.old self.new }
        ensures counts { Counts result self.old.failures self.new.failures }
    {
        self.send(Call::Command(Command::AskCursorPosition))
    }

    /// Asks the terminal for its size; the answer comes on its input, as one to
    /// `ask_cursor_position`: the place of the last column and row. The screen stays.
    ///
    /// # Errors
    ///
    /// `Memory`, `Broken` and `Write`, as of every call that writes.
    pub fn ask_size(&mut self) -> Result<(), AnsiError>
        ensures ok { OnOk result (shown_by self.new ≡ shown_by self.old) }
        ensures asked { OnOk result (self.new.sent
            ≡ self.old.sent ++ size_question (cursor_of (shown_by self.old))) }
        ensures why { IfErr result IsOfWriting }
        ensures state { Answers result self.old self.new }
        ensures counts { Counts result self.old.failures self.new.failures }
    {
        self.send(Call::AskSize)
    }

    /// Sets the shape in which the terminal shows its cursor from now on. The screen stays.
    ///
    /// # Errors
    ///
    /// `Memory`, `Broken` and `Write`, as of every call that writes.
    pub fn set_cursor_style(&mut self, style: SetCursorStyle) -> Result<(), AnsiError>
        ensures ok { OnOk result (shown_by self.new ≡ shown_by self.old) }
        ensures sent { OnOk result
            (self.new.sent ≡ self.old.sent ++ command_bytes (Command.SetCursorStyle style)) }
        ensures why { IfErr result IsOfWriting }
        ensures state { AnswersSet result
            (after_command (Command.SetCursorStyle style) self.old.settings) self.old self.new }
        ensures counts { Counts result self.old.failures self.new.failures }
    {
        let command = Command::SetCursorStyle(style);
        self.set(Call::Command(command), self.settings.after(command))
    }

    /// Sets whether from now on the terminal tells each change of its window's size on its input,
    /// if it knows mode 2048. The screen stays.
    ///
    /// # Errors
    ///
    /// `Memory`, `Broken` and `Write`, as of every call that writes.
    pub fn set_size_reports(&mut self, is_told: bool) -> Result<(), AnsiError>
        ensures ok { OnOk result (shown_by self.new ≡ shown_by self.old) }
        ensures sent { OnOk result (self.new.sent ≡ self.old.sent ++ command_bytes
            (if is_told then Command.EnableSizeReports else Command.DisableSizeReports)) }
        ensures why { IfErr result IsOfWriting }
        ensures state { AnswersSet result
            (after_command (if is_told then Command.EnableSizeReports else Command.DisableSizeReports)
            self.old.settings) self.old self.new }
        ensures counts { Counts result self.old.failures self.new.failures }
    {
        let command = if is_told {
            Command::EnableSizeReports
        } else {
            Command::DisableSizeReports
        };
        self.set(Call::Command(command), self.settings.after(command))
    }

    /// Has a terminal that knows kitty's keyboard protocol tell keys by these flags from now on,
    /// until `pop_keyboard_enhancement_flags`; each `push` wants a `pop` of its own. The screen
    /// stays.
    ///
    /// ```
    /// backend.push_keyboard_enhancement_flags(KeyboardEnhancementFlags::REPORT_EVENT_TYPES)?;
    /// ```
    ///
    /// # Errors
    ///
    /// `Memory`, `Broken` and `Write`, as of every call that writes.
    pub fn push_keyboard_enhancement_flags(
        &mut self,
        flags: KeyboardEnhancementFlags,
    ) -> Result<(), AnsiError>
        ensures ok { OnOk result (shown_by self.new ≡ shown_by self.old) }
        ensures sent { OnOk result (self.new.sent ≡ self.old.sent ++ keyboard_bytes flags) }
        ensures why { IfErr result IsOfWriting }
        ensures state { AnswersSet result (with_flags self.old.settings) self.old self.new }
        ensures counts { Counts result self.old.failures self.new.failures }
    {
        self.set(Call::PushKeyboardFlags(flags), self.settings.with_flags())
    }

    /// Has the terminal tell keys from now on as before the last `push_keyboard_enhancement_flags`.
    /// The screen stays.
    ///
    /// # Errors
    ///
    /// `Memory`, `Broken` and `Write`, as of every call that writes.
    pub fn pop_keyboard_enhancement_flags(&mut self) -> Result<(), AnsiError>
        ensures ok { OnOk result (shown_by self.new ≡ shown_by self.old) }
        ensures sent { OnOk result (self.new.sent
            ≡ self.old.sent ++ command_bytes Command.PopKeyboardEnhancementFlags) }
        ensures why { IfErr result IsOfWriting }
        ensures state { AnswersSet result
            (after_command Command.PopKeyboardEnhancementFlags self.old.settings)
            self.old self.new }
        ensures counts { Counts result self.old.failures self.new.failures }
    {
        let command = Command::PopKeyboardEnhancementFlags;
        self.set(Call::Command(command), self.settings.after(command))
    }

    /// Gives the terminal's window a title: the text without its control characters and those that
    /// turn the direction. The one that it had before the first is kept: `leave` and a drop bring it
    /// back, on terminals that keep titles. The screen stays.
    ///
    /// # Errors
    ///
    /// `Memory`, `Broken` and `Write`, as of every call that writes.
    pub fn send_title(&mut self, title: &str) -> Result<(), AnsiError>
        ensures ok { OnOk result (shown_by self.new ≡ shown_by self.old) }
        ensures sent { OnOk result (self.new.sent
            ≡ self.old.sent ++ titled_bytes (not self.old.settings.title) title.now) }
        ensures why { IfErr result IsOfWriting }
        ensures state { AnswersSet result (with_title self.old.settings) self.old self.new }
        ensures counts { Counts result self.old.failures self.new.failures }
    {
        let after = self.settings.with_title();
        let answer = self.show_title(title);
        self.note(&answer, after);
        answer
    }

    // Sends a title, before which the window's own is kept if none was sent yet.
    fn show_title(&mut self, title: &str) -> Result<(), AnsiError>
        ensures ok { OnOk result (shown_by self.new ≡ shown_by self.old) }
        ensures sent { OnOk result (self.new.sent
            ≡ self.old.sent ++ titled_bytes (not self.old.settings.title) title.now) }
        ensures why { IfErr result IsOfWriting }
        ensures state { Answers result self.old self.new }
        ensures counts { Counts result self.old.failures self.new.failures }
    {
        let failures = self.sender.begin()?;
        self.tracker.out.clear();
        self.tracker.title(!self.settings.title, title)?;
        self.sender.send(self.tracker.out.as_str(), failures)?;
        Ok(())
    }

    // Makes a call after which this is set.
    fn set(&mut self, call: Call, after: Settings) -> Result<(), AnsiError>
        ensures ok { OnOk result (CallDoes call (shown_by self.old) (shown_by self.new)) }
        ensures sent { OnOk result
            (IsCommanded call (cursor_of (shown_by self.old)) self.old.sent self.new.sent) }
        ensures why { IfErr result (IsOfCall call (shown_by self.old)) }
        ensures state { AnswersSet result after self.old self.new }
        ensures counts { Counts result self.old.failures self.new.failures }
    {
        let answer = self.send(call);
        self.note(&answer, after);
        answer
    }

    // Notes what a call set, or what it may have set if its write failed.
    fn note(&mut self, answer: &Result<(), AnsiError>, after: Settings)
        ensures { self.new
            ≡ record self.old { settings = noted answer.now after self.old.settings } }
    {
        match answer {
            Ok(()) => self.settings = after,
            Err(AnsiError::Write(_)) => self.settings = self.settings.either(after),
            Err(_) => {}
        }
    }
}
