//! What an application set on its terminal, beside its screen.

ghost use Rattle.std.specs.Prelude.{◌≡◌, ◌+◌, ◌<◌, ◌≤◌, ◌^◌, ◌++◌, if◌then◌else◌, [], length, nat_lt};
ghost use Rattle.ansi_model.specs.Commands.{keyboard_pop_bytes};
ghost use Rattle.ratatui_ansi.specs.Settings.{after_command, with_flags, with_title, either};
ghost use Rattle.ratatui_ansi.specs.Settings.{no_settings, undo_bytes, is_user_shape, taken_back};

use ansi_model::{Command, SetCursorStyle, keyboard_pops};
use arrayvec::ArrayString;

/// What an application set on its terminal and hasn't taken back.
#[derive(Clone, Copy)]
pub(crate) struct Settings {
    /// The mouse is told.
    mouse: bool,
    /// Pastes are enclosed in marks.
    pastes: bool,
    /// It is told whether the window has the focus.
    focus: bool,
    /// The window's size is told.
    sizes: bool,
    /// The cursor has a shape of the application's.
    shape: bool,
    /// The window has a title of the application's.
    pub(crate) title: bool,
    /// The sets of keyboard flags that the application put on the terminal's stack, as far as the
    /// count goes.
    flags: u16,
}

/// What gives a terminal back.
pub(crate) type Farewell = ArrayString<288>;

// Whether a shape is the one that the user chose.
fn is_of_user(style: SetCursorStyle) -> bool
    ensures { result ≡ is_user_shape style }
{
    match style {
        SetCursorStyle::DefaultUserShape => true,
        SetCursorStyle::BlinkingBlock
        | SetCursorStyle::SteadyBlock
        | SetCursorStyle::BlinkingUnderScore
        | SetCursorStyle::SteadyUnderScore
        | SetCursorStyle::BlinkingBar
        | SetCursorStyle::SteadyBar => false,
    }
}

// Appends what takes a setting back, if it is set.
fn take_back(text: &mut Farewell, is_set: bool, command: Command)
    requires { length text.old.bytes + 32 ≤ 288 }
    ensures bytes { text.new.bytes ≡ text.old.bytes ++ taken_back is_set command }
    ensures short { length text.new.bytes ≤ length text.old.bytes + 32 }
{
    if is_set {
        text.push_str(command.bytes());
    }
}

impl Settings {
    /// Makes the settings where nothing was set.
    pub(crate) const fn none() -> Settings
        ensures { result ≡ no_settings }
    {
        Settings {
            mouse: false,
            pastes: false,
            focus: false,
            sizes: false,
            shape: false,
            title: false,
            flags: 0,
        }
    }

    /// Returns these, after a command.
    pub(crate) fn after(self, command: Command) -> Settings
        ensures { result ≡ after_command command self }
    {
        let mut after = self;
        match command {
            Command::EnableMouseCapture => after.mouse = true,
            Command::DisableMouseCapture => after.mouse = false,
            Command::EnableBracketedPaste => after.pastes = true,
            Command::DisableBracketedPaste => after.pastes = false,
            Command::EnableFocusChange => after.focus = true,
            Command::DisableFocusChange => after.focus = false,
            Command::EnableSizeReports => after.sizes = true,
            Command::DisableSizeReports => after.sizes = false,
            Command::SetCursorStyle(style) => after.shape = !is_of_user(style),
            Command::KeepTitle => after.title = true,
            Command::BringTitleBack => after.title = false,
            Command::PopKeyboardEnhancementFlags => after.flags = self.flags.saturating_sub(1),
            Command::AskCursorPosition => {}
        }
        after
    }

    /// Returns these, after a set of keyboard flags was put on the terminal's stack.
    pub(crate) fn with_flags(self) -> Settings
        ensures { result ≡ with_flags self }
    {
        let mut after = self;
        after.flags = self.flags.saturating_add(1);
        after
    }

    /// Returns these, after the window was given a title.
    pub(crate) fn with_title(self) -> Settings
        ensures { result ≡ with_title self }
    {
        let mut after = self;
        after.title = true;
        after
    }

    /// Returns what is set here or there.
    pub(crate) fn either(self, other: Settings) -> Settings
        ensures { result ≡ either self other }
    {
        Settings {
            mouse: self.mouse || other.mouse,
            pastes: self.pastes || other.pastes,
            focus: self.focus || other.focus,
            sizes: self.sizes || other.sizes,
            shape: self.shape || other.shape,
            title: self.title || other.title,
            flags: self.flags.max(other.flags),
        }
    }

    // Appends what takes the keyboard flags off the terminal's stack, if there are any.
    fn take_flags_back(self, text: &mut Farewell)
        requires { length text.old.bytes + 32 ≤ 288 }
        ensures bytes { text.new.bytes ≡ text.old.bytes
            ++ (if nat_lt 0 self.flags then keyboard_pop_bytes self.flags else []) }
        ensures short { length text.new.bytes ≤ length text.old.bytes + 32 }
    {
        if self.flags > 0 {
            text.push_str(keyboard_pops(self.flags).as_str());
        }
    }

    /// Returns what takes these back: nothing of what the terminal shows changes.
    pub(crate) fn undo(self) -> Farewell
        ensures bytes { result.bytes ≡ undo_bytes self }
        ensures short { length result.bytes ≤ 224 }
        ensures flags { self.flags < 2 ^ 16 }
    {
        let mut text = ArrayString::new();
        take_back(&mut text, self.mouse, Command::DisableMouseCapture);
        take_back(&mut text, self.pastes, Command::DisableBracketedPaste);
        take_back(&mut text, self.focus, Command::DisableFocusChange);
        take_back(&mut text, self.sizes, Command::DisableSizeReports);
        let shape = Command::SetCursorStyle(SetCursorStyle::DefaultUserShape);
        take_back(&mut text, self.shape, shape);
        take_back(&mut text, self.title, Command::BringTitleBack);
        self.take_flags_back(&mut text);
        text
    }
}
