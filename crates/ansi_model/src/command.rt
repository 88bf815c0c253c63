//! What an application asks of a terminal that changes nothing on its screen.

ghost use Rattle.std.specs.Prelude.{◌≡◌, ◌≤◌, ℕ, ◌++◌, length, OnOk, string_bytes};
ghost use Rattle.std.specs.Prelude.{⊤, if◌then◌else◌, []};
ghost use Rattle.ansi_model.specs.Commands.{command_bytes, shown_char, shown_text, titled_bytes};
ghost use Rattle.ansi_model.specs.Commands.{flag_table, flag_bits, keyboard_bytes, keyboard_pop_bytes};
ghost use Rattle.ansi_model.specs.declared.command.Command.TheVariants.{KeepTitle};
ghost use Rattle.ansi_model.specs.Screens.{Turns, Becomes};

use crate::sequences::push_number;
use crate::symbol::is_shown;
use arrayvec::ArrayString;
use bitflags::{Flag, Flags, bitflag_items};
use itoa::Buffer as Digits;
use std::alloc::AllocError;

/// The shape of a terminal's cursor, and whether it blinks.
#[derive(Debug, Clone, Copy, PartialEq, Eq)]
pub enum SetCursorStyle {
    /// The one that the user chose.
    DefaultUserShape,
    BlinkingBlock,
    SteadyBlock,
    BlinkingUnderScore,
    SteadyUnderScore,
    BlinkingBar,
    SteadyBar,
}

/// What an application asks of a terminal that changes nothing on its screen.
#[derive(Debug, Clone, Copy, PartialEq, Eq)]
pub enum Command {
    /// Tells presses, releases, moves and the wheel of the mouse, as `ESC [ <`.
    EnableMouseCapture,
    DisableMouseCapture,
    /// Encloses what is pasted in `ESC [ 200 ~` and `ESC [ 201 ~`.
    EnableBracketedPaste,
    DisableBracketedPaste,
    /// Tells whether the window has the focus, as `ESC [ I` and `ESC [ O`.
    EnableFocusChange,
    DisableFocusChange,
    /// Asks where the cursor is; the answer is `ESC [ ROW ; COLUMN R`.
    AskCursorPosition,
    /// Shows the cursor so from now on.
    SetCursorStyle(SetCursorStyle),
    /// Tells each change of the window's size, as `ESC [ 48 ;`.
    EnableSizeReports,
    DisableSizeReports,
    /// Tells keys as before the last `push_keyboard_flags`.
    PopKeyboardEnhancementFlags,
    /// Keeps the window's title on the terminal's stack of titles.
    KeepTitle,
    /// Gives the window the title that was kept last.
    BringTitleBack,
}

/// What a terminal tells of keys by kitty's keyboard protocol. `union` and the other calls on sets
/// are those of `Flags`, of the crate `bitflags`.
#[derive(Debug, Default, Clone, Copy, PartialEq, Eq, Hash)]
pub struct KeyboardEnhancementFlags(u8);

bitflag_items! {
    impl KeyboardEnhancementFlags: u8 {
        const DISAMBIGUATE_ESCAPE_CODES = 1;
        const REPORT_EVENT_TYPES = 2;
        const REPORT_ALTERNATE_KEYS = 4;
        const REPORT_ALL_KEYS_AS_ESCAPE_CODES = 8;
    }
}

impl Flags for KeyboardEnhancementFlags {
    type Bits = u8;

    ghost exact = { ⊤ };

    ghost table = { flag_table };

    ghost set_of = { flag_bits };

    fn flags<'a>() -> &'a [Flag<KeyboardEnhancementFlags>] {
        KeyboardEnhancementFlags::FLAGS
    }

    fn bits(&self) -> u8 {
        self.0
    }

    fn from_bits_retain(bits: u8) -> KeyboardEnhancementFlags {
        KeyboardEnhancementFlags(bits)
    }
}

impl KeyboardEnhancementFlags {
    // The bits of the set.
    const fn to_bits(self) -> u8
        ensures { result ≡ flag_bits self }
    {
        self.0
    }
}

impl SetCursorStyle {
    // DECSCUSR (set cursor style).
    fn bytes(self) -> &'static str
        ensures { result.now ≡ command_bytes (Command.SetCursorStyle self) }
    {
        match self {
            SetCursorStyle::DefaultUserShape => "\u{1b}[0 q",
            SetCursorStyle::BlinkingBlock => "\u{1b}[1 q",
            SetCursorStyle::SteadyBlock => "\u{1b}[2 q",
            SetCursorStyle::BlinkingUnderScore => "\u{1b}[3 q",
            SetCursorStyle::SteadyUnderScore => "\u{1b}[4 q",
            SetCursorStyle::BlinkingBar => "\u{1b}[5 q",
            SetCursorStyle::SteadyBar => "\u{1b}[6 q",
        }
    }
}

impl Command {
    /// Returns the bytes that ask it, at most 32.
    pub fn bytes(self) -> &'static str
        ensures bytes { result.now ≡ command_bytes self }
        ensures short { length result.now ≤ 32 }
    {
        match self {
            Command::EnableMouseCapture => {
                "\u{1b}[?1000h\u{1b}[?1002h\u{1b}[?1003h\u{1b}[?1006h"
            }
            Command::DisableMouseCapture => {
                "\u{1b}[?1006l\u{1b}[?1003l\u{1b}[?1002l\u{1b}[?1000l"
            }
            Command::EnableBracketedPaste => "\u{1b}[?2004h",
            Command::DisableBracketedPaste => "\u{1b}[?2004l",
            Command::EnableFocusChange => "\u{1b}[?1004h",
            Command::DisableFocusChange => "\u{1b}[?1004l",
            Command::AskCursorPosition => "\u{1b}[6n",
            Command::SetCursorStyle(style) => style.bytes(),
            Command::EnableSizeReports => "\u{1b}[?2048h",
            Command::DisableSizeReports => "\u{1b}[?2048l",
            Command::PopKeyboardEnhancementFlags => "\u{1b}[<1u",
            Command::KeepTitle => "\u{1b}[22;2t",
            Command::BringTitleBack => "\u{1b}[23;2t",
        }
    }
}

/// Sends a command, which leaves the screen as it is.
///
/// # Errors
///
/// `AllocError` if memory is refused. What the text holds then isn't said.
pub fn push_command(out: &mut String, command: Command) -> Result<(), AllocError>
    ensures bytes { OnOk result (string_bytes out.new
        ≡ string_bytes out.old ++ command_bytes command) }
    ensures turns { OnOk result ((w h : ℕ) → Turns w h (string_bytes out.old)
        (string_bytes out.new) (λ s. Becomes (λ p q. q ≡ p) s.columns s)) }
{
    out.push_str(command.bytes())
}

/// Has keys told by these flags of kitty's keyboard protocol from now on, until
/// `PopKeyboardEnhancementFlags` takes them off the terminal's stack. The screen stays.
///
/// # Errors
///
/// `AllocError` if memory is refused. What the text holds then isn't said.
pub fn push_keyboard_flags(
    out: &mut String,
    flags: KeyboardEnhancementFlags,
) -> Result<(), AllocError>
    ensures bytes { OnOk result (string_bytes out.new
        ≡ string_bytes out.old ++ keyboard_bytes flags) }
    ensures turns { OnOk result ((w h : ℕ) → Turns w h (string_bytes out.old)
        (string_bytes out.new) (λ s. Becomes (λ p q. q ≡ p) s.columns s)) }
{
    out.push_str("\u{1b}[>")?;
    push_number(out, u32::from(flags.to_bits()))?;
    out.push_str("u")
}

/// Returns what takes as many sets of flags off the terminal's stack. It takes no memory.
pub fn keyboard_pops(count: u16) -> ArrayString<9>
    ensures { result.bytes ≡ keyboard_pop_bytes count }
{
    let mut digits = Digits::new();
    let mut text = ArrayString::new();
    text.push_str("\u{1b}[<");
    text.push_str(digits.format(count));
    text.push_str("u");
    text
}

// Appends a character, if it is shown.
fn push_shown_char(out: &mut String, c: char) -> Result<(), AllocError>
    ensures { OnOk result (string_bytes out.new ≡ string_bytes out.old ++ shown_char c) }
{
    if is_shown(c) { out.push(c) } else { Ok(()) }
}

// Appends the characters of a text that are shown.
fn push_shown(out: &mut String, text: &str) -> Result<(), AllocError>
    ensures { OnOk result (string_bytes out.new ≡ string_bytes out.old ++ shown_text text.now) }
{
    for c in text.chars() {
        push_shown_char(out, c)?;
    }
    Ok(())
}

// What keeps the window's title before the first one that is given.
fn keeping(is_first: bool) -> &'static str
    ensures { result.now ≡ (if is_first then command_bytes KeepTitle else []) }
{
    if is_first {
        Command::KeepTitle.bytes()
    } else {
        ""
    }
}

/// Gives the terminal's window a title by OSC 2: the text without its control characters and those
/// that turn the direction. If it is the first one, the title that the window has is kept before,
/// for `BringTitleBack`. The screen stays.
///
/// # Errors
///
/// `AllocError` if memory is refused. What the text holds then isn't said.
pub fn push_title(out: &mut String, is_first: bool, title: &str) -> Result<(), AllocError>
    ensures bytes { OnOk result (string_bytes out.new
        ≡ string_bytes out.old ++ titled_bytes is_first title.now) }
    ensures turns { OnOk result ((w h : ℕ) → Turns w h (string_bytes out.old)
        (string_bytes out.new) (λ s. Becomes (λ p q. q ≡ p) s.columns s)) }
{
    out.push_str(keeping(is_first))?;
    out.push_str("\u{1b}]2;")?;
    push_shown(out, title)?;
    out.push_str("\u{1b}\\")
}
