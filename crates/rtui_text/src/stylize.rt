//! Whatever has a style, styled by name: `text.red().on_white().bold()`.
//!
//! A type says by [`Styled`] what its style is and what it becomes with another one; an empty
//! `impl Stylize` then gives it every call, each proved once for all types.

ghost use Rattle.std.specs.Prelude.{◌≡◌};
ghost use Rattle.rtui_style.specs.Style.{reset_style, with_bg, with_fg, with_modifier, without_modifier};

use crate::Styled;
use rtui_style::{Color, Modifier, Style};

/// Shorthands that change one part of a style.
///
/// ```
/// let title = "Files".bold().yellow().on_blue();
/// let line = Line::raw(alloc, "plain text in a green line")?.green();
/// ```
pub trait Stylize: Styled + Sized {
    /// Sets the foreground to this colour.
    final fn fg(self, color: Color) -> Self::Item
        ensures { result ≡ Self.with_style self (with_fg color (Self.style_of self)) }
    {
        let style = self.style().fg(color);
        self.set_style(style)
    }

    /// Sets the background to this colour.
    final fn bg(self, color: Color) -> Self::Item
        ensures { result ≡ Self.with_style self (with_bg color (Self.style_of self)) }
    {
        let style = self.style().bg(color);
        self.set_style(style)
    }

    /// Sets the style that sets every colour to the terminal's own and takes every modifier away, in
    /// place of its own.
    final fn reset(self) -> Self::Item
        ensures { result ≡ Self.with_style self reset_style }
    {
        self.set_style(Style::reset())
    }

    /// Adds these modifiers, and takes none of them away.
    final fn add_modifier(self, modifier: Modifier) -> Self::Item
        ensures { result ≡ Self.with_style self (with_modifier modifier (Self.style_of self)) }
    {
        let style = self.style().add_modifier(modifier);
        self.set_style(style)
    }

    /// Takes these modifiers away, and adds none of them.
    final fn remove_modifier(self, modifier: Modifier) -> Self::Item
        ensures { result ≡ Self.with_style self (without_modifier modifier (Self.style_of self)) }
    {
        let style = self.style().remove_modifier(modifier);
        self.set_style(style)
    }

    /// Sets the foreground to black.
    final fn black(self) -> Self::Item
        ensures { result ≡ Self.with_style self (with_fg Color.Black (Self.style_of self)) }
    {
        self.fg(Color::Black)
    }

    /// Sets the background to black.
    final fn on_black(self) -> Self::Item
        ensures { result ≡ Self.with_style self (with_bg Color.Black (Self.style_of self)) }
    {
        self.bg(Color::Black)
    }

    /// Sets the foreground to red.
    final fn red(self) -> Self::Item
        ensures { result ≡ Self.with_style self (with_fg Color.Red (Self.style_of self)) }
    {
        self.fg(Color::Red)
    }

    /// Sets the background to red.
    final fn on_red(self) -> Self::Item
        ensures { result ≡ Self.with_style self (with_bg Color.Red (Self.style_of self)) }
    {
        self.bg(Color::Red)
    }

    /// Sets the foreground to green.
    final fn green(self) -> Self::Item
        ensures { result ≡ Self.with_style self (with_fg Color.Green (Self.style_of self)) }
    {
        self.fg(Color::Green)
    }

    /// Sets the background to green.
    final fn on_green(self) -> Self::Item
        ensures { result ≡ Self.with_style self (with_bg Color.Green (Self.style_of self)) }
    {
        self.bg(Color::Green)
    }

    /// Sets the foreground to yellow.
    final fn yellow(self) -> Self::Item
        ensures { result ≡ Self.with_style self (with_fg Color.Yellow (Self.style_of self)) }
    {
        self.fg(Color::Yellow)
    }

    /// Sets the background to yellow.
    final fn on_yellow(self) -> Self::Item
        ensures { result ≡ Self.with_style self (with_bg Color.Yellow (Self.style_of self)) }
    {
        self.bg(Color::Yellow)
    }

    /// Sets the foreground to blue.
    final fn blue(self) -> Self::Item
        ensures { result ≡ Self.with_style self (with_fg Color.Blue (Self.style_of self)) }
    {
        self.fg(Color::Blue)
    }

    /// Sets the background to blue.
    final fn on_blue(self) -> Self::Item
        ensures { result ≡ Self.with_style self (with_bg Color.Blue (Self.style_of self)) }
    {
        self.bg(Color::Blue)
    }

    /// Sets the foreground to magenta.
    final fn magenta(self) -> Self::Item
        ensures { result ≡ Self.with_style self (with_fg Color.Magenta (Self.style_of self)) }
    {
        self.fg(Color::Magenta)
    }

    /// Sets the background to magenta.
    final fn on_magenta(self) -> Self::Item
        ensures { result ≡ Self.with_style self (with_bg Color.Magenta (Self.style_of self)) }
    {
        self.bg(Color::Magenta)
    }

    /// Sets the foreground to cyan.
    final fn cyan(self) -> Self::Item
        ensures { result ≡ Self.with_style self (with_fg Color.Cyan (Self.style_of self)) }
    {
        self.fg(Color::Cyan)
    }

    /// Sets the background to cyan.
    final fn on_cyan(self) -> Self::Item
        ensures { result ≡ Self.with_style self (with_bg Color.Cyan (Self.style_of self)) }
    {
        self.bg(Color::Cyan)
    }

    /// Sets the foreground to gray.
    final fn gray(self) -> Self::Item
        ensures { result ≡ Self.with_style self (with_fg Color.Gray (Self.style_of self)) }
    {
        self.fg(Color::Gray)
    }

    /// Sets the background to gray.
    final fn on_gray(self) -> Self::Item
        ensures { result ≡ Self.with_style self (with_bg Color.Gray (Self.style_of self)) }
    {
        self.bg(Color::Gray)
    }

    /// Sets the foreground to dark gray.
    final fn dark_gray(self) -> Self::Item
        ensures { result ≡ Self.with_style self (with_fg Color.DarkGray (Self.style_of self)) }
    {
        self.fg(Color::DarkGray)
    }

    /// Sets the background to dark gray.
    final fn on_dark_gray(self) -> Self::Item
        ensures { result ≡ Self.with_style self (with_bg Color.DarkGray (Self.style_of self)) }
    {
        self.bg(Color::DarkGray)
    }

    /// Sets the foreground to light red.
    final fn light_red(self) -> Self::Item
        ensures { result ≡ Self.with_style self (with_fg Color.LightRed (Self.style_of self)) }
    {
        self.fg(Color::LightRed)
    }

    /// Sets the background to light red.
    final fn on_light_red(self) -> Self::Item
        ensures { result ≡ Self.with_style self (with_bg Color.LightRed (Self.style_of self)) }
    {
        self.bg(Color::LightRed)
    }

    /// Sets the foreground to light green.
    final fn light_green(self) -> Self::Item
        ensures { result ≡ Self.with_style self (with_fg Color.LightGreen (Self.style_of self)) }
    {
        self.fg(Color::LightGreen)
    }

    /// Sets the background to light green.
    final fn on_light_green(self) -> Self::Item
        ensures { result ≡ Self.with_style self (with_bg Color.LightGreen (Self.style_of self)) }
    {
        self.bg(Color::LightGreen)
    }

    /// Sets the foreground to light yellow.
    final fn light_yellow(self) -> Self::Item
        ensures { result ≡ Self.with_style self (with_fg Color.LightYellow (Self.style_of self)) }
    {
        self.fg(Color::LightYellow)
    }

    /// Sets the background to light yellow.
    final fn on_light_yellow(self) -> Self::Item
        ensures { result ≡ Self.with_style self (with_bg Color.LightYellow (Self.style_of self)) }
    {
        self.bg(Color::LightYellow)
    }

    /// Sets the foreground to light blue.
    final fn light_blue(self) -> Self::Item
        ensures { result ≡ Self.with_style self (with_fg Color.LightBlue (Self.style_of self)) }
    {
        self.fg(Color::LightBlue)
    }

    /// Sets the background to light blue.
    final fn on_light_blue(self) -> Self::Item
        ensures { result ≡ Self.with_style self (with_bg Color.LightBlue (Self.style_of self)) }
    {
        self.bg(Color::LightBlue)
    }

    /// Sets the foreground to light magenta.
    final fn light_magenta(self) -> Self::Item
        ensures { result ≡ Self.with_style self (with_fg Color.LightMagenta (Self.style_of self)) }
    {
        self.fg(Color::LightMagenta)
    }

    /// Sets the background to light magenta.
    final fn on_light_magenta(self) -> Self::Item
        ensures { result ≡ Self.with_style self (with_bg Color.LightMagenta (Self.style_of self)) }
    {
        self.bg(Color::LightMagenta)
    }

    /// Sets the foreground to light cyan.
    final fn light_cyan(self) -> Self::Item
        ensures { result ≡ Self.with_style self (with_fg Color.LightCyan (Self.style_of self)) }
    {
        self.fg(Color::LightCyan)
    }

    /// Sets the background to light cyan.
    final fn on_light_cyan(self) -> Self::Item
        ensures { result ≡ Self.with_style self (with_bg Color.LightCyan (Self.style_of self)) }
    {
        self.bg(Color::LightCyan)
    }

    /// Sets the foreground to white.
    final fn white(self) -> Self::Item
        ensures { result ≡ Self.with_style self (with_fg Color.White (Self.style_of self)) }
    {
        self.fg(Color::White)
    }

    /// Sets the background to white.
    final fn on_white(self) -> Self::Item
        ensures { result ≡ Self.with_style self (with_bg Color.White (Self.style_of self)) }
    {
        self.bg(Color::White)
    }

    /// Adds the modifier bold.
    final fn bold(self) -> Self::Item
        ensures { result ≡ Self.with_style self (with_modifier Modifier.BOLD (Self.style_of self)) }
    {
        self.add_modifier(Modifier::BOLD)
    }

    /// Takes the modifier bold away.
    final fn not_bold(self) -> Self::Item
        ensures { result
            ≡ Self.with_style self (without_modifier Modifier.BOLD (Self.style_of self)) }
    {
        self.remove_modifier(Modifier::BOLD)
    }

    /// Adds the modifier dim.
    final fn dim(self) -> Self::Item
        ensures { result ≡ Self.with_style self (with_modifier Modifier.DIM (Self.style_of self)) }
    {
        self.add_modifier(Modifier::DIM)
    }

    /// Takes the modifier dim away.
    final fn not_dim(self) -> Self::Item
        ensures { result
            ≡ Self.with_style self (without_modifier Modifier.DIM (Self.style_of self)) }
    {
        self.remove_modifier(Modifier::DIM)
    }

    /// Adds the modifier italic.
    final fn italic(self) -> Self::Item
        ensures { result
            ≡ Self.with_style self (with_modifier Modifier.ITALIC (Self.style_of self)) }
    {
        self.add_modifier(Modifier::ITALIC)
    }

    /// Takes the modifier italic away.
    final fn not_italic(self) -> Self::Item
        ensures { result
            ≡ Self.with_style self (without_modifier Modifier.ITALIC (Self.style_of self)) }
    {
        self.remove_modifier(Modifier::ITALIC)
    }

    /// Adds the modifier underlined.
    final fn underlined(self) -> Self::Item
        ensures { result
            ≡ Self.with_style self (with_modifier Modifier.UNDERLINED (Self.style_of self)) }
    {
        self.add_modifier(Modifier::UNDERLINED)
    }

    /// Takes the modifier underlined away.
    final fn not_underlined(self) -> Self::Item
        ensures { result
            ≡ Self.with_style self (without_modifier Modifier.UNDERLINED (Self.style_of self)) }
    {
        self.remove_modifier(Modifier::UNDERLINED)
    }

    /// Adds the modifier slow blink.
    final fn slow_blink(self) -> Self::Item
        ensures { result
            ≡ Self.with_style self (with_modifier Modifier.SLOW_BLINK (Self.style_of self)) }
    {
        self.add_modifier(Modifier::SLOW_BLINK)
    }

    /// Takes the modifier slow blink away.
    final fn not_slow_blink(self) -> Self::Item
        ensures { result
            ≡ Self.with_style self (without_modifier Modifier.SLOW_BLINK (Self.style_of self)) }
    {
        self.remove_modifier(Modifier::SLOW_BLINK)
    }

    /// Adds the modifier rapid blink.
    final fn rapid_blink(self) -> Self::Item
        ensures { result
            ≡ Self.with_style self (with_modifier Modifier.RAPID_BLINK (Self.style_of self)) }
    {
        self.add_modifier(Modifier::RAPID_BLINK)
    }

    /// Takes the modifier rapid blink away.
    final fn not_rapid_blink(self) -> Self::Item
        ensures { result
            ≡ Self.with_style self (without_modifier Modifier.RAPID_BLINK (Self.style_of self)) }
    {
        self.remove_modifier(Modifier::RAPID_BLINK)
    }

    /// Adds the modifier reversed.
    final fn reversed(self) -> Self::Item
        ensures { result
            ≡ Self.with_style self (with_modifier Modifier.REVERSED (Self.style_of self)) }
    {
        self.add_modifier(Modifier::REVERSED)
    }

    /// Takes the modifier reversed away.
    final fn not_reversed(self) -> Self::Item
        ensures { result
            ≡ Self.with_style self (without_modifier Modifier.REVERSED (Self.style_of self)) }
    {
        self.remove_modifier(Modifier::REVERSED)
    }

    /// Adds the modifier hidden.
    final fn hidden(self) -> Self::Item
        ensures { result
            ≡ Self.with_style self (with_modifier Modifier.HIDDEN (Self.style_of self)) }
    {
        self.add_modifier(Modifier::HIDDEN)
    }

    /// Takes the modifier hidden away.
    final fn not_hidden(self) -> Self::Item
        ensures { result
            ≡ Self.with_style self (without_modifier Modifier.HIDDEN (Self.style_of self)) }
    {
        self.remove_modifier(Modifier::HIDDEN)
    }

    /// Adds the modifier crossed out.
    final fn crossed_out(self) -> Self::Item
        ensures { result
            ≡ Self.with_style self (with_modifier Modifier.CROSSED_OUT (Self.style_of self)) }
    {
        self.add_modifier(Modifier::CROSSED_OUT)
    }

    /// Takes the modifier crossed out away.
    final fn not_crossed_out(self) -> Self::Item
        ensures { result
            ≡ Self.with_style self (without_modifier Modifier.CROSSED_OUT (Self.style_of self)) }
    {
        self.remove_modifier(Modifier::CROSSED_OUT)
    }
}
