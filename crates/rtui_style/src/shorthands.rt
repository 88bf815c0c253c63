//! Shorthands of a style: each colour as a foreground and as a background, each modifier added and
//! taken away.

ghost use Rattle.std.specs.Prelude.{◌≡◌};
ghost use Rattle.rtui_style.specs.Style.{with_fg, with_bg, with_modifier, without_modifier};

use crate::{Color, Modifier, Style};

impl Style {
    /// Sets the foreground to black.
    pub fn black(self) -> Self
        ensures { result ≡ with_fg Color.Black self }
    {
        self.fg(Color::Black)
    }

    /// Sets the background to black.
    pub fn on_black(self) -> Self
        ensures { result ≡ with_bg Color.Black self }
    {
        self.bg(Color::Black)
    }

    /// Sets the foreground to red.
    pub fn red(self) -> Self
        ensures { result ≡ with_fg Color.Red self }
    {
        self.fg(Color::Red)
    }

    /// Sets the background to red.
    pub fn on_red(self) -> Self
        ensures { result ≡ with_bg Color.Red self }
    {
        self.bg(Color::Red)
    }

    /// Sets the foreground to green.
    pub fn green(self) -> Self
        ensures { result ≡ with_fg Color.Green self }
    {
        self.fg(Color::Green)
    }

    /// Sets the background to green.
    pub fn on_green(self) -> Self
        ensures { result ≡ with_bg Color.Green self }
    {
        self.bg(Color::Green)
    }

    /// Sets the foreground to yellow.
    pub fn yellow(self) -> Self
        ensures { result ≡ with_fg Color.Yellow self }
    {
        self.fg(Color::Yellow)
    }

    /// Sets the background to yellow.
    pub fn on_yellow(self) -> Self
        ensures { result ≡ with_bg Color.Yellow self }
    {
        self.bg(Color::Yellow)
    }

    /// Sets the foreground to blue.
    pub fn blue(self) -> Self
        ensures { result ≡ with_fg Color.Blue self }
    {
        self.fg(Color::Blue)
    }

    /// Sets the background to blue.
    pub fn on_blue(self) -> Self
        ensures { result ≡ with_bg Color.Blue self }
    {
        self.bg(Color::Blue)
    }

    /// Sets the foreground to magenta.
    pub fn magenta(self) -> Self
        ensures { result ≡ with_fg Color.Magenta self }
    {
        self.fg(Color::Magenta)
    }

    /// Sets the background to magenta.
    pub fn on_magenta(self) -> Self
        ensures { result ≡ with_bg Color.Magenta self }
    {
        self.bg(Color::Magenta)
    }

    /// Sets the foreground to cyan.
    pub fn cyan(self) -> Self
        ensures { result ≡ with_fg Color.Cyan self }
    {
        self.fg(Color::Cyan)
    }

    /// Sets the background to cyan.
    pub fn on_cyan(self) -> Self
        ensures { result ≡ with_bg Color.Cyan self }
    {
        self.bg(Color::Cyan)
    }

    /// Sets the foreground to gray.
    pub fn gray(self) -> Self
        ensures { result ≡ with_fg Color.Gray self }
    {
        self.fg(Color::Gray)
    }

    /// Sets the background to gray.
    pub fn on_gray(self) -> Self
        ensures { result ≡ with_bg Color.Gray self }
    {
        self.bg(Color::Gray)
    }

    /// Sets the foreground to dark gray.
    pub fn dark_gray(self) -> Self
        ensures { result ≡ with_fg Color.DarkGray self }
    {
        self.fg(Color::DarkGray)
    }

    /// Sets the background to dark gray.
    pub fn on_dark_gray(self) -> Self
        ensures { result ≡ with_bg Color.DarkGray self }
    {
        self.bg(Color::DarkGray)
    }

    /// Sets the foreground to light red.
    pub fn light_red(self) -> Self
        ensures { result ≡ with_fg Color.LightRed self }
    {
        self.fg(Color::LightRed)
    }

    /// Sets the background to light red.
    pub fn on_light_red(self) -> Self
        ensures { result ≡ with_bg Color.LightRed self }
    {
        self.bg(Color::LightRed)
    }

    /// Sets the foreground to light green.
    pub fn light_green(self) -> Self
        ensures { result ≡ with_fg Color.LightGreen self }
    {
        self.fg(Color::LightGreen)
    }

    /// Sets the background to light green.
    pub fn on_light_green(self) -> Self
        ensures { result ≡ with_bg Color.LightGreen self }
    {
        self.bg(Color::LightGreen)
    }

    /// Sets the foreground to light yellow.
    pub fn light_yellow(self) -> Self
        ensures { result ≡ with_fg Color.LightYellow self }
    {
        self.fg(Color::LightYellow)
    }

    /// Sets the background to light yellow.
    pub fn on_light_yellow(self) -> Self
        ensures { result ≡ with_bg Color.LightYellow self }
    {
        self.bg(Color::LightYellow)
    }

    /// Sets the foreground to light blue.
    pub fn light_blue(self) -> Self
        ensures { result ≡ with_fg Color.LightBlue self }
    {
        self.fg(Color::LightBlue)
    }

    /// Sets the background to light blue.
    pub fn on_light_blue(self) -> Self
        ensures { result ≡ with_bg Color.LightBlue self }
    {
        self.bg(Color::LightBlue)
    }

    /// Sets the foreground to light magenta.
    pub fn light_magenta(self) -> Self
        ensures { result ≡ with_fg Color.LightMagenta self }
    {
        self.fg(Color::LightMagenta)
    }

    /// Sets the background to light magenta.
    pub fn on_light_magenta(self) -> Self
        ensures { result ≡ with_bg Color.LightMagenta self }
    {
        self.bg(Color::LightMagenta)
    }

    /// Sets the foreground to light cyan.
    pub fn light_cyan(self) -> Self
        ensures { result ≡ with_fg Color.LightCyan self }
    {
        self.fg(Color::LightCyan)
    }

    /// Sets the background to light cyan.
    pub fn on_light_cyan(self) -> Self
        ensures { result ≡ with_bg Color.LightCyan self }
    {
        self.bg(Color::LightCyan)
    }

    /// Sets the foreground to white.
    pub fn white(self) -> Self
        ensures { result ≡ with_fg Color.White self }
    {
        self.fg(Color::White)
    }

    /// Sets the background to white.
    pub fn on_white(self) -> Self
        ensures { result ≡ with_bg Color.White self }
    {
        self.bg(Color::White)
    }

    /// Makes the style add the modifier bold.
    pub fn bold(self) -> Self
        ensures { result ≡ with_modifier Modifier.BOLD self }
    {
        self.add_modifier(Modifier::BOLD)
    }

    /// Makes the style take the modifier bold away.
    pub fn not_bold(self) -> Self
        ensures { result ≡ without_modifier Modifier.BOLD self }
    {
        self.remove_modifier(Modifier::BOLD)
    }

    /// Makes the style add the modifier dim.
    pub fn dim(self) -> Self
        ensures { result ≡ with_modifier Modifier.DIM self }
    {
        self.add_modifier(Modifier::DIM)
    }

    /// Makes the style take the modifier dim away.
    pub fn not_dim(self) -> Self
        ensures { result ≡ without_modifier Modifier.DIM self }
    {
        self.remove_modifier(Modifier::DIM)
    }

    /// Makes the style add the modifier italic.
    pub fn italic(self) -> Self
        ensures { result ≡ with_modifier Modifier.ITALIC self }
    {
        self.add_modifier(Modifier::ITALIC)
    }

    /// Makes the style take the modifier italic away.
    pub fn not_italic(self) -> Self
        ensures { result ≡ without_modifier Modifier.ITALIC self }
    {
        self.remove_modifier(Modifier::ITALIC)
    }

    /// Makes the style add the modifier underlined.
    pub fn underlined(self) -> Self
        ensures { result ≡ with_modifier Modifier.UNDERLINED self }
    {
        self.add_modifier(Modifier::UNDERLINED)
    }

    /// Makes the style take the modifier underlined away.
    pub fn not_underlined(self) -> Self
        ensures { result ≡ without_modifier Modifier.UNDERLINED self }
    {
        self.remove_modifier(Modifier::UNDERLINED)
    }

    /// Makes the style add the modifier slow blink.
    pub fn slow_blink(self) -> Self
        ensures { result ≡ with_modifier Modifier.SLOW_BLINK self }
    {
        self.add_modifier(Modifier::SLOW_BLINK)
    }

    /// Makes the style take the modifier slow blink away.
    pub fn not_slow_blink(self) -> Self
        ensures { result ≡ without_modifier Modifier.SLOW_BLINK self }
    {
        self.remove_modifier(Modifier::SLOW_BLINK)
    }

    /// Makes the style add the modifier rapid blink.
    pub fn rapid_blink(self) -> Self
        ensures { result ≡ with_modifier Modifier.RAPID_BLINK self }
    {
        self.add_modifier(Modifier::RAPID_BLINK)
    }

    /// Makes the style take the modifier rapid blink away.
    pub fn not_rapid_blink(self) -> Self
        ensures { result ≡ without_modifier Modifier.RAPID_BLINK self }
    {
        self.remove_modifier(Modifier::RAPID_BLINK)
    }

    /// Makes the style add the modifier reversed.
    pub fn reversed(self) -> Self
        ensures { result ≡ with_modifier Modifier.REVERSED self }
    {
        self.add_modifier(Modifier::REVERSED)
    }

    /// Makes the style take the modifier reversed away.
    pub fn not_reversed(self) -> Self
        ensures { result ≡ without_modifier Modifier.REVERSED self }
    {
        self.remove_modifier(Modifier::REVERSED)
    }

    /// Makes the style add the modifier hidden.
    pub fn hidden(self) -> Self
        ensures { result ≡ with_modifier Modifier.HIDDEN self }
    {
        self.add_modifier(Modifier::HIDDEN)
    }

    /// Makes the style take the modifier hidden away.
    pub fn not_hidden(self) -> Self
        ensures { result ≡ without_modifier Modifier.HIDDEN self }
    {
        self.remove_modifier(Modifier::HIDDEN)
    }

    /// Makes the style add the modifier crossed out.
    pub fn crossed_out(self) -> Self
        ensures { result ≡ with_modifier Modifier.CROSSED_OUT self }
    {
        self.add_modifier(Modifier::CROSSED_OUT)
    }

    /// Makes the style take the modifier crossed out away.
    pub fn not_crossed_out(self) -> Self
        ensures { result ≡ without_modifier Modifier.CROSSED_OUT self }
    {
        self.remove_modifier(Modifier::CROSSED_OUT)
    }
}
