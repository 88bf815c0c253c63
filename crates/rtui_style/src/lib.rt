//! Colours, modifiers and styles.
//!
//! A [`Style`] says what to change of how a column is painted: up to three colours, a set of
//! modifiers to add and one to take away. Contracts see it as data; `color_after` and
//! `modifier_after` (in `specs/Style`) are what it makes of colours and modifiers, and the laws of
//! [`laws`] say that laying one style over another by [`Style::patch`] is doing one after the
//! other. A [`Color`] is printed and read as text.
//!
//! It stands on `bitflags` alone. The layer above uses the fields of a style, `patch`, and the
//! texts of a colour.
#![tactic(auto)]

ghost use Rattle.std.specs.Prelude.{⊤, ◌≡◌};
ghost use Rattle.rtui_style.specs.Modifier.{modifier_table, bits_of};
ghost use Rattle.rtui_style.specs.Style.{patch, new_style, reset_style, with_fg, with_bg};
ghost use Rattle.rtui_style.specs.Style.{with_underline_color, with_modifier, without_modifier, has_modifier};

mod color;
pub mod laws;
mod shorthands;

use bitflags::{Flag, Flags, bitflag_items};
pub use color::{Color, ParseColorError};

/// A set of modifiers of a text. `union`, `contains` and the other calls on sets are those of
/// `Flags`.
#[derive(Debug, Default, Clone, Copy, PartialEq, Eq, Hash)]
pub struct Modifier(u16);

bitflag_items! {
    impl Modifier: u16 {
        const BOLD = 1;
        const DIM = 2;
        const ITALIC = 4;
        const UNDERLINED = 8;
        const SLOW_BLINK = 16;
        const RAPID_BLINK = 32;
        const REVERSED = 64;
        const HIDDEN = 128;
        const CROSSED_OUT = 256;
    }
}

impl Modifier {
    /// The empty set, which `empty()` answers too.
    pub const NONE: Modifier = Modifier(0);

    /// All nine modifiers, which `all()` answers too.
    pub const ALL: Modifier = Modifier(511);
}

impl Flags for Modifier {
    type Bits = u16;

    ghost exact = { ⊤ };

    ghost table = { modifier_table };

    ghost set_of = { bits_of };

    fn flags<'a>() -> &'a [Flag<Modifier>] {
        Modifier::FLAGS
    }

    fn bits(&self) -> u16 {
        self.0
    }

    fn from_bits_retain(bits: u16) -> Modifier {
        Modifier(bits)
    }
}

/// What to change of how a column is painted. A colour that is `None` stays as it was.
///
/// ```
/// let warning = Style::new().fg(Color::Yellow).add_modifier(Modifier::BOLD);
/// let shown = Style::new().bg(Color::Black).patch(warning); // bold yellow on black
/// ```
#[derive(Debug, Default, Clone, Copy, PartialEq, Eq, Hash)]
pub struct Style {
    /// The colour of the text.
    pub fg: Option<Color>,
    /// The colour of the background.
    pub bg: Option<Color>,
    /// The colour of a line under the text.
    pub underline_color: Option<Color>,
    /// The modifiers that are added.
    pub add_modifier: Modifier,
    /// The modifiers that are taken away, after those were added.
    pub sub_modifier: Modifier,
}

impl Style {
    /// Makes the style that changes nothing.
    pub fn new() -> Self
        ensures { result ≡ new_style }
    {
        Style {
            fg: None,
            bg: None,
            underline_color: None,
            add_modifier: Modifier::NONE,
            sub_modifier: Modifier::NONE,
        }
    }

    /// Makes the style that sets all three colours to the terminal's own and takes every modifier
    /// away.
    pub fn reset() -> Self
        ensures { result ≡ reset_style }
    {
        Style {
            fg: Some(Color::Reset),
            bg: Some(Color::Reset),
            underline_color: Some(Color::Reset),
            add_modifier: Modifier::NONE,
            sub_modifier: Modifier::ALL,
        }
    }

    /// Sets the foreground to this colour.
    pub fn fg(mut self, color: Color) -> Self
        ensures { result ≡ with_fg color self }
    {
        self.fg = Some(color);
        self
    }

    /// Sets the background to this colour.
    pub fn bg(mut self, color: Color) -> Self
        ensures { result ≡ with_bg color self }
    {
        self.bg = Some(color);
        self
    }

    /// Sets the colour of the underline to this one.
    pub fn underline_color(mut self, color: Color) -> Self
        ensures { result ≡ with_underline_color color self }
    {
        self.underline_color = Some(color);
        self
    }

    /// Makes the style add these modifiers, and take none of them away.
    pub fn add_modifier(mut self, modifier: Modifier) -> Self
        ensures { result ≡ with_modifier modifier self }
    {
        self.sub_modifier = self.sub_modifier.difference(modifier);
        self.add_modifier = self.add_modifier.union(modifier);
        self
    }

    /// Makes the style take these modifiers away, and add none of them.
    pub fn remove_modifier(mut self, modifier: Modifier) -> Self
        ensures { result ≡ without_modifier modifier self }
    {
        self.add_modifier = self.add_modifier.difference(modifier);
        self.sub_modifier = self.sub_modifier.union(modifier);
        self
    }

    /// Returns whether these modifiers are all added, and not all taken away.
    pub fn has_modifier(self, modifier: Modifier) -> bool
        ensures { result ≡ has_modifier modifier self }
    {
        self.add_modifier.contains(modifier) && !self.sub_modifier.contains(modifier)
    }

    /// Lays `other` over this style: if both say something, `other` counts.
    pub fn patch(mut self, other: Style) -> Self
        ensures { result ≡ patch self other }
    {
        self.fg = other.fg.or(self.fg);
        self.bg = other.bg.or(self.bg);
        self.underline_color = other.underline_color.or(self.underline_color);
        self.add_modifier.remove(other.sub_modifier);
        self.add_modifier.insert(other.add_modifier);
        self.sub_modifier.remove(other.add_modifier);
        self.sub_modifier.insert(other.sub_modifier);
        self
    }
}

/// A foreground.
impl From<Color> for Style {
    ghost from_gives = { λ color style. style ≡ with_fg color new_style };

    fn from(color: Color) -> Style {
        Style::new().fg(color)
    }
}

/// A foreground and a background.
impl From<(Color, Color)> for Style {
    ghost from_gives = { λ pair style. style ≡ with_bg pair.1 (with_fg pair.0 new_style) };

    fn from((fg, bg): (Color, Color)) -> Style {
        Style::new().fg(fg).bg(bg)
    }
}

/// Modifiers to add.
impl From<Modifier> for Style {
    ghost from_gives = { λ modifier style. style ≡ with_modifier modifier new_style };

    fn from(modifier: Modifier) -> Style {
        Style::new().add_modifier(modifier)
    }
}

/// Modifiers to add, and then modifiers to take away.
impl From<(Modifier, Modifier)> for Style {
    ghost from_gives = { λ pair style. style
        ≡ without_modifier pair.1 (with_modifier pair.0 new_style) };

    fn from((add_modifier, sub_modifier): (Modifier, Modifier)) -> Style {
        Style::new()
            .add_modifier(add_modifier)
            .remove_modifier(sub_modifier)
    }
}

/// A foreground and modifiers to add.
impl From<(Color, Modifier)> for Style {
    ghost from_gives = { λ pair style. style ≡ with_modifier pair.1 (with_fg pair.0 new_style) };

    fn from((fg, modifier): (Color, Modifier)) -> Style {
        Style::new().fg(fg).add_modifier(modifier)
    }
}

/// A foreground, a background and modifiers to add.
impl From<(Color, Color, Modifier)> for Style {
    ghost from_gives = { λ all style. style
        ≡ with_modifier all.2 (with_bg all.1 (with_fg all.0 new_style)) };

    fn from((fg, bg, modifier): (Color, Color, Modifier)) -> Style {
        Style::new().fg(fg).bg(bg).add_modifier(modifier)
    }
}

/// A foreground, a background, modifiers to add, and then modifiers to take away.
impl From<(Color, Color, Modifier, Modifier)> for Style {
    ghost from_gives = { λ all style. style
        ≡ without_modifier all.3 (with_modifier all.2 (with_bg all.1 (with_fg all.0 new_style))) };

    fn from((fg, bg, add_modifier, sub_modifier): (Color, Color, Modifier, Modifier)) -> Style {
        Style::new()
            .fg(fg)
            .bg(bg)
            .add_modifier(add_modifier)
            .remove_modifier(sub_modifier)
    }
}
