//! Laws of styles and colours that are no single call's clause, stated over the definitions of
//! `specs/` alone. Calling one of these functions costs nothing and tells the caller's proof its
//! law.

ghost use Rattle.std.specs.Prelude.{◌≡◌, ◌<◌, ◌^◌, Option, Some};
ghost use Rattle.bitflags.specs.Sets.{known_bits};
ghost use Rattle.rtui_style.specs.Color.{color_of, color_text};
ghost use Rattle.rtui_style.specs.Modifier.{bits_of, modifier_table, no_modifier};
ghost use Rattle.rtui_style.specs.Style.{new_style, patch, color_or, color_after, modifier_after};

use crate::{Color, Modifier, Style};

/// The bits of both sets of a style are a number of sixteen bits.
pub fn modifiers_have_sixteen_bits(style: Style)
    ensures added { bits_of style.add_modifier < 2 ^ 16 }
    ensures taken { bits_of style.sub_modifier < 2 ^ 16 }
{}

/// It doesn't matter which two of three layers are joined first.
pub fn patch_is_associative(bottom: Style, middle: Style, top: Style)
    ensures { patch (patch bottom middle) top ≡ patch bottom (patch middle top) }
{
    modifiers_have_sixteen_bits(bottom);
    modifiers_have_sixteen_bits(middle);
    modifiers_have_sixteen_bits(top);
}

/// The new style laid under or over another leaves it.
pub fn new_style_is_identity(style: Style)
    ensures below { patch new_style style ≡ style }
    ensures above { patch style new_style ≡ style }
{
    modifiers_have_sixteen_bits(style);
}

/// A style laid over another makes of a colour and of modifiers what the other and then the one
/// make of them.
pub fn styling_twice_is_patching(first: Style, second: Style)
    ensures colors { (a b : Option Color) (c : Color)
        → color_after b (color_after a c) ≡ color_after (color_or b a) c }
    ensures modifiers { (m : Modifier) → bits_of m < 2 ^ 16
        → modifier_after second (modifier_after first m) ≡ modifier_after (patch first second) m }
{
    modifiers_have_sixteen_bits(first);
    modifiers_have_sixteen_bits(second);
}

/// A printed colour is read as itself.
pub fn printed_color_is_read(color: Color)
    ensures { color_of (color_text color) ≡ Some color }
{
    match color {
        Color::Rgb(red, green, blue) => rgb_is_read(red, green, blue),
        Color::Indexed(index) => index_is_read(index),
        _ => {}
    }
}

fn rgb_is_read(red: u8, green: u8, blue: u8)
    ensures { color_of (color_text (Color.Rgb red green blue)) ≡ Some (Color.Rgb red green blue) }
{}

fn index_is_read(index: u8)
    ensures { color_of (color_text (Color.Indexed index)) ≡ Some (Color.Indexed index) }
{}

/// The constant of all modifiers has the bits of every one of them, and of no other.
pub fn all_has_every_modifier()
    ensures { bits_of Modifier.ALL ≡ known_bits modifier_table }
{}

/// The default colour is the terminal's own, the default set of modifiers has none, and the default
/// style changes nothing.
pub fn defaults_change_nothing()
    ensures color { (c : Color) → ⟦<Color as Default>⟧.is_default c → c ≡ Color.Reset }
    ensures modifier { (m : Modifier) → ⟦<Modifier as Default>⟧.is_default m → m ≡ no_modifier }
    ensures style { (s : Style) → ⟦<Style as Default>⟧.is_default s → s ≡ new_style }
{}
