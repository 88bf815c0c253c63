//! Colours and modifiers as texts.

ghost use Rattle.std.specs.Prelude.{◌≡◌, [], ◌∷◌, IfOk, Some};
ghost use Rattle.rtui_style.specs.Color.{color_of, color_text};
ghost use Rattle.rtui_style.specs.Modifier.{bits_of, modifier_table};
ghost use Rattle.serde.specs.Event.{text};
ghost use Rattle.ratatui_serde.specs.Events.{ReadsText};
ghost use Rattle.ratatui_serde.specs.Flags.{flags_text, ReadsFlags};

use crate::flags::{Words, push_names, push_stray};
use crate::setting::Setting;
use arrayvec::ArrayString;
use bitflags::{Flags, parser};
use rtui_style::{Color, Modifier};
use serde::{Deserializer, Format, Serializer};
use std::alloc::Global;
use std::fmt::{self, Write};
use std::str::FromStr;

// What a colour prints.
fn color_word(color: Color) -> Result<ArrayString<12>, fmt::Error>
    ensures { IfOk result (λ word. word.bytes ≡ color_text color) }
{
    let mut word = ArrayString::new();
    write!(word, "{color}")?;
    Ok(word)
}

/// The variant's name, `#RRGGBB`, or the index in decimal, as a text. Whatever
/// `Color::from_str` reads is read: `light-red`, `#ff0000`, `42`.
impl Setting for Color {
    ghost events = { λ color. text (color_text color) ∷ [] };

    fn write<S: Serializer>(&self, out: &mut S) -> Result<(), S::Error> {
        match color_word(*self) {
            Ok(word) => out.str(word.as_str()),
            Err(_) => Err(out.custom("a colour that is too long")),
        }
    }

    fn read<F: Format>(alloc: Global, from: &mut Deserializer<'_, '_, F>) -> Result<Color, F::Error>
        ensures { IfOk result (λ color.
            ReadsText F.gives (λ word. color_of word ≡ Some color) from.old from.new) }
    {
        let word = from.string(alloc)?;
        match Color::from_str(word.as_str()) {
            Ok(color) => Ok(color),
            Err(_) => Err(from.custom("no colour is so named")),
        }
    }
}

// The names of modifiers, with bars between.
pub(crate) fn modifier_words(modifier: Modifier) -> Result<Words, fmt::Error>
    ensures { IfOk result (λ words. words.bytes ≡ flags_text 16 modifier_table (bits_of modifier)) }
{
    let mut words = ArrayString::new();
    push_names(&mut words, &modifier)?;
    push_stray(&mut words, modifier.difference(Modifier::ALL).bits())?;
    Ok(words)
}

/// The names of the modifiers with bars between, as `bitflags` writes them: `BOLD | ITALIC`; an
/// empty text for none.
impl Setting for Modifier {
    ghost events = { λ modifier. text (flags_text 16 modifier_table (bits_of modifier)) ∷ [] };

    fn write<S: Serializer>(&self, out: &mut S) -> Result<(), S::Error> {
        match modifier_words(*self) {
            Ok(words) => out.str(words.as_str()),
            Err(_) => Err(out.custom("modifiers that are too long")),
        }
    }

    fn read<F: Format>(
        alloc: Global,
        from: &mut Deserializer<'_, '_, F>,
    ) -> Result<Modifier, F::Error>
        ensures { IfOk result (λ modifier. ReadsText F.gives
            (ReadsFlags 16 modifier_table (bits_of modifier)) from.old from.new) }
    {
        let words = from.string(alloc)?;
        match parser::from_str::<Modifier>(words.as_str()) {
            Ok(modifier) => Ok(modifier),
            Err(_) => Err(from.custom("no modifier is so named")),
        }
    }
}
