//! Sides and kinds of borders as texts.

ghost use Rattle.std.specs.Prelude.{◌≡◌, [], ◌∷◌, IfOk};
ghost use Rattle.widget_boxes.specs.Borders.{border_table, sides_of};
ghost use Rattle.widget_boxes.specs.Names.{kind_name};
ghost use Rattle.serde.specs.Event.{text, unit_variant};
ghost use Rattle.serde.specs.declared.name.Case.{Case};
ghost use Rattle.ratatui_serde.specs.Events.{ReadsText};
ghost use Rattle.ratatui_serde.specs.Flags.{flags_text, ReadsSides};

use crate::flags::{Words, push_names, push_stray};
use crate::setting::Setting;
use arrayvec::ArrayString;
use bitflags::Flags;
use bitflags::parser::{self, ParseError};
use serde::{Case, Deserializer, Format, Serializer};
use std::alloc::Global;
use std::fmt;
use std::str::FromStr;
use widget_boxes::{BorderType, Borders};

// The names of sides, with bars between.
pub(crate) fn side_words(borders: Borders) -> Result<Words, fmt::Error>
    ensures { IfOk result (λ words. words.bytes ≡ flags_text 8 border_table (sides_of borders)) }
{
    let mut words = ArrayString::new();
    push_names(&mut words, &borders)?;
    push_stray(
        &mut words,
        u16::from(borders.difference(Borders::ALL).bits()),
    )?;
    Ok(words)
}

// The sides that a text names.
pub(crate) fn sides(text: &str) -> Result<Borders, ParseError>
    ensures { IfOk result (λ borders. ReadsSides border_table (sides_of borders) text.now) }
{
    if text == "ALL" {
        return Ok(Borders::ALL);
    }
    parser::from_str::<Borders>(text)
}

/// The names of the sides with bars between, as `bitflags` writes them: `TOP | LEFT`; an empty text
/// for none. `ALL` is read as all four.
impl Setting for Borders {
    ghost events = { λ borders. text (flags_text 8 border_table (sides_of borders)) ∷ [] };

    fn write<S: Serializer>(&self, out: &mut S) -> Result<(), S::Error> {
        match side_words(*self) {
            Ok(words) => out.str(words.as_str()),
            Err(_) => Err(out.custom("sides that are too long")),
        }
    }

    fn read<F: Format>(
        alloc: Global,
        from: &mut Deserializer<'_, '_, F>,
    ) -> Result<Borders, F::Error>
        ensures { IfOk result (λ borders.
            ReadsText F.gives (ReadsSides border_table (sides_of borders)) from.old from.new) }
    {
        let words = from.string(alloc)?;
        match sides(words.as_str()) {
            Ok(borders) => Ok(borders),
            Err(_) => Err(from.custom("no side is so named")),
        }
    }
}

// The name of a kind.
fn kind_word(kind: BorderType) -> &'static str
    ensures { result.now ≡ kind_name kind }
{
    match kind {
        BorderType::Plain => "Plain",
        BorderType::Rounded => "Rounded",
        BorderType::Double => "Double",
        BorderType::Thick => "Thick",
        BorderType::LightDoubleDashed => "LightDoubleDashed",
        BorderType::HeavyDoubleDashed => "HeavyDoubleDashed",
        BorderType::LightTripleDashed => "LightTripleDashed",
        BorderType::HeavyTripleDashed => "HeavyTripleDashed",
        BorderType::LightQuadrupleDashed => "LightQuadrupleDashed",
        BorderType::HeavyQuadrupleDashed => "HeavyQuadrupleDashed",
        BorderType::QuadrantInside => "QuadrantInside",
        BorderType::QuadrantOutside => "QuadrantOutside",
    }
}

/// The kind's name: `Rounded`.
impl Setting for BorderType {
    ghost events = { λ kind. unit_variant (kind_name kind) Case.AsIs ∷ [] };

    fn write<S: Serializer>(&self, out: &mut S) -> Result<(), S::Error> {
        out.str_cased(kind_word(*self), Case::AsIs)
    }

    fn read<F: Format>(
        alloc: Global,
        from: &mut Deserializer<'_, '_, F>,
    ) -> Result<BorderType, F::Error>
        ensures { IfOk result (λ kind.
            ReadsText F.gives (λ word. kind_name kind ≡ word) from.old from.new) }
    {
        let word = from.string(alloc)?;
        match BorderType::from_str(word.as_str()) {
            Ok(kind) => Ok(kind),
            Err(_) => Err(from.unknown_variant()),
        }
    }
}
