//! Styles, member by member.

ghost use Rattle.std.specs.Prelude.{◌≡◌, ◌≤◌, ℕ, List, OnOk};
ghost use Rattle.ratatui_serde.specs.Events.{SendsAll};
ghost use Rattle.ratatui_serde.specs.Members.{color_member, modifier_member, style_events};
ghost use Rattle.ratatui_serde.specs.Members.{member_count, said};

use crate::setting::Setting;
use bitflags::Flags;
use rtui_style::{Color, Modifier, Style};
use serde::{Deserialize, Deserializer, Format, Serializer};
use std::alloc::Global;

// Writes a member if it has a colour.
fn write_color<S: Serializer>(key: &str, color: Option<Color>, out: &mut S) -> Result<(), S::Error>
    ensures { OnOk result
        (SendsAll (color_member key.now color) (S.written out.old) (S.written out.new)) }
{
    if let Some(color) = color {
        out.key(key)?;
        return color.write(out);
    }
    Ok(())
}

// Writes a member if it has modifiers.
fn write_modifier<S: Serializer>(key: &str, modifier: Modifier, out: &mut S) -> Result<(), S::Error>
    ensures { OnOk result
        (SendsAll (modifier_member key.now modifier) (S.written out.old) (S.written out.new)) }
{
    if modifier.bits() == 0 {
        return Ok(());
    }
    out.key(key)?;
    modifier.write(out)
}

// How many members there are.
fn member_count(style: Style) -> usize
    ensures { result ≡ member_count style }
{
    color_count(style.fg)
        + color_count(style.bg)
        + color_count(style.underline_color)
        + modifier_count(style.add_modifier)
        + modifier_count(style.sub_modifier)
}

// One if there is a colour.
fn color_count(color: Option<Color>) -> usize
    ensures value { (key : List ℕ) → result ≡ said (color_member key color) }
    ensures small { result ≤ 1 }
{
    usize::from(color.is_some())
}

// One if there are modifiers.
fn modifier_count(modifier: Modifier) -> usize
    ensures value { (key : List ℕ) → result ≡ said (modifier_member key modifier) }
    ensures small { result ≤ 1 }
{
    usize::from(modifier.bits() != 0)
}

// What is read of a member that may be null.
fn read_option<T: Setting, F: Format>(
    alloc: Global,
    from: &mut Deserializer<'_, '_, F>,
) -> Result<Option<T>, F::Error> {
    if from.take_none()? {
        return Ok(None);
    }
    Ok(Some(T::read(alloc, from)?))
}

// The members of a style as serde reads them.
#[derive(Drop, Deserialize)]
struct Members {
    #[serde(default, deserialize_with = "read_option")]
    fg: Option<Color>,
    #[serde(default, deserialize_with = "read_option")]
    bg: Option<Color>,
    #[serde(default, deserialize_with = "read_option")]
    underline_color: Option<Color>,
    #[serde(default, deserialize_with = "read_option")]
    add_modifier: Option<Modifier>,
    #[serde(default, deserialize_with = "read_option")]
    sub_modifier: Option<Modifier>,
}

/// The members that say something: `fg`, `bg`, `underline_color`, `add_modifier`, `sub_modifier`,
/// in a map. Each may be left out, and stands once; other members are skipped. What is read is only
/// tested.
impl Setting for Style {
    ghost events = { style_events };

    fn write<S: Serializer>(&self, out: &mut S) -> Result<(), S::Error> {
        out.begin_map(Some(member_count(*self)))?;
        write_color("fg", self.fg, out)?;
        write_color("bg", self.bg, out)?;
        write_color("underline_color", self.underline_color, out)?;
        write_modifier("add_modifier", self.add_modifier, out)?;
        write_modifier("sub_modifier", self.sub_modifier, out)?;
        out.end_map()?;
        Ok(())
    }

    fn read<F: Format>(
        alloc: Global,
        from: &mut Deserializer<'_, '_, F>,
    ) -> Result<Style, F::Error> {
        let members = Members::deserialize(alloc, from)?;
        Ok(Style {
            fg: members.fg,
            bg: members.bg,
            underline_color: members.underline_color,
            add_modifier: members.add_modifier.unwrap_or(Modifier::NONE),
            sub_modifier: members.sub_modifier.unwrap_or(Modifier::NONE),
        })
    }
}
