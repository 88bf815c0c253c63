//! Constraints as a name and its number.

ghost use Rattle.std.specs.Prelude.{OnOk};
ghost use Rattle.ratatui_serde.specs.Events.{SendsAll};
ghost use Rattle.ratatui_serde.specs.Members.{constraint_events, number_events, ratio_events};

use crate::setting::Setting;
use rtui_layout::Constraint;
use serde::{Case, Deserialize, Deserializer, Format, Serializer};
use std::alloc::Global;

// Writes a name with a number: a map of the one member.
fn write_number<S: Serializer>(name: &str, number: u16, out: &mut S) -> Result<(), S::Error>
    ensures { OnOk result
        (SendsAll (number_events name.now number) (S.written out.old) (S.written out.new)) }
{
    out.begin_map(Some(1))?;
    out.variant_key(name, Case::AsIs)?;
    out.u64(u64::from(number))?;
    out.end_map()
}

// Writes a ratio: a map of the one member, whose value is a list of both numbers.
fn write_ratio<S: Serializer>(part: u32, whole: u32, out: &mut S) -> Result<(), S::Error>
    ensures { OnOk result
        (SendsAll (ratio_events part whole) (S.written out.old) (S.written out.new)) }
{
    out.begin_map(Some(1))?;
    out.variant_key("Ratio", Case::AsIs)?;
    out.begin_seq(Some(2))?;
    out.u64(u64::from(part))?;
    out.u64(u64::from(whole))?;
    out.end_seq()?;
    out.end_map()
}

// A constraint as serde reads it.
#[derive(Clone, Copy, Drop, Deserialize)]
enum Read {
    Min(u16),
    Max(u16),
    Length(u16),
    Percentage(u16),
    Ratio(u32, u32),
    Fill(u16),
}

/// The name with its number, `{"Length":3}`; of a ratio both, `{"Ratio":[1,3]}`. What is read is
/// only tested.
impl Setting for Constraint {
    ghost events = { constraint_events };

    fn write<S: Serializer>(&self, out: &mut S) -> Result<(), S::Error> {
        match *self {
            Constraint::Min(n) => write_number("Min", n, out),
            Constraint::Max(n) => write_number("Max", n, out),
            Constraint::Length(n) => write_number("Length", n, out),
            Constraint::Percentage(n) => write_number("Percentage", n, out),
            Constraint::Ratio(part, whole) => write_ratio(part, whole, out),
            Constraint::Fill(n) => write_number("Fill", n, out),
        }
    }

    fn read<F: Format>(
        alloc: Global,
        from: &mut Deserializer<'_, '_, F>,
    ) -> Result<Constraint, F::Error> {
        Ok(match Read::deserialize(alloc, from)? {
            Read::Min(n) => Constraint::Min(n),
            Read::Max(n) => Constraint::Max(n),
            Read::Length(n) => Constraint::Length(n),
            Read::Percentage(n) => Constraint::Percentage(n),
            Read::Ratio(part, whole) => Constraint::Ratio(part, whole),
            Read::Fill(n) => Constraint::Fill(n),
        })
    }
}
