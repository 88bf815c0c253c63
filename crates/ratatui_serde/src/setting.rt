//! What can stand in a file of settings.

ghost use Rattle.std.specs.Prelude.{List, OnOk};
ghost use Rattle.serde.specs.Event.{Event};
ghost use Rattle.ratatui_serde.specs.Events.{SendsAll};

use serde::de::DeserializeOwned;
use serde::{Described, Deserialize, Deserializer, Format, Serialize, Serializer};
use std::alloc::Global;

/// What can stand in a file of settings: it is written to a `Serializer` and read from a
/// `Deserializer`, though its type has no `Serialize` and no `Deserialize`.
pub trait Setting: Copy + Drop {
    // the events that it is written as
    ghost events: { Self → List Event };

    /// Writes it.
    ///
    /// # Errors
    ///
    /// Those of the serializer.
    fn write<S: Serializer>(&self, out: &mut S) -> Result<(), S::Error>
        ensures { OnOk result
            (SendsAll (events self.now) (S.written out.old) (S.written out.new)) };

    /// Reads one.
    ///
    /// # Errors
    ///
    /// Those of the format, and its own if what it reads is none.
    fn read<F: Format>(alloc: Global, from: &mut Deserializer<'_, '_, F>) -> Result<Self, F::Error>;
}

/// A setting that has serde's traits itself, for a list, a map or an option of them.
///
/// ```
/// let widths: Vec<Serde<Constraint>> =
///     serde_json::from_str(alloc, r#"[{"Length":3},{"Fill":1}]"#)?;
/// ```
#[derive(Debug, Default, Clone, Copy, PartialEq, Eq, Hash)]
pub struct Serde<T>(pub T);

impl<T: Setting> Described for Serde<T> {
    ghost writes = { λ setting. SendsAll (T.events setting.0) };
}

impl<T: Setting> Serialize for Serde<T> {
    fn serialize<S: Serializer>(&self, out: &mut S) -> Result<(), S::Error> {
        self.0.write(out)
    }
}

impl<'de, T: Setting> Deserialize<'de> for Serde<T> {
    fn deserialize<F: Format>(
        alloc: Global,
        from: &mut Deserializer<'de, '_, F>,
    ) -> Result<Serde<T>, F::Error> {
        Ok(Serde(T::read(alloc, from)?))
    }
}

impl<T: Setting> DeserializeOwned for Serde<T> {
    fn deserialize_owned<F: Format>(
        alloc: Global,
        from: &mut Deserializer<'_, '_, F>,
    ) -> Result<Serde<T>, F::Error> {
        Ok(Serde(T::read(alloc, from)?))
    }
}

/// Writes a setting: what `#[serde(with = "ratatui_serde")]` calls.
///
/// # Errors
///
/// Those of the serializer.
pub fn serialize<T: Setting, S: Serializer>(value: &T, out: &mut S) -> Result<(), S::Error>
    ensures { OnOk result (SendsAll (T.events value.now) (S.written out.old) (S.written out.new)) }
{
    value.write(out)
}

/// Reads a setting: what `#[serde(with = "ratatui_serde")]` calls.
///
/// # Errors
///
/// Those of the format, and its own if what it reads is no such setting.
pub fn deserialize<T: Setting, F: Format>(
    alloc: Global,
    from: &mut Deserializer<'_, '_, F>,
) -> Result<T, F::Error> {
    T::read(alloc, from)
}
