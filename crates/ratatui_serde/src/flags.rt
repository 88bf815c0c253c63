//! Sets of flags as texts: the names of those that are set, with bars between.

ghost use Rattle.std.specs.Prelude.{◌≡◌, [], ◌∷◌, ◌++◌, false, OnOk};
ghost use Rattle.std.specs.Fmt.{digits};
ghost use Rattle.ratatui_serde.specs.Flags.{with_part, with_names, with_stray};

use arrayvec::ArrayString;
use bitflags::{Flag, Flags};
use std::fmt::{self, Write};

// Room for the text of any set.
pub(crate) type Words = ArrayString<128>;

// Writes one more part, after a bar if something stands already.
fn push_part(text: &mut Words, part: &str) -> fmt::Result
    ensures { OnOk result (text.new.bytes ≡ with_part text.old.bytes part.now) }
{
    if !text.is_empty() {
        text.write_str(" | ")?;
    }
    text.write_str(part)
}

// Writes the name of a flag if a set has it.
fn push_flag<B: Flags>(text: &mut Words, set: &B, flag: &Flag<B>) -> fmt::Result
    ensures { B.exact → OnOk result (text.new.bytes
        ≡ with_names text.old.bytes ((flag.now.name.now, B.set_of flag.now.value) ∷ [])
        (B.set_of set.now)) }
{
    if set.contains(B::from_bits_retain(flag.value().bits())) {
        return push_part(text, flag.name());
    }
    Ok(())
}

// Writes the names of the flags that a set has, in the order of their table.
pub(crate) fn push_names<B: Flags>(text: &mut Words, set: &B) -> fmt::Result
    ensures { B.exact → OnOk result
        (text.new.bytes ≡ with_names text.old.bytes B.table (B.set_of set.now)) }
{
    let flags = B::flags();
    for i in 0..flags.len() {
        push_flag(text, set, &flags[i])?;
    }
    Ok(())
}

// Writes a number in hexadecimal digits.
fn push_hex(text: &mut Words, number: u16) -> fmt::Result
    ensures { OnOk result (text.new.bytes ≡ text.old.bytes ++ digits 16 false number) }
{
    write!(text, "{number:x}")?;
    Ok(())
}

// Writes bits that no flag has, as a hexadecimal number.
pub(crate) fn push_stray(text: &mut Words, bits: u16) -> fmt::Result
    ensures { OnOk result (text.new.bytes ≡ with_stray text.old.bytes bits) }
{
    if bits == 0 {
        return Ok(());
    }
    push_part(text, "0x")?;
    push_hex(text, bits)?;
    Ok(())
}
