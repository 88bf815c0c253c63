//! Texts into which something is put, and of which something is taken.

ghost use Rattle.std.specs.Prelude.{◌≡◌, ◌≤◌, take, drop, OnOk, IfOk, OnErr, string_bytes};
ghost use Rattle.std.specs.Str.{IsCharBoundary};
ghost use Rattle.text_field.specs.Field.{kept_of};
ghost use Rattle.text_field.specs.Inner.{IsPutIn};

use std::alloc::AllocError;

// Puts a piece into a text; answers the place after it.
pub(crate) fn insert_at(text: &mut String, at: usize, piece: &str) -> Result<usize, AllocError>
    requires { IsCharBoundary (string_bytes text.old) at }
    ensures ok { IfOk result
        (IsPutIn at piece.now (string_bytes text.old) (string_bytes text.new)) }
    ensures err { OnErr result (string_bytes text.new ≡ string_bytes text.old) }
{
    let behind = text.len() - at;
    text.insert_str(at, piece)?;
    Ok(text.len() - behind)
}

// Takes the part between two places out of a text.
pub(crate) fn remove_between(text: &mut String, from: usize, to: usize)
    requires order { from ≤ to }
    requires start { IsCharBoundary (string_bytes text.old) from }
    requires end { IsCharBoundary (string_bytes text.old) to }
    ensures front { take from (string_bytes text.new) ≡ take from (string_bytes text.old) }
    ensures back { drop from (string_bytes text.new) ≡ drop to (string_bytes text.old) }
    ensures boundary { IsCharBoundary (string_bytes text.new) from }
{
    match text.replace_range(from..to, "") {
        Ok(()) => {}
        Err(_) => unreachable!(),
    }
}

// Puts a piece in place of a whole text.
pub(crate) fn replace_text(text: &mut String, piece: &str) -> Result<(), AllocError>
    ensures ok { OnOk result (string_bytes text.new ≡ piece.now) }
    ensures err { OnErr result (string_bytes text.new ≡ string_bytes text.old) }
{
    text.reserve(piece.len())?;
    text.clear();
    match text.push_str(piece) {
        Ok(()) => Ok(()),
        Err(_) => unreachable!(),
    }
}

// Keeps a part that is killed; nothing is no part.
pub(crate) fn keep(killed: &mut String, part: &str) -> Result<(), AllocError>
    ensures ok { let kept = kept_of part.now (string_bytes killed.old) in
        OnOk result (string_bytes killed.new ≡ kept) }
    ensures err { OnErr result (string_bytes killed.new ≡ string_bytes killed.old) }
{
    if part.is_empty() {
        return Ok(());
    }
    replace_text(killed, part)
}
