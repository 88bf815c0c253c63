//! What a field takes of a text.

ghost use Rattle.std.specs.Prelude.{◌≡◌, ◌≤◌, ℕ, List, Option, length, take, filter, chars};
ghost use Rattle.std.specs.Prelude.{encode_utf8_all};
ghost use Rattle.std.specs.Prelude.{IsTrue, IfOk, string_bytes};
ghost use Rattle.std.specs.List.{list_all};
ghost use Rattle.text_field.specs.Field.{is_typed, allowed};
ghost use Rattle.text_field.specs.Inner.{typed_front};

use std::alloc::{AllocError, Global};

// How many characters a text has.
fn char_count(text: &str) -> usize
    ensures { result ≡ length (chars text.now) }
{
    text.chars().count()
}

// Whether a text has no control character.
fn has_no_control(text: &str) -> bool
    ensures { result ≡ list_all is_typed (chars text.now) }
{
    text.chars().all(|c| !c.is_control())
}

// How many of at most so many characters a limit allows beside those of a text.
pub(crate) fn room_beside(text: &str, limit: Option<usize>, most: usize) -> usize
    ensures { (cs : List ℕ) → length cs ≤ most
        → allowed limit (length (chars text.now)) cs ≡ take result cs }
{
    match limit {
        None => most,
        Some(limit) => limit.saturating_sub(char_count(text)),
    }
}

// Whether a text is taken as it is.
pub(crate) fn is_typed_whole(text: &str, room: usize) -> bool
    ensures { IsTrue result → typed_front room text.now ≡ text.now }
{
    char_count(text) <= room && has_no_control(text)
}

// What is taken of a text.
pub(crate) fn typed_part(alloc: Global, text: &str, room: usize) -> Result<String, AllocError>
    ensures { IfOk result (λ part. string_bytes part ≡ typed_front room text.now) }
{
    text.chars()
        .filter(|c| !c.is_control())
        .take(room)
        .collect(alloc)
}
