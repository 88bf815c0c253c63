//! What a text area takes of a text.

ghost use Rattle.std.specs.Prelude.{◌≡◌, ◌++◌, chars, encode_utf8_all, string_bytes};
ghost use Rattle.std.specs.Prelude.{IfOk, OnOk, IsTrue, not, ◌==◌};
ghost use Rattle.std.specs.List.{list_all};
ghost use Rattle.text_area.specs.Typing.{unified_char, loaded_text, may_be_typed, written_text};

use std::alloc::{AllocError, Global};

// Whether a character may be typed.
fn may_be_typed(c: char) -> bool
    ensures { result ≡ may_be_typed c }
{
    !c.is_control() || c == '\n' || c == '\t'
}

// Whether each character of a text may be typed as it is.
fn are_written(text: &str) -> bool
    ensures { result ≡ list_all may_be_typed (chars text.now) }
{
    text.chars().all(|c| may_be_typed(c))
}

// Adds what becomes of a character, after a carriage return or not.
fn push_unified(copy: &mut String, c: char, after: bool) -> Result<(), AllocError>
    ensures { OnOk result
        (string_bytes copy.new ≡ string_bytes copy.old ++ encode_utf8_all (unified_char after c)) }
{
    if c == '\r' {
        copy.push('\n')
    } else if after && c == '\n' {
        Ok(())
    } else {
        copy.push(c)
    }
}

// A text with a line feed for each line break.
pub(crate) fn with_feeds(alloc: Global, text: &str) -> Result<String, AllocError>
    ensures { IfOk result (λ copy. string_bytes copy ≡ loaded_text text.now) }
{
    let mut copy = String::new(alloc);
    let mut after = false;
    for c in text.chars() {
        push_unified(&mut copy, c, after)?;
        after = c == '\r';
    }
    Ok(copy)
}

// Whether a text has no carriage return.
fn has_no_return(text: &str) -> bool
    ensures { result ≡ list_all (λ c. not (c == 13)) (chars text.now) }
{
    text.chars().all(|c| c != '\r')
}

// Whether a text has a line feed for each line break.
#[tactic(auto, using(crate::proofs::TypedLemmas::typed_rules))]
pub(crate) fn is_loaded_whole(text: &str) -> bool
    ensures { IsTrue result → loaded_text text.now ≡ text.now }
{
    has_no_return(text)
}

// Whether a text is typed as it is.
#[tactic(auto, using(crate::proofs::TypedLemmas::typed_rules))]
pub(crate) fn is_written_whole(text: &str) -> bool
    ensures { IsTrue result → written_text text.now ≡ text.now }
{
    are_written(text)
}

// What is typed of a text.
pub(crate) fn written_part(alloc: Global, text: &str) -> Result<String, AllocError>
    ensures { IfOk result (λ part. string_bytes part ≡ written_text text.now) }
{
    let whole = with_feeds(alloc, text)?;
    whole
        .as_str()
        .chars()
        .filter(|c| may_be_typed(*c))
        .collect(alloc)
}

// A text with a line feed for each line break: the same one if it has them.
pub(crate) fn loaded(alloc: Global, text: String) -> Result<String, AllocError>
    ensures { IfOk result (λ whole. string_bytes whole ≡ loaded_text (string_bytes text)) }
{
    if is_loaded_whole(text.as_str()) {
        return Ok(text);
    }
    with_feeds(alloc, text.as_str())
}
