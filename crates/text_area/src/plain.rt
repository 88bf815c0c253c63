//! Printable characters of ASCII at the start of a text, read many bytes at once.

ghost use Rattle.std.specs.Prelude.{◌≡◌, ◌+◌, ◌<◌, ◌≤◌, ◌++◌, ◌↔◌, ℕ, true, length, take, drop};
ghost use Rattle.std.specs.Prelude.{slice_index, IsTrue};
ghost use Rattle.std.specs.Str.{IsCharBoundary};
ghost use Rattle.unicode_segmentation.specs.Grapheme.{graphemes};
ghost use Rattle.rtui_text.specs.Printable.{IsPrintable, ArePrintable, IsPrintableFront, singles};

use crate::runs::{Run, run_end};

// So many bytes, or one less if a character beyond ASCII stands there: it may join the one before.
fn front_of(bytes: &[u8], len: usize) -> usize
    requires within { len ≤ length bytes.now }
    requires printable { (k : ℕ) → k < len → IsPrintable (slice_index bytes.now k) }
    ensures front { IsPrintableFront bytes.now result }
    ensures most { result ≤ len }
{
    if len > 0 && len < bytes.len() && bytes[len] >= 0x80 {
        len - 1
    } else {
        len
    }
}

// How many bytes a text begins with, at most `max`, that are printable characters of ASCII and
// graphemes of their own.
#[tactic(auto, using(crate::proofs::PlainLemmas::front_rules))]
pub(crate) fn plain_front(text: &str, max: usize) -> usize
    ensures front { IsPrintableFront text.now result }
    ensures max { result ≤ max }
    ensures boundary { IsCharBoundary text.now result }
    ensures graphemes { graphemes true text.now
        ≡ singles (take result text.now) ++ graphemes true (drop result text.now) }
{
    let bytes = text.as_bytes();
    let end = max.min(bytes.len());
    front_of(bytes, run_end(&bytes[..end], 0, Run::Printable))
}
