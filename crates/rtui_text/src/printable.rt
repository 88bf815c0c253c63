//! Printable characters of ASCII, which need no search for graphemes and widths.

ghost use Rattle.std.specs.Prelude.{◌≡◌, ◌+◌, ◌<◌, ◌≤◌, ◌++◌, ◌↔◌, ℕ, true, length, take, drop, slice_index};
ghost use Rattle.std.specs.Prelude.{IsTrue};
ghost use Rattle.std.specs.Str.{IsCharBoundary};
ghost use Rattle.unicode_segmentation.specs.Grapheme.{graphemes};
ghost use Rattle.rtui_text.specs.Printable.{IsPrintable, ArePrintable, IsPrintableFront, singles};

/// Returns how many bytes a text begins with, at most `max`, that are printable characters of ASCII
/// and graphemes of their own: a character beyond ASCII may join the one before it, which isn't
/// counted then. Each takes one column.
#[tactic(auto, using(crate::proofs::PrintableLemmas::front_rules))]
pub fn printable_front(text: &str, max: usize) -> usize
    ensures front { IsPrintableFront text.now result }
    ensures max { result ≤ max }
    ensures longest { (n : ℕ) → n ≤ max → IsPrintableFront text.now n → n ≤ result }
    ensures boundary { IsCharBoundary text.now result }
    ensures graphemes { graphemes true text.now
        ≡ singles (take result text.now) ++ graphemes true (drop result text.now) }
{
    front_len(text.as_bytes(), max)
}

// The same, of the bytes alone.
#[tactic(auto, using(crate::proofs::PrintableLemmas::longest_rules))]
fn front_len(bytes: &[u8], max: usize) -> usize
    ensures front { IsPrintableFront bytes.now result }
    ensures max { result ≤ max }
    ensures longest { (n : ℕ) → n ≤ max → IsPrintableFront bytes.now n → n ≤ result }
{
    let len = printable_len(bytes, max);
    if len > 0 && len < bytes.len() && bytes[len] >= 0x80 {
        return len - 1;
    }
    len
}

// Whether a text has nothing but printable characters of ASCII.
pub(crate) fn is_printable_text(text: &str) -> bool
    ensures { IsTrue result ↔ ArePrintable text.now }
{
    let mut all = true;
    for byte in text.as_bytes() {
        all &= is_printable(*byte);
    }
    all
}

// How many printable characters of ASCII a text begins with, at most `max`.
fn printable_len(bytes: &[u8], max: usize) -> usize
    ensures within { result ≤ length bytes.now }
    ensures max { result ≤ max }
    ensures printable { (k : ℕ) → k < result → IsPrintable (slice_index bytes.now k) }
    ensures stops { result < max → result < length bytes.now
        → ¬ (IsPrintable (slice_index bytes.now result)) }
{
    let end = max.min(bytes.len());
    let mut len = 0;
    while len < end && is_printable(bytes[len]) {
        len += 1;
    }
    len
}

fn is_printable(byte: u8) -> bool
    ensures { IsTrue result ↔ IsPrintable byte }
{
    byte >= 0x20 && byte < 0x7F
}
