//! Texts that nobody is to read.

ghost use Rattle.std.specs.Prelude.{◌≡◌, IfOk, string_bytes, Some};
ghost use Rattle.widget_field.specs.Fields.{masked};

use std::alloc::{AllocError, Global};
use unicode_segmentation::UnicodeSegmentation;

// A text with a mask in place of each grapheme.
#[tactic(auto, using(crate::proofs::MaskLemmas::mask_rules))]
pub(crate) fn masked(alloc: Global, text: &str, mask: char) -> Result<String, AllocError>
    ensures { IfOk result (λ shown. string_bytes shown ≡ masked (Some mask) text.now) }
{
    let mut shown = String::new(alloc);
    let mut left = text.graphemes(true);
    'walk: while let Some(_grapheme) = left.next() {
        shown.push(mask)?;
    }
    Ok(shown)
}
