ghost use Rattle.std.specs.Prelude.{◌≡◌, ◌*◌, ◌≤◌, length, count_by, chars};
ghost use Rattle.rtui_cell.specs.Width.{text_columns, is_sound_mark};

use crate::printable::is_printable_text;
use unicode_width::UnicodeWidthStr;

/// Returns how many columns a text takes in a line: its Unicode width less the half-width katakana
/// sound marks.
#[tactic(auto, using(crate::proofs::PrintableLemmas::columns_rules))]
pub fn text_columns(text: &str) -> usize
    ensures value { result ≡ text_columns text.now }
    ensures bound { result ≤ 2 * length text.now }
{
    if is_printable_text(text) {
        return text.len();
    }
    text.width().saturating_sub(sound_marks(text))
}

// How many half-width katakana sound marks a text has.
fn sound_marks(text: &str) -> usize
    ensures { result ≡ count_by is_sound_mark (chars text.now) }
{
    text.chars()
        .filter(|c| *c == '\u{FF9E}' || *c == '\u{FF9F}')
        .count()
}
