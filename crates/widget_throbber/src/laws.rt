//! Laws of throbbers that are no single call's clause.

ghost use Rattle.std.specs.Prelude.{◌≡◌, ℕ, ℤ, pos, ◌+ℤ◌, ◌-ℤ◌, ◌+◌, ◌<◌, ◌%◌, map};
ghost use Rattle.std.specs.List.{flat_map};
ghost use Rattle.ratatui_core.specs.Layout.{Rect};
ghost use Rattle.ratatui_core.specs.Buffer.{BufferData, IsPlainFrom};
ghost use Rattle.ratatui_core.specs.Symbols.{AreNarrowTexts};
ghost use Rattle.widget_throbber.specs.declared.state.ThrobberState.{ThrobberState};
ghost use Rattle.widget_throbber.specs.declared.throbber.Throbber.{Throbber};
ghost use Rattle.widget_throbber.specs.Sets.{symbol_number, texts_of_set, named_sets};
ghost use Rattle.widget_throbber.specs.Throbbers.{HasNarrowThrobber, RendersThrobber};

use crate::set::{ARROW, ASCII, BOX_DRAWING, BRAILLE_EIGHT, BRAILLE_SIX, Set};
use ratatui_core::buffer::laws::printable_graphemes_take_one_column;

/// So many steps on are so many symbols further, and after the last one comes the first; as many
/// steps as there are symbols lead to the same one.
pub fn steps_go_around()
    ensures further { (i : ℤ) (n k : ℕ) → 0 < n
        → symbol_number (i +ℤ pos k) n ≡ (symbol_number i n + k) % n }
    ensures back { (i : ℤ) (n k : ℕ) → 0 < n
        → (symbol_number (i -ℤ pos k) n + k) % n ≡ symbol_number i n }
    ensures around { (i : ℤ) (n : ℕ) → 0 < n → symbol_number (i +ℤ pos n) n ≡ symbol_number i n }
    ensures among { (i : ℤ) (n : ℕ) → 0 < n → symbol_number i n < n }
{}

/// Returns the named sets: each symbol takes at most one column, and no memory in a cell.
pub fn sets_are_narrow() -> [Set; 5]
    ensures sets { map texts_of_set result ≡ named_sets }
    ensures narrow { AreNarrowTexts (flat_map texts_of_set result) }
{
    [ASCII, BOX_DRAWING, ARROW, BRAILLE_SIX, BRAILLE_EIGHT]
}

/// A throbber whose texts take one column for each grapheme leaves a buffer of plain cells one of
/// plain cells; so a screen can show it.
pub fn throbbers_keep_cells_plain()
    ensures { (t : Throbber) (s s' : ThrobberState) (area : Rect) (old new : BufferData)
        → HasNarrowThrobber t → IsPlainFrom 0 old → RendersThrobber t s s' area old new
        → IsPlainFrom 0 new }
{
    printable_graphemes_take_one_column();
}
