//! Laws of cells that are no single call's clause, stated over the definitions of `specs/` alone.
//! Calling one of these functions costs nothing and tells the caller's proof its law.

ghost use Rattle.std.specs.Prelude.{◌≡◌, ◌≢◌, ℕ, ◌+◌, ◌++◌, ◌↔◌, List, length, min, count_by, chars, IsTrue};
ghost use Rattle.std.specs.Hash as fed;
ghost use Rattle.rtui_style.specs.Style.{patch};
ghost use Rattle.rtui_merge.specs.Merge.{merged};
ghost use Rattle.rtui_merge.specs.declared.MergeStrategy.{MergeStrategy};
ghost use Rattle.rtui_cell.specs.Symbol.{symbol_text, IsShort};
ghost use Rattle.rtui_cell.specs.Narrow.{IsNarrow};
ghost use Rattle.rtui_cell.specs.Cell.{styled};
ghost use Rattle.rtui_cell.specs.Width.{text_width, text_columns, is_sound_mark};
ghost use Rattle.rtui_cell.specs.Equality.{is_same, IsEqual};

use crate::cell::{Cell, CellDiffOption};
use rtui_style::laws::{modifiers_have_sixteen_bits, styling_twice_is_patching};
use rtui_style::{Color, Modifier, Style};
use std::hash::Hash;

/// Two cells are equal if their looks, options and flags are, and only then.
pub fn equality_is_by_looks()
    ensures { (a b : Cell) → IsTrue (is_same a b) ↔ IsEqual a b }
{}

/// Equal cells feed a hasher equally: each field in turn, an unset symbol as a blank.
pub fn hashing_names_every_field()
    ensures alike { (a b : Cell) → IsTrue (is_same a b)
        → ⟦<Cell as Hash>⟧.hash_input a ≡ ⟦<Cell as Hash>⟧.hash_input b }
    ensures fields { (c : Cell) → ⟦<Cell as Hash>⟧.hash_input c
        ≡ ⟦<Color as Hash>⟧.hash_input c.fg
        ++ (⟦<Color as Hash>⟧.hash_input c.bg
        ++ (⟦<Color as Hash>⟧.hash_input c.underline_color
        ++ (⟦<Modifier as Hash>⟧.hash_input c.modifier
        ++ (⟦<CellDiffOption as Hash>⟧.hash_input c.diff_option
        ++ (fed.bool c.skip
        ++ fed.str (symbol_text c.symbol)))))) }
{}

/// By default a diff treats a cell by its contents.
pub fn default_option_is_none()
    ensures { (option : CellDiffOption) → ⟦<CellDiffOption as Default>⟧.is_default option
        → option ≡ CellDiffOption.None }
{}

/// Setting one style and then another is setting the second laid over the first.
pub fn set_style_twice_sets_patch(cell: &Cell, first: Style, second: Style)
    ensures { styled second (styled first cell.now) ≡ styled (patch first second) cell.now }
{
    modifiers_have_sixteen_bits(cell.style());
    styling_twice_is_patching(first, second);
}

/// A text of more than one byte takes its columns in a line, and one more for each half-width sound
/// mark, at most 65535.
pub fn width_is_columns_and_sound_marks()
    ensures { (text : List ℕ) → length text ≢ 1 → text_width text
        ≡ min (text_columns text + count_by is_sound_mark (chars text)) 65535 }
{}

/// What is joined of narrow symbols is narrow, by each strategy.
pub fn joined_symbols_are_narrow()
    ensures { (m : MergeStrategy) (prev next : List ℕ) → IsNarrow prev → IsNarrow next
        → IsNarrow (merged m prev next) }
{}

/// What is joined of symbols that take no memory takes none, by each strategy.
pub fn joined_symbols_are_short()
    ensures { (m : MergeStrategy) (prev next : List ℕ) → IsShort prev → IsShort next
        → IsShort (merged m prev next) }
{}
