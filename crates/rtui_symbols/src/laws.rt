//! The rules by which tables are made, each over the whole table.

ghost use Rattle.std.specs.Prelude.{◌≡◌, [], ◌∷◌, map};
ghost use Rattle.std.specs.List.{range_with_len};
ghost use Rattle.rtui_symbols.specs.Pixels.{braille_of, filled, older_octants, older_sextants};
ghost use Rattle.rtui_symbols.specs.Sets.{border_of, border_texts, double_lines, line_texts, normal_lines};
ghost use Rattle.rtui_symbols.specs.Sets.{rounded_lines, scrollbar_texts, thick_lines, with_dashes};
ghost use Rattle.rtui_symbols.specs.declared.line.TheConstants as line_symbol;
ghost use Rattle.rtui_symbols.specs.declared.braille.TheConstants.{BRAILLE};
ghost use Rattle.rtui_symbols.specs.declared.pixel.TheConstants.{OCTANTS, SEXTANTS};

use crate::marker::Marker;
use crate::{border, line, scrollbar};

/// Each Braille pattern has the dots of its place.
pub fn braille_patterns_have_their_dots()
    ensures { BRAILLE ≡ map braille_of (range_with_len 0 256) }
{}

/// The sextants stand in the order of their characters, but for the four older ones.
pub fn sextants_are_in_order()
    ensures { SEXTANTS ≡ filled older_sextants 64 0 0x1fb00 }
{}

/// The octants stand in the order of their characters, but for the older ones.
pub fn octants_are_in_order()
    ensures { OCTANTS ≡ filled older_octants 256 0 0x1cd00 }
{}

/// Returns the set of normal lines, and the border that is made of it.
pub fn plain_border() -> (line::Set<'static>, border::Set<'static>)
    ensures lines { line_texts result.0 ≡ normal_lines }
    ensures border { border_texts result.1 ≡ border_of result.0 }
{
    (line::NORMAL, border::PLAIN)
}

/// Returns the set of rounded lines, and the border that is made of it.
pub fn rounded_border() -> (line::Set<'static>, border::Set<'static>)
    ensures lines { line_texts result.0 ≡ rounded_lines }
    ensures border { border_texts result.1 ≡ border_of result.0 }
{
    (line::ROUNDED, border::ROUNDED)
}

/// Returns the set of double lines, and the border that is made of it.
pub fn double_border() -> (line::Set<'static>, border::Set<'static>)
    ensures lines { line_texts result.0 ≡ double_lines }
    ensures border { border_texts result.1 ≡ border_of result.0 }
{
    (line::DOUBLE, border::DOUBLE)
}

/// Returns the set of thick lines, and the border that is made of it.
pub fn thick_border() -> (line::Set<'static>, border::Set<'static>)
    ensures lines { line_texts result.0 ≡ thick_lines }
    ensures border { border_texts result.1 ≡ border_of result.0 }
{
    (line::THICK, border::THICK)
}

/// Returns the set of light double dashed lines, and the border that is made of it.
pub fn light_double_dashed_border() -> (line::Set<'static>, border::Set<'static>)
    ensures lines { line_texts result.0
        ≡ with_dashes line_symbol.LIGHT_DOUBLE_DASH_VERTICAL.now
        line_symbol.LIGHT_DOUBLE_DASH_HORIZONTAL.now normal_lines }
    ensures border { border_texts result.1 ≡ border_of result.0 }
{
    (line::LIGHT_DOUBLE_DASHED, border::LIGHT_DOUBLE_DASHED)
}

/// Returns the set of heavy double dashed lines, and the border that is made of it.
pub fn heavy_double_dashed_border() -> (line::Set<'static>, border::Set<'static>)
    ensures lines { line_texts result.0
        ≡ with_dashes line_symbol.HEAVY_DOUBLE_DASH_VERTICAL.now
        line_symbol.HEAVY_DOUBLE_DASH_HORIZONTAL.now thick_lines }
    ensures border { border_texts result.1 ≡ border_of result.0 }
{
    (line::HEAVY_DOUBLE_DASHED, border::HEAVY_DOUBLE_DASHED)
}

/// Returns the set of light triple dashed lines, and the border that is made of it.
pub fn light_triple_dashed_border() -> (line::Set<'static>, border::Set<'static>)
    ensures lines { line_texts result.0
        ≡ with_dashes line_symbol.LIGHT_TRIPLE_DASH_VERTICAL.now
        line_symbol.LIGHT_TRIPLE_DASH_HORIZONTAL.now normal_lines }
    ensures border { border_texts result.1 ≡ border_of result.0 }
{
    (line::LIGHT_TRIPLE_DASHED, border::LIGHT_TRIPLE_DASHED)
}

/// Returns the set of heavy triple dashed lines, and the border that is made of it.
pub fn heavy_triple_dashed_border() -> (line::Set<'static>, border::Set<'static>)
    ensures lines { line_texts result.0
        ≡ with_dashes line_symbol.HEAVY_TRIPLE_DASH_VERTICAL.now
        line_symbol.HEAVY_TRIPLE_DASH_HORIZONTAL.now thick_lines }
    ensures border { border_texts result.1 ≡ border_of result.0 }
{
    (line::HEAVY_TRIPLE_DASHED, border::HEAVY_TRIPLE_DASHED)
}

/// Returns the set of light quadruple dashed lines, and the border that is made of it.
pub fn light_quadruple_dashed_border() -> (line::Set<'static>, border::Set<'static>)
    ensures lines { line_texts result.0
        ≡ with_dashes line_symbol.LIGHT_QUADRUPLE_DASH_VERTICAL.now
        line_symbol.LIGHT_QUADRUPLE_DASH_HORIZONTAL.now normal_lines }
    ensures border { border_texts result.1 ≡ border_of result.0 }
{
    (line::LIGHT_QUADRUPLE_DASHED, border::LIGHT_QUADRUPLE_DASHED)
}

/// Returns the set of heavy quadruple dashed lines, and the border that is made of it.
pub fn heavy_quadruple_dashed_border() -> (line::Set<'static>, border::Set<'static>)
    ensures lines { line_texts result.0
        ≡ with_dashes line_symbol.HEAVY_QUADRUPLE_DASH_VERTICAL.now
        line_symbol.HEAVY_QUADRUPLE_DASH_HORIZONTAL.now thick_lines }
    ensures border { border_texts result.1 ≡ border_of result.0 }
{
    (line::HEAVY_QUADRUPLE_DASHED, border::HEAVY_QUADRUPLE_DASHED)
}

/// The default marker is a dot.
pub fn default_marker()
    ensures { (m : Marker) → ⟦<Marker as Default>⟧.is_default m → m ≡ Marker.Dot }
{}

/// The default scroll bar has no symbols.
pub fn default_scrollbar()
    ensures { (s : _) → ⟦<scrollbar::Set<'static> as Default>⟧.is_default s
        → scrollbar_texts s ≡ [] ∷ [] ∷ [] ∷ [] ∷ [] }
{}
