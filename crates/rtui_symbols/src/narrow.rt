//! The sets of symbols: each symbol takes at most one column, and no memory in a cell.

ghost use Rattle.std.specs.Prelude.{◌≡◌, map};
ghost use Rattle.rtui_symbols.specs.Sets.{bar_levels, block_levels, normal_lines, plain_border};
ghost use Rattle.rtui_symbols.specs.Sets.{border_texts, border_sets, line_texts, line_sets};
ghost use Rattle.rtui_symbols.specs.Sets.{scrollbar_texts, scrollbar_sets};
ghost use Rattle.std.specs.List.{flat_map};
ghost use Rattle.rtui_cell.specs.Narrow.{AreNarrowTexts};

use crate::{border, line, scrollbar};

/// The symbols of each filling, of bars and of blocks, and those of plain lines and borders are
/// narrow.
pub fn symbols_are_narrow()
    ensures bars { AreNarrowTexts bar_levels }
    ensures blocks { AreNarrowTexts block_levels }
    ensures border { AreNarrowTexts plain_border }
    ensures lines { AreNarrowTexts normal_lines }
{}

// The sets of borders.
static BORDERS: [border::Set<'static>; 18] = [
    border::PLAIN,
    border::ROUNDED,
    border::DOUBLE,
    border::THICK,
    border::LIGHT_DOUBLE_DASHED,
    border::HEAVY_DOUBLE_DASHED,
    border::LIGHT_TRIPLE_DASHED,
    border::HEAVY_TRIPLE_DASHED,
    border::LIGHT_QUADRUPLE_DASHED,
    border::HEAVY_QUADRUPLE_DASHED,
    border::QUADRANT_OUTSIDE,
    border::QUADRANT_INSIDE,
    border::ONE_EIGHTH_WIDE,
    border::ONE_EIGHTH_TALL,
    border::PROPORTIONAL_WIDE,
    border::PROPORTIONAL_TALL,
    border::FULL,
    border::EMPTY,
];

/// Returns the sets of borders: each symbol is narrow.
pub fn borders() -> &'static [border::Set<'static>; 18]
    ensures sets { map border_texts result.now ≡ border_sets }
    ensures narrow { AreNarrowTexts (flat_map border_texts result.now) }
{
    &BORDERS
}

// The sets of lines.
static LINES: [line::Set<'static>; 10] = [
    line::NORMAL,
    line::ROUNDED,
    line::DOUBLE,
    line::THICK,
    line::LIGHT_DOUBLE_DASHED,
    line::HEAVY_DOUBLE_DASHED,
    line::LIGHT_TRIPLE_DASHED,
    line::HEAVY_TRIPLE_DASHED,
    line::LIGHT_QUADRUPLE_DASHED,
    line::HEAVY_QUADRUPLE_DASHED,
];

/// Returns the sets of lines: each symbol is narrow.
pub fn lines() -> &'static [line::Set<'static>; 10]
    ensures sets { map line_texts result.now ≡ line_sets }
    ensures narrow { AreNarrowTexts (flat_map line_texts result.now) }
{
    &LINES
}

// The sets of scrollbars.
static SCROLLBARS: [scrollbar::Set<'static>; 4] = [
    scrollbar::DOUBLE_VERTICAL,
    scrollbar::DOUBLE_HORIZONTAL,
    scrollbar::VERTICAL,
    scrollbar::HORIZONTAL,
];

/// Returns the sets of scrollbars: each symbol is narrow.
pub fn scrollbars() -> &'static [scrollbar::Set<'static>; 4]
    ensures sets { map scrollbar_texts result.now ≡ scrollbar_sets }
    ensures narrow { AreNarrowTexts (flat_map scrollbar_texts result.now) }
{
    &SCROLLBARS
}
