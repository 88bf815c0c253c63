//! Borders of a box.

use crate::{block, line};

/// Quadrant top left.
pub const QUADRANT_TOP_LEFT: &str = "▘";

/// Quadrant top right.
pub const QUADRANT_TOP_RIGHT: &str = "▝";

/// Quadrant bottom left.
pub const QUADRANT_BOTTOM_LEFT: &str = "▖";

/// Quadrant bottom right.
pub const QUADRANT_BOTTOM_RIGHT: &str = "▗";

/// Quadrant top half.
pub const QUADRANT_TOP_HALF: &str = "▀";

/// Quadrant bottom half.
pub const QUADRANT_BOTTOM_HALF: &str = "▄";

/// Quadrant left half.
pub const QUADRANT_LEFT_HALF: &str = "▌";

/// Quadrant right half.
pub const QUADRANT_RIGHT_HALF: &str = "▐";

/// Quadrant top left bottom left bottom right.
pub const QUADRANT_TOP_LEFT_BOTTOM_LEFT_BOTTOM_RIGHT: &str = "▙";

/// Quadrant top left top right bottom left.
pub const QUADRANT_TOP_LEFT_TOP_RIGHT_BOTTOM_LEFT: &str = "▛";

/// Quadrant top left top right bottom right.
pub const QUADRANT_TOP_LEFT_TOP_RIGHT_BOTTOM_RIGHT: &str = "▜";

/// Quadrant top right bottom left bottom right.
pub const QUADRANT_TOP_RIGHT_BOTTOM_LEFT_BOTTOM_RIGHT: &str = "▟";

/// Quadrant top left bottom right.
pub const QUADRANT_TOP_LEFT_BOTTOM_RIGHT: &str = "▚";

/// Quadrant top right bottom left.
pub const QUADRANT_TOP_RIGHT_BOTTOM_LEFT: &str = "▞";

/// Quadrant block.
pub const QUADRANT_BLOCK: &str = "█";

/// One eighth top eight.
pub const ONE_EIGHTH_TOP_EIGHT: &str = "▔";

/// One eighth bottom eight.
pub const ONE_EIGHTH_BOTTOM_EIGHT: &str = "▁";

/// One eighth left eight.
pub const ONE_EIGHTH_LEFT_EIGHT: &str = "▏";

/// One eighth right eight.
pub const ONE_EIGHTH_RIGHT_EIGHT: &str = "▕";

/// The corners and the sides of a box.
///
/// ```
/// border::DOUBLE.top_left; // "╔"
/// let round = border::Set { top_left: line::ROUNDED_TOP_LEFT, ..border::PLAIN };
/// ```
#[derive(Debug, Clone, Copy, PartialEq, Eq, Hash)]
pub struct Set<'a> {
    pub top_left: &'a str,
    pub top_right: &'a str,
    pub bottom_left: &'a str,
    pub bottom_right: &'a str,
    pub vertical_left: &'a str,
    pub vertical_right: &'a str,
    pub horizontal_top: &'a str,
    pub horizontal_bottom: &'a str,
}

impl Default for Set<'_> {
    ghost use Rattle.std.specs.Prelude.{◌≡◌};
    ghost use Rattle.rtui_symbols.specs.Sets.{border_texts, plain_border};

    ghost is_default = { λ set. border_texts set ≡ plain_border };

    fn default() -> Self {
        PLAIN
    }
}

/// Plain lines.
pub const PLAIN: Set = Set {
    top_left: line::TOP_LEFT,
    top_right: line::TOP_RIGHT,
    bottom_left: line::BOTTOM_LEFT,
    bottom_right: line::BOTTOM_RIGHT,
    vertical_left: line::VERTICAL,
    vertical_right: line::VERTICAL,
    horizontal_top: line::HORIZONTAL,
    horizontal_bottom: line::HORIZONTAL,
};

/// Plain lines with rounded corners.
pub const ROUNDED: Set = Set {
    top_left: line::ROUNDED_TOP_LEFT,
    top_right: line::ROUNDED_TOP_RIGHT,
    bottom_left: line::ROUNDED_BOTTOM_LEFT,
    bottom_right: line::ROUNDED_BOTTOM_RIGHT,
    vertical_left: line::VERTICAL,
    vertical_right: line::VERTICAL,
    horizontal_top: line::HORIZONTAL,
    horizontal_bottom: line::HORIZONTAL,
};

/// Double lines.
pub const DOUBLE: Set = Set {
    top_left: line::DOUBLE_TOP_LEFT,
    top_right: line::DOUBLE_TOP_RIGHT,
    bottom_left: line::DOUBLE_BOTTOM_LEFT,
    bottom_right: line::DOUBLE_BOTTOM_RIGHT,
    vertical_left: line::DOUBLE_VERTICAL,
    vertical_right: line::DOUBLE_VERTICAL,
    horizontal_top: line::DOUBLE_HORIZONTAL,
    horizontal_bottom: line::DOUBLE_HORIZONTAL,
};

/// Thick lines.
pub const THICK: Set = Set {
    top_left: line::THICK_TOP_LEFT,
    top_right: line::THICK_TOP_RIGHT,
    bottom_left: line::THICK_BOTTOM_LEFT,
    bottom_right: line::THICK_BOTTOM_RIGHT,
    vertical_left: line::THICK_VERTICAL,
    vertical_right: line::THICK_VERTICAL,
    horizontal_top: line::THICK_HORIZONTAL,
    horizontal_bottom: line::THICK_HORIZONTAL,
};

/// Plain lines of two dashes.
pub const LIGHT_DOUBLE_DASHED: Set = Set {
    top_left: line::TOP_LEFT,
    top_right: line::TOP_RIGHT,
    bottom_left: line::BOTTOM_LEFT,
    bottom_right: line::BOTTOM_RIGHT,
    vertical_left: line::LIGHT_DOUBLE_DASH_VERTICAL,
    vertical_right: line::LIGHT_DOUBLE_DASH_VERTICAL,
    horizontal_top: line::LIGHT_DOUBLE_DASH_HORIZONTAL,
    horizontal_bottom: line::LIGHT_DOUBLE_DASH_HORIZONTAL,
};

/// Thick lines of two dashes.
pub const HEAVY_DOUBLE_DASHED: Set = Set {
    top_left: line::THICK_TOP_LEFT,
    top_right: line::THICK_TOP_RIGHT,
    bottom_left: line::THICK_BOTTOM_LEFT,
    bottom_right: line::THICK_BOTTOM_RIGHT,
    vertical_left: line::HEAVY_DOUBLE_DASH_VERTICAL,
    vertical_right: line::HEAVY_DOUBLE_DASH_VERTICAL,
    horizontal_top: line::HEAVY_DOUBLE_DASH_HORIZONTAL,
    horizontal_bottom: line::HEAVY_DOUBLE_DASH_HORIZONTAL,
};

/// Plain lines of three dashes.
pub const LIGHT_TRIPLE_DASHED: Set = Set {
    top_left: line::TOP_LEFT,
    top_right: line::TOP_RIGHT,
    bottom_left: line::BOTTOM_LEFT,
    bottom_right: line::BOTTOM_RIGHT,
    vertical_left: line::LIGHT_TRIPLE_DASH_VERTICAL,
    vertical_right: line::LIGHT_TRIPLE_DASH_VERTICAL,
    horizontal_top: line::LIGHT_TRIPLE_DASH_HORIZONTAL,
    horizontal_bottom: line::LIGHT_TRIPLE_DASH_HORIZONTAL,
};

/// Thick lines of three dashes.
pub const HEAVY_TRIPLE_DASHED: Set = Set {
    top_left: line::THICK_TOP_LEFT,
    top_right: line::THICK_TOP_RIGHT,
    bottom_left: line::THICK_BOTTOM_LEFT,
    bottom_right: line::THICK_BOTTOM_RIGHT,
    vertical_left: line::HEAVY_TRIPLE_DASH_VERTICAL,
    vertical_right: line::HEAVY_TRIPLE_DASH_VERTICAL,
    horizontal_top: line::HEAVY_TRIPLE_DASH_HORIZONTAL,
    horizontal_bottom: line::HEAVY_TRIPLE_DASH_HORIZONTAL,
};

/// Plain lines of four dashes.
pub const LIGHT_QUADRUPLE_DASHED: Set = Set {
    top_left: line::TOP_LEFT,
    top_right: line::TOP_RIGHT,
    bottom_left: line::BOTTOM_LEFT,
    bottom_right: line::BOTTOM_RIGHT,
    vertical_left: line::LIGHT_QUADRUPLE_DASH_VERTICAL,
    vertical_right: line::LIGHT_QUADRUPLE_DASH_VERTICAL,
    horizontal_top: line::LIGHT_QUADRUPLE_DASH_HORIZONTAL,
    horizontal_bottom: line::LIGHT_QUADRUPLE_DASH_HORIZONTAL,
};

/// Thick lines of four dashes.
pub const HEAVY_QUADRUPLE_DASHED: Set = Set {
    top_left: line::THICK_TOP_LEFT,
    top_right: line::THICK_TOP_RIGHT,
    bottom_left: line::THICK_BOTTOM_LEFT,
    bottom_right: line::THICK_BOTTOM_RIGHT,
    vertical_left: line::HEAVY_QUADRUPLE_DASH_VERTICAL,
    vertical_right: line::HEAVY_QUADRUPLE_DASH_VERTICAL,
    horizontal_top: line::HEAVY_QUADRUPLE_DASH_HORIZONTAL,
    horizontal_bottom: line::HEAVY_QUADRUPLE_DASH_HORIZONTAL,
};

/// Quadrants outside of the border's line.
pub const QUADRANT_OUTSIDE: Set = Set {
    top_left: QUADRANT_TOP_LEFT_TOP_RIGHT_BOTTOM_LEFT,
    top_right: QUADRANT_TOP_LEFT_TOP_RIGHT_BOTTOM_RIGHT,
    bottom_left: QUADRANT_TOP_LEFT_BOTTOM_LEFT_BOTTOM_RIGHT,
    bottom_right: QUADRANT_TOP_RIGHT_BOTTOM_LEFT_BOTTOM_RIGHT,
    vertical_left: QUADRANT_LEFT_HALF,
    vertical_right: QUADRANT_RIGHT_HALF,
    horizontal_top: QUADRANT_TOP_HALF,
    horizontal_bottom: QUADRANT_BOTTOM_HALF,
};

/// Quadrants inside of the border's line.
pub const QUADRANT_INSIDE: Set = Set {
    top_left: QUADRANT_BOTTOM_RIGHT,
    top_right: QUADRANT_BOTTOM_LEFT,
    bottom_left: QUADRANT_TOP_RIGHT,
    bottom_right: QUADRANT_TOP_LEFT,
    vertical_left: QUADRANT_RIGHT_HALF,
    vertical_right: QUADRANT_LEFT_HALF,
    horizontal_top: QUADRANT_BOTTOM_HALF,
    horizontal_bottom: QUADRANT_TOP_HALF,
};

/// Eighths, the box as wide as it can be.
pub const ONE_EIGHTH_WIDE: Set = Set {
    top_left: ONE_EIGHTH_BOTTOM_EIGHT,
    top_right: ONE_EIGHTH_BOTTOM_EIGHT,
    bottom_left: ONE_EIGHTH_TOP_EIGHT,
    bottom_right: ONE_EIGHTH_TOP_EIGHT,
    vertical_left: ONE_EIGHTH_LEFT_EIGHT,
    vertical_right: ONE_EIGHTH_RIGHT_EIGHT,
    horizontal_top: ONE_EIGHTH_BOTTOM_EIGHT,
    horizontal_bottom: ONE_EIGHTH_TOP_EIGHT,
};

/// Eighths, the box as tall as it can be.
pub const ONE_EIGHTH_TALL: Set = Set {
    top_left: ONE_EIGHTH_RIGHT_EIGHT,
    top_right: ONE_EIGHTH_LEFT_EIGHT,
    bottom_left: ONE_EIGHTH_RIGHT_EIGHT,
    bottom_right: ONE_EIGHTH_LEFT_EIGHT,
    vertical_left: ONE_EIGHTH_RIGHT_EIGHT,
    vertical_right: ONE_EIGHTH_LEFT_EIGHT,
    horizontal_top: ONE_EIGHTH_TOP_EIGHT,
    horizontal_bottom: ONE_EIGHTH_BOTTOM_EIGHT,
};

/// As thick on each side, the box as wide as it can be.
pub const PROPORTIONAL_WIDE: Set = Set {
    top_left: QUADRANT_BOTTOM_HALF,
    top_right: QUADRANT_BOTTOM_HALF,
    bottom_left: QUADRANT_TOP_HALF,
    bottom_right: QUADRANT_TOP_HALF,
    vertical_left: QUADRANT_BLOCK,
    vertical_right: QUADRANT_BLOCK,
    horizontal_top: QUADRANT_BOTTOM_HALF,
    horizontal_bottom: QUADRANT_TOP_HALF,
};

/// As thick on each side, the box as tall as it can be.
pub const PROPORTIONAL_TALL: Set = Set {
    top_left: QUADRANT_BLOCK,
    top_right: QUADRANT_BLOCK,
    bottom_left: QUADRANT_BLOCK,
    bottom_right: QUADRANT_BLOCK,
    vertical_left: QUADRANT_BLOCK,
    vertical_right: QUADRANT_BLOCK,
    horizontal_top: QUADRANT_TOP_HALF,
    horizontal_bottom: QUADRANT_BOTTOM_HALF,
};

/// Full blocks.
pub const FULL: Set = Set {
    top_left: block::FULL,
    top_right: block::FULL,
    bottom_left: block::FULL,
    bottom_right: block::FULL,
    vertical_left: block::FULL,
    vertical_right: block::FULL,
    horizontal_top: block::FULL,
    horizontal_bottom: block::FULL,
};

/// Blanks.
pub const EMPTY: Set = Set {
    top_left: " ",
    top_right: " ",
    bottom_left: " ",
    bottom_right: " ",
    vertical_left: " ",
    vertical_right: " ",
    horizontal_top: " ",
    horizontal_bottom: " ",
};
