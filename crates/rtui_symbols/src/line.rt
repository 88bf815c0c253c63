//! Lines and their joints.

/// Vertical.
pub const VERTICAL: &str = "│";

/// Double vertical.
pub const DOUBLE_VERTICAL: &str = "║";

/// Thick vertical.
pub const THICK_VERTICAL: &str = "┃";

/// Horizontal.
pub const HORIZONTAL: &str = "─";

/// Double horizontal.
pub const DOUBLE_HORIZONTAL: &str = "═";

/// Thick horizontal.
pub const THICK_HORIZONTAL: &str = "━";

/// Top right.
pub const TOP_RIGHT: &str = "┐";

/// Double top right.
pub const DOUBLE_TOP_RIGHT: &str = "╗";

/// Thick top right.
pub const THICK_TOP_RIGHT: &str = "┓";

/// Rounded top right.
pub const ROUNDED_TOP_RIGHT: &str = "╮";

/// Top left.
pub const TOP_LEFT: &str = "┌";

/// Double top left.
pub const DOUBLE_TOP_LEFT: &str = "╔";

/// Thick top left.
pub const THICK_TOP_LEFT: &str = "┏";

/// Rounded top left.
pub const ROUNDED_TOP_LEFT: &str = "╭";

/// Bottom right.
pub const BOTTOM_RIGHT: &str = "┘";

/// Double bottom right.
pub const DOUBLE_BOTTOM_RIGHT: &str = "╝";

/// Thick bottom right.
pub const THICK_BOTTOM_RIGHT: &str = "┛";

/// Rounded bottom right.
pub const ROUNDED_BOTTOM_RIGHT: &str = "╯";

/// Bottom left.
pub const BOTTOM_LEFT: &str = "└";

/// Double bottom left.
pub const DOUBLE_BOTTOM_LEFT: &str = "╚";

/// Thick bottom left.
pub const THICK_BOTTOM_LEFT: &str = "┗";

/// Rounded bottom left.
pub const ROUNDED_BOTTOM_LEFT: &str = "╰";

/// Vertical left.
pub const VERTICAL_LEFT: &str = "┤";

/// Double vertical left.
pub const DOUBLE_VERTICAL_LEFT: &str = "╣";

/// Thick vertical left.
pub const THICK_VERTICAL_LEFT: &str = "┫";

/// Vertical right.
pub const VERTICAL_RIGHT: &str = "├";

/// Double vertical right.
pub const DOUBLE_VERTICAL_RIGHT: &str = "╠";

/// Thick vertical right.
pub const THICK_VERTICAL_RIGHT: &str = "┣";

/// Horizontal down.
pub const HORIZONTAL_DOWN: &str = "┬";

/// Double horizontal down.
pub const DOUBLE_HORIZONTAL_DOWN: &str = "╦";

/// Thick horizontal down.
pub const THICK_HORIZONTAL_DOWN: &str = "┳";

/// Horizontal up.
pub const HORIZONTAL_UP: &str = "┴";

/// Double horizontal up.
pub const DOUBLE_HORIZONTAL_UP: &str = "╩";

/// Thick horizontal up.
pub const THICK_HORIZONTAL_UP: &str = "┻";

/// Cross.
pub const CROSS: &str = "┼";

/// Double cross.
pub const DOUBLE_CROSS: &str = "╬";

/// Thick cross.
pub const THICK_CROSS: &str = "╋";

/// Light double dash vertical.
pub const LIGHT_DOUBLE_DASH_VERTICAL: &str = "╎";

/// Heavy double dash vertical.
pub const HEAVY_DOUBLE_DASH_VERTICAL: &str = "╏";

/// Light double dash horizontal.
pub const LIGHT_DOUBLE_DASH_HORIZONTAL: &str = "╌";

/// Heavy double dash horizontal.
pub const HEAVY_DOUBLE_DASH_HORIZONTAL: &str = "╍";

/// Light triple dash vertical.
pub const LIGHT_TRIPLE_DASH_VERTICAL: &str = "┆";

/// Heavy triple dash vertical.
pub const HEAVY_TRIPLE_DASH_VERTICAL: &str = "┇";

/// Light triple dash horizontal.
pub const LIGHT_TRIPLE_DASH_HORIZONTAL: &str = "┄";

/// Heavy triple dash horizontal.
pub const HEAVY_TRIPLE_DASH_HORIZONTAL: &str = "┅";

/// Light quadruple dash vertical.
pub const LIGHT_QUADRUPLE_DASH_VERTICAL: &str = "┊";

/// Heavy quadruple dash vertical.
pub const HEAVY_QUADRUPLE_DASH_VERTICAL: &str = "┋";

/// Light quadruple dash horizontal.
pub const LIGHT_QUADRUPLE_DASH_HORIZONTAL: &str = "┈";

/// Heavy quadruple dash horizontal.
pub const HEAVY_QUADRUPLE_DASH_HORIZONTAL: &str = "┉";

/// The lines of a box, its corners and its joints.
///
/// ```
/// line::DOUBLE.cross; // "╬"
/// ```
#[derive(Debug, Clone, Copy, PartialEq, Eq, Hash)]
pub struct Set<'a> {
    pub vertical: &'a str,
    pub horizontal: &'a str,
    pub top_right: &'a str,
    pub top_left: &'a str,
    pub bottom_right: &'a str,
    pub bottom_left: &'a str,
    pub vertical_left: &'a str,
    pub vertical_right: &'a str,
    pub horizontal_down: &'a str,
    pub horizontal_up: &'a str,
    pub cross: &'a str,
}

impl Default for Set<'_> {
    ghost use Rattle.std.specs.Prelude.{◌≡◌};
    ghost use Rattle.rtui_symbols.specs.Sets.{line_texts, normal_lines};

    ghost is_default = { λ set. line_texts set ≡ normal_lines };

    fn default() -> Self {
        NORMAL
    }
}

/// Plain lines.
pub const NORMAL: Set = Set {
    vertical: VERTICAL,
    horizontal: HORIZONTAL,
    top_right: TOP_RIGHT,
    top_left: TOP_LEFT,
    bottom_right: BOTTOM_RIGHT,
    bottom_left: BOTTOM_LEFT,
    vertical_left: VERTICAL_LEFT,
    vertical_right: VERTICAL_RIGHT,
    horizontal_down: HORIZONTAL_DOWN,
    horizontal_up: HORIZONTAL_UP,
    cross: CROSS,
};

/// Plain lines with rounded corners.
pub const ROUNDED: Set = Set {
    vertical: VERTICAL,
    horizontal: HORIZONTAL,
    top_right: ROUNDED_TOP_RIGHT,
    top_left: ROUNDED_TOP_LEFT,
    bottom_right: ROUNDED_BOTTOM_RIGHT,
    bottom_left: ROUNDED_BOTTOM_LEFT,
    vertical_left: VERTICAL_LEFT,
    vertical_right: VERTICAL_RIGHT,
    horizontal_down: HORIZONTAL_DOWN,
    horizontal_up: HORIZONTAL_UP,
    cross: CROSS,
};

/// Double lines.
pub const DOUBLE: Set = Set {
    vertical: DOUBLE_VERTICAL,
    horizontal: DOUBLE_HORIZONTAL,
    top_right: DOUBLE_TOP_RIGHT,
    top_left: DOUBLE_TOP_LEFT,
    bottom_right: DOUBLE_BOTTOM_RIGHT,
    bottom_left: DOUBLE_BOTTOM_LEFT,
    vertical_left: DOUBLE_VERTICAL_LEFT,
    vertical_right: DOUBLE_VERTICAL_RIGHT,
    horizontal_down: DOUBLE_HORIZONTAL_DOWN,
    horizontal_up: DOUBLE_HORIZONTAL_UP,
    cross: DOUBLE_CROSS,
};

/// Thick lines.
pub const THICK: Set = Set {
    vertical: THICK_VERTICAL,
    horizontal: THICK_HORIZONTAL,
    top_right: THICK_TOP_RIGHT,
    top_left: THICK_TOP_LEFT,
    bottom_right: THICK_BOTTOM_RIGHT,
    bottom_left: THICK_BOTTOM_LEFT,
    vertical_left: THICK_VERTICAL_LEFT,
    vertical_right: THICK_VERTICAL_RIGHT,
    horizontal_down: THICK_HORIZONTAL_DOWN,
    horizontal_up: THICK_HORIZONTAL_UP,
    cross: THICK_CROSS,
};

/// Plain lines of two dashes.
pub const LIGHT_DOUBLE_DASHED: Set = Set {
    vertical: LIGHT_DOUBLE_DASH_VERTICAL,
    horizontal: LIGHT_DOUBLE_DASH_HORIZONTAL,
    top_right: TOP_RIGHT,
    top_left: TOP_LEFT,
    bottom_right: BOTTOM_RIGHT,
    bottom_left: BOTTOM_LEFT,
    vertical_left: VERTICAL_LEFT,
    vertical_right: VERTICAL_RIGHT,
    horizontal_down: HORIZONTAL_DOWN,
    horizontal_up: HORIZONTAL_UP,
    cross: CROSS,
};

/// Thick lines of two dashes.
pub const HEAVY_DOUBLE_DASHED: Set = Set {
    vertical: HEAVY_DOUBLE_DASH_VERTICAL,
    horizontal: HEAVY_DOUBLE_DASH_HORIZONTAL,
    top_right: THICK_TOP_RIGHT,
    top_left: THICK_TOP_LEFT,
    bottom_right: THICK_BOTTOM_RIGHT,
    bottom_left: THICK_BOTTOM_LEFT,
    vertical_left: THICK_VERTICAL_LEFT,
    vertical_right: THICK_VERTICAL_RIGHT,
    horizontal_down: THICK_HORIZONTAL_DOWN,
    horizontal_up: THICK_HORIZONTAL_UP,
    cross: THICK_CROSS,
};

/// Plain lines of three dashes.
pub const LIGHT_TRIPLE_DASHED: Set = Set {
    vertical: LIGHT_TRIPLE_DASH_VERTICAL,
    horizontal: LIGHT_TRIPLE_DASH_HORIZONTAL,
    top_right: TOP_RIGHT,
    top_left: TOP_LEFT,
    bottom_right: BOTTOM_RIGHT,
    bottom_left: BOTTOM_LEFT,
    vertical_left: VERTICAL_LEFT,
    vertical_right: VERTICAL_RIGHT,
    horizontal_down: HORIZONTAL_DOWN,
    horizontal_up: HORIZONTAL_UP,
    cross: CROSS,
};

/// Thick lines of three dashes.
pub const HEAVY_TRIPLE_DASHED: Set = Set {
    vertical: HEAVY_TRIPLE_DASH_VERTICAL,
    horizontal: HEAVY_TRIPLE_DASH_HORIZONTAL,
    top_right: THICK_TOP_RIGHT,
    top_left: THICK_TOP_LEFT,
    bottom_right: THICK_BOTTOM_RIGHT,
    bottom_left: THICK_BOTTOM_LEFT,
    vertical_left: THICK_VERTICAL_LEFT,
    vertical_right: THICK_VERTICAL_RIGHT,
    horizontal_down: THICK_HORIZONTAL_DOWN,
    horizontal_up: THICK_HORIZONTAL_UP,
    cross: THICK_CROSS,
};

/// Plain lines of four dashes.
pub const LIGHT_QUADRUPLE_DASHED: Set = Set {
    vertical: LIGHT_QUADRUPLE_DASH_VERTICAL,
    horizontal: LIGHT_QUADRUPLE_DASH_HORIZONTAL,
    top_right: TOP_RIGHT,
    top_left: TOP_LEFT,
    bottom_right: BOTTOM_RIGHT,
    bottom_left: BOTTOM_LEFT,
    vertical_left: VERTICAL_LEFT,
    vertical_right: VERTICAL_RIGHT,
    horizontal_down: HORIZONTAL_DOWN,
    horizontal_up: HORIZONTAL_UP,
    cross: CROSS,
};

/// Thick lines of four dashes.
pub const HEAVY_QUADRUPLE_DASHED: Set = Set {
    vertical: HEAVY_QUADRUPLE_DASH_VERTICAL,
    horizontal: HEAVY_QUADRUPLE_DASH_HORIZONTAL,
    top_right: THICK_TOP_RIGHT,
    top_left: THICK_TOP_LEFT,
    bottom_right: THICK_BOTTOM_RIGHT,
    bottom_left: THICK_BOTTOM_LEFT,
    vertical_left: THICK_VERTICAL_LEFT,
    vertical_right: THICK_VERTICAL_RIGHT,
    horizontal_down: THICK_HORIZONTAL_DOWN,
    horizontal_up: THICK_HORIZONTAL_UP,
    cross: THICK_CROSS,
};
