//! Bars that fill a column from below.

/// Full.
pub const FULL: &str = "█";

/// Seven eighths.
pub const SEVEN_EIGHTHS: &str = "▇";

/// Three quarters.
pub const THREE_QUARTERS: &str = "▆";

/// Five eighths.
pub const FIVE_EIGHTHS: &str = "▅";

/// Half.
pub const HALF: &str = "▄";

/// Three eighths.
pub const THREE_EIGHTHS: &str = "▃";

/// One quarter.
pub const ONE_QUARTER: &str = "▂";

/// One eighth.
pub const ONE_EIGHTH: &str = "▁";

/// A symbol for each filling, in eighths.
#[derive(Debug, Clone, Copy, PartialEq, Eq, Hash)]
pub struct Set<'a> {
    pub full: &'a str,
    pub seven_eighths: &'a str,
    pub three_quarters: &'a str,
    pub five_eighths: &'a str,
    pub half: &'a str,
    pub three_eighths: &'a str,
    pub one_quarter: &'a str,
    pub one_eighth: &'a str,
    pub empty: &'a str,
}

impl Default for Set<'_> {
    ghost use Rattle.std.specs.Prelude.{◌≡◌};
    ghost use Rattle.rtui_symbols.specs.Sets.{bar_texts, bar_levels};

    ghost is_default = { λ set. bar_texts set ≡ bar_levels };

    fn default() -> Self {
        NINE_LEVELS
    }
}

/// Full, half and empty.
pub const THREE_LEVELS: Set = Set {
    full: FULL,
    seven_eighths: FULL,
    three_quarters: HALF,
    five_eighths: HALF,
    half: HALF,
    three_eighths: HALF,
    one_quarter: HALF,
    one_eighth: " ",
    empty: " ",
};

/// Each eighth by its own symbol.
pub const NINE_LEVELS: Set = Set {
    full: FULL,
    seven_eighths: SEVEN_EIGHTHS,
    three_quarters: THREE_QUARTERS,
    five_eighths: FIVE_EIGHTHS,
    half: HALF,
    three_eighths: THREE_EIGHTHS,
    one_quarter: ONE_QUARTER,
    one_eighth: ONE_EIGHTH,
    empty: " ",
};
