//! The sets of symbols.

/// The symbols of a throbber: one that is full, one that is empty, and those that stand in turn.
/// The symbols of the named sets take one column each.
#[derive(Debug, Clone, Copy, PartialEq, Eq)]
pub struct Set {
    pub full: &'static str,
    pub empty: &'static str,
    pub symbols: &'static [&'static str],
}

/// Which symbol of a set stands.
#[derive(Debug, Default, Clone, Copy, PartialEq, Eq, Hash)]
pub enum WhichUse {
    /// The full one.
    Full,
    /// The empty one.
    Empty,
    /// The one that the state's index means, counted around the set.
    #[default]
    Spin,
}

/// Lines of ASCII that turn.
pub const ASCII: Set = Set {
    full: "*",
    empty: " ",
    symbols: &["|", "/", "-", "\\"],
};

/// Lines that turn.
pub const BOX_DRAWING: Set = Set {
    full: "┼",
    empty: " ",
    symbols: &["│", "╱", "─", "╲"],
};

/// An arrow that turns as a hand of a clock.
pub const ARROW: Set = Set {
    full: "*",
    empty: " ",
    symbols: &["↑", "↗", "→", "↘", "↓", "↙", "←", "↖"],
};

/// Six dots, of which one is missing.
pub const BRAILLE_SIX: Set = Set {
    full: "⠿",
    empty: "\u{2800}",
    symbols: &["⠷", "⠯", "⠟", "⠻", "⠽", "⠾"],
};

/// Eight dots, of which one is missing.
pub const BRAILLE_EIGHT: Set = Set {
    full: "⣿",
    empty: "\u{2800}",
    symbols: &["⣷", "⣯", "⣟", "⡿", "⢿", "⣻", "⣽", "⣾"],
};
