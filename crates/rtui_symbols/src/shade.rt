//! Shades.

/// Empty.
pub const EMPTY: &str = " ";

/// Light.
pub const LIGHT: &str = "░";

/// Medium.
pub const MEDIUM: &str = "▒";

/// Dark.
pub const DARK: &str = "▓";

/// Full.
pub const FULL: &str = "█";
