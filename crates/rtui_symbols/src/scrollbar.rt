//! Scroll bars.

use crate::{block, line};

/// The track of a scroll bar, its thumb and its two ends.
#[derive(Debug, Default, Clone, Drop, PartialEq, Eq, Hash)]
pub struct Set<'a> {
    pub track: &'a str,
    pub thumb: &'a str,
    pub begin: &'a str,
    pub end: &'a str,
}

/// An upright bar of double lines.
pub const DOUBLE_VERTICAL: Set = Set {
    track: line::DOUBLE_VERTICAL,
    thumb: block::FULL,
    begin: "▲",
    end: "▼",
};

/// A level bar of double lines.
pub const DOUBLE_HORIZONTAL: Set = Set {
    track: line::DOUBLE_HORIZONTAL,
    thumb: block::FULL,
    begin: "◄",
    end: "►",
};

/// An upright bar.
pub const VERTICAL: Set = Set {
    track: line::VERTICAL,
    thumb: block::FULL,
    begin: "↑",
    end: "↓",
};

/// A level bar.
pub const HORIZONTAL: Set = Set {
    track: line::HORIZONTAL,
    thumb: block::FULL,
    begin: "←",
    end: "→",
};
