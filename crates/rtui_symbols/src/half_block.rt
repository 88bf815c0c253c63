//! Half blocks.

/// The upper half.
pub const UPPER: char = '▀';

/// The lower half.
pub const LOWER: char = '▄';

/// Both halves.
pub const FULL: char = '█';
