//! What stands in a tree of files.

use crate::text::{Bytes, Text};
use std::time::Duration;

/// A folder, or a file with what it holds.
#[derive(Debug, Drop)]
pub enum Node {
    /// A folder.
    Folder,
    /// A file that holds these bytes.
    File(Bytes),
}

/// What stands at a path, and when that was changed last.
#[derive(Debug, Drop)]
pub struct Entry {
    /// Its path.
    pub path: Text,
    /// What stands there.
    pub node: Node,
    /// When it was changed last, as the time since 1970.
    pub modified: Duration,
}
