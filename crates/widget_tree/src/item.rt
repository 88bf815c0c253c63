//! The items of a tree.

ghost use Rattle.std.specs.Prelude.{◌≡◌, IfOk};
ghost use Rattle.widget_tree.specs.Nodes.{raw_node};

use ratatui_core::text::Line;
use std::alloc::{AllocError, Global};

/// An item of a tree: a line, and how deep it stands. It belongs to the last item before it that is
/// less deep, its parent, and is a root if there is none.
///
/// ```
/// let items = vec![in alloc;
///     TreeItem::raw(alloc, 0, "src")?,
///     TreeItem::raw(alloc, 1, "lib.rt")?,
///     TreeItem::raw(alloc, 0, "README.md")?,
/// ]?;
/// ```
#[derive(Debug, PartialEq, Eq, Drop)]
pub struct TreeItem<'a> {
    pub(crate) depth: u16,
    pub(crate) line: Line<'a>,
}

impl<'a> TreeItem<'a> {
    /// Makes an item of a line, so deep in a tree; takes no memory.
    pub fn new(depth: u16, line: Line<'a>) -> TreeItem<'a>
        ensures { result ≡ record { depth = depth; line = line.entry } }
    {
        TreeItem { depth, line }
    }

    /// Makes an item of a plain text, as `Line::raw` makes it, so deep in a tree.
    ///
    /// # Errors
    ///
    /// `AllocError` if memory is refused.
    pub fn raw(alloc: Global, depth: u16, text: &'a str) -> Result<TreeItem<'a>, AllocError>
        ensures { IfOk result (λ item. item ≡ raw_node depth text.now) }
    {
        Ok(TreeItem::new(depth, Line::raw(alloc, text)?))
    }

    /// Returns how deep it stands.
    pub fn depth(&self) -> u16
        ensures { result ≡ self.now.depth }
    {
        self.depth
    }

    /// Returns its line.
    pub fn line(&self) -> &Line<'a>
        ensures { result.now ≡ self.now.line }
    {
        &self.line
    }

    /// Makes an equal item.
    ///
    /// # Errors
    ///
    /// `AllocError` if memory is refused.
    pub fn clone(&self, alloc: Global) -> Result<TreeItem<'a>, AllocError>
        ensures { IfOk result (λ item. item ≡ self.now) }
    {
        Ok(TreeItem {
            depth: self.depth,
            line: self.line.clone(alloc)?,
        })
    }
}
