//! From a node of a tree to its parent, and past its descendants.

ghost use Rattle.std.specs.Prelude.{◌≡◌, ◌≤◌, ◌<◌, ◌+◌, length, IfOk, vec_len};
ghost use Rattle.widget_tree.specs.Inner.{IsUp, IsSubtreeEnd, HasUps, HasEnds};
ghost use Rattle.widget_tree.specs.Nodes.{depths_of};

use crate::item::TreeItem;
use std::alloc::{AllocError, Global};

// How many nodes there are up to the parent of one, if that is known of those before it.
fn up_of(items: &[TreeItem<'_>], ups: &[usize], k: usize) -> usize
    requires there { k < length items.now }
    requires known { HasUps (depths_of items.now) ups.now k }
    ensures { IsUp (depths_of items.now) k result }
{
    let depth = items[k].depth;
    let mut up = k;
    while up > 0 {
        if items[up - 1].depth < depth {
            return up;
        }
        up = ups[up - 1];
    }
    up
}

// The first node after one that isn't deeper, if that is known of those after it.
fn end_of(items: &[TreeItem<'_>], ends: &[usize], k: usize) -> usize
    requires there { k < length items.now }
    requires known { HasEnds (depths_of items.now) ends.now (k + 1) }
    ensures { IsSubtreeEnd (depths_of items.now) k result }
{
    let depth = items[k].depth;
    let mut end = k + 1;
    while end < items.len() {
        if items[end].depth <= depth {
            return end;
        }
        end = ends[end];
    }
    end
}

// How many nodes there are up to the parent of each.
pub(crate) fn all_ups(alloc: Global, items: &[TreeItem<'_>]) -> Result<Vec<usize>, AllocError>
    ensures { IfOk result (λ ups. HasUps (depths_of items.now) ups.items (length items.now)) }
{
    let mut ups = Vec::with_capacity(alloc, items.len())?;
    for k in 0..items.len() {
        let up = up_of(items, ups.as_slice(), k);
        ups.push(up)?;
    }
    Ok(ups)
}

// The first node after each that isn't deeper.
pub(crate) fn all_ends(alloc: Global, items: &[TreeItem<'_>]) -> Result<Vec<usize>, AllocError>
    ensures { IfOk result (λ ends. HasEnds (depths_of items.now) ends.items 0) }
{
    let mut ends = vec![in alloc; 0; items.len()]?;
    for k in (0..items.len()).rev() {
        ends[k] = end_of(items, ends.as_slice(), k);
    }
    Ok(ends)
}
