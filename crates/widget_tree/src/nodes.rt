//! The nodes of a tree, with the ways between them.

ghost use Rattle.std.specs.Prelude.{◌≡◌, length, IfOk};
ghost use Rattle.widget_tree.specs.Inner.{HasUps, HasEnds};
ghost use Rattle.widget_tree.specs.Nodes.{depths_of};

use crate::item::TreeItem;
use crate::links::{all_ends, all_ups};
use crate::marks::is_opened;
use std::alloc::{AllocError, Global};

// The items of a tree, how many nodes there are up to the parent of each, and the first node after
// each that isn't deeper.
#[derive(Debug, PartialEq, Eq, Drop)]
pub(crate) struct Nodes<'a> {
    items: Vec<TreeItem<'a>>,
    ups: Vec<usize>,
    ends: Vec<usize>,
    ghost has_ups: { HasUps (depths_of items.items) ups.items (length items.items) },
    ghost has_ends: { HasEnds (depths_of items.items) ends.items 0 },
}

impl<'a> Nodes<'a> {
    ghost use Rattle.std.specs.Prelude.{◌+◌, ◌<◌, ◌≤◌, true, IfSome, IsSome};
    ghost use Rattle.widget_tree.specs.Depths.{parent_of, has_children, shows_node};
    ghost use Rattle.widget_tree.specs.Depths.{first_node, last_node};
    ghost use Rattle.widget_tree.specs.Moves.{node_below, node_above};
    ghost use Rattle.widget_tree.specs.Rows.{row_start, scrolled_to, offset_for};
    ghost use Rattle.widget_tree.specs.Nodes.{node_item};
    ghost use Rattle.widget_tree.specs.Inner.{IsUp, IsSubtreeEnd, ShowsFor, IsNext};

    // The nodes of some items.
    pub(crate) fn new(alloc: Global, items: Vec<TreeItem<'a>>) -> Result<Nodes<'a>, AllocError>
        ensures { IfOk result (λ nodes. nodes.items.items ≡ items.entry.items) }
    {
        let ups = all_ups(alloc, items.as_slice())?;
        let ends = all_ends(alloc, items.as_slice())?;
        Ok(Nodes { items, ups, ends })
    }

    // The items.
    pub(crate) fn items(&self) -> &[TreeItem<'a>]
        ensures { result.now ≡ self.now.items.items }
    {
        self.items.as_slice()
    }

    // The item of a node.
    pub(crate) fn item(&self, k: usize) -> &TreeItem<'a>
        requires { k < length self.now.items.items }
        ensures { result.now ≡ node_item self.now.items.items k }
    {
        &self.items[k]
    }

    // Equal nodes.
    pub(crate) fn clone(&self, alloc: Global) -> Result<Nodes<'a>, AllocError>
        ensures items { IfOk result (λ nodes. nodes.items.items ≡ self.now.items.items) }
        ensures ups { IfOk result (λ nodes. nodes.ups.items ≡ self.now.ups.items) }
        ensures ends { IfOk result (λ nodes. nodes.ends.items ≡ self.now.ends.items) }
    {
        Ok(Nodes {
            items: cloned_items(alloc, self.items.as_slice())?,
            ups: Vec::from_slice(alloc, self.ups.as_slice())?,
            ends: Vec::from_slice(alloc, self.ends.as_slice())?,
        })
    }

    // How many nodes there are.
    pub(crate) fn len(&self) -> usize
        ensures { result ≡ length self.now.items.items }
    {
        self.items.len()
    }

    // How many nodes there are up to the parent of one.
    fn up(&self, k: usize) -> usize
        requires { k < length self.now.items.items }
        ensures { IsUp (depths_of self.now.items.items) k result }
    {
        self.ups[k]
    }

    // The first node after one that isn't deeper.
    fn end(&self, k: usize) -> usize
        requires { k < length self.now.items.items }
        ensures { IsSubtreeEnd (depths_of self.now.items.items) k result }
    {
        self.ends[k]
    }

    // Whether a node has children.
    pub(crate) fn has_children(&self, k: usize) -> bool
        ensures { result ≡ has_children (depths_of self.now.items.items) k }
    {
        k < self.len() && k + 1 < self.end(k)
    }

    // The parent of a node.
    pub(crate) fn parent(&self, k: usize) -> Option<usize>
        ensures { result ≡ parent_of (depths_of self.now.items.items) k }
    {
        if k >= self.len() {
            return None;
        }
        let up = self.up(k);
        if up == 0 { None } else { Some(up - 1) }
    }

    // The node that is shown for one: itself, or the outermost of its closed ancestors.
    fn standing(&self, opened: &[bool], k: usize) -> usize
        requires { k < length self.now.items.items }
        ensures { ShowsFor (depths_of self.now.items.items) opened.now k result }
    {
        let mut at = k;
        let mut standing = k;
        let mut up = self.up(k);
        while up > 0 {
            at = up - 1;
            if !is_opened(opened, at) {
                standing = at;
            }
            up = self.up(at);
        }
        standing
    }

    // Whether a node is shown.
    pub(crate) fn is_shown(&self, opened: &[bool], k: usize) -> bool
        ensures { result ≡ shows_node (depths_of self.now.items.items) opened.now k }
    {
        k < self.len() && self.standing(opened, k) == k
    }

    // The node that is shown after one that is shown, or how many nodes there are.
    pub(crate) fn next(&self, opened: &[bool], k: usize) -> usize
        requires { shows_node (depths_of self.now.items.items) opened.now k ≡ true }
        ensures { IsNext (depths_of self.now.items.items) opened.now (k + 1) result }
    {
        if is_opened(opened, k) {
            return k + 1;
        }
        self.end(k)
    }

    // The first node that is shown, from one on.
    pub(crate) fn first_shown(&self, opened: &[bool], from: usize) -> Option<usize>
        ensures value { result ≡ first_node (depths_of self.now.items.items) opened.now from }
        ensures shown { let ds = depths_of self.now.items.items in
            IfSome result (λ k. shows_node ds opened.now k ≡ true) }
    {
        if from >= self.len() {
            return None;
        }
        let standing = self.standing(opened, from);
        if standing == from {
            return Some(from);
        }
        let end = self.end(standing);
        if end < self.len() { Some(end) } else { None }
    }

    // The last node that is shown before one.
    pub(crate) fn last_shown(&self, opened: &[bool], to: usize) -> Option<usize>
        requires { to ≤ length self.now.items.items }
        ensures value { result ≡ last_node (depths_of self.now.items.items) opened.now to }
        ensures shown { let ds = depths_of self.now.items.items in
            IfSome result (λ k. shows_node ds opened.now k ≡ true) }
        ensures some { 0 < to → IsSome result }
    {
        if to == 0 {
            return None;
        }
        Some(self.standing(opened, to - 1))
    }

    // The last node that is shown.
    pub(crate) fn last(&self, opened: &[bool]) -> Option<usize>
        ensures { let ds = depths_of self.now.items.items in
            result ≡ last_node ds opened.now (length ds) }
    {
        self.last_shown(opened, self.len())
    }

    // The node that is shown after one.
    pub(crate) fn below(&self, opened: &[bool], node: Option<usize>) -> Option<usize>
        ensures { result ≡ node_below (depths_of self.now.items.items) opened.now node }
    {
        let Some(k) = node else {
            return self.first_shown(opened, 0);
        };
        match self.first_shown(opened, k.saturating_add(1)) {
            Some(next) => Some(next),
            None => self.last(opened),
        }
    }

    // The node that is shown before one.
    pub(crate) fn above(&self, opened: &[bool], node: Option<usize>) -> Option<usize>
        ensures { result ≡ node_above (depths_of self.now.items.items) opened.now node }
    {
        let Some(k) = node else {
            return self.last(opened);
        };
        match self.last_shown(opened, k.min(self.len())) {
            Some(previous) => Some(previous),
            None => self.first_shown(opened, 0),
        }
    }

    // Where the rows begin that began with a node.
    fn row_start(&self, opened: &[bool], was: usize) -> usize
        ensures value { result ≡ row_start (depths_of self.now.items.items) opened.now was }
        ensures shown { let ds = depths_of self.now.items.items in
            0 < length self.now.items.items → shows_node ds opened.now result ≡ true }
    {
        if let Some(first) = self.first_shown(opened, was) {
            return first;
        }
        self.last_shown(opened, self.len()).unwrap_or(0)
    }

    // Where they begin so that a node is in one of them.
    fn scrolled(&self, opened: &[bool], height: usize, start: usize, k: usize) -> usize
        requires some { 0 < height }
        requires start { shows_node (depths_of self.now.items.items) opened.now start ≡ true }
        requires shown { shows_node (depths_of self.now.items.items) opened.now k ≡ true }
        ensures value { let ds = depths_of self.now.items.items in
            result ≡ scrolled_to ds opened.now height start k }
        ensures shown { shows_node (depths_of self.now.items.items) opened.now result ≡ true }
    {
        let mut first = start.min(k);
        let mut last = first;
        let mut rows = 1;
        while last < k {
            last = self.next(opened, last);
            if rows < height {
                rows += 1;
            } else {
                first = self.next(opened, first);
            }
        }
        first
    }

    // Where the rows begin that began with a node, so that the selected one is in one of them.
    pub(crate) fn offset_for(
        &self,
        opened: &[bool],
        height: usize,
        was: usize,
        selected: Option<usize>,
    ) -> usize
        requires { 0 < height }
        ensures value { let ds = depths_of self.now.items.items in
            result ≡ offset_for ds opened.now height was selected }
        ensures shown { let ds = depths_of self.now.items.items in
            0 < length self.now.items.items → shows_node ds opened.now result ≡ true }
    {
        let start = self.row_start(opened, was);
        match selected {
            Some(k) => {
                if self.is_shown(opened, k) {
                    return self.scrolled(opened, height, start, k);
                }
                start
            }
            None => start,
        }
    }
}

// Equal items.
fn cloned_items<'a>(alloc: Global, items: &[TreeItem<'a>]) -> Result<Vec<TreeItem<'a>>, AllocError>
    ensures { IfOk result (λ cloned. cloned.items ≡ items.now) }
{
    let mut cloned = Vec::with_capacity(alloc, items.len())?;
    for item in items {
        cloned.push(item.clone(alloc)?)?;
    }
    Ok(cloned)
}
