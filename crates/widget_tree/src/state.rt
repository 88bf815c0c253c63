//! What a tree keeps from one rendering to the next.

ghost use Rattle.std.specs.Prelude.{◌≡◌, not, [], Some, false, OnOk, OnErr, IfOk, is_some, length};
ghost use Rattle.std.specs.List.{list_any};
ghost use Rattle.widget_tree.specs.Depths.{is_opened, shows_node, first_node, last_node};
ghost use Rattle.widget_tree.specs.TreeStates.{tree_depths, opened_of, IsNewTreeState};
ghost use Rattle.widget_tree.specs.TreeStates.{OpensOnly, SameTreeState};
ghost use Rattle.widget_tree.specs.Moves.{same_node, node_below, node_above};
ghost use Rattle.widget_tree.specs.TreeStates.{GoesLeft, can_open, OpensNode};
ghost use Rattle.widget_tree.specs.TreeStates.{can_toggle, TogglesNode};

use crate::marks;
use crate::tree::Tree;
use std::alloc::{AllocError, Global};

/// Which nodes of a tree are opened, which one is selected, and which one stands in the first row.
/// A node is meant by its number, from 0 on, in the order in which the items stand.
#[derive(Debug, Drop)]
pub struct TreeState {
    pub(crate) offset: usize,
    pub(crate) selected: Option<usize>,
    pub(crate) opened: Vec<bool>,
}

impl TreeState {
    /// Makes a state in which nothing is selected and all nodes are closed; takes no memory.
    pub fn new(alloc: Global) -> TreeState
        ensures { IsNewTreeState result }
    {
        TreeState {
            offset: 0,
            selected: None,
            opened: Vec::new(alloc),
        }
    }

    /// Sets the node in the first row.
    pub fn with_offset(mut self, offset: usize) -> TreeState
        ensures { result ≡ record self { offset = offset } }
    {
        self.offset = offset;
        self
    }

    /// Sets the selected node.
    pub fn with_selected(mut self, selected: Option<usize>) -> TreeState
        ensures { result ≡ record self { selected = selected } }
    {
        self.selected = selected;
        self
    }

    /// Returns the node in the first row.
    pub fn offset(&self) -> usize
        ensures { result ≡ self.now.offset }
    {
        self.offset
    }

    /// Returns the selected node.
    pub fn selected(&self) -> Option<usize>
        ensures { result ≡ self.now.selected }
    {
        self.selected
    }

    /// Returns whether a node is opened.
    pub fn is_opened(&self, node: usize) -> bool
        ensures { result ≡ is_opened (opened_of self.now) node }
    {
        marks::is_opened(self.opened.as_slice(), node)
    }

    /// Returns whether a node of a tree is shown: whether all its ancestors are opened.
    pub fn is_shown(&self, tree: &Tree<'_>, node: usize) -> bool
        ensures { result ≡ shows_node (tree_depths tree.now) (opened_of self.now) node }
    {
        tree.nodes.is_shown(self.opened.as_slice(), node)
    }

    /// Selects a node, or none, and returns whether the selection changed.
    pub fn select(&mut self, node: Option<usize>) -> bool
        ensures value { self.new ≡ record self.old { selected = node } }
        ensures changed { result ≡ not (same_node self.old.selected node) }
    {
        let changed = !is_same(self.selected, node);
        self.selected = node;
        changed
    }

    /// Opens a node of a tree, if it has children, and returns whether it did: not if it was opened
    /// before. The first node that is opened takes a byte for each node of the tree.
    ///
    /// # Errors
    ///
    /// `AllocError` if memory is refused; the state is as before then.
    pub fn open(&mut self, tree: &Tree<'_>, node: usize) -> Result<bool, AllocError>
        ensures ok { let ds = tree_depths tree.now in
            OnOk result (OpensNode ds self.old self.new (Some node)) }
        ensures changed { let ds = tree_depths tree.now in
            IfOk result (λ changed. changed ≡ can_open ds (opened_of self.old) (Some node)) }
        ensures err { OnErr result (SameTreeState self.old self.new) }
    {
        if self.is_opened(node) || !tree.nodes.has_children(node) {
            return Ok(false);
        }
        marks::open(&mut self.opened, node, tree.nodes.len())?;
        Ok(true)
    }

    /// Closes a node, and returns whether it was opened.
    pub fn close(&mut self, node: usize) -> bool
        ensures value { result ≡ is_opened (opened_of self.old) node }
        ensures closed { OpensOnly self.old self.new node false }
    {
        marks::close(&mut self.opened, node)
    }

    /// Closes a node of a tree if it is opened, and opens it if it is closed and has children.
    /// Returns whether it did either.
    ///
    /// # Errors
    ///
    /// `AllocError` if memory is refused; the state is as before then.
    pub fn toggle(&mut self, tree: &Tree<'_>, node: usize) -> Result<bool, AllocError>
        ensures ok { let ds = tree_depths tree.now in
            OnOk result (TogglesNode ds self.old self.new (Some node)) }
        ensures changed { let ds = tree_depths tree.now in
            IfOk result (λ changed. changed ≡ can_toggle ds (opened_of self.old) (Some node)) }
        ensures err { OnErr result (SameTreeState self.old self.new) }
    {
        if self.is_opened(node) {
            return Ok(self.close(node));
        }
        self.open(tree, node)
    }

    /// Does as [`TreeState::toggle`] with the selected node, if there is one.
    ///
    /// # Errors
    ///
    /// `AllocError` if memory is refused; the state is as before then.
    pub fn toggle_selected(&mut self, tree: &Tree<'_>) -> Result<bool, AllocError>
        ensures ok { let ds = tree_depths tree.now in
            OnOk result (TogglesNode ds self.old self.new self.old.selected) }
        ensures changed { let ds = tree_depths tree.now in let os = opened_of self.old in
            IfOk result (λ changed. changed ≡ can_toggle ds os self.old.selected) }
        ensures err { OnErr result (SameTreeState self.old self.new) }
    {
        match self.selected {
            Some(node) => self.toggle(tree, node),
            None => Ok(false),
        }
    }

    /// Closes all nodes, and returns whether one was opened.
    pub fn close_all(&mut self) -> bool
        ensures closed { opened_of self.new ≡ [] }
        ensures offset { self.new.offset ≡ self.old.offset }
        ensures selected { self.new.selected ≡ self.old.selected }
        ensures changed { result ≡ list_any (λ is. is) (opened_of self.old) }
    {
        let changed = self.opened.iter().any(|is| *is);
        self.opened.clear();
        changed
    }

    /// Selects the first node of a tree, and returns whether the selection changed. Of a tree
    /// without nodes none is selected.
    pub fn select_first(&mut self, tree: &Tree<'_>) -> bool
        ensures value { let first = first_node (tree_depths tree.now) (opened_of self.old) 0 in
            self.new ≡ record self.old { selected = first } }
        ensures changed { result ≡ not (same_node self.old.selected self.new.selected) }
    {
        let first = tree.nodes.first_shown(self.opened.as_slice(), 0);
        self.select(first)
    }

    /// Selects the last node of a tree that is shown, and returns whether the selection changed. Of
    /// a tree without nodes none is selected.
    pub fn select_last(&mut self, tree: &Tree<'_>) -> bool
        ensures value { let ds = tree_depths tree.now in
            let last = last_node ds (opened_of self.old) (length ds) in
            self.new ≡ record self.old { selected = last } }
        ensures changed { result ≡ not (same_node self.old.selected self.new.selected) }
    {
        let last = tree.nodes.last(self.opened.as_slice());
        self.select(last)
    }

    /// Selects the next node of a tree that is shown, and returns whether the selection changed.
    /// After the last one that is shown it selects that one, and if none is selected the first one.
    pub fn key_down(&mut self, tree: &Tree<'_>) -> bool
        ensures value { let ds = tree_depths tree.now in
            let node = node_below ds (opened_of self.old) self.old.selected in
            self.new ≡ record self.old { selected = node } }
        ensures changed { result ≡ not (same_node self.old.selected self.new.selected) }
    {
        let node = tree.nodes.below(self.opened.as_slice(), self.selected);
        self.select(node)
    }

    /// Selects the node of a tree that is shown before the selected one, and returns whether the
    /// selection changed. If there is none it selects the first one, and if none is selected the
    /// last one that is shown.
    pub fn key_up(&mut self, tree: &Tree<'_>) -> bool
        ensures value { let ds = tree_depths tree.now in
            let node = node_above ds (opened_of self.old) self.old.selected in
            self.new ≡ record self.old { selected = node } }
        ensures changed { result ≡ not (same_node self.old.selected self.new.selected) }
    {
        let node = tree.nodes.above(self.opened.as_slice(), self.selected);
        self.select(node)
    }

    /// Closes the selected node if it is opened, and else selects its parent: none if it has no
    /// parent. Returns whether a node was selected.
    pub fn key_left(&mut self, tree: &Tree<'_>) -> bool
        ensures value { let ds = tree_depths tree.now in
            GoesLeft ds self.old self.new self.old.selected }
        ensures changed { result ≡ is_some self.old.selected }
    {
        let Some(node) = self.selected else {
            return false;
        };
        if self.is_opened(node) {
            return self.close(node);
        }
        self.selected = tree.nodes.parent(node);
        true
    }

    /// Opens the selected node of a tree, if it has children, and returns whether it did.
    ///
    /// # Errors
    ///
    /// `AllocError` if memory is refused; the state is as before then.
    pub fn key_right(&mut self, tree: &Tree<'_>) -> Result<bool, AllocError>
        ensures ok { let ds = tree_depths tree.now in
            OnOk result (OpensNode ds self.old self.new self.old.selected) }
        ensures changed { let ds = tree_depths tree.now in let os = opened_of self.old in
            IfOk result (λ changed. changed ≡ can_open ds os self.old.selected) }
        ensures err { OnErr result (SameTreeState self.old self.new) }
    {
        match self.selected {
            Some(node) => self.open(tree, node),
            None => Ok(false),
        }
    }

    // Whether a node is the selected one.
    pub(crate) fn selects(&self, node: usize) -> bool
        ensures { result ≡ same_node self.now.selected (Some node) }
    {
        is_same(self.selected, Some(node))
    }
}

// Whether two nodes, or none, are the same.
fn is_same(one: Option<usize>, other: Option<usize>) -> bool
    ensures { result ≡ same_node one other }
{
    match (one, other) {
        (None, None) => true,
        (Some(j), Some(k)) => j == k,
        _ => false,
    }
}
