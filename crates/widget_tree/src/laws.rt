//! Laws of trees that are no single call's clause.

ghost use Rattle.std.specs.Prelude.{◌≡◌, ℕ, ◌+◌, ◌<◌, ◌≤◌, Bool, true, false, ◌&&◌, not};
ghost use Rattle.std.specs.Prelude.{List as Sequence, length, slice_get};
ghost use Rattle.std.specs.Prelude.{Some, None, Option, IfSome};
ghost use Rattle.ratatui_core.specs.Layout.{Rect, intersected};
ghost use Rattle.ratatui_core.specs.Buffer.{BufferData, IsPlainFrom};
ghost use Rattle.widget_boxes.specs.Apart.{StandsApart, IsReadyIn};
ghost use Rattle.widget_tree.specs.declared.state.TreeState.{TreeState};
ghost use Rattle.widget_tree.specs.declared.tree.Tree.{Tree};
ghost use Rattle.widget_tree.specs.Depths.{is_ancestor, parent_of, has_children, is_opened};
ghost use Rattle.widget_tree.specs.Depths.{shows_node, shown_nodes, first_node};
ghost use Rattle.widget_tree.specs.Moves.{MarksOnly, node_below, node_above};
ghost use Rattle.widget_tree.specs.Rows.{scrolled_to};
ghost use Rattle.widget_tree.specs.TreeStates.{tree_depths, opened_of};
ghost use Rattle.widget_tree.specs.Trees.{drawn_nodes, settled_tree, IsNarrowTree, IsShowableTree, RendersTree};

/// A node without a parent is always shown, and if all nodes are closed no other one is.
pub fn closed_trees_show_their_roots()
    ensures roots { (ds : Sequence ℕ) (os : Sequence Bool) (k : ℕ) → k < length ds
        → parent_of ds k ≡ None → shows_node ds os k ≡ true }
    ensures only { (ds : Sequence ℕ) (os : Sequence Bool) (k : ℕ)
        → ((j : ℕ) → is_opened os j ≡ false) → shows_node ds os k ≡ true → parent_of ds k ≡ None }
{}

/// What was shown before a node is opened are the nodes that are shown then but for its
/// descendants; and if it is closed those that were shown but for its descendants.
pub fn opening_adds_shown_descendants()
    ensures opening { (ds : Sequence ℕ) (os os' : Sequence Bool) (k : ℕ) → is_opened os k ≡ false
        → MarksOnly os os' k true
        → (j : ℕ) → shows_node ds os j ≡ (shows_node ds os' j && not (is_ancestor ds k j)) }
    ensures closing { (ds : Sequence ℕ) (os os' : Sequence Bool) (k : ℕ) → MarksOnly os os' k false
        → (j : ℕ) → shows_node ds os' j ≡ (shows_node ds os j && not (is_ancestor ds k j)) }
{}

/// A node that has children is the parent of the next one, and the parent of a node has children
/// and is less deep than that.
pub fn parents_have_children()
    ensures next { (ds : Sequence ℕ) (k : ℕ) → has_children ds k ≡ true
        → parent_of ds (k + 1) ≡ Some k }
    ensures parent { (ds : Sequence ℕ) (j k : ℕ) → parent_of ds j ≡ Some k
        → has_children ds k ≡ true }
    ensures ancestor { (ds : Sequence ℕ) (j k : ℕ) → parent_of ds j ≡ Some k
        → is_ancestor ds k j ≡ true }
{}

/// Each step down or up leads to a node that is shown; and a step up leads back from the node to
/// which a step down led, if there is one below.
pub fn steps_lead_to_shown_nodes()
    ensures below { (ds : Sequence ℕ) (os : Sequence Bool) (o : Option ℕ)
        → IfSome (node_below ds os o) (λ k. shows_node ds os k ≡ true) }
    ensures above { (ds : Sequence ℕ) (os : Sequence Bool) (o : Option ℕ)
        → IfSome (node_above ds os o) (λ k. shows_node ds os k ≡ true) }
    ensures back { (ds : Sequence ℕ) (os : Sequence Bool) (k j : ℕ) → shows_node ds os k ≡ true
        → first_node ds os (k + 1) ≡ Some j
        → (node_below ds os (Some k) ≡ Some j) × (node_above ds os (Some j) ≡ Some k) }
{}

/// The first row stays if the selected node is in one of so many rows; else that becomes the first
/// row if it stands above, and the last one if it stands below.
pub fn rows_move_as_little_as_they_can()
    ensures stays { (ds : Sequence ℕ) (os : Sequence Bool) (height start k : ℕ) → start ≤ k
        → shows_node ds os start ≡ true → length (shown_nodes ds os start (k + 1)) ≤ height
        → scrolled_to ds os height start k ≡ start }
    ensures up { (ds : Sequence ℕ) (os : Sequence Bool) (height start k : ℕ) → 0 < height
        → k < start → shows_node ds os k ≡ true → scrolled_to ds os height start k ≡ k }
    ensures down { (ds : Sequence ℕ) (os : Sequence Bool) (height start k : ℕ) → 0 < height
        → start ≤ k → shows_node ds os k ≡ true
        → height < length (shown_nodes ds os start (k + 1))
        → length (shown_nodes ds os (scrolled_to ds os height start k) (k + 1)) ≡ height }
{}

/// The selected node stands in one of an area's rows, if it is shown and the area has any.
pub fn selected_nodes_stand_in_a_row()
    ensures { (t : Tree) (s : TreeState) (r : Rect) (k : ℕ) → 0 < r.height → s.selected ≡ Some k
        → shows_node (tree_depths t) (opened_of s) k ≡ true
        → (y : ℕ) × (y < r.height) × (slice_get (drawn_nodes t s r) y ≡ Some k) }
{}

/// What a rendering leaves in a state is what settling makes of it, in the part of the area that
/// the buffer has.
pub fn renderings_settle_the_state()
    ensures { (t : Tree) (s s' : TreeState) (area : Rect) (old new : BufferData)
        → RendersTree t s s' area old new → s' ≡ settled_tree t (intersected area old.area) s }
{}

/// Settling twice is settling once; and a rendering of a state that was settled in its area leaves
/// it as it is, and shows what a rendering of the state before shows.
pub fn settled_states_stay()
    ensures twice { (t : Tree) (s : TreeState) (area : Rect)
        → settled_tree t area (settled_tree t area s) ≡ settled_tree t area s }
    ensures shown { (t : Tree) (s s' : TreeState) (area : Rect) (old new : BufferData)
        → RendersTree t s s' area old new
        → let u = settled_tree t (intersected area old.area) s in RendersTree t u u area old new }
{}

/// A tree whose texts and symbols take one column for each grapheme leaves a buffer of plain cells
/// one of plain cells, if it has no box or a narrow one; so a screen can show it.
pub fn trees_keep_cells_plain()
    ensures { (t : Tree) (s s' : TreeState) (area : Rect) (old new : BufferData) → IsNarrowTree t
        → IsPlainFrom 0 old → RendersTree t s s' area old new → IsPlainFrom 0 new }
{}

/// A tree over an area that is ready leaves the area apart, with wide graphemes, too, under a
/// highlight, too, if a screen can show its lines, and it has no box or a narrow one; so the buffer
/// is settled. Its symbols may be any: what of them takes no column isn't written.
pub fn trees_leave_areas_apart()
    ensures { (t : Tree) (s s' : TreeState) (area : Rect) (old new : BufferData) → IsShowableTree t
        → IsReadyIn area old → RendersTree t s s' area old new → StandsApart area new }
{}
