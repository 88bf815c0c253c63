//! A tree.

ghost use Rattle.std.specs.Prelude.{◌≡◌, ◌==◌, ◌<◌, ◌≤◌, Some, IsOk, IfOk, OnOk, OnErr, true, length, map};
ghost use Rattle.ratatui_core.specs.Layout.{IsInside};
ghost use Rattle.ratatui_core.specs.Widgets.{ChangesWithin};
ghost use Rattle.widget_boxes.specs.Boxes.{IsBoxArea};
ghost use Rattle.rtui_drawing.specs.Drawings.{IsDone, IsStopped, IsShortDrawing, IsRowIn};
ghost use Rattle.widget_tree.specs.Depths.{parent_of, has_children, shows_node};
ghost use Rattle.widget_tree.specs.Nodes.{raw_node};
ghost use Rattle.widget_tree.specs.Rows.{offset_for, nodes_in_rows};
ghost use Rattle.widget_tree.specs.TreeStates.{tree_depths, opened_of};
ghost use Rattle.widget_tree.specs.Trees.{IsNewTree, mark_columns, indent_columns, node_symbol};
ghost use Rattle.widget_tree.specs.Trees.{mark_drawing, left_drawing, node_label};
ghost use Rattle.widget_tree.specs.Trees.{line_row_drawing, node_drawing, node_rows_drawing, tree_drawing};
ghost use Rattle.widget_tree.specs.Trees.{row_if, selected_row, HighlightsRow, ShowsNodes, ShowsTree};
ghost use Rattle.widget_tree.specs.Trees.{settled_tree};

use crate::item::TreeItem;
use crate::nodes::Nodes;
use crate::state::TreeState;
use ratatui_core::buffer::{Buffer, Cell, CellChange};
use ratatui_core::layout::{Position, Rect};
use ratatui_core::style::Style;
use ratatui_core::text::{Line, text_columns};
use ratatui_core::widgets::StatefulWidget;
use rtui_drawing::{Cut, put_change, put_line, put_style, write};
use std::alloc::{AllocError, Global};
use widget_boxes::{Block, cloned_block, highlight, inner_if, render_frame};

/// Nodes one below the other, each in a row of its own. A node is shown if all its ancestors are
/// opened, and stands two columns further right than what is one less deep, after a symbol that
/// says whether it is opened, is closed or has no children. A state says which nodes are opened,
/// and which one is selected.
///
/// ```
/// let tree = Tree::new(alloc, items)?.highlight_symbol("> ");
/// let mut state = TreeState::new(alloc);
/// state.key_down(&tree);
/// state.key_right(&tree)?;
/// frame.render_stateful_widget(&tree, area, &mut state)
/// ```
#[derive(Debug, PartialEq, Eq, Drop)]
pub struct Tree<'a> {
    block: Option<Block<'a>>,
    pub(crate) nodes: Nodes<'a>,
    pub(crate) style: Style,
    highlight_style: Style,
    highlight_symbol: &'a str,
    node_open_symbol: &'a str,
    node_closed_symbol: &'a str,
    node_no_children_symbol: &'a str,
}

impl<'a> Tree<'a> {
    /// Makes a tree of items in the order in which they stand, without box, styles and highlight
    /// symbol. The depths may be any: an item's parent is the last one before it that is less deep.
    ///
    /// # Errors
    ///
    /// `AllocError` if memory is refused.
    pub fn new(alloc: Global, items: Vec<TreeItem<'a>>) -> Result<Tree<'a>, AllocError>
        ensures { IfOk result (IsNewTree items.entry.items) }
    {
        Ok(Tree {
            block: None,
            nodes: Nodes::new(alloc, items)?,
            style: Style::new(),
            highlight_style: Style::new(),
            highlight_symbol: "",
            node_open_symbol: "▼ ",
            node_closed_symbol: "▶ ",
            node_no_children_symbol: "  ",
        })
    }

    /// Makes a tree of plain texts, an item each, with how deep it stands, as [`TreeItem::raw`] makes
    /// it.
    ///
    /// # Errors
    ///
    /// `AllocError` if memory is refused.
    pub fn raw(alloc: Global, items: &[(u16, &'a str)]) -> Result<Tree<'a>, AllocError>
        ensures { let made = map (λ item. raw_node item.0 item.1.now) items.now in
            IfOk result (IsNewTree made) }
    {
        Tree::new(alloc, raw_nodes(alloc, items)?)
    }

    /// Puts the tree in a box.
    pub fn block(mut self, block: Block<'a>) -> Tree<'a>
        ensures { result ≡ record self.entry { block = Some block.entry } }
    {
        self.block = Some(block);
        self
    }

    /// Sets the style of the tree.
    pub fn style(mut self, style: Style) -> Tree<'a>
        ensures { result ≡ record self.entry { style = style } }
    {
        self.style = style;
        self
    }

    /// Sets the style of the selected node's row. A wide character's second column isn't styled: it
    /// shows that character, in its own style.
    pub fn highlight_style(mut self, style: Style) -> Tree<'a>
        ensures { result ≡ record self.entry { highlight_style = style } }
    {
        self.highlight_style = style;
        self
    }

    /// Sets the symbol at the left of the selected node's row. If a node is selected, its columns
    /// stay free in the other rows.
    pub fn highlight_symbol(mut self, symbol: &'a str) -> Tree<'a>
        ensures { result ≡ record self.entry { highlight_symbol = symbol.entry } }
    {
        self.highlight_symbol = symbol;
        self
    }

    /// Sets the symbol before an opened node that has children.
    pub fn node_open_symbol(mut self, symbol: &'a str) -> Tree<'a>
        ensures { result ≡ record self.entry { node_open_symbol = symbol.entry } }
    {
        self.node_open_symbol = symbol;
        self
    }

    /// Sets the symbol before a closed node that has children.
    pub fn node_closed_symbol(mut self, symbol: &'a str) -> Tree<'a>
        ensures { result ≡ record self.entry { node_closed_symbol = symbol.entry } }
    {
        self.node_closed_symbol = symbol;
        self
    }

    /// Sets the symbol before a node without children.
    pub fn node_no_children_symbol(mut self, symbol: &'a str) -> Tree<'a>
        ensures { result ≡ record self.entry { node_no_children_symbol = symbol.entry } }
    {
        self.node_no_children_symbol = symbol;
        self
    }

    /// Returns the items, in the order in which they stand.
    pub fn items(&self) -> &[TreeItem<'a>]
        ensures { result.now ≡ self.now.nodes.items.items }
    {
        self.nodes.items()
    }

    /// Returns how many nodes there are.
    pub fn len(&self) -> usize
        ensures { result ≡ length self.now.nodes.items.items }
    {
        self.nodes.len()
    }

    /// Returns whether there are none.
    pub fn is_empty(&self) -> bool
        ensures { result ≡ (length self.now.nodes.items.items == 0) }
    {
        self.nodes.len() == 0
    }

    /// Returns the parent of a node: none for a root, or a number that is no node's.
    pub fn parent(&self, node: usize) -> Option<usize>
        ensures { result ≡ parent_of (tree_depths self.now) node }
    {
        self.nodes.parent(node)
    }

    /// Returns whether a node has children.
    pub fn has_children(&self, node: usize) -> bool
        ensures { result ≡ has_children (tree_depths self.now) node }
    {
        self.nodes.has_children(node)
    }

    /// Makes an equal tree.
    ///
    /// # Errors
    ///
    /// `AllocError` if memory is refused.
    pub fn clone(&self, alloc: Global) -> Result<Tree<'a>, AllocError>
        ensures { let same = ⟦<Tree<'a> as PartialEq>⟧.eq in
            IfOk result (λ tree. same self.now tree ≡ true) }
    {
        Ok(Tree {
            block: cloned_block(alloc, &self.block)?,
            nodes: self.nodes.clone(alloc)?,
            style: self.style,
            highlight_style: self.highlight_style,
            highlight_symbol: self.highlight_symbol,
            node_open_symbol: self.node_open_symbol,
            node_closed_symbol: self.node_closed_symbol,
            node_no_children_symbol: self.node_no_children_symbol,
        })
    }

    /// Brings a state up to date as a rendering over an area does, and draws nothing: the first row
    /// moves as little as it takes for the selected node to be in view, if that is shown. The area
    /// is the part that a buffer has of what the tree is rendered over; without cells inside the
    /// box the state stays. It takes no memory.
    pub fn settle(&self, area: Rect, state: &mut TreeState)
        ensures { state.new ≡ settled_tree self.now area state.old }
    {
        let inner = inner_if(&self.block, area);
        if !inner.is_empty() {
            state.offset = self.first_row(usize::from(inner.height), state);
        }
    }

    // The node in the first one of so many rows, so that the selected one is in view.
    fn first_row(&self, height: usize, state: &TreeState) -> usize
        requires { 0 < height }
        ensures value { let s = state.now in
            result ≡ offset_for (tree_depths self.now) (opened_of s) height s.offset s.selected }
        ensures shown { 0 < length self.now.nodes.items.items
            → shows_node (tree_depths self.now) (opened_of state.now) result ≡ true }
    {
        let opened = state.opened.as_slice();
        self.nodes
            .offset_for(opened, height, state.offset, state.selected)
    }

    // How many columns of so many stay free for the highlight symbol.
    fn mark_columns(&self, state: &TreeState, width: u16) -> u16
        ensures value { result ≡ mark_columns self.now state.now width }
        ensures within { result ≤ width }
    {
        if state.selected.is_none() {
            return 0;
        }
        text_columns(self.highlight_symbol).min(usize::from(width)) as u16
    }

    // The symbol before a node.
    fn symbol(&self, node: usize, state: &TreeState) -> &'a str
        ensures { result.now ≡ node_symbol self.now state.now node }
    {
        if !self.nodes.has_children(node) {
            return self.node_no_children_symbol;
        }
        if state.is_opened(node) {
            self.node_open_symbol
        } else {
            self.node_closed_symbol
        }
    }

    // Writes the highlight symbol in the first columns of a row, if it is the selected node's.
    fn draw_mark_if(
        &self,
        is_selected: bool,
        mark: u16,
        row: Rect,
        buf: &mut Buffer,
    ) -> Result<(), AllocError>
        requires row { IsRowIn buf.old.area row }
        requires mark { mark ≤ row.width }
        ensures { IsDone (mark_drawing self.now is_selected mark) row result buf.old buf.new }
    {
        if is_selected {
            write(
                self.highlight_symbol,
                Style::new(),
                Cut::First(mark).of(row),
                buf,
            )?;
        }
        Ok(())
    }

    // Empties the first columns of a row, and writes the highlight symbol in the first ones of them
    // if the row is the selected node's.
    fn draw_left(
        &self,
        is_selected: bool,
        mark: u16,
        left: u16,
        row: Rect,
        buf: &mut Buffer,
    ) -> Result<(), AllocError>
        requires row { IsRowIn buf.old.area row }
        requires mark { mark ≤ row.width }
        ensures { IsDone (left_drawing self.now is_selected mark left) row result buf.old buf.new }
    {
        put_change(&Blank, Cut::First(left).of(row), buf)?;
        self.draw_mark_if(is_selected, mark, row, buf)
    }

    // Draws a line in a row, after a symbol and so many columns.
    fn draw_line(
        &self,
        line: &Line<'_>,
        is_selected: bool,
        mark: u16,
        left: u16,
        symbol: &str,
        row: Rect,
        buf: &mut Buffer,
    ) -> Result<(), AllocError>
        requires row { IsRowIn buf.old.area row }
        requires mark { mark ≤ row.width }
        requires left { left ≤ row.width }
        ensures { let t = self.now in
            let d = line_row_drawing t line.now is_selected mark left symbol.now row.width in
            IsDone d row result buf.old buf.new }
    {
        let style = style_of(line);
        put_style(style, row, buf);
        self.draw_left(is_selected, mark, left, row, buf)?;
        draw_label(symbol, line, Cut::After(left).of(row), buf)
    }

    // Draws a node in a row.
    fn draw_node(
        &self,
        node: usize,
        mark: u16,
        row: Rect,
        buf: &mut Buffer,
        state: &TreeState,
    ) -> Result<(), AllocError>
        requires there { node < length self.now.nodes.items.items }
        requires row { IsRowIn buf.old.area row }
        requires mark { mark ≤ row.width }
        ensures { let d = node_drawing self.now state.now mark row.width node in
            IsDone d row result buf.old buf.new }
    {
        let item = self.nodes.item(node);
        let is_selected = state.selects(node);
        let left = indent(item.depth, mark, row.width);
        let symbol = self.symbol(node, state);
        self.draw_line(&item.line, is_selected, mark, left, symbol, row, buf)
    }

    // Draws the nodes that are shown from one on, a row each, as far as there are rows; answers the
    // selected one's row.
    fn draw_rows(
        &self,
        first: usize,
        inner: Rect,
        buf: &mut Buffer,
        state: &TreeState,
    ) -> Result<Option<Rect>, AllocError>
        requires some { IsBoxArea inner }
        requires inside { IsInside inner buf.old.area }
        requires shown { 0 < length self.now.nodes.items.items
            → shows_node (tree_depths self.now) (opened_of state.now) first ≡ true }
        ensures done { let d = node_rows_drawing self.now state.now first inner in
            IsDone d inner result buf.old buf.new }
        ensures selected { let s = state.now in let os = opened_of s in
            let nodes = nodes_in_rows (tree_depths self.now) os first inner.height in
            IfOk result (λ row. row ≡ selected_row s.selected inner 0 nodes) }
    {
        let opened = state.opened.as_slice();
        let mark = self.mark_columns(state, inner.width);
        let mut node = first;
        let mut selected = None;
        for y in 0..inner.height {
            if node >= self.nodes.len() {
                return Ok(selected);
            }
            self.draw_node(node, mark, Cut::Rows(y, 1).of(inner), buf, state)?;
            selected = selected.or(row_if(state.selects(node), y, inner));
            node = self.nodes.next(opened, node);
        }
        Ok(selected)
    }

    // Highlights the selected node's row, if there is one.
    fn highlight_row(&self, row: Option<Rect>, buf: &mut Buffer)
        ensures { HighlightsRow self.now row buf.old buf.new }
    {
        if let Some(row) = row {
            highlight(self.highlight_style, row, buf);
        }
    }

    // Draws the nodes that are shown from one on, a row each, and highlights the selected one's row.
    fn draw_nodes(
        &self,
        first: usize,
        inner: Rect,
        buf: &mut Buffer,
        state: &TreeState,
    ) -> Result<(), AllocError>
        requires some { IsBoxArea inner }
        requires inside { IsInside inner buf.old.area }
        requires shown { 0 < length self.now.nodes.items.items
            → shows_node (tree_depths self.now) (opened_of state.now) first ≡ true }
        ensures within { ChangesWithin inner buf.old buf.new }
        ensures ok { OnOk result (ShowsNodes self.now state.now first inner buf.old buf.new) }
        ensures stopped { let d = node_rows_drawing self.now state.now first inner in
            OnErr result (IsStopped d inner buf.old buf.new) }
        ensures short { let d = node_rows_drawing self.now state.now first inner in
            IsShortDrawing buf.old.area d inner → IsOk result }
    {
        let selected = self.draw_rows(first, inner, buf, state)?;
        self.highlight_row(selected, buf);
        Ok(())
    }

    // Draws the nodes that are shown, from the state's first one on or so that the selected one is
    // in view, and brings the state up to date.
    fn draw_tree(
        &self,
        inner: Rect,
        buf: &mut Buffer,
        state: &mut TreeState,
    ) -> Result<(), AllocError>
        requires some { IsBoxArea inner }
        requires inside { IsInside inner buf.old.area }
        ensures within { ChangesWithin inner buf.old buf.new }
        ensures ok { OnOk result
            (ShowsTree self.now state.old state.new inner buf.old buf.new) }
        ensures stopped { let d = tree_drawing self.now state.old inner in
            OnErr result (IsStopped d inner buf.old buf.new) }
        ensures left { OnErr result (state.new ≡ state.old) }
        ensures short { let d = tree_drawing self.now state.old inner in
            IsShortDrawing buf.old.area d inner → IsOk result }
    {
        let first = self.first_row(usize::from(inner.height), state);
        self.draw_nodes(first, inner, buf, state)?;
        state.offset = first;
        Ok(())
    }
}

// An item for each text.
fn raw_nodes<'a>(alloc: Global, items: &[(u16, &'a str)]) -> Result<Vec<TreeItem<'a>>, AllocError>
    ensures { let made = map (λ item. raw_node item.0 item.1.now) items.now in
        IfOk result (λ nodes. nodes.items ≡ made) }
{
    let mut nodes = Vec::with_capacity(alloc, items.len())?;
    for item in items {
        nodes.push(TreeItem::raw(alloc, item.0, item.1)?)?;
    }
    Ok(nodes)
}

// A row of an area, if there is to be one.
fn row_if(is_some: bool, y: u16, area: Rect) -> Option<Rect>
    ensures { result ≡ row_if is_some y area }
{
    if is_some {
        Some(Cut::Rows(y, 1).of(area))
    } else {
        None
    }
}

// The style of a line.
fn style_of(line: &Line<'_>) -> Style
    ensures { result ≡ line.now.style }
{
    line.style
}

// How many columns of so many are left of a node's symbol.
fn indent(depth: u16, mark: u16, width: u16) -> u16
    ensures value { result ≡ indent_columns depth mark width }
    ensures within { result ≤ width }
{
    (u32::from(mark) + 2 * u32::from(depth)).min(u32::from(width)) as u16
}

// Writes a symbol at the left of a row, and puts a line after it.
fn draw_label(symbol: &str, line: &Line<'_>, row: Rect, buf: &mut Buffer) -> Result<(), AllocError>
    requires { IsRowIn buf.old.area row }
    ensures { IsDone (node_label symbol.now line.now row.width) row result buf.old buf.new }
{
    let columns = write(symbol, Style::new(), row, buf)?;
    put_line(line, Cut::After(columns).of(row), buf)
}

// A blank in the style that stands there.
#[derive(Drop)]
struct Blank;

impl CellChange for Blank {
    ghost use Rattle.std.specs.Prelude.{⊤};
    ghost use Rattle.widget_tree.specs.Trees.{blank_in_place};

    ghost made = { λ _ _. blank_in_place };

    ghost is_light = { λ _ _ _. ⊤ };

    fn change(&self, alloc: Global, position: Position, cell: &mut Cell) -> Result<(), AllocError> {
        let _ = position;
        cell.set_symbol(alloc, " ")
    }
}

/// Over the area, as far as the buffer has it: the style, the box, and inside the nodes that are
/// shown, a row each, from the state's first one on. A row has the style of its node's line; if a
/// node is selected, columns for the highlight symbol; two columns for each level; the node's
/// symbol and its line; and over the selected node's row the highlight's style. The state's first
/// row moves as little as it takes for the selected node to be in view, if that is shown. A refused
/// tree leaves its state as it was.
impl<'b, 'a> StatefulWidget for &'b Tree<'a> {
    type State = TreeState;

    ghost use Rattle.widget_tree.specs.Trees.{RendersTree, LeavesTree, IsShortTree};

    ghost renders = { λ tree. RendersTree tree.now };

    ghost leaves = { λ tree. LeavesTree tree.now };

    ghost is_short = { λ tree. IsShortTree tree.now };

    fn render(self, area: Rect, buf: &mut Buffer, state: &mut TreeState) -> Result<(), AllocError> {
        let Some(inner) = render_frame(self.style, &self.block, area, buf)? else {
            return Ok(());
        };
        self.draw_tree(inner, buf, state)
    }
}

impl<'a> StatefulWidget for Tree<'a> {
    type State = TreeState;

    ghost use Rattle.widget_tree.specs.Trees.{RendersTree, LeavesTree, IsShortTree};

    ghost renders = { RendersTree };

    ghost leaves = { LeavesTree };

    ghost is_short = { IsShortTree };

    fn render(self, area: Rect, buf: &mut Buffer, state: &mut TreeState) -> Result<(), AllocError> {
        (&self).render(area, buf, state)
    }
}
