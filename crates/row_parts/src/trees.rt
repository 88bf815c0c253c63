//! Rows of trees.

use crate::rows::{Row, number};
use ratatui_core::buffer::Buffer;
use ratatui_core::style::{Color, Style};
use ratatui_core::text::Line;
use ratatui_core::widgets::StatefulWidget;
use std::alloc::{AllocError, Global};
use widget_boxes::Block;
use widget_tree::{Tree, TreeItem, TreeState};

// The depth of an item and its text, which begins with it: `1 lib.rt`.
fn parts_of(item: &str) -> (u16, &str) {
    let (depth, text) = item.split_once(' ').unwrap_or(("0", item));
    (number(depth), text)
}

// The item of a text, in green after a star.
fn item_of<'a>(alloc: Global, item: &'a str) -> Result<TreeItem<'a>, AllocError> {
    let (depth, text) = parts_of(item);
    match text.strip_prefix('*') {
        Some(text) => {
            let line = Line::raw(alloc, text)?.style(Style::new().bg(Color::Green));
            Ok(TreeItem::new(depth, line))
        }
        None => TreeItem::raw(alloc, depth, text),
    }
}

// A tree of a text's items, of which some are green.
fn green_tree<'a>(alloc: Global, text: &'a str) -> Result<Tree<'a>, AllocError> {
    let mut items = Vec::new(alloc);
    for item in text.split('/') {
        items.push(item_of(alloc, item)?)?;
    }
    Tree::new(alloc, items)
}

// A tree of a text's items in no colour.
fn plain_tree<'a>(alloc: Global, text: &'a str) -> Result<Tree<'a>, AllocError> {
    let mut items = Vec::new(alloc);
    for item in text.split('/') {
        items.push(parts_of(item))?;
    }
    Tree::raw(alloc, items.as_slice())
}

// A tree of a text's items.
fn tree_of_items<'a>(alloc: Global, text: &'a str) -> Result<Tree<'a>, AllocError> {
    if text == "-" {
        return Tree::new(alloc, Vec::new(alloc));
    }
    if text.contains('*') {
        green_tree(alloc, text)
    } else {
        plain_tree(alloc, text)
    }
}

// A tree with what a word says.
fn tree_with<'a>(alloc: Global, tree: Tree<'a>, word: &'a str) -> Result<Tree<'a>, AllocError> {
    Ok(match word.split_once(':') {
        Some(("title", text)) => tree.block(Block::bordered(alloc).title_raw(text)?),
        Some(("mark", text)) => tree.highlight_symbol(text),
        Some(("opened", text)) => tree.node_open_symbol(text),
        Some(("closed", text)) => tree.node_closed_symbol(text),
        Some(("leaf", text)) => tree.node_no_children_symbol(text),
        Some(_) => tree,
        None => match word {
            "box" => tree.block(Block::bordered(alloc)),
            "red" => tree.style(Style::new().bg(Color::Red)),
            "blue" => tree.highlight_style(Style::new().bg(Color::Blue)),
            _ => tree,
        },
    })
}

// What a word does to a state, with the call's answer.
fn go(tree: &Tree<'_>, state: &mut TreeState, word: &str) -> Result<Option<bool>, AllocError> {
    let done = match word.split_once(':') {
        Some(("select", node)) => state.select(Some(usize::from(number(node)))),
        Some(("open", node)) => state.open(tree, usize::from(number(node)))?,
        Some(("close", node)) => state.close(usize::from(number(node))),
        Some(("toggle", node)) => state.toggle(tree, usize::from(number(node)))?,
        Some(_) => return Ok(None),
        None => match word {
            "none" => state.select(None),
            "toggle" => state.toggle_selected(tree)?,
            "close" => state.close_all(),
            "first" => state.select_first(tree),
            "last" => state.select_last(tree),
            "down" => state.key_down(tree),
            "up" => state.key_up(tree),
            "left" => state.key_left(tree),
            "right" => state.key_right(tree)?,
            _ => return Ok(None),
        },
    };
    Ok(Some(done))
}

// A state that begins as a word says.
fn state_with(state: TreeState, word: &str) -> TreeState {
    match word.split_once(':') {
        Some(("offset", node)) => state.with_offset(usize::from(number(node))),
        Some(("begin", node)) => state.with_selected(Some(usize::from(number(node)))),
        _ => state,
    }
}

// The tree of a row.
fn tree_of<'a>(alloc: Global, row: &Row<'a>) -> Result<Tree<'a>, AllocError> {
    let mut tree = tree_of_items(alloc, row.text)?;
    for word in row.words.split(' ') {
        tree = tree_with(alloc, tree, word)?;
    }
    Ok(tree)
}

// Does what the words of a row say, and renders the tree elsewhere at each `draw`; the calls'
// answers.
fn play(
    alloc: Global,
    row: &Row<'_>,
    tree: &Tree<'_>,
    state: &mut TreeState,
) -> Result<String, AllocError> {
    let mut said = String::new(alloc);
    for word in row.words.split(' ') {
        if word == "draw" {
            let mut other = row.buffer(alloc)?;
            StatefulWidget::render(tree, row.area(), &mut other, state)?;
        }
        if let Some(done) = go(tree, state, word)? {
            said.push(if done { '+' } else { '-' })?;
        }
    }
    Ok(said)
}

// Renders the tree of a row; its first row and its selection then, and the calls' answers.
pub fn render(alloc: Global, row: &Row<'_>, buffer: &mut Buffer) -> Result<String, AllocError> {
    let tree = tree_of(alloc, row)?.clone(alloc)?;
    let mut state = TreeState::new(alloc);
    for word in row.words.split(' ') {
        state = state_with(state, word);
    }
    let said = play(alloc, row, &tree, &mut state)?;
    StatefulWidget::render(&tree, row.area(), buffer, &mut state)?;
    let offset = state.offset();
    match state.selected() {
        Some(node) => format!(in alloc; "offset {offset}, selected {node}, answers {said}"),
        None => format!(in alloc; "offset {offset}, none selected, answers {said}"),
    }
}
