//! Tests of states that are settled: what stands in them is what a rendering leaves.

ghost use Rattle.ratatui_core.specs.Layout.{EdgesFit};

use ratatui_core::buffer::Buffer;
use ratatui_core::layout::{Position, Rect, Size};
use ratatui_core::widgets::StatefulWidget;
use std::alloc::{AllocError, Global};
use std::test::Fail;
use widget_boxes::Block;
use widget_list::{List, ListState};
use widget_scroll_view::{ScrollView, ScrollViewState};
use widget_table::{Row, Table, TableState};
use widget_tree::{Tree, TreeState};

// An area of eight columns and so many rows.
fn rows(height: u16) -> Rect
    ensures { EdgesFit result }
{
    Rect::new(2, 1, 8, height)
}

// Four items, of which the second takes two rows.
fn list(alloc: Global) -> Result<List<'static>, AllocError> {
    let list = List::raw(alloc, &["one", "two\nmore", "three", "four"])?;
    Ok(list.block(Block::bordered(alloc)).scroll_padding(1))
}

// The first item and the selected one after a settling, if a rendering leaves the same.
fn settled_list(
    alloc: Global,
    height: u16,
    state: ListState,
) -> Result<Option<(usize, usize)>, AllocError> {
    let list = list(alloc)?;
    let mut settled = state;
    list.settle(rows(height), &mut settled);
    let mut rendered = state;
    let mut buf = Buffer::empty(alloc, rows(height))?;
    StatefulWidget::render(&list, rows(height), &mut buf, &mut rendered)?;
    let Some(selected) = settled.selected() else {
        return Ok(None);
    };
    if settled == rendered {
        Ok(Some((settled.offset(), selected)))
    } else {
        Ok(None)
    }
}

#[test]
fn lists(rt: HostRuntime) -> Result<(), Fail> {
    let alloc = rt.alloc();
    let last = ListState::default().with_selected(Some(9));
    assert!(rt; settled_list(alloc, 5, last)? == Some((2, 3)));
    assert!(rt; settled_list(alloc, 3, last)? == Some((3, 3)));
    assert!(rt; settled_list(alloc, 2, last)? == Some((0, 9)));
    let first = ListState::default().with_selected(Some(0)).with_offset(7);
    assert!(rt; settled_list(alloc, 5, first)? == Some((0, 0)));
    Ok(())
}

// Four rows under a header.
fn table(alloc: Global) -> Result<Table<'static>, AllocError> {
    let mut rows = Vec::new(alloc);
    for text in ["a", "b", "c", "d"] {
        rows.push(Row::raw(alloc, &[text, "0"])?)?;
    }
    let header = Row::raw(alloc, &["name", "size"])?;
    Ok(Table::new(rows, Vec::new(alloc)).header(header))
}

// The first row after a settling, if a rendering leaves the same.
fn settled_table(
    alloc: Global,
    height: u16,
    state: TableState,
) -> Result<Option<usize>, AllocError> {
    let table = table(alloc)?;
    let mut settled = state;
    table.settle(rows(height), &mut settled);
    let mut rendered = state;
    let mut buf = Buffer::empty(alloc, rows(height))?;
    StatefulWidget::render(&table, rows(height), &mut buf, &mut rendered)?;
    if settled == rendered {
        Ok(Some(settled.offset()))
    } else {
        Ok(None)
    }
}

#[test]
fn tables(rt: HostRuntime) -> Result<(), Fail> {
    let alloc = rt.alloc();
    let last = TableState::new().with_selected_cell(Some((9, 9)));
    assert!(rt; settled_table(alloc, 3, last)? == Some(2));
    assert!(rt; settled_table(alloc, 1, last)? == Some(3));
    assert!(rt; settled_table(alloc, 0, last)? == Some(0));
    Ok(())
}

// Roots and their children.
fn tree(alloc: Global) -> Result<Tree<'static>, AllocError> {
    Tree::raw(alloc, &[(0, "a"), (1, "b"), (1, "c"), (0, "d"), (1, "e")])
}

// A state in which the first root is opened and another node is selected.
fn opened(alloc: Global, tree: &Tree<'_>, selected: usize) -> Result<TreeState, AllocError> {
    let mut state = TreeState::new(alloc).with_selected(Some(selected));
    let _is_new = state.open(tree, 0)?;
    Ok(state)
}

// The first row after a settling, if a rendering leaves the same.
fn settled_tree(alloc: Global, height: u16, selected: usize) -> Result<Option<usize>, AllocError> {
    let tree = tree(alloc)?;
    let mut settled = opened(alloc, &tree, selected)?;
    tree.settle(rows(height), &mut settled);
    let mut rendered = opened(alloc, &tree, selected)?;
    let mut buf = Buffer::empty(alloc, rows(height))?;
    StatefulWidget::render(&tree, rows(height), &mut buf, &mut rendered)?;
    if settled.offset() == rendered.offset() && settled.selected() == Some(selected) {
        Ok(Some(settled.offset()))
    } else {
        Ok(None)
    }
}

#[test]
fn trees(rt: HostRuntime) -> Result<(), Fail> {
    let alloc = rt.alloc();
    assert!(rt; settled_tree(alloc, 2, 3)? == Some(2));
    assert!(rt; settled_tree(alloc, 4, 3)? == Some(0));
    assert!(rt; settled_tree(alloc, 2, 4)? == Some(0));
    Ok(())
}

// The offset after a settling, if a rendering leaves the same state.
fn settled_view(
    alloc: Global,
    height: u16,
    offset: Position,
) -> Result<Option<Position>, AllocError> {
    let view = ScrollView::new(alloc, Size::new(12, 9))?;
    let mut settled = ScrollViewState::with_offset(offset);
    view.settle(rows(height), &mut settled);
    let mut rendered = ScrollViewState::with_offset(offset);
    let mut buf = Buffer::empty(alloc, rows(height))?;
    StatefulWidget::render(&view, rows(height), &mut buf, &mut rendered)?;
    if settled == rendered {
        Ok(Some(settled.offset()))
    } else {
        Ok(None)
    }
}

#[test]
fn views(rt: HostRuntime) -> Result<(), Fail> {
    let alloc = rt.alloc();
    let far = Position::new(99, 99);
    assert!(rt; settled_view(alloc, 4, far)? == Some(Position::new(5, 6)));
    assert!(rt; settled_view(alloc, 0, far)? == Some(far));
    assert!(rt; settled_view(alloc, 12, Position::new(1, 2))? == Some(Position::new(1, 0)));
    Ok(())
}
