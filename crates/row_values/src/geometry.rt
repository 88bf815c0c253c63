//! Calls on rectangles and on the small types beside them.
use ratatui_core::layout::{Columns, Margin, Offset, Position, Positions, Rect, Rows, Size};
use row_words::answer::Answer;
use row_words::args::Args;
use row_words::error::RowError;
use row_words::tokens::Token;
use std::alloc::Global;

/// Makes a call on a rectangle.
pub fn rect(args: &mut Args<'_>, answer: &mut Answer) -> Result<(), RowError> {
    match args.word()? {
        "ZERO" => answer.add(Rect::ZERO),
        "MIN" => answer.add(Rect::MIN),
        "MAX" => answer.add(Rect::MAX),
        "default" => answer.add(Rect::default()),
        "from_size" => answer.add(Rect::from(args.size()?)),
        word => rect_itself(word, args.rect()?, args, answer),
    }
}

// A call on a rectangle that asks for no other argument.
fn rect_itself(
    word: &str,
    rect: Rect,
    args: &mut Args<'_>,
    answer: &mut Answer,
) -> Result<(), RowError> {
    match word {
        "new" => answer.add(Rect::new(rect.x, rect.y, rect.width, rect.height)),
        "from_position_size" => {
            let (x, y, width, height) = (rect.x, rect.y, rect.width, rect.height);
            answer.add(Rect::from((Position { x, y }, Size { width, height })))
        }
        "area" => answer.add(rect.area()),
        "is_empty" => answer.add(rect.is_empty()),
        "left" => answer.add(rect.left()),
        "right" => answer.add(rect.right()),
        "top" => answer.add(rect.top()),
        "bottom" => answer.add(rect.bottom()),
        "as_position" => answer.add(rect.as_position()),
        "as_size" => answer.add(rect.as_size()),
        "position_from" => answer.add(Position::from(rect)),
        "size_from" => answer.add(Size::from(rect)),
        "print" => answer.print(args.alloc, &rect),
        _ => rect_with(word, rect, args, answer),
    }
}

// A call on a rectangle with another argument.
fn rect_with(
    word: &str,
    rect: Rect,
    args: &mut Args<'_>,
    answer: &mut Answer,
) -> Result<(), RowError> {
    match word {
        "inner" | "outer" | "resize" | "contains" => {
            rect_and_pair(word, rect, args.pair()?, answer)
        }
        "union" | "intersection" | "intersects" | "equal" => {
            rect_and_rect(word, rect, args.rect()?, answer)
        }
        "clamp" => answer.add(rect.clamp(args.area()?)),
        _ => rect_moved(word, rect, args.offset()?, answer),
    }
}

// A call on a rectangle with a margin, a size or a position.
fn rect_and_pair(
    word: &str,
    rect: Rect,
    (one, other): (u16, u16),
    answer: &mut Answer,
) -> Result<(), RowError> {
    match word {
        "inner" => answer.add(rect.inner(Margin::new(one, other))),
        "outer" => answer.add(rect.outer(Margin::new(one, other))),
        "resize" => answer.add(rect.resize(Size::new(one, other))),
        _ => answer.add(rect.contains(Position::new(one, other))),
    }
}

fn rect_and_rect(word: &str, rect: Rect, other: Rect, answer: &mut Answer) -> Result<(), RowError> {
    match word {
        "union" => answer.add(rect.union(other)),
        "intersection" => answer.add(rect.intersection(other)),
        "intersects" => answer.add(rect.intersects(other)),
        _ => answer.add(rect == other),
    }
}

fn rect_moved(word: &str, rect: Rect, offset: Offset, answer: &mut Answer) -> Result<(), RowError> {
    let mut moved = rect;
    match word {
        "offset" => moved = rect.offset(offset),
        "add" => moved = rect + offset,
        "offset_add" => moved = offset + rect,
        "sub" => moved = rect - offset,
        "add_assign" => moved += offset,
        "sub_assign" => moved -= offset,
        _ => return Err(RowError::Unread),
    }
    answer.add(moved)
}

/// Makes a call on a position.
pub fn position(args: &mut Args<'_>, answer: &mut Answer) -> Result<(), RowError> {
    match args.word()? {
        "ORIGIN" => answer.add(Position::ORIGIN),
        "MIN" => answer.add(Position::MIN),
        "MAX" => answer.add(Position::MAX),
        "default" => answer.add(Position::default()),
        word => position_itself(word, args.position()?, args, answer),
    }
}

fn position_itself(
    word: &str,
    position: Position,
    args: &mut Args<'_>,
    answer: &mut Answer,
) -> Result<(), RowError> {
    match word {
        "new" => answer.add(Position::new(position.x, position.y)),
        "from_pair" => answer.add(Position::from((position.x, position.y))),
        "to_pair" => put_pair(<(u16, u16)>::from(position), answer),
        "print" => answer.print(args.alloc, &position),
        "less" | "equal" => position_compared(word, position, args.position()?, answer),
        _ => position_moved(word, position, args.offset()?, answer),
    }
}

fn put_pair((one, other): (u16, u16), answer: &mut Answer) -> Result<(), RowError> {
    answer.add(one)?;
    answer.add(other)
}

fn position_compared(
    word: &str,
    position: Position,
    other: Position,
    answer: &mut Answer,
) -> Result<(), RowError> {
    if word == "less" {
        answer.add(position < other)
    } else {
        answer.add(position == other)
    }
}

fn position_moved(
    word: &str,
    position: Position,
    offset: Offset,
    answer: &mut Answer,
) -> Result<(), RowError> {
    let mut moved = position;
    match word {
        "offset" => moved = position.offset(offset),
        "add" => moved = position + offset,
        "offset_add" => moved = offset + position,
        "sub" => moved = position - offset,
        "add_assign" => moved += offset,
        "sub_assign" => moved -= offset,
        _ => return Err(RowError::Unread),
    }
    answer.add(moved)
}

/// Makes a call on an offset.
pub fn offset(args: &mut Args<'_>, answer: &mut Answer) -> Result<(), RowError> {
    match args.word()? {
        "ZERO" => answer.add(Offset::ZERO),
        "MIN" => answer.add(Offset::MIN),
        "MAX" => answer.add(Offset::MAX),
        "default" => answer.add(Offset::default()),
        "from_position" => answer.add(Offset::from(args.position()?)),
        word => offset_itself(word, args.offset()?, args, answer),
    }
}

fn offset_itself(
    word: &str,
    offset: Offset,
    args: &mut Args<'_>,
    answer: &mut Answer,
) -> Result<(), RowError> {
    match word {
        "new" => answer.add(Offset::new(offset.x, offset.y)),
        "equal" => answer.add(offset == args.offset()?),
        "neg" if offset.x != i32::MIN && offset.y != i32::MIN => answer.add(-offset),
        "neg" => Err(RowError::Requires),
        _ => Err(RowError::Unread),
    }
}

/// Makes a call on a size.
pub fn size(args: &mut Args<'_>, answer: &mut Answer) -> Result<(), RowError> {
    match args.word()? {
        "ZERO" => answer.add(Size::ZERO),
        "MIN" => answer.add(Size::MIN),
        "MAX" => answer.add(Size::MAX),
        "default" => answer.add(Size::default()),
        word => size_itself(word, args.size()?, args, answer),
    }
}

fn size_itself(
    word: &str,
    size: Size,
    args: &mut Args<'_>,
    answer: &mut Answer,
) -> Result<(), RowError> {
    match word {
        "new" => answer.add(Size::new(size.width, size.height)),
        "area" => answer.add(size.area()),
        "from_pair" => answer.add(Size::from((size.width, size.height))),
        "to_pair" => put_pair(<(u16, u16)>::from(size), answer),
        "print" => answer.print(args.alloc, &size),
        "equal" => answer.add(size == args.size()?),
        _ => Err(RowError::Unread),
    }
}

/// Makes a call on a margin.
pub fn margin(args: &mut Args<'_>, answer: &mut Answer) -> Result<(), RowError> {
    match args.word()? {
        "default" => answer.add(Margin::default()),
        "from" => answer.add(Margin::from(args.u16()?)),
        word => margin_itself(word, args.margin()?, args, answer),
    }
}

fn margin_itself(
    word: &str,
    margin: Margin,
    args: &mut Args<'_>,
    answer: &mut Answer,
) -> Result<(), RowError> {
    match word {
        "new" => answer.add(Margin::new(margin.horizontal, margin.vertical)),
        "print" => answer.print(args.alloc, &margin),
        "equal" => answer.add(margin == args.margin()?),
        _ => Err(RowError::Unread),
    }
}

fn walk_rows(rows: &mut Rows, word: &str, answer: &mut Answer) -> Result<(), RowError> {
    match word {
        "next" => answer.add(rows.next()),
        "next_back" => answer.add(rows.next_back()),
        "left" => answer.add(rows.size_hint().0),
        "at_most" => answer.add(rows.size_hint().1),
        _ => Err(RowError::Unread),
    }
}

fn walk_columns(columns: &mut Columns, word: &str, answer: &mut Answer) -> Result<(), RowError> {
    match word {
        "next" => answer.add(columns.next()),
        "next_back" => answer.add(columns.next_back()),
        "left" => answer.add(columns.size_hint().0),
        "at_most" => answer.add(columns.size_hint().1),
        _ => Err(RowError::Unread),
    }
}

fn walk_positions(places: &mut Positions, word: &str, answer: &mut Answer) -> Result<(), RowError> {
    match word {
        "next" => answer.add(places.next()),
        "left" => answer.add(places.size_hint().0),
        "at_most" => answer.add(places.size_hint().1),
        _ => Err(RowError::Unread),
    }
}

// The walks over an area's rows, columns and positions.
#[derive(Drop)]
enum Walk {
    Rows(Rows),
    Columns(Columns),
    Positions(Positions),
}

fn walk_of(word: &str, area: Rect) -> Result<Walk, RowError> {
    match word {
        "rows" => Ok(Walk::Rows(area.rows())),
        "Rows::new" => Ok(Walk::Rows(Rows::new(area))),
        "columns" => Ok(Walk::Columns(area.columns())),
        "Columns::new" => Ok(Walk::Columns(Columns::new(area))),
        "positions" => Ok(Walk::Positions(area.positions())),
        "Positions::new" => Ok(Walk::Positions(Positions::new(area))),
        _ => Err(RowError::Unread),
    }
}

/// Walks over a rectangle, step by step.
pub fn iterators(
    alloc: Global,
    args: &mut Args<'_>,
    later: &[Vec<Token>],
    answer: &mut Answer,
) -> Result<(), RowError> {
    let mut walk = walk_of(args.word()?, args.rect()?)?;
    for step in later {
        let word = Args::new(alloc, step.as_slice()).word()?;
        match &mut walk {
            Walk::Rows(rows) => walk_rows(rows, word, answer)?,
            Walk::Columns(columns) => walk_columns(columns, word, answer)?,
            Walk::Positions(places) => walk_positions(places, word, answer)?,
        }
    }
    Ok(())
}
