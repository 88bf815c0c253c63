//! The rows, the columns and the positions of a rectangle.
ghost use Rattle.std.specs.Prelude.{◌≡◌, length, Some, IfSome};
ghost use Rattle.std.specs.Iterator.{YieldsFirst, YieldsLast, item_count, at_most, UpTo};
ghost use Rattle.std.specs.Iterator.SizeHint.{IsWithinCount};
ghost use Rattle.rtui_geometry.specs.Rows.{rows_of, columns_of, positions_of};

use crate::position::Position;
use crate::rect::Rect;
use std::marker::Model;

/// The rows of a rectangle that are left, from top to bottom.
#[derive(Drop)]
pub struct Rows {
    rect: Rect,
    front: u16,
    back: u16,
}

impl Model for Rows {
    ghost use Rattle.std.specs.Prelude.{List, map};
    ghost use Rattle.rtui_geometry.specs.declared.rect.Rect.{Rect};
    ghost use Rattle.rtui_geometry.specs.Rows.{numbers, row_at};

    ghost Value = { List Rect };

    ghost view = { λ s. map (row_at s.rect) (numbers s.front s.back) };
}

impl Rows {
    /// Makes the iterator over all rows of the rectangle.
    pub fn new(rect: Rect) -> Self
        ensures { result ≡ rows_of rect }
    {
        Rows {
            rect,
            front: rect.y,
            back: rect.bottom(),
        }
    }
}

impl Iterator for Rows {
    type Item = Rect;

    ghost next_gives = { YieldsFirst (λ rest. rest) };

    ghost remaining = { item_count (λ rest. rest) };

    #[tactic(auto, using(crate::proofs::Numbers::ends))]
    fn next(&mut self) -> Option<Rect> {
        if self.front >= self.back {
            return None;
        }
        let row = Rect::new(self.rect.x, self.front, self.rect.width, 1);
        self.front += 1;
        Some(row)
    }

    #[tactic(auto, using(crate::proofs::Numbers::ends))]
    fn size_hint(&self) -> (usize, Option<usize>)
        ensures lower { IsWithinCount result.0 (at_most (length self.now)) }
        ensures upper { IfSome result.1 (UpTo (at_most (length self.now))) }
        ensures exact { result ≡ (length self.now, Some (length self.now)) }
    {
        let rows = usize::from(self.back.saturating_sub(self.front));
        (rows, Some(rows))
    }
}

impl DoubleEndedIterator for Rows {
    ghost next_back_gives = { YieldsLast (λ rest. rest) };

    #[tactic(auto, using(crate::proofs::Numbers::ends))]
    fn next_back(&mut self) -> Option<Rect> {
        if self.back <= self.front {
            return None;
        }
        self.back -= 1;
        let row = Rect::new(self.rect.x, self.back, self.rect.width, 1);
        Some(row)
    }
}

/// The columns of a rectangle that are left, from left to right.
#[derive(Drop)]
pub struct Columns {
    rect: Rect,
    front: u16,
    back: u16,
}

impl Model for Columns {
    ghost use Rattle.std.specs.Prelude.{List, map};
    ghost use Rattle.rtui_geometry.specs.declared.rect.Rect.{Rect};
    ghost use Rattle.rtui_geometry.specs.Rows.{numbers, column_at};

    ghost Value = { List Rect };

    ghost view = { λ s. map (column_at s.rect) (numbers s.front s.back) };
}

impl Columns {
    /// Makes the iterator over all columns of the rectangle.
    pub fn new(rect: Rect) -> Self
        ensures { result ≡ columns_of rect }
    {
        Columns {
            rect,
            front: rect.x,
            back: rect.right(),
        }
    }
}

impl Iterator for Columns {
    type Item = Rect;

    ghost next_gives = { YieldsFirst (λ rest. rest) };

    ghost remaining = { item_count (λ rest. rest) };

    #[tactic(auto, using(crate::proofs::Numbers::ends))]
    fn next(&mut self) -> Option<Rect> {
        if self.front >= self.back {
            return None;
        }
        let column = Rect::new(self.front, self.rect.y, 1, self.rect.height);
        self.front += 1;
        Some(column)
    }

    #[tactic(auto, using(crate::proofs::Numbers::ends))]
    fn size_hint(&self) -> (usize, Option<usize>)
        ensures lower { IsWithinCount result.0 (at_most (length self.now)) }
        ensures upper { IfSome result.1 (UpTo (at_most (length self.now))) }
        ensures exact { result ≡ (length self.now, Some (length self.now)) }
    {
        let columns = usize::from(self.back.saturating_sub(self.front));
        (columns, Some(columns))
    }
}

impl DoubleEndedIterator for Columns {
    ghost next_back_gives = { YieldsLast (λ rest. rest) };

    #[tactic(auto, using(crate::proofs::Numbers::ends))]
    fn next_back(&mut self) -> Option<Rect> {
        if self.back <= self.front {
            return None;
        }
        self.back -= 1;
        let column = Rect::new(self.back, self.rect.y, 1, self.rect.height);
        Some(column)
    }
}

/// The positions of a rectangle that are left, row by row.
#[derive(Drop)]
pub struct Positions {
    rect: Rect,
    current: Position,
}

impl Model for Positions {
    ghost use Rattle.std.specs.Prelude.{List};
    ghost use Rattle.rtui_geometry.specs.declared.position.Position.{Position};
    ghost use Rattle.rtui_geometry.specs.Rect.{bottom_edge};
    ghost use Rattle.rtui_geometry.specs.Rows.{numbers, positions_from, IsPlace};

    ghost Value = { List Position };

    ghost view = { λ s. positions_from s.rect s.current.x
        (numbers s.current.y (bottom_edge s.rect)) };

    ghost invariant = { λ s. IsPlace s.rect s.current };
}

impl Positions {
    /// Makes the iterator over all positions of the rectangle.
    #[tactic(auto, using(crate::proofs::Places::walk))]
    pub fn new(rect: Rect) -> Self
        ensures { result ≡ positions_of rect }
    {
        Positions {
            rect,
            current: Position::new(rect.x, rect.y),
        }
    }
}

impl Iterator for Positions {
    type Item = Position;

    ghost next_gives = { YieldsFirst (λ rest. rest) };

    ghost remaining = { item_count (λ rest. rest) };

    #[tactic(auto, using(crate::proofs::Places::walk))]
    fn next(&mut self) -> Option<Position> {
        if !self.rect.contains(self.current) {
            return None;
        }
        let position = self.current;
        self.current.x += 1;
        if self.current.x >= self.rect.right() {
            self.current.x = self.rect.x;
            self.current.y += 1;
        }
        Some(position)
    }

    #[tactic(auto, using(crate::proofs::Places::walk))]
    fn size_hint(&self) -> (usize, Option<usize>)
        ensures lower { IsWithinCount result.0 (at_most (length self.now)) }
        ensures upper { IfSome result.1 (UpTo (at_most (length self.now))) }
        ensures exact { result ≡ (length self.now, Some (length self.now)) }
    {
        let rows = usize::from(self.rect.bottom().saturating_sub(self.current.y));
        if rows == 0 {
            return (0, Some(0));
        }
        let width = usize::from(self.rect.right() - self.rect.x);
        let columns = usize::from(self.rect.right().saturating_sub(self.current.x));
        let count = (rows - 1) * width + columns;
        (count, Some(count))
    }
}
