ghost use Rattle.std.specs.Prelude.{◌≡◌, ◌+◌, ◌-◌, ◌*◌, ◌≤◌, ◌<◌, ◌^◌, ◌↔◌, ◌⊎◌, min, max, length, IsTrue};
ghost use Rattle.std.specs.Prelude.{Some};
ghost use Rattle.rtui_geometry.specs.Rect.{right_edge, bottom_edge, HasPosition, corner, SharePosition};
ghost use Rattle.rtui_geometry.specs.Rect.{EdgesFit, IsInside, cut_rect, united, intersected, Intersects};
ghost use Rattle.rtui_geometry.specs.Rect.{HasRoom, shrunk, grown, KeepsMargin, between};
ghost use Rattle.rtui_geometry.specs.Offset.{moved_rect};
ghost use Rattle.rtui_geometry.specs.Rows.{rows_of, columns_of, positions_of, ListsRows, ListsColumns};
ghost use Rattle.rtui_geometry.specs.Rows.{ListsPositions};
ghost use Rattle.rtui_geometry.specs.Display.{rect_text};

use crate::margin::Margin;
use crate::offset::Offset;
use crate::position::Position;
use crate::size::Size;
use std::fmt;

mod iter;
mod ops;

pub use iter::{Columns, Positions, Rows};

/// A rectangle of cells: the column and the row of its corner at the top left, and how many columns
/// and rows it has. Its positions are those from the corner up to its right and bottom edge.
///
/// ```
/// let screen = Rect::new(0, 0, 80, 24);
/// let inside = screen.inner(Margin::new(2, 1)); // 76x22+2+1
/// inside.contains(Position::new(77, 22)); // true
/// inside.right(); // 78
/// ```
#[derive(Debug, Default, Clone, Copy, PartialEq, Eq, Hash)]
pub struct Rect {
    pub x: u16,
    pub y: u16,
    pub width: u16,
    pub height: u16,
}

/// `WxH+X+Y`
impl fmt::Display for Rect {
    ghost output = { λ r. Some (rect_text r) };

    fn fmt<W: fmt::Write>(&self, f: &mut fmt::Formatter<W>) -> fmt::Result {
        let Rect {
            x,
            y,
            width,
            height,
        } = *self;
        write!(f, "{width}x{height}+{x}+{y}")
    }
}

impl Rect {
    /// No columns and no rows, in the corner of the grid.
    pub const ZERO: Self = Rect {
        x: 0,
        y: 0,
        width: 0,
        height: 0,
    };

    /// The least rectangle, `ZERO`.
    pub const MIN: Self = Rect {
        x: 0,
        y: 0,
        width: 0,
        height: 0,
    };

    /// The greatest rectangle in the corner of the grid.
    pub const MAX: Self = Rect {
        x: 0,
        y: 0,
        width: 65535,
        height: 65535,
    };

    /// Makes the rectangle at a corner, with its size cut so that neither edge lies past 65535.
    pub fn new(x: u16, y: u16, width: u16, height: u16) -> Self
        ensures value { result ≡ cut_rect x y width height }
        ensures fits { EdgesFit result }
    {
        Rect {
            x,
            y,
            width: width.min(u16::MAX - x),
            height: height.min(u16::MAX - y),
        }
    }

    /// Returns how many cells the rectangle has.
    pub fn area(self) -> u32
        ensures { result ≡ self.width * self.height }
    {
        u32::from(self.width) * u32::from(self.height)
    }

    /// Returns whether the rectangle has no column or no row.
    pub fn is_empty(self) -> bool
        ensures { IsTrue result ↔ ((self.width ≡ 0) ⊎ (self.height ≡ 0)) }
    {
        self.width == 0 || self.height == 0
    }

    /// Returns the first column.
    pub fn left(self) -> u16
        ensures { result ≡ self.x }
    {
        self.x
    }

    /// Returns the column right after the last one, at most 65535.
    pub fn right(self) -> u16
        ensures { result ≡ right_edge self }
    {
        self.x.saturating_add(self.width)
    }

    /// Returns the first row.
    pub fn top(self) -> u16
        ensures { result ≡ self.y }
    {
        self.y
    }

    /// Returns the row right below the last one, at most 65535.
    pub fn bottom(self) -> u16
        ensures { result ≡ bottom_edge self }
    {
        self.y.saturating_add(self.height)
    }

    /// Returns the rectangle less a margin on each side, or `ZERO` if it has no room for the
    /// margin.
    pub fn inner(self, margin: Margin) -> Self
        ensures room { HasRoom self margin → result ≡ shrunk self margin }
        ensures no_room { ¬ (HasRoom self margin) → result ≡ Rect.ZERO }
        ensures positions { EdgesFit self → (p : Position)
            → HasPosition result p ↔ KeepsMargin self margin p }
        ensures inside { IsInside result self }
    {
        let horizontal = margin.horizontal.saturating_mul(2);
        let vertical = margin.vertical.saturating_mul(2);
        if self.width < horizontal || self.height < vertical {
            Rect::ZERO
        } else {
            Rect {
                x: self.x.saturating_add(margin.horizontal),
                y: self.y.saturating_add(margin.vertical),
                width: self.width - horizontal,
                height: self.height - vertical,
            }
        }
    }

    /// Returns the rectangle with each edge moved out by a margin, as far as the grid goes.
    pub fn outer(self, margin: Margin) -> Self
        ensures value { result ≡ grown self margin }
        ensures fits { EdgesFit result }
        ensures inside { IsInside self result }
    {
        let x = self.x.saturating_sub(margin.horizontal);
        let y = self.y.saturating_sub(margin.vertical);
        Rect {
            x,
            y,
            width: self.right().saturating_add(margin.horizontal) - x,
            height: self.bottom().saturating_add(margin.vertical) - y,
        }
    }

    /// Returns the rectangle moved by the offset. Its size stays, and no edge leaves the grid.
    pub fn offset(self, offset: Offset) -> Self
        ensures value { result ≡ moved_rect self offset }
        ensures fits { EdgesFit result }
    {
        self + offset
    }

    /// Returns the rectangle at the same corner with another size, cut as `new` does.
    pub fn resize(self, size: Size) -> Self
        ensures value { result ≡ cut_rect self.x self.y size.width size.height }
        ensures fits { EdgesFit result }
    {
        Rect::new(self.x, self.y, size.width, size.height)
    }

    /// Returns the smallest rectangle that spans both, even if one of them is empty.
    pub fn union(self, other: Self) -> Self
        ensures value { result ≡ united self other }
        ensures fits { EdgesFit result }
        ensures first { IsInside self result }
        ensures second { IsInside other result }
    {
        let x = self.x.min(other.x);
        let y = self.y.min(other.y);
        Rect {
            x,
            y,
            width: self.right().max(other.right()) - x,
            height: self.bottom().max(other.bottom()) - y,
        }
    }

    /// Returns the rectangle of the positions that both have. If they have none, it is empty.
    pub fn intersection(self, other: Self) -> Self
        ensures value { result ≡ intersected self other }
        ensures positions { (p : Position)
            → HasPosition result p ↔ (HasPosition self p × HasPosition other p) }
        ensures fits { EdgesFit result }
    {
        let x = self.x.max(other.x);
        let y = self.y.max(other.y);
        Rect {
            x,
            y,
            width: self.right().min(other.right()).saturating_sub(x),
            height: self.bottom().min(other.bottom()).saturating_sub(y),
        }
    }

    /// Returns whether the rectangles overlap. An empty rectangle within another overlaps it.
    pub fn intersects(self, other: Self) -> bool
        ensures value { IsTrue result ↔ Intersects self other }

        // If both have positions, they share one.
        ensures shared { HasPosition self (corner self) → HasPosition other (corner other)
            → IsTrue result ↔ SharePosition self other }
    {
        self.x < other.right()
            && self.right() > other.x
            && self.y < other.bottom()
            && self.bottom() > other.y
    }

    /// Returns whether the position is one of the rectangle's.
    pub fn contains(self, position: Position) -> bool
        ensures { IsTrue result ↔ HasPosition self position }
    {
        position.x >= self.x
            && position.x < self.right()
            && position.y >= self.y
            && position.y < self.bottom()
    }

    /// Returns the rectangle cut to the size of another, and moved as little as it takes to lie in
    /// it.
    ///
    /// # Conditions
    ///
    /// The edges of `other` lie on the grid: `x + width` and `y + height` are at most 65535. If
    /// they don't, the Rust crate may panic.
    pub fn clamp(self, other: Self) -> Self
        requires { EdgesFit other }
        ensures width { result.width ≡ min self.width other.width }
        ensures height { result.height ≡ min self.height other.height }
        ensures x { result.x ≡ between other.x (other.x + other.width - result.width) self.x }
        ensures y { result.y ≡ between other.y (other.y + other.height - result.height) self.y }
        ensures fits { EdgesFit result }
        ensures inside { IsInside result other }
    {
        let width = self.width.min(other.width);
        let height = self.height.min(other.height);
        let x = self.x.clamp(other.x, other.right() - width);
        let y = self.y.clamp(other.y, other.bottom() - height);
        Rect::new(x, y, width, height)
    }

    /// Returns the rows from top to bottom, each a rectangle of height 1.
    #[tactic(auto, using(crate::proofs::Numbers::ends))]
    pub fn rows(self) -> Rows
        ensures value { result ≡ rows_of self }
        ensures meaning { ListsRows self result }
        ensures count { length result ≡ bottom_edge self - self.y }
    {
        Rows::new(self)
    }

    /// Returns the columns from left to right, each a rectangle of width 1.
    #[tactic(auto, using(crate::proofs::Numbers::ends))]
    pub fn columns(self) -> Columns
        ensures value { result ≡ columns_of self }
        ensures meaning { ListsColumns self result }
        ensures count { length result ≡ right_edge self - self.x }
    {
        Columns::new(self)
    }

    /// Returns the positions, row by row.
    #[tactic(auto, using(crate::proofs::Places::counts))]
    pub fn positions(self) -> Positions
        ensures value { result ≡ positions_of self }
        ensures meaning { ListsPositions self result }
        ensures count { length result ≡ (bottom_edge self - self.y) * (right_edge self - self.x) }
        ensures area { EdgesFit self → length result ≡ self.width * self.height }
        ensures bound { length result < 2 ^ 32 }
    {
        Positions::new(self)
    }

    /// Returns the corner at the top left.
    pub fn as_position(self) -> Position
        ensures { result ≡ corner self }
    {
        Position {
            x: self.x,
            y: self.y,
        }
    }

    /// Returns the number of columns and of rows.
    pub fn as_size(self) -> Size
        ensures { result ≡ record { width = self.width; height = self.height } }
    {
        Size {
            width: self.width,
            height: self.height,
        }
    }
}

impl From<(Position, Size)> for Rect {
    ghost from_gives = { λ pair r. r
        ≡ record { x = pair.0.x; y = pair.0.y; width = pair.1.width; height = pair.1.height } };

    fn from((position, size): (Position, Size)) -> Self {
        Rect {
            x: position.x,
            y: position.y,
            width: size.width,
            height: size.height,
        }
    }
}

impl From<Size> for Rect {
    ghost from_gives = { λ s r. r ≡ record { x = 0; y = 0; width = s.width; height = s.height } };

    fn from(size: Size) -> Self {
        Rect {
            x: 0,
            y: 0,
            width: size.width,
            height: size.height,
        }
    }
}
