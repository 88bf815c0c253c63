//! Parts of an area.

ghost use Rattle.std.specs.Prelude.{◌≡◌};
ghost use Rattle.rtui_drawing.specs.Cuts.{cut_from};

use rtui_geometry::Rect;

/// A part of an area, which lies in it: some columns or some rows, as far as the area has them, or
/// what it shares with another area.
///
/// ```
/// Cut::First(4).of(Rect::new(2, 0, 10, 3)); // Rect::new(2, 0, 4, 3)
/// Cut::After(4).of(Rect::new(2, 0, 10, 3)); // Rect::new(6, 0, 6, 3)
/// Cut::Rows(1, 1).of(Rect::new(2, 0, 10, 3)); // Rect::new(2, 1, 10, 1)
/// ```
#[derive(Debug, Clone, Copy, PartialEq, Eq)]
pub enum Cut {
    /// So many columns at the left.
    First(u16),
    /// All columns but so many at the left.
    After(u16),
    /// So many columns at the right.
    Last(u16),
    /// All columns but so many at the right.
    BeforeLast(u16),
    /// So many columns in the middle, as many before them as after them, or one fewer.
    Middle(u16),
    /// Rows: the number of the first one, from 0 on, and how many there are.
    Rows(u16, u16),
    /// All rows but so many at the top.
    Below(u16),
    /// All rows but so many at the bottom.
    Above(u16),
    /// What another area has of it.
    Within(Rect),
}

impl Cut {
    /// Returns this part of an area.
    pub fn of(self, area: Rect) -> Rect
        ensures { result ≡ cut_from self area }
    {
        match self {
            Cut::First(n) => Rect {
                width: n.min(area.width),
                ..area
            },
            Cut::After(n) => Rect {
                x: area.x.saturating_add(n),
                width: area.width.saturating_sub(n),
                ..area
            },
            Cut::Last(n) => Rect {
                x: area.x.saturating_add(area.width.saturating_sub(n)),
                width: n.min(area.width),
                ..area
            },
            Cut::BeforeLast(n) => Rect {
                width: area.width.saturating_sub(n),
                ..area
            },
            Cut::Middle(n) => Rect {
                x: area.x.saturating_add(area.width.saturating_sub(n) / 2),
                width: n.min(area.width),
                ..area
            },
            Cut::Rows(y, n) => Rect {
                y: area.y.saturating_add(y),
                height: n.min(area.height.saturating_sub(y)),
                ..area
            },
            Cut::Below(n) => Rect {
                y: area.y.saturating_add(n),
                height: area.height.saturating_sub(n),
                ..area
            },
            Cut::Above(n) => Rect {
                height: area.height.saturating_sub(n),
                ..area
            },
            Cut::Within(other) => area.intersection(other),
        }
    }
}
