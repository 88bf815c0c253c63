//! Rectangles moved by offsets.
ghost use Rattle.std.specs.Prelude.{◌≡◌};
ghost use Rattle.rtui_geometry.specs.Offset.{moved_rect, opposite};

use crate::offset::{Offset, moved, moved_back};
use crate::rect::Rect;
use std::ops::{Add, AddAssign, Sub, SubAssign};

impl Add<Offset> for Rect {
    type Output = Self;

    ghost add_gives = { λ r o s. s ≡ moved_rect r o };

    fn add(self, offset: Offset) -> Self {
        Rect {
            x: moved(self.x, offset.x, u16::MAX - self.width),
            y: moved(self.y, offset.y, u16::MAX - self.height),
            ..self
        }
    }
}

impl Add<Rect> for Offset {
    type Output = Rect;

    ghost add_gives = { λ o r s. s ≡ moved_rect r o };

    fn add(self, rect: Rect) -> Rect {
        rect + self
    }
}

impl Sub<Offset> for Rect {
    type Output = Self;

    ghost sub_gives = { λ r o s. s ≡ moved_rect r (opposite o) };

    fn sub(self, offset: Offset) -> Self {
        Rect {
            x: moved_back(self.x, offset.x, u16::MAX - self.width),
            y: moved_back(self.y, offset.y, u16::MAX - self.height),
            ..self
        }
    }
}

impl AddAssign<Offset> for Rect {
    ghost add_assign_gives = { λ r o s. s ≡ moved_rect r o };

    fn add_assign(&mut self, offset: Offset) {
        *self = *self + offset;
    }
}

impl SubAssign<Offset> for Rect {
    ghost sub_assign_gives = { λ r o s. s ≡ moved_rect r (opposite o) };

    fn sub_assign(&mut self, offset: Offset) {
        *self = *self - offset;
    }
}
