//! The calls of layouts and areas.
ghost use Rattle.std.specs.Prelude.{◌≡◌, ◌↔◌, ◌≤◌, ◌<◌, ◌+◌, ◌^◌, [], ◌∷◌, List, length, IfOk, IsOk};
ghost use Rattle.rtui_geometry.specs.declared.rect.Rect.{Rect};
ghost use Rattle.rtui_layout.specs.declared.direction.Direction.TheVariants.{Horizontal, Vertical};
ghost use Rattle.rtui_layout.specs.Layout.{LayoutData};
ghost use Rattle.rtui_split.specs.Split.{inner, centered_layout, IsSplit};
ghost use Rattle.rtui_split.specs.Spacers.{IsSplitWithSpacers, AreSpacers};

use crate::lane::{cut_array, cut_centered, cut_list, lane_of, spaces_array, spaces_list};
use rtui_geometry::Rect;
use rtui_layout::{Constraint, Direction, Layout};
use std::alloc::{AllocError, Global};

/// The parts of an area, and the spaces before, between and after them.
#[derive(Debug, Drop)]
pub struct Cut {
    /// The parts, one for each constraint.
    pub segments: Vec<Rect>,
    /// The spaces, one more than parts.
    pub spacers: Vec<Rect>,
}

/// The array has not as many elements as there are parts.
#[derive(Debug, Clone, Copy, PartialEq, Eq)]
pub struct CountError;

/// What divides an area into parts.
///
/// ```
/// let layout = Layout::vertical(alloc, &[Constraint::Length(1), Constraint::Fill(1)])?;
/// let parts = layout.split(alloc, frame.area())?; // two rectangles
/// ```
pub trait Split {
    ghost use Rattle.std.specs.Prelude.{◌≡◌, ◌↔◌, ◌<◌, ◌+◌, ◌^◌, List, length, IfOk, IsOk};
    ghost use Rattle.rtui_geometry.specs.declared.rect.Rect.{Rect};
    ghost use Rattle.rtui_layout.specs.Layout.{LayoutData};
    ghost use Rattle.rtui_split.specs.Split.{inner, IsSplit};
    ghost use Rattle.rtui_split.specs.Spacers.{IsSplitWithSpacers, AreSpacers};

    /// The layout.
    ghost layout: { Self → LayoutData };

    /// Returns the parts of an area.
    ///
    /// # Errors
    ///
    /// `AllocError` if memory is refused.
    fn split(&self, alloc: Global, area: Rect) -> Result<Vec<Rect>, AllocError>
        ensures { IfOk result (λ parts. IsSplit (layout self.now)
            (inner area (layout self.now).margin) parts.items) };

    /// Returns the parts of an area, and the spaces before, between and after them.
    ///
    /// # Errors
    ///
    /// `AllocError` if memory is refused.
    fn split_with_spacers(&self, alloc: Global, area: Rect) -> Result<Cut, AllocError>
        ensures { IfOk result (IsSplitWithSpacers (layout self.now)
            (inner area (layout self.now).margin)) };
}

impl Split for Layout {
    ghost layout = { λ l. l };

    fn split(&self, alloc: Global, area: Rect) -> Result<Vec<Rect>, AllocError> {
        cut_list(alloc, self, lane_of(self, area))
    }

    fn split_with_spacers(&self, alloc: Global, area: Rect) -> Result<Cut, AllocError> {
        let lane = lane_of(self, area);
        let segments = cut_list(alloc, self, lane)?;
        let spacers = spaces_list(alloc, self, lane, &segments)?;
        Ok(Cut { segments, spacers })
    }
}

/// What divides an area into an array of parts.
///
/// ```
/// let layout = Layout::vertical(alloc, &[Constraint::Length(1), Constraint::Fill(1)])?;
/// let [head, body]: [Rect; 2] = layout.areas(frame.area());
/// ```
pub trait SplitInto<const N: usize> {
    ghost use Rattle.std.specs.Prelude.{◌≡◌, ◌↔◌, ◌<◌, ◌+◌, ◌^◌, List, length, IfOk, IsOk};
    ghost use Rattle.rtui_geometry.specs.declared.rect.Rect.{Rect};
    ghost use Rattle.rtui_layout.specs.Layout.{LayoutData};
    ghost use Rattle.rtui_split.specs.Split.{inner, IsSplit};
    ghost use Rattle.rtui_split.specs.Spacers.{IsSplitWithSpacers, AreSpacers};

    /// The layout.
    ghost layout: { Self → LayoutData };

    /// Returns the parts of an area, in an array of as many; takes no memory.
    fn areas(&self, area: Rect) -> [Rect; N]
        requires count { N ≡ length (layout self.now).constraints }
        requires small { N < 2 ^ 32 }
        ensures { IsSplit (layout self.now) (inner area (layout self.now).margin) result };

    /// Returns the parts of an area, in an array if it has as many; takes no memory.
    ///
    /// # Errors
    ///
    /// `CountError` if the array has another number of elements than there are parts.
    fn try_areas(&self, area: Rect) -> Result<[Rect; N], CountError>
        requires small { N < 2 ^ 32 }
        ensures value { IfOk result
            (IsSplit (layout self.now) (inner area (layout self.now).margin)) }
        ensures count { IsOk result ↔ (N ≡ length (layout self.now).constraints) };

    /// Returns the spaces before, between and after the parts of an area, in an array of one more
    /// than parts; takes no memory.
    fn spacers(&self, area: Rect) -> [Rect; N]
        requires count { N ≡ length (layout self.now).constraints + 1 }
        requires small { N < 2 ^ 32 }
        ensures { (parts : List Rect)
            × IsSplit (layout self.now) (inner area (layout self.now).margin) parts
            × AreSpacers (layout self.now) (inner area (layout self.now).margin) result parts };
}

impl<const N: usize> SplitInto<N> for Layout {
    ghost layout = { λ l. l };

    fn areas(&self, area: Rect) -> [Rect; N] {
        cut_array(self, lane_of(self, area))
    }

    fn try_areas(&self, area: Rect) -> Result<[Rect; N], CountError> {
        if self.constraints_of().len() == N {
            Ok(cut_array(self, lane_of(self, area)))
        } else {
            Err(CountError)
        }
    }

    fn spacers(&self, area: Rect) -> [Rect; N] {
        spaces_array(self, lane_of(self, area))
    }
}

/// What is divided by a layout.
pub trait SplitArea {
    ghost use Rattle.std.specs.Prelude.{◌≡◌, ◌↔◌, ◌<◌, ◌^◌, [], ◌∷◌, List, length, IfOk, IsOk};
    ghost use Rattle.rtui_geometry.specs.declared.rect.Rect.{Rect};
    ghost use Rattle.rtui_layout.specs.declared.direction.Direction.TheVariants.{Horizontal, Vertical};
    ghost use Rattle.rtui_split.specs.Split.{inner, centered_layout, IsSplit};

    /// The area.
    ghost area: { Self → Rect };

    /// Returns the parts by a layout.
    ///
    /// # Errors
    ///
    /// `AllocError` if memory is refused.
    fn layout_vec(self, alloc: Global, layout: &Layout) -> Result<Vec<Rect>, AllocError>
        ensures { IfOk result (λ parts.
            IsSplit layout.now (inner (area self) layout.now.margin) parts.items) };

    /// Returns the columns that a constraint wishes, in the middle of the area.
    fn centered_horizontally(self, constraint: Constraint) -> Rect
        ensures { IsSplit (centered_layout Horizontal constraint) (area self) (result ∷ []) };

    /// Returns the rows that a constraint wishes, in the middle of the area.
    fn centered_vertically(self, constraint: Constraint) -> Rect
        ensures { IsSplit (centered_layout Vertical constraint) (area self) (result ∷ []) };

    /// Returns the columns and rows that two constraints wish, in the middle of the area.
    fn centered(self, horizontal: Constraint, vertical: Constraint) -> Rect
        ensures { (columns : Rect)
            × IsSplit (centered_layout Horizontal horizontal) (area self) (columns ∷ [])
            × IsSplit (centered_layout Vertical vertical) columns (result ∷ []) };
}

impl SplitArea for Rect {
    ghost area = { λ r. r };

    fn layout_vec(self, alloc: Global, layout: &Layout) -> Result<Vec<Rect>, AllocError> {
        layout.split(alloc, self)
    }

    fn centered_horizontally(self, constraint: Constraint) -> Rect {
        cut_centered(constraint, Direction::Horizontal, self)
    }

    fn centered_vertically(self, constraint: Constraint) -> Rect {
        cut_centered(constraint, Direction::Vertical, self)
    }

    fn centered(self, horizontal: Constraint, vertical: Constraint) -> Rect {
        self.centered_horizontally(horizontal)
            .centered_vertically(vertical)
    }
}

/// What is divided by a layout into an array of parts.
///
/// ```
/// let layout = Layout::vertical(alloc, &[Constraint::Length(1), Constraint::Fill(1)])?;
/// let [head, body]: [Rect; 2] = frame.area().layout(&layout);
/// ```
pub trait SplitAreaInto<const N: usize> {
    ghost use Rattle.std.specs.Prelude.{◌≡◌, ◌↔◌, ◌<◌, ◌^◌, List, length, IfOk, IsOk};
    ghost use Rattle.rtui_geometry.specs.declared.rect.Rect.{Rect};
    ghost use Rattle.rtui_split.specs.Split.{inner, IsSplit};

    /// The area.
    ghost area: { Self → Rect };

    /// Returns the parts by a layout of as many constraints; takes no memory.
    fn layout(self, layout: &Layout) -> [Rect; N]
        requires count { N ≡ length layout.now.constraints }
        requires small { N < 2 ^ 32 }
        ensures { IsSplit layout.now (inner (area self) layout.now.margin) result };

    /// Returns the parts by a layout, in an array if it has as many; takes no memory.
    ///
    /// # Errors
    ///
    /// `CountError` if the array has another number of elements than the layout has constraints.
    fn try_layout(self, layout: &Layout) -> Result<[Rect; N], CountError>
        requires small { N < 2 ^ 32 }
        ensures value { IfOk result (IsSplit layout.now (inner (area self) layout.now.margin)) }
        ensures count { IsOk result ↔ (N ≡ length layout.now.constraints) };
}

impl<const N: usize> SplitAreaInto<N> for Rect {
    ghost area = { λ r. r };

    fn layout(self, layout: &Layout) -> [Rect; N] {
        layout.areas(self)
    }

    fn try_layout(self, layout: &Layout) -> Result<[Rect; N], CountError> {
        layout.try_areas(self)
    }
}
