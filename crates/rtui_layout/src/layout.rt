ghost use Rattle.std.specs.Prelude.{◌≡◌, [], pos, IfOk, IsOk};
ghost use Rattle.rtui_layout.specs.Layout.{LayoutData, default_layout};
ghost use Rattle.rtui_layout.specs.Spacing.{spacing_from, cut_spacing_from};

use crate::constraint::Constraint;
use crate::constraints::Constraints;
use crate::direction::Direction;
use crate::flex::Flex;
use rtui_geometry::Margin;
use std::alloc::{AllocError, Global};
use std::marker::Model;

/// What lies between the parts of a layout, in columns or rows.
#[derive(Debug, Clone, PartialEq, Eq, Hash, Drop)]
pub enum Spacing {
    /// So many columns or rows stay free.
    Space(u16),
    /// So many columns or rows belong to both parts.
    Overlap(u16),
}

impl Default for Spacing {
    ghost use Rattle.rtui_layout.specs.declared.layout.Spacing.{Spacing};

    ghost is_default = { λ s. s ≡ Spacing.Space 0 };

    fn default() -> Self {
        Spacing::Space(0)
    }
}

impl From<i32> for Spacing {
    ghost from_gives = { λ n s. s ≡ cut_spacing_from n };

    fn from(value: i32) -> Self {
        Spacing::from(value.clamp(i32::from(i16::MIN), i32::from(i16::MAX)) as i16)
    }
}

impl From<u16> for Spacing {
    ghost use Rattle.rtui_layout.specs.declared.layout.Spacing.{Spacing};

    ghost from_gives = { λ n s. s ≡ Spacing.Space n };

    fn from(value: u16) -> Self {
        Spacing::Space(value)
    }
}

impl From<i16> for Spacing {
    ghost from_gives = { λ n s. s ≡ spacing_from n };

    fn from(value: i16) -> Self {
        if value < 0 {
            Spacing::Overlap(value.unsigned_abs())
        } else {
            Spacing::Space(value.unsigned_abs())
        }
    }
}

/// How an area is to be cut into parts: which way, by which constraints, within which margin, and
/// what becomes of the space that is left.
///
/// ```
/// let parts = [Constraint::Length(3), Constraint::Min(0)];
/// let layout = Layout::vertical(alloc, &parts)?.margin(1).flex(Flex::End);
/// layout.margin_of(); // 1x1
/// layout.constraints_of(); // [Length(3), Min(0)]
/// ```
#[derive(Debug, PartialEq, Eq, Hash, Drop)]
pub struct Layout {
    direction: Direction,
    constraints: Constraints,
    margin: Margin,
    flex: Flex,
    spacing: Spacing,
}

impl Model for Layout {
    ghost use Rattle.rtui_layout.specs.Layout.{LayoutData};

    ghost Value = { LayoutData };

    ghost view = { λ l. record {
      direction = l.direction;
      constraints = l.constraints;
      margin = l.margin;
      flex = l.flex;
      spacing = l.spacing;
    } };

    ghost inverse = { λ v. record {
      direction = v.direction;
      constraints = v.constraints;
      margin = v.margin;
      flex = v.flex;
      spacing = v.spacing;
    } };
}

impl Layout {
    /// Makes the layout that is vertical, has no constraints and no margin, begins at the start and
    /// leaves no space between its parts.
    pub fn default_in(alloc: Global) -> Self
        ensures { result ≡ default_layout }
    {
        Layout {
            direction: Direction::default(),
            constraints: Constraints::new(alloc),
            margin: Margin::default(),
            flex: Flex::default(),
            spacing: Spacing::default(),
        }
    }

    /// Makes the default layout with a direction and constraints.
    ///
    /// # Errors
    ///
    /// `AllocError` if memory is refused; no constraints take none.
    pub fn new(
        alloc: Global,
        direction: Direction,
        constraints: &[Constraint],
    ) -> Result<Self, AllocError>
        ensures ok { IfOk result (λ l.
            l ≡ record default_layout { direction = direction; constraints = constraints.now }) }
        ensures succeeds { constraints.now ≡ [] → IsOk result }
    {
        Layout::default_in(alloc)
            .direction(direction)
            .constraints(constraints)
    }

    /// Makes the layout from top to bottom with these constraints.
    ///
    /// # Errors
    ///
    /// `AllocError` if memory is refused; no constraints take none.
    pub fn vertical(alloc: Global, constraints: &[Constraint]) -> Result<Self, AllocError>
        ensures ok { IfOk result (λ l.
            l ≡ record default_layout
            { direction = Direction.Vertical; constraints = constraints.now }) }
        ensures succeeds { constraints.now ≡ [] → IsOk result }
    {
        Layout::new(alloc, Direction::Vertical, constraints)
    }

    /// Makes the layout from left to right with these constraints.
    ///
    /// # Errors
    ///
    /// `AllocError` if memory is refused; no constraints take none.
    pub fn horizontal(alloc: Global, constraints: &[Constraint]) -> Result<Self, AllocError>
        ensures ok { IfOk result (λ l.
            l ≡ record default_layout
            { direction = Direction.Horizontal; constraints = constraints.now }) }
        ensures succeeds { constraints.now ≡ [] → IsOk result }
    {
        Layout::new(alloc, Direction::Horizontal, constraints)
    }

    /// Sets the direction of the layout.
    pub fn direction(mut self, direction: Direction) -> Self
        ensures { result ≡ record self { direction = direction } }
    {
        self.direction = direction;
        self
    }

    /// Sets the constraints of the layout.
    ///
    /// # Errors
    ///
    /// `AllocError` if memory is refused; the layout is gone then. No constraints take none.
    pub fn constraints(mut self, constraints: &[Constraint]) -> Result<Self, AllocError>
        ensures ok { IfOk result (λ l. l ≡ record self { constraints = constraints.now }) }
        ensures succeeds { constraints.now ≡ [] → IsOk result }
    {
        self.constraints = Constraints::from_slice(self.constraints.allocator(), constraints)?;
        Ok(self)
    }

    /// Sets the same margin on all sides of the layout, in columns and rows.
    pub fn margin(mut self, margin: u16) -> Self
        ensures { result
            ≡ record self { margin = record { horizontal = margin; vertical = margin } } }
    {
        self.margin = Margin::from(margin);
        self
    }

    /// Sets the margin of the layout to the left and to the right, in columns.
    pub fn horizontal_margin(mut self, horizontal: u16) -> Self
        ensures { result ≡ record self { margin = record self.margin { horizontal = horizontal } } }
    {
        self.margin.horizontal = horizontal;
        self
    }

    /// Sets the margin of the layout at the top and at the bottom, in rows.
    pub fn vertical_margin(mut self, vertical: u16) -> Self
        ensures { result ≡ record self { margin = record self.margin { vertical = vertical } } }
    {
        self.margin.vertical = vertical;
        self
    }

    /// Sets where the space that is left goes.
    pub fn flex(mut self, flex: Flex) -> Self
        ensures { result ≡ record self { flex = flex } }
    {
        self.flex = flex;
        self
    }

    /// Sets the space between the parts of the layout.
    pub fn spacing(mut self, spacing: Spacing) -> Self
        ensures { result ≡ record self { spacing = spacing } }
    {
        self.spacing = spacing;
        self
    }

    /// Returns the direction.
    pub fn direction_of(&self) -> Direction
        ensures { result ≡ self.now.direction }
    {
        self.direction
    }

    /// Returns the constraints, in their order.
    pub fn constraints_of(&self) -> &[Constraint]
        ensures { result.now ≡ self.now.constraints }
    {
        self.constraints.as_slice()
    }

    /// Returns the margin.
    pub fn margin_of(&self) -> Margin
        ensures { result ≡ self.now.margin }
    {
        self.margin
    }

    /// Returns where the space that is left goes.
    pub fn flex_of(&self) -> Flex
        ensures { result ≡ self.now.flex }
    {
        self.flex
    }

    /// Returns the space between the parts.
    pub fn spacing_of(&self) -> &Spacing
        ensures { result.now ≡ self.now.spacing }
    {
        &self.spacing
    }

    /// Makes an equal layout.
    ///
    /// # Errors
    ///
    /// `AllocError` if memory is refused; a layout of no constraints takes none.
    pub fn clone(&self, alloc: Global) -> Result<Self, AllocError>
        ensures ok { IfOk result (λ l. l ≡ self.now) }
        ensures succeeds { self.now.constraints ≡ [] → IsOk result }
    {
        Ok(Layout {
            direction: self.direction,
            constraints: Constraints::from_slice(alloc, self.constraints.as_slice())?,
            margin: self.margin,
            flex: self.flex,
            spacing: self.spacing.clone()?,
        })
    }
}
