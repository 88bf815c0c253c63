//! Laws of divided areas. Calling one of these functions costs nothing and tells the caller's proof
//! its law.

ghost use Rattle.std.specs.Prelude.{ℕ, ◌≡◌, ◌+◌, ◌<◌, ◌≤◌, List, length};
ghost use Rattle.rtui_geometry.specs.declared.rect.Rect.{Rect};
ghost use Rattle.rtui_layout.specs.Layout.{LayoutData};
ghost use Rattle.rtui_split.specs.Cut.{IsSpace};
ghost use Rattle.rtui_split.specs.Spaces.{KeepsWishes, IsPacked};
ghost use Rattle.rtui_split.specs.Split.{cells_of, total_weight, FitWishes, HasTaker, IsSplit};
ghost use Rattle.rtui_split.specs.Growth.{HasGrown};
ghost use Rattle.rtui_split.specs.Ragged.{Run, IsLeastRagged};
ghost use Rattle.rtui_split.specs.Flexed.{HasFlexedSpaces, LeavesNoSpace};

/// The spaces before, between and after the parts are as the flex says, in whole columns or rows:
/// of a million parts at most.
///
/// `Start` leaves what no part takes after the last part, `End` before the first, and `Center` half
/// at each end, the odd cell before the first. The spaces of the others share it: each is the whole
/// number below or above its share, and with `SpaceAround` those at the ends have half a share.
pub fn spaces_are_as_the_flex_says()
    ensures { (l : LayoutData) (area : Rect) (parts : List Rect) → IsSplit l area parts
        → IsSpace l.spacing → KeepsWishes l.flex (length l.constraints) → 0 < length l.constraints
        → length l.constraints ≤ 1000000 → FitWishes 0 l (cells_of l.direction area)
        → HasFlexedSpaces l area parts }
{}

/// If some part takes what is left, and all wishes fit, nothing is left for the spaces at the ends,
/// unless the weights are huge: the parts fill the area, but for the gap between two.
pub fn who_takes_the_rest_leaves_nothing()
    ensures { (l : LayoutData) (area : Rect) (parts : List Rect) → IsSplit l area parts
        → IsSpace l.spacing → KeepsWishes l.flex (length l.constraints) → IsPacked l.flex
        → HasTaker l.constraints → total_weight l.constraints + length l.constraints ≤ 1000000
        → FitWishes 5 l (cells_of l.direction area) → LeavesNoSpace l area parts }
{}

/// Where all wishes fit, one column or row more makes no part smaller before its edges are cut to
/// whole cells.
///
/// A unit, a 5040000th of a cell, isn't divided: a part that takes what is left may miss one for
/// each of its weight and for each ratio. Cut to whole cells it may lose one: of two
/// `Percentage(33)` the second has the one column of an area of one, and none of two.
///
/// Nothing is said of a kind that comes too short. The crate has several answers there, by the
/// order of its solver's maps, so that one column more may take two from a part: `Max` of 3, 3, 0,
/// 2 and 5 have 1, 0, 0, 2, 2 or 3, 2, 0, 0, 0 of five columns, and 1, 1, 0, 2, 2 or 3, 3, 0, 0, 0
/// of six.
pub fn one_cell_more_makes_no_part_smaller()
    ensures { (l : LayoutData) (area longer : Rect) (parts more : List Rect)
        → IsSplit l area parts → IsSplit l longer more
        → IsSpace l.spacing → KeepsWishes l.flex (length l.constraints)
        → cells_of l.direction longer ≡ cells_of l.direction area + 1
        → FitWishes 5 l (cells_of l.direction area) → FitWishes 5 l (cells_of l.direction longer)
        → HasGrown l (cells_of l.direction area) parts more }
{}

/// Room that is too little for all that wish it has one least ragged sharing: what the definition
/// says of it leaves no choice.
pub fn the_least_ragged_sharing_is_one()
    ensures { (wishes standing : List ℕ) (room : ℕ) (shares others : List ℕ) (end last : Run)
        → IsLeastRagged wishes standing room shares end
        → IsLeastRagged wishes standing room others last → shares ≡ others }
{}
