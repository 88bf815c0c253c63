//! A border symbol as its four arms.
ghost use Rattle.std.specs.Prelude.{◌≡◌};
ghost use Rattle.rtui_merge.specs.Arms as spec;
ghost use Rattle.rtui_merge.specs.Shapes as shape;
ghost use Rattle.rtui_merge.specs.Merge as merge;

/// How one arm of a border symbol is drawn. Only the first four mix in one symbol.
#[derive(Debug, Clone, Copy, PartialEq, Eq)]
pub enum LineStyle {
    /// There is no arm.
    Nothing,
    Plain,
    Double,
    Thick,
    Rounded,
    /// Plain, with gaps that leave two dashes.
    DoubleDash,
    DoubleDashThick,
    TripleDash,
    TripleDashThick,
    QuadrupleDash,
    QuadrupleDashThick,
}

use LineStyle::{
    Double, DoubleDash, DoubleDashThick, Nothing, Plain, QuadrupleDash, QuadrupleDashThick,
    Rounded, Thick, TripleDash, TripleDashThick,
};

impl LineStyle {
    /// Returns whether the two styles are one.
    #[tactic(auto, unfolding(crate::specs::Arms::same_style))]
    pub(crate) fn is(self, style: Self) -> bool
        ensures { result ≡ spec.same_style self style }
    {
        self == style
    }

    /// Returns the style's place among the styles.
    pub(crate) fn number(self) -> usize
        ensures { result ≡ spec.style_number self }
    {
        self as usize
    }

    /// Returns the arm `next`, or this one if there is no `next`.
    fn merge(self, next: Self) -> Self
        ensures { result ≡ merge.over self next }
    {
        if next.is(Nothing) { self } else { next }
    }

    /// Returns the style `to` in place of `from`, and any other as it is.
    fn replace(self, from: Self, to: Self) -> Self
        ensures { result ≡ spec.replace_style self from to }
    {
        if self.is(from) { to } else { self }
    }

    /// Returns the style without its gaps.
    fn solid(self) -> Self
        ensures { result ≡ spec.solid self }
    {
        match self {
            DoubleDash | TripleDash | QuadrupleDash => Plain,
            DoubleDashThick | TripleDashThick | QuadrupleDashThick => Thick,
            style => style,
        }
    }
}

/// Four arms, be there a symbol that has them or not.
#[derive(Debug, Clone, Copy, PartialEq, Eq)]
pub struct BorderSymbol {
    pub right: LineStyle,
    pub up: LineStyle,
    pub left: LineStyle,
    pub down: LineStyle,
}

impl BorderSymbol {
    /// Returns whether an arm has this style.
    #[tactic(auto, unfolding(crate::specs::Arms::contains))]
    pub(crate) fn contains(self, style: LineStyle) -> bool
        ensures { result ≡ spec.contains self style }
    {
        self.right.is(style) || self.up.is(style) || self.left.is(style) || self.down.is(style)
    }

    /// Returns whether opposite arms are equal, and one of the two pairs is not there.
    #[tactic(auto, unfolding(crate::specs::Arms::is_straight))]
    pub(crate) fn is_straight(self) -> bool
        ensures { result ≡ spec.is_straight self }
    {
        self.up.is(self.down)
            && self.left.is(self.right)
            && (self.up.is(Nothing) || self.left.is(Nothing))
    }

    /// Returns whether two neighbouring arms are equal, and the other two are not there.
    #[tactic(auto, unfolding(crate::specs::Arms::is_corner))]
    fn is_corner(self) -> bool
        ensures { result ≡ spec.is_corner self }
    {
        let BorderSymbol {
            right,
            up,
            left,
            down,
        } = self;
        bends(right, up, left, down)
            || bends(up, left, right, down)
            || bends(left, down, right, up)
            || bends(down, right, left, up)
    }

    /// Returns whether each arm is none, plain, double or thick.
    #[tactic(auto, unfolding(crate::specs::Shapes::is_mixed))]
    pub(crate) fn is_mixed(self) -> bool
        ensures { result ≡ shape.is_mixed self }
    {
        (self.right.number() < 4 && self.up.number() < 4)
            && (self.left.number() < 4 && self.down.number() < 4)
    }

    /// Returns whether this is a corner of rounded arms.
    #[tactic(auto, unfolding(crate::specs::Shapes::is_rounded))]
    pub(crate) fn is_rounded(self) -> bool
        ensures { result ≡ shape.is_rounded self }
    {
        self.is_corner() && self.contains(Rounded)
    }

    /// Draws every arm of the style `from` as `to`.
    #[tactic(auto, unfolding(crate::specs::Arms::replace))]
    fn replace(self, from: LineStyle, to: LineStyle) -> Self
        ensures { result ≡ spec.replace self from to }
    {
        BorderSymbol {
            right: self.right.replace(from, to),
            up: self.up.replace(from, to),
            left: self.left.replace(from, to),
            down: self.down.replace(from, to),
        }
    }
}

impl BorderSymbol {
    /// Returns each arm of `next`, or this symbol's if `next` has none.
    #[tactic(auto, unfolding(crate::specs::Merge::exact))]
    pub fn exact(self, next: Self) -> Self
        ensures { result ≡ merge.exact self next }
    {
        BorderSymbol {
            right: self.right.merge(next.right),
            up: self.up.merge(next.up),
            left: self.left.merge(next.left),
            down: self.down.merge(next.down),
        }
    }

    /// Makes dashes solid unless the symbol is straight: they stand in straight symbols alone.
    #[tactic(auto, unfolding(crate::specs::Merge::solid_unless_straight))]
    fn solid_unless_straight(self) -> Self
        ensures { result ≡ merge.solid_unless_straight self }
    {
        if self.is_straight() {
            self
        } else {
            BorderSymbol {
                right: self.right.solid(),
                up: self.up.solid(),
                left: self.left.solid(),
                down: self.down.solid(),
            }
        }
    }

    /// Makes rounded arms plain unless the symbol is a corner: they stand in corners alone.
    #[tactic(auto, unfolding(crate::specs::Merge::square_unless_corner))]
    fn square_unless_corner(self) -> Self
        ensures { result ≡ merge.square_unless_corner self }
    {
        if self.is_corner() {
            self
        } else {
            self.replace(Rounded, Plain)
        }
    }

    /// Makes double and thick arms one kind: they never meet.
    #[tactic(auto, unfolding(crate::specs::Merge::double_or_thick))]
    fn double_or_thick(self, next: Self) -> Self
        ensures { result ≡ merge.double_or_thick self next }
    {
        if !(self.contains(Double) && self.contains(Thick)) {
            self
        } else if next.contains(Double) {
            self.replace(Thick, Double)
        } else {
            self.replace(Double, Thick)
        }
    }

    /// Makes plain and double arms one kind if there is no symbol with these arms: some never meet.
    #[tactic(auto, unfolding(crate::specs::Merge::double_or_plain))]
    fn double_or_plain(self, next: Self) -> Self
        ensures { result ≡ merge.double_or_plain self next }
    {
        if self.to_str().is_some() {
            self
        } else if next.contains(Double) {
            self.replace(Plain, Double)
        } else {
            self.replace(Double, Plain)
        }
    }

    /// Returns these arms in styles for which there is a symbol, if `next` was drawn last.
    #[tactic(auto, unfolding(crate::specs::Merge::fuzzy))]
    pub fn fuzzy(self, next: Self) -> Self
        ensures { result ≡ merge.fuzzy self next }
    {
        self.solid_unless_straight()
            .square_unless_corner()
            .double_or_thick(next)
            .double_or_plain(next)
    }
}

/// Returns whether the first two arms are equal, and the other two are not there.
#[tactic(auto, unfolding(crate::specs::Arms::bends))]
fn bends(first: LineStyle, second: LineStyle, third: LineStyle, fourth: LineStyle) -> bool
    ensures { result ≡ spec.bends first second third fourth }
{
    first.is(second) && third.is(Nothing) && fourth.is(Nothing)
}
