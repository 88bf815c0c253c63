//! Blank elements.

ghost use Rattle.std.specs.Prelude.{◌≡◌, ◌≤◌, ℕ, ◌&&◌, nat_le, nat_lt, if◌then◌else◌, length};
ghost use Rattle.rtui_grid.specs.Items.{item};

/// An element that can be made blank in place.
pub trait Blank: Drop {
    ghost blank: { Self };

    /// Makes the element blank.
    fn make_blank(&mut self)
        ensures { self.new ≡ blank };
}

impl Blank for bool {
    ghost use Rattle.std.specs.Prelude.{false};

    ghost blank = { false };

    fn make_blank(&mut self) {
        *self = false;
    }
}

/// Makes the elements from one place up to another blank.
///
/// # Conditions
///
/// `from` is at most `to`, and `to` is at most the length of the list.
pub fn fill<T: Blank>(items: &mut [T], from: usize, to: usize)
    requires order { from ≤ to }
    requires end { to ≤ length items.old }
    ensures { (k : ℕ) → item T.blank items.new k
        ≡ (if nat_le from k && nat_lt k to then T.blank else item T.blank items.old k) }
{
    for k in from..to {
        items[k].make_blank();
    }
}
