//! Keys by which names are sorted.

ghost use Rattle.std.specs.Prelude.{◌≡◌};
ghost use Rattle.std.specs.Ordering.{nat_cmp};
ghost use Rattle.std.specs.Cmp.Lexicographic.{slice_cmp};

use crate::ranks::key_rank;
use std::cmp::Ordering;
use std::marker::Model;

/// What a name is compared by: numbers, of which the first ones that differ decide. Their beginning
/// is kept as one number, and where two of these differ, nothing else is looked at.
#[derive(Drop)]
pub struct SortKey {
    rank: u128,
    items: Vec<u64>,
}

impl Model for SortKey {
    ghost use Rattle.std.specs.Prelude.{◌≡◌, ℕ, List};
    ghost use Rattle.files.specs.Ranks.{key_rank};

    ghost Value = { List ℕ };

    ghost view = { λ key. key.items.items };

    ghost invariant = { λ key. key.rank ≡ key_rank key.items.items };
}

impl SortKey {
    /// Takes these numbers.
    pub fn new(items: Vec<u64>) -> SortKey
        ensures { result ≡ items.items }
    {
        SortKey {
            rank: key_rank(items.as_slice()),
            items,
        }
    }

    /// Compares it to another one.
    #[tactic(auto, using(crate::proofs::RankLemmas::rank_decides))]
    pub fn compare(&self, other: &SortKey) -> Ordering
        ensures { result ≡ slice_cmp nat_cmp self.now other.now }
    {
        match self.rank.cmp(&other.rank) {
            Ordering::Equal => self.items.cmp(&other.items),
            unlike => unlike,
        }
    }
}
