//! Laws of merging that are no single call's clause, over the definitions of `specs/` alone.
ghost use Rattle.std.specs.Prelude.{◌≡◌};
ghost use Rattle.rtui_merge.specs.Laws.{AreBoxDrawings, DifferInArms, FoundByArms, FuzzyKeepsExact};
ghost use Rattle.rtui_merge.specs.Laws.{MergesWithItself};

use crate::MergeStrategy;

/// By each strategy a text merged with itself is that text.
#[tactic(auto, using(crate::proofs::LawLemmas::merges_with_itself))]
pub fn merge_with_itself()
    ensures { MergesWithItself }
{}

/// Fuzzy differs from Exact only if no symbol has just the arms of both.
#[tactic(auto, using(crate::proofs::LawLemmas::fuzzy_keeps_exact))]
pub fn fuzzy_keeps_exact()
    ensures { FuzzyKeepsExact }
{}

/// The border symbols and their arms: each symbol is found by its arms, and no two have the same.
#[tactic(auto, using(crate::proofs::LawLemmas::border_symbols))]
pub fn border_symbols()
    ensures box_drawings { AreBoxDrawings }
    ensures found { FoundByArms }
    ensures differ { DifferInArms }
{}

/// The default strategy is `Replace`.
pub fn default_strategy()
    ensures { (s : MergeStrategy) → ⟦<MergeStrategy as Default>⟧.is_default s
        → s ≡ MergeStrategy.Replace }
{}
