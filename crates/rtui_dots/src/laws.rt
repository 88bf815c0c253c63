//! What the table of cosines is.

ghost use Rattle.rtui_dots.specs.Cosines.{AreCosines};
ghost use Rattle.rtui_dots.specs.declared.circle.TheConstants.{COSINES};

/// The table by which circles are drawn holds cosines, as near as whole billionths are.
#[tactic(auto, using(crate::proofs::CosineLemmas::the_table))]
pub fn the_table_holds_cosines()
    ensures { AreCosines COSINES }
{}
