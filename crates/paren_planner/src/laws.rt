//! What is proved of plans: the contract is a theorem, and the body does nothing.

ghost use Rattle.paren_planner.specs.Laws.{DerivedHasPlan};
ghost use Rattle.paren_planner.specs.PairNodes.{ExtraPairsAreExtra, PairsHaveTheirRows};

/// What a text derives costs some number of pairs, and has no more rows than the text has bytes: so a script of at most 16,777,216 bytes
/// has a plan.
pub fn derived_has_plan()
    ensures { DerivedHasPlan }
{}

/// The row of each grouping pair of a script, as `spellings::groupings` gives it, is that of the node which the derivation has in the pair.
pub fn pairs_have_their_rows()
    ensures { PairsHaveTheirRows }
{}

/// The extra pairs of a script, as `extra_pairs` gives them, are all grouping pairs of its derivation but the innermost of each wrapped node.
pub fn extra_pairs_are_extra()
    ensures { ExtraPairsAreExtra }
{}
