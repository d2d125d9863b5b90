//! What is proved of finished trees beside what the calls say: each contract is a theorem, and the body does nothing.

ghost use Rattle.tree.specs.Laws.{AllButTheLastHaveOneParent, TheLastHasNoParent};

/// In the vector of a script every node but the last is a part of just one node, which stands after it.
pub fn all_but_the_last_have_one_parent()
    ensures { AllButTheLastHaveOneParent }
{}

/// The last, the script's own, is a part of none.
pub fn the_last_has_no_parent()
    ensures { TheLastHasNoParent }
{}
