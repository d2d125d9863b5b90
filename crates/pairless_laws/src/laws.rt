//! What is proved of nodes without pairs: each contract is a theorem, and the body does nothing.

ghost use Rattle.pairless_laws.specs.Laws.{FreePartsAreFree, PairlessCostNothing, PairlessCostNothingIn, PairlessSpansCostNothing, PairlessSpansCostNothingIn};

/// In a script that some text derives, each node costs no pair at its position if no grouping pair opens from the place where its text
/// may begin up to its end. That place is the end of the part before it, or the start of the node above: a pair round the node opens
/// there or behind it.
pub fn pairless_cost_nothing()
    ensures { PairlessCostNothing }
{}

/// In each language, a text without pairs costs nothing.
pub fn pairless_cost_nothing_in()
    ensures { PairlessCostNothingIn }
{}

/// In a script that some text derives, each node in whose span no grouping pair opens costs no pair at its widest position. That is a
/// statement's own; a pair round an expression opens before it, so the expression costs nothing in a pair.
pub fn pairless_spans_cost_nothing()
    ensures { PairlessSpansCostNothing }
{}

/// In each language, a span without pairs costs nothing.
pub fn pairless_spans_cost_nothing_in()
    ensures { PairlessSpansCostNothingIn }
{}

/// A node that costs no pair at a position has parts that cost none, each at its own.
pub fn free_parts_are_free()
    ensures { FreePartsAreFree }
{}
