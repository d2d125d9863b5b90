//! What is proved of how statements complete: each contract is a theorem, and the body does nothing.

ghost use Rattle.completion_laws.specs.Laws.{BodiesGiveValues, BranchesReturn, JumpsStayInside, NeverWithoutValue, NormalAloneCompletes, OthersCallSuper, OthersDontFallThrough, ReportedAreUnreached, ReportedLoopsEnd, ReturnsAreConsistent, WhatLeavesStands};

/// A statement that can't complete normally, by `normal`, never does.
pub fn normal_alone_completes()
    ensures { NormalAloneCompletes }
{}

/// A `break`, `continue` or `return` by which a statement completes stands in it, by `has`.
pub fn what_leaves_stands()
    ensures { WhatLeavesStands }
{}

/// In a script without early errors no `break` or `continue` leaves the script, or the body of a function.
pub fn jumps_stay_inside()
    ensures { JumpsStayInside }
{}

/// A function's body that can't complete normally, and has no `return` without an argument, never ends without a value: so are those
/// of which `getter-return` and `array-callback-return` say nothing.
pub fn never_without_value()
    ensures { NeverWithoutValue }
{}

/// In a script without early errors each run of such a body that ends gives a value, throws, or is told to return at a `yield`.
pub fn bodies_give_values()
    ensures { BodiesGiveValues }
{}

/// Of a body that `consistent-return` doesn't report, no run returns a value where another returns none.
pub fn returns_are_consistent()
    ensures { ReturnsAreConsistent }
{}

/// A branch of which `no-else-return` says that it returns completes by a `return` or a `throw` alone.
pub fn branches_return()
    ensures { BranchesReturn }
{}

/// Of a derived constructor that `constructor-super` doesn't report, and in which no `super(..)` stands, no run ends without a value.
pub fn others_call_super()
    ensures { OthersCallSuper }
{}

/// A loop that `no-unreachable-loop` reports never goes on behind its body.
pub fn reported_loops_end()
    ensures { ReportedLoopsEnd }
{}

/// What `no-unreachable` reports is never evaluated.
pub fn reported_are_unreached()
    ensures { ReportedAreUnreached }
{}

/// Behind a case with statements of which `no-fallthrough` doesn't say that it falls through, the next one isn't come to.
pub fn others_dont_fall_through()
    ensures { OthersDontFallThrough }
{}
