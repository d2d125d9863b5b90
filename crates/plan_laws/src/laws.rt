//! What is proved of the tables of plans: each contract is a theorem, and the body does nothing.

ghost use Rattle.plan_laws.specs.Laws.{PlanIsShort, PlanIsSound, PlanPasses, PlanReadsBack};

/// The table of a plan is sound.
pub fn plan_is_sound()
    ensures { PlanIsSound }
{}

/// The table of a plan has no fault, so it passes.
pub fn plan_passes()
    ensures { PlanPasses }
{}

/// The table of a plan has no more rows than its script.
pub fn plan_is_short()
    ensures { PlanIsShort }
{}

/// The table of a plan, for a script or module that some text derives in a language, is read back from its text, in either format.
pub fn plan_reads_back()
    ensures { PlanReadsBack }
{}
