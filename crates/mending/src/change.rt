//! The rules that have a change, and where one is made.

ghost use Rattle.std.specs.Prelude.{◌≡◌};
ghost use Rattle.mending.specs.Changes.{called};

use tree::Span;

/// A rule that has a change.
#[derive(Clone, Copy, Debug, PartialEq, Eq)]
pub enum MendRule {
    Curly,
    DotNotation,
    EqEqEq,
    NoDebugger,
    NoExtraBooleanCast,
    NoExtraSemi,
    NoLonelyIf,
    NoUnusedLabels,
    NoUselessComputedKey,
    NoUselessRename,
    NoUselessReturn,
    ObjectShorthand,
    OperatorAssignment,
    PreferConst,
}

impl MendRule {
    /// All of them.
    pub const ALL: [MendRule; 14] = [
        MendRule::Curly,
        MendRule::DotNotation,
        MendRule::EqEqEq,
        MendRule::NoDebugger,
        MendRule::NoExtraBooleanCast,
        MendRule::NoExtraSemi,
        MendRule::NoLonelyIf,
        MendRule::NoUnusedLabels,
        MendRule::NoUselessComputedKey,
        MendRule::NoUselessRename,
        MendRule::NoUselessReturn,
        MendRule::ObjectShorthand,
        MendRule::OperatorAssignment,
        MendRule::PreferConst,
    ];

    /// Its name in settings and reports.
    pub fn name(self) -> &'static str
        ensures { result.now ≡ called self }
    {
        match self {
            MendRule::Curly => "curly",
            MendRule::DotNotation => "dot-notation",
            MendRule::EqEqEq => "eqeqeq",
            MendRule::NoDebugger => "no-debugger",
            MendRule::NoExtraBooleanCast => "no-extra-boolean-cast",
            MendRule::NoExtraSemi => "no-extra-semi",
            MendRule::NoLonelyIf => "no-lonely-if",
            MendRule::NoUnusedLabels => "no-unused-labels",
            MendRule::NoUselessComputedKey => "no-useless-computed-key",
            MendRule::NoUselessRename => "no-useless-rename",
            MendRule::NoUselessReturn => "no-useless-return",
            MendRule::ObjectShorthand => "object-shorthand",
            MendRule::OperatorAssignment => "operator-assignment",
            MendRule::PreferConst => "prefer-const",
        }
    }
}

/// A change that is made: its rule, and the place that the rule reports.
#[derive(Clone, Copy)]
pub struct Change {
    pub rule: MendRule,
    pub span: Span,
}
