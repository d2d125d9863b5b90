//! Which rules on what stands twice there are, row by row: a variant, a name, the kind of node that it looks at, what it compares there,
//! the words. `no-dupe-else-if` compares no parts of a node, but the tests of a chain. A rule has an arm in each table here, and in those of `specs/Rows.antt`.

ghost use Rattle.std.specs.Prelude.{◌≡◌, ◌++◌, OnOk};
ghost use Rattle.tree.specs.Node.{node_tree};
ghost use Rattle.repetition_rules.specs.Rows.{entries_of, looks, says};

use crate::entry::Entry;
use crate::members::{push_case, push_member, push_property};
use std::alloc::{AllocError, Global};
use tree::{Kind, Node};

/// A rule on what stands twice.
#[derive(Clone, Copy, Debug, PartialEq, Eq)]
pub enum RepetitionRule {
    NoDupeClassMembers,
    NoDupeElseIf,
    NoDupeKeys,
    NoDuplicateCase,
}

/// The rules, in the order of their names.
pub const REPETITION_RULES: [RepetitionRule; 4] = [
    RepetitionRule::NoDupeClassMembers,
    RepetitionRule::NoDupeElseIf,
    RepetitionRule::NoDupeKeys,
    RepetitionRule::NoDuplicateCase,
];

impl RepetitionRule {
    ghost use Rattle.std.specs.Prelude.{◌≡◌};
    ghost use Rattle.repetition_rules.specs.Rows.{called};

    /// What settings and reports call it.
    pub fn name(self) -> &'static str
        ensures { result.now ≡ called self }
    {
        match self {
            RepetitionRule::NoDupeClassMembers => "no-dupe-class-members",
            RepetitionRule::NoDupeElseIf => "no-dupe-else-if",
            RepetitionRule::NoDupeKeys => "no-dupe-keys",
            RepetitionRule::NoDuplicateCase => "no-duplicate-case",
        }
    }
}

/// Whether a rule looks at nodes of a kind.
pub(crate) fn looks(rule: RepetitionRule, kind: Kind) -> bool
    ensures { result ≡ looks rule kind }
{
    match rule {
        RepetitionRule::NoDupeClassMembers => matches!(kind, Kind::ClassBody),
        RepetitionRule::NoDupeElseIf => false,
        RepetitionRule::NoDupeKeys => matches!(kind, Kind::ObjectExpression),
        RepetitionRule::NoDuplicateCase => matches!(kind, Kind::SwitchStatement),
    }
}

/// What a rule says.
pub(crate) fn words(rule: RepetitionRule) -> &'static str
    ensures { result.now ≡ says rule }
{
    match rule {
        RepetitionRule::NoDupeClassMembers => "member again",
        RepetitionRule::NoDupeElseIf => "test never holds",
        RepetitionRule::NoDupeKeys => "key again",
        RepetitionRule::NoDuplicateCase => "case again",
    }
}

/// Appends what a rule compares of a part.
pub(crate) fn push_entry(
    alloc: Global,
    rule: RepetitionRule,
    part: Node,
    out: &mut Vec<Entry>,
) -> Result<(), AllocError>
    ensures { OnOk result (out.new.items ≡ out.old.items ++ entries_of rule (node_tree part.entry)) }
{
    match rule {
        RepetitionRule::NoDupeClassMembers => push_member(alloc, part, out),
        RepetitionRule::NoDupeElseIf => Ok(()),
        RepetitionRule::NoDupeKeys => push_property(alloc, part, out),
        RepetitionRule::NoDuplicateCase => push_case(alloc, part, out),
    }
}
