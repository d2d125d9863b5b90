//! Which rules look at which kind: a table that is made once for a walk, so that a rule that isn't asked for, or looks at other kinds, costs
//! a node nothing.

ghost use Rattle.std.specs.Prelude.{◌≡◌, ◌++◌, ◌∷◌, [], cond, map, IfOk, OnOk};
ghost use Rattle.node_rules.specs.Due.{looking_at};
ghost use Rattle.node_rules.specs.Rows.{looks};

use crate::kind_number::{KINDS, kind_number};
use crate::node_rule::{NodeRule, looks};
use std::alloc::{AllocError, Global};
use tree::Kind;

/// For each kind, the rules that look at it.
#[derive(Drop)]
pub(crate) struct DueRules {
    /// By the numbers of the kinds.
    lists: Vec<Vec<NodeRule>>,
}

impl DueRules {
    ghost use Rattle.std.specs.Prelude.{◌≡◌, IfOk};
    ghost use Rattle.node_rules.specs.Due.{IsDue, due_at};

    /// The table of these rules.
    pub(crate) fn of(alloc: Global, rules: &[NodeRule]) -> Result<DueRules, AllocError>
        ensures { IfOk result (λ due. IsDue rules.now due) }
    {
        let lists = lists_for(alloc, rules, KINDS.as_slice())?;
        Ok(DueRules { lists })
    }

    /// The rules that look at a kind.
    #[inline]
    pub(crate) fn at(&self, kind: Kind) -> &[NodeRule]
        ensures { result.now ≡ due_at self.now kind }
    {
        let number = kind_number(kind);
        if number < self.lists.len() {
            self.lists[number].as_slice()
        } else {
            &[]
        }
    }
}

/// For each of these kinds, those of the rules that look at it.
fn lists_for(
    alloc: Global,
    rules: &[NodeRule],
    kinds: &[Kind],
) -> Result<Vec<Vec<NodeRule>>, AllocError>
    ensures { IfOk result (λ lists. map (λ list. list.items) lists.items ≡ map (looking_at rules.now) kinds.now) }
{
    let mut lists = Vec::new(alloc);
    for kind in kinds {
        let list = looking_at(alloc, rules, *kind)?;
        lists.push(list)?;
    }
    Ok(lists)
}

/// Those of the rules that look at a kind.
fn looking_at(alloc: Global, rules: &[NodeRule], kind: Kind) -> Result<Vec<NodeRule>, AllocError>
    ensures { IfOk result (λ list. list.items ≡ looking_at rules.now kind) }
{
    let mut list = Vec::new(alloc);
    for rule in rules {
        push_looking(*rule, kind, &mut list)?;
    }
    Ok(list)
}

/// Appends a rule, if it looks at a kind.
fn push_looking(rule: NodeRule, kind: Kind, list: &mut Vec<NodeRule>) -> Result<(), AllocError>
    ensures { OnOk result (list.new.items ≡ list.old.items ++ cond (looks rule kind) (rule ∷ []) []) }
{
    if looks(rule, kind) {
        list.push(rule)?;
    }
    Ok(())
}
