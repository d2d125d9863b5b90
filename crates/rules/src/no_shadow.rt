//! `no-shadow`: no name that hides another.

ghost use Rattle.std.specs.Prelude.{◌≡◌, ◌++◌, OnOk};
ghost use Rattle.scopes.specs.Shown.{shown};
ghost use Rattle.rule_words.specs.Appends.{Grows};
ghost use Rattle.rules.specs.Rules.{is_itself, of_shadow};

use crate::bindings::{BindingRule, BindingWalk, push_bindings, push_named};
use crate::name_lists::NameList;
use crate::rule::Rule;
use crate::used_bindings::UsedBindings;
use crate::view::View;
use rule_words::Report;
use scopes::{Binding, BindingKind};
use std::alloc::{AllocError, Global};
use std::collections::BTreeSet;

/// Reports each binding whose name a scope further out declares, at its first declaring identifier; not the own name of a
/// function expression or of a class, and none that the settings' `allow` has.
///
/// Wrong: `let a; { let a; }`, `let a; function f(a) {}`, `function f() { let f; }`. Right: `let a; { let b; }`,
/// `let a; (function a() {});`, `{ let a; } { let a; }`, and the first with `allow = ["a"]`.
///
/// ESLint's rule doesn't report where the outer name is declared further down, unless that is a function; here the order
/// doesn't matter. It has an option for built-in names too; there is none here.
#[derive(Drop)]
pub struct NoShadow {
    alloc: Global,
}

impl NoShadow {
    /// What settings and reports call the rule.
    pub const NAME: &'static str = "no-shadow";

    /// The rule; its reports take their memory from here.
    pub fn new(alloc: Global) -> NoShadow {
        NoShadow { alloc }
    }
}

impl Rule for NoShadow {
    ghost use Rattle.std.specs.Prelude.{codes};
    ghost use Rattle.rules.specs.Rules.{no_shadow};
    ghost use Rattle.rules.specs.RuleViews.{seen};

    ghost called = { λ _. codes "no-shadow" };

    ghost finds = { λ _ v. no_shadow v };

    /// The rule's name, by which settings turn it off.
    fn name(&self) -> &str {
        NoShadow::NAME
    }

    /// Adds what the rule finds.
    fn check(&self, view: &View, out: &mut Vec<Report>) -> Result<(), AllocError> {
        let Some(scopes) = view.scopes else {
            return Ok(());
        };
        let walk = BindingWalk {
            rule: BindingRule::Shadow,
            alloc: self.alloc,
            settings: view.settings,
            alone: &BTreeSet::new(self.alloc),
        };
        push_bindings(walk, &UsedBindings::new(self.alloc), scopes, out)
    }
}

/// Appends a report of a binding that hides another.
pub(crate) fn push_shadow(
    walk: BindingWalk,
    binding: Binding,
    out: &mut Vec<Report>,
) -> Result<(), AllocError>
    ensures found { OnOk result (out.new.items ≡ out.old.items ++ of_shadow walk.entry.settings.now (shown binding.entry)) }
    ensures kept { Grows out.old.items out.new.items }
{
    if binding.shadows
        && !(is_itself(binding.kind) || walk.settings.is_listed(NameList::Allow, binding.name))
    {
        push_named(
            walk.alloc,
            NoShadow::NAME,
            binding,
            "shadows an outer name",
            out,
        )
    } else {
        Ok(())
    }
}

/// Whether a binding is the own name of a function expression or of a class.
fn is_itself(kind: BindingKind) -> bool
    ensures { result ≡ is_itself kind }
{
    match kind {
        BindingKind::FunctionName | BindingKind::ClassName => true,
        _ => false,
    }
}
