//! `prefer-const`: `const` in place of a `let` that stays as it is.

ghost use Rattle.std.specs.Prelude.{◌≡◌, ◌++◌, ℕ, Bool, OnOk};
ghost use Rattle.scopes.specs.Shown.{shown};
ghost use Rattle.rule_words.specs.Appends.{Grows};
ghost use Rattle.rules.specs.Rules.{is_let, of_const};

use crate::bindings::{BindingRule, BindingWalk, push_by_use, push_named};
use crate::rule::Rule;
use crate::view::View;
use rule_words::Report;
use scopes::{Binding, BindingKind};
use std::alloc::{AllocError, Global};
use std::collections::BTreeSet;

/// Reports each `let` binding that no reference writes and that has a value from the start: its declarator has an
/// initialiser or stands in the head of a for-in or for-of. At its first declaring identifier; not in the head of a plain
/// `for`.
///
/// Wrong: `let a = 1; f(a);`, `for (let a of b) f(a);`, `let { a, b } = c; b = a;` (of `a`). Right: `const a = 1;`,
/// `let a; a = 1;`, `let a = 1; a++;`, `for (let i = 0, n = 9; i < n; i++) f(i);`.
///
/// ESLint's rule also reports a `let` without a value that is written once, by a statement that could be its declaration.
/// Here only a `let` that is never written is reported, each name of a pattern by itself, and there are no options.
#[derive(Drop)]
pub struct PreferConst {
    alloc: Global,
}

impl PreferConst {
    /// What settings and reports call the rule.
    pub const NAME: &'static str = "prefer-const";

    /// The rule; its reports, and what it notes while it looks, take their memory from here.
    pub fn new(alloc: Global) -> PreferConst {
        PreferConst { alloc }
    }
}

impl Rule for PreferConst {
    ghost use Rattle.std.specs.Prelude.{codes};
    ghost use Rattle.rules.specs.Rules.{prefer_const};
    ghost use Rattle.rules.specs.RuleViews.{seen};

    ghost called = { λ _. codes "prefer-const" };

    ghost finds = { λ _ v. prefer_const v };

    /// The rule's name, by which settings turn it off.
    fn name(&self) -> &str {
        PreferConst::NAME
    }

    /// Adds what the rule finds.
    fn check(&self, view: &View, out: &mut Vec<Report>) -> Result<(), AllocError> {
        let Some(scopes) = view.scopes else {
            return Ok(());
        };
        let walk = BindingWalk {
            rule: BindingRule::Constant,
            alloc: self.alloc,
            settings: view.settings,
            alone: &BTreeSet::new(self.alloc),
        };
        push_by_use(walk, scopes, out)
    }
}

/// Appends a report of a `let` that nothing writes.
pub(crate) fn push_constant(
    alloc: Global,
    is_written: bool,
    binding: Binding,
    out: &mut Vec<Report>,
) -> Result<(), AllocError>
    ensures found { (written : ℕ × ℕ → Bool) → (m : ℕ × ℕ) → written m ≡ is_written → OnOk result (out.new.items ≡ out.old.items ++ of_const written m (shown binding.entry)) }
    ensures kept { Grows out.old.items out.new.items }
{
    if is_let(binding.kind) && binding.settled && !is_written {
        push_named(
            alloc,
            PreferConst::NAME,
            binding,
            "is never reassigned",
            out,
        )
    } else {
        Ok(())
    }
}

/// Whether the binding is declared by `let`.
fn is_let(kind: BindingKind) -> bool
    ensures { result ≡ is_let kind }
{
    match kind {
        BindingKind::Let => true,
        _ => false,
    }
}
