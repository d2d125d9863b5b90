//! `no-unused-private-class-members`: no private member of a class that nothing in the class uses.

use crate::rule::Rule;
use crate::view::View;
use private_members::push_found;
use rule_words::Report;
use std::alloc::{AllocError, Global};

/// Reports each private member of a class, at its key, that nothing in the class reads. What only writes it doesn't read it: the target
/// of `=`, of `++` and of other assignments whose value nothing asks for, of a pattern, of the head of a loop. A getter or a setter is
/// used wherever it is named but as a key.
///
/// Wrong: `class A { #a; }`, `class A { #a = 1; b() { this.#a++; } }`. Right: `class A { #a; b() { return this.#a; } }`.
///
/// ESLint's rule reports the last one of a getter and a setter with one name; here both are reported.
#[derive(Drop)]
pub struct NoUnusedPrivateClassMembers {
    alloc: Global,
}

impl NoUnusedPrivateClassMembers {
    /// What settings and reports call the rule.
    pub const NAME: &'static str = "no-unused-private-class-members";

    /// The rule; its reports take their memory from here.
    pub fn new(alloc: Global) -> NoUnusedPrivateClassMembers {
        NoUnusedPrivateClassMembers { alloc }
    }
}

impl Rule for NoUnusedPrivateClassMembers {
    ghost use Rattle.std.specs.Prelude.{codes};
    ghost use Rattle.rules.specs.Rules.{no_unused_private_class_members};
    ghost use Rattle.rules.specs.RuleViews.{seen};

    ghost called = { λ _. codes "no-unused-private-class-members" };

    ghost finds = { λ _ v. no_unused_private_class_members v };

    /// The rule's name, by which settings turn it off.
    fn name(&self) -> &str {
        NoUnusedPrivateClassMembers::NAME
    }

    /// Adds what the rule finds.
    fn check(&self, view: &View, out: &mut Vec<Report>) -> Result<(), AllocError> {
        push_found(self.alloc, view.program, out)
    }
}
