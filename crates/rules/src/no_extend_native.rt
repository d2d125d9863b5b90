//! `no-extend-native`: no assignment to a member of a built-in prototype.

use crate::no_undef::is_of_2022;
use crate::rule::Rule;
use crate::view::View;
use native_prototypes::push_found;
use rule_words::Report;
use std::alloc::{AllocError, Global};

/// Reports each assignment, with any operator, to a member of `X.prototype`, where X is a built-in object whose name begins with a capital.
/// A name that means a binding anywhere in the script is passed.
///
/// Wrong: `Array.prototype.last = f;`, `Object.prototype["a"] += 1;`. Right: `Foo.prototype.a = b;`, `Object.a = b;`.
///
/// ESLint's rule also reports `Object.defineProperty(Array.prototype, ..)`, and `Array["prototype"].a = b`, and can let names be.
#[derive(Drop)]
pub struct NoExtendNative {
    alloc: Global,
}

impl NoExtendNative {
    /// What settings and reports call the rule.
    pub const NAME: &'static str = "no-extend-native";

    /// The rule; its reports take their memory from here.
    pub fn new(alloc: Global) -> NoExtendNative {
        NoExtendNative { alloc }
    }
}

impl Rule for NoExtendNative {
    ghost use Rattle.std.specs.Prelude.{codes};
    ghost use Rattle.rules.specs.Rules.{no_extend_native};
    ghost use Rattle.rules.specs.RuleViews.{seen};

    ghost called = { λ _. codes "no-extend-native" };

    ghost finds = { λ _ v. no_extend_native v };

    /// The rule's name, by which settings turn it off.
    fn name(&self) -> &str {
        NoExtendNative::NAME
    }

    /// Adds what the rule finds.
    fn check(&self, view: &View, out: &mut Vec<Report>) -> Result<(), AllocError> {
        let Some(scopes) = view.scopes else {
            return Ok(());
        };
        let is_2022 = is_of_2022(view.program.root());
        push_found(self.alloc, is_2022, scopes.references(), view.program, out)
    }
}
