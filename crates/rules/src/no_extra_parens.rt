//! `no-extra-parens`: no parentheses that the script can do without.

ghost use Rattle.std.specs.Prelude.{◌≡◌, ◌++◌, map, OnOk};
ghost use Rattle.rule_words.specs.Appends.{Grows};
ghost use Rattle.rules.specs.Rules.{of_extra};

use crate::rule::Rule;
use crate::view::View;
use rule_words::{Report, push_fixed_report};
use std::alloc::{AllocError, Global};
use tree::Span;

/// Reports each extra pair of grouping parentheses, at its `(`. Which pairs are extra is decided before: all but the
/// innermost pair of each node that the fixed text puts into parentheses. So parentheses of calls, of parameters and of
/// the heads of statements are never reported.
///
/// Wrong: `(a);`, `a + (b * c);`, `((a + b)) * c;` (one report). Right: `(a + b) * c;`, `(a?.b).c;`, `f(a);`.
///
/// The fixed text may put a pair elsewhere: of `new (f().x)()` the pair is reported, and the fixed text is
/// `new (f()).x()`, a tie; `x => ({}.a)` becomes `x => ({}).a`. Taking out just the reported pairs would change what these
/// scripts do: the fixed text is the cure.
///
/// ESLint's rule reports a pair where the script means the same without it, and has options that let some pairs stand.
/// Here the fewest pairs of the whole script decide, and there are no options.
#[derive(Drop)]
pub struct NoExtraParens {
    alloc: Global,
}

impl NoExtraParens {
    /// What settings and reports call the rule.
    pub const NAME: &'static str = "no-extra-parens";

    /// The rule; its reports take their memory from here.
    pub fn new(alloc: Global) -> NoExtraParens {
        NoExtraParens { alloc }
    }
}

impl Rule for NoExtraParens {
    ghost use Rattle.std.specs.Prelude.{codes};
    ghost use Rattle.rules.specs.Rules.{no_extra_parens};
    ghost use Rattle.rules.specs.RuleViews.{seen};

    ghost called = { λ _. codes "no-extra-parens" };

    ghost finds = { λ _ v. no_extra_parens v };

    /// The rule's name, by which settings turn it off.
    fn name(&self) -> &str {
        NoExtraParens::NAME
    }

    /// Adds what the rule finds.
    fn check(&self, view: &View, out: &mut Vec<Report>) -> Result<(), AllocError> {
        push_extra(self.alloc, view.extra, out)
    }
}

/// Appends a report of each extra pair.
fn push_extra(alloc: Global, extra: &[Span], out: &mut Vec<Report>) -> Result<(), AllocError>
    ensures found { OnOk result (out.new.items ≡ out.old.items ++ map of_extra extra.now) }
    ensures kept { Grows out.old.items out.new.items }
{
    for span in extra {
        push_fixed_report(
            alloc,
            NoExtraParens::NAME,
            *span,
            "unnecessary parentheses",
            out,
        )?;
    }
    Ok(())
}
