//! A rule.

use crate::view::View;
use node_rules::NodeRule;
use rule_words::Report;
use std::alloc::AllocError;

/// A rule, which finds reports in a view. The two ghost members say what a rule means: its name, and what it finds; who
/// writes a rule states them, and proves that the two calls answer just that.
pub trait Rule: Drop {
    ghost use Rattle.std.specs.Prelude.{◌≡◌, ◌++◌, List, ℕ, IfSome, OnOk};
    ghost use Rattle.rules.specs.NodeRules.{IsOnNodes};
    ghost use Rattle.rule_words.specs.Reports.{Report};
    ghost use Rattle.rules.specs.Rules.{View};
    ghost use Rattle.rules.specs.RuleViews.{seen};

    /// The rule's name, as bytes.
    ghost called: { Self → List ℕ };

    /// What the rule finds in a view.
    ghost finds: { Self → View → List Report };

    /// The rule's name, by which settings turn it off.
    fn name(&self) -> &str
        ensures { result.now ≡ called self.now };

    /// Appends what the rule finds, in any order.
    ///
    /// # Errors
    ///
    /// `AllocError` where memory is refused: then what stood in `out` still stands in front, perhaps with some of the
    /// rule's reports behind it.
    fn check(&self, view: &View, out: &mut Vec<Report>) -> Result<(), AllocError>
        ensures found { OnOk result (out.new.items ≡ out.old.items ++ finds self.now (seen view.now)) }
        ensures kept { (more : List Report) × (out.new.items ≡ out.old.items ++ more) };

    /// Which rule on nodes finds the same, if one does: `run_rules` runs such rules in one walk over the tree. A rule that
    /// doesn't say so is run by its own `check`.
    fn on_nodes(&self) -> Option<NodeRule>
        ensures { IfSome result (λ rule. IsOnNodes rule (finds self.now)) }
    {
        None
    }
}
