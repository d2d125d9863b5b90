//! A rule that ships with the program, as what a box holds.

use crate::groups::Grouped;
use crate::no_extend_native::NoExtendNative;
use crate::no_extra_parens::NoExtraParens;
use crate::no_shadow::NoShadow;
use crate::no_undef::NoUndef;
use crate::no_unused_private_class_members::NoUnusedPrivateClassMembers;
use crate::no_unused_vars::NoUnusedVars;
use crate::prefer_const::PreferConst;
use crate::rule::Rule;
use crate::rule_list::RuleName;
use crate::view::View;
use flow_rules::FlowRule;
use literal_rules::LiteralRule;
use node_rules::NodeRule;
use reference_rules::ReferenceRule;
use repetition_rules::RepetitionRule;
use rule_words::Report;
use std::alloc::{AllocError, Global};
use text_rules::TextRule;
use value_rules::ValueRule;

/// A rule of `RULES`, by its name: boxes of one type hold any of them.
#[derive(Drop)]
pub struct ShippedRule {
    name: RuleName,
    alloc: Global,
}

impl ShippedRule {
    ghost use Rattle.std.specs.Prelude.{◌≡◌};

    /// The rule of a name; its reports take their memory from here.
    pub fn new(alloc: Global, name: RuleName) -> ShippedRule
        ensures { result.name ≡ name }
    {
        ShippedRule { name, alloc }
    }
}

impl Rule for ShippedRule {
    ghost use Rattle.rules.specs.AllRules.{finds};
    ghost use Rattle.rules.specs.RuleNames.{called};
    ghost use Rattle.rules.specs.RuleViews.{seen};

    ghost called = { λ r. called r.name };

    ghost finds = { λ r v. finds r.name v };

    /// The rule's name, by which settings turn it on or off.
    fn name(&self) -> &str {
        self.name.as_str()
    }

    /// Adds what the rule finds.
    fn check(&self, view: &View, out: &mut Vec<Report>) -> Result<(), AllocError> {
        match self.name {
            RuleName::OnNodes(rule) => NodeRule::push_reports(self.alloc, &[rule], view, out),
            RuleName::OnReferences(rule) => {
                ReferenceRule::push_reports(self.alloc, &[rule], view, out)
            },
            RuleName::OnRepetitions(rule) => {
                RepetitionRule::push_reports(self.alloc, &[rule], view, out)
            },
            RuleName::OnFlow(rule) => FlowRule::push_reports(self.alloc, &[rule], view, out),
            RuleName::OnLiterals(rule) => LiteralRule::push_reports(self.alloc, &[rule], view, out),
            RuleName::OnTexts(rule) => TextRule::push_reports(self.alloc, &[rule], view, out),
            RuleName::OnValues(rule) => ValueRule::push_reports(self.alloc, &[rule], view, out),
            RuleName::NoExtendNative => NoExtendNative::new(self.alloc).check(view, out),
            RuleName::NoExtraParens => NoExtraParens::new(self.alloc).check(view, out),
            RuleName::NoShadow => NoShadow::new(self.alloc).check(view, out),
            RuleName::NoUndef => NoUndef::new(self.alloc).check(view, out),
            RuleName::NoUnusedPrivateClassMembers => {
                NoUnusedPrivateClassMembers::new(self.alloc).check(view, out)
            },
            RuleName::NoUnusedVars => NoUnusedVars::new(self.alloc).check(view, out),
            RuleName::PreferConst => PreferConst::new(self.alloc).check(view, out),
        }
    }

    /// A rule that looks at single nodes runs in one walk with the others of its kind.
    fn on_nodes(&self) -> Option<NodeRule> {
        match self.name {
            RuleName::OnNodes(rule) => Some(rule),
            _ => None,
        }
    }
}
