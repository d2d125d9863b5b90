//! The sets of rules that settings may begin with.

use crate::known_keys::is_one_of;
use crate::rule_list::{NINE, RECOMMENDED, RULES, RuleName};

/// A set of rules.
#[derive(Clone, Copy, Debug, PartialEq, Eq)]
pub enum RuleSet {
    /// The nine that are on where settings say nothing.
    Nine,
    /// Those that ESLint recommends.
    Recommended,
    /// All rules.
    Every,
    /// No rule.
    Nothing,
}

impl RuleSet {
    ghost use Rattle.std.specs.Prelude.{◌≡◌};
    ghost use Rattle.rules.specs.RuleNames.{rules_in, set_named};

    /// The set that settings call so, if there is one.
    pub(crate) fn named(name: &str) -> Option<RuleSet>
        ensures { result ≡ set_named name.now }
    {
        match name {
            "nine" => Some(RuleSet::Nine),
            "recommended" => Some(RuleSet::Recommended),
            "all" => Some(RuleSet::Every),
            "none" => Some(RuleSet::Nothing),
            _ => None,
        }
    }

    /// Its rules.
    fn rules(self) -> &'static [RuleName]
        ensures { result.now ≡ rules_in self }
    {
        match self {
            RuleSet::Nine => NINE.as_slice(),
            RuleSet::Recommended => RECOMMENDED.as_slice(),
            RuleSet::Every => RULES.as_slice(),
            RuleSet::Nothing => &[],
        }
    }
}

/// Sets of rules, together.
#[derive(Clone, Copy, Debug, PartialEq, Eq)]
pub(crate) struct RuleSets {
    nine: bool,
    recommended: bool,
    every: bool,
}

impl RuleSets {
    ghost use Rattle.std.specs.Prelude.{◌≡◌};
    ghost use Rattle.rules.specs.RuleSets.{has_rule, no_sets, with_set};

    /// No set.
    pub(crate) fn none() -> RuleSets
        ensures { result ≡ no_sets }
    {
        RuleSets {
            nine: false,
            recommended: false,
            every: false,
        }
    }

    /// These and one more.
    pub(crate) fn with(self, set: RuleSet) -> RuleSets
        ensures { result ≡ with_set self set }
    {
        let mut sets = self;
        match set {
            RuleSet::Nine => sets.nine = true,
            RuleSet::Recommended => sets.recommended = true,
            RuleSet::Every => sets.every = true,
            RuleSet::Nothing => {},
        }
        sets
    }

    /// Whether one of these has a rule of this name.
    pub(crate) fn has_rule(self, name: &str) -> bool
        ensures { result ≡ has_rule self name.now }
    {
        (self.nine && is_one_of(name, RuleSet::Nine.rules()))
            || (self.recommended && is_one_of(name, RuleSet::Recommended.rules()))
            || (self.every && is_one_of(name, RuleSet::Every.rules()))
    }
}
