//! Options of rules.

ghost use Rattle.std.specs.Prelude.{◌≡◌};
ghost use Rattle.rules.specs.RuleOptions.{caught_named, is_option};

use crate::rule_list::RuleName;
use node_rules::NodeRule;

/// An option of a rule, which settings turn on or off.
#[derive(Clone, Copy, Debug, PartialEq, Eq)]
pub enum RuleOption {
    /// `eqeqeq` leaves comparisons with `null` alone.
    AllowNull,
    /// `no-empty` leaves blocks alone that have a comment.
    AllowComments,
    /// `no-unused-vars` leaves names alone that begin with `_`.
    IgnoreUnderscore,
    /// `no-unused-vars` leaves properties alone that stand beside a rest element.
    IgnoreRestSiblings,
    /// `no-undef` looks at operands of `typeof` too.
    Typeof,
}

/// The options.
const OPTIONS: [RuleOption; 5] = [
    RuleOption::AllowNull,
    RuleOption::AllowComments,
    RuleOption::IgnoreUnderscore,
    RuleOption::IgnoreRestSiblings,
    RuleOption::Typeof,
];

impl RuleOption {
    ghost use Rattle.std.specs.Prelude.{◌≡◌};
    ghost use Rattle.rules.specs.RuleOptions.{key_of, rule_of};

    /// Its key.
    pub(crate) fn key(self) -> &'static str
        ensures { result.now ≡ key_of self }
    {
        match self {
            RuleOption::AllowNull => "allow-null",
            RuleOption::AllowComments => "allow-comments",
            RuleOption::IgnoreUnderscore => "ignore-underscore",
            RuleOption::IgnoreRestSiblings => "ignore-rest-siblings",
            RuleOption::Typeof => "typeof",
        }
    }

    /// The rule that has it.
    pub(crate) fn rule(self) -> RuleName
        ensures { result ≡ rule_of self }
    {
        match self {
            RuleOption::AllowNull => RuleName::OnNodes(NodeRule::EqEqEq),
            RuleOption::AllowComments => RuleName::OnNodes(NodeRule::NoEmpty),
            RuleOption::IgnoreUnderscore | RuleOption::IgnoreRestSiblings => RuleName::NoUnusedVars,
            RuleOption::Typeof => RuleName::NoUndef,
        }
    }
}

/// Whether a rule has an option at this key.
#[tactic(auto, unfolding(crate::specs::RuleOptions::is_option))]
pub(crate) fn is_option(rule: &str, key: &str) -> bool
    ensures { result ≡ is_option rule.now key.now }
{
    OPTIONS.iter().any(|option| rule == option.rule().as_str() && key == option.key())
}

/// Which parameters `no-unused-vars` looks at.
#[derive(Clone, Copy, Debug, PartialEq, Eq)]
pub enum CheckedParams {
    /// None.
    NoParams,
    /// Those behind the last one that is read.
    AfterUsed,
    /// All.
    AllParams,
}

impl CheckedParams {
    ghost use Rattle.std.specs.Prelude.{◌≡◌};
    ghost use Rattle.rules.specs.RuleOptions.{params_named};
    ghost use Rattle.rules.specs.Used.{is_after_used};

    /// What settings call so, if there is such a word.
    pub(crate) fn named(name: &str) -> Option<CheckedParams>
        ensures { result ≡ params_named name.now }
    {
        match name {
            "none" => Some(CheckedParams::NoParams),
            "after-used" => Some(CheckedParams::AfterUsed),
            "all" => Some(CheckedParams::AllParams),
            _ => None,
        }
    }

    /// Whether it is those behind the last one that is read.
    pub(crate) fn is_after_used(self) -> bool
        ensures { result ≡ is_after_used self }
    {
        matches!(self, CheckedParams::AfterUsed)
    }
}

/// Whether `no-unused-vars` looks at what `catch` binds, by the word in settings, if there is such a word.
pub(crate) fn caught_named(name: &str) -> Option<bool>
    ensures { result ≡ caught_named name.now }
{
    match name {
        "none" => Some(false),
        "all" => Some(true),
        _ => None,
    }
}

/// Which options are on, and the words of others.
#[derive(Clone, Copy, Debug, PartialEq, Eq)]
pub struct RuleOptions {
    pub(crate) allow_null: bool,
    pub(crate) allow_comments: bool,
    pub(crate) ignore_underscore: bool,
    pub(crate) ignore_rest_siblings: bool,
    pub(crate) typeof_operands: bool,
    pub(crate) params: CheckedParams,
    pub(crate) caught_errors: bool,
}

impl RuleOptions {
    ghost use Rattle.std.specs.Prelude.{◌≡◌};
    ghost use Rattle.rules.specs.RuleOptions.{has_option};

    /// Whether one of them is on.
    pub(crate) fn has(self, option: RuleOption) -> bool
        ensures { result ≡ has_option self option }
    {
        match option {
            RuleOption::AllowNull => self.allow_null,
            RuleOption::AllowComments => self.allow_comments,
            RuleOption::IgnoreUnderscore => self.ignore_underscore,
            RuleOption::IgnoreRestSiblings => self.ignore_rest_siblings,
            RuleOption::Typeof => self.typeof_operands,
        }
    }
}
