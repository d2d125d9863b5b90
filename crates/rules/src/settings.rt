//! Settings.

ghost use Rattle.std.specs.Prelude.{◌≡◌, map, string_bytes};
ghost use Rattle.std.specs.List.{list_any};
ghost use Rattle.std.specs.Str.{bytes_eq};

use crate::environment::Environments;
use crate::known_keys::{is_one_of, is_rule};
use crate::languages::Languages;
use crate::name_lists::{NameList, NameLists};
use crate::rule_list::RuleName;
use crate::rule_option::{RuleOption, RuleOptions};
use std::collections::BTreeSet;
use std::marker::Model;

/// Whether a name is one of these.
pub(crate) fn is_among_names(name: &str, names: &BTreeSet<String>) -> bool
    ensures { result ≡ list_any (λ x. bytes_eq name.now x) (map string_bytes names.now.keys) }
{
    names.contains(name)
}

/// Which rules are on, and whether their reports are errors or warnings, which names a script may use without declaring them, in which
/// environments it runs, in which languages it may be, and the options of rules, with their lists of names.
///
/// The global names stand in a tree by order, not by hash: settings may be a stranger's, who could choose names that hash
/// alike.
#[derive(Drop)]
pub struct Settings {
    errors: Vec<RuleName>,
    warnings: Vec<RuleName>,
    globals: BTreeSet<String>,
    environments: Environments,
    languages: Languages,
    options: RuleOptions,
    lists: NameLists,
}

impl Model for Settings {
    ghost use Rattle.std.specs.Prelude.{map, string_bytes};
    ghost use Rattle.rules.specs.ListsShown.{lists_shown};
    ghost use Rattle.rules.specs.Settings.{Settings};

    ghost Value = { Settings };

    ghost view = { λ s. record { errors = s.errors.items; warnings = s.warnings.items; globals = map string_bytes s.globals.keys; environments = s.environments; languages = s.languages; options = s.options; lists = lists_shown s.lists } };
}

impl Settings {
    ghost use Rattle.std.specs.Prelude.{◌≡◌, map, string_bytes};
    ghost use Rattle.std.specs.List.{list_any};
    ghost use Rattle.std.specs.Str.{bytes_eq};
    ghost use Rattle.rules.specs.ListsShown.{lists_shown};
    ghost use Rattle.rules.specs.RuleOptions.{has_option, is_listed};
    ghost use Rattle.rules.specs.Settings.{is_global, is_on, is_warning};

    /// Settings with these rules on, whose reports are errors or warnings, these globals, these environments, these languages, these
    /// options and these lists.
    pub(crate) fn new(
        errors: Vec<RuleName>,
        warnings: Vec<RuleName>,
        globals: BTreeSet<String>,
        environments: Environments,
        languages: Languages,
        options: RuleOptions,
        lists: NameLists,
    ) -> Settings
        ensures { result ≡ record { errors = errors.items; warnings = warnings.items; globals = map string_bytes globals.keys; environments = environments; languages = languages; options = options; lists = lists_shown lists } }
    {
        Settings {
            errors,
            warnings,
            globals,
            environments,
            languages,
            options,
            lists,
        }
    }

    /// Whether a rule of this name is on. A name that no rule here has is on: settings can't turn it off.
    pub fn is_on(&self, name: &str) -> bool
        ensures { result ≡ is_on name.now self.now }
    {
        is_one_of(name, self.errors.as_slice()) || self.is_warning(name) || !is_rule(name)
    }

    /// Whether the reports of a rule of this name are warnings: those of a name that no rule here has are errors.
    pub fn is_warning(&self, name: &str) -> bool
        ensures { result ≡ is_warning name.now self.now }
    {
        is_one_of(name, self.warnings.as_slice())
    }

    /// Whether `globals` has the name.
    fn has_global(&self, name: &str) -> bool
        ensures { result ≡ list_any (λ x. bytes_eq name.now x) self.now.globals }
    {
        is_among_names(name, &self.globals)
    }

    /// Whether `globals` has the name, or one of the environments.
    pub fn is_global(&self, name: &str) -> bool
        ensures { result ≡ is_global name.now self.now }
    {
        self.has_global(name) || self.environments.has_name(name)
    }

    /// The languages that a script may be in.
    pub fn languages(&self) -> Languages
        ensures { result ≡ self.now.languages }
    {
        self.languages
    }

    /// Whether an option of a rule is on.
    pub fn has_option(&self, option: RuleOption) -> bool
        ensures { result ≡ has_option self.now.options option }
    {
        self.options.has(option)
    }

    /// The options of rules.
    pub(crate) fn options(&self) -> RuleOptions
        ensures { result ≡ self.now.options }
    {
        self.options
    }

    /// Whether a text in a list of a rule stands for a name.
    pub fn is_listed(&self, list: NameList, name: &str) -> bool
        ensures { result ≡ is_listed self.now.lists list name.now }
    {
        self.lists.is_listed(list, name)
    }
}
