//! What settings say of rules.

ghost use Rattle.std.specs.Prelude.{◌≡◌, IfOk, codes, option_map, string_bytes, map};
ghost use Rattle.toml.specs.View.{table_view, view};
ghost use Rattle.rules.specs.Toml.{all_at, caught_of, caught_said, fits_flag, fits_key, fits_list, fits_word, flag_in_rule, flag_of, narrowed_to, option_in_rule, option_of, options_of, params_of, params_said, rules_at, said_of, severity_at, severity_of, severity_said};
ghost use Rattle.toml.specs.Data.{get_member};

use crate::listed_names::may_be_list;
use crate::look_up::{look, value_in_rule, value_of_rule};
use crate::name_lists::is_list;
use crate::rule_list::{RULES, RuleName};
use crate::rule_option::{CheckedParams, RuleOption, RuleOptions, caught_named, is_option};
use crate::rule_set::RuleSets;
use crate::settings::is_among_names;
use crate::severity::Severity;
use std::alloc::{AllocError, Global};
use std::collections::BTreeSet;
use toml::{Table, Value};

/// The severity that a value says, by true or false, by its number or by its name.
pub(crate) fn severity_said(value: &Value) -> Option<Severity>
    ensures { result ≡ severity_said (view value.now) }
{
    if let Some(is_on) = value.as_bool() {
        return Some(Severity::of_flag(is_on));
    }
    if let Some(number) = value.as_integer() {
        return Severity::numbered(number);
    }
    match value.as_str() {
        Some(name) => Severity::named(name),
        None => None,
    }
}

/// The severity that the value of a rule says: it is one, or a table that may have one.
fn severity_at(value: &Value) -> Option<Severity>
    ensures { result ≡ severity_at (view value.now) }
{
    match value.as_table() {
        Some(table) => match look(table, "severity") {
            Some(value) => severity_said(value),
            None => None,
        },
        None => severity_said(value),
    }
}

/// Whether a rule has an option at this key that takes this value, true or false.
fn fits_flag(rule: &str, key: &str, value: &Value) -> bool
    ensures { result ≡ fits_flag rule.now key.now (view value.now) }
{
    is_option(rule, key) && value.as_bool().is_some()
}

/// Whether a rule has an option at this key that takes this value, a word.
fn fits_word(rule: &str, key: &str, value: &Value) -> bool
    ensures { result ≡ fits_word rule.now key.now (view value.now) }
{
    rule == "no-unused-vars"
        && ((key == "args" && params_said(value).is_some())
            || (key == "caught-errors" && caught_said(value).is_some()))
}

/// Whether a rule has a list at this key that may be this value.
fn fits_list(rule: &str, key: &str, value: &Value) -> bool
    ensures { result ≡ fits_list rule.now key.now (view value.now) }
{
    is_list(rule, key) && may_be_list(value)
}

/// Whether the table of a rule may have this value at this key.
pub(crate) fn fits_key(rule: &str, key: &str, value: &Value) -> bool
    ensures { result ≡ fits_key rule.now key.now (view value.now) }
{
    if key == "severity" {
        return severity_said(value).is_some();
    }
    fits_flag(rule, key, value) || fits_word(rule, key, value) || fits_list(rule, key, value)
}

/// The severity that is said of a rule; where none is, it is an error if the set has it, and else off.
fn said_of(is_in_set: bool, value: Option<&Value>) -> Severity
    ensures { result ≡ said_of is_in_set (option_map (λ v. view v.now) value.entry) }
{
    let said = match value {
        Some(value) => severity_at(value),
        None => None,
    };
    match said {
        Some(severity) => severity,
        None => Severity::of_flag(is_in_set),
    }
}

/// A severity, where only rules of some names are asked for.
fn narrowed_to(only: &Option<BTreeSet<String>>, rule: &str, severity: Severity) -> Severity
    ensures { result ≡ narrowed_to (option_map (λ names. map string_bytes names.keys) only.now) rule.now severity }
{
    match only {
        Some(names) => severity.narrowed(is_among_names(rule, names)),
        None => severity,
    }
}

/// The severity of a rule, by the sets that are extended, by which rules alone are asked for, and by what stands at it.
fn severity_of(
    sets: RuleSets,
    only: &Option<BTreeSet<String>>,
    table: &Table,
    rule: RuleName,
) -> Severity
    ensures { result ≡ severity_of sets (option_map (λ names. map string_bytes names.keys) only.now) (table_view table.now) rule }
{
    let name = rule.as_str();
    let said = said_of(sets.has_rule(name), value_of_rule(table, name));
    narrowed_to(only, name, said)
}

/// Those of these rules that have a severity.
#[tactic(auto, unfolding(crate::specs::Toml::rules_at))]
fn rules_at(
    alloc: Global,
    severity: Severity,
    sets: RuleSets,
    only: &Option<BTreeSet<String>>,
    table: &Table,
    rules: &[RuleName],
) -> Result<Vec<RuleName>, AllocError>
    ensures { IfOk result (λ v. v.items ≡ rules_at severity (severity_of sets (option_map (λ names. map string_bytes names.keys) only.now) (table_view table.now)) rules.now) }
{
    let mut found = Vec::new(alloc);
    for rule in rules {
        if severity_of(sets, only, table, *rule).is(severity) {
            found.push(*rule)?;
        }
    }
    Ok(found)
}

/// The rules that have a severity.
#[tactic(auto, unfolding(crate::specs::Toml::all_at))]
pub(crate) fn all_at(
    alloc: Global,
    severity: Severity,
    sets: RuleSets,
    only: &Option<BTreeSet<String>>,
    table: &Table,
) -> Result<Vec<RuleName>, AllocError>
    ensures { IfOk result (λ v. v.items ≡ all_at severity sets (option_map (λ names. map string_bytes names.keys) only.now) (table_view table.now)) }
{
    rules_at(alloc, severity, sets, only, table, RULES.as_slice())
}

/// The flag at a key: false if it is left out, none if it is no boolean.
pub(crate) fn flag(table: &Table, key: &str) -> Option<bool>
    ensures { result ≡ flag_of (get_member key.now (table_view table.now)) }
{
    match look(table, key) {
        None => Some(false),
        Some(value) => value.as_bool(),
    }
}

/// An option in the table of its rule.
fn option_in_rule(table: &Table, option: RuleOption) -> Option<bool>
    ensures { result ≡ option_in_rule option (table_view table.now) }
{
    match value_in_rule(table, option.rule(), option.key()) {
        Some(value) => value.as_bool(),
        None => None,
    }
}

/// An option that has no key of its own.
fn flag_in_rule(table: &Table, option: RuleOption) -> bool
    ensures { result ≡ flag_in_rule option (table_view table.now) }
{
    let said = option_in_rule(table, option);
    match said {
        Some(flag) => flag,
        None => false,
    }
}

/// An option: what the table of its rule says, else what its own key says, else it is off; none if its key has no boolean.
fn option_of(table: &Table, option: RuleOption) -> Option<bool>
    ensures { result ≡ option_of option (table_view table.now) }
{
    let Some(flag) = flag(table, option.key()) else {
        return None;
    };
    match option_in_rule(table, option) {
        Some(flag) => Some(flag),
        None => Some(flag),
    }
}

/// The word for the parameters that a value says.
fn params_said(value: &Value) -> Option<CheckedParams>
    ensures { result ≡ params_said (view value.now) }
{
    match value.as_str() {
        Some(name) => CheckedParams::named(name),
        None => None,
    }
}

/// The parameters that `no-unused-vars` looks at.
fn params_of(table: &Table) -> CheckedParams
    ensures { result ≡ params_of (table_view table.now) }
{
    let said = match value_in_rule(table, RuleName::NoUnusedVars, "args") {
        Some(value) => params_said(value),
        None => None,
    };
    match said {
        Some(params) => params,
        None => CheckedParams::NoParams,
    }
}

/// Whether what `catch` binds is looked at, by a word that a value says.
fn caught_said(value: &Value) -> Option<bool>
    ensures { result ≡ caught_said (view value.now) }
{
    match value.as_str() {
        Some(name) => caught_named(name),
        None => None,
    }
}

/// Whether `no-unused-vars` looks at what `catch` binds.
fn caught_of(table: &Table) -> bool
    ensures { result ≡ caught_of (table_view table.now) }
{
    let said = match value_in_rule(table, RuleName::NoUnusedVars, "caught-errors") {
        Some(value) => caught_said(value),
        None => None,
    };
    match said {
        Some(is_looked_at) => is_looked_at,
        None => false,
    }
}

/// The options; none if a key of one has no boolean.
pub(crate) fn options_of(table: &Table) -> Option<RuleOptions>
    ensures { result ≡ options_of (table_view table.now) }
{
    let Some(allow_null) = option_of(table, RuleOption::AllowNull) else {
        return None;
    };
    let Some(allow_comments) = option_of(table, RuleOption::AllowComments) else {
        return None;
    };
    let Some(ignore_underscore) = option_of(table, RuleOption::IgnoreUnderscore) else {
        return None;
    };
    Some(RuleOptions {
        allow_null,
        allow_comments,
        ignore_underscore,
        ignore_rest_siblings: flag_in_rule(table, RuleOption::IgnoreRestSiblings),
        typeof_operands: flag_in_rule(table, RuleOption::Typeof),
        params: params_of(table),
        caught_errors: caught_of(table),
    })
}
