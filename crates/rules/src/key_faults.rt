//! Which key of a table doesn't fit settings.

ghost use Rattle.std.specs.Prelude.{◌≡◌, ◌≤◌, codes, false, length, not, is_some, Some, option_map};
ghost use Rattle.std.specs.Option.{option_map_or};
ghost use Rattle.std.specs.Str.{bytes_eq};
ghost use Rattle.toml.specs.Data.{as_str, get_member};
ghost use Rattle.toml.specs.View.{items_view, table_view, view};
ghost use Rattle.rules.specs.Misfits.{fault_of_key, fits_item, flags_fault, has_string, is_flag, item_fault, key_fault, languages_fault, later_flags_fault, list_fault, option_misfit, repeated, rule_fault, rules_fault, shown_fault, table_fault, table_of_rules_fault, unfit_item, value_fault, value_list_fault};
ghost use Rattle.rules.specs.Toml.{knows_keys, rules_fit};

use crate::environment::Environment;
use crate::known_keys::{is_key, is_known};
use crate::look_up::look;
use crate::misfit::{ListKey, Misfit};
use crate::name_lists::is_list;
use crate::rule_option::is_option;
use crate::rule_set::RuleSet;
use crate::rule_settings::{fits_key, flag, severity_said};
use crate::settings_fault::{SettingsFault, key_text, name_text, option_text, rule_text};
use crate::settings_from_toml::{edition, source_type};
use toml::{Table, Value};

/// The first key of a table that settings don't have.
fn first_unknown(table: &Table) -> Option<SettingsFault>
    ensures { option_map shown_fault result ≡ key_fault (table_view table.now) }
{
    for (key, value) in table.iter() {
        if !is_key(key.as_str()) {
            let at = name_text(key.as_str());
            return Some(SettingsFault::at(at, value, Misfit::NoKey));
        }
    }
    None
}

/// The first key that settings don't have; none where they have all.
pub(crate) fn key_fault(table: &Table) -> Option<SettingsFault>
    ensures fault { option_map shown_fault result ≡ key_fault (table_view table.now) }
    ensures known { knows_keys (table_view table.now) ≡ not (is_some result) }
{
    first_unknown(table)
}

/// Why a value of an option doesn't fit.
fn option_misfit(rule: &str, key: &str) -> Misfit
    ensures { result ≡ option_misfit rule.now key.now }
{
    if key == "severity" {
        return Misfit::NoSeverity;
    }
    if is_option(rule, key) {
        return Misfit::NoFlag;
    }
    if is_list(rule, key) {
        return Misfit::NoNameList;
    }
    if rule == "no-unused-vars" && key == "args" {
        return Misfit::NoParams;
    }
    if rule == "no-unused-vars" && key == "caught-errors" {
        return Misfit::NoCaughtErrors;
    }
    Misfit::NoOption
}

/// The first key in the table of a rule that the rule doesn't have, or that has another value.
fn table_fault(rule: &str, table: &Table) -> Option<SettingsFault>
    ensures { option_map shown_fault result ≡ table_fault rule.now (table_view table.now) }
{
    for (key, value) in table.iter() {
        if !fits_key(rule, key.as_str(), value) {
            let at = option_text(rule, key.as_str());
            let why = option_misfit(rule, key.as_str());
            return Some(SettingsFault::at(at, value, why));
        }
    }
    None
}

/// What doesn't fit in the value of a rule.
fn value_fault(rule: &str, value: &Value) -> Option<SettingsFault>
    ensures { option_map shown_fault result ≡ value_fault rule.now (view value.now) }
{
    if let Some(table) = value.as_table() {
        return table_fault(rule, table);
    }
    if severity_said(value).is_some() {
        return None;
    }
    let at = rule_text(rule);
    Some(SettingsFault::at(at, value, Misfit::NoRuleSetting))
}

/// What doesn't fit of a rule and its value.
#[tactic(auto, unfolding(crate::specs::Misfits::rule_fault))]
fn rule_fault(rule: &str, value: &Value) -> Option<SettingsFault>
    ensures { option_map shown_fault result ≡ rule_fault rule.now (view value.now) }
{
    if is_known(rule) {
        return value_fault(rule, value);
    }
    let at = rule_text(rule);
    Some(SettingsFault::at(at, value, Misfit::NoRule))
}

/// What doesn't fit in a table of rules: of the first rule of which something doesn't.
fn table_of_rules_fault(rules: &Table) -> Option<SettingsFault>
    ensures { option_map shown_fault result ≡ table_of_rules_fault (table_view rules.now) }
{
    for (rule, value) in rules.iter() {
        let fault = rule_fault(rule.as_str(), value);
        if fault.is_some() {
            return fault;
        }
    }
    None
}

/// What doesn't fit at `rules`.
fn fault_at_rules(table: &Table) -> Option<SettingsFault>
    ensures { option_map shown_fault result ≡ rules_fault (get_member (codes "rules") (table_view table.now)) }
{
    let Some(value) = look(table, "rules") else {
        return None;
    };
    match value.as_table() {
        Some(rules) => table_of_rules_fault(rules),
        None => Some(SettingsFault::at(key_text("rules"), value, Misfit::NoTable)),
    }
}

/// What doesn't fit at `rules`; nothing where all does.
pub(crate) fn rules_fault(table: &Table) -> Option<SettingsFault>
    ensures fault { option_map shown_fault result ≡ rules_fault (get_member (codes "rules") (table_view table.now)) }
    ensures fit { rules_fit (get_member (codes "rules") (table_view table.now)) ≡ not (is_some result) }
{
    fault_at_rules(table)
}

/// Whether an array of names may have an element.
fn fits_item(key: ListKey, value: &Value) -> bool
    ensures { result ≡ fits_item key (view value.now) }
{
    let Some(name) = value.as_str() else {
        return false;
    };
    match key {
        ListKey::Extends => RuleSet::named(name).is_some(),
        ListKey::Only => is_known(name),
        ListKey::Globals => true,
        ListKey::Env => Environment::named(name).is_some(),
    }
}

/// The first element that an array of names may not have.
fn unfit_item(key: ListKey, values: &[Value]) -> Option<&Value>
    ensures { option_map (λ v. view v.now) result ≡ unfit_item key (items_view values.now) }
{
    for value in values {
        if !fits_item(key, value) {
            return Some(value);
        }
    }
    None
}

/// Whether a value is this string.
fn is_string(value: &Value, text: &str) -> bool
    ensures { result ≡ option_map_or (bytes_eq text.now) (as_str (view value.now)) false }
{
    match value.as_str() {
        Some(string) => text == string,
        None => false,
    }
}

/// Whether an array has this string.
fn has_string(values: &[Value], text: &str) -> bool
    ensures { result ≡ has_string text.now (items_view values.now) }
{
    for value in values {
        if is_string(value, text) {
            return true;
        }
    }
    false
}

/// Whether a value is a string that these have too.
fn stands_again(value: &Value, values: &[Value]) -> bool
    ensures { result ≡ option_map_or (λ text. has_string text (items_view values.now)) (as_str (view value.now)) false }
{
    match value.as_str() {
        Some(text) => has_string(values, text),
        None => false,
    }
}

/// The first string of an array that stands again behind its place. Where all are names of rules, it stands among the first of them that
/// are one more than there are rules.
fn repeated(values: &[Value]) -> Option<&Value>
    ensures { option_map (λ v. view v.now) result ≡ repeated (items_view values.now) }
{
    for index in 0..values.len() {
        if stands_again(&values[index], &values[index + 1..]) {
            return Some(&values[index]);
        }
    }
    None
}

/// The first element that an array of names may not have, or that it has twice.
fn item_fault(key: ListKey, values: &[Value]) -> Option<SettingsFault>
    ensures { option_map shown_fault result ≡ item_fault key (items_view values.now) }
{
    let at = key_text(key.name());
    if let Some(value) = unfit_item(key, values) {
        return Some(SettingsFault::within(at, value, key.item_misfit()));
    }
    match repeated(values) {
        Some(value) => Some(SettingsFault::within(at, value, Misfit::Twice)),
        None => None,
    }
}

/// The fault of a value that isn't taken as an array of names.
fn value_list_fault(key: ListKey, value: &Value) -> SettingsFault
    ensures { shown_fault result ≡ value_list_fault key (view value.now) }
{
    let fault = match value.as_array() {
        Some(array) => item_fault(key, array.as_slice()),
        None => None,
    };
    match fault {
        Some(fault) => fault,
        None => SettingsFault::at(key_text(key.name()), value, key.list_misfit()),
    }
}

/// The fault of an array of names that isn't taken.
pub(crate) fn list_fault(key: ListKey, table: &Table) -> SettingsFault
    ensures { shown_fault result ≡ list_fault key (table_view table.now) }
{
    match look(table, key.name()) {
        Some(value) => value_list_fault(key, value),
        None => SettingsFault::bare(key_text(key.name()), key.list_misfit()),
    }
}

/// The fault of a key.
#[tactic(auto, unfolding(crate::specs::Misfits::fault_of_key))]
fn fault_of_key(table: &Table, key: &str, why: Misfit) -> SettingsFault
    requires { length key.now ≤ 93 }
    ensures { shown_fault result ≡ fault_of_key key.now (table_view table.now) why }
{
    match look(table, key) {
        Some(value) => SettingsFault::at(key_text(key), value, why),
        None => SettingsFault::bare(key_text(key), why),
    }
}

/// The fault of `edition` and `source-type` that leave no language.
pub(crate) fn languages_fault(table: &Table) -> SettingsFault
    ensures { shown_fault result ≡ languages_fault (table_view table.now) }
{
    if edition(table).is_none() {
        return fault_of_key(table, "edition", Misfit::NoEdition);
    }
    if source_type(table).is_none() {
        return fault_of_key(table, "source-type", Misfit::NoSourceType);
    }
    fault_of_key(table, "source-type", Misfit::NoModules)
}

/// Whether what stands at a key is a flag, or nothing.
#[tactic(auto, unfolding(crate::specs::Misfits::is_flag))]
fn is_flag(table: &Table, key: &str) -> bool
    ensures { result ≡ is_flag key.now (table_view table.now) }
{
    flag(table, key).is_some()
}

/// The fault of the other flags where `allow-null` is one.
#[tactic(auto, unfolding(crate::specs::Misfits::later_flags_fault))]
fn later_flags_fault(table: &Table) -> SettingsFault
    ensures { shown_fault result ≡ later_flags_fault (table_view table.now) }
{
    if is_flag(table, "allow-comments") {
        return fault_of_key(table, "ignore-underscore", Misfit::NoFlag);
    }
    fault_of_key(table, "allow-comments", Misfit::NoFlag)
}

/// The fault of the flags, of which one is none.
pub(crate) fn flags_fault(table: &Table) -> SettingsFault
    ensures { shown_fault result ≡ flags_fault (table_view table.now) }
{
    if is_flag(table, "allow-null") {
        return later_flags_fault(table);
    }
    fault_of_key(table, "allow-null", Misfit::NoFlag)
}
