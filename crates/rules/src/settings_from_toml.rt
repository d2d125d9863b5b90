//! Settings read from a TOML text.

ghost use Rattle.std.specs.Prelude.{◌≡◌, ◌&&◌, nat_eq, length, Some, None, Err, codes, map, option_and_then, option_map, string_bytes, IfOk, IfErr};
ghost use Rattle.toml.specs.Data.{get_member};
ghost use Rattle.toml.specs.View.{array_view, items_view, table_view, view};
ghost use Rattle.rules.specs.Toml.{are_names, edition_of, environments_of, globals_of, languages_of, names_of, only_of, set_of, sets_of_rules, settings_of, settings_with, source_type_of, with_environments, with_sets};
ghost use Rattle.rules.specs.Environments.{no_environments};
ghost use Rattle.rules.specs.RuleNames.{is_known, set_named};
ghost use Rattle.rules.specs.RuleSets.{no_sets, with_set};
ghost use Rattle.std.specs.List.{list_all};
ghost use Rattle.rules.specs.Misfits.{fault_of, values_fault};
ghost use Rattle.rules.specs.Refusals.{IsTomlRefusal, RefusesBy};

use crate::environment::{Environment, Environments};
use crate::key_faults::{flags_fault, key_fault, languages_fault, list_fault, rules_fault};
use crate::known_keys::is_known;
use crate::languages::Languages;
use crate::listed_names::lists_of;
use crate::look_up::look;
use crate::misfit::ListKey;
use crate::rule_set::{RuleSet, RuleSets};
use crate::rule_settings::{all_at, options_of};
use crate::settings::Settings;
use crate::settings_error::{SettingsError, ValueError};
use crate::severity::Severity;
use source_text::MAX_BYTES;
use std::alloc::Global;
use std::collections::BTreeSet;
use toml::value::Array;
use toml::{Table, Value};

/// The error of a text that `toml` refused: memory, or that the text is no TOML, with the place at which the error's span starts.
fn toml_refusal(text: &str, error: &toml::de::Error) -> SettingsError
    ensures { IsTomlRefusal text.now error.now result }
{
    match error.span() {
        Some(span) => SettingsError::NotToml(text.floor_char_boundary(span.start)),
        None => SettingsError::Memory,
    }
}

/// The strings of an array, as a set.
fn set(alloc: Global, values: &[Value]) -> Result<BTreeSet<String>, ValueError>
    ensures ok { IfOk result (λ s. set_of (items_view values.now) ≡ Some (map string_bytes s.keys)) }
    ensures bad { result ≡ Err ValueError.Unfit → set_of (items_view values.now) ≡ None }
{
    let mut set = BTreeSet::new(alloc);
    for value in values {
        let Some(text) = value.as_str() else {
            return Err(ValueError::Unfit);
        };
        let string = String::from_str(alloc, text)?;
        set.insert(string)?;
    }
    Ok(set)
}

/// The names at `globals`: none if it is left out; refused if it is no array of strings.
fn globals(alloc: Global, table: &Table) -> Result<BTreeSet<String>, ValueError>
    ensures ok { IfOk result (λ s. globals_of (get_member (codes "globals") (table_view table.now)) ≡ Some (map string_bytes s.keys)) }
    ensures bad { result ≡ Err ValueError.Unfit → globals_of (get_member (codes "globals") (table_view table.now)) ≡ None }
{
    match look(table, "globals") {
        None => Ok(BTreeSet::new(alloc)),
        Some(value) => match value.as_array() {
            Some(array) => set(alloc, array.as_slice()),
            None => Err(ValueError::Unfit),
        },
    }
}

/// The environments that an array names: none if another string or value is among them.
fn named_environments(values: &[Value]) -> Option<Environments>
    ensures { result ≡ with_environments no_environments (items_view values.now) }
{
    let mut environments = Environments::none();
    for value in values {
        let Some(name) = value.as_str() else {
            return None;
        };
        let Some(environment) = Environment::named(name) else {
            return None;
        };
        environments = environments.with(environment);
    }
    Some(environments)
}

/// The environments at `env`: none if it is left out; refused, as `None`, if it is no array of their names.
fn environments(table: &Table) -> Option<Environments>
    ensures { result ≡ environments_of (get_member (codes "env") (table_view table.now)) }
{
    match look(table, "env") {
        None => Some(Environments::none()),
        Some(value) => match value.as_array() {
            Some(array) => named_environments(array.as_slice()),
            None => None,
        },
    }
}

/// The languages of the edition at `edition`: all if it is left out; refused, as `None`, if it is no year of one.
pub(crate) fn edition(table: &Table) -> Option<Languages>
    ensures { result ≡ edition_of (get_member (codes "edition") (table_view table.now)) }
{
    match look(table, "edition") {
        None => Some(Languages::all()),
        Some(value) => match value.as_integer() {
            Some(year) => Languages::of_edition(year),
            None => None,
        },
    }
}

/// The languages of the source type at `source-type`: all if it is left out; refused, as `None`, if it is no name of one.
pub(crate) fn source_type(table: &Table) -> Option<Languages>
    ensures { result ≡ source_type_of (get_member (codes "source-type") (table_view table.now)) }
{
    match look(table, "source-type") {
        None => Some(Languages::all()),
        Some(value) => match value.as_str() {
            Some(name) => Languages::of_source_type(name),
            None => None,
        },
    }
}

/// The languages that both leave; refused, as `None`, if there is none.
fn languages(table: &Table) -> Option<Languages>
    ensures { result ≡ languages_of (table_view table.now) }
{
    let Some(edition) = edition(table) else {
        return None;
    };
    let Some(source_type) = source_type(table) else {
        return None;
    };
    let languages = edition.and(source_type);
    if languages.is_empty() {
        return None;
    }
    Some(languages)
}

/// The sets of rules that an array names, together: none if another string or value is among them.
fn named_sets(values: &[Value]) -> Option<RuleSets>
    ensures { result ≡ with_sets no_sets (items_view values.now) }
{
    let mut sets = RuleSets::none();
    for value in values {
        let Some(name) = value.as_str() else {
            return None;
        };
        let Some(set) = RuleSet::named(name) else {
            return None;
        };
        sets = sets.with(set);
    }
    Some(sets)
}

/// The set of rules of a name, alone, if there is one.
fn named_set(name: Option<&str>) -> Option<RuleSets>
    ensures { result ≡ option_map (with_set no_sets) (option_and_then set_named (option_map (λ n. n.now) name.entry)) }
{
    let Some(name) = name else {
        return None;
    };
    match RuleSet::named(name) {
        Some(set) => Some(RuleSets::none().with(set)),
        None => None,
    }
}

/// The sets of rules at `extends`: the nine if it is left out; refused, as `None`, if it is no name of a set and no array of those.
fn rule_sets(table: &Table) -> Option<RuleSets>
    ensures { result ≡ sets_of_rules (get_member (codes "extends") (table_view table.now)) }
{
    match look(table, "extends") {
        None => Some(RuleSets::none().with(RuleSet::Nine)),
        Some(value) => match value.as_array() {
            Some(array) => named_sets(array.as_slice()),
            None => named_set(value.as_str()),
        },
    }
}

/// Whether all these are names of rules.
fn are_known(names: &BTreeSet<String>) -> bool
    ensures { result ≡ list_all (λ k. is_known (string_bytes k)) names.now.keys }
{
    names.iter().all(|name| is_known(name.as_str()))
}

/// Whether all these are names of rules, and as many as there are values.
fn are_known_once(names: &BTreeSet<String>, values: &[Value]) -> bool
    ensures { result ≡ (list_all (λ k. is_known (string_bytes k)) names.now.keys && nat_eq (length names.now.keys) (length values.now)) }
{
    are_known(names) && names.len() == values.len()
}

/// Whether these, the strings in an array, are names of rules, and none occurs twice in it.
fn are_names(names: &BTreeSet<String>, values: &[Value]) -> bool
    ensures { result ≡ are_names (map string_bytes names.now.keys) (items_view values.now) }
{
    are_known_once(names, values)
}

/// The strings of an array of names of rules; refused if another string or value is among them, or one twice.
fn rule_names(alloc: Global, values: &[Value]) -> Result<BTreeSet<String>, ValueError>
    ensures ok { IfOk result (λ s. names_of (items_view values.now) ≡ Some (map string_bytes s.keys)) }
    ensures bad { result ≡ Err ValueError.Unfit → names_of (items_view values.now) ≡ None }
{
    let names = set(alloc, values)?;
    if !are_names(&names, values) {
        return Err(ValueError::Unfit);
    }
    Ok(names)
}

/// The names at `only`, if it is there; refused if it is no array of names of rules, each once.
fn only(alloc: Global, table: &Table) -> Result<Option<BTreeSet<String>>, ValueError>
    ensures ok { IfOk result (λ o. only_of (get_member (codes "only") (table_view table.now)) ≡ Some (option_map (λ names. map string_bytes names.keys) o)) }
    ensures bad { result ≡ Err ValueError.Unfit → only_of (get_member (codes "only") (table_view table.now)) ≡ None }
{
    match look(table, "only") {
        None => Ok(None),
        Some(value) => match value.as_array() {
            Some(array) => Ok(Some(rule_names(alloc, array.as_slice())?)),
            None => Err(ValueError::Unfit),
        },
    }
}

/// The settings of a table whose keys and rules fit, under sets of rules and `only`; refused if another key has a value of another kind.
fn settings_with(
    alloc: Global,
    sets: RuleSets,
    only: &Option<BTreeSet<String>>,
    table: &Table,
) -> Result<Settings, SettingsError>
    ensures ok { IfOk result (λ s. settings_with sets (option_map (λ names. map string_bytes names.keys) only.now) (table_view table.now) ≡ Some s) }
    ensures bad { IfErr result (RefusesBy (λ fault. (settings_with sets (option_map (λ names. map string_bytes names.keys) only.now) (table_view table.now) ≡ None) × (values_fault (table_view table.now) ≡ Some fault))) }
{
    let globals = match globals(alloc, table) {
        Ok(globals) => globals,
        Err(ValueError::Memory) => return Err(SettingsError::Memory),
        Err(ValueError::Unfit) => {
            return Err(SettingsError::Unfit(list_fault(ListKey::Globals, table)));
        }
    };
    let Some(environments) = environments(table) else {
        return Err(SettingsError::Unfit(list_fault(ListKey::Env, table)));
    };
    let Some(languages) = languages(table) else {
        return Err(SettingsError::Unfit(languages_fault(table)));
    };
    let Some(options) = options_of(table) else {
        return Err(SettingsError::Unfit(flags_fault(table)));
    };
    let errors = all_at(alloc, Severity::Error, sets, only, table)?;
    let warnings = all_at(alloc, Severity::Warn, sets, only, table)?;
    let lists = lists_of(alloc, table)?;
    Ok(Settings::new(
        errors,
        warnings,
        globals,
        environments,
        languages,
        options,
        lists,
    ))
}

/// The settings that a table gives; refused if it has another key or value.
fn settings_of(alloc: Global, table: &Table) -> Result<Settings, SettingsError>
    ensures ok { IfOk result (λ s. settings_of (table_view table.now) ≡ Some s) }
    ensures bad { IfErr result (RefusesBy (λ fault. (settings_of (table_view table.now) ≡ None) × (fault_of (table_view table.now) ≡ Some fault))) }
{
    if let Some(fault) = key_fault(table) {
        return Err(SettingsError::Unfit(fault));
    }
    if let Some(fault) = rules_fault(table) {
        return Err(SettingsError::Unfit(fault));
    }
    let Some(sets) = rule_sets(table) else {
        return Err(SettingsError::Unfit(list_fault(ListKey::Extends, table)));
    };
    match only(alloc, table) {
        Ok(only) => settings_with(alloc, sets, &only, table),
        Err(ValueError::Memory) => Err(SettingsError::Memory),
        Err(ValueError::Unfit) => { Err(SettingsError::Unfit(list_fault(ListKey::Only, table))) }
    }
}

impl Settings {
    ghost use Rattle.std.specs.Prelude.{◌≡◌, Some, IfErr, IfOk};
    ghost use Rattle.rules.specs.Toml.{settings_of_text};
    ghost use Rattle.rules.specs.Refusals.{RefusesToml};

    /// The settings of a TOML text: `extends`, the name of a set of rules, which are on: "nine", "recommended", "all" or "none", or an array of those; `rules`, a
    /// table of names of rules, each with a severity, by its name, its number, true or false, or with a table that may have a `severity` and the
    /// options of the rule, as `docs/USAGE.md` has them; `only`, an array of names of rules: they are on, and no others; `globals`, an array of strings; `env`, an array of
    /// names of environments; `edition`, 2020 or 2022, and `source-type`, "script" or "module", where there are no modules of 2020;
    /// `allow-null`, `allow-comments` and `ignore-underscore`, each true or false, unless the table of the rule has it; each key at most once.
    /// Where nothing is said, the nine are on, their reports are errors, and there are no globals and no environments; a script may be in any
    /// language.
    ///
    /// # Errors
    ///
    /// `TooLong` where the text has more than 16,777,216 bytes, which is seen before it is read; `NotToml` where it isn't TOML, with the place
    /// of the error; `Unfit` where it is TOML that gives no settings, with the first key that doesn't fit: one that there isn't, one in
    /// `rules`, each in the order of names; then `extends`, `only`, `globals`, `env`, `edition`, `source-type` and the flags; `Memory`.
    pub fn from_toml(alloc: Global, text: &str) -> Result<Settings, SettingsError>
        ensures ok { IfOk result (λ s. settings_of_text text.now ≡ Some s) }
        ensures refused { IfErr result (RefusesToml text.now) }
    {
        if text.len() > MAX_BYTES {
            return Err(SettingsError::TooLong);
        }
        match toml::table_from_str(alloc, text) {
            Ok(table) => settings_of(alloc, &table),
            Err(error) => Err(toml_refusal(text, &error)),
        }
    }
}
