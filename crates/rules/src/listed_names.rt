//! Lists of names, as settings have them.

ghost use Rattle.std.specs.Prelude.{◌≡◌, ◌&&◌, false, nat_le, length, map, string_bytes, IfOk};
ghost use Rattle.std.specs.List.{list_all};
ghost use Rattle.std.specs.Option.{option_map_or};
ghost use Rattle.toml.specs.Data.{as_array};
ghost use Rattle.toml.specs.View.{items_view, table_view, view};
ghost use Rattle.rules.specs.ListsShown.{lists_shown};
ghost use Rattle.rules.specs.Toml.{are_patterns, is_pattern_said, list_of, lists_of, strings_in};

use crate::look_up::value_in_rule;
use crate::name_lists::{NameList, NameLists, is_pattern};
use std::alloc::{AllocError, Global};
use toml::{Table, Value};

/// The most texts in a list, each of which is held against each name.
const MOST_TEXTS: usize = 100;

/// Whether a value is a text that stands for names.
fn is_pattern_said(value: &Value) -> bool
    ensures { result ≡ is_pattern_said (view value.now) }
{
    match value.as_str() {
        Some(text) => is_pattern(text),
        None => false,
    }
}

/// Whether all these are texts that stand for names.
fn all_patterns(values: &[Value]) -> bool
    ensures { result ≡ list_all (λ v. is_pattern_said (view v)) values.now }
{
    values.iter().all(|value| is_pattern_said(value))
}

/// Whether these are as few texts as a list may have.
fn few_patterns(values: &[Value]) -> bool
    ensures { result ≡ (nat_le (length values.now) 100 && list_all (λ v. is_pattern_said (view v)) values.now) }
{
    values.len() <= MOST_TEXTS && all_patterns(values)
}

/// Whether the elements of an array may be a list.
fn are_patterns(values: &[Value]) -> bool
    ensures { result ≡ are_patterns (items_view values.now) }
{
    few_patterns(values)
}

/// Whether a value may be a list.
pub(crate) fn may_be_list(value: &Value) -> bool
    ensures { result ≡ option_map_or are_patterns (as_array (view value.now)) false }
{
    match value.as_array() {
        Some(array) => are_patterns(array.as_slice()),
        None => false,
    }
}

/// The strings in an array.
fn strings_in(alloc: Global, values: &[Value]) -> Result<Vec<String>, AllocError>
    ensures { IfOk result (λ v. map string_bytes v.items ≡ strings_in (items_view values.now)) }
{
    let mut strings = Vec::new(alloc);
    for value in values {
        if let Some(text) = value.as_str() {
            strings.push(String::from_str(alloc, text)?)?;
        }
    }
    Ok(strings)
}

/// A list in the table of its rule; empty where it is left out.
fn list_of(alloc: Global, table: &Table, list: NameList) -> Result<Vec<String>, AllocError>
    ensures { IfOk result (λ v. map string_bytes v.items ≡ list_of list (table_view table.now)) }
{
    let Some(value) = value_in_rule(table, list.rule(), list.key()) else {
        return Ok(Vec::new(alloc));
    };
    match value.as_array() {
        Some(array) => strings_in(alloc, array.as_slice()),
        None => Ok(Vec::new(alloc)),
    }
}

/// The lists of all rules.
pub(crate) fn lists_of(alloc: Global, table: &Table) -> Result<NameLists, AllocError>
    ensures { IfOk result (λ l. lists_shown l ≡ lists_of (table_view table.now)) }
{
    Ok(NameLists {
        args_ignore: list_of(alloc, table, NameList::ArgsIgnore)?,
        vars_ignore: list_of(alloc, table, NameList::VarsIgnore)?,
        caught_errors_ignore: list_of(alloc, table, NameList::CaughtErrorsIgnore)?,
        allow: list_of(alloc, table, NameList::Allow)?,
    })
}
