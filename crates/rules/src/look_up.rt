//! Look-ups in tables of TOML.

ghost use Rattle.std.specs.Prelude.{◌≡◌, option_and_then, option_map};
ghost use Rattle.toml.specs.Data.{as_table, get_member};
ghost use Rattle.toml.specs.View.{table_view, view};
ghost use Rattle.rules.specs.Toml.{value_in_rule, value_of_rule};

use crate::rule_list::RuleName;
use toml::{Table, Value};

/// What stands at a key.
pub(crate) fn look<'t>(table: &'t Table, key: &str) -> Option<&'t Value>
    ensures { option_map (λ v. view v.now) result ≡ get_member key.now (table_view table.now) }
{
    table.get(key)
}

/// What stands at a key of a value, if that is a table.
pub(crate) fn look_in<'t>(value: &'t Value, key: &str) -> Option<&'t Value>
    ensures { option_map (λ v. view v.now) result ≡ option_and_then (get_member key.now) (as_table (view value.now)) }
{
    match value.as_table() {
        Some(table) => look(table, key),
        None => None,
    }
}

/// What stands at a rule in `rules`.
pub(crate) fn value_of_rule<'t>(table: &'t Table, rule: &str) -> Option<&'t Value>
    ensures { option_map (λ v. view v.now) result ≡ value_of_rule rule.now (table_view table.now) }
{
    match look(table, "rules") {
        Some(rules) => look_in(rules, rule),
        None => None,
    }
}

/// What the table of a rule has at a key.
pub(crate) fn value_in_rule<'t>(table: &'t Table, rule: RuleName, key: &str) -> Option<&'t Value>
    ensures { option_map (λ v. view v.now) result ≡ value_in_rule rule key.now (table_view table.now) }
{
    match value_of_rule(table, rule.as_str()) {
        Some(value) => look_in(value, key),
        None => None,
    }
}
