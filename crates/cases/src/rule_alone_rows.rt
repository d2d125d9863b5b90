//! Rules that look at a tree and its text, one by one.

use crate::case::Case;
use rule_words::Report;
use rules::{RULES, Rule, RuleName, Settings, ShippedRule, View};
use std::alloc::{AllocError, Global};
use tree::Program;

/// The rule of a name.
fn named(name: &str) -> Option<RuleName> {
    for rule in RULES {
        if rule.as_str() == name {
            return Some(rule);
        }
    }
    None
}

/// What the rule of a name finds in a script, in the order of the places; nothing if there is no rule of the name.
fn found(alloc: Global, name: &str, view: &View) -> Result<Vec<Report>, AllocError> {
    let mut reports = Vec::new(alloc);
    if let Some(rule) = named(name) {
        ShippedRule::new(alloc, rule).check(view, &mut reports)?;
    }
    reports.sort_by(|one, other| one.compare(other))?;
    Ok(reports)
}

/// Where each report of a script by the rule of the row's last text begins, and what it says.
pub(crate) fn push_rule_alone(
    alloc: Global,
    row: &Case,
    program: &Program,
    out: &mut String,
) -> Result<(), AllocError> {
    let Ok(settings) = Settings::from_toml(alloc, "") else {
        return Err(AllocError);
    };
    let view = View::new(program, row.text(1), None, &[], &settings);
    for report in &found(alloc, row.text(2), &view)? {
        write!(out, "{} {}; ", report.start(), report.text())?;
    }
    Ok(())
}
