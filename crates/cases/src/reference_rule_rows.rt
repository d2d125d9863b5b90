//! Rules on names, one by one.

use crate::case::Case;
use reference_rules::{Profile, REFERENCE_RULES, ReferenceRule, push_found};
use scopes::resolve;
use std::alloc::{AllocError, Global};
use tree::Program;

/// The rules of a name: one, or none.
fn named(alloc: Global, name: &str) -> Result<Vec<ReferenceRule>, AllocError> {
    let mut rules = Vec::new(alloc);
    for rule in REFERENCE_RULES {
        if rule.name() == name {
            rules.push(rule)?;
        }
    }
    Ok(rules)
}

/// Where each report of a script by the rule of the row's last text begins, and what it says.
pub(crate) fn push_name_rule(
    alloc: Global,
    row: &Case,
    program: &Program,
    out: &mut String,
) -> Result<(), AllocError> {
    let rules = named(alloc, row.text(2))?;
    let language = program.root().text();
    let profile = Profile {
        is_2022: language != "",
        is_module: language == "module",
    };
    let found = resolve(alloc, program)?;
    let mut reports = Vec::new(alloc);
    push_found(alloc, profile, &rules, &found, &mut reports)?;
    for report in &reports {
        write!(out, "{} {}; ", report.start(), report.text())?;
    }
    Ok(())
}
