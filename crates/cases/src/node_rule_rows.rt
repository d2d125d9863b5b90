//! Rules on nodes, one by one.

use crate::case::Case;
use node_rules::{NODE_RULES, NodeOptions, NodeRule, push_found};
use parser::Parsed;
use std::alloc::{AllocError, Global};

/// The rules of a name: one, or none.
fn named(alloc: Global, name: &str) -> Result<Vec<NodeRule>, AllocError> {
    let mut rules = Vec::new(alloc);
    for rule in NODE_RULES {
        if rule.name() == name {
            rules.push(rule)?;
        }
    }
    Ok(rules)
}

/// Where each report of a script by the rule of the row's last text begins, and what it says.
pub(crate) fn push_node_rule(
    alloc: Global,
    row: &Case,
    parsed: &Parsed,
    out: &mut String,
) -> Result<(), AllocError> {
    let rules = named(alloc, row.text(2))?;
    let options = NodeOptions {
        allow_null: false,
        allow_comments: false,
    };
    let mut reports = Vec::new(alloc);
    let program = parsed.program();
    push_found(alloc, options, row.text(1), &rules, program, &mut reports)?;
    for report in &reports {
        write!(out, "{} {}; ", report.start(), report.text())?;
    }
    Ok(())
}
