//! The edits that reports ask for, and the text with them.

use crate::change::{Change, MendRule};
use crate::plan::Plan;
use crate::splice::{Edit, spliced};
use rule_words::Report;
use source_text::Source;
use std::alloc::{AllocError, Global};
use tree::{Kind, Program, Span};

/// What one round changes.
#[derive(Drop)]
pub struct Round {
    /// The bytes of the text with the edits.
    pub bytes: Vec<u8>,
    /// The edits, in order.
    pub edits: Vec<Edit>,
    /// The changes that are made, in order of their places.
    pub changes: Vec<Change>,
}

/// The rule with a change that a report is of, if it is this one or any may be.
fn rule_of(report: &Report, only: Option<MendRule>) -> Option<MendRule> {
    for rule in MendRule::ALL {
        if rule.name() == report.rule() {
            return match only {
                Some(other) if other != rule => None,
                _ => Some(rule),
            };
        }
    }
    None
}

/// The changes that reports ask for.
fn asked_changes(
    alloc: Global,
    reports: &[Report],
    only: Option<MendRule>,
) -> Result<Vec<Change>, AllocError> {
    let mut changes = Vec::new(alloc);
    for report in reports {
        if let Some(rule) = rule_of(report, only) {
            let span = Span {
                start: report.start(),
                end: report.end(),
            };
            changes.push(Change { rule, span })?;
        }
    }
    Ok(changes)
}

/// What one round changes of a script by the reports of all rules, or of one, which are in order of their places; none where it changes
/// nothing. Of two changes whose edits overlap the later one is left out.
///
/// # Errors
///
/// `AllocError` where memory is refused.
pub fn round_of(
    alloc: Global,
    source: &Source<'_>,
    program: &Program<'_>,
    reports: &[Report],
    only: Option<MendRule>,
) -> Result<Option<Round>, AllocError> {
    let asked = asked_changes(alloc, reports, only)?;
    if asked.is_empty() {
        return Ok(None);
    }
    let mut plan = Plan::new(alloc, source.bytes(), &asked);
    plan.push_node(program.root(), Kind::Program)?;
    let (edits, changes) = plan.settled()?;
    if edits.is_empty() {
        return Ok(None);
    }
    match spliced(alloc, source.bytes(), &edits)? {
        Some(bytes) => Ok(Some(Round {
            bytes,
            edits,
            changes,
        })),
        None => Ok(None),
    }
}
