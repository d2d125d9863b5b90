//! What one round of mending makes of a script.

use crate::case::Case;
use mending::{is_mended, round_of};
use parser::{Parsed, parse};
use rules::{RULES, Report, Rule, Settings, ShippedRule, View};
use scopes::resolve;
use source_text::Source;
use std::alloc::{AllocError, Global};
use tree::TextArena;

/// Adds what the rule of a name reports; nothing if there is no rule of the name.
fn push_found(
    alloc: Global,
    name: &str,
    view: &View,
    reports: &mut Vec<Report>,
) -> Result<(), AllocError> {
    for rule in RULES {
        if rule.as_str() == name {
            ShippedRule::new(alloc, rule).check(view, reports)?;
        }
    }
    Ok(())
}

/// What the rules whose names stand in the row report of a script, in the order of the places.
fn found(
    alloc: Global,
    row: &Case,
    parsed: &Parsed,
    settings: &Settings,
) -> Result<Vec<Report>, AllocError> {
    let scopes = resolve(alloc, parsed.program())?;
    let view = View::new(parsed.program(), row.text(1), Some(&scopes), &[], settings);
    let mut reports = Vec::new(alloc);
    for name in row.text(2).split(' ') {
        push_found(alloc, name, &view, &mut reports)?;
    }
    reports.sort_by(|one, other| one.compare(other))?;
    Ok(reports)
}

/// One round of mending by some reports, and whether it passes the check of what it made.
fn push_round(
    alloc: Global,
    row: &Case,
    source: &Source,
    parsed: &Parsed,
    reports: &[Report],
    out: &mut String,
) -> Result<(), AllocError> {
    let program = parsed.program();
    let Some(round) = round_of(alloc, source, program, reports, None)? else {
        return out.push_str("no change");
    };
    let texts = TextArena::new(alloc);
    let Ok(next) = Source::new(&round.bytes) else {
        return out.push_str("no text");
    };
    let Ok(again) = parse(alloc, &texts, &next, row.language()) else {
        write!(out, "no script: {}", next.text())?;
        return Ok(());
    };
    let (pairs, pairs_again) = (parsed.grouping_pairs(), again.grouping_pairs());
    let program_again = again.program();
    let is = is_mended(
        alloc,
        reports,
        &round,
        source,
        program,
        pairs,
        &next,
        program_again,
        pairs_again,
    )?;
    if !is {
        out.push_str("refused: ")?;
    }
    out.push_str(next.text())
}

/// What one round of mending makes of a script, by the reports of the rules that the row names.
pub(crate) fn push_mended(
    alloc: Global,
    row: &Case,
    parsed: &Parsed,
    out: &mut String,
) -> Result<(), AllocError> {
    let Ok(source) = Source::new(row.text(1).as_bytes()) else {
        return Err(AllocError);
    };
    let Ok(settings) = Settings::from_toml(alloc, "") else {
        return Err(AllocError);
    };
    let reports = found(alloc, row, parsed, &settings)?;
    push_round(alloc, row, &source, parsed, &reports, out)
}
