//! The reports that suppressions leave.

ghost use Rattle.std.specs.Prelude.{◌≡◌, ◌++◌, [], drop, map, IfOk, OnOk};
ghost use Rattle.source_text.specs.Located.{IsLocated};
ghost use Rattle.suppressions.specs.Deciding.{index_if_off, is_there, key_of, turned_off};
ghost use Rattle.suppressions.specs.Left.{first_off, left_if, left_of};

use crate::decision::Decision;
use crate::directive::Reach;
use crate::lines::moved_to;
use crate::suppression::Suppression;
use crate::sweep::Sweep;
use name_tables::HashKey;
use rule_words::Report;
use source_text::{LineWalker, Source};
use std::alloc::{AllocError, Global};

/// Where a report stands: for regions its offset, for lines the number of its line.
fn key_of(reach: Reach, source: &Source<'_>, here: &mut LineWalker, report: &Report) -> usize
    requires here { IsLocated source.now here.old }
    ensures there { IsLocated source.now here.new }
    ensures value { result ≡ key_of reach source.now report.now }
{
    match reach {
        Reach::Region => report.start(),
        Reach::Line | Reach::NextLine => {
            *here = moved_to(source, *here, report.start());
            here.line as usize
        }
    }
}

/// Whether what begins at an offset or with a line is there at another.
fn is_there(reach: Reach, from: usize, key: usize) -> bool
    ensures { result ≡ is_there reach from key }
{
    match reach {
        Reach::Region => true,
        Reach::Line | Reach::NextLine => from == key,
    }
}

/// The index of what decides, if it turns off what is there.
fn index_if_off(reach: Reach, key: usize, decision: Option<Decision>) -> Option<usize>
    ensures { result ≡ index_if_off reach key decision }
{
    match decision {
        Some(decision) if decision.turns_off && is_there(reach, decision.from, key) => {
            Some(decision.index)
        }
        _ => None,
    }
}

/// Which suppression turns each report off, if one does.
pub(crate) fn turned_off<'s>(
    alloc: Global,
    hash: HashKey,
    reach: Reach,
    source: &Source<'_>,
    suppressions: &[Suppression<'s>],
    reports: &[Report],
) -> Result<Vec<Option<usize>>, AllocError>
    ensures { IfOk result (λ offs. offs.items ≡ map (turned_off reach source.now suppressions.now) reports.now) }
{
    let mut sweep = Sweep::new(alloc, hash);
    let mut here = LineWalker::first();
    let mut offs = Vec::new(alloc);
    for report in reports {
        let key = key_of(reach, source, &mut here, report);
        let decision = sweep.decided(alloc, suppressions, report.rule(), key)?;
        offs.push(index_if_off(reach, key, decision))?;
    }
    Ok(offs)
}

/// What turns the next report off, if something does, and the same of those that follow.
fn next_off(offs: &[Option<usize>]) -> (Option<usize>, &[Option<usize>])
    ensures off { result.0 ≡ first_off offs.now }
    ensures rest { result.1.now ≡ drop 1 offs.now }
{
    match offs.split_first() {
        Some((off, rest)) => (*off, rest),
        None => (None, offs),
    }
}

/// Appends a report, if nothing turns it off.
fn push_left(off: Option<usize>, report: Report, out: &mut Vec<Report>) -> Result<(), AllocError>
    ensures { OnOk result (out.new.items ≡ out.old.items ++ left_if off report []) }
{
    if off.is_none() {
        out.push(report)?;
    }
    Ok(())
}

/// The reports that nothing turns off, by what does.
pub(crate) fn left_of(
    alloc: Global,
    offs: &[Option<usize>],
    reports: Vec<Report>,
) -> Result<Vec<Report>, AllocError>
    ensures { IfOk result (λ left. left.items ≡ left_of offs.now reports.items) }
{
    let mut left = Vec::new(alloc);
    let mut ahead = offs;
    let mut rest = reports.into_iter();
    while let Some(report) = rest.next() {
        let (off, behind) = next_off(ahead);
        push_left(off, report, &mut left)?;
        ahead = behind;
    }
    Ok(left)
}
