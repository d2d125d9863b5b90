//! Suppressions that turn no report off.

ghost use Rattle.std.specs.Prelude.{◌≡◌, ◌++◌, [], ◌∷◌, ℕ, List, Option, IfOk, OnOk, string_bytes};
ghost use Rattle.std.specs.Option.{option_map};
ghost use Rattle.suppressions.specs.Left.{AreUsed, said_of, unused_from, unused_if, unused_report};

use crate::suppression::Suppression;
use rule_words::{Report, push_report, quoted};
use std::alloc::{AllocError, Global};
use tree::Span;

/// What is said of it.
fn said_of(alloc: Global, rule: Option<&str>) -> Result<String, AllocError>
    ensures { IfOk result (λ said. string_bytes said ≡ said_of (option_map (λ name. name.now) rule.entry)) }
{
    match rule {
        None => String::from_str(alloc, "there is no report to turn off"),
        Some(rule) => quoted(alloc, rule, "has no report to turn off"),
    }
}

/// A flag for each of so many suppressions: all are unused.
fn none_used(alloc: Global, count: usize) -> Result<Vec<bool>, AllocError>
    ensures { IfOk result (λ used. AreUsed count [] used.items) }
{
    let mut used = Vec::new(alloc);
    'flags: while used.len() < count {
        used.push(false)?;
    }
    Ok(used)
}

/// Sets the flag of the suppression that turns a report off, if one does.
fn mark(used: &mut Vec<bool>, off: Option<usize>)
    ensures { (count : ℕ) (offs : List (Option ℕ)) → AreUsed count offs used.old.items → AreUsed count (offs ++ off ∷ []) used.new.items }
{
    let Some(index) = off else {
        return;
    };
    if index < used.len() {
        used[index] = true;
    }
}

/// Which of so many suppressions turn a report off.
fn used_by(alloc: Global, count: usize, offs: &[Option<usize>]) -> Result<Vec<bool>, AllocError>
    ensures { IfOk result (λ used. AreUsed count offs.now used.items) }
{
    let mut used = none_used(alloc, count)?;
    for off in offs {
        mark(&mut used, *off);
    }
    Ok(used)
}

/// Appends a report of a suppression.
fn push_unused(
    alloc: Global,
    suppression: &Suppression<'_>,
    out: &mut Vec<Report>,
) -> Result<(), AllocError>
    ensures { OnOk result (out.new.items ≡ out.old.items ++ unused_report suppression.now ∷ []) }
{
    let comment = suppression.comment();
    let said = said_of(alloc, suppression.rule())?;
    push_report(alloc, "unused-suppression", comment, said, out)?;
    Ok(())
}

/// Appends a report of a suppression, if it turns off and isn't used.
fn push_if_unused(
    alloc: Global,
    suppression: &Suppression<'_>,
    is_used: bool,
    out: &mut Vec<Report>,
) -> Result<(), AllocError>
    ensures { OnOk result (out.new.items ≡ out.old.items ++ unused_if is_used suppression.now) }
{
    if suppression.turns_off() && !is_used {
        push_unused(alloc, suppression, out)?;
    }
    Ok(())
}

/// Appends a report of each suppression that turns off and turned no report off.
pub(crate) fn push_all_unused(
    alloc: Global,
    suppressions: &[Suppression<'_>],
    offs: &[Option<usize>],
    out: &mut Vec<Report>,
) -> Result<(), AllocError>
    ensures { OnOk result (out.new.items ≡ out.old.items ++ unused_from 0 offs.now suppressions.now) }
{
    let used = used_by(alloc, suppressions.len(), offs)?;
    for index in 0..suppressions.len() {
        push_if_unused(alloc, &suppressions[index], used[index], out)?;
    }
    Ok(())
}
