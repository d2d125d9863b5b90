//! What stands again: labels that stood before, in sets.

ghost use Rattle.std.specs.Prelude.{◌≡◌, ◌&&◌, ◌||◌, ◌++◌, ℕ, List, [], IfOk, OnOk};
ghost use Rattle.std.specs.Str.{bytes_eq};
ghost use Rattle.name_tables.specs.Sets.{contains};
ghost use Rattle.rule_words.specs.Appends.{Grows};
ghost use Rattle.repetition_rules.specs.Rows.{report_if, reported};
ghost use Rattle.repetition_rules.specs.Seen.{Holds, IsWith, is_seen};

use crate::entry::Entry;
use crate::repetition_rule::{RepetitionRule, words};
use name_tables::{HashKey, KeyBuilder, NameSet};
use rule_words::{Report, push_fixed_report};
use std::alloc::{AllocError, Global};

/// The labels that stood before, of what is read and of what is written.
#[derive(Drop)]
struct Seen<'t> {
    read: NameSet<'t>,
    written: NameSet<'t>,
}

/// The key of sets of the labels of entries, drawn from them.
fn key_of(entries: &[Entry]) -> HashKey {
    let mut builder = KeyBuilder::new();
    for entry in entries {
        builder.add(entry.label());
    }
    builder.build()
}

/// Appends what a rule reports of what is compared in one node.
pub(crate) fn push_reported(
    alloc: Global,
    rule: RepetitionRule,
    entries: &[Entry],
    out: &mut Vec<Report>,
) -> Result<(), AllocError>
    ensures found { OnOk result (out.new.items ≡ out.old.items ++ reported rule [] entries.now) }
    ensures kept { Grows out.old.items out.new.items }
{
    let key = key_of(entries);
    let mut seen = Seen {
        read: NameSet::new(alloc, key),
        written: NameSet::new(alloc, key),
    };
    push_each(alloc, rule, entries, &mut seen, out)
}

/// The same, with sets in which no label is yet.
fn push_each<'t>(
    alloc: Global,
    rule: RepetitionRule,
    entries: &'t [Entry],
    seen: &mut Seen<'t>,
    out: &mut Vec<Report>,
) -> Result<(), AllocError>
    requires { Holds seen.now [] }
    ensures found { OnOk result (out.new.items ≡ out.old.items ++ reported rule [] entries.now) }
    ensures kept { Grows out.old.items out.new.items }
{
    for entry in entries {
        push_one(alloc, rule, entry, seen, out)?;
    }
    Ok(())
}

/// Appends a report of what stands again, and puts its label in.
fn push_one<'t>(
    alloc: Global,
    rule: RepetitionRule,
    entry: &'t Entry,
    seen: &mut Seen<'t>,
    out: &mut Vec<Report>,
) -> Result<(), AllocError>
    ensures found { OnOk result (out.new.items ≡ out.old.items ++ report_if (is_seen seen.old entry.now) rule entry.now) }
    ensures with { OnOk result (IsWith entry.now seen.old seen.new) }
    ensures kept { Grows out.old.items out.new.items }
{
    if is_again(entry, seen)? {
        return push_fixed_report(alloc, rule.name(), entry.span(), words(rule), out);
    }
    Ok(())
}

/// Whether something stands again, and puts its label in.
fn is_again<'t>(entry: &'t Entry, seen: &mut Seen<'t>) -> Result<bool, AllocError>
    ensures again { IfOk result (λ b. b ≡ is_seen seen.old entry.now) }
    ensures with { OnOk result (IsWith entry.now seen.old seen.new) }
{
    let label = entry.label();
    let is_read_again = put_in(entry.is_read(), label, &mut seen.read)?;
    let is_written_again = put_in(entry.is_written(), label, &mut seen.written)?;
    Ok(is_read_again || is_written_again)
}

/// Puts a label into a set, where it belongs there; answers whether it was in it.
fn put_in<'t>(belongs: bool, label: &'t str, labels: &mut NameSet<'t>) -> Result<bool, AllocError>
    ensures was { IfOk result (λ b. b ≡ (belongs && contains labels.old label.now)) }
    ensures after { OnOk result ((w : List ℕ) → contains labels.new w ≡ ((belongs && bytes_eq w label.now) || contains labels.old w)) }
{
    if !belongs {
        return Ok(false);
    }
    let is_new = labels.insert(label)?;
    Ok(!is_new)
}
