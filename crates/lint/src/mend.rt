//! Mending a script: rounds of the safe changes of what its rules report. One procedure, by stages: `mend_unless_clean` goes from round to
//! round, `next_text` finds what is reported, `changed_text` makes the text of a round, and `is_mended_script` reads that again and compares.

ghost use Rattle.std.specs.Prelude.{◌≡◌, ◌≤◌, true, length, IfErr, IfOk, IfSome, string_bytes};
ghost use Rattle.rules.specs.Run.{found_with};
ghost use Rattle.lint.specs.ReadScripts.{HasReading, IsReading, RefusesReading};
ghost use Rattle.lint.specs.Unwraps.{made_text};
ghost use Rattle.lint.specs.Mendings.{Mended, MendsOnce, MendsTo};

use crate::check_command::reports;
use crate::script_reader::read_script;
use crate::unwrap::made_or_own;
use language::Language;
use mending::{MendRule, Round, is_mended, round_of};
use parser::Parsed;
use rules::{Report, Rule, RuleName, Settings};
use source_text::{Fault, Source};
use std::alloc::{AllocError, Global};
use tree::{Pair, Program, TextArena};

/// How many rounds there are at most.
const ROUNDS: u8 = 10;

/// A script and what is reported of it.
#[derive(Clone, Copy)]
struct Reported<'o, 's> {
    source: &'o Source<'s>,
    program: &'o Program<'s>,
    pairs: &'o [Pair],
    language: Language,
    reports: &'o [Report],
}

/// Whether the bytes of a round are a script of the same language, whose tree and text are the same but for changes of what is reported.
///
/// # Errors
///
/// Memory is refused.
fn is_mended_script(
    alloc: Global,
    round: &Round,
    script: Reported<'_, '_>,
) -> Result<bool, AllocError>
    ensures { IfOk result (λ is. is ≡ true → MendsTo script.entry.language script.entry.reports.now script.entry.source.now script.entry.program.now round.now.bytes.items) }
{
    let Ok(next) = Source::new(&round.bytes) else {
        return Ok(false);
    };
    let texts = TextArena::new(alloc);
    let again = match read_script(alloc, &texts, &next, script.language) {
        Ok(again) => again,
        Err(Fault::OutOfMemory) => return Err(AllocError),
        Err(_) => return Ok(false),
    };
    is_mended(
        alloc,
        script.reports,
        round,
        script.source,
        script.program,
        script.pairs,
        &next,
        again.program(),
        again.grouping_pairs(),
    )
}

/// The text of a round, if it is a script that is the same but for changes of what is reported; None where it isn't.
///
/// # Errors
///
/// Memory is refused.
fn checked_text(
    alloc: Global,
    round: Round,
    script: Reported<'_, '_>,
) -> Result<Option<String>, AllocError>
    ensures { IfOk result (λ made. IfSome made (λ text. MendsTo script.entry.language script.entry.reports.now script.entry.source.now script.entry.program.now (string_bytes text))) }
{
    if !is_mended_script(alloc, &round, script)? {
        return Ok(None);
    }
    match String::from_utf8(round.bytes) {
        Ok(text) => Ok(Some(text)),
        Err(_) => Ok(None),
    }
}

/// The text of a script with the changes of one rule; None where there are none, or what was made doesn't compare.
///
/// # Errors
///
/// Memory is refused.
fn changed_by(
    alloc: Global,
    rule: MendRule,
    script: Reported<'_, '_>,
) -> Result<Option<String>, AllocError>
    ensures { IfOk result (λ made. IfSome made (λ text. MendsTo script.entry.language script.entry.reports.now script.entry.source.now script.entry.program.now (string_bytes text))) }
{
    let round = round_of(
        alloc,
        script.source,
        script.program,
        script.reports,
        Some(rule),
    )?;
    match round {
        Some(round) => checked_text(alloc, round, script),
        None => Ok(None),
    }
}

/// The text of a script with the changes of the first rule that has some which compare; None where no rule has.
///
/// # Errors
///
/// Memory is refused.
fn changed_by_one(alloc: Global, script: Reported<'_, '_>) -> Result<Option<String>, AllocError>
    ensures { IfOk result (λ made. IfSome made (λ text. MendsTo script.entry.language script.entry.reports.now script.entry.source.now script.entry.program.now (string_bytes text))) }
{
    for rule in MendRule::ALL {
        if let Some(text) = changed_by(alloc, rule, script)? {
            return Ok(Some(text));
        }
    }
    Ok(None)
}

/// The text of a script with all changes; where what was made doesn't compare, with those of one rule. None where there are none.
///
/// # Errors
///
/// Memory is refused.
fn changed_text(alloc: Global, script: Reported<'_, '_>) -> Result<Option<String>, AllocError>
    ensures { IfOk result (λ made. IfSome made (λ text. MendsTo script.entry.language script.entry.reports.now script.entry.source.now script.entry.program.now (string_bytes text))) }
{
    let round = round_of(alloc, script.source, script.program, script.reports, None)?;
    let Some(round) = round else {
        return Ok(None);
    };
    match checked_text(alloc, round, script)? {
        Some(text) => Ok(Some(text)),
        None => changed_by_one(alloc, script),
    }
}

/// The text of a script after one round; None where nothing changes.
///
/// # Errors
///
/// Memory is refused.
fn next_text(
    alloc: Global,
    names: &[RuleName],
    rules: &[Box<dyn Rule>],
    settings: &Settings,
    language: Language,
    source: &Source<'_>,
    parsed: &Parsed<'_>,
) -> Result<Option<String>, AllocError>
    requires reading { IsReading language source.now parsed.now.program parsed.now.pairs.items }
    requires small { length source.now ≤ 16777216 }
    ensures { IfOk result (λ made. IfSome made (λ next. MendsOnce (found_with (λ b. called b) (λ b. finds b) names.now rules.now) language settings.now source.now (string_bytes next))) }
{
    let reports = reports(alloc, names, rules, source, parsed, settings)?;
    let script = Reported {
        source,
        program: parsed.program(),
        pairs: parsed.grouping_pairs(),
        language,
        reports: &reports,
    };
    changed_text(alloc, script)
}

/// The text after one round over the text of an earlier one; None where nothing changes.
///
/// # Errors
///
/// Memory is refused.
fn text_after(
    alloc: Global,
    names: &[RuleName],
    rules: &[Box<dyn Rule>],
    settings: &Settings,
    language: Language,
    text: &str,
) -> Result<Option<String>, AllocError>
    ensures { IfOk result (λ made. IfSome made (λ next. MendsOnce (found_with (λ b. called b) (λ b. finds b) names.now rules.now) language settings.now text.now (string_bytes next))) }
{
    let Ok(source) = Source::new(text.as_bytes()) else {
        return Ok(None);
    };
    let texts = TextArena::new(alloc);
    match read_script(alloc, &texts, &source, language) {
        Ok(parsed) => next_text(alloc, names, rules, settings, language, &source, &parsed),
        Err(Fault::OutOfMemory) => Err(AllocError),
        Err(_) => Ok(None),
    }
}

/// The text after at most so many rounds over the text of an earlier one.
///
/// # Errors
///
/// Memory is refused.
fn last_text(
    alloc: Global,
    names: &[RuleName],
    rules: &[Box<dyn Rule>],
    settings: &Settings,
    language: Language,
    text: String,
    rounds: u8,
) -> Result<String, AllocError>
    ensures { IfOk result (λ last. HasReading language (string_bytes text) → Mended (found_with (λ b. called b) (λ b. finds b) names.now rules.now) language settings.now (string_bytes text) (string_bytes last)) }
{
    if rounds == 0 {
        return Ok(text);
    }
    match text_after(alloc, names, rules, settings, language, text.as_str())? {
        Some(next) => last_text(alloc, names, rules, settings, language, next, rounds - 1),
        None => Ok(text),
    }
}

/// The text of a script with the safe changes of what is reported of it. None where nothing changes: its own text is the answer then.
///
/// # Errors
///
/// Memory is refused.
pub(crate) fn mend_unless_clean(
    alloc: Global,
    names: &[RuleName],
    rules: &[Box<dyn Rule>],
    settings: &Settings,
    language: Language,
    source: &Source<'_>,
    parsed: &Parsed<'_>,
) -> Result<Option<String>, AllocError>
    requires reading { IsReading language source.now parsed.now.program parsed.now.pairs.items }
    requires small { length source.now ≤ 16777216 }
    ensures { IfOk result (λ made. Mended (found_with (λ b. called b) (λ b. finds b) names.now rules.now) language settings.now source.now (made_text source.now made)) }
{
    let Some(next) = next_text(alloc, names, rules, settings, language, source, parsed)? else {
        return Ok(None);
    };
    let text = last_text(alloc, names, rules, settings, language, next, ROUNDS - 1)?;
    Ok(Some(text))
}

/// The text of a script, or a module, of a language with the safe changes of what rules report of it under settings. Of these rules only those
/// change it that have a change (`MendRule`). It goes in rounds: what is reported of the text is changed, and what was made is read again before
/// it is taken, and compared: it has the same tree but for such changes, the same text but for edits that don't touch each other, and the same
/// comments. Where it doesn't compare, those changes are left out. After ten rounds, or where nothing changes, the text is answered.
///
/// # Errors
///
/// What `read_script` answers of a text that is no script; `OutOfMemory`.
pub fn mend_text(
    alloc: Global,
    names: &[RuleName],
    rules: &[Box<dyn Rule>],
    settings: &Settings,
    language: Language,
    source: &Source<'_>,
) -> Result<String, Fault>
    ensures mended { IfOk result (λ text. Mended (found_with (λ b. called b) (λ b. finds b) names.now rules.now) language settings.now source.now (string_bytes text)) }
    ensures refused { IfErr result (RefusesReading language source.now) }
{
    let texts = TextArena::new(alloc);
    read_and_mend(alloc, names, rules, settings, language, &texts, source)
}

/// The text with the changes; texts of the script that are no slice of its source stay in `texts`.
fn read_and_mend(
    alloc: Global,
    names: &[RuleName],
    rules: &[Box<dyn Rule>],
    settings: &Settings,
    language: Language,
    texts: &TextArena,
    source: &Source<'_>,
) -> Result<String, Fault>
    ensures mended { IfOk result (λ text. Mended (found_with (λ b. called b) (λ b. finds b) names.now rules.now) language settings.now source.now (string_bytes text)) }
    ensures refused { IfErr result (RefusesReading language source.now) }
{
    let parsed = match read_script(alloc, texts, source, language) {
        Ok(parsed) => parsed,
        Err(fault) => return Err(fault),
    };
    let made = match mend_unless_clean(alloc, names, rules, settings, language, source, &parsed) {
        Ok(made) => made,
        Err(AllocError) => return Err(Fault::OutOfMemory),
    };
    match made_or_own(alloc, source, made) {
        Ok(text) => Ok(text),
        Err(AllocError) => Err(Fault::OutOfMemory),
    }
}
