//! Unwrapping a script: its text without its unnecessary pairs, tokens and comments kept. One procedure, by stages: `unwrap_unless_fewest` asks
//! for the fewest pairs, `read_and_rewrite` reads the text by its tree, `rewrite_and_check` makes the new text, and `checked_text`
//! reads that again and compares.

ghost use Rattle.std.specs.Prelude.{IfErr, IfOk, ◌≡◌, ◌≤◌, true, length, string_bytes};
ghost use Rattle.unwrapping.specs.Readings.{IsRead};
ghost use Rattle.lint.specs.ReadScripts.{IsReading};
ghost use Rattle.lint.specs.Unwraps.{Unwraps, IsUnwrapped, IsUnfit, MayOutgrow, RefusesScript, RefusesUnwrapping, SpellsWith, made_text};

use crate::script_reader::read_script;
use language::Language;
use paren_planner::{TextCosts, costs_by_pairs};
use parser::{Parsed, parse};
use source_text::{Fault, MAX_BYTES, Source};
use std::alloc::{AllocError, Global};
use tree::{Pair, Program, TextArena, same_tree};
use unwrapping::{PlannedScript, TreeReading, keeps, tree_reading, unwrapped};

/// What a script's unwrapped text is compared with.
#[derive(Clone, Copy)]
struct Original<'o, 's> {
    source: &'o Source<'s>,
    reading: &'o TreeReading,
    program: &'o Program<'s>,
    pairs: &'o [Pair],
    language: Language,
    /// The fewest pairs.
    count: usize,
}

/// Whether a script has so many bytes and pairs that its unwrapped text may be longer than a source text may be.
fn may_outgrow(source: &Source<'_>, pairs: &[Pair]) -> bool
    ensures { result ≡ true → MayOutgrow source.now pairs.now }
{
    let bytes = source.bytes().len();
    bytes.saturating_mul(pairs.len().saturating_add(6)) > MAX_BYTES
}

/// Why a text that is longer than a source text may be can't be the unwrapped text.
fn too_long(source: &Source<'_>, pairs: &[Pair]) -> Fault
    ensures { IsUnfit source.now pairs.now result }
{
    match may_outgrow(source, pairs) {
        true => Fault::TooLong,
        false => Fault::UnwrapFailed,
    }
}

/// Whether bytes are a script of the same language, within the limits, with the same tree and so many pairs, which keeps the tokens and the comments.
///
/// # Errors
///
/// `TooLong` and `UnwrapFailed` where the bytes are longer than a source text may be; `OutOfMemory`.
fn is_same_script(alloc: Global, bytes: &[u8], original: Original<'_, '_>) -> Result<bool, Fault>
    requires { IsRead original.source.now original.program.now original.pairs.now original.reading.now }
    ensures spells { IfOk result (λ spells. spells ≡ true → SpellsWith original.entry.language original.entry.source.now bytes.now original.entry.program.now original.entry.pairs.now original.entry.count) }
    ensures refused { IfErr result (IsUnfit original.entry.source.now original.entry.pairs.now) }
{
    let source = match Source::new(bytes) {
        Ok(source) => source,
        Err(Fault::TooLong) => return Err(too_long(original.source, original.pairs)),
        Err(_) => return Ok(false),
    };
    let texts = TextArena::new(alloc);
    let again = match parse(alloc, &texts, &source, original.language) {
        Ok(again) => again,
        Err(Fault::OutOfMemory) => return Err(Fault::OutOfMemory),
        Err(_) => return Ok(false),
    };
    if again.grouping_pairs().len() != original.count
        || !same_tree(again.program(), original.program)
    {
        return Ok(false);
    }
    match keeps(
        alloc,
        original.source,
        original.reading,
        &source,
        again.program(),
        again.grouping_pairs(),
    ) {
        Ok(keeps) => Ok(keeps),
        Err(AllocError) => Err(Fault::OutOfMemory),
    }
}

/// The text that bytes are, if they are a script within the limits with the same tree and so many pairs, which keeps the tokens and the
/// comments.
///
/// # Errors
///
/// `UnwrapFailed` where they aren't; `TooLong` and `OutOfMemory`.
fn checked_text(alloc: Global, bytes: Vec<u8>, original: Original<'_, '_>) -> Result<String, Fault>
    requires { IsRead original.source.now original.program.now original.pairs.now original.reading.now }
    ensures spells { IfOk result (λ text. SpellsWith original.entry.language original.entry.source.now (string_bytes text) original.entry.program.now original.entry.pairs.now original.entry.count) }
    ensures refused { IfErr result (IsUnfit original.entry.source.now original.entry.pairs.now) }
{
    match is_same_script(alloc, &bytes, original) {
        Ok(true) => {}
        Ok(false) => return Err(Fault::UnwrapFailed),
        Err(fault) => return Err(fault),
    }
    match String::from_utf8(bytes) {
        Ok(text) => Ok(text),
        Err(_) => Err(Fault::UnwrapFailed),
    }
}

/// What is read of a script's text by its tree.
///
/// # Errors
///
/// `OutOfMemory`, and `UnwrapFailed` where the tree's places aren't in order.
fn read_by_tree(
    alloc: Global,
    source: &Source<'_>,
    parsed: &Parsed<'_>,
) -> Result<TreeReading, Fault>
    ensures read { IfOk result (IsRead source.now parsed.now.program parsed.now.pairs.items) }
    ensures refused { IfErr result (IsUnfit source.now parsed.now.pairs.items) }
{
    match tree_reading(alloc, source, parsed.program(), parsed.grouping_pairs()) {
        Ok(Some(reading)) => Ok(reading),
        Ok(None) => Err(Fault::UnwrapFailed),
        Err(AllocError) => Err(Fault::OutOfMemory),
    }
}

/// Makes the text of a script whose pairs are more than the fewest anew, by what was read of it, and checks what was made.
fn rewrite_and_check(
    alloc: Global,
    source: &Source<'_>,
    reading: &TreeReading,
    parsed: &Parsed<'_>,
    language: Language,
    costs: &TextCosts,
) -> Result<String, Fault>
    requires { IsRead source.now parsed.now.program parsed.now.pairs.items reading.now }
    ensures spells { IfOk result (λ text. SpellsWith language source.now (string_bytes text) parsed.now.program parsed.now.pairs.items costs.now.fewest) }
    ensures refused { IfErr result (IsUnfit source.now parsed.now.pairs.items) }
{
    let program = parsed.program();
    let pairs = parsed.grouping_pairs();
    let count = costs.fewest() as usize;
    let original = Original {
        source,
        reading,
        program,
        pairs,
        language,
        count,
    };
    let script = PlannedScript {
        source,
        reading,
        program,
        pairs,
        costs,
    };
    match unwrapped(alloc, script) {
        Ok(bytes) => checked_text(alloc, bytes, original),
        Err(AllocError) => Err(Fault::OutOfMemory),
    }
}

/// Reads the text of a script by its tree, makes it anew and checks what was made.
fn read_and_rewrite(
    alloc: Global,
    source: &Source<'_>,
    parsed: &Parsed<'_>,
    language: Language,
    costs: &TextCosts,
) -> Result<String, Fault>
    ensures spells { IfOk result (λ text. SpellsWith language source.now (string_bytes text) parsed.now.program parsed.now.pairs.items costs.now.fewest) }
    ensures refused { IfErr result (IsUnfit source.now parsed.now.pairs.items) }
{
    match read_by_tree(alloc, source, parsed) {
        Ok(reading) => rewrite_and_check(alloc, source, &reading, parsed, language, costs),
        Err(fault) => Err(fault),
    }
}

/// The text of a script as it stands, without its unnecessary pairs; comments stay. None where the script has no more pairs than the
/// fewest: its own text is the answer then.
///
/// # Errors
///
/// `OutOfMemory`, `TooLong` and `UnwrapFailed`, as `unwrap_text`.
pub(crate) fn unwrap_unless_fewest(
    alloc: Global,
    source: &Source<'_>,
    parsed: &Parsed<'_>,
    language: Language,
) -> Result<Option<String>, Fault>
    requires reading { IsReading language source.now parsed.now.program parsed.now.pairs.items }
    requires small { length source.now ≤ 16777216 }
    ensures unwrapped { IfOk result (λ made. Unwraps language source.now (made_text source.now made)) }
    ensures refused { IfErr result (RefusesScript source.now parsed.now.program parsed.now.pairs.items) }
{
    let pairs = parsed.grouping_pairs();
    let costs = match costs_by_pairs(alloc, parsed.program(), pairs) {
        Ok(costs) => costs,
        Err(AllocError) => return Err(Fault::OutOfMemory),
    };
    if pairs.len() == costs.fewest() as usize {
        return Ok(None);
    }
    match read_and_rewrite(alloc, source, parsed, language, &costs) {
        Ok(text) => Ok(Some(text)),
        Err(fault) => Err(fault),
    }
}

/// The text that was made, or the script's own where none was.
pub(crate) fn made_or_own(
    alloc: Global,
    source: &Source<'_>,
    made: Option<String>,
) -> Result<String, AllocError>
    ensures { IfOk result (λ text. string_bytes text ≡ made_text source.now made) }
{
    if let Some(text) = made {
        return Ok(text);
    }
    String::from_str(alloc, source.text())
}

/// The text of a script, or a module, of a language as it stands, without its unnecessary pairs. What is made of the text is read again before it is answered, and
/// compared: it has the same tree, and as few pairs as any text with that tree, and each token but grouping parentheses, in order, with the
/// same comments before it. Where no parenthesis goes or comes the bytes between tokens stay. A text that has no more pairs is answered as
/// it is.
///
/// # Errors
///
/// What `read_script` answers of a text that is no script; `OutOfMemory`. Of a script with more pairs than the fewest: `TooLong` where the
/// unwrapped text is longer than a source text may be, and its bytes, multiplied by its pairs and six, are more than that; and
/// `UnwrapFailed` where it doesn't compare: no such text is known.
pub fn unwrap_text(alloc: Global, source: &Source<'_>, language: Language) -> Result<String, Fault>
    ensures unwrapped { IfOk result (λ text. Unwraps language source.now (string_bytes text)) }
    ensures stable { IfOk result (λ text. IsUnwrapped language (string_bytes text)) }
    ensures refused { IfErr result (RefusesUnwrapping language source.now) }
{
    let texts = TextArena::new(alloc);
    read_and_unwrap(alloc, &texts, source, language)
}

/// The unwrapped text; texts of the script that are no slice of its source stay in `texts`.
fn read_and_unwrap(
    alloc: Global,
    texts: &TextArena,
    source: &Source<'_>,
    language: Language,
) -> Result<String, Fault>
    ensures unwrapped { IfOk result (λ text. Unwraps language source.now (string_bytes text)) }
    ensures stable { IfOk result (λ text. IsUnwrapped language (string_bytes text)) }
    ensures refused { IfErr result (RefusesUnwrapping language source.now) }
{
    let parsed = match read_script(alloc, texts, source, language) {
        Ok(parsed) => parsed,
        Err(refusal) => return Err(refusal),
    };
    let made = match unwrap_unless_fewest(alloc, source, &parsed, language) {
        Ok(made) => made,
        Err(fault) => return Err(fault),
    };
    match made_or_own(alloc, source, made) {
        Ok(text) => Ok(text),
        Err(AllocError) => Err(Fault::OutOfMemory),
    }
}
