//! Formatting a script: its tokens and comments in lines of a width. One procedure, by stages: `format_parsed` reads the text by its tree,
//! `lay_out_and_check` makes the new text, and `is_same_script` reads that again and compares.

ghost use Rattle.std.specs.Prelude.{IfErr, IfOk, ◌≡◌, ◌≤◌, true, length, string_bytes};
ghost use Rattle.source_text.specs.declared.fault.Fault.TheVariants.{OutOfMemory};
ghost use Rattle.unwrapping.specs.Readings.{IsRead};
ghost use Rattle.lint.specs.ReadScripts.{IsReading};
ghost use Rattle.lint.specs.Formats.{Formats, FormatsFewest, IsLaid, IsUnlaid, MayOutgrowLines, RefusesFormat, RefusesFormatting, Respells};

use crate::script_reader::read_script;
use crate::unwrap::unwrap_unless_fewest;
use formatting::{Options, items_of};
use language::Language;
use layout_items::{LayoutError, Style, lay_out};
use parser::{Parsed, parse};
use retaining::retains;
use source_text::{Fault, MAX_BYTES, Source};
use std::alloc::{AllocError, Global};
use tree::{Pair, Program, TextArena, same_tree};
use unwrapping::{TreeReading, tree_reading};

/// In which language a script is read, and how it is laid out.
#[derive(Clone, Copy)]
pub(crate) struct FormatTerms {
    pub language: Language,
    pub style: Style,
    pub options: Options,
}

/// What a script's formatted text is compared with.
#[derive(Clone, Copy)]
struct Original<'o, 's> {
    source: &'o Source<'s>,
    reading: &'o TreeReading,
    program: &'o Program<'s>,
    pairs: &'o [Pair],
}

/// Whether a text is so long that its formatted text may be longer than a source text may be.
fn may_outgrow_lines(source: &Source<'_>) -> bool
    ensures { result ≡ true → MayOutgrowLines source.now }
{
    source.bytes().len().saturating_mul(16_384) > MAX_BYTES
}

/// Why a layout that is longer than a source text may be can't be the formatted text.
fn too_long(source: &Source<'_>) -> Fault
    ensures { IsUnlaid source.now result }
{
    match may_outgrow_lines(source) {
        true => Fault::TooLong,
        false => Fault::FormatFailed,
    }
}

/// The layout of a script.
///
/// # Errors
///
/// `TooLong` where it is longer than a source text may be; `FormatFailed` where the tree's tokens aren't those of the text; `OutOfMemory`.
fn laid_out(
    alloc: Global,
    source: &Source<'_>,
    reading: &TreeReading,
    program: &Program<'_>,
    terms: FormatTerms,
) -> Result<String, Fault>
    ensures laid { IfOk result (λ text. IsLaid terms.style (string_bytes text)) }
    ensures refused { IfErr result (IsUnlaid source.now) }
{
    let style = terms.style;
    let items = match items_of(alloc, source, program, reading, style, terms.options) {
        Ok(Some(items)) => items,
        Ok(None) => return Err(Fault::FormatFailed),
        Err(AllocError) => return Err(Fault::OutOfMemory),
    };
    match lay_out(&items, style, MAX_BYTES, alloc) {
        Ok(text) => Ok(text),
        Err(LayoutError::TooLong) => Err(too_long(source)),
        Err(LayoutError::OutOfMemory) => Err(Fault::OutOfMemory),
    }
}

/// Whether a script is its own layout.
///
/// # Errors
///
/// `OutOfMemory`.
fn is_laid_out(
    alloc: Global,
    source: &Source<'_>,
    parsed: &Parsed<'_>,
    terms: FormatTerms,
) -> Result<bool, Fault>
    ensures refused { IfErr result (λ fault. fault ≡ OutOfMemory) }
{
    let program = parsed.program();
    let reading = match tree_reading(alloc, source, program, parsed.grouping_pairs()) {
        Ok(Some(reading)) => reading,
        Ok(None) => return Ok(false),
        Err(AllocError) => return Err(Fault::OutOfMemory),
    };
    match laid_out(alloc, source, &reading, program, terms) {
        Ok(text) => Ok(text.as_bytes() == source.bytes()),
        Err(Fault::OutOfMemory) => Err(Fault::OutOfMemory),
        Err(_) => Ok(false),
    }
}

/// Whether bytes are a script of the same language, within the limits, with the same tree and as many pairs, which retains the tokens and the
/// comments, and is its own layout.
///
/// # Errors
///
/// `OutOfMemory`.
fn is_same_script(
    alloc: Global,
    bytes: &[u8],
    original: Original<'_, '_>,
    terms: FormatTerms,
) -> Result<bool, Fault>
    requires { IsRead original.source.now original.program.now original.pairs.now original.reading.now }
    ensures spells { IfOk result (λ spells. spells ≡ true → Respells terms.language original.entry.source.now bytes.now original.entry.program.now original.entry.pairs.now) }
    ensures refused { IfErr result (λ fault. fault ≡ OutOfMemory) }
{
    let Ok(source) = Source::new(bytes) else {
        return Ok(false);
    };
    let texts = TextArena::new(alloc);
    let again = match parse(alloc, &texts, &source, terms.language) {
        Ok(again) => again,
        Err(Fault::OutOfMemory) => return Err(Fault::OutOfMemory),
        Err(_) => return Ok(false),
    };
    if again.grouping_pairs().len() != original.pairs.len()
        || !same_tree(again.program(), original.program)
    {
        return Ok(false);
    }
    match retains(
        alloc,
        original.source,
        original.reading,
        &source,
        again.program(),
        again.grouping_pairs(),
    ) {
        Ok(true) => is_laid_out(alloc, &source, &again, terms),
        Ok(false) => Ok(false),
        Err(AllocError) => Err(Fault::OutOfMemory),
    }
}

/// The layout of a script, if it is the same script and its own layout.
///
/// # Errors
///
/// `FormatFailed` where it isn't; those of `laid_out`.
fn lay_out_and_check(
    alloc: Global,
    original: Original<'_, '_>,
    terms: FormatTerms,
) -> Result<String, Fault>
    requires { IsRead original.source.now original.program.now original.pairs.now original.reading.now }
    ensures laid { IfOk result (λ text. IsLaid terms.style (string_bytes text)) }
    ensures spells { IfOk result (λ text. Respells terms.language original.entry.source.now (string_bytes text) original.entry.program.now original.entry.pairs.now) }
    ensures refused { IfErr result (IsUnlaid original.entry.source.now) }
{
    let text = match laid_out(
        alloc,
        original.source,
        original.reading,
        original.program,
        terms,
    ) {
        Ok(text) => text,
        Err(fault) => return Err(fault),
    };
    match is_same_script(alloc, text.as_bytes(), original, terms) {
        Ok(true) => Ok(text),
        Ok(false) => Err(Fault::FormatFailed),
        Err(_) => Err(Fault::OutOfMemory),
    }
}

/// The formatted text of a script that was read.
///
/// # Errors
///
/// `OutOfMemory`, `TooLong` and `FormatFailed`, as `format_text`.
pub(crate) fn format_parsed(
    alloc: Global,
    source: &Source<'_>,
    parsed: &Parsed<'_>,
    terms: FormatTerms,
) -> Result<String, Fault>
    requires reading { IsReading terms.language source.now parsed.now.program parsed.now.pairs.items }
    ensures formatted { IfOk result (λ text. Formats terms.language terms.style source.now (string_bytes text)) }
    ensures refused { IfErr result (IsUnlaid source.now) }
{
    let program = parsed.program();
    let pairs = parsed.grouping_pairs();
    let reading = match tree_reading(alloc, source, program, pairs) {
        Ok(Some(reading)) => reading,
        Ok(None) => return Err(Fault::FormatFailed),
        Err(AllocError) => return Err(Fault::OutOfMemory),
    };
    let original = Original {
        source,
        reading: &reading,
        program,
        pairs,
    };
    lay_out_and_check(alloc, original, terms)
}

/// The text of a script, or a module, of a language in lines of a width: its tokens, but for what the options leave to choose, each with the
/// comments before it. What is made of the text is read again before it is answered, and compared: it has the same tree, and as many grouping
/// pairs. It is formatted once more too, and must give itself.
///
/// # Errors
///
/// What `read_script` answers of a text that is no script; `OutOfMemory`; `TooLong` where the formatted text is longer than a source text may
/// be, which one of at most 1,024 bytes never is; and `FormatFailed` where what was made doesn't compare: no such text is known.
pub fn format_text(
    alloc: Global,
    source: &Source<'_>,
    language: Language,
    style: Style,
    options: Options,
) -> Result<String, Fault>
    ensures formatted { IfOk result (λ text. Formats language style source.now (string_bytes text)) }
    ensures refused { IfErr result (RefusesFormatting language source.now) }
{
    let texts = TextArena::new(alloc);
    let terms = FormatTerms {
        language,
        style,
        options,
    };
    read_and_format(alloc, &texts, source, terms)
}

/// The formatted text; texts of the script that are no slice of its source stay in `texts`.
fn read_and_format(
    alloc: Global,
    texts: &TextArena,
    source: &Source<'_>,
    terms: FormatTerms,
) -> Result<String, Fault>
    ensures formatted { IfOk result (λ text. Formats terms.language terms.style source.now (string_bytes text)) }
    ensures refused { IfErr result (RefusesFormatting terms.language source.now) }
{
    match read_script(alloc, texts, source, terms.language) {
        Ok(parsed) => format_parsed(alloc, source, &parsed, terms),
        Err(fault) => Err(fault),
    }
}

/// The formatted text of an unwrapped text.
///
/// # Errors
///
/// `OutOfMemory`, `TooLong` and `FormatFailed`, as `format_text`.
fn format_unwrapped(
    alloc: Global,
    source: &Source<'_>,
    unwrapped: &str,
    terms: FormatTerms,
) -> Result<String, Fault>
    ensures formatted { IfOk result (λ text. Formats terms.language terms.style unwrapped.now (string_bytes text)) }
    ensures refused { IfErr result (IsUnlaid source.now) }
{
    let Ok(between) = Source::new(unwrapped.as_bytes()) else {
        return Err(Fault::FormatFailed);
    };
    let texts = TextArena::new(alloc);
    match read_and_format(alloc, &texts, &between, terms) {
        Ok(text) => Ok(text),
        Err(Fault::OutOfMemory) => Err(Fault::OutOfMemory),
        Err(Fault::TooLong) => Err(too_long(source)),
        Err(_) => Err(Fault::FormatFailed),
    }
}

/// The formatted text of the unwrapped text of a script that was read.
///
/// # Errors
///
/// `OutOfMemory`, `TooLong` and `UnwrapFailed`, as `unwrap_text`; `TooLong` and `FormatFailed`, as `format_text`.
pub(crate) fn format_fewest(
    alloc: Global,
    source: &Source<'_>,
    parsed: &Parsed<'_>,
    terms: FormatTerms,
) -> Result<String, Fault>
    requires reading { IsReading terms.language source.now parsed.now.program parsed.now.pairs.items }
    requires small { length source.now ≤ 16777216 }
    ensures formatted { IfOk result (λ text. FormatsFewest terms.language terms.style source.now (string_bytes text)) }
    ensures refused { IfErr result (RefusesFormat true source.now parsed.now.program parsed.now.pairs.items) }
{
    match unwrap_unless_fewest(alloc, source, parsed, terms.language) {
        Ok(None) => format_parsed(alloc, source, parsed, terms),
        Ok(Some(text)) => format_unwrapped(alloc, source, text.as_str(), terms),
        Err(fault) => Err(fault),
    }
}
