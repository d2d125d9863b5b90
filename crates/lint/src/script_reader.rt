//! Reading a script: its tree, where no early error applies (ECMA-262 clause 16).

ghost use Rattle.std.specs.Prelude.{◌≤◌, length, IfOk, IfErr};
ghost use Rattle.early_errors.specs.Accepted.{Accepted};
ghost use Rattle.lint.specs.ReadScripts.{IsOnly, RefusesReading};

use early_errors::first_early_error;
use language::Language;
use parser::{Parsed, parse};
use source_text::{Fault, Source};
use std::alloc::Global;
use tree::TextArena;

/// The script, or module, that a text is in a language, with its grouping pairs. Texts of it that are no slice of the source stay in `texts`.
///
/// # Errors
/// `Syntax` with a place, a byte offset, where the text is no script; `TooDeep` where it is none within the limits of
/// `language::limits` (the height, and the parentheses open at one point that group or hold an arrow's parameters); `Early` with
/// the number and the place of the first early error; `OutOfMemory`.
pub fn read_script<'s>(
    alloc: Global,
    texts: &'s TextArena,
    source: &Source<'s>,
    language: Language,
) -> Result<Parsed<'s>, Fault>
    ensures short { IfOk result (λ _. length source.now ≤ 16777216) }
    ensures accepted { IfOk result (λ parsed. Accepted language source.now parsed.program parsed.pairs.items) }
    ensures only { IfOk result (λ parsed. IsOnly language source.now parsed.program parsed.pairs.items) }
    ensures refused { IfErr result (RefusesReading language source.now) }
{
    let parsed = parse(alloc, texts, source, language)?;
    match first_early_error(alloc, parsed.program())? {
        Some((number, at)) => Err(Fault::Early(number, at)),
        None => Ok(parsed),
    }
}
