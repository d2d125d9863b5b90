//! Whole scripts (ECMA-262 15.1).
#![tactic(auto, using(parser_tables::proofs::Refusals::refusals))]

ghost use Rattle.std.specs.Prelude.{◌≡◌, ◌≤◌, length, IfErr, IfOk};
ghost use Rattle.std.specs.Str.{IsUtf8};
ghost use Rattle.language.specs.Claims.{short_bytes};
ghost use Rattle.unambiguity_laws.specs.Laws.{InOrder};
ghost use Rattle.token_cursor.specs.Refusals.{IsRefusal};
ghost use Rattle.recursive_descent.specs.Limits.{WithinLimitsIn};
ghost use Rattle.parser.specs.Scripts.{IsAnswered, IsAnsweredAsBefore};

use language::Language;
use language::limits::SHORT_BYTES;
use recursive_descent::{Script, read};
use source_text::{Fault, Source};
use std::alloc::Global;
use tree::{Pair, Program, TextArena};

/// A script or module with its grouping pairs.
#[derive(Drop)]
pub struct Parsed<'s> {
    program: Program<'s>,
    pairs: Vec<Pair>,
}

impl<'s> Parsed<'s> {
    /// The tree.
    pub fn program(&self) -> &Program<'s>
        ensures { result.now ≡ self.now.program }
    {
        &self.program
    }

    /// The pairs of parentheses that group, in order of their `(`.
    pub fn grouping_pairs(&self) -> &[Pair]
        ensures { result.now ≡ self.now.pairs.items }
    {
        &self.pairs
    }
}

/// The script or module that a text is in a language. In the base profile: what was a script by the 11th edition of ECMA-262 still is the same one, with the same pairs: separators in numbers
/// and logical assignments, of the 12th, change no other text. Texts of the script that are no slice of the source stay in `texts`.
///
/// # Errors
/// `Syntax` with a place, a byte offset, where no derivation exists; `TooDeep` where none exists within the limits (a height
/// of `MAX_HEIGHT`, and `MAX_OPEN` parentheses that are open at one point and group or hold an arrow's parameters), and only
/// for a text of `SHORT_BYTES` bytes or more: a shorter one that isn't within the limits is no script; `OutOfMemory`.
pub fn parse<'s>(
    alloc: Global,
    texts: &'s TextArena,
    source: &Source<'s>,
    language: Language,
) -> Result<Parsed<'s>, Fault>
    ensures source { IfOk result (λ _. IsUtf8 source.now × (length source.now ≤ 16777216)) }
    ensures derived { IfOk result (λ parsed. WithinLimitsIn language source.now parsed.program parsed.pairs.items) }
    ensures complete { IsAnswered language source.now result }
    ensures earlier { language ≡ Language.Base → IsAnsweredAsBefore source.now result }
    ensures ordered { IfOk result (λ parsed. InOrder parsed.pairs.items) }
    ensures long { IfErr result (λ fault. fault ≡ Fault.TooDeep → short_bytes ≤ length source.now) }
    ensures refused { IfErr result (IsRefusal (record { bytes = source.now; language = language })) }
{
    let text = source.text();
    match read(alloc, texts, source, language) {
        Ok(Script { program, pairs }) => Ok(Parsed { program, pairs }),
        Err(Fault::TooDeep) if text.len() < SHORT_BYTES => Err(Fault::Syntax(0)),
        Err(fault) => Err(fault),
    }
}
