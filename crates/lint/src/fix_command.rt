//! Fixing a script: the same tree, in one layout, with pairs only where the grammar wants them.

ghost use Rattle.std.specs.Prelude.{IfErr, IfOk, ◌≡◌, false, string_bytes};
ghost use Rattle.source_text.specs.Writing.{WritesText};
ghost use Rattle.language.specs.Layout.{fixed_text};
ghost use Rattle.paren_planner.specs.Plans.{AreWraps};
ghost use Rattle.lint.specs.Fixes.{Fixes, FixesEach, IsStable};
ghost use Rattle.lint.specs.ReadScripts.{IsScript, RefusesReading};

use crate::script_reader::read_script;
use language::Language;
use paren_planner::wraps_by_pairs;
use parser::Parsed;
use printer::{print, print_text};
use source_text::{DeviceFault, Fault, Sink, Source};
use std::alloc::{AllocError, Global};
use tree::TextArena;
use wrap_flags::Wraps;

/// The fixed text of a script: its tree in one layout, with parentheses just round the nodes that want them.
///
/// # Errors
/// `AllocError` where memory is refused, and nothing else.
pub fn fix(alloc: Global, parsed: &Parsed<'_>) -> Result<String, AllocError>
    requires script { IsScript parsed.now.program parsed.now.pairs.items }
    ensures laid { IfOk result (λ text. string_bytes text ≡ fixed_text parsed.now.program) }
    ensures fixed { IfOk result (λ text. (language : _) → FixesEach language parsed.now.program parsed.now.pairs.items (string_bytes text)) }
{
    let program = parsed.program();
    let wraps = wraps_by_pairs(alloc, program, parsed.grouping_pairs())?;
    let text = print_text(alloc, program, &wraps)?;
    Ok(text)
}

/// Writes the fixed text of a script as it makes it, by which of its nodes are wrapped. No memory; what was written is always a beginning of
/// it.
///
/// # Errors
///
/// A `DeviceFault` where the writer fails; it is not asked again.
pub(crate) fn write_fixed<W: Sink>(
    parsed: &Parsed<'_>,
    wraps: &Wraps,
    writer: &mut W,
) -> Result<(), DeviceFault>
    requires script { IsScript parsed.now.program parsed.now.pairs.items }
    requires wraps { AreWraps parsed.now.program wraps.now.flags.items }
    requires ready { W.failed writer.old ≡ false }
    ensures { WritesText (fixed_text parsed.now.program) result (W.taken writer.old) (W.taken writer.new) (W.failed writer.new) }
{
    match print(parsed.program(), wraps, writer) {
        Ok(()) => Ok(()),
        Err(_) => Err(DeviceFault),
    }
}

/// The fixed text of a text that is a script, or a module, in a language.
///
/// # Errors
/// `Syntax` with a place, a byte offset, where the text is no script; `TooDeep` where it is none within the limits of
/// `language::limits` (the height, and the parentheses open at one point that group or hold an arrow's parameters); `Early` with
/// the number and the place of the first early error; `OutOfMemory`.
pub fn fix_text(alloc: Global, source: &Source<'_>, language: Language) -> Result<String, Fault>
    ensures fixed { IfOk result (λ text. Fixes language source.now (string_bytes text)) }
    ensures stable { IfOk result (λ text. IsStable language (string_bytes text)) }
    ensures refused { IfErr result (RefusesReading language source.now) }
{
    let texts = TextArena::new(alloc);
    read_and_fix(alloc, &texts, source, language)
}

/// The fixed text; texts of the script that are no slice of its source stay in `texts`.
fn read_and_fix(
    alloc: Global,
    texts: &TextArena,
    source: &Source<'_>,
    language: Language,
) -> Result<String, Fault>
    ensures fixed { IfOk result (λ text. Fixes language source.now (string_bytes text)) }
    ensures stable { IfOk result (λ text. IsStable language (string_bytes text)) }
    ensures refused { IfErr result (RefusesReading language source.now) }
{
    let parsed = read_script(alloc, texts, source, language)?;
    let text = fix(alloc, &parsed)?;
    Ok(text)
}
