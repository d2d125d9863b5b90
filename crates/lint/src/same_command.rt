//! The command `same`: whether a second script has the tree of the first.

ghost use Rattle.std.specs.Prelude.{◌≡◌, ◌≢◌, false, IfErr, IfOk};
ghost use Rattle.source_text.specs.declared.fault.Fault.TheVariants.{Usage};
ghost use Rattle.lint.specs.ReadScripts.{IsReading};
ghost use Rattle.lint.specs.Outputs.{Compares};
ghost use Rattle.lint.specs.Run.{IsSource};
ghost use Rattle.lint.specs.Steps.{AnswersSame, IsWritable, RefusesOther};

use crate::answer::Answer;
use crate::refusals::{of_second, refused_at};
use crate::script_reader::read_script;
use commands::{Refused, read_up_to};
use language::Language;
use parser::Parsed;
use source_text::{Feed, MAX_BYTES, Source};
use std::alloc::Global;
use tree::{Program, TextArena, same_tree};

/// The script that the bytes of the second file are, in the language of the first.
///
/// # Errors
///
/// Those of `Source::new` and of `read_script`, each as a refusal of the second script; `OutOfMemory`.
fn read_other<'b>(
    alloc: Global,
    texts: &'b TextArena,
    bytes: &'b [u8],
    language: Language,
) -> Result<Parsed<'b>, Refused>
    ensures source { IfOk result (λ _. IsSource bytes.now) }
    ensures reading { IfOk result (λ other. IsReading language bytes.now other.program other.pairs.items) }
    ensures refused { IfErr result (RefusesOther language bytes.now) }
{
    let source = match Source::new(bytes) {
        Ok(source) => source,
        Err(fault) => return Err(of_second(Refused::at_no_place(fault))),
    };
    match read_script(alloc, texts, &source, language) {
        Ok(other) => Ok(other),
        Err(fault) => Err(of_second(refused_at(alloc, &source, language, fault))),
    }
}

/// The status for a tree and the bytes of a second script: 0 where that has the same tree, places aside, else 1.
///
/// # Errors
///
/// Those of `read_other`.
fn compare(
    alloc: Global,
    program: &Program<'_>,
    bytes: &[u8],
    language: Language,
) -> Result<u8, Refused>
    ensures status { IfOk result (Compares language program.now bytes.now) }
    ensures refused { IfErr result (RefusesOther language bytes.now) }
{
    let texts = TextArena::new(alloc);
    let other = match read_other(alloc, &texts, bytes, language) {
        Ok(other) => other,
        Err(refused) => return Err(refused),
    };
    if same_tree(other.program(), program) {
        return Ok(0);
    }
    Ok(1)
}

/// What `same` answers: nothing, with the status of the comparison. The second file is read to its end, or to one byte past the longest
/// text.
///
/// # Errors
///
/// `ReadFailed` where the reader fails; what refuses the text of the second file, as that of the second script; `OutOfMemory`.
pub(crate) fn same<'s, S: Feed>(
    alloc: Global,
    parsed: &Parsed<'_>,
    language: Language,
    second: &mut S,
) -> Result<Answer<'s>, Refused>
    requires ready { S.failed second.old ≡ false }
    ensures answer { AnswersSame language parsed.now.program (S.left second.old) result (S.failed second.new) }
    ensures writable { IfOk result IsWritable }
    ensures told { IfErr result (λ refused. refused.fault ≢ Usage) }
{
    let bytes = match read_up_to(alloc, second, MAX_BYTES) {
        Ok(bytes) => bytes,
        Err(fault) => return Err(Refused::at_no_place(fault)),
    };
    match compare(alloc, parsed.program(), &bytes, language) {
        Ok(status) => Ok(Answer::Text(String::new(alloc), status)),
        Err(refused) => Err(refused),
    }
}
