//! The command `mend`: a script with the safe changes of what is reported of it under settings.

ghost use Rattle.std.specs.Prelude.{◌≡◌, ◌≢◌, ◌≤◌, false, length, IfErr, IfOk};
ghost use Rattle.source_text.specs.declared.fault.Fault.TheVariants.{Usage};
ghost use Rattle.commands.specs.declared.command.Command.TheVariants.{Mend};
ghost use Rattle.rules.specs.Run.{found_with};
ghost use Rattle.lint.specs.ReadScripts.{IsReading};
ghost use Rattle.lint.specs.Mendings.{Mended};
ghost use Rattle.lint.specs.Run.{IsSource};
ghost use Rattle.lint.specs.Steps.{AnswersBytes, IsWritable, output_of, status_of};

use crate::answer::Answer;
use crate::check_command::{Checked, read_second, refusal};
use crate::mend::mend_unless_clean;
use crate::refusals::refused_at;
use crate::script_reader::read_script;
use commands::{LanguageChoice, Refused};
use language::Language;
use parser::Parsed;
use rules::{Rule, RuleName, Settings};
use source_text::{Fault, Feed, Source};
use std::alloc::{AllocError, Global};
use tree::TextArena;

/// The answer to a script: its text with the changes, or its own.
///
/// # Errors
///
/// Memory is refused.
pub(crate) fn mended<'s>(
    alloc: Global,
    names: &[RuleName],
    rules: &[Box<dyn Rule>],
    settings: &Settings,
    language: Language,
    source: &Source<'s>,
    parsed: &Parsed<'_>,
) -> Result<Answer<'s>, AllocError>
    requires reading { IsReading language source.now parsed.now.program parsed.now.pairs.items }
    requires small { length source.now ≤ 16777216 }
    ensures mended { IfOk result (λ answer. Mended (found_with (λ b. called b) (λ b. finds b) names.now rules.now) language settings.now source.now (output_of answer)) }
    ensures status { IfOk result (λ answer. status_of answer ≡ 0) }
    ensures writable { IfOk result IsWritable }
{
    match mend_unless_clean(alloc, names, rules, settings, language, source, parsed) {
        Ok(Some(text)) => Ok(Answer::Text(text, 0)),
        Ok(None) => Ok(Answer::Unchanged(source.text())),
        Err(AllocError) => Err(AllocError),
    }
}

/// What `mend` answers: the script with the safe changes of what is reported of it under the settings of the second file, which is read to its
/// end, or to one byte past the longest text. The script is read in the language that is asked for and that the settings leave.
///
/// # Errors
///
/// Those of `check`.
pub(crate) fn mend<'s, S: Feed>(
    alloc: Global,
    choice: LanguageChoice,
    names: &[RuleName],
    rules: &[Box<dyn Rule>],
    texts: &'s TextArena,
    source: &Source<'s>,
    second: &mut S,
) -> Result<Answer<'s>, Refused>
    requires source { IsSource source.now }
    requires ready { S.failed second.old ≡ false }
    ensures answer { AnswersBytes (found_with (λ b. called b) (λ b. finds b) names.now rules.now) Mend choice source.now (S.left second.old) result (S.failed second.new) }
    ensures writable { IfOk result IsWritable }
    ensures told { IfErr result (λ refused. refused.fault ≢ Usage) }
{
    let Checked { settings, language } = match read_second(alloc, choice, second) {
        Ok(checked) => checked,
        Err(refused) => return Err(refusal(alloc, choice, texts, source, refused)),
    };
    let parsed = match read_script(alloc, texts, source, language) {
        Ok(parsed) => parsed,
        Err(fault) => return Err(refused_at(alloc, source, language, fault)),
    };
    match mended(alloc, names, rules, &settings, language, source, &parsed) {
        Ok(answer) => Ok(answer),
        Err(AllocError) => Err(Refused::at_no_place(Fault::OutOfMemory)),
    }
}
