//! What a command answers of a text where each language is tried.

ghost use Rattle.std.specs.Prelude.{◌≡◌, ◌≢◌, ◌≤◌, IfErr, IfOk, None, false, length};
ghost use Rattle.std.specs.Str.{IsUtf8};
ghost use Rattle.source_text.specs.declared.fault.Fault.TheVariants.{Usage};
ghost use Rattle.commands.specs.declared.command.Command.TheVariants.{Check, Mend};
ghost use Rattle.rules.specs.Run.{found_with};
ghost use Rattle.lint.specs.ReadScripts.{IsReading, IsScript};
ghost use Rattle.lint.specs.Outputs.{second_limit};
ghost use Rattle.lint.specs.Run.{IsSource};
ghost use Rattle.lint.specs.Steps.{IsWritable};
ghost use Rattle.lint.specs.AnySteps.{AnswersAny, AnswersRead, AnswersUnder};

use crate::answer::Answer;
use crate::any_language::{read_any, refused_in};
use crate::check_command::{read_settings, report};
use crate::command_answers::answer;
use crate::mend_command::mended;
use crate::same_command::same;
use commands::{Command, Refused, ReportForm};
use language::Language;
use parser::Parsed;
use rules::{Rule, RuleName};
use source_text::{Fault, Feed, Source};
use std::alloc::{AllocError, Global};
use tree::TextArena;

/// What `check` answers of a script that was read, under the settings of the second file; a language that they say doesn't count.
///
/// # Errors
///
/// `BadSettings` where the settings are too long, aren't UTF-8 or are refused; `ReadFailed` where the reader fails; `OutOfMemory`.
fn check_read<'s, S: Feed>(
    alloc: Global,
    form: ReportForm,
    names: &[RuleName],
    rules: &[Box<dyn Rule>],
    source: &Source<'_>,
    parsed: &Parsed<'_>,
    second: &mut S,
) -> Result<Answer<'s>, Refused>
    requires script { IsScript parsed.now.program parsed.now.pairs.items }
    requires utf8 { IsUtf8 source.now }
    requires ready { S.failed second.old ≡ false }
    ensures answer { (language : _) → AnswersUnder (found_with (λ b. called b) (λ b. finds b) names.now rules.now) (Check form) language source.now parsed.now.program parsed.now.pairs.items (S.left second.old) result (S.failed second.new) }
    ensures writable { IfOk result IsWritable }
    ensures told { IfErr result (λ refused. refused.fault ≢ Usage) }
{
    let settings = match read_settings(alloc, second) {
        Ok(settings) => settings,
        Err(refused) => return Err(refused),
    };
    match report(alloc, form, names, rules, source, parsed, &settings) {
        Ok(answer) => Ok(answer),
        Err(AllocError) => Err(Refused::at_no_place(Fault::OutOfMemory)),
    }
}

/// What `mend` answers of a script of a language that was read, under the settings of the second file; a language that they say doesn't count.
///
/// # Errors
///
/// Those of `check_read`.
fn mend_read<'s, S: Feed>(
    alloc: Global,
    names: &[RuleName],
    rules: &[Box<dyn Rule>],
    source: &Source<'s>,
    language: Language,
    parsed: &Parsed<'_>,
    second: &mut S,
) -> Result<Answer<'s>, Refused>
    requires reading { IsReading language source.now parsed.now.program parsed.now.pairs.items }
    requires small { length source.now ≤ 16777216 }
    requires ready { S.failed second.old ≡ false }
    ensures answer { AnswersUnder (found_with (λ b. called b) (λ b. finds b) names.now rules.now) Mend language source.now parsed.now.program parsed.now.pairs.items (S.left second.old) result (S.failed second.new) }
    ensures writable { IfOk result IsWritable }
    ensures told { IfErr result (λ refused. refused.fault ≢ Usage) }
{
    let settings = match read_settings(alloc, second) {
        Ok(settings) => settings,
        Err(refused) => return Err(refused),
    };
    match mended(alloc, names, rules, &settings, language, source, parsed) {
        Ok(answer) => Ok(answer),
        Err(AllocError) => Err(Refused::at_no_place(Fault::OutOfMemory)),
    }
}

/// What a command answers of a script of a language that was read.
fn answer_read<'s, S: Feed>(
    alloc: Global,
    command: Command,
    names: &[RuleName],
    rules: &[Box<dyn Rule>],
    source: &Source<'s>,
    language: Language,
    parsed: Parsed<'s>,
    second: &mut S,
) -> Result<Answer<'s>, Refused>
    requires reading { IsReading language source.now parsed.program parsed.pairs.items }
    requires source { IsSource source.now }
    requires ready { S.failed second.old ≡ false }
    ensures answer { AnswersRead (found_with (λ b. called b) (λ b. finds b) names.now rules.now) language command source.now parsed.entry.program parsed.entry.pairs.items (S.left second.old) result (S.failed second.new) }
    ensures writable { IfOk result IsWritable }
    ensures told { IfErr result (λ refused. refused.fault ≢ Usage) }
    ensures unread { second_limit command ≡ None → second.new ≡ second.old }
{
    match command {
        Command::Check(form) => check_read(alloc, form, names, rules, source, &parsed, second),
        Command::Mend => mend_read(alloc, names, rules, source, language, &parsed, second),
        Command::Same => same(alloc, &parsed, language, second),
        _ => match answer(alloc, command, source, parsed, language, second) {
            Ok(answer) => Ok(answer),
            Err(fault) => Err(Refused::at_no_place(fault)),
        },
    }
}

/// What a command answers for the bytes of the first file, in the first language that accepts them. `check` and `mend` read their settings behind
/// that.
pub(crate) fn answer_any<'s, S: Feed>(
    alloc: Global,
    command: Command,
    names: &[RuleName],
    rules: &[Box<dyn Rule>],
    texts: &'s TextArena,
    bytes: &'s [u8],
    second: &mut S,
) -> Result<Answer<'s>, Refused>
    requires ready { S.failed second.old ≡ false }
    ensures answer { AnswersAny (found_with (λ b. called b) (λ b. finds b) names.now rules.now) command bytes.now (S.left second.old) result (S.failed second.new) }
    ensures writable { IfOk result IsWritable }
    ensures told { IfErr result (λ refused. refused.fault ≢ Usage) }
    ensures unread { second_limit command ≡ None → second.new ≡ second.old }
{
    let source = match Source::new(bytes) {
        Ok(source) => source,
        Err(fault) => return Err(Refused::at_no_place(fault)),
    };
    match read_any(alloc, texts, &source) {
        Ok(script) => answer_read(
            alloc,
            command,
            names,
            rules,
            &source,
            script.language,
            script.parsed,
            second,
        ),
        Err(refused) => Err(refused_in(&source, refused)),
    }
}
