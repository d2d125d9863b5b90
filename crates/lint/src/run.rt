//! A run of a command: read all, answer, write all.

ghost use Rattle.std.specs.Prelude.{IfErr, IfOk, ◌≡◌, ◌≢◌, None, false};
ghost use Rattle.rules.specs.Run.{found_with};
ghost use Rattle.lint.specs.Outputs.{second_limit};
ghost use Rattle.commands.specs.declared.command.Command.TheVariants.{Check, Mend};
ghost use Rattle.lint.specs.Languages.{asked_language};
ghost use Rattle.lint.specs.Run.{IsSource};
ghost use Rattle.lint.specs.Steps.{AnswersBytes, IsWritable};
ghost use Rattle.lint.specs.AnyRuns.{RunsAsked};
ghost use Rattle.lint.specs.AnySteps.{AnswersAsked};

use crate::answer::Answer;
use crate::any_answers::answer_any;
use crate::check_command::check;
use crate::command_answers::answer;
use crate::languages::asked_language;
use crate::mend_command::mend;
use crate::refusals::refused_at;
use crate::same_command::same;
use crate::script_reader::read_script;
use commands::{AskedLanguage, Command, LanguageChoice, Refused, read_up_to};
use language::Language;
use rules::{Rule, RuleName};
use source_text::{DeviceFault, Fault, Feed, MAX_BYTES, Sink, Source};
use std::alloc::Global;
use tree::TextArena;

/// What a command without settings answers of a text: it has to be a script, or a module, of the language.
fn answer_script<'s, S: Feed>(
    alloc: Global,
    command: Command,
    language: Language,
    texts: &'s TextArena,
    source: &Source<'s>,
    second: &mut S,
) -> Result<Answer<'s>, Refused>
    requires unchecked { (form : _) → command ≢ Check form }
    requires unmended { command ≢ Mend }
    requires source { IsSource source.now }
    requires ready { S.failed second.old ≡ false }
    ensures answer { (finds : _) (choice : _) → language ≡ asked_language choice → AnswersBytes finds command choice source.now (S.left second.old) result (S.failed second.new) }
    ensures writable { IfOk result IsWritable }
    ensures told { IfErr result (λ refused. refused.fault ≢ Fault.Usage) }
    ensures unread { second_limit command ≡ None → second.new ≡ second.old }
{
    let parsed = match read_script(alloc, texts, source, language) {
        Ok(parsed) => parsed,
        Err(fault) => return Err(refused_at(alloc, source, language, fault)),
    };
    match command {
        Command::Same => same(alloc, &parsed, language, second),
        _ => match answer(alloc, command, source, parsed, language, second) {
            Ok(answer) => Ok(answer),
            Err(fault) => Err(Refused::at_no_place(fault)),
        },
    }
}

/// What a command answers for the bytes of the first file, in the language that is asked for. `check` and `mend` read settings first,
/// which may say another one.
fn answer_bytes<'s, S: Feed>(
    alloc: Global,
    command: Command,
    choice: LanguageChoice,
    names: &[RuleName],
    rules: &[Box<dyn Rule>],
    texts: &'s TextArena,
    bytes: &'s [u8],
    second: &mut S,
) -> Result<Answer<'s>, Refused>
    requires ready { S.failed second.old ≡ false }
    ensures answer { AnswersBytes (found_with (λ b. called b) (λ b. finds b) names.now rules.now) command choice bytes.now (S.left second.old) result (S.failed second.new) }
    ensures writable { IfOk result IsWritable }
    ensures told { IfErr result (λ refused. refused.fault ≢ Fault.Usage) }
    ensures unread { second_limit command ≡ None → second.new ≡ second.old }
{
    let source = match Source::new(bytes) {
        Ok(source) => source,
        Err(fault) => return Err(Refused::at_no_place(fault)),
    };
    match command {
        Command::Check(form) => check(alloc, form, choice, names, rules, texts, &source, second),
        Command::Mend => mend(alloc, choice, names, rules, texts, &source, second),
        _ => answer_script(
            alloc,
            command,
            asked_language(choice),
            texts,
            &source,
            second,
        ),
    }
}

/// What a command answers for the bytes of the first file, by how its call says the language.
fn answer_asked<'s, S: Feed>(
    alloc: Global,
    command: Command,
    asked: AskedLanguage,
    names: &[RuleName],
    rules: &[Box<dyn Rule>],
    texts: &'s TextArena,
    bytes: &'s [u8],
    second: &mut S,
) -> Result<Answer<'s>, Refused>
    requires ready { S.failed second.old ≡ false }
    ensures answer { AnswersAsked (found_with (λ b. called b) (λ b. finds b) names.now rules.now) command asked bytes.now (S.left second.old) result (S.failed second.new) }
    ensures writable { IfOk result IsWritable }
    ensures told { IfErr result (λ refused. refused.fault ≢ Fault.Usage) }
    ensures unread { second_limit command ≡ None → second.new ≡ second.old }
{
    match asked {
        AskedLanguage::Said(choice) => {
            answer_bytes(alloc, command, choice, names, rules, texts, bytes, second)
        }
        AskedLanguage::Any => answer_any(alloc, command, names, rules, texts, bytes, second),
    }
}

/// Runs a command. The first file is read to its end, or to one byte past the longest text, and has to be a script, for `check` and `mend` in
/// the language that their settings leave, which are read before that, or in the first that accepts it, where the call tries each; then
/// `verify` reads its table and `same` its other script; no other
/// command has a second file. All that takes memory is done before anything is written: the
/// texts of `fix` and `cost` are made by a plan as they are written. The rules of `check` and `mend` are those that are handed in: names of rules
/// that ship with the program, and other rules in boxes. Answers the exit status: 1 where `check` has a
/// report that is no warning or `same` has two trees, else 0.
///
/// # Errors
///
/// `ReadFailed` and `WriteFailed` where a device fails; `TooLong` and `NotUtf8` where the first file holds no source text; `Syntax` and
/// `Early`, with line and column, and `TooDeep` where it is no script; `BadSettings`, with line and column where the settings aren't UTF-8 or no TOML, and
/// `BadTable` where the second file is refused, and, of the second script, what a first one is refused for;
/// `TooLong` also where the text that `unwrap` or `format` would write is longer than a source text may be, and `UnwrapFailed` and
/// `FormatFailed` where it isn't the same script with the fewest pairs, or with its own, of which none is known; `OutOfMemory`. The first of these is answered, but at once that memory was
/// refused while `check` or `mend` reads its settings. Nothing is written but where the writer fails: then a beginning of the output.
pub fn run<R: Feed, S: Feed, W: Sink>(
    alloc: Global,
    command: Command,
    asked: AskedLanguage,
    names: &[RuleName],
    rules: &[Box<dyn Rule>],
    file: &mut R,
    second: &mut S,
    writer: &mut W,
) -> Result<u8, Refused>
    requires reads { R.failed file.old ≡ false }
    requires reads_second { S.failed second.old ≡ false }
    requires writes { W.failed writer.old ≡ false }
    ensures told { IfErr result (λ refused. refused.fault ≢ Fault.Usage) }
    ensures unread { second_limit command ≡ None → second.new ≡ second.old }
    ensures answer { RunsAsked (found_with (λ b. called b) (λ b. finds b) names.now rules.now) command asked (record {
      given = R.left file.old;
      second = S.left second.old;
      before = W.taken writer.old;
      after = W.taken writer.new;
      reader_failed = R.failed file.new;
      second_failed = S.failed second.new;
      writer_failed = W.failed writer.new;
    }) result }
{
    let bytes = match read_up_to(alloc, file, MAX_BYTES) {
        Ok(bytes) => bytes,
        Err(fault) => return Err(Refused::at_no_place(fault)),
    };
    let texts = TextArena::new(alloc);
    let answer = match answer_asked(alloc, command, asked, names, rules, &texts, &bytes, second) {
        Ok(answer) => answer,
        Err(refused) => return Err(refused),
    };
    match answer.write(writer) {
        Ok(()) => Ok(answer.status()),
        Err(DeviceFault) => Err(Refused::at_no_place(Fault::WriteFailed)),
    }
}
