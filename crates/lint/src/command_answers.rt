//! What each command answers of a script.

ghost use Rattle.std.specs.Prelude.{◌≡◌, ◌≢◌, ◌≤◌, false, length, IfOk, None, string_bytes};
ghost use Rattle.commands.specs.declared.command.Command.TheVariants.{Check, Fix, Mend, Same, Tree, Unwrap};
ghost use Rattle.lint.specs.ReadScripts.{IsReading, IsScript};
ghost use Rattle.lint.specs.Outputs.{second_limit, tree_line as tree_line_of};
ghost use Rattle.lint.specs.Steps.{Answers, AnswersAlone, IsWritable};

use crate::answer::Answer;
use crate::cost_commands::{cost, verify};
use crate::format_command::format;
use crate::unwrap::unwrap_unless_fewest;
use commands::Command;
use estree_json::tree_text;
use language::Language;
use paren_planner::wraps_by_pairs;
use parser::Parsed;
use source_text::{Fault, Feed, Source};
use std::alloc::{AllocError, Global};

/// The tree of a script as JSON, and a line feed.
fn tree_line(alloc: Global, parsed: &Parsed<'_>) -> Result<String, AllocError>
    ensures { IfOk result (λ line. string_bytes line ≡ tree_line_of parsed.now.program) }
{
    let mut line = tree_text(alloc, parsed.program())?;
    line.push('\n')?;
    Ok(line)
}

/// What `tree` answers.
fn tree<'s>(alloc: Global, parsed: &Parsed<'_>) -> Result<Answer<'s>, Fault>
    ensures answer { (language : _) (text : _) → AnswersAlone language Tree text parsed.now.program parsed.now.pairs.items result }
    ensures writable { IfOk result IsWritable }
{
    match tree_line(alloc, parsed) {
        Ok(line) => Ok(Answer::Text(line, 0)),
        Err(AllocError) => Err(Fault::OutOfMemory),
    }
}

/// What `fix` answers: the fixed text, which is made as it is written.
fn fixed<'s>(alloc: Global, source: &Source<'_>, parsed: Parsed<'s>) -> Result<Answer<'s>, Fault>
    requires script { IsScript parsed.program parsed.pairs.items }
    ensures answer { (language : _) → IsReading language source.now parsed.entry.program parsed.entry.pairs.items → AnswersAlone language Fix source.now parsed.entry.program parsed.entry.pairs.items result }
    ensures writable { IfOk result IsWritable }
{
    match wraps_by_pairs(alloc, parsed.program(), parsed.grouping_pairs()) {
        Ok(wraps) => Ok(Answer::Fixed(parsed, wraps)),
        Err(AllocError) => Err(Fault::OutOfMemory),
    }
}

/// What `unwrap` answers: the text as it stands, without its unnecessary pairs.
///
/// # Errors
///
/// `OutOfMemory`, `TooLong` and `UnwrapFailed`, as `unwrap_text`.
fn unwrapped<'s>(
    alloc: Global,
    source: &Source<'s>,
    parsed: &Parsed<'_>,
    language: Language,
) -> Result<Answer<'s>, Fault>
    requires reading { IsReading language source.now parsed.now.program parsed.now.pairs.items }
    requires small { length source.now ≤ 16777216 }
    ensures answer { AnswersAlone language Unwrap source.now parsed.now.program parsed.now.pairs.items result }
    ensures writable { IfOk result IsWritable }
{
    match unwrap_unless_fewest(alloc, source, parsed, language) {
        Ok(Some(text)) => Ok(Answer::Text(text, 0)),
        Ok(None) => Ok(Answer::Unchanged(source.text())),
        Err(fault) => Err(fault),
    }
}

/// What a command but `check`, `mend` and `same` answers of the script that a text is in a language. The second file is read by `verify` alone.
///
/// # Errors
///
/// `BadTable` where the second file is refused; `ReadFailed` where its reader fails; `TooLong` and `UnwrapFailed` of `unwrap`, as
/// `unwrap_text`; those and `FormatFailed` of `format`, as `format_text`; `OutOfMemory`.
pub(crate) fn answer<'s, S: Feed>(
    alloc: Global,
    command: Command,
    source: &Source<'s>,
    parsed: Parsed<'s>,
    language: Language,
    second: &mut S,
) -> Result<Answer<'s>, Fault>
    requires unchecked { (form : _) → command ≢ Check form }
    requires unmended { command ≢ Mend }
    requires other { command ≢ Same }
    requires reading { IsReading language source.now parsed.program parsed.pairs.items }
    requires small { length source.now ≤ 16777216 }
    requires ready { S.failed second.old ≡ false }
    ensures answer { (finds : _) → Answers finds language command source.now parsed.entry.program parsed.entry.pairs.items (S.left second.old) result (S.failed second.new) }
    ensures writable { IfOk result IsWritable }
    ensures unread { second_limit command ≡ None → second.new ≡ second.old }
{
    match command {
        Command::Tree => tree(alloc, &parsed),
        Command::Fix => fixed(alloc, source, parsed),
        Command::Unwrap => unwrapped(alloc, source, &parsed, language),
        Command::Format(choice) => format(alloc, source, &parsed, language, choice),
        Command::Cost => cost(alloc, parsed),
        Command::Verify => verify(alloc, &parsed, second),
        Command::Check(_) | Command::Mend | Command::Same => unreachable!(),
    }
}
