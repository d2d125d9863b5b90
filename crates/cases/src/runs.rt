//! Runs of the commands: what stands in both files, the exit status, and what is written.

ghost use Rattle.std.specs.Prelude.{◌≡◌, ◌≢◌, IfErr, IfOk, false};
ghost use Rattle.source_text.specs.declared.fault.Fault.TheVariants.{Usage};

use crate::case::Case;
use crate::devices::{bytes_of, plan, push_answer, push_bytes};
use crate::gauge::Gauge;
use crate::reports::AnyScript;
use commands::{
    AskedLanguage, Command, FormatChoice, LanguageChoice, Refused, ReportForm, write_refusal,
};
use language::Language;
use lint::run::run;
use rules::{RULES, Rule};
use source_text::{FailurePlan, Fault, MAX_BYTES, MAX_PIECE, MemoryFeed, MemorySink, Sink};
use std::alloc::{AllocError, Global};
use std::str::from_utf8;

/// The room of a writer.
const ROOM: usize = 1_000_000;

/// `check`, with places.
const CHECK: Command = Command::Check(ReportForm::Places);

/// The command of this word: `spans` is `check --spans`.
pub(crate) fn command(word: &str) -> Command {
    match word {
        "check" => CHECK,
        "spans" => Command::Check(ReportForm::Spans),
        "tree" => Command::Tree,
        "unwrap" => Command::Unwrap,
        "mend" => Command::Mend,
        "format" => Command::Format(FormatChoice::DEFAULT),
        "cost" => Command::Cost,
        "verify" => Command::Verify,
        "same" => Command::Same,
        _ => Command::Fix,
    }
}

/// The choice of a language: a call that asks for the base profile says nothing.
fn choice(language: Language) -> LanguageChoice {
    match language {
        Language::Base => LanguageChoice::Unsaid,
        Language::Script => LanguageChoice::Edition2022,
        Language::Module => LanguageChoice::Module,
    }
}

/// How a row says the language of its texts.
pub(crate) fn asked(row: &Case) -> AskedLanguage {
    if row.is_any() {
        return AskedLanguage::Any;
    }
    AskedLanguage::Said(choice(row.language()))
}

/// A run: its command and its language, what stands in both files, the plans of their readers, and whether a rule stands behind the others.
#[derive(Clone, Copy)]
struct Run<'a> {
    command: Command,
    asked: AskedLanguage,
    file: &'a [u8],
    second: &'a [u8],
    reader: FailurePlan,
    second_reader: FailurePlan,
    /// How many bytes the writer takes.
    room: usize,
    has_tenth: bool,
}

impl<'a> Run<'a> {
    /// A run whose readers give so many bytes in a call, all of them where it isn't said.
    fn new(
        command: Command,
        asked: AskedLanguage,
        file: &'a [u8],
        second: &'a [u8],
        per_call: &str,
    ) -> Run<'a> {
        Run {
            command,
            asked,
            file,
            second,
            reader: plan(per_call),
            second_reader: plan(per_call),
            room: 65536,
            has_tenth: false,
        }
    }
}

/// What a run answers by these rules.
fn answered_by<W: Sink>(
    alloc: Global,
    rules: &[Box<dyn Rule>],
    given: Run,
    writer: &mut W,
) -> Result<u8, Refused>
    requires { W.failed writer.old ≡ false }
    ensures { IfErr result (λ refused. refused.fault ≢ Usage) }
{
    let mut file = MemoryFeed::new(given.file, given.reader);
    let mut second = MemoryFeed::new(given.second, given.second_reader);
    run(
        alloc,
        given.command,
        given.asked,
        RULES.as_slice(),
        rules,
        &mut file,
        &mut second,
        writer,
    )
}

/// What a run answers.
fn answered<W: Sink>(
    alloc: Global,
    given: Run,
    writer: &mut W,
) -> Result<Result<u8, Refused>, AllocError>
    requires { W.failed writer.old ≡ false }
    ensures { IfOk result (λ answered. IfErr answered (λ refused. refused.fault ≢ Usage)) }
{
    let mut rules: Vec<Box<dyn Rule>> = Vec::new(alloc);
    if given.has_tenth {
        rules.push(Box::new(alloc, AnyScript::new(alloc))?)?;
    }
    Ok(answered_by(alloc, rules.as_slice(), given, writer))
}

/// A row whose run was refused memory, and wrote nothing, has no answer.
fn unless_refused(answered: &Result<u8, Refused>, written: usize) -> Result<(), AllocError> {
    match answered {
        Err(refused) if refused.fault == Fault::OutOfMemory && written == 0 => Err(AllocError),
        _ => Ok(()),
    }
}

/// What a run over bytes answers, and what it writes: the command, the bytes, the plans of the reader and of the writer, what stands in
/// the second file, and the plan of its reader.
pub(crate) fn push_run(
    alloc: Global,
    row: &Case,
    bytes: &[u8],
    out: &mut String,
) -> Result<(), AllocError> {
    let given = Run {
        command: command(row.text(1)),
        asked: asked(row),
        file: bytes,
        second: row.text(5).as_bytes(),
        reader: plan(row.text(3)),
        second_reader: plan(row.text(6)),
        room: ROOM,
        has_tenth: false,
    };
    let mut writer = MemorySink::new(alloc, given.room, plan(row.text(4)))?;
    let answered = answered(alloc, given, &mut writer)?;
    unless_refused(&answered, writer.bytes().len())?;
    push_answer(&answered, writer.bytes(), out)
}

/// What a run over bytes that are no text answers, and what it writes.
pub(crate) fn push_run_bytes(
    alloc: Global,
    row: &Case,
    out: &mut String,
) -> Result<(), AllocError> {
    let bytes = bytes_of(alloc, row.text(2))?;
    push_run(alloc, row, &bytes, out)
}

/// The exit status of a refusal, and its line.
fn push_refused(alloc: Global, refused: &Refused, out: &mut String) -> Result<(), AllocError>
    requires { refused.now.fault ≢ Usage }
{
    let mut writer = MemorySink::new(alloc, 128, plan(""))?;
    let status = write_refusal(refused, &mut writer);
    write!(out, "{status} ")?;
    push_bytes(writer.bytes(), out)
}

/// The exit status of a command and what it writes to a writer that takes so many bytes a call; a refusal's line behind that.
fn push_outcome(
    alloc: Global,
    given: Run,
    per_call: &str,
    out: &mut String,
) -> Result<(), AllocError> {
    let mut writer = MemorySink::new(alloc, given.room, plan(per_call))?;
    let answered = answered(alloc, given, &mut writer)?;
    unless_refused(&answered, writer.bytes().len())?;
    match answered {
        Ok(status) => {
            write!(out, "{status} ")?;
            push_bytes(writer.bytes(), out)
        }
        Err(refused) => {
            push_bytes(writer.bytes(), out)?;
            push_refused(alloc, &refused, out)
        }
    }
}

/// The status and what is written where readers and the writer pass a byte a call, if that is another outcome.
fn push_by_bytes(alloc: Global, run: Run, out: &mut String) -> Result<(), AllocError> {
    let slow = Run {
        reader: plan("1"),
        second_reader: plan("1"),
        ..run
    };
    let mut found = String::new(alloc);
    push_outcome(alloc, slow, "1", &mut found)?;
    if found.as_str() == out.as_str() {
        return Ok(());
    }
    write!(out, " by single bytes: {}", found.as_str())
}

/// The outcome of a run, also by single bytes.
fn push_both(alloc: Global, run: Run, out: &mut String) -> Result<(), AllocError> {
    push_outcome(alloc, run, "", out)?;
    push_by_bytes(alloc, run, out)
}

/// What a command answers for a text, of any length.
pub(crate) fn push_alone(
    alloc: Global,
    command: Command,
    row: &Case,
    out: &mut String,
) -> Result<(), AllocError> {
    let file = row.text(1).as_bytes();
    let mut run = Run::new(command, asked(row), file, b"", "");
    run.room = MAX_BYTES;
    push_both(alloc, run, out)
}

/// What a command, by its word, answers for a text and the text of its second file.
pub(crate) fn push_command(alloc: Global, row: &Case, out: &mut String) -> Result<(), AllocError> {
    let (file, second) = (row.text(1).as_bytes(), row.text(2).as_bytes());
    let run = Run::new(command(row.text(0)), asked(row), file, second, "");
    push_both(alloc, run, out)
}

/// What `check` or `check --spans` answers where a rule of this program's own stands behind the others.
pub(crate) fn push_with_tenth(
    alloc: Global,
    row: &Case,
    out: &mut String,
) -> Result<(), AllocError> {
    let (file, second) = (row.text(1).as_bytes(), row.text(2).as_bytes());
    let command = match row.text(0) {
        "spans by ten" => Command::Check(ReportForm::Spans),
        _ => CHECK,
    };
    let mut run = Run::new(command, asked(row), file, second, "");
    run.has_tenth = true;
    push_both(alloc, run, out)
}

/// What `check` answers for a text and bytes of its second file that are no text.
pub(crate) fn push_second_bytes(
    alloc: Global,
    row: &Case,
    out: &mut String,
) -> Result<(), AllocError> {
    let second = bytes_of(alloc, row.text(2))?;
    let run = Run::new(CHECK, asked(row), row.text(1).as_bytes(), &second, "");
    push_both(alloc, run, out)
}

/// Whether a command writes this text, and no more, where the reader and the writer pass a byte a call.
pub(crate) fn is_written(
    alloc: Global,
    command: Command,
    row: &Case,
    text: &str,
) -> Result<bool, AllocError> {
    let file = row.text(1).as_bytes();
    let given = Run::new(command, asked(row), file, b"", "1");
    let mut writer = MemorySink::new(alloc, text.len(), plan("1"))?;
    let answered = answered(alloc, given, &mut writer)?;
    unless_refused(&answered, writer.bytes().len())?;
    Ok(answered == Ok(0u8) && writer.bytes() == text.as_bytes())
}

/// How many bytes a command writes for a text and that of its second file, and whether no piece of it has more than 4,096.
pub(crate) fn push_gauged(alloc: Global, row: &Case, out: &mut String) -> Result<(), AllocError> {
    let (file, second) = (row.text(2).as_bytes(), row.text(3).as_bytes());
    let given = Run::new(command(row.text(1)), asked(row), file, second, "");
    let mut writer = Gauge::new();
    let answered = answered(alloc, given, &mut writer)?;
    unless_refused(&answered, writer.bytes)?;
    write!(
        out,
        "{:?}",
        (answered, writer.bytes, writer.most <= MAX_PIECE)
    )
}

/// What is said of an answer of `fix` and what it wrote: `;` of a text that is fixed, `x` of a syntax error, whose place is one of the text,
/// or of one that is nested too deep, `e` of an early error, `u` of what isn't UTF-8; `?` of all else.
fn mark(answered: &Result<u8, Refused>, bytes: &[u8], written: &[u8]) -> char {
    match answered {
        Ok(0) => ';',
        Err(refused) if written.is_empty() => fault_mark(refused.fault, bytes),
        _ => '?',
    }
}

/// A mark for the fault of a text.
fn fault_mark(fault: Fault, bytes: &[u8]) -> char {
    let text = from_utf8(bytes).unwrap_or("");
    match fault {
        Fault::Syntax(at) if text.is_char_boundary(at) => 'x',
        Fault::TooDeep => 'x',
        Fault::Early(_, _) => 'e',
        Fault::NotUtf8(_) => 'u',
        _ => '?',
    }
}

/// The mark of bytes; `?` where a second run answers or writes something else.
fn mark_of(alloc: Global, asked: AskedLanguage, bytes: &[u8]) -> Result<char, AllocError> {
    let given = Run::new(Command::Fix, asked, bytes, b"", "");
    let mut writer = MemorySink::new(alloc, ROOM, plan(""))?;
    let mut second_writer = MemorySink::new(alloc, ROOM, plan(""))?;
    let first = answered(alloc, given, &mut writer)?;
    unless_refused(&first, writer.bytes().len())?;
    let second = answered(alloc, given, &mut second_writer)?;
    unless_refused(&second, second_writer.bytes().len())?;
    match first == second && writer.bytes() == second_writer.bytes() {
        true => Ok(mark(&first, bytes, writer.bytes())),
        false => Ok('?'),
    }
}

/// The mark of each beginning of a text, from the empty one to the whole text, byte by byte.
pub(crate) fn push_beginnings(
    alloc: Global,
    row: &Case,
    out: &mut String,
) -> Result<(), AllocError> {
    let text = row.text(1);
    for end in 0..text.len().saturating_add(1) {
        let beginning = text.as_bytes().get(..end).unwrap_or(b"");
        out.push(mark_of(alloc, asked(row), beginning)?)?;
    }
    Ok(())
}
