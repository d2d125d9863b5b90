#![tactic(auto)]

//! What is told of one file among many: its answer, or why it has none, with its name in each line.
//! - May touch: bytes in memory, and memory.
//! - Contract: `told_of` and `told_unread` in `specs/NamedAnswers.antt`: the answer of a run over these bytes alone, each line behind the
//!   file's name.
//! - Begin at: `lib.rt`, `answered`; `refused` and `unread` tell why there is no answer.

ghost use Rattle.std.specs.Prelude.{◌≡◌, ◌≢◌, ◌⊎◌, Err, IfOk, Ok};
ghost use Rattle.source_text.specs.declared.fault.Fault.TheVariants.{Usage};
ghost use Rattle.commands.specs.Refused.{no_memory};
ghost use Rattle.named_answers.specs.NamedAnswers.{Answers, Tells, refusal_line_of, told_of, told_unread};

use command_line::{ReadFailure, failure_words};
use commands::{AskedLanguage, Command, Refused, status};
use embedding::{Output, refusal_text, run_on_bytes};
use many_files::with_name;
use source_text::Fault;
use std::alloc::{AllocError, Global};

/// What is told of a file.
#[derive(Drop)]
pub struct Telling {
    /// What standard output gets.
    pub output: Vec<u8>,
    /// What standard error gets.
    pub errors: Vec<u8>,
    /// The exit status.
    pub status: u8,
}

/// What is told of a file that can't be opened or read, by what its name is shown as.
///
/// # Errors
///
/// `AllocError` where memory is refused.
pub fn unread(alloc: Global, shown: &[u8], failure: ReadFailure) -> Result<Telling, AllocError>
    ensures { IfOk result (λ telling. Tells telling (told_unread shown.now failure)) }
{
    let mut errors = Vec::new(alloc);
    errors.extend_from_slice(b"jslint: read failed: ")?;
    errors.extend_from_slice(shown)?;
    errors.extend_from_slice(failure_words(failure).as_bytes())?;
    errors.push(b'\n')?;
    Ok(Telling {
        output: Vec::new(alloc),
        errors,
        status: 2,
    })
}

/// The line of a refusal with what the file's name is shown as behind `jslint: `.
fn refusal_line_of(alloc: Global, shown: &[u8], refused: &Refused) -> Result<Vec<u8>, AllocError>
    requires { refused.now.fault ≢ Usage }
    ensures { IfOk result (λ line. line.items ≡ refusal_line_of shown.now refused.now) }
{
    let plain = refusal_text(alloc, refused)?;
    let mut line = Vec::new(alloc);
    line.extend_from_slice(b"jslint: ")?;
    line.extend_from_slice(shown)?;
    line.extend_from_slice(b": ")?;
    line.extend_from_slice(&plain[8..])?;
    Ok(line)
}

/// What is told of a file that is refused, by what its name is shown as.
///
/// # Errors
///
/// `AllocError` where memory is refused.
pub fn refused(alloc: Global, shown: &[u8], refused: &Refused) -> Result<Telling, AllocError>
    requires { refused.now.fault ≢ Usage }
    ensures { IfOk result (λ telling. Tells telling (told_of shown.now (Err refused.now))) }
{
    Ok(Telling {
        output: Vec::new(alloc),
        errors: refusal_line_of(alloc, shown, refused)?,
        status: status(refused.fault),
    })
}

/// The output of a run, each line behind what the file's name is shown as.
fn told(alloc: Global, shown: &[u8], answer: &Output) -> Result<Telling, AllocError>
    ensures { IfOk result (λ telling. Tells telling (told_of shown.now (Ok answer.now))) }
{
    Ok(Telling {
        output: with_name(alloc, shown, &answer.bytes)?,
        errors: Vec::new(alloc),
        status: answer.status,
    })
}

/// The output of a run, as above; or, where memory is refused for that, that it is.
fn told_or_no_memory(alloc: Global, shown: &[u8], answer: &Output) -> Result<Telling, AllocError>
    ensures { IfOk result (λ telling. Tells telling (told_of shown.now (Ok answer.now)) ⊎ Tells telling (told_of shown.now (Err no_memory))) }
{
    match told(alloc, shown, answer) {
        Ok(telling) => Ok(telling),
        Err(AllocError) => {
            let why = Refused::at_no_place(Fault::OutOfMemory);
            refused(alloc, shown, &why)
        }
    }
}

/// What is told of a file that has this text: the answer of a run over it alone, by what its name is shown as; where memory is refused
/// for that, that it is.
///
/// # Errors
///
/// `AllocError` where memory is refused for that line too.
pub fn answered(
    alloc: Global,
    command: Command,
    asked: AskedLanguage,
    shown: &[u8],
    text: &[u8],
    settings: &[u8],
) -> Result<Telling, AllocError>
    ensures { IfOk result (λ telling. Answers command asked shown.now text.now settings.now telling) }
{
    match run_on_bytes(alloc, command, asked, text, settings) {
        Ok(answer) => told_or_no_memory(alloc, shown, &answer),
        Err(why) => refused(alloc, shown, &why),
    }
}
