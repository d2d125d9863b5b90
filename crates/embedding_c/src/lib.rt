#![tactic(auto)]

//! The commands for C and for WebAssembly, as a static library of two calls: in the base profile, and in a language.
//! - May touch: the caller's bytes and the caller's room. It keeps no pointer and hands out no memory.
//! - Contract: `jslint_answer_in`: the room begins with the answer, as far as it fits, and the outcome has its length and
//!   status.
//! - Begin at: `lib.rt`, `jslint_answer_in`. Definitions: `specs/Calls.antt`.

ghost use Rattle.std.specs.Prelude.{◌≡◌, ◌≢◌, ◌≤◌, ◌<◌, length, Some};
ghost use Rattle.source_text.specs.declared.fault.Fault.TheVariants.{Usage};
ghost use Rattle.embedding_c.specs.Calls.{Names, NamesLanguage, Tells, TellsBy, TellsRefusal, flag, overwritten};

use commands::{AskedLanguage, Command, FormatChoice, LanguageChoice, Refused, ReportForm, status};
use embedding::{refusal_text, run_on_bytes};
use std::alloc::{AllocError, Global};

/// What a call tells beside the bytes.
#[repr(C)]
#[derive(Clone, Copy)]
pub struct Outcome {
    /// How many bytes the answer has. Where there is less room, its beginning stands there.
    pub length: usize,
    /// The exit status of the program.
    pub status: u32,
    /// 1 where the bytes are the line of a refusal, else 0.
    pub is_refusal: u32,
}

/// The command of a number below 5: 0 `check`, 1 `tree`, 2 `fix`, 3 `cost`, 4 `verify`.
fn first_command_of(number: u32) -> Command
    requires { number < 5 }
    ensures { Names number (Some result) }
{
    match number {
        0 => Command::Check(ReportForm::Places),
        1 => Command::Tree,
        2 => Command::Fix,
        3 => Command::Cost,
        _ => Command::Verify,
    }
}

/// The command of a number from 5 on: 5 `unwrap`, 6 `check --spans`, 7 `same`, 8 `format`, as where no more is said, 9 `mend`.
fn later_command_of(number: u32) -> Option<Command>
    requires { 5 ≤ number }
    ensures { Names number result }
{
    match number {
        5 => Some(Command::Unwrap),
        6 => Some(Command::Check(ReportForm::Spans)),
        7 => Some(Command::Same),
        8 => Some(Command::Format(FormatChoice::DEFAULT)),
        9 => Some(Command::Mend),
        _ => None,
    }
}

/// The command of a number, as `jslint_answer` numbers them.
fn command_of(number: u32) -> Option<Command>
    ensures { Names number result }
{
    match number < 5 {
        true => Some(first_command_of(number)),
        false => later_command_of(number),
    }
}

/// How a number says the language: 0 that nothing is said, 1 the edition of 2020, 2 that of 2022, 3 its modules, 4 that each is tried.
fn asked_of(number: u32) -> Option<AskedLanguage>
    ensures { NamesLanguage number result }
{
    match number {
        0 => Some(AskedLanguage::Said(LanguageChoice::Unsaid)),
        1 => Some(AskedLanguage::Said(LanguageChoice::Edition2020)),
        2 => Some(AskedLanguage::Said(LanguageChoice::Edition2022)),
        3 => Some(AskedLanguage::Said(LanguageChoice::Module)),
        4 => Some(AskedLanguage::Any),
        _ => None,
    }
}

/// Puts an answer into the room, as far as it goes.
fn tell(bytes: &[u8], status: u8, is_refusal: bool, room: &mut [u8]) -> Outcome
    ensures outcome { result ≡ record { length = length bytes.now; status = status; is_refusal = flag is_refusal } }
    ensures bytes { room.new ≡ overwritten bytes.now room.old }
{
    let count = bytes.len().min(room.len());
    room[..count].copy_from_slice(&bytes[..count]);
    Outcome {
        length: bytes.len(),
        status: u32::from(status),
        is_refusal: u32::from(is_refusal),
    }
}

/// Puts the line of a refusal into the room; where memory is refused for it, that of `out of memory`.
fn tell_refusal(alloc: Global, refused: &Refused, room: &mut [u8]) -> Outcome
    requires { refused.now.fault ≢ Usage }
    ensures { TellsRefusal refused.now room.old room.new result }
{
    match refusal_text(alloc, refused) {
        Ok(line) => tell(&line, status(refused.fault), true, room),
        Err(AllocError) => tell(b"jslint: out of memory\n", 2, true, room),
    }
}

/// What is told of a number of no command, or of no language: nothing is put into the room.
fn tell_nothing() -> Outcome
    ensures { result ≡ record { length = 0; status = 2; is_refusal = 1 } }
{
    Outcome {
        length: 0,
        status: 2,
        is_refusal: 1,
    }
}

/// Tells what a command answers in a language.
fn tell_answer(
    alloc: Global,
    command: Command,
    asked: AskedLanguage,
    text: &[u8],
    second: &[u8],
    room: &mut [u8],
) -> Outcome
    ensures { TellsBy command asked text.now second.now room.old room.new result }
{
    match run_on_bytes(alloc, command, asked, text, second) {
        Ok(output) => tell(&output.bytes, output.status, false, room),
        Err(refused) => tell_refusal(alloc, &refused, room),
    }
}

/// Answers a command for a script and a second text, which `check` and `mend` read as their settings, `verify` as its table and `same` as its other
/// script, in a language: the answer's beginning, as far as there is room, how long it is, its status, and whether it is a refusal. A number
/// of no command or of no language has no answer: length 0, status 2 and a refusal, and nothing is put into the room.
#[unsafe(no_mangle)]
pub extern "C" fn jslint_answer_in(
    alloc: Global,
    language: u32,
    command: u32,
    text: &[u8],
    second: &[u8],
    room: &mut [u8],
    outcome: &mut Outcome,
)
    ensures { Tells command language text.now second.now room.old room.new outcome.new }
{
    *outcome = match (command_of(command), asked_of(language)) {
        (Some(command), Some(asked)) => tell_answer(alloc, command, asked, text, second, room),
        _ => tell_nothing(),
    };
}

/// Answers a command as `jslint_answer_in` does where nothing is said of the language.
#[unsafe(no_mangle)]
pub extern "C" fn jslint_answer(
    alloc: Global,
    command: u32,
    text: &[u8],
    second: &[u8],
    room: &mut [u8],
    outcome: &mut Outcome,
)
    ensures { Tells command 0 text.now second.now room.old room.new outcome.new }
{
    *outcome = match command_of(command) {
        Some(command) => tell_answer(
            alloc,
            command,
            AskedLanguage::Said(LanguageChoice::Unsaid),
            text,
            second,
            room,
        ),
        None => tell_nothing(),
    };
}
