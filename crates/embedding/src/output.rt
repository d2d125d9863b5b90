//! What a command answers for a script in memory.

ghost use Rattle.std.specs.Prelude.{◌≡◌, ◌≢◌, ◌⊎◌, IfErr, IfOk};
ghost use Rattle.source_text.specs.declared.fault.Fault.TheVariants.{Usage, WriteFailed};
ghost use Rattle.commands.specs.Refusal.{refusal_line};
ghost use Rattle.commands.specs.Refused.{no_memory};
ghost use Rattle.embedding.specs.Answers.{AnswersBytes};

use crate::bytes_feed::BytesFeed;
use crate::vec_sink::VecSink;
use commands::{AskedLanguage, Command, Refused, write_refusal};
use shipped_rules::run_with_rules;
use source_text::{Fault, Sink};
use std::alloc::{AllocError, Global};

/// What a command wrote, and its exit status.
#[derive(Drop)]
pub struct Output {
    /// All that it wrote.
    pub bytes: Vec<u8>,
    /// 1 where `check` has a report or `same` has two trees, else 0.
    pub status: u8,
}

/// The refusal of a run whose writer is memory: where that fails, memory was refused.
fn refusal_in_memory(refused: Refused) -> Refused
    requires { refused.fault ≢ Usage }
    ensures told { result.fault ≢ Usage }
    ensures same { ((refused.fault ≢ WriteFailed) × (result ≡ refused)) ⊎ (result ≡ no_memory) }
{
    match refused.fault {
        Fault::WriteFailed => Refused::at_no_place(Fault::OutOfMemory),
        _ => refused,
    }
}

/// Runs a command over the bytes of a script, in a language, and of a second text, which `check` reads as its settings, `verify` as its table and `same` as
/// its other script.
///
/// # Errors
///
/// Those of a run over files, but that there is none that can't be read or written: where memory is refused for the output, that is
/// `OutOfMemory` too.
pub fn run_on_bytes(
    alloc: Global,
    command: Command,
    asked: AskedLanguage,
    text: &[u8],
    second: &[u8],
) -> Result<Output, Refused>
    ensures told { IfErr result (λ refused. refused.fault ≢ Usage) }
    ensures answer { AnswersBytes command asked text.now second.now result }
{
    let mut file = BytesFeed::new(text);
    let mut second = BytesFeed::new(second);
    let mut output = VecSink::new(alloc);
    match run_with_rules(alloc, command, asked, &mut file, &mut second, &mut output) {
        Ok(status) => Ok(Output {
            bytes: output.into_bytes(),
            status,
        }),
        Err(refused) => Err(refusal_in_memory(refused)),
    }
}

/// The line of a refusal, with its line feed.
///
/// # Errors
///
/// An `AllocError` where memory is refused.
pub fn refusal_text(alloc: Global, refused: &Refused) -> Result<Vec<u8>, AllocError>
    requires { refused.now.fault ≢ Usage }
    ensures { IfOk result (λ text. text.items ≡ refusal_line refused.now) }
{
    let mut line = VecSink::new(alloc);
    let _ = write_refusal(refused, &mut line);
    if line.has_failed() {
        return Err(AllocError);
    }
    Ok(line.into_bytes())
}
