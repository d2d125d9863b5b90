#![tactic(auto)]

//! The program `jslint`: its words, its files, its streams and its exit status.
//! - May touch: files and the three standard streams. It opens them and hands on.
//! - Contract: `Answers` in `specs/Program.antt`: a run on the file that is opened, or on standard input for `-`, with
//!   the status and the line of its answer.
//! - Begin at: `main.rt`, `main`; `files.rt`, `open_and_run`; `list_run.rt`, `run_list`; `opened.rt`, `open`; what isn't public is tested in
//!   `tests.rt`.

mod files;
mod list_run;
mod opened;

ghost use Rattle.std.specs.Prelude.{◌≡◌, false, map};
ghost use Rattle.jslint.specs.Opened.{Gives};
ghost use Rattle.jslint.specs.Program.{Answers, NoWordsSaid, Obeys, RunsFiles, RunsInLanguage, RunsLine, written};

use command_line::{Line, command_line, explain, explain_not_utf8, explain_option, explain_unread};
use commands::{AskedLanguage, Refused, write_refusal};
use files::{Stop, open_and_run};
use list_run::run_list;
use opened::FileSystem;
use source_text::{Device, Fault, Sink};
use std::alloc::Global;
use std::process::ExitCode;
use std::rt::Env;
use std::{env, io};

/// Why the command line has no words for us.
#[derive(Clone, Copy, Debug, PartialEq, Eq)]
enum NoWords {
    /// Memory was refused for them.
    OutOfMemory,
    /// One isn't UTF-8.
    NotUtf8,
}

/// The words of the command line, the program's name first.
fn arguments<R: Env + AllocGlobal>(rt: &R) -> Result<Vec<String>, NoWords> {
    match env::args(rt) {
        Ok(words) => match words.collect(rt.alloc()) {
            Ok(words) => Ok(words),
            Err(_) => Err(NoWords::OutOfMemory),
        },
        Err(error) if error.kind() == io::ErrorKind::OutOfMemory => Err(NoWords::OutOfMemory),
        Err(_) => Err(NoWords::NotUtf8),
    }
}

/// Says why there are no words. Answers the exit status.
fn explain_no_words<W: Sink>(why: NoWords, errors: &mut W) -> u8
    requires { W.failed errors.old ≡ false }
    ensures { NoWordsSaid (written W.taken W.failed errors.old errors.new) result }
{
    match why {
        NoWords::OutOfMemory => write_refusal(&Refused::at_no_place(Fault::OutOfMemory), errors),
        NoWords::NotUtf8 => explain_not_utf8(errors),
    }
}

/// Runs a line over its files in a language, and says why where it is refused. Answers the exit status.
fn run_files<R: FileSystem + AllocGlobal, O: Sink, W: Sink>(
    rt: &R,
    line: Line,
    asked: AskedLanguage,
    output: &mut O,
    errors: &mut W,
) -> u8
    requires writes { O.failed output.old ≡ false }
    requires tells { W.failed errors.old ≡ false }
    ensures { RunsFiles (Gives (R.opens rt.now) (R.reads rt.now) R.File.remaining R.Reader.remaining) line.entry asked (written O.taken O.failed output.old output.new) (written W.taken W.failed errors.old errors.new) result }
{
    match open_and_run(rt, line, asked, output) {
        Ok(status) => status,
        Err(Stop::Unread(name, failure)) => explain_unread(name, failure, errors),
        Err(Stop::Refuses(refused)) => write_refusal(&refused, errors),
    }
}

/// Runs a line over its files, or over those of its list, in a language. Answers the exit status.
fn run_in_language<R: FileSystem + AllocGlobal, O: Sink, W: Sink>(
    rt: &R,
    line: Line,
    asked: AskedLanguage,
    output: &mut O,
    errors: &mut W,
) -> u8
    requires writes { O.failed output.old ≡ false }
    requires tells { W.failed errors.old ≡ false }
    ensures { RunsInLanguage line.entry.is_list (Gives (R.opens rt.now) (R.reads rt.now) R.File.remaining R.Reader.remaining) line.entry asked (written O.taken O.failed output.old output.new) (written W.taken W.failed errors.old errors.new) result }
{
    if line.is_list {
        return run_list(rt, line, asked, output, errors);
    }
    run_files(rt, line, asked, output, errors)
}

/// Runs a line in the language that it asks for, and says why where it asks for none. Answers the exit status.
fn run_line<R: FileSystem + AllocGlobal, O: Sink, W: Sink>(
    rt: &R,
    line: Line,
    output: &mut O,
    errors: &mut W,
) -> u8
    requires writes { O.failed output.old ≡ false }
    requires tells { W.failed errors.old ≡ false }
    ensures { RunsLine (Gives (R.opens rt.now) (R.reads rt.now) R.File.remaining R.Reader.remaining) line.entry (written O.taken O.failed output.old output.new) (written W.taken W.failed errors.old errors.new) result }
{
    match line.language() {
        Ok(asked) => run_in_language(rt, line, asked, output, errors),
        Err(mistake) => explain_option(mistake, errors),
    }
}

/// Does what the words ask for, and answers the exit status.
fn run_arguments<R: FileSystem + AllocGlobal + Print + Eprint, O: Sink, W: Sink>(
    rt: &R,
    words: &[&str],
    output: &mut O,
    errors: &mut W,
) -> u8
    requires writes { O.failed output.old ≡ false }
    requires tells { W.failed errors.old ≡ false }
    ensures { Obeys (Gives (R.opens rt.now) (R.reads rt.now) R.File.remaining R.Reader.remaining) (map (λ w. w.now) words.now) (written O.taken O.failed output.old output.new) (written W.taken W.failed errors.old errors.new) result }
{
    match command_line(rt.alloc(), words) {
        Ok(line) => run_line(rt, line, output, errors),
        Err(error) => explain(rt, words, &error, errors),
    }
}

/// The words of the command line as they are lent.
fn lent<'a>(alloc: Global, words: &'a [String]) -> Result<Vec<&'a str>, NoWords> {
    match words.iter().map(|word| word.as_str()).collect(alloc) {
        Ok(lent) => Ok(lent),
        Err(_) => Err(NoWords::OutOfMemory),
    }
}

/// Does what the words of the command line ask for, and answers the exit status.
fn obey_own_words<R: Env + FileSystem + AllocGlobal + Print + Eprint, O: Sink, W: Sink>(
    rt: &R,
    output: &mut O,
    errors: &mut W,
) -> u8
    requires writes { O.failed output.old ≡ false }
    requires tells { W.failed errors.old ≡ false }
    ensures { Answers (Gives (R.opens rt.now) (R.reads rt.now) R.File.remaining R.Reader.remaining) (written O.taken O.failed output.old output.new) (written W.taken W.failed errors.old errors.new) result }
{
    let owned = match arguments(rt) {
        Ok(owned) => owned,
        Err(why) => return explain_no_words(why, errors),
    };
    let words = match lent(rt.alloc(), &owned) {
        Ok(words) => words,
        Err(why) => return explain_no_words(why, errors),
    };
    run_arguments(rt, &words, output, errors)
}

/// Runs the program on its own words, and exits with its status.
fn main(rt: HostRuntime) -> ExitCode {
    let mut output = Device::of_writer(rt.stdout());
    let mut errors = Device::of_writer(rt.stderr());
    ExitCode::from(obey_own_words(&rt, &mut output, &mut errors))
}

#[cfg(test)]
mod tests;
