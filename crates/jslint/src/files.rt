//! The files of a line: they are opened, the command is run over them, and one that can't be read is named.

ghost use Rattle.std.specs.Prelude.{◌≡◌, IfErr, IfSome, None, Ok, Some, false, true};
ghost use Rattle.jslint.specs.Opened.{Gives, is_input};
ghost use Rattle.jslint.specs.Program.{IsFailure, IsNamed, IsTold, RunsOnFiles, RunsOnce, StopsBy, is_twice, second_name};

use crate::opened::{FileSystem, Opened, failure_behind, input_failure, is_input, open};
use command_line::{Line, ReadFailure};
use commands::{AskedLanguage, Refused};
use shipped_rules::run_with_rules;
use source_text::{Device, DeviceFault, Fault, Feed, Sink};
use std::rt::Files;

/// Why a run has no status.
#[derive(Clone, Copy, Debug, PartialEq, Eq)]
pub(crate) enum Stop<'a> {
    /// The file of this name can't be opened or read.
    Unread(&'a str, ReadFailure),
    /// Any other refusal.
    Refuses(Refused),
}

/// The second file of a line that names none: it is empty.
#[derive(Clone, Copy)]
struct NoFile;

impl Feed for NoFile {
    ghost use Rattle.std.specs.Prelude.{Some, [], false};

    ghost left = { λ _. Some [] };

    ghost failed = { λ _. false };

    /// The end.
    fn get(&mut self, _room: &mut [u8]) -> Result<usize, DeviceFault> {
        Ok(0)
    }

    /// No call fails.
    fn has_failed(&self) -> bool {
        false
    }
}

/// The file that can't be read, or the refusal, which is none of a file then.
pub(crate) fn stop_of<'a, R: Files>(rt: &R, refused: Refused, unread: &'a str) -> Stop<'a>
    ensures { StopsBy refused unread.entry.now result }
{
    match refused.fault {
        Fault::ReadFailed => Stop::Unread(unread, failure_behind(rt, unread)),
        _ => Stop::Refuses(refused),
    }
}

/// Runs the command over the script alone.
fn run_alone<'a, R: FileSystem + AllocGlobal, W: Sink>(
    rt: &R,
    line: Line<'a>,
    asked: AskedLanguage,
    file: &mut Opened<Device<R::File>, Device<R::Reader>>,
    output: &mut W,
) -> Result<u8, Stop<'a>>
    requires alone { line.second ≡ None }
    requires given { Gives (R.opens rt.now) (R.reads rt.now) R.File.remaining R.Reader.remaining line.file.now (Ok (⟦<Opened<Device<R::File>, Device<R::Reader>> as Feed>⟧.left file.old)) }
    requires reads { ⟦<Opened<Device<R::File>, Device<R::Reader>> as Feed>⟧.failed file.old ≡ false }
    requires writes { W.failed output.old ≡ false }
    ensures told { IfErr result (λ stop. IsTold stop) }
    ensures answer { RunsOnce (Gives (R.opens rt.now) (R.reads rt.now) R.File.remaining R.Reader.remaining) line.entry asked (W.taken output.old) (W.taken output.new) (W.failed output.new) result }
{
    match run_with_rules(rt.alloc(), line.command, asked, file, &mut NoFile, output) {
        Ok(status) => Ok(status),
        Err(refused) => Err(stop_of(rt, refused, line.file)),
    }
}

/// Opens the second file, and runs the command over both.
fn run_both<'a, R: FileSystem + AllocGlobal, W: Sink>(
    rt: &R,
    line: Line<'a>,
    asked: AskedLanguage,
    file: &mut Opened<Device<R::File>, Device<R::Reader>>,
    name: &'a str,
    output: &mut W,
) -> Result<u8, Stop<'a>>
    requires second { second_name line ≡ Some name.now }
    requires given { Gives (R.opens rt.now) (R.reads rt.now) R.File.remaining R.Reader.remaining line.file.now (Ok (⟦<Opened<Device<R::File>, Device<R::Reader>> as Feed>⟧.left file.old)) }
    requires reads { ⟦<Opened<Device<R::File>, Device<R::Reader>> as Feed>⟧.failed file.old ≡ false }
    requires writes { W.failed output.old ≡ false }
    ensures told { IfErr result (λ stop. IsTold stop) }
    ensures answer { RunsOnce (Gives (R.opens rt.now) (R.reads rt.now) R.File.remaining R.Reader.remaining) line.entry asked (W.taken output.old) (W.taken output.new) (W.failed output.new) result }
{
    let mut second = match open(rt, name) {
        Ok(second) => second,
        Err(failure) => return Err(Stop::Unread(name, failure)),
    };
    match run_with_rules(rt.alloc(), line.command, asked, file, &mut second, output) {
        Ok(status) => Ok(status),
        Err(refused) => {
            let unread = if Feed::has_failed(&second) {
                name
            } else {
                line.file
            };
            Err(stop_of(rt, refused, unread))
        }
    }
}

/// The name of the line's file that is standard input, if one is.
fn input_name<'a>(line: Line<'a>) -> Option<&'a str>
    ensures named { IfSome result (λ name. IsNamed line.entry name.now) }
    ensures input { IfSome result (λ name. is_input name.now ≡ true) }
{
    if is_input(line.file) {
        return Some(line.file);
    }
    match line.second {
        Some(name) if is_input(name) => Some(name),
        _ => None,
    }
}

/// The name and the failure of a standard input that is named and can't be read.
pub(crate) fn unread_input<'a, R: FileSystem>(
    rt: &R,
    line: Line<'a>,
) -> Option<(&'a str, ReadFailure)>
    ensures named { IfSome result (λ unread. IsNamed line.entry unread.0.now) }
    ensures error { IfSome result (λ unread. IsFailure (Gives (R.opens rt.now) (R.reads rt.now) R.File.remaining R.Reader.remaining) unread.0.now unread.1) }
{
    let Some(name) = input_name(line) else {
        return None;
    };
    match input_failure(rt, name) {
        Some(failure) => Some((name, failure)),
        None => None,
    }
}

/// Opens the files, the script first, and runs the command. Standard input is asked before: a file that is opened takes the place of one
/// that is closed.
fn run_once<'a, R: FileSystem + AllocGlobal, W: Sink>(
    rt: &R,
    line: Line<'a>,
    asked: AskedLanguage,
    output: &mut W,
) -> Result<u8, Stop<'a>>
    requires { W.failed output.old ≡ false }
    ensures told { IfErr result (λ stop. IsTold stop) }
    ensures answer { RunsOnce (Gives (R.opens rt.now) (R.reads rt.now) R.File.remaining R.Reader.remaining) line.entry asked (W.taken output.old) (W.taken output.new) (W.failed output.new) result }
{
    if let Some((name, failure)) = unread_input(rt, line) {
        return Err(Stop::Unread(name, failure));
    }
    let mut file = match open(rt, line.file) {
        Ok(file) => file,
        Err(failure) => return Err(Stop::Unread(line.file, failure)),
    };
    match line.second {
        Some(name) => run_both(rt, line, asked, &mut file, name, output),
        None => run_alone(rt, line, asked, &mut file, output),
    }
}

/// Whether both files of a line are standard input.
pub(crate) fn is_twice(line: Line<'_>) -> bool
    ensures { result ≡ is_twice line.entry }
{
    match line.second {
        Some(name) => is_input(line.file) && is_input(name),
        None => false,
    }
}

/// Runs the command over the files of a line, unless both are standard input, which can be read once.
pub(crate) fn open_and_run<'a, R: FileSystem + AllocGlobal, W: Sink>(
    rt: &R,
    line: Line<'a>,
    asked: AskedLanguage,
    output: &mut W,
) -> Result<u8, Stop<'a>>
    requires { W.failed output.old ≡ false }
    ensures told { IfErr result (λ stop. IsTold stop) }
    ensures answer { RunsOnFiles (Gives (R.opens rt.now) (R.reads rt.now) R.File.remaining R.Reader.remaining) line.entry asked (W.taken output.old) (W.taken output.new) (W.failed output.new) result }
{
    if is_twice(line) {
        return Err(Stop::Unread(line.file, ReadFailure::Twice));
    }
    run_once(rt, line, asked, output)
}
