//! Runs over the files of a list: each is opened, told of as if it were alone, and given back before the next.

ghost use Rattle.std.specs.Prelude.{◌≡◌, ◌≢◌, Err, IfErr, IfOk, Ok, [], false};
ghost use Rattle.source_text.specs.declared.fault.Fault.TheVariants.{Usage};
ghost use Rattle.command_line.specs.Shown.{escaped_name, shown_bytes};
ghost use Rattle.command_line.specs.declared.unread.ReadFailure.TheVariants.{NotUtf8};
ghost use Rattle.embedding.specs.Answers.{AnswersBytes};
ghost use Rattle.named_answers.specs.NamedAnswers.{Tells, told_unread};
ghost use Rattle.jslint.specs.ListRun.{HasSettings, Holds, IsTelling, StopsFile, StopsList, StopsReading, told_stop};
ghost use Rattle.jslint.specs.Opened.{Gives};
ghost use Rattle.jslint.specs.Program.{Ends, IsTold, RunsList, TellsNames, written};

use crate::files::{Stop, is_twice, stop_of, unread_input};
use crate::opened::{FileSystem, Opened, is_input, open};
use command_line::{Line, ReadFailure, explain_unread, shown_bytes, shown_name};
use commands::{AskedLanguage, Command, Refused, read_up_to, write_refusal};
use embedding::run_on_bytes;
use many_files::{Teller, names_in, tell_bytes, tell_each};
use named_answers::{Telling, answered, refused, unread};
use source_text::{Device, Fault, Feed, MAX_BYTES, Sink};
use std::alloc::{AllocError, Global};
use std::str::from_utf8;

/// What is said of a file for whose name there is no memory.
const NO_MEMORY: &[u8] = b"jslint: out of memory\n";

/// Tells of a file of a list: by a run of a command over it, in a language, with settings.
#[derive(Drop)]
struct FileTeller<'a, R> {
    rt: &'a R,
    command: Command,
    asked: AskedLanguage,
    settings: &'a [u8],
}

/// What an opened file has to give, up to one byte past the limit.
fn bytes_of<'a, R: FileSystem + AllocGlobal>(
    rt: &R,
    file: &mut Opened<Device<R::File>, Device<R::Reader>>,
    name: &'a str,
) -> Result<Vec<u8>, Stop<'a>>
    requires given { Gives (R.opens rt.now) (R.reads rt.now) R.File.remaining R.Reader.remaining name.now (Ok (⟦<Opened<Device<R::File>, Device<R::Reader>> as Feed>⟧.left file.old)) }
    requires reads { ⟦<Opened<Device<R::File>, Device<R::Reader>> as Feed>⟧.failed file.old ≡ false }
    ensures held { IfOk result (λ bytes. Holds (Gives (R.opens rt.now) (R.reads rt.now) R.File.remaining R.Reader.remaining) name.entry.now bytes.items) }
    ensures stopped { IfErr result (λ stop. StopsReading (Gives (R.opens rt.now) (R.reads rt.now) R.File.remaining R.Reader.remaining) name.entry.now stop) }
    ensures told { IfErr result (λ stop. IsTold stop) }
{
    match read_up_to(rt.alloc(), file, MAX_BYTES) {
        Ok(bytes) => Ok(bytes),
        Err(fault) => Err(stop_of(rt, Refused::at_no_place(fault), name)),
    }
}

/// What there is to read under a name, up to one byte past the limit. It is open as long as it is read.
fn bytes_under<'a, R: FileSystem + AllocGlobal>(rt: &R, name: &'a str) -> Result<Vec<u8>, Stop<'a>>
    ensures held { IfOk result (λ bytes. Holds (Gives (R.opens rt.now) (R.reads rt.now) R.File.remaining R.Reader.remaining) name.entry.now bytes.items) }
    ensures stopped { IfErr result (λ stop. StopsReading (Gives (R.opens rt.now) (R.reads rt.now) R.File.remaining R.Reader.remaining) name.entry.now stop) }
    ensures told { IfErr result (λ stop. IsTold stop) }
{
    let mut file = match open(rt, name) {
        Ok(file) => file,
        Err(failure) => return Err(Stop::Unread(name, failure)),
    };
    bytes_of(rt, &mut file, name)
}

/// What is told of a file that can't be read, or for which memory is refused, by what its name is shown as.
fn telling_of_stop(alloc: Global, shown: &[u8], stop: Stop) -> Result<Telling, AllocError>
    requires { IsTold stop }
    ensures { IfOk result (λ telling. Tells telling (told_stop shown.now stop.entry)) }
{
    match stop {
        Stop::Unread(_, failure) => unread(alloc, shown, failure),
        Stop::Refuses(why) => refused(alloc, shown, &why),
    }
}

/// What is told of a file whose name isn't UTF-8: it isn't opened.
fn misnamed(alloc: Global, name: &[u8]) -> Result<Telling, AllocError>
    ensures { IfOk result (λ telling. Tells telling (told_unread (shown_bytes name.now) NotUtf8)) }
{
    let shown = shown_bytes(alloc, name)?;
    unread(alloc, &shown, ReadFailure::NotUtf8)
}

impl<'a, R: FileSystem + AllocGlobal> FileTeller<'a, R> {
    /// What is told of a file, by its name and what that is shown as.
    fn telling_shown(&self, name: &str, shown: &[u8]) -> Result<Telling, AllocError>
        requires { shown.now ≡ escaped_name name.now }
        ensures { IfOk result (λ telling. IsTelling (Gives (R.opens self.now.rt.now) (R.reads self.now.rt.now) R.File.remaining R.Reader.remaining) self.now.command self.now.asked self.now.settings.now name.now telling) }
    {
        let alloc = self.rt.alloc();
        match bytes_under(self.rt, name) {
            Ok(text) => answered(alloc, self.command, self.asked, shown, &text, self.settings),
            Err(stop) => telling_of_stop(alloc, shown, stop),
        }
    }

    /// What is told of a file by its name: standard input is none.
    fn telling_of(&self, name: &str) -> Result<Telling, AllocError>
        ensures { IfOk result (λ telling. IsTelling (Gives (R.opens self.now.rt.now) (R.reads self.now.rt.now) R.File.remaining R.Reader.remaining) self.now.command self.now.asked self.now.settings.now name.now telling) }
    {
        let shown = shown_name(self.rt.alloc(), name)?;
        if is_input(name) {
            return unread(self.rt.alloc(), &shown, ReadFailure::InList);
        }
        self.telling_shown(name, &shown)
    }

    /// What is told of a file by the bytes of its name.
    fn telling(&self, name: &[u8]) -> Result<Telling, AllocError>
        ensures { IfOk result (λ telling. IsTelling (Gives (R.opens self.now.rt.now) (R.reads self.now.rt.now) R.File.remaining R.Reader.remaining) self.now.command self.now.asked self.now.settings.now name.now telling) }
    {
        match from_utf8(name) {
            Ok(name) => self.telling_of(name),
            Err(_) => misnamed(self.rt.alloc(), name),
        }
    }
}

impl<'a, R: FileSystem + AllocGlobal, O: Sink, E: Sink> Teller<O, E> for FileTeller<'a, R> {
    ghost use Rattle.jslint.specs.ListRun.{TellsFile};
    ghost use Rattle.jslint.specs.Opened.{Gives};

    ghost alone = { λ t. TellsFile (Gives (R.opens t.rt.now) (R.reads t.rt.now) R.File.remaining R.Reader.remaining) t.command t.asked t.settings.now };

    /// Opens the file, runs the command over it, and writes what it answers, or why it has no answer, with the name in each line.
    fn tell(&self, name: &[u8], output: &mut O, errors: &mut E) -> u8 {
        match self.telling(name) {
            Ok(telling) => tell_bytes(
                &telling.output,
                &telling.errors,
                telling.status,
                output,
                errors,
            ),
            Err(AllocError) => tell_bytes(&[], NO_MEMORY, 2, output, errors),
        }
    }
}

/// A list and settings, which were read.
#[derive(Drop)]
struct ListTexts {
    names: Vec<u8>,
    settings: Vec<u8>,
}

/// The settings of a line, or none where it names none.
fn settings_of<'a, R: FileSystem + AllocGlobal>(rt: &R, line: Line<'a>) -> Result<Vec<u8>, Stop<'a>>
    ensures held { IfOk result (λ settings. HasSettings (Gives (R.opens rt.now) (R.reads rt.now) R.File.remaining R.Reader.remaining) line.entry settings.items) }
    ensures told { IfErr result (λ stop. IsTold stop) }
    ensures stopped { IfErr result (λ stop. StopsFile (Gives (R.opens rt.now) (R.reads rt.now) R.File.remaining R.Reader.remaining) line.entry stop) }
{
    match line.second {
        Some(name) => bytes_under(rt, name),
        None => Ok(Vec::new(rt.alloc())),
    }
}

/// The list of a line, unless it is too long.
fn names_of<'a, R: FileSystem + AllocGlobal>(rt: &R, line: Line<'a>) -> Result<Vec<u8>, Stop<'a>>
    ensures held { IfOk result (λ names. Holds (Gives (R.opens rt.now) (R.reads rt.now) R.File.remaining R.Reader.remaining) line.entry.file.now names.items) }
    ensures stopped { (asked : _) → IfErr result (λ stop. StopsList (Gives (R.opens rt.now) (R.reads rt.now) R.File.remaining R.Reader.remaining) line.entry asked stop) }
    ensures told { IfErr result (λ stop. IsTold stop) }
{
    let names = match bytes_under(rt, line.file) {
        Ok(names) => names,
        Err(stop) => return Err(stop),
    };
    if names.len() > MAX_BYTES {
        return Err(Stop::Refuses(Refused::at_no_place(Fault::TooLong)));
    }
    Ok(names)
}

/// Runs the command over an empty text: where that is refused, as by settings that are none, each file would be.
///
/// # Errors
///
/// The refusal.
fn try_settings(
    alloc: Global,
    command: Command,
    asked: AskedLanguage,
    settings: &[u8],
) -> Result<(), Refused>
    ensures told { IfErr result (λ refused. refused.fault ≢ Usage) }
    ensures refused { IfErr result (λ refused. AnswersBytes command asked [] settings.now (Err refused)) }
{
    match run_on_bytes(alloc, command, asked, &[], settings) {
        Ok(_) => Ok(()),
        Err(refused) => Err(refused),
    }
}

/// Reads the settings of a line, tries them, and reads its list.
fn read_listed<'a, R: FileSystem + AllocGlobal>(
    rt: &R,
    line: Line<'a>,
    asked: AskedLanguage,
) -> Result<ListTexts, Stop<'a>>
    ensures held { IfOk result (λ l. Holds (Gives (R.opens rt.now) (R.reads rt.now) R.File.remaining R.Reader.remaining) line.entry.file.now l.names.items × HasSettings (Gives (R.opens rt.now) (R.reads rt.now) R.File.remaining R.Reader.remaining) line.entry l.settings.items) }
    ensures stopped { IfErr result (λ stop. StopsList (Gives (R.opens rt.now) (R.reads rt.now) R.File.remaining R.Reader.remaining) line.entry asked stop) }
    ensures told { IfErr result (λ stop. IsTold stop) }
{
    let settings = match settings_of(rt, line) {
        Ok(settings) => settings,
        Err(stop) => return Err(stop),
    };
    if let Err(refused) = try_settings(rt.alloc(), line.command, asked, &settings) {
        return Err(Stop::Refuses(refused));
    }
    match names_of(rt, line) {
        Ok(names) => Ok(ListTexts { names, settings }),
        Err(stop) => Err(stop),
    }
}

/// Reads the list of a line and its settings. Standard input is asked before, as for a file alone.
fn listed<'a, R: FileSystem + AllocGlobal>(
    rt: &R,
    line: Line<'a>,
    asked: AskedLanguage,
) -> Result<ListTexts, Stop<'a>>
    ensures held { IfOk result (λ l. Holds (Gives (R.opens rt.now) (R.reads rt.now) R.File.remaining R.Reader.remaining) line.entry.file.now l.names.items × HasSettings (Gives (R.opens rt.now) (R.reads rt.now) R.File.remaining R.Reader.remaining) line.entry l.settings.items) }
    ensures stopped { IfErr result (λ stop. StopsList (Gives (R.opens rt.now) (R.reads rt.now) R.File.remaining R.Reader.remaining) line.entry asked stop) }
    ensures told { IfErr result (λ stop. IsTold stop) }
{
    if is_twice(line) {
        return Err(Stop::Unread(line.file, ReadFailure::Twice));
    }
    if let Some((name, failure)) = unread_input(rt, line) {
        return Err(Stop::Unread(name, failure));
    }
    read_listed(rt, line, asked)
}

/// Tells of each file of a list, or that memory was refused for the places of their names.
fn tell_listed<R: FileSystem + AllocGlobal, O: Sink, W: Sink>(
    teller: &FileTeller<'_, R>,
    list: &[u8],
    output: &mut O,
    errors: &mut W,
) -> u8
    requires writes { O.failed output.old ≡ false }
    requires tells { W.failed errors.old ≡ false }
    ensures { TellsNames (Gives (R.opens teller.now.rt.now) (R.reads teller.now.rt.now) R.File.remaining R.Reader.remaining) teller.now.command teller.now.asked teller.now.settings.now list.now (written O.taken O.failed output.old output.new) (written W.taken W.failed errors.old errors.new) result }
{
    match names_in(teller.rt.alloc(), list) {
        Ok(names) => tell_each(teller, &names, output, errors),
        Err(AllocError) => write_refusal(&Refused::at_no_place(Fault::OutOfMemory), errors),
    }
}

/// Says why no file of a list was looked at. Answers the exit status.
fn say_stop<W: Sink>(stop: Stop, errors: &mut W) -> u8
    requires told { IsTold stop }
    requires tells { W.failed errors.old ≡ false }
    ensures { Ends (Err stop.entry) (written W.taken W.failed errors.old errors.new) result }
{
    match stop {
        Stop::Unread(name, failure) => explain_unread(name, failure, errors),
        Stop::Refuses(refused) => write_refusal(&refused, errors),
    }
}

/// Runs a line over the files of its list, and says why it can't where it can't. Answers the worst exit status.
pub(crate) fn run_list<R: FileSystem + AllocGlobal, O: Sink, W: Sink>(
    rt: &R,
    line: Line,
    asked: AskedLanguage,
    output: &mut O,
    errors: &mut W,
) -> u8
    requires writes { O.failed output.old ≡ false }
    requires tells { W.failed errors.old ≡ false }
    ensures { RunsList (Gives (R.opens rt.now) (R.reads rt.now) R.File.remaining R.Reader.remaining) line.entry asked (written O.taken O.failed output.old output.new) (written W.taken W.failed errors.old errors.new) result }
{
    match listed(rt, line, asked) {
        Ok(listed) => {
            let teller = FileTeller {
                rt,
                command: line.command,
                asked,
                settings: &listed.settings,
            };
            tell_listed(&teller, &listed.names, output, errors)
        }
        Err(stop) => say_stop(stop, errors),
    }
}
