//! What is read under a name: the file of that name, or standard input for `-`.

ghost use Rattle.std.specs.Prelude.{◌≡◌, IfErr, IfOk, IfSome, Ok, false, true};
ghost use Rattle.jslint.specs.Opened.{Gives, is_input};
ghost use Rattle.jslint.specs.Program.{IsFailure, IsOfOpened, failure_of};

use command_line::ReadFailure;
use source_text::{Device, DeviceFault, Feed};
use std::fs;
use std::io::{ErrorKind, Read};
use std::rt::Files;

/// Files and standard input of std. What an opening and a read may answer has a name here, and code that knows of a type only that it is
/// such a file system has an answer from a call alone.
pub(crate) trait FileSystem: Files + Input {
    ghost use Rattle.std.specs.Prelude.{List, ℕ, Result};
    ghost use Rattle.std.specs.declared.io.ErrorKind.{ErrorKind};

    /// The file system, the name of a file, and what its opening may answer.
    ghost opens: { Self → List ℕ → Result Self.File ErrorKind → Type 0 };

    /// The file system, and what a read of no byte of standard input may answer.
    ghost reads: { Self → Result ℕ ErrorKind → Type 0 };

    /// Opens a file for reading, and nothing else. Of an error it answers the kind.
    fn open_to_read(&self, name: &str) -> Result<Self::File, ErrorKind>
        ensures { opens self.now name.now result };

    /// Reads no byte of standard input. Of an error it answers the kind.
    fn read_no_byte(&self) -> Result<usize, ErrorKind>
        ensures { reads self.now result };
}

impl<R: Files + Input> FileSystem for R {
    ghost opens = { λ _ _ _. Unit {0} };

    ghost reads = { λ _ _. Unit {0} };

    /// Calls `open` of std once, which promises nothing.
    fn open_to_read(&self, name: &str) -> Result<R::File, ErrorKind> {
        fs::open(self, name).map_err(|error| error.kind())
    }

    /// Calls `read` of std once.
    fn read_no_byte(&self) -> Result<usize, ErrorKind> {
        self.reader().read(&mut []).map_err(|error| error.kind())
    }
}

/// A file that was opened, or standard input.
#[derive(Drop)]
pub(crate) enum Opened<F, I> {
    /// A file.
    File(F),
    /// Standard input.
    Input(I),
}

impl<F: Feed, I: Feed> Feed for Opened<F, I> {
    ghost use Rattle.jslint.specs.Opened.{of_either};

    ghost left = { λ o. of_either F.left I.left o };

    ghost failed = { λ o. of_either F.failed I.failed o };

    /// Reads of the one that it is.
    fn get(&mut self, room: &mut [u8]) -> Result<usize, DeviceFault> {
        match self {
            Opened::File(file) => file.get(room),
            Opened::Input(input) => input.get(room),
        }
    }

    /// Whether a call of it has failed.
    fn has_failed(&self) -> bool {
        match self {
            Opened::File(file) => file.has_failed(),
            Opened::Input(input) => input.has_failed(),
        }
    }
}

/// Whether a name stands for standard input.
pub(crate) fn is_input(name: &str) -> bool
    ensures { result ≡ is_input name.now }
{
    name == "-"
}

/// Why a file can't be opened, by the kind of the system's error.
fn failure_of(kind: ErrorKind) -> ReadFailure
    ensures { result ≡ failure_of kind }
{
    match kind {
        ErrorKind::NotFound | ErrorKind::NotADirectory => ReadFailure::Missing,
        ErrorKind::IsADirectory => ReadFailure::Folder,
        ErrorKind::PermissionDenied => ReadFailure::NotPermitted,
        ErrorKind::FilesystemLoop => ReadFailure::LinkCircle,
        _ => ReadFailure::Other,
    }
}

/// Opens what a name stands for, for reading.
pub(crate) fn open<R: FileSystem>(
    rt: &R,
    name: &str,
) -> Result<Opened<Device<R::File>, Device<R::Reader>>, ReadFailure>
    ensures ready { IfOk result (λ file. ⟦<Opened<Device<R::File>, Device<R::Reader>> as Feed>⟧.failed file ≡ false) }
    ensures given { IfOk result (λ file. Gives (R.opens rt.now) (R.reads rt.now) R.File.remaining R.Reader.remaining name.now (Ok (⟦<Opened<Device<R::File>, Device<R::Reader>> as Feed>⟧.left file))) }
    ensures error { IfErr result (IsFailure (Gives (R.opens rt.now) (R.reads rt.now) R.File.remaining R.Reader.remaining) name.now) }
{
    if is_input(name) {
        return Ok(Opened::Input(Device::of_reader(rt.reader())));
    }
    match rt.open_to_read(name) {
        Ok(file) => Ok(Opened::File(Device::of_reader(file))),
        Err(kind) => Err(failure_of(kind)),
    }
}

/// Why standard input can't be read under its name, if it can't: it is asked for no byte.
pub(crate) fn input_failure<R: FileSystem>(rt: &R, name: &str) -> Option<ReadFailure>
    requires { is_input name.now ≡ true }
    ensures { IfSome result (IsFailure (Gives (R.opens rt.now) (R.reads rt.now) R.File.remaining R.Reader.remaining) name.now) }
{
    match rt.read_no_byte() {
        Ok(_) => None,
        Err(kind) => Some(failure_of(kind)),
    }
}

/// Why what was opened can't be read. A device keeps no error, so this looks again at what has the name; standard input has none.
pub(crate) fn failure_behind<R: Files>(rt: &R, name: &str) -> ReadFailure
    ensures { IsOfOpened result }
{
    if is_input(name) {
        return ReadFailure::Other;
    }
    match fs::metadata(rt, name) {
        Ok(found) if found.is_dir() => ReadFailure::Folder,
        _ => ReadFailure::Other,
    }
}
