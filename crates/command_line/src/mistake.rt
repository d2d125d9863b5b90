//! What is said in place of a command.

ghost use Rattle.std.specs.Prelude.{◌≡◌, ◌≢◌, ◌++◌, IfOk, List, false, map, string_bytes, true, ℕ};
ghost use Rattle.clap.specs.Words.{kind_of};
ghost use Rattle.command_line.specs.CommandLine.{is_asked_for, not_utf8_line};
ghost use Rattle.command_line.specs.Shown.{AreOnOneLine, on_one_line};
ghost use Rattle.command_line.specs.Tip.{WritesMistake, is_plain, looks_like_file, tip_for, tip_of};
ghost use Rattle.source_text.specs.declared.fault.Fault.TheVariants.{OutOfMemory, WriteFailed};
ghost use Rattle.commands.specs.Refusal.{WritesLine, refusal_line};
ghost use Rattle.commands.specs.Refused.{at_no_place};

use crate::escaped::write_escaped;
use crate::line::jslint_command;
use crate::shown::{is_hidden, text_on_one_line};
use clap::error::ErrorKind;
use commands::{Refused, write_refusal};
use source_text::{Fault, Sink, write_text};
use std::alloc::{AllocError, Global};

/// The line for a word that isn't UTF-8.
const NOT_UTF8: &[u8] = b"jslint: the command line is not UTF-8\n";

/// The words, each on one line.
fn words_on_one_line(alloc: Global, words: &[&str]) -> Result<Vec<String>, AllocError>
    ensures { IfOk result (λ lines. map (λ s. string_bytes s) lines.items ≡ map (λ w. on_one_line w.now) words.now) }
{
    let mut lines = Vec::new(alloc);
    for word in words {
        lines.push(text_on_one_line(alloc, word)?)?;
    }
    Ok(lines)
}

/// What `clap` says of words without line feeds, where it refuses them for this reason.
fn refusal_text(
    alloc: Global,
    words: &[String],
    kind: ErrorKind,
) -> Result<Option<String>, AllocError>
    requires { AreOnOneLine (map (λ s. string_bytes s) words.now) }
{
    match jslint_command(alloc)?.try_get_matches_from(words) {
        Ok(_matches) => Ok(None),
        Err(error) => {
            if error.kind() != kind {
                return Ok(None);
            }
            Ok(Some(error.to_string(alloc)?))
        }
    }
}

/// What `clap` says, on one line.
fn text_in_one_line(alloc: Global, error: &clap::Error) -> Result<String, AllocError> {
    let text = error.to_string(alloc)?;
    let mut line = text_on_one_line(alloc, &text)?;
    line.push('\n')?;
    Ok(line)
}

/// Whether a shell takes the character as it is: a letter or a digit, `-`, `.`, `/`, `_`, or one beyond ASCII that is seen.
fn is_unquoted(c: char) -> bool
    ensures { result ≡ is_plain c }
{
    c.is_ascii_alphanumeric()
        || matches!(c, '-' | '.' | '/' | '_')
        || (c >= '\u{80}' && !is_hidden(c))
}

/// Whether a word is plain and has a `.` or a `/`, as names of files have and no command.
fn looks_like_file(word: &str) -> bool
    ensures { result ≡ looks_like_file word.now }
{
    word.chars().all(is_unquoted) && word.chars().any(|c| c == '.' || c == '/')
}

/// Adds the line that says what to type, where the word looks like a file.
fn push_tip_for(text: &mut String, word: &str) -> Result<(), AllocError>
    ensures { IfOk result (λ _. string_bytes text.new ≡ string_bytes text.old ++ tip_for word.now) }
{
    if !looks_like_file(word) {
        return Ok(());
    }
    text.push_str("\n  tip: jslint check ")?;
    text.push_str(word)?;
    text.push('\n')
}

/// Adds that line where the word behind the program's name stands in a command's place and is none.
fn push_tip(text: &mut String, words: &[&str], kind: ErrorKind) -> Result<(), AllocError>
    ensures { IfOk result (λ _. string_bytes text.new ≡ string_bytes text.old ++ tip_of kind (map (λ w. w.now) words.now)) }
{
    match kind {
        ErrorKind::InvalidSubcommand => match words.get(1) {
            Some(word) => push_tip_for(text, word),
            None => Ok(()),
        },
        _ => Ok(()),
    }
}

/// What `clap` says of words that it refuses, with a tip behind it where there is one. It repeats words of the user, so it is asked again
/// with each line feed in them escaped: then those in its text are its own. Where it has another answer for these, its first text stands
/// on one line.
fn message(alloc: Global, words: &[&str], error: &clap::Error) -> Result<String, AllocError>
    ensures { IfOk result (λ s. (said : List ℕ) × (string_bytes s ≡ said ++ tip_of (kind_of error.now) (map (λ w. w.now) words.now))) }
{
    let lines = words_on_one_line(alloc, words)?;
    let mut text = match refusal_text(alloc, &lines, error.kind())? {
        Some(text) => text,
        None => text_in_one_line(alloc, error)?,
    };
    push_tip(&mut text, words, error.kind())?;
    Ok(text)
}

/// Writes what `clap` says of a mistake, or that memory was refused for it. Answers the exit status.
fn write_mistake<W: Sink>(alloc: Global, words: &[&str], error: &clap::Error, errors: &mut W) -> u8
    requires { W.failed errors.old ≡ false }
    ensures status { result ≡ 2 }
    ensures said { WritesMistake (tip_of (kind_of error.now) (map (λ w. w.now) words.now)) (W.taken errors.old) (W.taken errors.new) (W.failed errors.new) }
{
    match message(alloc, words, error) {
        Ok(text) => {
            let _ = write_escaped(&text, errors);
            2
        }
        Err(_) => write_refusal(&Refused::at_no_place(Fault::OutOfMemory), errors),
    }
}

/// Says that a word of the command line isn't UTF-8. Answers the exit status.
pub fn explain_not_utf8<W: Sink>(errors: &mut W) -> u8
    requires { W.failed errors.old ≡ false }
    ensures status { result ≡ 2 }
    ensures line { WritesLine not_utf8_line (W.taken errors.old) (W.taken errors.new) (W.failed errors.new) }
{
    let _ = write_text(NOT_UTF8, errors);
    2
}

/// Shows what `clap` says in place of a command: help or the version on the standard output, where it was asked for, else what is
/// wrong with the words, or help where there are none, in `errors`, each character that a terminal may obey escaped but line feeds,
/// which are those of `clap` and of a tip: what to type, behind the text, where a file's name stands in a command's place. Answers the
/// exit status: 0 where what was asked for was shown, else 2. `errors` gets a line of ours where memory was refused, or what was asked
/// for wasn't shown.
pub fn explain<R: AllocGlobal + Print + Eprint, W: Sink>(
    rt: &R,
    words: &[&str],
    error: &clap::Error,
    errors: &mut W,
) -> u8
    requires { W.failed errors.old ≡ false }
    ensures mistake { is_asked_for (kind_of error.now) ≡ false → result ≡ 2 }
    ensures memory { kind_of error.now ≡ ErrorKind.OutOfMemory →
        WritesLine (refusal_line (at_no_place OutOfMemory)) (W.taken errors.old) (W.taken errors.new) (W.failed errors.new) }
    ensures said { is_asked_for (kind_of error.now) ≡ false →
        WritesMistake (tip_of (kind_of error.now) (map (λ w. w.now) words.now)) (W.taken errors.old) (W.taken errors.new) (W.failed errors.new) }
    ensures shown { result ≡ 0 → W.taken errors.new ≡ W.taken errors.old }
    ensures lost { is_asked_for (kind_of error.now) ≡ true → result ≢ 0 →
        WritesLine (refusal_line (at_no_place WriteFailed)) (W.taken errors.old) (W.taken errors.new) (W.failed errors.new) }
    ensures status { result ≢ 0 → result ≡ 2 }
{
    if error.kind() == ErrorKind::OutOfMemory {
        return write_refusal(&Refused::at_no_place(Fault::OutOfMemory), errors);
    }
    if error.use_stderr() {
        return write_mistake(rt.alloc(), words, error, errors);
    }
    match error.print(rt) {
        Ok(()) => 0,
        Err(_) => write_refusal(&Refused::at_no_place(Fault::WriteFailed), errors),
    }
}
