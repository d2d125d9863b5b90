//! Refusals of texts, with the line and the column of their places and their hints.

ghost use Rattle.std.specs.Prelude.{◌≡◌, ◌≤◌, false, length};
ghost use Rattle.std.specs.Str.{IsUtf8};
ghost use Rattle.source_text.specs.Lines.{line_column};
ghost use Rattle.source_text.specs.Source.{IsRefusal};
ghost use Rattle.commands.specs.Refused.{HasPlace, place_of};
ghost use Rattle.commands.specs.declared.hint.Hint.TheVariants.{Nothing};
ghost use Rattle.rules.specs.Refusals.{RefusesToml};
ghost use Rattle.lint.specs.Hints.{IsHint};
ghost use Rattle.lint.specs.Steps.{IsOfOther, IsSettingsRefusal, RefusesSettingsBy};

use crate::hints::later_hint;
use commands::{Hint, Refused};
use language::Language;
use rules::SettingsError;
use source_text::{Fault, MAX_BYTES, Source};
use std::alloc::Global;

/// A refusal of a text that was read in a language, with the line and the column of its place and its hint.
pub(crate) fn refused_at(
    alloc: Global,
    source: &Source<'_>,
    language: Language,
    fault: Fault,
) -> Refused
    requires { HasPlace source.now fault }
    ensures fault { result.fault ≡ fault }
    ensures first { result.in_second ≡ false }
    ensures place { (result.line, result.column) ≡ place_of source.now fault }
    ensures hint { IsHint language source.now fault result.hint }
{
    match fault {
        Fault::Syntax(at) | Fault::Early(_, at) => {
            let (line, column) = source.line_column(at);
            let hint = later_hint(alloc, source, language);
            Refused {
                fault,
                in_second: false,
                line,
                column,
                hint,
            }
        }
        _ => Refused::at_no_place(fault),
    }
}

/// A refusal as one of the second script; that memory is refused speaks of none.
pub(crate) fn of_second(refused: Refused) -> Refused
    ensures { IsOfOther refused result }
{
    match refused.fault {
        Fault::OutOfMemory => Refused::at_no_place(Fault::OutOfMemory),
        _ => Refused {
            in_second: true,
            ..refused
        },
    }
}

/// The refusal of settings at a line and a column.
fn bad_settings_at(place: (u32, u32)) -> Refused
    ensures { result ≡ record { fault = Fault.BadSettings; in_second = false; line = place.0; column = place.1; hint = Nothing } }
{
    let (line, column) = place;
    Refused {
        fault: Fault::BadSettings,
        in_second: false,
        line,
        column,
        hint: Hint::Nothing,
    }
}

/// The line and the column behind the last character of a text.
fn end_of(bytes: &[u8]) -> (u32, u32)
    requires utf8 { IsUtf8 bytes.now }
    requires short { length bytes.now ≤ MAX_BYTES }
    ensures { result ≡ line_column bytes.now (length bytes.now) }
{
    match Source::new(bytes) {
        Ok(source) => source.line_column(source.len()),
        Err(_) => unreachable!(),
    }
}

/// The refusal of settings whose bytes are no source text: at the first that begins no UTF-8 sequence, or, of too many bytes, at no place.
pub(crate) fn no_settings_text(bytes: &[u8], fault: Fault) -> Refused
    requires { IsRefusal bytes.now fault }
    ensures { IsSettingsRefusal bytes.now result }
{
    match fault {
        Fault::NotUtf8(at) => bad_settings_at(end_of(&bytes[..at])),
        _ => Refused::at_no_place(Fault::BadSettings),
    }
}

/// The refusal of a text that gives no settings: where it is no TOML, at the place of the error, else at no place.
pub(crate) fn no_settings(source: &Source<'_>, error: SettingsError) -> Refused
    requires utf8 { IsUtf8 source.now }
    requires refused { RefusesToml source.now error }
    ensures { RefusesSettingsBy source.now result }
{
    match error {
        SettingsError::NotToml(at) => bad_settings_at(source.line_column(at)),
        SettingsError::TooLong | SettingsError::Unfit(_) => {
            Refused::at_no_place(Fault::BadSettings)
        }
        SettingsError::Memory => Refused::at_no_place(Fault::OutOfMemory),
    }
}
