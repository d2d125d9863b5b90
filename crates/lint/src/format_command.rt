//! The command `format`: a script in lines of a width, or whether it is so already.

ghost use Rattle.std.specs.Prelude.{◌≡◌, ◌≤◌, length, IfErr, IfOk, string_bytes};
ghost use Rattle.commands.specs.declared.command.Command.TheVariants.{Format};
ghost use Rattle.lint.specs.ReadScripts.{IsReading};
ghost use Rattle.lint.specs.Formats.{FormatsBy, RefusesFormat, WritesFormatted, style_of};
ghost use Rattle.lint.specs.Steps.{AnswersAlone, IsWritable, output_of, status_of};

use crate::answer::Answer;
use crate::format::{FormatTerms, format_fewest, format_parsed};
use commands::{CommaChoice, FormatChoice};
use formatting::{LastCommas, Options};
use language::Language;
use layout_items::Style;
use parser::Parsed;
use source_text::{Fault, Source};
use std::alloc::Global;

/// The style that a choice asks for.
fn style_of(choice: FormatChoice) -> Style
    ensures { result ≡ style_of choice }
{
    Style {
        width: choice.width,
        indent: choice.indent,
        tabs: choice.tabs,
    }
}

/// What a choice asks for beside the style.
fn options_of(choice: FormatChoice) -> Options {
    let last_commas = match choice.commas {
        CommaChoice::Nowhere => LastCommas::Nowhere,
        CommaChoice::Lists => LastCommas::Lists,
        CommaChoice::Everywhere => LastCommas::Everywhere,
    };
    Options {
        last_commas,
        bare_arrows: choice.bare_arrows,
    }
}

/// The formatted text of a script as a choice says.
///
/// # Errors
///
/// `OutOfMemory`, `TooLong` and `FormatFailed`, as `format_text`; where the text is to have the fewest pairs `TooLong` and `UnwrapFailed`
/// too, as `unwrap_text`.
fn format_by(
    alloc: Global,
    source: &Source<'_>,
    parsed: &Parsed<'_>,
    language: Language,
    choice: FormatChoice,
) -> Result<String, Fault>
    requires reading { IsReading language source.now parsed.now.program parsed.now.pairs.items }
    requires small { length source.now ≤ 16777216 }
    ensures formatted { IfOk result (λ text. FormatsBy choice language source.now (string_bytes text)) }
    ensures refused { IfErr result (RefusesFormat choice.fewest source.now parsed.now.program parsed.now.pairs.items) }
{
    let terms = FormatTerms {
        language,
        style: style_of(choice),
        options: options_of(choice),
    };
    match choice.fewest {
        true => format_fewest(alloc, source, parsed, terms),
        false => format_parsed(alloc, source, parsed, terms),
    }
}

/// A formatted text to be written, or, where it is asked for, whether the script is formatted.
fn told<'s>(alloc: Global, source: &Source<'_>, text: String, choice: FormatChoice) -> Answer<'s>
    ensures told { WritesFormatted choice.check source.now (string_bytes text) (output_of result) (status_of result) }
    ensures writable { IsWritable result }
{
    if !choice.check {
        return Answer::Text(text, 0);
    }
    match text.as_bytes() == source.bytes() {
        true => Answer::Text(String::new(alloc), 0),
        false => Answer::Text(String::new(alloc), 1),
    }
}

/// What `format` answers: the formatted text, or whether the script is formatted.
///
/// # Errors
///
/// Those of `format_by`.
pub(crate) fn format<'s>(
    alloc: Global,
    source: &Source<'_>,
    parsed: &Parsed<'_>,
    language: Language,
    choice: FormatChoice,
) -> Result<Answer<'s>, Fault>
    requires reading { IsReading language source.now parsed.now.program parsed.now.pairs.items }
    requires small { length source.now ≤ 16777216 }
    ensures answer { AnswersAlone language (Format choice) source.now parsed.now.program parsed.now.pairs.items result }
    ensures writable { IfOk result IsWritable }
{
    match format_by(alloc, source, parsed, language, choice) {
        Ok(text) => Ok(told(alloc, source, text, choice)),
        Err(fault) => Err(fault),
    }
}
