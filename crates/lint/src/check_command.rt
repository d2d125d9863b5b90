//! The command `check`: settings, the reports of a script, and their lines.

ghost use Rattle.std.specs.Prelude.{◌≡◌, ◌≢◌, false, IfErr, IfOk, Some, string_bytes};
ghost use Rattle.std.specs.Str.{IsUtf8};
ghost use Rattle.source_text.specs.declared.fault.Fault.TheVariants.{Usage};
ghost use Rattle.commands.specs.declared.command.Command.TheVariants.{Check};
ghost use Rattle.rules.specs.Run.{found_with};
ghost use Rattle.rules.specs.Toml.{settings_of_text};
ghost use Rattle.lint.specs.ReadScripts.{IsScript};
ghost use Rattle.lint.specs.Asked.{HasExtra, HasScopes};
ghost use Rattle.lint.specs.Reported.{IsExtra, Reports};
ghost use Rattle.lint.specs.Run.{IsSource};
ghost use Rattle.lint.specs.Steps.{AnswersBytes, ReadsLanguage, RefusesChecked, ReadsSettings, IsWritable, RefusesSettingsBy, ReportsLines, lines_in};

use crate::answer::Answer;
use crate::languages::{asked_language, language_of};
use crate::refusals::{no_settings, no_settings_text, refused_at};
use crate::script_reader::read_script;
use commands::{LanguageChoice, Refused, ReportForm, read_up_to};
use language::Language;
use paren_planner::{extra_pairs, wraps_by_pairs};
use parser::Parsed;
use rules::{
    Report, Rule, RuleName, Settings, View, look_at_pairs, look_at_scopes, report_lines,
    report_status, run_rules, span_lines,
};
use scopes::{Scopes, resolve};
use source_text::{Fault, Feed, MAX_BYTES, Source};
use spellings::pair_rows;
use std::alloc::{AllocError, Global};
use tree::{Span, TextArena};

/// The settings that a text gives.
///
/// # Errors
///
/// `BadSettings` where it is too long, isn't UTF-8 or is refused, with line and column where it isn't UTF-8 or no TOML; `OutOfMemory`.
fn settings_of(alloc: Global, bytes: &[u8]) -> Result<Settings, Refused>
    ensures utf8 { IfOk result (λ _. IsUtf8 bytes.now) }
    ensures settings { IfOk result (λ settings. settings_of_text bytes.now ≡ Some settings) }
    ensures refused { IfErr result (RefusesSettingsBy bytes.now) }
{
    let source = match Source::new(bytes) {
        Ok(source) => source,
        Err(fault) => return Err(no_settings_text(bytes, fault)),
    };
    match Settings::from_toml(alloc, source.text()) {
        Ok(settings) => Ok(settings),
        Err(error) => Err(no_settings(&source, error)),
    }
}

/// The settings of the second file, which is read to its end, or to one byte past the longest text.
///
/// # Errors
///
/// `BadSettings` where the text is too long, isn't UTF-8 or is refused; `ReadFailed` and `OutOfMemory`.
pub(crate) fn read_settings<S: Feed>(alloc: Global, second: &mut S) -> Result<Settings, Refused>
    requires ready { S.failed second.old ≡ false }
    ensures { ReadsSettings (S.left second.old) result (S.failed second.new) }
{
    match read_up_to(alloc, second, MAX_BYTES) {
        Ok(bytes) => settings_of(alloc, &bytes),
        Err(fault) => Err(Refused::at_no_place(fault)),
    }
}

/// What a script is checked by.
#[derive(Drop)]
pub(crate) struct Checked {
    pub settings: Settings,
    pub language: Language,
}

/// The settings of the second file, and the language that is asked for and that they leave.
///
/// # Errors
///
/// Those of `read_settings`; `BadSettings` also where settings leave no language that is asked for.
pub(crate) fn read_second<S: Feed>(
    alloc: Global,
    choice: LanguageChoice,
    second: &mut S,
) -> Result<Checked, Refused>
    requires ready { S.failed second.old ≡ false }
    ensures { ReadsLanguage choice (S.left second.old) result (S.failed second.new) }
{
    let settings = match read_settings(alloc, second) {
        Ok(settings) => settings,
        Err(refused) => return Err(refused),
    };
    match language_of(choice, settings.languages()) {
        Some(language) => Ok(Checked { settings, language }),
        None => Err(Refused::at_no_place(Fault::BadSettings)),
    }
}

/// The refusal of a command with settings where there are none: at once where memory was refused, since they may have said the language; else of
/// the script, where it is none in the language that is asked for, or that of the settings.
pub(crate) fn refusal(
    alloc: Global,
    choice: LanguageChoice,
    texts: &TextArena,
    source: &Source<'_>,
    of_settings: Refused,
) -> Refused
    requires source { IsSource source.now }
    ensures { RefusesChecked choice source.now of_settings result }
{
    let language = asked_language(choice);
    match of_settings.fault {
        Fault::OutOfMemory => of_settings,
        _ => match read_script(alloc, texts, source, language) {
            Ok(_) => of_settings,
            Err(fault) => refused_at(alloc, source, language, fault),
        },
    }
}

/// The spans of a script's extra pairs: all its grouping pairs but the innermost of each node that the fixer wraps.
fn extra_spans(alloc: Global, parsed: &Parsed<'_>) -> Result<Vec<Span>, AllocError>
    requires script { IsScript parsed.now.program parsed.now.pairs.items }
    ensures { IfOk result (λ spans. (language text : _) → IsUtf8 text → IsExtra language text parsed.now.program parsed.now.pairs.items spans.items) }
{
    let program = parsed.program();
    let pairs = parsed.grouping_pairs();
    let wraps = wraps_by_pairs(alloc, program, pairs)?;
    let pair_rows = pair_rows(alloc, program, pairs)?;
    let spans = extra_pairs(alloc, &pair_rows, &wraps)?;
    Ok(spans)
}

/// The spans of a script's extra pairs, if a rule that is on may look at them: one of these names, or any other rule.
fn asked_spans(
    alloc: Global,
    names: &[RuleName],
    rules: &[Box<dyn Rule>],
    parsed: &Parsed<'_>,
    settings: &Settings,
) -> Result<Vec<Span>, AllocError>
    requires script { IsScript parsed.now.program parsed.now.pairs.items }
    ensures { IfOk result (λ spans. HasExtra names.now rules.now settings.now parsed.now.program parsed.now.pairs.items spans.items) }
{
    if rules.is_empty() && !look_at_pairs(names, settings) {
        return Ok(Vec::new(alloc));
    }
    extra_spans(alloc, parsed)
}

/// The scopes of a script, if a rule that is on may look at them: one of these names, or any other rule.
fn asked_scopes<'t>(
    alloc: Global,
    names: &[RuleName],
    rules: &[Box<dyn Rule>],
    parsed: &'t Parsed<'_>,
    settings: &Settings,
) -> Result<Option<Scopes<'t>>, AllocError>
    ensures { IfOk result (λ scopes. HasScopes names.now rules.now settings.now parsed.now.program scopes) }
{
    if rules.is_empty() && !look_at_scopes(names, settings) {
        return Ok(None);
    }
    let scopes = resolve(alloc, parsed.program())?;
    Ok(Some(scopes))
}

/// What the rules that are on report of a script, in order.
pub(crate) fn reports(
    alloc: Global,
    names: &[RuleName],
    rules: &[Box<dyn Rule>],
    source: &Source<'_>,
    parsed: &Parsed<'_>,
    settings: &Settings,
) -> Result<Vec<Report>, AllocError>
    requires script { IsScript parsed.now.program parsed.now.pairs.items }
    requires utf8 { IsUtf8 source.now }
    ensures { IfOk result (λ reports. (language : _) → Reports (found_with (λ b. called b) (λ b. finds b) names.now rules.now) language source.now parsed.now.program parsed.now.pairs.items settings.now reports.items) }
{
    let extra = asked_spans(alloc, names, rules, parsed, settings)?;
    let scopes = asked_scopes(alloc, names, rules, parsed, settings)?;
    let view = View::new(
        parsed.program(),
        source.text(),
        scopes.as_ref(),
        &extra,
        settings,
    );
    let reports = run_rules(alloc, names, rules, &view)?;
    Ok(reports)
}

/// The lines of reports under settings, in a form.
fn lines_of(
    alloc: Global,
    form: ReportForm,
    settings: &Settings,
    source: &Source<'_>,
    reports: &[Report],
) -> Result<String, AllocError>
    ensures { IfOk result (λ lines. string_bytes lines ≡ lines_in form settings.now source.now reports.now) }
{
    match form {
        ReportForm::Places => report_lines(alloc, settings, source, reports),
        ReportForm::Spans => span_lines(alloc, reports),
    }
}

/// The lines of a script's reports in a form, and the status: 1 where there is a report that is no warning, else 0.
pub(crate) fn report<'s>(
    alloc: Global,
    form: ReportForm,
    names: &[RuleName],
    rules: &[Box<dyn Rule>],
    source: &Source<'_>,
    parsed: &Parsed<'_>,
    settings: &Settings,
) -> Result<Answer<'s>, AllocError>
    requires script { IsScript parsed.now.program parsed.now.pairs.items }
    requires utf8 { IsUtf8 source.now }
    ensures lines { IfOk result (λ answer. (language : _) → ReportsLines (found_with (λ b. called b) (λ b. finds b) names.now rules.now) form language source.now parsed.now.program parsed.now.pairs.items settings.now answer) }
    ensures writable { IfOk result IsWritable }
{
    let reports = reports(alloc, names, rules, source, parsed, settings)?;
    let lines = lines_of(alloc, form, settings, source, &reports)?;
    Ok(Answer::Text(lines, report_status(settings, &reports)))
}

/// What `check` answers: the lines of the reports in a form, under the settings of the second file, which is read to its end, or to one
/// byte past the longest text; status 1 where there is a report that is no warning. The script is read in the language that is asked for and that the settings
/// leave.
///
/// # Errors
///
/// What `read_script` refuses; `BadSettings` where the settings are too long, aren't UTF-8, are refused, or leave no language that is asked
/// for, with line and column where they aren't UTF-8 or no TOML; `ReadFailed` where the reader fails; `OutOfMemory`. Where the settings
/// can't be read or are refused, a text that is no script in the language that is asked for is refused as such.
pub(crate) fn check<'s, S: Feed>(
    alloc: Global,
    form: ReportForm,
    choice: LanguageChoice,
    names: &[RuleName],
    rules: &[Box<dyn Rule>],
    texts: &TextArena,
    source: &Source<'_>,
    second: &mut S,
) -> Result<Answer<'s>, Refused>
    requires source { IsSource source.now }
    requires ready { S.failed second.old ≡ false }
    ensures answer { AnswersBytes (found_with (λ b. called b) (λ b. finds b) names.now rules.now) (Check form) choice source.now (S.left second.old) result (S.failed second.new) }
    ensures writable { IfOk result IsWritable }
    ensures told { IfErr result (λ refused. refused.fault ≢ Usage) }
{
    let Checked { settings, language } = match read_second(alloc, choice, second) {
        Ok(checked) => checked,
        Err(refused) => return Err(refusal(alloc, choice, texts, source, refused)),
    };
    let parsed = match read_script(alloc, texts, source, language) {
        Ok(parsed) => parsed,
        Err(fault) => return Err(refused_at(alloc, source, language, fault)),
    };
    match report(alloc, form, names, rules, source, &parsed, &settings) {
        Ok(answer) => Ok(answer),
        Err(AllocError) => Err(Refused::at_no_place(Fault::OutOfMemory)),
    }
}
