//! The words of the command line.

ghost use Rattle.std.specs.Prelude.{◌≡◌, IfErr, IfOk, IfSome, IsOkAnd, Some, [], false, map, true};
ghost use Rattle.clap.specs.Words.{FailsBy, app_of, fault_of, first_of, kind_of, rows_of, found_of, rule_of, subcommand_of, subcommand_rows_of, takes, with_subcommand};
ghost use Rattle.clap.specs.declared.builder.command.Command.TheViews.{out-Command};
ghost use Rattle.commands.specs.Commands.{default_format, word_of};
ghost use Rattle.commands.specs.declared.command.Command.TheVariants.{Check, Format, Mend, Same, Verify};
ghost use Rattle.commands.specs.declared.command.ReportForm.TheVariants.{Places};
ghost use Rattle.command_line.specs.CommandLine.{Chooses, MeetsCommand, ReadsAlike, bare_app, command_app, file_app, flag_rule, form_of, format_of, is_set, jslint_app, lone_file_app, measured_app, number_of, number_rule, plain, punctuated_app, reporting_app, said_app, settings_rule};
ghost use Rattle.command_line.specs.AskedLanguage.{commas_or_all};

use crate::asked_language::commas_or_all;
use crate::help;
use clap::builder::ValueParser;
use clap::error::ErrorKind;
use clap::{Arg, ArgAction, ArgMatches, Error};
use commands::{Command, FormatChoice, ReportForm};
use std::alloc::{AllocError, Global};

/// What a command line asks for.
#[derive(Clone, Copy, Debug, PartialEq, Eq)]
pub struct Line<'a> {
    pub command: Command,
    /// The script.
    pub file: &'a str,
    /// The settings of `check` and `mend`, where they are given, the table of `verify`, and the other script of `same`. No other command has a
    /// second file.
    pub second: Option<&'a str>,
    /// What stands behind `--edition`, where it is given.
    pub edition: Option<&'a str>,
    /// Whether `--module` is given.
    pub is_module: bool,
    /// Whether `--any` is given.
    pub is_any: bool,
    /// Whether `--list` is given: then the file is a list of names. Only `check` has it.
    pub is_list: bool,
    /// What stands behind `--commas`, where it is given. Only `format` has it.
    pub commas: Option<&'a str>,
}

/// A command by its word, with its FILE alone.
fn lone_file_command<'a>(
    alloc: Global,
    word: &'a str,
    about: &'a str,
) -> Result<clap::Command<'a>, AllocError>
    ensures shape { IfOk result (λ c. app_of c ≡ lone_file_app word.now) }
    ensures local { IfOk result (λ c. (out-Command c).has_globals ≡ false) }
{
    let file = Arg::new(alloc, "file")
        .required(true)
        .value_name("FILE")
        .help(help::FILE);
    clap::Command::new(alloc, word).about(about).arg(file)
}

/// A command by its word, with its FILE, and with the words that say one language.
fn said_command<'a>(
    alloc: Global,
    word: &'a str,
    about: &'a str,
) -> Result<clap::Command<'a>, AllocError>
    ensures shape { IfOk result (λ c. app_of c ≡ said_app word.now) }
    ensures local { IfOk result (λ c. (out-Command c).has_globals ≡ false) }
{
    let edition = Arg::new(alloc, "edition")
        .long("edition")
        .value_name("YEAR")
        .help(help::EDITION);
    let module = Arg::new(alloc, "module")
        .long("module")
        .action(ArgAction::SetTrue)
        .help(help::MODULE);
    lone_file_command(alloc, word, about)?
        .arg(edition)?
        .arg(module)
}

/// A command by its word, with its FILE and the language of scripts.
fn file_command<'a>(
    alloc: Global,
    word: &'a str,
    about: &'a str,
) -> Result<clap::Command<'a>, AllocError>
    ensures shape { IfOk result (λ c. app_of c ≡ file_app word.now) }
    ensures local { IfOk result (λ c. (out-Command c).has_globals ≡ false) }
{
    let any = flag(alloc, "any", help::ANY);
    said_command(alloc, word, about)?.arg(any)
}

/// A command by its word, with its FILE, and a note below its help.
fn noted_command<'a>(
    alloc: Global,
    word: &'a str,
    about: &'a str,
    note: &'a str,
) -> Result<clap::Command<'a>, AllocError>
    ensures shape { IfOk result (λ c. app_of c ≡ file_app word.now) }
    ensures local { IfOk result (λ c. (out-Command c).has_globals ≡ false) }
{
    match file_command(alloc, word, about) {
        Ok(command) => Ok(command.after_help(note)),
        Err(error) => Err(error),
    }
}

/// The option that names settings.
fn settings_option<'a>(alloc: Global) -> Arg<'a>
    ensures rule { rule_of result ≡ settings_rule }
    ensures local { result.global ≡ false }
{
    Arg::new(alloc, "settings")
        .long("settings")
        .value_name("FILE")
        .help(help::SETTINGS)
}

/// `check`, with its settings and the form of its reports.
fn reporting_command<'a>(alloc: Global) -> Result<clap::Command<'a>, AllocError>
    ensures shape { IfOk result (λ c. app_of c ≡ reporting_app) }
    ensures local { IfOk result (λ c. (out-Command c).has_globals ≡ false) }
{
    let spans = Arg::new(alloc, "spans")
        .long("spans")
        .action(ArgAction::SetTrue)
        .help(help::SPANS);
    file_command(alloc, "check", help::CHECK)?
        .arg(settings_option(alloc))?
        .arg(spans)
}

/// `check`, with all that it takes.
fn check_command<'a>(alloc: Global) -> Result<clap::Command<'a>, AllocError>
    ensures shape { IfOk result (λ c. app_of c ≡ command_app (Check Places)) }
    ensures local { IfOk result (λ c. (out-Command c).has_globals ≡ false) }
{
    let list = Arg::new(alloc, "list")
        .long("list")
        .action(ArgAction::SetTrue)
        .help(help::LIST);
    reporting_command(alloc)?.arg(list)
}

/// `mend`, with its settings.
fn mend_command<'a>(alloc: Global) -> Result<clap::Command<'a>, AllocError>
    ensures shape { IfOk result (λ c. app_of c ≡ command_app Mend) }
    ensures local { IfOk result (λ c. (out-Command c).has_globals ≡ false) }
{
    noted_command(alloc, "mend", help::MEND, help::MEND_NOTE)?.arg(settings_option(alloc))
}

/// An option with a number in a range.
fn number_option<'a>(alloc: Global, id: &'a str, least: u64, most: u64, about: &'a str) -> Arg<'a>
    ensures rule { rule_of result ≡ number_rule id.now least most }
    ensures local { result.global ≡ false }
{
    Arg::new(alloc, id)
        .long(id)
        .value_name("N")
        .value_parser(ValueParser::unsigned(least, most))
        .help(about)
}

/// `format`, with the measures of its lines.
fn measured_command<'a>(alloc: Global) -> Result<clap::Command<'a>, AllocError>
    ensures shape { IfOk result (λ c. app_of c ≡ measured_app) }
    ensures local { IfOk result (λ c. (out-Command c).has_globals ≡ false) }
{
    let width = number_option(alloc, "width", 40, 200, help::WIDTH);
    let indent = number_option(alloc, "indent", 1, 8, help::INDENT);
    noted_command(alloc, "format", help::FORMAT, help::FORMAT_NOTE)?
        .arg(width)?
        .arg(indent)
}

/// A flag.
fn flag<'a>(alloc: Global, id: &'a str, about: &'a str) -> Arg<'a>
    ensures rule { rule_of result ≡ flag_rule id.now }
    ensures local { result.global ≡ false }
{
    Arg::new(alloc, id)
        .long(id)
        .action(ArgAction::SetTrue)
        .help(about)
}

/// `format`, with what its lines are made of.
fn punctuated_command<'a>(alloc: Global) -> Result<clap::Command<'a>, AllocError>
    ensures shape { IfOk result (λ c. app_of c ≡ punctuated_app) }
    ensures local { IfOk result (λ c. (out-Command c).has_globals ≡ false) }
{
    let commas = Arg::new(alloc, "commas")
        .long("commas")
        .value_name("WHERE")
        .help(help::COMMAS);
    measured_command(alloc)?
        .arg(flag(alloc, "tabs", help::TABS))?
        .arg(commas)?
        .arg(flag(alloc, "bare-arrows", help::BARE_ARROWS))
}

/// `format`, with all that it takes.
fn format_command<'a>(alloc: Global) -> Result<clap::Command<'a>, AllocError>
    ensures shape { IfOk result (λ c. app_of c ≡ command_app (Format default_format)) }
    ensures local { IfOk result (λ c. (out-Command c).has_globals ≡ false) }
{
    punctuated_command(alloc)?
        .arg(flag(alloc, "fewest", help::FEWEST))?
        .arg(flag(alloc, "check", help::CHECKED))
}

/// `verify`, with its TABLE.
fn verify_command<'a>(alloc: Global) -> Result<clap::Command<'a>, AllocError>
    ensures shape { IfOk result (λ c. app_of c ≡ command_app Verify) }
    ensures local { IfOk result (λ c. (out-Command c).has_globals ≡ false) }
{
    let table = Arg::new(alloc, "table")
        .required(true)
        .value_name("TABLE")
        .help(help::TABLE);
    file_command(alloc, "verify", help::VERIFY)?.arg(table)
}

/// `same`, with its OTHER.
fn same_command<'a>(alloc: Global) -> Result<clap::Command<'a>, AllocError>
    ensures shape { IfOk result (λ c. app_of c ≡ command_app Same) }
    ensures local { IfOk result (λ c. (out-Command c).has_globals ≡ false) }
{
    let other = Arg::new(alloc, "other")
        .required(true)
        .value_name("OTHER")
        .help(help::OTHER);
    file_command(alloc, "same", help::SAME)?.arg(other)
}

/// This command with one more below it, if there is one.
fn with_command<'a>(
    command: clap::Command<'a>,
    added: Result<clap::Command<'a>, AllocError>,
) -> Result<clap::Command<'a>, AllocError>
    requires { IfOk added (λ c. (out-Command c).has_globals ≡ false) }
    ensures { IfOk result (λ c. IsOkAnd added.entry (λ a. app_of c ≡ with_subcommand (app_of command.entry) (app_of a).top)) }
{
    match added {
        Ok(added) => command.subcommand(added),
        Err(error) => {
            // By a call: with `?` the proof has a step for each part that the command owns.
            drop(command);
            Err(error)
        }
    }
}

/// `jslint`, without its commands.
fn bare_command<'a>(alloc: Global) -> clap::Command<'a>
    ensures { app_of result ≡ bare_app }
{
    clap::Command::new(alloc, "jslint")
        .version(help::VERSION)
        .about(help::ABOUT)
        .after_help(help::AFTER)
        .subcommand_required(true)
        .arg_required_else_help(true)
}

/// One command, with its arguments.
fn command_of_jslint<'a>(alloc: Global, command: Command) -> Result<clap::Command<'a>, AllocError>
    ensures shape { IfOk result (λ c. app_of c ≡ command_app command) }
    ensures local { IfOk result (λ c. (out-Command c).has_globals ≡ false) }
{
    match command {
        Command::Check(_) => check_command(alloc),
        Command::Tree => file_command(alloc, "tree", help::TREE),
        Command::Fix => noted_command(alloc, "fix", help::FIX, help::FIX_NOTE),
        Command::Unwrap => noted_command(alloc, "unwrap", help::UNWRAP, help::UNWRAP_NOTE),
        Command::Mend => mend_command(alloc),
        Command::Format(_) => format_command(alloc),
        Command::Cost => file_command(alloc, "cost", help::COST),
        Command::Verify => verify_command(alloc),
        Command::Same => same_command(alloc),
    }
}

/// The whole command line.
pub(crate) fn jslint_command<'a>(alloc: Global) -> Result<clap::Command<'a>, AllocError>
    ensures shape { IfOk result (λ c. app_of c ≡ jslint_app) }
{
    let jslint = with_command(
        bare_command(alloc),
        command_of_jslint(alloc, Command::Check(ReportForm::Places)),
    )?;
    let jslint = with_command(jslint, command_of_jslint(alloc, Command::Tree))?;
    let jslint = with_command(jslint, command_of_jslint(alloc, Command::Fix))?;
    let jslint = with_command(jslint, command_of_jslint(alloc, Command::Unwrap))?;
    let jslint = with_command(jslint, command_of_jslint(alloc, Command::Mend))?;
    let jslint = with_command(
        jslint,
        command_of_jslint(alloc, Command::Format(FormatChoice::DEFAULT)),
    )?;
    let jslint = with_command(jslint, command_of_jslint(alloc, Command::Cost))?;
    let jslint = with_command(jslint, command_of_jslint(alloc, Command::Verify))?;
    with_command(jslint, command_of_jslint(alloc, Command::Same))
}

/// The command line with the one command that the words begin with, behind the program's name; with all of them where they begin with
/// none. It reads these words as the whole one does, and is made in a fraction of the time.
fn asked_command<'a>(alloc: Global, words: &[&str]) -> Result<clap::Command<'a>, AllocError>
    ensures { IfOk result (λ c. ReadsAlike (app_of c) (map (λ w. w.now) words.now)) }
{
    let Some(word) = words.get(1) else {
        return jslint_command(alloc);
    };
    let Some(command) = command_of(word) else {
        return jslint_command(alloc);
    };
    with_command(bare_command(alloc), command_of_jslint(alloc, command))
}

/// The command of this word, if there is one: `check` with places, `format` as where no more is said.
fn command_of(word: &str) -> Option<Command>
    ensures named { IfSome result (λ command. word_of command ≡ word.now) }
    ensures found { (command : _) → word_of command ≡ word.now → result ≡ Some (plain command) }
{
    for command in Command::ALL {
        if command.word() == word {
            return Some(command);
        }
    }
    None
}

/// Whether a flag was given.
fn is_set(met: &ArgMatches<'_>, flag: &str) -> bool
    ensures { result ≡ is_set flag.now (rows_of (found_of met.now)) }
{
    let Some(value) = met.get_str(flag) else {
        return false;
    };
    value == "true"
}

/// The form of what `check` is to write.
fn form_met(met: &ArgMatches<'_>) -> ReportForm
    ensures { result ≡ form_of (rows_of (found_of met.now)) }
{
    if is_set(met, "spans") {
        return ReportForm::Spans;
    }
    ReportForm::Places
}

/// The number behind an option, or the one that stands for none.
fn number_met(met: &ArgMatches<'_>, id: &str, default: u8) -> u8
    ensures { result ≡ number_of default (first_of id.now (rows_of (found_of met.now))) }
{
    let Some(text) = met.get_str(id) else {
        return default;
    };
    match text.parse::<u8>() {
        Ok(number) => number,
        Err(_) => default,
    }
}

/// How `format` is to write.
fn format_met(met: &ArgMatches<'_>) -> FormatChoice
    ensures { result ≡ format_of (rows_of (found_of met.now)) }
{
    FormatChoice {
        width: u16::from(number_met(met, "width", 80)),
        indent: number_met(met, "indent", 2),
        tabs: is_set(met, "tabs"),
        commas: commas_or_all(met.get_str("commas")),
        bare_arrows: is_set(met, "bare-arrows"),
        fewest: is_set(met, "fewest"),
        check: is_set(met, "check"),
    }
}

/// The command that was met, in the form that was asked for, with its files.
fn line_of<'a>(matches: &ArgMatches<'a>) -> Line<'a>
    requires { MeetsCommand (subcommand_rows_of matches.now) }
    ensures { Chooses (subcommand_rows_of matches.now) result }
{
    let (word, met) = matches.subcommand().unwrap();
    let plain = command_of(word).unwrap();
    let file = met.get_str("file").unwrap();
    let (command, second) = match plain {
        Command::Check(_) => (Command::Check(form_met(met)), met.get_str("settings")),
        Command::Mend => (plain, met.get_str("settings")),
        Command::Verify => (plain, met.get_str("table")),
        Command::Same => (plain, met.get_str("other")),
        Command::Format(_) => (Command::Format(format_met(met)), None),
        Command::Tree | Command::Fix | Command::Unwrap | Command::Cost => (plain, None),
    };
    let edition = met.get_str("edition");
    let is_module = is_set(met, "module");
    let is_any = is_set(met, "any");
    let is_list = is_set(met, "list");
    let commas = met.get_str("commas");
    Line {
        command,
        file,
        second,
        edition,
        is_module,
        is_any,
        is_list,
        commas,
    }
}

/// Reads all words of a command line, the program's name first. Words in which clap finds no fault name a command and its files.
///
/// # Errors
///
/// Help or the version that was asked for, a command line that is not understood, or no memory: `kind()` says which, and the
/// error's text is for the user. Words in which clap finds no fault fail only for want of memory.
pub fn command_line<'a>(alloc: Global, words: &'a [&'a str]) -> Result<Line<'a>, Error>
    ensures ok { IfOk result (λ line. Chooses (subcommand_of jslint_app (map (λ w. w.now) words.entry.now)) line) }
    ensures kinds { FailsBy (fault_of jslint_app (map (λ w. w.now) words.entry.now)) result }
    ensures meets { fault_of jslint_app (map (λ w. w.now) words.entry.now) ≡ [] → MeetsCommand (subcommand_of jslint_app (map (λ w. w.now) words.entry.now)) }
    ensures passes { IfErr result (λ e. takes jslint_app (map (λ w. w.now) words.entry.now) ≡ true → kind_of e ≡ ErrorKind.OutOfMemory) }
{
    let jslint = asked_command(alloc, words)?;
    let matches = jslint.try_get_matches_from(words)?;
    Ok(line_of(&matches))
}
