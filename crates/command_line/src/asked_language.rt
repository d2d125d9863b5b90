//! The language and the commas that a line asks for, and what is said where it asks for none.

ghost use Rattle.std.specs.Prelude.{◌≡◌, false, option_map};
ghost use Rattle.commands.specs.Refusal.{WritesLine};
ghost use Rattle.command_line.specs.AskedLanguage.{any_beside, asked_by, commas_named, commas_of, commas_or_all, edition_named, edition_of, language_of, mistake_line, module_of};

use crate::line::Line;
use commands::{AskedLanguage, CommaChoice, LanguageChoice};
use source_text::{Sink, write_text};

/// Why the options of a line can't be taken.
#[derive(Clone, Copy, Debug, PartialEq, Eq)]
pub enum OptionMistake {
    /// Behind `--edition` stands neither 2020 nor 2022.
    Edition,
    /// `--module` stands beside `--edition 2020`, in which there are no modules.
    Module,
    /// `--any` stands beside `--edition` or `--module`, which say one language.
    Any,
    /// Behind `--commas` stands neither none, lists nor all.
    Commas,
}

/// Where lists have last commas, by its name, if it is one.
fn commas_named(name: &str) -> Option<CommaChoice>
    ensures { result ≡ commas_named name.now }
{
    match name {
        "none" => Some(CommaChoice::Nowhere),
        "lists" => Some(CommaChoice::Lists),
        "all" => Some(CommaChoice::Everywhere),
        _ => None,
    }
}

/// What `--commas` says, where it is given.
fn commas_of(commas: Option<&str>) -> Option<CommaChoice>
    ensures { result ≡ commas_of (option_map (λ name. name.now) commas.entry) }
{
    match commas {
        Some(name) => commas_named(name),
        None => Some(CommaChoice::Everywhere),
    }
}

/// The commas that a line asks for; all of them where it says nothing.
pub(crate) fn commas_or_all(commas: Option<&str>) -> CommaChoice
    ensures { result ≡ commas_or_all (option_map (λ name. name.now) commas.entry) }
{
    match commas_of(commas) {
        Some(commas) => commas,
        None => CommaChoice::Everywhere,
    }
}

/// The edition of this name, if there is one.
fn edition_named(name: &str) -> Option<LanguageChoice>
    ensures { result ≡ edition_named name.now }
{
    match name {
        "2020" => Some(LanguageChoice::Edition2020),
        "2022" => Some(LanguageChoice::Edition2022),
        _ => None,
    }
}

/// The edition that a line names: `Unsaid` where it names none.
fn edition_of(edition: Option<&str>) -> Option<LanguageChoice>
    ensures { result ≡ edition_of (option_map (λ name. name.now) edition.entry) }
{
    match edition {
        Some(name) => edition_named(name),
        None => Some(LanguageChoice::Unsaid),
    }
}

/// Modules, of an edition that has them.
fn module_of(edition: LanguageChoice) -> Result<LanguageChoice, OptionMistake>
    ensures { result ≡ module_of edition }
{
    match edition {
        LanguageChoice::Edition2020 => Err(OptionMistake::Module),
        _ => Ok(LanguageChoice::Module),
    }
}

/// What `--edition` and `--module` say of the language.
fn language_of(edition: Option<&str>, is_module: bool) -> Result<LanguageChoice, OptionMistake>
    ensures { result ≡ language_of (option_map (λ name. name.now) edition.entry) is_module }
{
    let Some(edition) = edition_of(edition) else {
        return Err(OptionMistake::Edition);
    };
    if is_module {
        return module_of(edition);
    }
    Ok(edition)
}

/// That each language is tried, where none is said.
fn any_beside(edition: Option<&str>, is_module: bool) -> Result<AskedLanguage, OptionMistake>
    ensures { result ≡ any_beside (option_map (λ name. name.now) edition.entry) is_module }
{
    match (edition, is_module) {
        (None, false) => Ok(AskedLanguage::Any),
        (None, true) | (Some(_), _) => Err(OptionMistake::Any),
    }
}

/// The language that a line asks for.
fn asked_by(
    edition: Option<&str>,
    is_module: bool,
    is_any: bool,
) -> Result<AskedLanguage, OptionMistake>
    ensures { result ≡ asked_by (option_map (λ name. name.now) edition.entry) is_module is_any }
{
    if is_any {
        return any_beside(edition, is_module);
    }
    match language_of(edition, is_module) {
        Ok(choice) => Ok(AskedLanguage::Said(choice)),
        Err(mistake) => Err(mistake),
    }
}

impl<'a> Line<'a> {
    ghost use Rattle.std.specs.Prelude.{◌≡◌, option_map};
    ghost use Rattle.command_line.specs.AskedLanguage.{asked_of};

    /// The language that the line asks for.
    ///
    /// # Errors
    ///
    /// An `OptionMistake` where the word behind `--commas` is none of its three, where `--edition` and `--module` name no language, or where one of
    /// these stands beside `--any`.
    pub fn language(self) -> Result<AskedLanguage, OptionMistake>
        ensures { result ≡ asked_of (option_map (λ name. name.now) self.entry.commas) (option_map (λ name. name.now) self.entry.edition) self.entry.is_module self.entry.is_any }
    {
        match commas_of(self.commas) {
            Some(_) => asked_by(self.edition, self.is_module, self.is_any),
            None => Err(OptionMistake::Commas),
        }
    }
}

/// The line for a mistake.
fn mistake_line(mistake: OptionMistake) -> &'static str
    ensures { result.now ≡ mistake_line mistake }
{
    match mistake {
        OptionMistake::Edition => "jslint: --edition is 2020 or 2022\n",
        OptionMistake::Module => "jslint: --module doesn't go with --edition 2020\n",
        OptionMistake::Any => "jslint: --any doesn't go with --edition or --module\n",
        OptionMistake::Commas => "jslint: --commas is none, lists or all\n",
    }
}

/// Says why the options of a line can't be taken. Answers the exit status.
pub fn explain_option<W: Sink>(mistake: OptionMistake, errors: &mut W) -> u8
    requires { W.failed errors.old ≡ false }
    ensures status { result ≡ 2 }
    ensures line { WritesLine (mistake_line mistake) (W.taken errors.old) (W.taken errors.new) (W.failed errors.new) }
{
    let _ = write_text(mistake_line(mistake).as_bytes(), errors);
    2
}
