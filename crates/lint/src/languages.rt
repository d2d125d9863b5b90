//! The language of a script: what a call asks for, and what settings leave.

ghost use Rattle.std.specs.Prelude.{◌≡◌};
ghost use Rattle.lint.specs.Languages.{asked_language, fits, language_of};

use commands::LanguageChoice;
use language::Language;
use rules::Languages;

/// The language that a call asks for, where no settings say another one.
pub(crate) fn asked_language(choice: LanguageChoice) -> Language
    ensures { result ≡ asked_language choice }
{
    match choice {
        LanguageChoice::Unsaid | LanguageChoice::Edition2020 => Language::Base,
        LanguageChoice::Edition2022 => Language::Script,
        LanguageChoice::Module => Language::Module,
    }
}

/// Whether a call may mean the language, and settings leave it.
fn fits(choice: LanguageChoice, left: Languages, language: Language) -> bool
    ensures { result ≡ fits choice left language }
{
    left.contains(language)
        && match choice {
            LanguageChoice::Unsaid => true,
            LanguageChoice::Edition2020 => matches!(language, Language::Base),
            LanguageChoice::Edition2022 => !matches!(language, Language::Base),
            LanguageChoice::Module => matches!(language, Language::Module),
        }
}

/// The first language that a call may mean and settings leave: None where they contradict each other.
pub(crate) fn language_of(choice: LanguageChoice, left: Languages) -> Option<Language>
    ensures { result ≡ language_of choice left }
{
    if fits(choice, left, Language::Base) {
        return Some(Language::Base);
    }
    if fits(choice, left, Language::Script) {
        return Some(Language::Script);
    }
    if fits(choice, left, Language::Module) {
        return Some(Language::Module);
    }
    None
}
