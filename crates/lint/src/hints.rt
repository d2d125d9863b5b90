//! The hint of a refusal: which later language takes a text that is refused in an earlier one.

ghost use Rattle.std.specs.Prelude.{◌≡◌, ◌≢◌, [], ◌∷◌, false, IfOk};
ghost use Rattle.source_text.specs.declared.fault.Fault.TheVariants.{OutOfMemory};
ghost use Rattle.language.specs.declared.Language.TheVariants as languages;
ghost use Rattle.lint.specs.Hints.{IsForFirst, IsLaterHint, TellsAccepted, later_languages};

use crate::script_reader::read_script;
use commands::Hint;
use language::Language;
use source_text::{Fault, Source};
use std::alloc::{AllocError, Global};
use tree::TextArena;

/// That a text which is refused is no script, unless memory was refused.
fn no_script(fault: Fault) -> Result<bool, AllocError>
    ensures accepted { IfOk result (λ accepted. accepted ≡ false) }
    ensures memory { IfOk result (λ _. fault ≢ OutOfMemory) }
{
    match fault {
        Fault::OutOfMemory => Err(AllocError),
        _ => Ok(false),
    }
}

/// Whether a text is a script, or a module, of a language; texts of the script that are no slice of its source stay in `texts`.
fn reads(
    alloc: Global,
    texts: &TextArena,
    source: &Source<'_>,
    language: Language,
) -> Result<bool, AllocError>
    ensures { IfOk result (TellsAccepted language source.now) }
{
    match read_script(alloc, texts, source, language) {
        Ok(_) => Ok(true),
        Err(fault) => no_script(fault),
    }
}

/// Whether a text is a script, or a module, of a language.
fn is_accepted(alloc: Global, source: &Source<'_>, language: Language) -> Result<bool, AllocError>
    ensures { IfOk result (TellsAccepted language source.now) }
{
    let texts = TextArena::new(alloc);
    reads(alloc, &texts, source, language)
}

/// The hint for modules, where a text is one.
fn module_hint(alloc: Global, source: &Source<'_>) -> Result<Hint, AllocError>
    ensures { IfOk result (IsForFirst (languages.Module ∷ []) source.now) }
{
    if is_accepted(alloc, source, Language::Module)? {
        return Ok(Hint::Module);
    }
    Ok(Hint::Nothing)
}

/// The hint for scripts of 2022, where a text is one, else for modules.
fn edition_hint(alloc: Global, source: &Source<'_>) -> Result<Hint, AllocError>
    ensures { IfOk result (IsForFirst (languages.Script ∷ languages.Module ∷ []) source.now) }
{
    if is_accepted(alloc, source, Language::Script)? {
        return Ok(Hint::Edition2022);
    }
    module_hint(alloc, source)
}

/// The hint for the first language later than this one that takes a text.
fn hint_for(alloc: Global, source: &Source<'_>, language: Language) -> Result<Hint, AllocError>
    ensures { IfOk result (IsForFirst (later_languages language) source.now) }
{
    match language {
        Language::Base => edition_hint(alloc, source),
        Language::Script => module_hint(alloc, source),
        Language::Module => Ok(Hint::Nothing),
    }
}

/// The hint for a text that is refused in a language.
pub(crate) fn later_hint(alloc: Global, source: &Source<'_>, language: Language) -> Hint
    ensures { IsLaterHint language source.now result }
{
    match hint_for(alloc, source, language) {
        Ok(hint) => hint,
        Err(AllocError) => Hint::Unknown,
    }
}
