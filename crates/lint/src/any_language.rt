//! Reading a text where each language is tried: in the first that accepts it; where none does, it is refused as by the one that got furthest.

ghost use Rattle.std.specs.Prelude.{◌≡◌, ◌∷◌, [], IfErr, IfOk};
ghost use Rattle.commands.specs.Refused.{HasPlace, place_of};
ghost use Rattle.language.specs.declared.Language.TheVariants as languages;
ghost use Rattle.lint.specs.AnyLanguage.{IsFirst, IsScriptIn, IsTold, Tries, TriesOf, further, hint_in, is_further};
ghost use Rattle.lint.specs.Hints.{later_languages};
ghost use Rattle.lint.specs.ReadScripts.{RefusesReading};

use crate::script_reader::read_script;
use commands::{Hint, Refused};
use language::Language;
use parser::Parsed;
use source_text::{Fault, Source};
use std::alloc::Global;
use tree::TextArena;

/// The script, or module, that a text is in a language, with its grouping pairs.
#[derive(Drop)]
pub struct ScriptIn<'s> {
    pub language: Language,
    pub parsed: Parsed<'s>,
}

/// The refusal of a text in a language.
#[derive(Clone, Copy, Debug, PartialEq, Eq)]
pub struct RefusedIn {
    pub language: Language,
    pub fault: Fault,
}

/// Whether a refusal got further than a syntax error at a place.
fn passes_syntax(place: usize, second: Fault) -> bool
    ensures { result ≡ is_further (Fault.Syntax place) second }
{
    match second {
        Fault::Syntax(at) => place < at,
        _ => true,
    }
}

/// Whether a refusal got further than an early error at a place.
fn passes_early(place: usize, second: Fault) -> bool
    ensures { (number : _) → result ≡ is_further (Fault.Early number place) second }
{
    match second {
        Fault::Early(_, at) => place < at,
        _ => false,
    }
}

/// Whether a second refusal of a text got further than a first.
fn is_further(first: Fault, second: Fault) -> bool
    ensures { result ≡ is_further first second }
{
    match first {
        Fault::Syntax(place) => passes_syntax(place, second),
        Fault::Early(_, place) => passes_early(place, second),
        _ => false,
    }
}

/// Of two refusals of a text the one that got further; the first where both got as far.
fn further(first: RefusedIn, second: RefusedIn) -> RefusedIn
    ensures { result ≡ further first second }
{
    if is_further(first.fault, second.fault) {
        return second;
    }
    first
}

/// What a text is in one language.
fn read_in<'s>(
    alloc: Global,
    texts: &'s TextArena,
    source: &Source<'s>,
    language: Language,
) -> Result<ScriptIn<'s>, RefusedIn>
    ensures of_script { IfOk result (λ script. script.language ≡ language) }
    ensures reading { IfOk result (λ script. IsScriptIn source.now script) }
    ensures of_refusal { IfErr result (λ refused. refused.language ≡ language) }
    ensures refused { IfErr result (λ refused. RefusesReading language source.now refused.fault) }
{
    match read_script(alloc, texts, source, language) {
        Ok(parsed) => Ok(ScriptIn { language, parsed }),
        Err(fault) => Err(RefusedIn { language, fault }),
    }
}

/// What a text is as a module, behind a refusal of it.
fn read_module<'s>(
    alloc: Global,
    texts: &'s TextArena,
    source: &Source<'s>,
    before: RefusedIn,
) -> Result<ScriptIn<'s>, RefusedIn>
    ensures { TriesOf (languages.Module ∷ []) source.now before result }
{
    match read_in(alloc, texts, source, Language::Module) {
        Ok(script) => Ok(script),
        Err(refused) => match refused.fault {
            Fault::OutOfMemory => Err(refused),
            _ => Err(further(before, refused)),
        },
    }
}

/// What a text is in the languages of 2022, behind a refusal of it: as a script, else as a module.
fn read_later<'s>(
    alloc: Global,
    texts: &'s TextArena,
    source: &Source<'s>,
    before: RefusedIn,
) -> Result<ScriptIn<'s>, RefusedIn>
    ensures { TriesOf (later_languages languages.Base) source.now before result }
{
    match read_in(alloc, texts, source, Language::Script) {
        Ok(script) => Ok(script),
        Err(refused) => match refused.fault {
            Fault::OutOfMemory => Err(refused),
            _ => read_module(alloc, texts, source, further(before, refused)),
        },
    }
}

/// The script, or module, that a text is in the first language that accepts it, of the base profile, scripts of 2022 and modules. There is one first. Texts of the
/// script that are no slice of its source stay in `texts`.
///
/// # Errors
///
/// Where none accepts it, its refusal in the language that got furthest: a syntax error by its place; beyond those an early error by its place, or that
/// the text nests too deep; the first of those that got as far. `OutOfMemory`.
pub fn read_any<'s>(
    alloc: Global,
    texts: &'s TextArena,
    source: &Source<'s>,
) -> Result<ScriptIn<'s>, RefusedIn>
    ensures tries { Tries source.now result }
    ensures one { IfOk result (λ script. (other : _) → IsFirst source.now other → other ≡ script.language) }
{
    match read_in(alloc, texts, source, Language::Base) {
        Ok(script) => Ok(script),
        Err(refused) => match refused.fault {
            Fault::OutOfMemory => Err(refused),
            _ => read_later(alloc, texts, source, refused),
        },
    }
}

/// The line and the column of the place that a fault speaks of, both 0 where it speaks of none.
fn place_of(source: &Source<'_>, fault: Fault) -> (u32, u32)
    requires { HasPlace source.now fault }
    ensures { result ≡ place_of source.now fault }
{
    match fault {
        Fault::Syntax(at) | Fault::Early(_, at) => source.line_column(at),
        _ => (0, 0),
    }
}

/// What a refusal says of its language.
fn hint_in(language: Language) -> Hint
    ensures { result ≡ hint_in language }
{
    match language {
        Language::Base => Hint::InBase,
        Language::Script => Hint::InScript,
        Language::Module => Hint::InModule,
    }
}

/// The refusal of a text in a language, with the line and the column of its place, and its language; that memory is refused speaks of none.
pub(crate) fn refused_in(source: &Source<'_>, refused: RefusedIn) -> Refused
    requires { HasPlace source.now refused.fault }
    ensures { IsTold source.now refused result }
{
    let RefusedIn { language, fault } = refused;
    if let Fault::OutOfMemory = fault {
        return Refused::at_no_place(Fault::OutOfMemory);
    }
    let (line, column) = place_of(source, fault);
    Refused {
        fault,
        in_second: false,
        line,
        column,
        hint: hint_in(language),
    }
}
