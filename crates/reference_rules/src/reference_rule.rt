//! Which rules on names there are, row by row: a variant, a name, the tests of a reference and of a declaration, the words. A rule has an
//! arm in each table here, and in those of `specs/Rows.antt`.

ghost use Rattle.std.specs.Prelude.{◌≡◌, option_map};
ghost use Rattle.scopes.specs.Shown.{reference_shown, shown};
ghost use Rattle.reference_rules.specs.Rows.{again_words, declares_again, is_global, is_silent, of_declaration, of_reference, says, says_declared};

use crate::built_in::is_built_in_for;
use crate::tests::{
    by_global, is_behind, is_callee, is_caught, is_class, is_constant, is_dialog, is_function,
    is_imported, is_left_undefined, is_namespace, is_no_constructor, is_parameter, is_repeated,
    is_restricted,
};
use scopes::{Binding, BindingKind, Reference};

/// A rule that asks what names mean.
#[derive(Clone, Copy, Debug, PartialEq, Eq)]
pub enum ReferenceRule {
    NoAlert,
    NoClassAssign,
    NoConstAssign,
    NoExAssign,
    NoFuncAssign,
    NoGlobalAssign,
    NoImplicitGlobals,
    NoImportAssign,
    NoNewNativeNonconstructor,
    NoNewSymbol,
    NoObjCalls,
    NoParamReassign,
    NoRedeclare,
    NoShadowRestrictedNames,
    NoUndefined,
    NoUseBeforeDefine,
}

/// The rules, in the order of their names.
pub const REFERENCE_RULES: [ReferenceRule; 16] = [
    ReferenceRule::NoAlert,
    ReferenceRule::NoClassAssign,
    ReferenceRule::NoConstAssign,
    ReferenceRule::NoExAssign,
    ReferenceRule::NoFuncAssign,
    ReferenceRule::NoGlobalAssign,
    ReferenceRule::NoImplicitGlobals,
    ReferenceRule::NoImportAssign,
    ReferenceRule::NoNewNativeNonconstructor,
    ReferenceRule::NoNewSymbol,
    ReferenceRule::NoObjCalls,
    ReferenceRule::NoParamReassign,
    ReferenceRule::NoRedeclare,
    ReferenceRule::NoShadowRestrictedNames,
    ReferenceRule::NoUndefined,
    ReferenceRule::NoUseBeforeDefine,
];

/// What rules on names ask of the language of a script.
#[derive(Clone, Copy)]
pub struct Profile {
    /// It has the names that the 12th edition added.
    pub is_2022: bool,
    /// It is a module, whose own scope isn't the global one.
    pub is_module: bool,
}

/// Where a declaration of a name stands.
#[derive(Clone, Copy)]
pub(crate) enum Standing {
    /// It is the first in the script's own scope.
    InScript,
    /// It is the first in another scope.
    InScope,
    /// The scope declares the name already.
    Again,
}

impl ReferenceRule {
    ghost use Rattle.std.specs.Prelude.{◌≡◌};
    ghost use Rattle.reference_rules.specs.Rows.{called};

    /// What settings and reports call it.
    pub fn name(self) -> &'static str
        ensures { result.now ≡ called self }
    {
        match self {
            ReferenceRule::NoAlert => "no-alert",
            ReferenceRule::NoClassAssign => "no-class-assign",
            ReferenceRule::NoConstAssign => "no-const-assign",
            ReferenceRule::NoExAssign => "no-ex-assign",
            ReferenceRule::NoFuncAssign => "no-func-assign",
            ReferenceRule::NoGlobalAssign => "no-global-assign",
            ReferenceRule::NoImplicitGlobals => "no-implicit-globals",
            ReferenceRule::NoImportAssign => "no-import-assign",
            ReferenceRule::NoNewNativeNonconstructor => "no-new-native-nonconstructor",
            ReferenceRule::NoNewSymbol => "no-new-symbol",
            ReferenceRule::NoObjCalls => "no-obj-calls",
            ReferenceRule::NoParamReassign => "no-param-reassign",
            ReferenceRule::NoRedeclare => "no-redeclare",
            ReferenceRule::NoShadowRestrictedNames => "no-shadow-restricted-names",
            ReferenceRule::NoUndefined => "no-undefined",
            ReferenceRule::NoUseBeforeDefine => "no-use-before-define",
        }
    }
}

/// Whether a rule reports a reference, by the binding that it means.
pub(crate) fn of_reference(
    profile: Profile,
    rule: ReferenceRule,
    reference: Reference,
    binding: Option<Binding>,
) -> bool
    ensures { result ≡ of_reference profile rule (reference_shown reference.entry) (option_map shown binding.entry) }
{
    let name = reference.name;
    match rule {
        ReferenceRule::NoAlert => reference.called
            && (reference.meaning.is_none() && is_dialog(name)),
        ReferenceRule::NoClassAssign => reference.writes && is_class(binding),
        ReferenceRule::NoConstAssign => reference.writes && is_constant(binding),
        ReferenceRule::NoExAssign => reference.writes && is_caught(binding),
        ReferenceRule::NoFuncAssign => reference.writes && is_function(binding),
        ReferenceRule::NoGlobalAssign => reference.writes
            && (reference.meaning.is_none() && is_built_in_for(profile.is_2022, name)),
        ReferenceRule::NoImportAssign => reference.writes && is_imported(binding),
        ReferenceRule::NoNewNativeNonconstructor => reference.constructed
            && (reference.meaning.is_none() && is_no_constructor(name)),
        ReferenceRule::NoNewSymbol => reference.constructed
            && (reference.meaning.is_none() && name == "Symbol"),
        ReferenceRule::NoObjCalls => is_callee(reference)
            && (reference.meaning.is_none() && is_namespace(name)),
        ReferenceRule::NoParamReassign => reference.writes && is_parameter(binding),
        ReferenceRule::NoImplicitGlobals
        | ReferenceRule::NoRedeclare
        | ReferenceRule::NoShadowRestrictedNames => false,
        ReferenceRule::NoUndefined => name == "undefined",
        ReferenceRule::NoUseBeforeDefine => is_behind(reference.start, binding),
    }
}

/// Whether rules say nothing of a reference, as of most: it means a binding that isn't declared behind it, isn't written, and isn't called
/// `undefined`.
#[inline]
pub(crate) fn is_silent(reference: Reference, binding: Option<Binding>) -> bool
    ensures { result ≡ is_silent (reference_shown reference.entry) (option_map shown binding.entry) }
{
    (reference.meaning.is_some() && !reference.writes)
        && (reference.name != "undefined" && !is_behind(reference.start, binding))
}

/// Whether a rule reports a declaration, by where that stands.
pub(crate) fn of_declaration(
    profile: Profile,
    rule: ReferenceRule,
    standing: Standing,
    binding: Binding,
) -> bool
    ensures { result ≡ of_declaration profile rule standing (shown binding.entry) }
{
    match rule {
        ReferenceRule::NoImplicitGlobals => is_global(profile, standing, binding.kind),
        ReferenceRule::NoRedeclare => declares_again(profile, standing, binding.name),
        ReferenceRule::NoShadowRestrictedNames => is_restricted(binding.name)
            && !(is_repeated(binding.kind) || is_left_undefined(binding)),
        ReferenceRule::NoUndefined => binding.name == "undefined" && !is_repeated(binding.kind),
        _ => false,
    }
}

/// Whether a name that is declared here has a meaning already.
fn declares_again(profile: Profile, standing: Standing, name: &str) -> bool
    ensures { result ≡ declares_again profile standing name.now }
{
    match standing {
        Standing::InScript => !profile.is_module && is_built_in_for(profile.is_2022, name),
        Standing::InScope => false,
        Standing::Again => true,
    }
}

/// Whether a declaration makes a property of the global object.
fn is_global(profile: Profile, standing: Standing, kind: BindingKind) -> bool
    ensures { result ≡ is_global profile standing kind }
{
    match standing {
        Standing::InScript => !profile.is_module && by_global(kind),
        Standing::InScope | Standing::Again => false,
    }
}

/// What a rule says behind the name.
pub(crate) fn words(rule: ReferenceRule) -> &'static str
    ensures { result.now ≡ says rule }
{
    match rule {
        ReferenceRule::NoAlert => "waits for the user",
        ReferenceRule::NoClassAssign => "is a class",
        ReferenceRule::NoConstAssign => "is constant",
        ReferenceRule::NoExAssign => "is what was caught",
        ReferenceRule::NoFuncAssign => "is a function",
        ReferenceRule::NoGlobalAssign => "is built in",
        ReferenceRule::NoImplicitGlobals => "is global",
        ReferenceRule::NoImportAssign => "is imported",
        ReferenceRule::NoNewNativeNonconstructor | ReferenceRule::NoNewSymbol =>
            "is no constructor",
        ReferenceRule::NoObjCalls => "is no function",
        ReferenceRule::NoParamReassign => "is a parameter",
        ReferenceRule::NoRedeclare => "is declared again",
        ReferenceRule::NoShadowRestrictedNames => "is restricted",
        ReferenceRule::NoUndefined => "is used",
        ReferenceRule::NoUseBeforeDefine => "is declared further down",
    }
}

/// What it says behind the name of a declaration.
pub(crate) fn words_declared(rule: ReferenceRule, standing: Standing) -> &'static str
    ensures { result.now ≡ says_declared rule standing }
{
    match rule {
        ReferenceRule::NoRedeclare => again_words(standing),
        _ => words(rule),
    }
}

/// Which meaning a name has already.
fn again_words(standing: Standing) -> &'static str
    ensures { result.now ≡ again_words standing }
{
    match standing {
        Standing::InScript => "is built in",
        _ => "is declared again",
    }
}
