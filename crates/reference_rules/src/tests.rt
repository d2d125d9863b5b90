//! The tests of rules on names.

ghost use Rattle.std.specs.Prelude.{◌≡◌, option_map};
ghost use Rattle.scopes.specs.Shown.{reference_shown, shown};
ghost use Rattle.reference_rules.specs.Rows.{is_behind};
ghost use Rattle.reference_rules.specs.Tests.{by_catch, by_class, by_const, by_function, by_global, by_import, by_parameter, by_variable, is_bound, is_callee, is_dialog, is_left_undefined, is_namespace, is_no_constructor, is_repeated, is_restricted};

use scopes::{Binding, BindingKind, Reference};

/// Whether it is the kind of what `const` binds.
fn by_const(kind: BindingKind) -> bool
    ensures { result ≡ by_const kind }
{
    matches!(kind, BindingKind::Const)
}

/// Whether it is the kind of what a class binds, round it or inside it.
fn by_class(kind: BindingKind) -> bool
    ensures { result ≡ by_class kind }
{
    matches!(kind, BindingKind::Class | BindingKind::ClassName)
}

/// Whether it is the kind of what a function binds, round it or inside it.
fn by_function(kind: BindingKind) -> bool
    ensures { result ≡ by_function kind }
{
    matches!(kind, BindingKind::Function | BindingKind::FunctionName)
}

/// Whether it is the kind of what a `catch` binds.
fn by_catch(kind: BindingKind) -> bool
    ensures { result ≡ by_catch kind }
{
    matches!(kind, BindingKind::Catch)
}

/// Whether it is the kind of what an import binds.
fn by_import(kind: BindingKind) -> bool
    ensures { result ≡ by_import kind }
{
    matches!(kind, BindingKind::Import)
}

/// Whether it is the kind of parameters.
fn by_parameter(kind: BindingKind) -> bool
    ensures { result ≡ by_parameter kind }
{
    matches!(kind, BindingKind::Param)
}

/// Whether a binding is there, and `const` binds it.
pub(crate) fn is_constant(binding: Option<Binding>) -> bool
    ensures { result ≡ is_bound by_const (option_map shown binding.entry) }
{
    match binding {
        Some(binding) => by_const(binding.kind),
        None => false,
    }
}

/// Whether a binding is there, and a class binds it.
pub(crate) fn is_class(binding: Option<Binding>) -> bool
    ensures { result ≡ is_bound by_class (option_map shown binding.entry) }
{
    match binding {
        Some(binding) => by_class(binding.kind),
        None => false,
    }
}

/// Whether a binding is there, and a function binds it.
pub(crate) fn is_function(binding: Option<Binding>) -> bool
    ensures { result ≡ is_bound by_function (option_map shown binding.entry) }
{
    match binding {
        Some(binding) => by_function(binding.kind),
        None => false,
    }
}

/// Whether a binding is there, and a `catch` binds it.
pub(crate) fn is_caught(binding: Option<Binding>) -> bool
    ensures { result ≡ is_bound by_catch (option_map shown binding.entry) }
{
    match binding {
        Some(binding) => by_catch(binding.kind),
        None => false,
    }
}

/// Whether a binding is there, and an import binds it.
pub(crate) fn is_imported(binding: Option<Binding>) -> bool
    ensures { result ≡ is_bound by_import (option_map shown binding.entry) }
{
    match binding {
        Some(binding) => by_import(binding.kind),
        None => false,
    }
}

/// Whether a binding is there, and is a parameter.
pub(crate) fn is_parameter(binding: Option<Binding>) -> bool
    ensures { result ≡ is_bound by_parameter (option_map shown binding.entry) }
{
    match binding {
        Some(binding) => by_parameter(binding.kind),
        None => false,
    }
}

/// Whether a binding is declared behind a place.
pub(crate) fn is_behind(place: usize, binding: Option<Binding>) -> bool
    ensures { result ≡ is_behind place (option_map shown binding.entry) }
{
    match binding {
        Some(binding) => place < binding.start,
        None => false,
    }
}

/// Whether a reference is the callee of a call, or of `new`.
pub(crate) fn is_callee(reference: Reference) -> bool
    ensures { result ≡ is_callee (reference_shown reference.entry) }
{
    reference.called || reference.constructed
}

/// Whether it is the name of a value that nothing can change.
pub(crate) fn is_restricted(name: &str) -> bool
    ensures { result ≡ is_restricted name.now }
{
    name == "Infinity" || name == "NaN" || name == "undefined"
}

/// Whether it is the kind of a class's name inside it, whose identifier is that round it.
pub(crate) fn is_repeated(kind: BindingKind) -> bool
    ensures { result ≡ is_repeated kind }
{
    matches!(kind, BindingKind::ClassName)
}

/// Whether it is the kind of what `var` and `let` bind.
fn by_variable(kind: BindingKind) -> bool
    ensures { result ≡ by_variable kind }
{
    matches!(kind, BindingKind::Var | BindingKind::Let)
}

/// Whether it is the kind of what a script's own scope puts into the global object.
pub(crate) fn by_global(kind: BindingKind) -> bool
    ensures { result ≡ by_global kind }
{
    matches!(kind, BindingKind::Var | BindingKind::Function)
}

/// Whether a declaration of `undefined` leaves it so.
pub(crate) fn is_left_undefined(binding: Binding) -> bool
    ensures { result ≡ is_left_undefined (shown binding.entry) }
{
    binding.name == "undefined" && (by_variable(binding.kind) && !binding.settled)
}

/// Whether it is the name of a built-in object that is no function.
pub(crate) fn is_namespace(name: &str) -> bool
    ensures { result ≡ is_namespace name.now }
{
    name == "Atomics" || name == "JSON" || name == "Math" || name == "Reflect"
}

/// Whether it is the name of a function of browsers that stops a page until the user answers.
pub(crate) fn is_dialog(name: &str) -> bool
    ensures { result ≡ is_dialog name.now }
{
    name == "alert" || name == "confirm" || name == "prompt"
}

/// Whether it is the name of a built-in function that is no constructor.
pub(crate) fn is_no_constructor(name: &str) -> bool
    ensures { result ≡ is_no_constructor name.now }
{
    name == "BigInt" || name == "Symbol"
}
