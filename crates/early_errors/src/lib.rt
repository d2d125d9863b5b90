//! The early errors that a strict script can have by the 11th edition of ECMA-262, and a strict script or a module by the 13th.
//! - May touch: a finished tree, and memory for names, labels, and groups of patterns. It never looks at the text.
//! - Contract: `first_early_error` answers the tree's least error, by place and then by number; none exactly if it has
//!   none.
//! - Begin at: `walk.rt`; `own.rt` says which errors a node itself can have. Definitions: `specs/Early.antt`.
#![tactic(auto)]

mod around;
mod classes;
mod conflicts;
mod exported_names;
mod fields;
mod found;
mod functions;
mod labels;
pub mod laws;
mod literals;
mod modules;
mod names;
mod objects;
mod own;
mod private_names;
mod profile;
mod scopes;
mod skipping;
mod table;
mod vars;
mod walk;
mod yields;

use found::FirstError;
use profile::Language;
use std::alloc::{AllocError, Global};
use tree::{Node, Program};
use walk::{Walk, walk_node};

/// An early error, in the order of the numbers 1 to 37 that reports name it by; from 22 on, of the language of 2022.
#[derive(Copy, Clone)]
pub enum EarlyError {
    /// 1: `eval` or `arguments` is bound or assigned.
    EvalOrArguments,
    /// 2: `delete` of an identifier.
    DeleteOfIdentifier,
    /// 3: a lexical name is declared twice in one scope.
    DuplicateLexicalName,
    /// 4: a lexical name is also a `var` name of its scope.
    LexicalNameIsVar,
    /// 5: a `const` has no initializer.
    ConstWithoutInitializer,
    /// 6: a parameter name stands twice.
    DuplicateParameter,
    /// 7: a parameter name is also a lexical name of the body.
    ParameterIsLexicalName,
    /// 8: a directive `use strict` below parameters that aren't plain names.
    UseStrictBehindPattern,
    /// 9: a `break` or `continue` without label and with nothing to leave or go on with.
    MisplacedJump,
    /// 10: a `break` or `continue` to a label that isn't there.
    UndefinedLabel,
    /// 11: a label inside a statement with the same label.
    DuplicateLabel,
    /// 12: a catch parameter's name stands twice, or is declared in the block too.
    CatchParameterConflict,
    /// 13: a lexical name of a `for` head is also a `var` name of the loop's body.
    ForNameIsVar,
    /// 14: a `super` property outside methods.
    SuperPropertyOutsideMethod,
    /// 15: a `super` call outside the constructor of a class with `extends`.
    SuperCallOutsideConstructor,
    /// 16: `new.target` outside functions.
    NewTargetOutsideFunction,
    /// 17: a second constructor of one class.
    DuplicateConstructor,
    /// 18: a getter, a setter, or an async or generator method named `constructor`.
    SpecialConstructor,
    /// 19: a static member named `prototype`.
    StaticPrototype,
    /// 20: an untagged template with a part that has no cooked value.
    UncookedTemplate,
    /// 21: flags of a regular expression that aren't known, or stand twice.
    RegExpFlags,
    /// 22: a `yield` outside the body of a generator.
    YieldOutsideGenerator,
    /// 23: an `await` outside the body of an async function and the top of a module.
    AwaitOutsideAsync,
    /// 24: a field named `constructor`.
    FieldNamedConstructor,
    /// 25: a private name `#constructor`.
    PrivateConstructor,
    /// 26: a private name is declared twice in a class.
    DuplicatePrivateName,
    /// 27: a private name that no class around declares.
    UndeclaredPrivateName,
    /// 28: `arguments` in a field or a static block.
    ArgumentsInInit,
    /// 29: `delete` of a private member.
    DeleteOfPrivate,
    /// 30: `import.meta` outside a module.
    ImportMetaOutsideModule,
    /// 31: a name is exported twice.
    DuplicateExport,
    /// 32: a string or a reserved word is exported as a name of the module.
    ExportOfNoName,
    /// 33: an exported name that the module doesn't declare.
    UndeclaredExport,
    /// 34: the name of an import or export has a lone surrogate.
    LoneSurrogate,
    /// 35: `async` on the left of a for-of loop.
    ForAsyncOf,
    /// 36: a second `__proto__: v` of one object.
    DuplicateProto,
    /// 37: a pattern of a regular expression that the grammar of patterns or its early errors forbid.
    RegExpPattern,
}

ghost use Rattle.std.specs.Prelude.{◌≡◌, IfOk, None};
ghost use Rattle.tree.specs.Node.{node_tree};
ghost use Rattle.early_errors.specs.Early.{errors, least, least_error, number};
ghost use Rattle.name_tables.specs.Tables.{Agree};
ghost use Rattle.early_errors.specs.Around.{outside_of};
ghost use Rattle.early_errors.specs.Walk.{look};

/// The number that a report names the early error by: 1 to 37.
pub fn number_of(error: EarlyError) -> u8
    ensures { result ≡ number error }
{
    match error {
        EarlyError::EvalOrArguments => 1,
        EarlyError::DeleteOfIdentifier => 2,
        EarlyError::DuplicateLexicalName => 3,
        EarlyError::LexicalNameIsVar => 4,
        EarlyError::ConstWithoutInitializer => 5,
        EarlyError::DuplicateParameter => 6,
        EarlyError::ParameterIsLexicalName => 7,
        EarlyError::UseStrictBehindPattern => 8,
        EarlyError::MisplacedJump => 9,
        EarlyError::UndefinedLabel => 10,
        EarlyError::DuplicateLabel => 11,
        EarlyError::CatchParameterConflict => 12,
        EarlyError::ForNameIsVar => 13,
        EarlyError::SuperPropertyOutsideMethod => 14,
        EarlyError::SuperCallOutsideConstructor => 15,
        EarlyError::NewTargetOutsideFunction => 16,
        EarlyError::DuplicateConstructor => 17,
        EarlyError::SpecialConstructor => 18,
        EarlyError::StaticPrototype => 19,
        EarlyError::UncookedTemplate => 20,
        EarlyError::RegExpFlags => 21,
        EarlyError::YieldOutsideGenerator => 22,
        EarlyError::AwaitOutsideAsync => 23,
        EarlyError::FieldNamedConstructor => 24,
        EarlyError::PrivateConstructor => 25,
        EarlyError::DuplicatePrivateName => 26,
        EarlyError::UndeclaredPrivateName => 27,
        EarlyError::ArgumentsInInit => 28,
        EarlyError::DeleteOfPrivate => 29,
        EarlyError::ImportMetaOutsideModule => 30,
        EarlyError::DuplicateExport => 31,
        EarlyError::ExportOfNoName => 32,
        EarlyError::UndeclaredExport => 33,
        EarlyError::LoneSurrogate => 34,
        EarlyError::ForAsyncOf => 35,
        EarlyError::DuplicateProto => 36,
        EarlyError::RegExpPattern => 37,
    }
}

/// The number and the place, in bytes, of the least early error of a script, by place, then by number.
///
/// # Errors
/// Where memory is refused.
pub fn first_early_error(
    alloc: Global,
    program: &Program,
) -> Result<Option<(u8, usize)>, AllocError>
    ensures { IfOk result (λ r. r ≡ least_error program.now) }
{
    let root = program.root();
    let mut walk = Walk::new(alloc, Language::of(root));
    let found = found_from(root, &mut walk);
    drop(walk);
    found
}

/// The first early error of a tree, by a walk that has found nothing yet.
fn found_from<'t>(root: Node<'t, '_>, walk: &mut Walk<'t>) -> Result<FirstError, AllocError>
    requires found { walk.now.found ≡ None }
    requires vars { Agree (look walk.now.vars) (λ _. None) }
    requires labels { Agree (look walk.now.labels) (λ _. None) }
    requires privates { Agree (look walk.now.privates) (λ _. None) }
    requires of_2022 { walk.now.language.is_2022 ≡ (outside_of (node_tree root)).of_2022 }
    requires in_module { walk.now.language.is_module ≡ (outside_of (node_tree root)).in_module }
    ensures { IfOk result (λ r. r ≡ least (errors (node_tree root.entry))) }
{
    walk_node(root, walk.language.outside(), walk)?;
    Ok(walk.found)
}
