//! `super`, `new.target` and the members of classes.

ghost use Rattle.std.specs.Prelude.{◌≡◌, ◌<◌, ◌&&◌, length, not, option_map, IfOk};
ghost use Rattle.std.specs.Str.{bytes_eq};
ghost use Rattle.tree.specs.Node.{node_tree};
ghost use Rattle.tree.specs.Tree.{kind_of, parts_of, text_of};
ghost use Rattle.language.specs.Statements.{is_string_literal};
ghost use Rattle.early_errors.specs.Keys.{key_value};
ghost use Rattle.early_errors.specs.Classes.{constructor_places, duplicate_constructor, has_key, super_places};
ghost use Rattle.early_errors.specs.Early.{each, own_errors};
ghost use Rattle.early_errors.specs.Names.{when};
ghost use Rattle.early_errors.specs.Owns.{Beside, form_at, key_says, own_of, places_at, round};
ghost use Rattle.name_tables.specs.PatternParts.{at_part};
ghost use Rattle.early_errors.specs.Walk.{after, listed};
ghost use Rattle.early_errors.specs.declared.own.OwnErrors.{OwnErrors};

use crate::EarlyError;
use crate::around::{Context, is_accessor, is_constructor};
use crate::found::{FirstError, with_error_if};
use crate::literals::{begins_with_quote, both, either};
use crate::private_names::private_errors;
use crate::profile::Language;
use std::alloc::{AllocError, Global};
use tokens::string_is;
use tree::{Form, Kind, Node};

/// A `super` at the head of a node, where it may not stand (ECMA-262 14.1.2, 14.6.1, 15.1.1).
pub(crate) fn super_errors(
    node: Node,
    may_stand: bool,
    error: EarlyError,
    found: FirstError,
) -> FirstError
    ensures { result ≡ after found (each error (when (not may_stand) (super_places (parts_of (node_tree node.entry))))) }
{
    if may_stand {
        return found;
    }
    let Some(head) = node.part(0) else {
        return found;
    };
    with_error_if(head.kind().is_super(), found, error, head.span().start)
}

/// `new.target` outside every function that isn't an arrow (ECMA-262 15.1.1), `import.meta` outside a module (13th edition, 13.3.12.1).
pub(crate) fn target_errors(
    node: Node,
    around: Context,
    language: Language,
    found: FirstError,
) -> FirstError
    requires { own_of (kind_of (node_tree node)) ≡ OwnErrors.Target }
    ensures { (r : Beside) → language.is_module ≡ r.in_module → result ≡ after found (own_errors (round around r) (node_tree node.entry)) }
{
    let start = node.span().start;
    let found = with_error_if(
        both(begins_with(node, "new"), !around.new_target),
        found,
        EarlyError::NewTargetOutsideFunction,
        start,
    );
    with_error_if(
        both(begins_with(node, "import"), !language.is_module),
        found,
        EarlyError::ImportMetaOutsideModule,
        start,
    )
}

/// Whether the first part of a node has this text.
fn begins_with(node: Node, word: &str) -> bool
    ensures { result ≡ has_key (parts_of (node_tree node.entry)) (λ n. bytes_eq (text_of n) word.now) }
{
    match node.part(0) {
        Some(first) => first.text() == word,
        None => false,
    }
}

/// The errors of a class body: a second or later constructor, and those of private names.
pub(crate) fn class_errors(
    alloc: Global,
    body: Node,
    found: FirstError,
) -> Result<FirstError, AllocError>
    requires { own_of (kind_of (node_tree body)) ≡ OwnErrors.ClassElements }
    ensures { IfOk result (λ e. (z : _) → e ≡ after found (own_errors z (node_tree body.entry))) }
{
    let found = constructor_errors(body, found);
    private_errors(alloc, body, found)
}

/// A second or later constructor of one class (ECMA-262 14.6.1).
fn constructor_errors(body: Node, found: FirstError) -> FirstError
    requires { own_of (kind_of (node_tree body)) ≡ OwnErrors.ClassElements }
    ensures { result ≡ after found (each EarlyError.DuplicateConstructor (duplicate_constructor (node_tree body.entry))) }
{
    let mut found = found;
    let mut has_one = false;
    for index in 0..body.part_count() {
        if let Some(at) = constructor_place(body.part(index)) {
            found = with_error_if(has_one, found, EarlyError::DuplicateConstructor, at);
            has_one = true;
        }
    }
    found
}

/// The place of the key of a member that is a constructor.
fn constructor_place(member: Option<Node>) -> Option<usize>
    ensures { listed result ≡ at_part constructor_places (option_map node_tree member.entry) }
{
    let Some(member) = member else {
        return None;
    };
    if !is_constructor(member.flags().form) {
        return None;
    }
    match member.part(0) {
        Some(key) => Some(key.span().start),
        None => None,
    }
}

/// A getter, a setter, or an async or generator method `constructor` that isn't static, a static member `prototype` (ECMA-262 14.6.1;
/// 13th edition, 15.7.1).
pub(crate) fn member_errors(member: Node, found: FirstError) -> FirstError
    requires { own_of (kind_of (node_tree member)) ≡ OwnErrors.Member }
    ensures { (z : _) → result ≡ after found (own_errors z (node_tree member.entry)) }
{
    let flags = member.flags();
    let key = member.part(0);
    let differs = either(is_accessor(flags.form), has_form(member.part(1)));
    let is_special = both(differs, !flags.is_static);
    let special = both(is_special, says(key, flags.computed, "constructor"));
    let found = key_error(key, special, EarlyError::SpecialConstructor, found);
    let prototype = both(flags.is_static, says(key, flags.computed, "prototype"));
    key_error(key, prototype, EarlyError::StaticPrototype, found)
}

/// Whether a method's function is async or a generator.
fn has_form(function: Option<Node>) -> bool
    ensures { result ≡ form_at (option_map node_tree function.entry) }
{
    match function {
        Some(function) => !matches!(function.flags().form, Form::Init),
        None => false,
    }
}

/// The error of a key, where it is one.
pub(crate) fn key_error(
    key: Option<Node>,
    is_one: bool,
    error: EarlyError,
    found: FirstError,
) -> FirstError
    ensures { result ≡ after found (each error (when is_one (places_at (option_map node_tree key.entry)))) }
{
    match key {
        Some(key) => with_error_if(is_one, found, error, key.span().start),
        None => found,
    }
}

/// Whether a key that is neither computed nor private has a word, which isn't empty, as its value.
pub(crate) fn says(key: Option<Node>, is_computed: bool, word: &str) -> bool
    requires { 0 < length word.now }
    ensures { result ≡ (not is_computed && key_says (option_map node_tree key.entry) word.now) }
{
    if is_computed {
        return false;
    }
    let Some(key) = key else {
        return false;
    };
    if key.kind().is_private() {
        return false;
    }
    key_is(key, word)
}

/// Whether a key's value (ECMA-262 12.2.6.5) is a word, which isn't empty.
fn key_is(key: Node, word: &str) -> bool
    requires { 0 < length word.now }
    ensures { result ≡ bytes_eq (key_value (node_tree key.entry)) word.now }
{
    if !is_quoted(key) {
        return key.text() == word;
    }
    string_is(key.text(), word)
}

/// Whether a node is a string.
pub(crate) fn is_quoted(node: Node) -> bool
    ensures { result ≡ is_string_literal (kind_of (node_tree node.entry)) (text_of (node_tree node.entry)) }
{
    match node.kind() {
        Kind::Literal => begins_with_quote(node.text()),
        _ => false,
    }
}
