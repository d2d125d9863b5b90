//! Private names of classes (ECMA-262, 13th edition, 15.7.1).

ghost use Rattle.std.specs.Prelude.{◌≡◌, ◌++◌, ◌∷◌, ℕ, List, [], false, not, ◌&&◌, ◌||◌, IfOk, OnOk, None, Some, is_some, option_map};
ghost use Rattle.std.specs.Bool.{OnFalse};
ghost use Rattle.tree.specs.Node.{node_tree};
ghost use Rattle.tree.specs.Tree.{kind_of, parts_of, start_of, text_of};
ghost use Rattle.name_tables.specs.BoundNames.{each_part};
ghost use Rattle.name_tables.specs.PatternParts.{at_part};
ghost use Rattle.name_tables.specs.Tables.{Agree, with_value};
ghost use Rattle.language.specs.Vocabulary.{is};
ghost use Rattle.early_errors.specs.Around.{private_key, private_keys};
ghost use Rattle.early_errors.specs.Early.{each, own_errors};
ghost use Rattle.early_errors.specs.Names.{when};
ghost use Rattle.early_errors.specs.Owns.{Declares, own_of};
ghost use Rattle.early_errors.specs.PrivateNames.{declared, duplicate_private_name, ends_at_private, holds_name, private_constructor, private_member};
ghost use Rattle.early_errors.specs.PrivateUses.{is_pair_use, is_same, joined_use, key_errors, noted, pair_if, private_key_at, undone_privates, use_at};
ghost use Rattle.early_errors.specs.Walk.{after, look};
ghost use Rattle.early_errors.specs.declared.own.OwnErrors.{OwnErrors};

use crate::EarlyError;
use crate::found::{FirstError, with_error_if};
use crate::literals::both;
use crate::table::Table;
use std::alloc::{AllocError, Global};
use tree::{Form, Kind, Node};

/// The private names of the classes round a node.
pub(crate) type PrivateNames<'t> = Table<'t, ()>;

/// Whether a private name stood in the table before.
#[derive(Clone, Copy)]
pub(crate) struct SavedPrivate<'t> {
    name: &'t str,
    value: Option<()>,
}

/// How the elements of a class declare a private name.
#[derive(Clone, Copy)]
pub(crate) enum PrivateUse {
    /// By a getter; the flag says whether that is static.
    Getter(bool),
    /// By a setter.
    Setter(bool),
    /// By a getter and a setter, both static or neither.
    Pair,
    /// In any other way.
    Other,
}

/// A private name that no class round it declares.
pub(crate) fn undeclared_private_name(
    node: Node,
    privates: &PrivateNames,
    found: FirstError,
) -> FirstError
    requires { own_of (kind_of (node_tree node)) ≡ OwnErrors.PrivateName }
    ensures { (z : _) → Declares (look privates.now) z.privates → result ≡ after found (own_errors z (node_tree node.entry)) }
{
    with_error_if(
        privates.value(node.text()).is_none(),
        found,
        EarlyError::UndeclaredPrivateName,
        node.span().start,
    )
}

/// The key of a class's element, where that is a private name.
fn private_key<'t, 's>(element: Option<Node<'t, 's>>) -> Option<Node<'t, 's>>
    ensures { option_map node_tree result ≡ private_key_at (option_map node_tree element.entry) }
{
    let Some(element) = element else {
        return None;
    };
    let Some(key) = element.part(0) else {
        return None;
    };
    if key.kind().is_private() {
        Some(key)
    } else {
        None
    }
}

/// Lets the private names of a class body stand in the table; pushes what stood there before.
pub(crate) fn open_class<'t>(
    privates: &mut PrivateNames<'t>,
    body: Node<'t, '_>,
    saved: &mut Vec<SavedPrivate<'t>>,
) -> Result<(), AllocError>
    ensures entered { OnOk result ((ws : List (List ℕ)) → Declares (look privates.old) ws → Declares (look privates.new) (private_keys (parts_of (node_tree body.entry)) ++ ws)) }
    ensures kept { OnOk result (Agree (undone_privates (look privates.new) saved.new.items) (undone_privates (look privates.old) saved.old.items)) }
{
    for index in 0..body.part_count() {
        open_element(privates, body.part(index), saved)?;
    }
    Ok(())
}

/// Opens the private name of one element.
fn open_element<'t>(
    privates: &mut PrivateNames<'t>,
    element: Option<Node<'t, '_>>,
    saved: &mut Vec<SavedPrivate<'t>>,
) -> Result<(), AllocError>
    ensures entered { OnOk result ((w : List ℕ) → is_some (look privates.new w) ≡ (holds_name (at_part private_key (option_map node_tree element.entry)) w || is_some (look privates.old w))) }
    ensures kept { OnOk result (Agree (undone_privates (look privates.new) saved.new.items) (undone_privates (look privates.old) saved.old.items)) }
{
    let Some(key) = private_key(element) else {
        return Ok(());
    };
    let name = key.text();
    let value = privates.replace(name, Some(()))?;
    saved.push(SavedPrivate { name, value })?;
    Ok(())
}

/// Lets private names stand as before a class body; pops what stood there.
pub(crate) fn close_class<'t>(
    privates: &mut PrivateNames<'t>,
    saved: &mut Vec<SavedPrivate<'t>>,
) -> Result<(), AllocError>
    ensures { OnOk result (Agree (look privates.new) (undone_privates (look privates.old) saved.old.items)) }
{
    while let Some(last) = saved.pop() {
        privates.replace(last.name, last.value)?;
    }
    Ok(())
}

/// The errors of the private names that a class body declares: `#constructor`, and a name that is declared twice, but for a
/// getter with a setter.
pub(crate) fn private_errors(
    alloc: Global,
    body: Node,
    found: FirstError,
) -> Result<FirstError, AllocError>
    requires { own_of (kind_of (node_tree body)) ≡ OwnErrors.ClassElements }
    ensures { IfOk result (λ e. e ≡ after (after found (each EarlyError.PrivateConstructor (private_constructor (node_tree body.entry)))) (each EarlyError.DuplicatePrivateName (duplicate_private_name (node_tree body.entry)))) }
{
    if !declares_private(body) {
        return Ok(found);
    }
    let mut uses = Table::new(alloc);
    let mut seen = Table::new(alloc);
    errors_of_keys(body, &mut uses, &mut seen, found)
}

/// Whether an element of a class body has a private name.
fn declares_private(body: Node) -> bool
    ensures { OnFalse result (each_part declared (parts_of (node_tree body.entry)) ≡ []) }
{
    for index in 0..body.part_count() {
        if private_key(body.part(index)).is_some() {
            return true;
        }
    }
    false
}

/// The errors of the keys, with room for how each name is used, and for the names that were seen.
fn errors_of_keys<'t>(
    body: Node<'t, '_>,
    uses: &mut Table<'t, PrivateUse>,
    seen: &mut Table<'t, ()>,
    found: FirstError,
) -> Result<FirstError, AllocError>
    requires uses { Agree (look uses.now) (λ _. None) }
    requires seen { Agree (look seen.now) (λ _. None) }
    ensures { IfOk result (λ e. e ≡ after found (key_errors (noted (λ _. None) (each_part declared (parts_of (node_tree body.entry)))) (λ _. None) (each_part declared (parts_of (node_tree body.entry))))) }
{
    for index in 0..body.part_count() {
        note_use(body.part(index), uses)?;
    }
    repeated_keys(body, uses, seen, found)
}

/// Notes how an element uses its private name, if it has one.
fn note_use<'t>(
    element: Option<Node<'t, '_>>,
    uses: &mut Table<'t, PrivateUse>,
) -> Result<(), AllocError>
    ensures { OnOk result (Agree (look uses.new) (noted (look uses.old) (at_part declared (option_map node_tree element.entry)))) }
{
    let Some(key) = private_key(element) else {
        return Ok(());
    };
    let name = key.text();
    let joined = joined_use(uses.value(name), use_at(element));
    uses.replace(name, Some(joined))?;
    Ok(())
}

/// How an element uses its private name.
fn use_at(element: Option<Node>) -> PrivateUse
    ensures { result ≡ use_at (option_map node_tree element.entry) }
{
    let Some(element) = element else {
        return PrivateUse::Other;
    };
    let flags = element.flags();
    match flags.form {
        Form::Get => PrivateUse::Getter(flags.is_static),
        Form::Set => PrivateUse::Setter(flags.is_static),
        _ => PrivateUse::Other,
    }
}

/// How one more element uses a name.
fn joined_use(before: Option<PrivateUse>, own: PrivateUse) -> PrivateUse
    ensures { result ≡ joined_use before own }
{
    let Some(before) = before else {
        return own;
    };
    match (before, own) {
        (PrivateUse::Getter(first), PrivateUse::Setter(second)) => pair_if(is_same(first, second)),
        (PrivateUse::Setter(first), PrivateUse::Getter(second)) => pair_if(is_same(first, second)),
        _ => PrivateUse::Other,
    }
}

/// Whether both are set, or neither.
fn is_same(first: bool, second: bool) -> bool
    ensures { result ≡ is_same first second }
{
    if first { second } else { !second }
}

/// A getter with a setter, or two elements that clash.
fn pair_if(is_pair: bool) -> PrivateUse
    ensures { result ≡ pair_if is_pair }
{
    if is_pair {
        PrivateUse::Pair
    } else {
        PrivateUse::Other
    }
}

/// The errors of the keys, by how each name is used.
fn repeated_keys<'t>(
    body: Node<'t, '_>,
    uses: &Table<'t, PrivateUse>,
    seen: &mut Table<'t, ()>,
    found: FirstError,
) -> Result<FirstError, AllocError>
    ensures { IfOk result (λ e. e ≡ after found (key_errors (look uses.now) (look seen.old) (each_part declared (parts_of (node_tree body.entry))))) }
{
    let mut found = found;
    for index in 0..body.part_count() {
        if let Some(key) = private_key(body.part(index)) {
            found = key_errors(key, uses, seen, found)?;
        }
    }
    Ok(found)
}

/// The errors of one key; the name counts as seen from here on.
fn key_errors<'t>(
    key: Node<'t, '_>,
    uses: &Table<'t, PrivateUse>,
    seen: &mut Table<'t, ()>,
    found: FirstError,
) -> Result<FirstError, AllocError>
    ensures found { IfOk result (λ e. e ≡ after (after found (each EarlyError.PrivateConstructor (when (is (text_of (node_tree key.entry)) "constructor") (start_of (node_tree key.entry) ∷ [])))) (each EarlyError.DuplicatePrivateName (when (is_some (look seen.old (text_of (node_tree key.entry))) && not (is_pair_use (look uses.now (text_of (node_tree key.entry))))) (start_of (node_tree key.entry) ∷ [])))) }
    ensures seen { OnOk result (Agree (look seen.new) (with_value (look seen.old) (text_of (node_tree key.entry)) (Some tt))) }
{
    let name = key.text();
    let at = key.span().start;
    let found = with_error_if(
        name == "constructor",
        found,
        EarlyError::PrivateConstructor,
        at,
    );
    let before = seen.replace(name, Some(()))?;
    let is_repeated = both(before.is_some(), !is_pair(uses.value(name)));
    Ok(with_error_if(is_repeated, found, EarlyError::DuplicatePrivateName, at))
}

/// Whether a name is used by a getter with a setter.
fn is_pair(uses: Option<PrivateUse>) -> bool
    ensures { result ≡ is_pair_use uses }
{
    matches!(uses, Some(PrivateUse::Pair))
}

/// Whether the node is a member, or a chain that ends in one, whose property is a private name.
pub(crate) fn is_private_member(node: Node) -> bool
    ensures { result ≡ private_member (node_tree node.entry) }
{
    match node.kind() {
        Kind::ChainExpression => ends_in_private(node.part(0)),
        _ => ends_in_private(Some(node)),
    }
}

/// Whether the node is a member whose property is a private name.
fn ends_in_private(node: Option<Node>) -> bool
    ensures { result ≡ ends_at_private (option_map node_tree node.entry) }
{
    let Some(node) = node else {
        return false;
    };
    if !matches!(node.kind(), Kind::MemberExpression) {
        return false;
    }
    match node.part(1) {
        Some(property) => property.kind().is_private(),
        None => false,
    }
}
