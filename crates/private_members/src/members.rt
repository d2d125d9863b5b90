//! What is done with a class: its unused members are reported, and uses of what it doesn't declare are handed on.

ghost use Rattle.std.specs.Prelude.{◌≡◌, ◌++◌, ◌&&◌, ◌||◌, ℕ, List, option_map, IfOk, OnOk};
ghost use Rattle.std.specs.Str.{bytes_eq};
ghost use Rattle.tree.specs.Node.{node_tree};
ghost use Rattle.tree.specs.Tree.{parts_of};
ghost use Rattle.name_tables.specs.BoundNames.{each_part};
ghost use Rattle.name_tables.specs.PatternParts.{at_part};
ghost use Rattle.name_tables.specs.Sets.{contains};
ghost use Rattle.rule_words.specs.Appends.{Grows};
ghost use Rattle.private_members.specs.Found.{is_accessor, is_used, of_member};
ghost use Rattle.private_members.specs.Sets.{Has, Knows, is_known, key_at};
ghost use Rattle.private_members.specs.Uses.{declared_names, free, has_name, name_of};

use crate::used::{Use, push_use};
use name_tables::{HashKey, NameSet};
use rule_words::{Report, push_fixed_report};
use std::alloc::{AllocError, Global};
use tree::{Form, Node};

/// The private names of uses, and of those of them that are read.
#[derive(Drop)]
struct UsedNames<'t> {
    named: NameSet<'t>,
    read: NameSet<'t>,
}

/// Puts the name of a use in.
fn put_use<'t>(used: &Use<'t>, names: &mut UsedNames<'t>) -> Result<(), AllocError>
    ensures named { OnOk result ((w : List ℕ) → contains names.new.named w ≡ (bytes_eq w used.now.name || contains names.old.named w)) }
    ensures read { OnOk result ((w : List ℕ) → contains names.new.read w ≡ ((used.now.is_read && bytes_eq w used.now.name) || contains names.old.read w)) }
{
    names.named.insert(used.name())?;
    if used.is_read() {
        names.read.insert(used.name())?;
    }
    Ok(())
}

/// The names of uses.
fn names_of<'t>(alloc: Global, key: HashKey, uses: &[Use<'t>]) -> Result<UsedNames<'t>, AllocError>
    ensures { IfOk result (λ names. Knows names uses.now) }
{
    let mut names = UsedNames {
        named: NameSet::new(alloc, key),
        read: NameSet::new(alloc, key),
    };
    for used in uses {
        put_use(used, &mut names)?;
    }
    Ok(names)
}

/// Whether it is the form of a getter or of a setter.
fn is_accessor(form: Form) -> bool
    ensures { result ≡ is_accessor form }
{
    matches!(form, Form::Get | Form::Set)
}

/// Whether a member of this form is used under this name.
fn is_used(names: &UsedNames, form: Form, name: &str) -> bool
    ensures { result ≡ is_known names.now form name.now }
{
    if is_accessor(form) {
        names.named.contains(name)
    } else {
        names.read.contains(name)
    }
}

/// The key of a member, if it is a private name.
fn private_key<'t, 's>(member: Option<Node<'t, 's>>) -> Option<Node<'t, 's>>
    ensures { option_map node_tree result ≡ key_at (option_map node_tree member.entry) }
{
    let Some(member) = member else {
        return None;
    };
    let Some(key) = member.part(0) else {
        return None;
    };
    if key.kind().is_private() {
        Some(key)
    } else {
        None
    }
}

/// Appends a report of a member, if it is private and not used.
fn push_member(
    alloc: Global,
    names: &UsedNames,
    member: Option<Node>,
    out: &mut Vec<Report>,
) -> Result<(), AllocError>
    ensures found { OnOk result (out.new.items ≡ out.old.items ++ at_part (of_member (is_known names.now)) (option_map node_tree member.entry)) }
    ensures kept { Grows out.old.items out.new.items }
{
    let Some(member) = member else {
        return Ok(());
    };
    let Some(key) = private_key(Some(member)) else {
        return Ok(());
    };
    if is_used(names, member.flags().form, key.text()) {
        return Ok(());
    }
    push_fixed_report(
        alloc,
        "no-unused-private-class-members",
        key.span(),
        "private member is never used",
        out,
    )
}

/// Appends a report of each private member of a class that isn't used.
fn push_unused(
    alloc: Global,
    names: &UsedNames,
    body: Node,
    out: &mut Vec<Report>,
) -> Result<(), AllocError>
    ensures found { OnOk result (out.new.items ≡ out.old.items ++ each_part (of_member (is_known names.now)) (parts_of (node_tree body.entry))) }
    ensures kept { Grows out.old.items out.new.items }
{
    let parts = body.parts();
    for index in 0..parts.len() {
        push_member(alloc, names, parts.get(index), out)?;
    }
    Ok(())
}

/// Puts the private name of a member into a set.
fn put_name<'t>(member: Option<Node<'t, '_>>, names: &mut NameSet<'t>) -> Result<(), AllocError>
    ensures { OnOk result ((w : List ℕ) → contains names.new w ≡ (contains names.old w || has_name (name_of (key_at (option_map node_tree member.entry))) w)) }
{
    let Some(key) = private_key(member) else {
        return Ok(());
    };
    names.insert(key.text())?;
    Ok(())
}

/// The private names that a class declares.
fn declared_names<'t>(
    alloc: Global,
    key: HashKey,
    body: Node<'t, '_>,
) -> Result<NameSet<'t>, AllocError>
    ensures { IfOk result (λ names. Has names (declared_names (parts_of (node_tree body.entry)))) }
{
    let mut names = NameSet::new(alloc, key);
    for index in 0..body.part_count() {
        put_name(body.part(index), &mut names)?;
    }
    Ok(names)
}

/// Appends the uses of other names than these.
fn push_free<'t>(
    declared: &NameSet,
    inner: &[Use<'t>],
    uses: &mut Vec<Use<'t>>,
) -> Result<(), AllocError>
    ensures { OnOk result (uses.new.items ≡ uses.old.items ++ free (contains declared.now) inner.now) }
{
    for used in inner {
        if !declared.contains(used.name()) {
            push_use(used.name(), used.is_read(), uses)?;
        }
    }
    Ok(())
}

/// Reports the members of a class that nothing uses, and hands on the uses in it of what it doesn't declare.
pub(crate) fn leave_class<'t>(
    alloc: Global,
    key: HashKey,
    body: Node<'t, '_>,
    inner: &[Use<'t>],
    uses: &mut Vec<Use<'t>>,
    out: &mut Vec<Report>,
) -> Result<(), AllocError>
    ensures uses { OnOk result (uses.new.items ≡ uses.old.items ++ free (has_name (declared_names (parts_of (node_tree body.entry)))) inner.now) }
    ensures found { OnOk result (out.new.items ≡ out.old.items ++ each_part (of_member (is_used inner.now)) (parts_of (node_tree body.entry))) }
    ensures kept { Grows out.old.items out.new.items }
{
    let names = names_of(alloc, key, inner)?;
    push_unused(alloc, &names, body, out)?;
    let declared = declared_names(alloc, key, body)?;
    push_free(&declared, inner, uses)
}
