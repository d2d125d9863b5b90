//! Whether a `var` of the same function stands below a node.

ghost use Rattle.std.specs.Prelude.{◌≡◌, ◌-◌, ◌||◌, ◌++◌, [], option_map, OnOk};
ghost use Rattle.early_errors.specs.Names.{parts_vars};
ghost use Rattle.early_errors.specs.Walk.{all_named};
ghost use Rattle.std.specs.Bool.{OnTrue};
ghost use Rattle.tree.specs.Node.{node_tree};
ghost use Rattle.tree.specs.Tree.{kind_of, part_count, parts_of, text_of};
ghost use Rattle.early_errors.specs.Names.{is_function, is_static_block, var_names};
ghost use Rattle.name_tables.specs.PatternParts.{at_part};
ghost use Rattle.early_errors.specs.Walks.{is_var, range_vars};
ghost use Rattle.early_errors.specs.Owns.{vars_of};

use crate::names::{NamePlace, push_declared};
use std::alloc::AllocError;
use tree::{Kind, Node};

/// Whether no `var` stands in a node's parts from a place on, inner functions aside. It looks at so many nodes at most, and says no
/// where there are more.
pub(crate) fn has_no_var(node: Node, from: usize, most: usize) -> bool
    ensures { OnTrue result (range_vars (parts_of (node_tree node.entry)) from (part_count (parts_of (node_tree node.entry)) - from) ≡ []) }
{
    let mut left = most;
    parts_have_none(node, from, &mut left)
}

/// Whether no part from an index on has a `var`; no if more than `left` nodes would have to be looked at.
#[cycle(vars)]
#[tactic(auto, using(tree::proofs::PartWalk::part_steps))]
fn parts_have_none(node: Node, from: usize, left: &mut usize) -> bool
    ensures { OnTrue result (range_vars (parts_of (node_tree node.entry)) from (part_count (parts_of (node_tree node.entry)) - from) ≡ []) }
{
    for index in from..node.part_count() {
        if !part_has_none(node.part(index), left) {
            return false;
        }
    }
    true
}

/// Whether a part that may be missing has no `var`; no if more than `left` nodes would have to be looked at.
#[cycle(vars)]
#[tactic(auto, using(tree::proofs::PartWalk::part_steps))]
fn part_has_none(part: Option<Node>, left: &mut usize) -> bool
    ensures { OnTrue result (at_part var_names (option_map node_tree part.entry) ≡ []) }
{
    match part {
        Some(part) => has_none(part, left),
        None => true,
    }
}

/// Whether no `var` is in the node, inner functions aside; no if more than `left` nodes would have to be looked at.
#[cycle(vars)]
#[tactic(auto, using(tree::proofs::PartWalk::part_steps))]
fn has_none(node: Node, left: &mut usize) -> bool
    ensures { OnTrue result (var_names (node_tree node.entry) ≡ []) }
{
    if *left == 0 {
        return false;
    }
    *left -= 1;
    if has_own_vars(node.kind()) {
        return true;
    }
    if is_var(node) {
        return false;
    }
    parts_have_none(node, 0, left)
}

/// Whether the `var`s inside a node of this kind are its own: in a function or a static block.
pub(crate) fn has_own_vars(kind: Kind) -> bool
    ensures { result ≡ (is_function kind || is_static_block kind) }
{
    match kind {
        Kind::StaticBlock => true,
        kind => kind.is_function(),
    }
}

/// Whether the node is a declaration by `var`.
fn is_var(node: Node) -> bool
    ensures { result ≡ is_var (kind_of (node_tree node.entry)) (text_of (node_tree node.entry)) }
{
    match node.kind() {
        Kind::VariableDeclaration => node.text() == "var",
        _ => false,
    }
}

/// Pushes the names of `var` in a node at any depth, inner functions and static blocks aside (ECMA-262 13.1.5).
#[cycle(pushing)]
#[tactic(auto, using(tree::proofs::PartWalk::part_steps))]
pub(crate) fn push_vars<'t>(
    node: Node<'t, '_>,
    names: &mut Vec<NamePlace<'t>>,
) -> Result<(), AllocError>
    ensures { OnOk result (all_named names.new.items ≡ all_named names.old.items ++ var_names (node_tree node.entry)) }
{
    if has_own_vars(node.kind()) {
        return Ok(());
    }
    push_own_vars(node, names)?;
    push_parts_vars(node, names)
}

/// Pushes those that a node itself declares.
fn push_own_vars<'t>(node: Node<'t, '_>, names: &mut Vec<NamePlace<'t>>) -> Result<(), AllocError>
    ensures { OnOk result (all_named names.new.items ≡ all_named names.old.items ++ vars_of (node_tree node.entry)) }
{
    if is_var(node) {
        push_declared(node, names)
    } else {
        Ok(())
    }
}

/// Adds those of all parts of a node.
#[cycle(pushing)]
#[tactic(auto, using(tree::proofs::PartWalk::part_steps))]
fn push_parts_vars<'t>(node: Node<'t, '_>, names: &mut Vec<NamePlace<'t>>) -> Result<(), AllocError>
    ensures { OnOk result (all_named names.new.items ≡ all_named names.old.items ++ parts_vars (parts_of (node_tree node.entry))) }
{
    for index in 0..node.part_count() {
        if let Some(part) = node.part(index) {
            push_vars(part, names)?;
        }
    }
    Ok(())
}
