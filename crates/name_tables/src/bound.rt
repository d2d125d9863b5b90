//! The names that a pattern or a target binds, in the order of the tree.

ghost use Rattle.std.specs.Prelude.{◌≡◌, ◌++◌, ◌∷◌, [], ◌-◌, option_map, OnOk};
ghost use Rattle.tree.specs.Node.{node_tree};
ghost use Rattle.tree.specs.Tree.{part_at, part_count, parts_of};
ghost use Rattle.name_tables.specs.PatternParts.{all_bound, at_part, bound_as, pattern_of};
ghost use Rattle.name_tables.specs.BoundNames.{each_part, bound_names};

use std::alloc::AllocError;
use tree::{Kind, Node};

/// An identifier that a pattern or a target binds.
#[derive(Clone, Copy)]
pub struct BoundName<'t, H> {
    /// The identifier.
    pub name: &'t str,
    /// Where the identifier begins and ends, in bytes.
    pub start: usize,
    pub end: usize,
    /// How it is bound.
    pub how: H,
}

/// Which parts of a node have the names that it binds as a pattern.
#[derive(Clone, Copy)]
pub enum PatternNames {
    /// The node itself: it is an identifier.
    Name,
    /// All that it has, as an array's elements.
    AllParts,
    /// The first: the target before a default value.
    FirstPart,
    /// The last: a property's value.
    LastPart,
    /// None.
    Nothing,
}

/// Which parts of a node of this kind have the names that it binds.
pub fn pattern_names_of(kind: Kind) -> PatternNames
    ensures { result ≡ pattern_of kind }
{
    match kind {
        Kind::Identifier => PatternNames::Name,
        Kind::ArrayPattern | Kind::ObjectPattern | Kind::RestElement => PatternNames::AllParts,
        Kind::AssignmentPattern => PatternNames::FirstPart,
        Kind::Property => PatternNames::LastPart,
        _ => PatternNames::Nothing,
    }
}

/// The part that stands last, where it isn't missing.
pub fn last_part<'t, 's>(node: Node<'t, 's>) -> Option<Node<'t, 's>>
    ensures { option_map node_tree result ≡ part_at (parts_of (node_tree node.entry)) (part_count (parts_of (node_tree node.entry)) - 1) }
{
    let count = node.part_count();
    if count == 0 {
        return None;
    }
    node.part(count - 1)
}

/// Pushes what a pattern or a target binds (ECMA-262 12.1.2, 13.3.3.1).
#[cycle(pattern)]
#[tactic(auto, using(tree::proofs::PartWalk::part_steps))]
pub fn push_names<'t, H: Copy>(
    node: Node<'t, '_>,
    how: H,
    names: &mut Vec<BoundName<'t, H>>,
) -> Result<(), AllocError>
    ensures { OnOk result (all_bound names.new.items ≡ all_bound names.old.items ++ bound_names (bound_as how) (node_tree node.entry)) }
{
    match pattern_names_of(node.kind()) {
        PatternNames::Name => push_name(node, how, names),
        PatternNames::AllParts => push_all_names(node, how, names),
        PatternNames::FirstPart => push_part_names(node.part(0), how, names),
        PatternNames::LastPart => push_part_names(last_part(node), how, names),
        PatternNames::Nothing => Ok(()),
    }
}

/// Adds the name of an identifier, with its place in bytes.
fn push_name<'t, H: Copy>(
    node: Node<'t, '_>,
    how: H,
    names: &mut Vec<BoundName<'t, H>>,
) -> Result<(), AllocError>
    ensures { OnOk result (all_bound names.new.items ≡ all_bound names.old.items ++ bound_as how (node_tree node.entry) ∷ []) }
{
    let span = node.span();
    names.push(BoundName {
        name: node.text(),
        start: span.start,
        end: span.end,
        how,
    })?;
    Ok(())
}

/// Adds the names that all parts of a node bind.
#[cycle(pattern)]
#[tactic(auto, using(tree::proofs::PartWalk::part_steps))]
fn push_all_names<'t, H: Copy>(
    node: Node<'t, '_>,
    how: H,
    names: &mut Vec<BoundName<'t, H>>,
) -> Result<(), AllocError>
    ensures { OnOk result (all_bound names.new.items ≡ all_bound names.old.items ++ each_part (bound_names (bound_as how)) (parts_of (node_tree node.entry))) }
{
    for index in 0..node.part_count() {
        push_part_names(node.part(index), how, names)?;
    }
    Ok(())
}

/// Adds the names that a part binds, which may be missing.
#[cycle(pattern)]
#[tactic(auto, using(tree::proofs::PartWalk::part_steps))]
pub fn push_part_names<'t, H: Copy>(
    part: Option<Node<'t, '_>>,
    how: H,
    names: &mut Vec<BoundName<'t, H>>,
) -> Result<(), AllocError>
    ensures { OnOk result (all_bound names.new.items ≡ all_bound names.old.items ++ at_part (bound_names (bound_as how)) (option_map node_tree part.entry)) }
{
    match part {
        Some(part) => push_names(part, how, names),
        None => Ok(()),
    }
}
