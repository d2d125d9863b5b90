//! One walk over the nodes of a script.

ghost use Rattle.std.specs.Prelude.{◌≡◌, ◌++◌, option_map, OnOk};
ghost use Rattle.tree.specs.Flat.{post_order};
ghost use Rattle.tree.specs.Node.{node_tree};
ghost use Rattle.tree.specs.Tree.{kind_of, parts_of, text_of};
ghost use Rattle.name_tables.specs.PatternParts.{at_part};
ghost use Rattle.rule_words.specs.Appends.{Grows};
ghost use Rattle.private_members.specs.Found.{found, found_in};
ghost use Rattle.private_members.specs.Sets.{has_private};
ghost use Rattle.private_members.specs.Uses.{is_class_body, uses_in, uses_of};

use crate::members::leave_class;
use crate::standing::Standing;
use crate::used::{Use, push_own};
use name_tables::{HashKey, KeyBuilder};
use rule_words::Report;
use std::alloc::{AllocError, Global};
use tree::{Kind, Node, Program};

/// A walk over nodes: where it takes memory from, and the key of its sets.
#[derive(Clone, Copy)]
struct Walk {
    alloc: Global,
    key: HashKey,
}

/// Appends what is reported of a script.
///
/// # Errors
///
/// `AllocError` where memory is refused: then what stood in `out` still stands in front, perhaps with some reports behind it.
pub fn push_found(alloc: Global, program: &Program, out: &mut Vec<Report>) -> Result<(), AllocError>
    ensures found { OnOk result (out.new.items ≡ out.old.items ++ found program.now) }
    ensures kept { Grows out.old.items out.new.items }
{
    if !has_private(program) {
        return Ok(());
    }
    let walk = Walk {
        alloc,
        key: key_of(program),
    };
    let mut uses = Vec::new(alloc);
    push_node(walk, Standing::Other, program.root(), &mut uses, out)
}

/// Whether a script has a private name: most have none, and are left at once.
fn has_private(program: &Program) -> bool
    ensures { result ≡ has_private (post_order program.now) }
{
    for number in 0..program.node_count() {
        if program.node(number).kind().is_private() {
            return true;
        }
    }
    false
}

/// The key of sets of private names, drawn from all of a script.
fn key_of(program: &Program) -> HashKey {
    let mut builder = KeyBuilder::new();
    for number in 0..program.node_count() {
        let node = program.node(number);
        if node.kind().is_private() {
            builder.add(node.text());
        }
    }
    builder.build()
}

/// Whether it is the kind of a class's body.
fn is_class_body(kind: Kind) -> bool
    ensures { result ≡ is_class_body kind }
{
    matches!(kind, Kind::ClassBody)
}

/// Appends the uses in a node that no class in it declares, and what is reported of the classes in it.
#[cycle(walking)]
fn push_node<'t>(
    walk: Walk,
    standing: Standing,
    node: Node<'t, '_>,
    uses: &mut Vec<Use<'t>>,
    out: &mut Vec<Report>,
) -> Result<(), AllocError>
    ensures uses { OnOk result (uses.new.items ≡ uses.old.items ++ uses_of standing (node_tree node.entry)) }
    ensures found { OnOk result (out.new.items ≡ out.old.items ++ found (node_tree node.entry)) }
    ensures kept { Grows out.old.items out.new.items }
{
    push_own(standing, node, uses)?;
    if !is_class_body(node.kind()) {
        return push_parts(walk, standing, node, uses, out);
    }
    let mut inner = Vec::new(walk.alloc);
    push_parts(walk, standing, node, &mut inner, out)?;
    leave_class(walk.alloc, walk.key, node, &inner, uses, out)
}

/// The same of the parts of a node that stands so.
#[cycle(walking)]
#[tactic(auto, using(tree::proofs::PartWalk::part_steps))]
fn push_parts<'t>(
    walk: Walk,
    standing: Standing,
    node: Node<'t, '_>,
    uses: &mut Vec<Use<'t>>,
    out: &mut Vec<Report>,
) -> Result<(), AllocError>
    ensures uses { OnOk result (uses.new.items ≡ uses.old.items ++ uses_in standing (kind_of (node_tree node.entry)) (text_of (node_tree node.entry)) 0 (parts_of (node_tree node.entry))) }
    ensures found { OnOk result (out.new.items ≡ out.old.items ++ found_in (parts_of (node_tree node.entry))) }
    ensures kept { Grows out.old.items out.new.items }
{
    for index in 0..node.part_count() {
        push_part(walk, standing.at(node, index), node.part(index), uses, out)?;
    }
    Ok(())
}

/// The same of a part, which may be missing.
#[cycle(walking)]
fn push_part<'t>(
    walk: Walk,
    standing: Standing,
    part: Option<Node<'t, '_>>,
    uses: &mut Vec<Use<'t>>,
    out: &mut Vec<Report>,
) -> Result<(), AllocError>
    ensures uses { OnOk result (uses.new.items ≡ uses.old.items ++ at_part (uses_of standing) (option_map node_tree part.entry)) }
    ensures found { OnOk result (out.new.items ≡ out.old.items ++ at_part found (option_map node_tree part.entry)) }
    ensures kept { Grows out.old.items out.new.items }
{
    match part {
        Some(part) => push_node(walk, standing, part, uses, out),
        None => Ok(()),
    }
}
