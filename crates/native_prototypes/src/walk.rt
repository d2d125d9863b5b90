//! One pass over the nodes of a script.

ghost use Rattle.std.specs.Prelude.{◌≡◌, ◌++◌, map, OnOk};
ghost use Rattle.tree.specs.Node.{node_tree};
ghost use Rattle.tree.specs.Flat.{post_order};
ghost use Rattle.name_tables.specs.Sets.{contains};
ghost use Rattle.rule_words.specs.Appends.{Grows};
ghost use Rattle.scopes.specs.Shown.{reference_shown};
ghost use Rattle.native_prototypes.specs.Found.{found, is_bound, of_node, over_nodes};

use crate::bound::bound_names;
use crate::owners::{extended_by, is_native};
use name_tables::NameSet;
use rule_words::{Report, push_fixed_report};
use scopes::Reference;
use std::alloc::{AllocError, Global};
use tree::{Node, Program};

/// Appends what is reported of a script with these references; the flag says whether its language is that of 2022.
///
/// # Errors
///
/// `AllocError` where memory is refused: then what stood in `out` still stands in front, perhaps with some reports behind it.
pub fn push_found(
    alloc: Global,
    is_2022: bool,
    references: &[Reference],
    program: &Program,
    out: &mut Vec<Report>,
) -> Result<(), AllocError>
    ensures found { OnOk result (out.new.items ≡ out.old.items ++ found is_2022 (map reference_shown references.now) program.now) }
    ensures kept { Grows out.old.items out.new.items }
{
    if references.is_empty() {
        return Ok(());
    }
    push_by_references(alloc, is_2022, references, program, out)
}

/// Appends what is reported of a script in which some references mean a binding.
fn push_by_references(
    alloc: Global,
    is_2022: bool,
    references: &[Reference],
    program: &Program,
    out: &mut Vec<Report>,
) -> Result<(), AllocError>
    ensures found { OnOk result (out.new.items ≡ out.old.items ++ over_nodes is_2022 (is_bound (map reference_shown references.now)) (post_order program.now)) }
    ensures kept { Grows out.old.items out.new.items }
{
    let bound = bound_names(alloc, references)?;
    push_nodes(alloc, is_2022, &bound, program, out)
}

/// Appends what is reported of a script in which the names of a set mean a binding.
fn push_nodes(
    alloc: Global,
    is_2022: bool,
    bound: &NameSet,
    program: &Program,
    out: &mut Vec<Report>,
) -> Result<(), AllocError>
    ensures found { OnOk result (out.new.items ≡ out.old.items ++ over_nodes is_2022 (contains bound.now) (post_order program.now)) }
    ensures kept { Grows out.old.items out.new.items }
{
    for number in 0..program.node_count() {
        push_of_node(alloc, is_2022, bound, program.node(number), out)?;
    }
    Ok(())
}

/// Appends a report of an assignment to a member of a built-in prototype.
fn push_of_node(
    alloc: Global,
    is_2022: bool,
    bound: &NameSet,
    node: Node,
    out: &mut Vec<Report>,
) -> Result<(), AllocError>
    ensures found { OnOk result (out.new.items ≡ out.old.items ++ of_node is_2022 (contains bound.now) (node_tree node.entry)) }
    ensures kept { Grows out.old.items out.new.items }
{
    if !is_native(is_2022, bound, extended_by(node)) {
        return Ok(());
    }
    push_fixed_report(
        alloc,
        "no-extend-native",
        node.span(),
        "built-in prototype is extended",
        out,
    )
}
