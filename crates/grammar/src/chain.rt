//! Chains: where their `?.` stand.

ghost use Rattle.std.specs.Prelude.{◌≡◌, option_map};
ghost use Rattle.tree.specs.Node.{node_tree};
ghost use Rattle.grammar.specs.Chains.{part_has_optional};

use tree::Node;

/// Whether a `?.` stands in this part of a chain or in one below it.
#[tactic(auto, using(tree::proofs::PartWalk::part_steps))]
pub fn has_optional(part: Option<Node>) -> bool
    ensures { result ≡ part_has_optional (option_map node_tree part.entry) }
{
    let Some(node) = part else {
        return false;
    };
    if !node.kind().is_chain_part() {
        return false;
    }
    if node.flags().optional {
        return true;
    }
    has_optional(node.part(0))
}
