//! Chains: the parts of them, and where their `?.` stand.

ghost use Rattle.std.specs.Prelude.{◌≡◌, true, option_map};
ghost use Rattle.tree.specs.Node.{node_tree};
ghost use Rattle.tree.specs.Tree.{kind_of, flags_of, parts_of};
ghost use Rattle.language.specs.Expressions.{has_optional as is_chained_tree, first_has_optional};
ghost use Rattle.spellings.specs.Others.{linked_by as outline_linked, member_link as outline_of_member_link, spine_outline as outline_of_spine};
ghost use Rattle.spellings.specs.Entries.{entry_at};
ghost use Rattle.spellings.specs.Expressions.{kind_at as kind_of_entry};
ghost use Rattle.spelling_table.specs.Productions.{call_link as outline_of_call_link};
ghost use Rattle.spelling_table.specs.Productions.{outline_of};
ghost use Rattle.spelling_table.specs.declared.position.Slot.TheVariants.{Lead, LeadSpine};
ghost use Rattle.language.specs.declared.Rank.TheVariants.{Call};

use crate::expressions::kind_at;
use crate::parts::part_at;
use grammar::has_optional;
use spelling_table::Production;
use tree::{Flags, Kind, Node};

/// Whether a `?.` stands in the first part of a part of a chain, or below; `in_chain`: one is known to stand in the node or below it.
/// Then it isn't looked for behind a part without one of its own: each part of a chain is passed once, from the nearest above that has one.
#[tactic(auto, using(grammar::proofs::ChainParts::chained_first, crate::proofs::ChainParts::chained_inside))]
fn is_first_chained(node: Node, in_chain: bool) -> bool
    requires { in_chain ≡ true → is_chained_tree (node_tree node) ≡ true }
    ensures { result ≡ first_has_optional (parts_of (node_tree node.entry)) }
{
    if in_chain && !node.flags().optional {
        return true;
    }
    has_optional(node.part(0))
}

/// A part of a chain above its base; `in_chain`: a `?.` is known to stand in it or below it.
pub(crate) fn chain_part_production(node: Node, in_chain: bool) -> Option<Production>
    requires { in_chain ≡ true → is_chained_tree (node_tree node) ≡ true }
    ensures { option_map outline_of result ≡ outline_of_spine (kind_of (node_tree node.entry)) (flags_of (node_tree node.entry)) (first_has_optional (parts_of (node_tree node.entry))) (kind_of_entry (entry_at (parts_of (node_tree node.entry)) 1)) }
{
    let flags = node.flags();
    let chained = is_first_chained(node, in_chain);
    match node.kind() {
        Kind::MemberExpression => member_link(chained, flags, kind_at(part_at(node, 1))),
        Kind::CallExpression => call_link(chained, flags.optional),
        _ => None,
    }
}

/// A member: a further part of a chain stands below, or the chain's base.
fn member_link(chained: bool, flags: Flags, property: Kind) -> Option<Production>
    ensures { option_map outline_of result ≡ outline_linked chained flags.optional (outline_of_member_link LeadSpine flags property) (outline_of_member_link (Lead Call) flags property) }
{
    if !chained && !flags.optional {
        return None;
    }
    if property.is_private() && !flags.computed {
        return Some(Production::PrivateMemberLink { goes_on: chained });
    }
    Some(Production::MemberLink {
        goes_on: chained,
        is_computed: flags.computed,
    })
}

/// A call, as above.
fn call_link(chained: bool, optional: bool) -> Option<Production>
    ensures { option_map outline_of result ≡ outline_linked chained optional (outline_of_call_link LeadSpine) (outline_of_call_link (Lead Call)) }
{
    if !chained && !optional {
        return None;
    }
    Some(Production::CallLink { goes_on: chained })
}
