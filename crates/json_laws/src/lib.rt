#![tactic(auto)]

//! Theorems: what the JSON of a tree tells of the tree.
//! - May touch: nothing. Each contract is a theorem, and the body does nothing.
//! - Contract: `json_tells_trees`: places aside, two texts of one language have one tree exactly if they have one JSON and the same specifiers.
//! - Begin at: `specs/Laws.antt` and `specs/Placeless.antt` for what is said; `proofs/SameTrees.antt` for why.

ghost use Rattle.json_laws.specs.Laws.{JsonTellsTrees, OneJsonHasOneTree, OneTreeHasOneJson};

/// Trees that are the same, places aside, have the same JSON, places aside, and each specifier of an import or export has one name in both,
/// or two.
pub fn one_tree_has_one_json()
    ensures { OneTreeHasOneJson }
{}

/// Where two texts derive trees in one language that have the same JSON, places aside, and the same specifiers, these are the same tree,
/// places aside.
pub fn one_json_has_one_tree()
    ensures { OneJsonHasOneTree }
{}

/// So two texts derive in one language the same tree, places aside, exactly if the JSON of their trees is the same, places aside, and each
/// specifier of an import or export has one name in both, or two.
pub fn json_tells_trees()
    ensures { JsonTellsTrees }
{}
