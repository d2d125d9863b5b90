#![tactic(auto)]

//! Parts of nodes, each smaller than its node: a walk that goes down a tree by them ends.
//! - May touch: nodes.
//! - Contract: the node, the list or the view that is answered has fewer nodes than the node that was asked.
//! - Begin at: `parts.rt`, parts of nodes and lists; `views.rt`, nodes as what they are. Definitions: `specs/Sizes.antt`.

mod parts;
mod views;

pub use parts::{all_parts, get, part, parts_from};
pub use views::{
    case_of, catch_of, class_body_of, class_of, declarator_of, expression_of, function_of,
    method_of, module_item_of, pattern_of, property_definition_of, property_of, spread_of,
    statement_of, static_block_of,
};
