//! A tree as a value that serde writes.
#![tactic(auto, unfolding(crate::specs::Estree::estree_data))]

use crate::events::SerializeRefused;
use crate::serialize::serialize_node;
use serde::{Described, Serialize, Serializer};
use std::alloc::Global;
use tree::{Node, Program};

/// A node and all that is below it, as ESTree has them, for every format of serde: `serde_json::to_string(alloc, &estree)` is their JSON.
/// An object's keys come in the order of their bytes; how many there are isn't said beforehand.
#[derive(Clone, Copy)]
pub struct Estree<'t, 's> {
    pub(crate) alloc: Global,
    pub(crate) node: Node<'t, 's>,
    /// Whether it is the last part of the node that it is in.
    pub(crate) is_last: bool,
}

impl<'t, 's> Estree<'t, 's> {
    ghost use Rattle.std.specs.Prelude.{◌≡◌};
    ghost use Rattle.tree.specs.Node.{node_tree};
    ghost use Rattle.estree_json.specs.Json.{node_json, json_of};
    ghost use Rattle.estree_json.specs.Estree.{estree_data};

    /// A node; `is_last` says whether it is the last part of the node that it is in. The values of strings and templates are made in memory
    /// of `alloc`. Where that is refused, the error is the serializer's own (`custom`), with the words `out of memory`.
    pub fn new(alloc: Global, node: Node<'t, 's>, is_last: bool) -> Estree<'t, 's>
        ensures { estree_data result ≡ node_json is_last (node_tree node.entry) }
    {
        Estree {
            alloc,
            node,
            is_last,
        }
    }

    /// A whole script.
    pub fn of_program(alloc: Global, program: &'t Program<'s>) -> Estree<'t, 's>
        ensures { estree_data result ≡ json_of program.now }
    {
        Estree::new(alloc, program.root(), true)
    }
}

impl Described for Estree<'_, '_> {
    ghost use Rattle.estree_json.specs.Sent.{Sends};
    ghost use Rattle.estree_json.specs.Estree.{estree_data};

    ghost writes = { λ e. Sends (estree_data e) };
}

impl Serialize for Estree<'_, '_> {
    /// Writes the node by this serializer; the error is the serializer's own, or that memory was refused.
    fn serialize<S: Serializer>(&self, out: &mut S) -> Result<(), S::Error> {
        let mut error = out.custom("out of memory");
        match serialize_node(out, &mut error, *self) {
            Ok(()) => Ok(()),
            Err(SerializeRefused) => Err(error),
        }
    }
}
