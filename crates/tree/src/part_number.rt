//! A part of a node in the finished tree.

use crate::flat_node::NodeNumber;
use std::marker::Model;

/// The number of a part's node, or none for a gap, in four bytes; contracts see it as that option.
#[derive(Clone, Copy)]
pub(crate) struct PartNumber {
    /// One more than the number, and 0 for a gap.
    number_plus_one: u32,
}

impl Model for PartNumber {
    ghost use Rattle.std.specs.Prelude.{Option};
    ghost use Rattle.tree.specs.declared.flat_node.NodeNumber.{NodeNumber};
    ghost use Rattle.tree.specs.PartNumber.{part_of, above_of, above_of-part_of, part_code};
    ghost use Rattle.std.proofs.Common.{ap};

    ghost Value = { Option NodeNumber };

    ghost coded = { part_code };

    ghost view = { λ p. part_of p.number_plus_one };

    ghost inverse = { λ o. record { number_plus_one = above_of o } };

    ghost inverse_ok = { λ p h. ap (λ n. record { number_plus_one = n }) (above_of-part_of p.number_plus_one) };
}

impl PartNumber {
    ghost use Rattle.std.specs.Prelude.{◌≡◌, ◌<◌, Some, None};
    ghost use Rattle.tree.specs.Building.{most};
    ghost use Rattle.tree.specs.Flat.{IsBefore};
    ghost use Rattle.tree.specs.Moved.{moved_up};

    /// The number of a part that is missing.
    pub(crate) fn gap() -> PartNumber
        ensures { result ≡ None }
    {
        PartNumber { number_plus_one: 0 }
    }

    /// The part with this number.
    pub(crate) fn of(number: NodeNumber) -> PartNumber
        requires { number.number < u32.MAX }
        ensures { result ≡ Some number }
    {
        PartNumber {
            number_plus_one: number.number + 1,
        }
    }

    /// The number that the part has once its node moves up by one.
    pub(crate) fn moved_up(self) -> PartNumber
        requires { IsBefore most self }
        ensures { result ≡ moved_up self }
    {
        match self.number() {
            Some(node) => PartNumber::of(NodeNumber {
                number: node.number + 1,
            }),
            None => self,
        }
    }

    /// The number, none for a gap.
    pub(crate) fn number(self) -> Option<NodeNumber>
        ensures { result ≡ self }
    {
        if self.number_plus_one == 0 {
            return None;
        }
        Some(NodeNumber {
            number: self.number_plus_one - 1,
        })
    }
}
