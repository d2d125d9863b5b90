//! How a node stands in the one round it, as far as uses of private names ask.

ghost use Rattle.std.specs.Prelude.{◌≡◌};
ghost use Rattle.private_members.specs.Uses.{first_standing, is_discarded, later_standing, property_name, target, written_if};

use tree::{Kind, Node};

/// How a node stands in the one round it.
#[derive(Clone, Copy)]
pub(crate) enum Standing {
    /// It is an expression whose value nothing asks for.
    Discarded,
    /// It is a part of an object pattern.
    InPattern,
    /// It is the key of a member.
    Key,
    /// In another way.
    Other,
    /// It is the name of a member that is only written.
    Unread,
    /// It is only written.
    Written,
}

impl Standing {
    ghost use Rattle.std.specs.Prelude.{◌≡◌};
    ghost use Rattle.tree.specs.Node.{node_tree};
    ghost use Rattle.tree.specs.Tree.{kind_of, text_of};
    ghost use Rattle.private_members.specs.Uses.{standing_at};

    /// How the part at a place of a node stands, where the node stands so.
    pub(crate) fn at(self, node: Node, place: usize) -> Standing
        ensures { result ≡ standing_at self (kind_of (node_tree node.entry)) (text_of (node_tree node.entry)) place }
    {
        let kind = node.kind();
        match kind {
            Kind::ArrayPattern | Kind::RestElement => return Standing::Written,
            Kind::ObjectPattern => return Standing::InPattern,
            _ => {},
        }
        if place == 0 {
            first_standing(self, kind, node.text())
        } else {
            later_standing(self, kind)
        }
    }
}

/// How the first part of a node of a kind stands, where the node stands so.
fn first_standing(standing: Standing, kind: Kind, text: &str) -> Standing
    ensures { result ≡ first_standing standing kind text.now }
{
    match kind {
        Kind::ExpressionStatement => Standing::Discarded,
        Kind::AssignmentExpression => target(standing, text),
        Kind::UpdateExpression => written_if(is_discarded(standing)),
        Kind::ForInStatement | Kind::ForOfStatement | Kind::AssignmentPattern => Standing::Written,
        Kind::MethodDefinition | Kind::PropertyDefinition => Standing::Key,
        _ => Standing::Other,
    }
}

/// The same of the parts behind it.
fn later_standing(standing: Standing, kind: Kind) -> Standing
    ensures { result ≡ later_standing standing kind }
{
    match kind {
        Kind::MemberExpression => property_name(standing),
        Kind::Property => written_if(matches!(standing, Standing::InPattern)),
        _ => Standing::Other,
    }
}

/// How the target of an assignment stands.
fn target(standing: Standing, operator: &str) -> Standing
    ensures { result ≡ target standing operator.now }
{
    if operator == "=" {
        Standing::Written
    } else {
        written_if(is_discarded(standing))
    }
}

/// How the name of a property stands in what stands so.
fn property_name(standing: Standing) -> Standing
    ensures { result ≡ property_name standing }
{
    match standing {
        Standing::Written => Standing::Unread,
        _ => Standing::Other,
    }
}

/// What is only written, if it is.
fn written_if(is_written: bool) -> Standing
    ensures { result ≡ written_if is_written }
{
    if is_written {
        Standing::Written
    } else {
        Standing::Other
    }
}

/// Whether nothing asks for the value of what stands so.
fn is_discarded(standing: Standing) -> bool
    ensures { result ≡ is_discarded standing }
{
    matches!(standing, Standing::Discarded)
}
