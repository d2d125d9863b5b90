//! Uses of private names.

ghost use Rattle.std.specs.Prelude.{◌≡◌, ◌++◌, [], ◌∷◌, OnOk};
ghost use Rattle.tree.specs.Node.{node_tree};
ghost use Rattle.tree.specs.Tree.{kind_of, text_of};
ghost use Rattle.private_members.specs.Uses.{own_use};

use crate::standing::Standing;
use std::alloc::AllocError;
use std::marker::Model;
use tree::Node;

/// A use of a private name. Contracts see the name by its bytes.
#[derive(Drop)]
pub(crate) struct Use<'t> {
    name: &'t str,
    is_read: bool,
}

impl<'t> Model for Use<'t> {
    ghost use Rattle.private_members.specs.Uses.{Use};

    ghost Value = { Use };

    ghost view = { λ u. record { name = u.name.now; is_read = u.is_read } };
}

impl<'t> Use<'t> {
    ghost use Rattle.std.specs.Prelude.{◌≡◌};

    /// The name.
    pub(crate) fn name(&self) -> &'t str
        ensures { result.now ≡ self.now.name }
    {
        self.name
    }

    /// Whether it is read, and not only written.
    pub(crate) fn is_read(&self) -> bool
        ensures { result ≡ self.now.is_read }
    {
        self.is_read
    }
}

/// Appends the use that a node is, where it stands so.
pub(crate) fn push_own<'t>(
    standing: Standing,
    node: Node<'t, '_>,
    uses: &mut Vec<Use<'t>>,
) -> Result<(), AllocError>
    ensures { OnOk result (uses.new.items ≡ uses.old.items ++ own_use standing (kind_of (node_tree node.entry)) (text_of (node_tree node.entry))) }
{
    if !node.kind().is_private() {
        return Ok(());
    }
    let name = node.text();
    match standing {
        Standing::Key => Ok(()),
        Standing::Unread => push_use(name, false, uses),
        Standing::Discarded | Standing::InPattern | Standing::Other | Standing::Written => {
            push_use(name, true, uses)
        },
    }
}

/// Appends a use.
pub(crate) fn push_use<'t>(
    name: &'t str,
    is_read: bool,
    uses: &mut Vec<Use<'t>>,
) -> Result<(), AllocError>
    ensures { OnOk result (uses.new.items ≡ uses.old.items ++ record { name = name.now; is_read = is_read } ∷ []) }
{
    uses.push(Use { name, is_read })?;
    Ok(())
}
