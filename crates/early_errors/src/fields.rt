//! Fields and static blocks (ECMA-262, 13th edition, 15.7.1).

ghost use Rattle.std.specs.Prelude.{◌≡◌};
ghost use Rattle.tree.specs.Node.{node_tree};
ghost use Rattle.tree.specs.Tree.{kind_of};
ghost use Rattle.early_errors.specs.Early.{own_errors};
ghost use Rattle.early_errors.specs.Owns.{Beside, own_of, round};
ghost use Rattle.early_errors.specs.Walk.{after};
ghost use Rattle.early_errors.specs.declared.own.OwnErrors.{OwnErrors};

use crate::EarlyError;
use crate::around::Context;
use crate::classes::{key_error, says};
use crate::found::{FirstError, with_error_if};
use crate::literals::both;
use tree::Node;

/// A field `constructor`, a static field `prototype`.
pub(crate) fn field_errors(field: Node, found: FirstError) -> FirstError
    requires { own_of (kind_of (node_tree field)) ≡ OwnErrors.Field }
    ensures { (z : _) → result ≡ after found (own_errors z (node_tree field.entry)) }
{
    let flags = field.flags();
    let key = field.part(0);
    let named = says(key, flags.computed, "constructor");
    let found = key_error(key, named, EarlyError::FieldNamedConstructor, found);
    let prototype = both(flags.is_static, says(key, flags.computed, "prototype"));
    key_error(key, prototype, EarlyError::StaticPrototype, found)
}

/// `arguments` in the value of a field or in a static block.
pub(crate) fn name_errors(node: Node, around: Context, found: FirstError) -> FirstError
    requires { own_of (kind_of (node_tree node)) ≡ OwnErrors.Name }
    ensures { (r : Beside) → result ≡ after found (own_errors (round around r) (node_tree node.entry)) }
{
    let refers = both(around.no_arguments, !around.is_word);
    with_error_if(
        both(refers, node.text() == "arguments"),
        found,
        EarlyError::ArgumentsInInit,
        node.span().start,
    )
}
