//! The names that a tree binds, declares or assigns, each with the place of its identifier.

ghost use Rattle.std.specs.Prelude.{◌≡◌, ◌++◌, option_map, OnOk};
ghost use Rattle.tree.specs.Node.{node_tree};
ghost use Rattle.tree.specs.Tree.{parts_drop, parts_of};
ghost use Rattle.name_tables.specs.PatternParts.{at_part};
ghost use Rattle.name_tables.specs.BoundNames.{each_part};
ghost use Rattle.early_errors.specs.Names.{declared_names, lexical_names, parameter_names};
ghost use Rattle.early_errors.specs.Owns.{case_names};
ghost use Rattle.early_errors.specs.Walk.{all_named, lexical_as, names_at};

use name_tables::{BoundName, DeclaratorAs, LexicalAs};
use std::alloc::AllocError;
use tree::Node;

/// A name and the place of its identifier, in bytes.
pub(crate) type NamePlace<'t> = BoundName<'t, ()>;

/// Pushes the names that a part binds or assigns which may be missing (ECMA-262 13.3.3.1).
pub(crate) fn push_part_names<'t>(
    part: Option<Node<'t, '_>>,
    names: &mut Vec<NamePlace<'t>>,
) -> Result<(), AllocError>
    ensures { OnOk result (all_named names.new.items ≡ all_named names.old.items ++ names_at (option_map node_tree part.entry)) }
{
    name_tables::push_part_names(part, (), names)
}

/// Pushes the names of a declaration, whose parts are its declarators.
pub(crate) fn push_declared<'t>(
    node: Node<'t, '_>,
    names: &mut Vec<NamePlace<'t>>,
) -> Result<(), AllocError>
    ensures { OnOk result (all_named names.new.items ≡ all_named names.old.items ++ declared_names (parts_of (node_tree node.entry))) }
{
    let how = DeclaratorAs {
        initialized: (),
        bare: (),
    };
    name_tables::push_declarators(node, how, names)
}

/// How names are bound that items declare lexically; functions too where the flag says so (ECMA-262 13.2.5, 13.2.7).
pub(crate) fn lexical_as(functions: bool) -> LexicalAs<()>
    ensures { result ≡ lexical_as functions }
{
    let declarators = DeclaratorAs {
        initialized: (),
        bare: (),
    };
    LexicalAs {
        by_let: declarators,
        by_const: declarators,
        class: (),
        import: (),
        function: if functions { Some(()) } else { None },
    }
}

/// Pushes the names of an item that is a `let`, a `const` or a class, and of a function too where the flag says so. The item may
/// be missing.
pub(crate) fn push_lexical_part<'t>(
    functions: bool,
    item: Option<Node<'t, '_>>,
    names: &mut Vec<NamePlace<'t>>,
) -> Result<(), AllocError>
    ensures { OnOk result (all_named names.new.items ≡ all_named names.old.items ++ at_part (lexical_names functions) (option_map node_tree item.entry)) }
{
    name_tables::push_lexical_part(item, &lexical_as(functions), names)
}

/// Pushes those of each part.
pub(crate) fn push_lexical_parts<'t>(
    functions: bool,
    node: Node<'t, '_>,
    names: &mut Vec<NamePlace<'t>>,
) -> Result<(), AllocError>
    ensures { OnOk result (all_named names.new.items ≡ all_named names.old.items ++ each_part (lexical_names functions) (parts_of (node_tree node.entry))) }
{
    name_tables::push_lexical_parts(node, 0, &lexical_as(functions), names)
}

/// Pushes those of the cases of a switch.
pub(crate) fn push_cases<'t>(
    switch: Node<'t, '_>,
    names: &mut Vec<NamePlace<'t>>,
) -> Result<(), AllocError>
    ensures { OnOk result (all_named names.new.items ≡ all_named names.old.items ++ each_part case_names (parts_drop 1 (parts_of (node_tree switch.entry)))) }
{
    name_tables::push_cases(switch, &lexical_as(true), names)
}

/// Pushes the names of a function's parameters: of all parts from a place on but the last, which is the body.
pub(crate) fn push_parameters<'t>(
    node: Node<'t, '_>,
    from: usize,
    names: &mut Vec<NamePlace<'t>>,
) -> Result<(), AllocError>
    ensures { OnOk result (all_named names.new.items ≡ all_named names.old.items ++ parameter_names (parts_drop from (parts_of (node_tree node.entry)))) }
{
    name_tables::push_parameters(node, from, (), names)
}
