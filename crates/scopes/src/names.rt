//! The names that patterns and statement list items declare, in the order of the tree.

ghost use Rattle.std.specs.Prelude.{◌≡◌, false, ◌++◌, OnOk};
ghost use Rattle.tree.specs.Node.{node_tree};
ghost use Rattle.tree.specs.Tree.{kind_of, parts_drop, parts_of, text_of};
ghost use Rattle.name_tables.specs.BoundNames.{each_part};
ghost use Rattle.scopes.specs.Bindings.{holds_statements, is_exported, lexical, names_in, stands_in, vars_in};
ghost use Rattle.scopes.specs.Gathered.{declarator_as, declared_by_var, lexical_as, parameters, var_names_of};
ghost use Rattle.scopes.specs.Openings.{block_names, case_names};
ghost use Rattle.scopes.specs.Shown.{all_declared};

use crate::binding::BindingKind;
use name_tables::{BoundName, DeclaratorAs, LexicalAs};
use std::alloc::AllocError;
use tree::{Kind, Node};

/// What names are declared as.
#[derive(Clone, Copy)]
pub(crate) struct DeclaredAs {
    pub(crate) kind: BindingKind,
    pub(crate) settled: bool,
    pub(crate) exported: bool,
}

/// Where a declaration stands.
#[derive(Clone, Copy)]
pub enum DeclaredIn {
    /// As a statement.
    Statement,
    /// In an export.
    Export,
    /// In the head of a plain `for`.
    ForHead,
    /// In the head of a for-in or for-of.
    ForInOfHead,
}

/// A name as it is declared, before its scope has it.
pub(crate) type Declared<'t> = BoundName<'t, DeclaredAs>;

/// Pushes the names of a pattern that no export and no initializer declares.
pub(crate) fn push_names<'t>(
    node: Node<'t, '_>,
    kind: BindingKind,
    names: &mut Vec<Declared<'t>>,
) -> Result<(), AllocError>
    ensures { OnOk result (all_declared names.new.items ≡ all_declared names.old.items ++ names_in kind false (node_tree node.entry)) }
{
    let how = DeclaredAs {
        kind,
        settled: false,
        exported: false,
    };
    name_tables::push_names(node, how, names)
}

/// Pushes the names of a function's parameters, which begin at a place among its parts.
pub(crate) fn push_parameters<'t>(
    function: Node<'t, '_>,
    from: usize,
    names: &mut Vec<Declared<'t>>,
) -> Result<(), AllocError>
    ensures { OnOk result (all_declared names.new.items ≡ all_declared names.old.items ++ parameters (parts_drop from (parts_of (node_tree function.entry)))) }
{
    let how = DeclaredAs {
        kind: BindingKind::Param,
        settled: false,
        exported: false,
    };
    name_tables::push_parameters(function, from, how, names)
}

/// Whether a declaration stands in an export.
fn is_exported(head: DeclaredIn) -> bool
    ensures { result ≡ is_exported head }
{
    match head {
        DeclaredIn::Export => true,
        _ => false,
    }
}

/// Where what an item declares stands.
pub(crate) fn stands_in(item: Node) -> DeclaredIn
    ensures { result ≡ stands_in (node_tree item.entry) }
{
    match item.kind() {
        Kind::ExportNamedDeclaration | Kind::ExportDefaultDeclaration => DeclaredIn::Export,
        _ => DeclaredIn::Statement,
    }
}

/// What the names of a declarator are declared as.
fn declarator_as(head: DeclaredIn, kind: BindingKind) -> DeclaratorAs<DeclaredAs>
    ensures { result ≡ declarator_as head kind }
{
    let (initialized, bare) = match head {
        DeclaredIn::Statement | DeclaredIn::Export => (true, false),
        DeclaredIn::ForHead => (false, false),
        DeclaredIn::ForInOfHead => (true, true),
    };
    let exported = is_exported(head);
    DeclaratorAs {
        initialized: DeclaredAs {
            kind,
            settled: initialized,
            exported,
        },
        bare: DeclaredAs {
            kind,
            settled: bare,
            exported,
        },
    }
}

/// What names are declared as that items declare lexically, by where the declaration stands.
fn lexical_as(head: DeclaredIn) -> LexicalAs<DeclaredAs>
    ensures { result ≡ lexical_as head }
{
    let exported = is_exported(head);
    LexicalAs {
        by_let: declarator_as(head, BindingKind::Let),
        by_const: declarator_as(head, BindingKind::Const),
        class: DeclaredAs {
            kind: BindingKind::Class,
            settled: false,
            exported,
        },
        import: DeclaredAs {
            kind: BindingKind::Import,
            settled: false,
            exported: false,
        },
        function: Some(DeclaredAs {
            kind: BindingKind::Function,
            settled: false,
            exported,
        }),
    }
}

/// Pushes what an item declares in the scope that it stands in: `let`, `const`, a function, a class, an import.
pub(crate) fn push_lexical<'t>(
    head: DeclaredIn,
    item: Node<'t, '_>,
    names: &mut Vec<Declared<'t>>,
) -> Result<(), AllocError>
    ensures { OnOk result (all_declared names.new.items ≡ all_declared names.old.items ++ lexical head (node_tree item.entry)) }
{
    name_tables::push_lexical(item, &lexical_as(head), names)
}

/// Pushes what the items of a block declare there.
pub(crate) fn push_block<'t>(
    block: Node<'t, '_>,
    names: &mut Vec<Declared<'t>>,
) -> Result<(), AllocError>
    ensures { OnOk result (all_declared names.new.items ≡ all_declared names.old.items ++ block_names (parts_of (node_tree block.entry))) }
{
    name_tables::push_lexical_parts(block, 0, &lexical_as(DeclaredIn::Statement), names)
}

/// Pushes what the items of a switch's cases declare there.
pub(crate) fn push_cases<'t>(
    switch: Node<'t, '_>,
    names: &mut Vec<Declared<'t>>,
) -> Result<(), AllocError>
    ensures { OnOk result (all_declared names.new.items ≡ all_declared names.old.items ++ each_part case_names (parts_drop 1 (parts_of (node_tree switch.entry)))) }
{
    name_tables::push_cases(switch, &lexical_as(DeclaredIn::Statement), names)
}

/// Which parts of an item have the names that it declares by `var` in the function round it.
#[derive(Clone, Copy)]
pub(crate) enum VarNames {
    /// Its declarators.
    Declarators,
    /// All that it has, as statements.
    Parts,
    /// None.
    Nothing,
}

/// Whether nodes of this kind have statements among their parts; not the Program, not functions.
fn holds_statements(kind: Kind) -> bool
    ensures { result ≡ holds_statements kind }
{
    match kind {
        Kind::BlockStatement
        | Kind::LabeledStatement
        | Kind::IfStatement
        | Kind::SwitchStatement
        | Kind::SwitchCase
        | Kind::TryStatement
        | Kind::CatchClause
        | Kind::WhileStatement
        | Kind::DoWhileStatement
        | Kind::ForStatement
        | Kind::ForInStatement
        | Kind::ForOfStatement => true,
        _ => false,
    }
}

/// Which parts of an item have the names that it declares by `var`.
fn var_names_of(item: Node) -> VarNames
    ensures { result ≡ var_names_of (kind_of (node_tree item.entry)) (text_of (node_tree item.entry)) }
{
    match item.kind() {
        Kind::VariableDeclaration => {
            if item.text() == "var" {
                VarNames::Declarators
            } else {
                VarNames::Nothing
            }
        }
        kind => {
            if holds_statements(kind) {
                VarNames::Parts
            } else {
                VarNames::Nothing
            }
        }
    }
}

/// Pushes the names of a declaration by `var`, whose parts are its declarators.
fn push_var_declarators<'t>(
    head: DeclaredIn,
    declaration: Node<'t, '_>,
    names: &mut Vec<Declared<'t>>,
) -> Result<(), AllocError>
    ensures { OnOk result (all_declared names.new.items ≡ all_declared names.old.items ++ declared_by_var head (parts_of (node_tree declaration.entry))) }
{
    let how = declarator_as(head, BindingKind::Var);
    name_tables::push_declarators(declaration, how, names)
}

/// Pushes the names of `var` in a statement at any depth, but not in functions inside it; `head`: where the statement stands.
#[cycle(vars)]
#[tactic(auto, using(tree::proofs::PartWalk::part_steps))]
pub(crate) fn push_vars<'t>(
    head: DeclaredIn,
    item: Node<'t, '_>,
    names: &mut Vec<Declared<'t>>,
) -> Result<(), AllocError>
    ensures { OnOk result (all_declared names.new.items ≡ all_declared names.old.items ++ vars_in head (node_tree item.entry)) }
{
    match var_names_of(item) {
        VarNames::Declarators => push_var_declarators(head, item, names),
        VarNames::Parts => push_parts_vars(head, item, names),
        VarNames::Nothing => Ok(()),
    }
}

/// Adds the names of `var` in all parts of a node.
#[cycle(vars)]
#[tactic(auto, using(tree::proofs::PartWalk::part_steps))]
fn push_parts_vars<'t>(
    head: DeclaredIn,
    node: Node<'t, '_>,
    names: &mut Vec<Declared<'t>>,
) -> Result<(), AllocError>
    ensures { OnOk result (all_declared names.new.items ≡ all_declared names.old.items ++ each_part (vars_in head) (parts_of (node_tree node.entry))) }
{
    for index in 0..node.part_count() {
        if let Some(part) = node.part(index) {
            push_vars(head, part, names)?;
        }
    }
    Ok(())
}
