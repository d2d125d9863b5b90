//! The names that declarations declare, in the order of the tree.

ghost use Rattle.std.specs.Prelude.{◌≡◌, ◌++◌, option_map, OnOk};
ghost use Rattle.tree.specs.Node.{node_tree};
ghost use Rattle.tree.specs.Tree.{parts_drop, parts_of};
ghost use Rattle.name_tables.specs.BoundNames.{each_part};
ghost use Rattle.name_tables.specs.PatternParts.{all_bound, at_part, bound_as};
ghost use Rattle.name_tables.specs.DeclaratorParts.{by_word, declarator_as, how_of, lexical_as, lexical_of, named_by};
ghost use Rattle.name_tables.specs.DeclaredNames.{case_names, declaration_of, declarator_names, parameter_names, specifier_names};

use crate::bound::{BoundName, last_part, push_part_names};
use std::alloc::AllocError;
use tree::{Kind, Node};

/// How the names of a declarator are bound.
#[derive(Clone, Copy)]
pub struct DeclaratorAs<H> {
    /// With an initializer.
    pub initialized: H,
    /// Without one.
    pub bare: H,
}

/// Pushes the names of a declaration, whose parts are its declarators (ECMA-262 13.3.1.2, 13.3.2.1).
pub fn push_declarators<'t, H: Copy>(
    declaration: Node<'t, '_>,
    how: DeclaratorAs<H>,
    names: &mut Vec<BoundName<'t, H>>,
) -> Result<(), AllocError>
    ensures { OnOk result (all_bound names.new.items ≡ all_bound names.old.items ++ declarator_names (declarator_as how) (parts_of (node_tree declaration.entry))) }
{
    for index in 0..declaration.part_count() {
        push_declarator(declaration.part(index), how, names)?;
    }
    Ok(())
}

/// Adds the names of a declarator.
fn push_declarator<'t, H: Copy>(
    declarator: Option<Node<'t, '_>>,
    how: DeclaratorAs<H>,
    names: &mut Vec<BoundName<'t, H>>,
) -> Result<(), AllocError>
    ensures { OnOk result (all_bound names.new.items ≡ all_bound names.old.items ++ at_part (named_by (declarator_as how)) (option_map node_tree declarator.entry)) }
{
    match declarator {
        Some(declarator) => push_part_names(declarator.part(0), bound_how(declarator, how), names),
        None => Ok(()),
    }
}

/// How the names of a declarator are bound, by whether it has an initializer.
fn bound_how<H: Copy>(declarator: Node, how: DeclaratorAs<H>) -> H
    ensures { result ≡ how_of how (parts_of (node_tree declarator.entry)) }
{
    if declarator.part(1).is_some() {
        how.initialized
    } else {
        how.bare
    }
}

/// How the names are bound that items declare lexically.
#[derive(Clone, Copy)]
pub struct LexicalAs<H> {
    /// Those of `let`.
    pub by_let: DeclaratorAs<H>,
    /// Those of `const`.
    pub by_const: DeclaratorAs<H>,
    /// A class's.
    pub class: H,
    /// Those of an import.
    pub import: H,
    /// A function's; none where functions declare no lexical names, as at the top of a script.
    pub function: Option<H>,
}

/// Which names an item declares lexically, and how they are bound.
#[derive(Clone, Copy)]
pub enum Lexical<H> {
    /// Those of its declarators.
    Declarators(DeclaratorAs<H>),
    /// That of its first part.
    FirstPart(H),
    /// Those that its specifiers bind.
    Specifiers(H),
    /// None.
    Nothing,
}

/// What an export declares, and any other item itself (ECMA-262, 13th edition, 16.2.3).
#[inline]
pub fn declaration_of<'t, 's>(item: Node<'t, 's>) -> Node<'t, 's>
    ensures { node_tree result ≡ declaration_of (node_tree item.entry) }
{
    match item.kind() {
        Kind::ExportNamedDeclaration | Kind::ExportDefaultDeclaration => match item.part(0) {
            Some(declaration) => declaration,
            None => item,
        },
        _ => item,
    }
}

/// Which names an item that exports nothing declares lexically: a `let`, a `const`, a class, a function or an import.
pub fn lexical_of<H: Copy>(item: Node, how: &LexicalAs<H>) -> Lexical<H>
    ensures { result ≡ lexical_of how.now (node_tree item.entry) }
{
    match item.kind() {
        Kind::VariableDeclaration => by_word(item.text(), how),
        Kind::ClassDeclaration => Lexical::FirstPart(how.class),
        Kind::ImportDeclaration => Lexical::Specifiers(how.import),
        Kind::FunctionDeclaration => match how.function {
            Some(how) => Lexical::FirstPart(how),
            None => Lexical::Nothing,
        },
        _ => Lexical::Nothing,
    }
}

/// Which names a declaration with this word declares lexically.
fn by_word<H: Copy>(word: &str, how: &LexicalAs<H>) -> Lexical<H>
    ensures { result ≡ by_word how.now word.now }
{
    if word == "var" {
        Lexical::Nothing
    } else if word == "let" {
        Lexical::Declarators(how.by_let)
    } else {
        Lexical::Declarators(how.by_const)
    }
}

/// Pushes the names that an item declares lexically, exported or not (ECMA-262 13.2.5, 13.2.7).
pub fn push_lexical<'t, H: Copy>(
    item: Node<'t, '_>,
    how: &LexicalAs<H>,
    names: &mut Vec<BoundName<'t, H>>,
) -> Result<(), AllocError>
    ensures { OnOk result (all_bound names.new.items ≡ all_bound names.old.items ++ lexical_as how.now (node_tree item.entry)) }
{
    let declaration = declaration_of(item);
    match lexical_of(declaration, how) {
        Lexical::Declarators(how) => push_declarators(declaration, how, names),
        Lexical::FirstPart(how) => push_part_names(declaration.part(0), how, names),
        Lexical::Specifiers(how) => push_specifiers(declaration, how, names),
        Lexical::Nothing => Ok(()),
    }
}

/// Pushes the names that an import binds: the last part of each specifier (ECMA-262, 13th edition, 16.2.2.2).
fn push_specifiers<'t, H: Copy>(
    import: Node<'t, '_>,
    how: H,
    names: &mut Vec<BoundName<'t, H>>,
) -> Result<(), AllocError>
    ensures { OnOk result (all_bound names.new.items ≡ all_bound names.old.items ++ each_part (specifier_names (bound_as how)) (parts_of (node_tree import.entry))) }
{
    for index in 0..import.part_count() {
        push_specifier(import.part(index), how, names)?;
    }
    Ok(())
}

/// Adds the name that a specifier binds; the source binds none.
fn push_specifier<'t, H: Copy>(
    specifier: Option<Node<'t, '_>>,
    how: H,
    names: &mut Vec<BoundName<'t, H>>,
) -> Result<(), AllocError>
    ensures { OnOk result (all_bound names.new.items ≡ all_bound names.old.items ++ at_part (specifier_names (bound_as how)) (option_map node_tree specifier.entry)) }
{
    match specifier {
        Some(specifier) => push_part_names(last_part(specifier), how, names),
        None => Ok(()),
    }
}

/// Adds the names that a part declares, which may be missing.
pub fn push_lexical_part<'t, H: Copy>(
    item: Option<Node<'t, '_>>,
    how: &LexicalAs<H>,
    names: &mut Vec<BoundName<'t, H>>,
) -> Result<(), AllocError>
    ensures { OnOk result (all_bound names.new.items ≡ all_bound names.old.items ++ at_part (lexical_as how.now) (option_map node_tree item.entry)) }
{
    match item {
        Some(item) => push_lexical(item, how, names),
        None => Ok(()),
    }
}

/// Pushes those of each part from a place on, as of a statement list (ECMA-262 13.2.5).
pub fn push_lexical_parts<'t, H: Copy>(
    node: Node<'t, '_>,
    from: usize,
    how: &LexicalAs<H>,
    names: &mut Vec<BoundName<'t, H>>,
) -> Result<(), AllocError>
    ensures { OnOk result (all_bound names.new.items ≡ all_bound names.old.items ++ each_part (lexical_as how.now) (parts_drop from (parts_of (node_tree node.entry)))) }
{
    for index in from..node.part_count() {
        push_lexical_part(node.part(index), how, names)?;
    }
    Ok(())
}

/// Pushes those of the cases of a switch, which stand behind its discriminant (ECMA-262 13.12.5).
pub fn push_cases<'t, H: Copy>(
    switch: Node<'t, '_>,
    how: &LexicalAs<H>,
    names: &mut Vec<BoundName<'t, H>>,
) -> Result<(), AllocError>
    ensures { OnOk result (all_bound names.new.items ≡ all_bound names.old.items ++ each_part (case_names (lexical_as how.now)) (parts_drop 1 (parts_of (node_tree switch.entry)))) }
{
    for index in 1..switch.part_count() {
        push_case(switch.part(index), how, names)?;
    }
    Ok(())
}

/// Adds the names that the statements of a switch's case declare lexically.
fn push_case<'t, H: Copy>(
    case: Option<Node<'t, '_>>,
    how: &LexicalAs<H>,
    names: &mut Vec<BoundName<'t, H>>,
) -> Result<(), AllocError>
    ensures { OnOk result (all_bound names.new.items ≡ all_bound names.old.items ++ at_part (case_names (lexical_as how.now)) (option_map node_tree case.entry)) }
{
    match case {
        Some(case) => push_lexical_parts(case, 1, how, names),
        None => Ok(()),
    }
}

/// Pushes the names of a function's parameters: of all its parts from a place on but the last, which is the body (ECMA-262 14.1.3).
pub fn push_parameters<'t, H: Copy>(
    function: Node<'t, '_>,
    from: usize,
    how: H,
    names: &mut Vec<BoundName<'t, H>>,
) -> Result<(), AllocError>
    ensures { OnOk result (all_bound names.new.items ≡ all_bound names.old.items ++ parameter_names (bound_as how) (parts_drop from (parts_of (node_tree function.entry)))) }
{
    let count = function.part_count();
    if count == 0 {
        return Ok(());
    }
    for index in from..count - 1 {
        push_part_names(function.part(index), how, names)?;
    }
    Ok(())
}
