//! What stands round the parts of imports and exports.

ghost use Rattle.std.specs.Prelude.{◌≡◌};
ghost use Rattle.tree.specs.Node.{node_tree};
ghost use Rattle.tree.specs.Tree.{parts_of};
ghost use Rattle.language.specs.FirstPart.{lead, others};
ghost use Rattle.spelling_table.specs.Outlines.{parts_after};
ghost use Rattle.printer.specs.Bits.{shape_of, fused_shape};
ghost use Rattle.printer.specs.Shapes.{alias_shape, default_import_shape, default_shape, export_all_shape, export_shape, import_shape, is_default_declaration as is_default_kind};

use crate::fragments::{Fragment, Frame, ListLayout, front_frame, list_frame};
use crate::part_sites::PartSites;
use crate::shared_fragments::SEMICOLON;
use tree::{Kind, Node};

/// `import `.
const IMPORT: &[Fragment] = &[Fragment::Token("import ")];

/// `export `.
const EXPORT: &[Fragment] = &[Fragment::Token("export ")];

/// `export default `.
const DEFAULT: &[Fragment] = &[Fragment::Token("export default ")];

/// ` from `.
const FROM: &[Fragment] = &[Fragment::Token(" from ")];

/// The frame of an import of a source alone.
static IMPORT_ALONE: Frame = front_frame!(&[IMPORT], SEMICOLON);

/// The frame of an import of one name: a default name or a namespace.
static IMPORT_ONE: Frame = front_frame!(&[IMPORT, FROM], SEMICOLON);

/// The frame of an import of a default name and a namespace.
static IMPORT_TWO: Frame = front_frame!(&[IMPORT, &[Fragment::Token(", ")], FROM], SEMICOLON);

/// The frame of an import of names.
static IMPORT_NAMES: Frame = list_frame!(&[Fragment::Token("import {")], SpecifiersFrom, SEMICOLON);

/// The frame of an import of a default name and names.
static IMPORT_DEFAULT_NAMES: Frame = Frame {
    front: &[IMPORT],
    opener: &[Fragment::Token(", {")],
    series: ListLayout::SpecifiersFrom,
    closer: SEMICOLON,
    sites: PartSites::AllPlain,
};

/// The frame of a specifier of one name.
pub(crate) static ONE_NAME: Frame = front_frame!(&[&[]], &[]);

/// The frame of a specifier of a namespace.
pub(crate) static NAMESPACE: Frame = front_frame!(&[&[Fragment::Token("* as ")]], &[]);

/// The frame of a specifier of two names.
static TWO_NAMES: Frame = front_frame!(&[&[], &[Fragment::Token(" as ")]], &[]);

/// The frame of an exported declaration.
static EXPORT_DECLARATION: Frame = front_frame!(&[EXPORT, &[]], &[]);

/// The frame of an export of names.
static EXPORT_NAMES: Frame = Frame {
    front: &[EXPORT],
    opener: &[Fragment::Token("{")],
    series: ListLayout::Specifiers,
    closer: SEMICOLON,
    sites: PartSites::AllPlain,
};

/// The frame of an export of another module's names.
static EXPORT_NAMES_FROM: Frame = Frame {
    front: &[EXPORT],
    opener: &[Fragment::Token("{")],
    series: ListLayout::SpecifiersFrom,
    closer: SEMICOLON,
    sites: PartSites::AllPlain,
};

/// The frame of an `export default` of a declaration.
static DEFAULT_DECLARATION: Frame = front_frame!(&[DEFAULT], &[]);

/// The frame of an `export default` of an expression.
static DEFAULT_EXPRESSION: Frame = front_frame!(&[DEFAULT], SEMICOLON);

/// The frame of an `export *` without a name.
static EXPORT_ALL: Frame = front_frame!(&[EXPORT, &[Fragment::Token("* from ")]], SEMICOLON);

/// The frame of an `export *` with a name.
static EXPORT_ALL_AS: Frame = front_frame!(&[&[Fragment::Token("export * as ")], FROM], SEMICOLON);

/// The kind of the part at a place, that of the Program where none stands.
#[tactic(auto, using(crate::proofs::ModuleMarks::lead_some, crate::proofs::ModuleMarks::lead_none))]
fn kind_at(node: Node, index: usize) -> Kind
    ensures { result ≡ lead (parts_after index (parts_of (node_tree node.entry))) }
{
    match node.part(index) {
        Some(part) => part.kind(),
        None => Kind::Program,
    }
}

/// An import, by the kinds of its first two parts.
pub(crate) fn import_frame(node: Node) -> &'static Frame
    ensures { shape_of result.now ≡ fused_shape (import_shape (lead (parts_of (node_tree node.entry))) (lead (others (parts_of (node_tree node.entry))))) }
{
    match kind_at(node, 0) {
        Kind::ImportDefaultSpecifier => default_import_frame(kind_at(node, 1)),
        Kind::ImportNamespaceSpecifier => &IMPORT_ONE,
        Kind::ImportSpecifier => &IMPORT_NAMES,
        _ => &IMPORT_ALONE,
    }
}

/// An import of a default name, by the kind of what follows that.
fn default_import_frame(second: Kind) -> &'static Frame
    ensures { shape_of result.now ≡ fused_shape (default_import_shape second) }
{
    match second {
        Kind::ImportSpecifier => &IMPORT_DEFAULT_NAMES,
        Kind::ImportNamespaceSpecifier => &IMPORT_TWO,
        _ => &IMPORT_ONE,
    }
}

/// A specifier, by whether it has two names.
pub(crate) fn alias_frame(has_two: bool) -> &'static Frame
    ensures { shape_of result.now ≡ fused_shape (alias_shape has_two) }
{
    if has_two { &TWO_NAMES } else { &ONE_NAME }
}

/// An export, by whether it has a declaration, and a source.
pub(crate) fn export_frame(has_declaration: bool, has_source: bool) -> &'static Frame
    ensures { shape_of result.now ≡ fused_shape (export_shape has_declaration has_source) }
{
    match (has_declaration, has_source) {
        (true, _) => &EXPORT_DECLARATION,
        (false, true) => &EXPORT_NAMES_FROM,
        (false, false) => &EXPORT_NAMES,
    }
}

/// Whether what is exported as the default is a function or a class that is declared.
pub(crate) fn is_default_declaration(export: Node) -> bool
    ensures { result ≡ is_default_kind (lead (parts_of (node_tree export.entry))) }
{
    match kind_at(export, 0) {
        Kind::FunctionDeclaration | Kind::ClassDeclaration => true,
        _ => false,
    }
}

/// An `export default`, by whether it exports a declaration.
pub(crate) fn default_frame(is_declaration: bool) -> &'static Frame
    ensures { shape_of result.now ≡ fused_shape (default_shape is_declaration) }
{
    if is_declaration {
        &DEFAULT_DECLARATION
    } else {
        &DEFAULT_EXPRESSION
    }
}

/// An `export *`, by whether it has a name.
pub(crate) fn export_all_frame(has_name: bool) -> &'static Frame
    ensures { shape_of result.now ≡ fused_shape (export_all_shape has_name) }
{
    if has_name {
        &EXPORT_ALL_AS
    } else {
        &EXPORT_ALL
    }
}
