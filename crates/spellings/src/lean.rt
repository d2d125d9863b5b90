//! Whether a node has no text and no flags but those of its kind.

ghost use Rattle.std.specs.Prelude.{◌≡◌};
ghost use Rattle.tree.specs.Node.{node_tree};
ghost use Rattle.tree.specs.Uses.{is_lean, within as is_within, used_flags as flags_used, is_init as is_init_form};
ghost use Rattle.spellings.specs.Spelled.{lean_label, has_no_flags};

use tree::{Flags, Form, Kind, Node};

/// Whether a node has no text and no flags but those of its kind.
#[inline(always)]
pub(crate) fn is_lean_node(node: Node) -> bool
    ensures { result ≡ is_lean (node_tree node.entry) }
{
    is_lean_label(node.kind(), node.text(), node.flags())
}

/// Does what `is_lean_node` does, by the kind, the text and the flags of a node.
#[inline(always)]
fn is_lean_label(kind: Kind, text: &str, flags: Flags) -> bool
    ensures { result ≡ lean_label kind text.now flags }
{
    (kind.has_text() || text.is_empty()) && has_its_flags(kind, flags)
}

/// Whether no flag is set but those that the kind uses.
#[inline(always)]
fn has_its_flags(kind: Kind, flags: Flags) -> bool
    ensures { result ≡ is_within flags (flags_used kind flags) }
{
    if has_no_flags(flags) {
        return true;
    }
    has_used_flags(kind, flags)
}

/// Whether no flag is set at all. All are read, without a branch between them, since most nodes have none.
pub(crate) fn has_no_flags(flags: Flags) -> bool
    ensures { result ≡ has_no_flags flags }
{
    let is_marked = flags.computed
        | flags.optional
        | flags.is_static
        | flags.prefix
        | flags.directive
        | flags.expression;
    !is_marked && is_init(flags.form)
}

/// Whether a flag stands that its kind uses, flag by flag.
#[inline(never)]
fn has_used_flags(kind: Kind, flags: Flags) -> bool
    ensures { result ≡ is_within flags (flags_used kind flags) }
{
    let used = used_flags(kind, flags);
    (!flags.computed || used.computed)
        && (!flags.optional || used.optional)
        && (!flags.is_static || used.is_static)
        && (!flags.prefix || used.prefix)
        && (!flags.directive || used.directive)
        && (!flags.expression || used.expression)
        && (!is_init(used.form) || is_init(flags.form))
}

/// The flags that say something at a kind, with the others as in a plain node.
fn used_flags(kind: Kind, flags: Flags) -> Flags
    ensures { result ≡ flags_used kind flags }
{
    let plain = Flags::PLAIN;
    match kind {
        Kind::Property => Flags {
            computed: flags.computed,
            form: flags.form,
            ..plain
        },
        Kind::MethodDefinition => Flags {
            computed: flags.computed,
            is_static: flags.is_static,
            form: flags.form,
            ..plain
        },
        Kind::MemberExpression => Flags {
            computed: flags.computed,
            optional: flags.optional,
            ..plain
        },
        Kind::CallExpression => Flags {
            optional: flags.optional,
            ..plain
        },
        Kind::UpdateExpression => Flags {
            prefix: flags.prefix,
            ..plain
        },
        Kind::ArrowFunctionExpression => Flags {
            expression: flags.expression,
            form: flags.form,
            ..plain
        },
        Kind::PropertyDefinition => Flags {
            computed: flags.computed,
            is_static: flags.is_static,
            ..plain
        },
        Kind::ExpressionStatement => Flags {
            directive: flags.directive,
            ..plain
        },
        Kind::FunctionExpression
        | Kind::FunctionDeclaration
        | Kind::YieldExpression
        | Kind::ForOfStatement
        | Kind::ImportSpecifier
        | Kind::ExportSpecifier => Flags {
            form: flags.form,
            ..plain
        },
        _ => plain,
    }
}

/// Whether the form is that of a property with a value.
fn is_init(form: Form) -> bool
    ensures { result ≡ is_init_form form }
{
    matches!(form, Form::Init)
}
