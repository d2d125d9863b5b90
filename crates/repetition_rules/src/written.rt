//! What is written down of the tree of a test: two tests are the same where that is the same.

ghost use Rattle.std.specs.Prelude.{◌≡◌, ◌++◌, option_map, string_bytes, IfOk, OnOk};
ghost use Rattle.tree.specs.Node.{node_tree};
ghost use Rattle.tree.specs.Tree.{flags_of, kind_of, text_of};
ghost use Rattle.repetition_rules.specs.Written.{flag_text, form_name, has_code, head, holds_code, sign, written, written_part};

use itoa::Buffer;
use std::alloc::{AllocError, Global};
use tree::{Flags, Form, Kind, Node};

/// Whether it is the kind of a function or of a class.
fn holds_code(kind: Kind) -> bool
    ensures { result ≡ holds_code kind }
{
    match kind {
        Kind::FunctionExpression
        | Kind::ArrowFunctionExpression
        | Kind::ClassExpression
        | Kind::FunctionDeclaration
        | Kind::ClassDeclaration => true,
        _ => false,
    }
}

/// Whether a node is a function or a class, or one stands in it.
#[tactic(auto, using(tree::proofs::PartWalk::part_steps))]
pub(crate) fn has_code(node: Node) -> bool
    ensures { result ≡ has_code (node_tree node.entry) }
{
    if holds_code(node.kind()) {
        return true;
    }
    for index in 0..node.part_count() {
        if let Some(part) = node.part(index) {
            if has_code(part) {
                return true;
            }
        }
    }
    false
}

/// What is written down of a tree.
pub(crate) fn written(alloc: Global, node: Node) -> Result<String, AllocError>
    ensures { IfOk result (λ s. string_bytes s ≡ written (node_tree node.entry)) }
{
    let mut out = String::new(alloc);
    push_written(node, &mut out)?;
    Ok(out)
}

/// Appends what is written down of a node and of all nodes below it.
#[cycle(writing)]
#[tactic(auto, using(tree::proofs::PartWalk::part_steps))]
fn push_written(node: Node, out: &mut String) -> Result<(), AllocError>
    ensures { OnOk result (string_bytes out.new ≡ string_bytes out.old ++ written (node_tree node.entry)) }
{
    push_head(node, out)?;
    for index in 0..node.part_count() {
        push_part(node.part(index), out)?;
    }
    push_text(")", out)
}

/// The same of a part; of a gap a comma.
#[cycle(writing)]
fn push_part(part: Option<Node>, out: &mut String) -> Result<(), AllocError>
    ensures { OnOk result (string_bytes out.new ≡ string_bytes out.old ++ written_part (option_map node_tree part.entry)) }
{
    match part {
        Some(part) => push_written(part, out),
        None => push_text(",", out),
    }
}

/// Appends a text.
fn push_text(text: &str, out: &mut String) -> Result<(), AllocError>
    ensures { OnOk result (string_bytes out.new ≡ string_bytes out.old ++ text.now) }
{
    out.push_str(text)
}

/// Appends what is written down of a node alone.
fn push_head(node: Node, out: &mut String) -> Result<(), AllocError>
    ensures { OnOk result (string_bytes out.new ≡ string_bytes out.old ++ head (kind_of (node_tree node.entry)) (flags_of (node_tree node.entry)) (text_of (node_tree node.entry))) }
{
    let text = node.text();
    let mut digits = Buffer::new();
    out.push_str("(")?;
    out.push_str(node.kind().type_name())?;
    push_flags(node.flags(), out)?;
    out.push_str(digits.format(text.len()))?;
    out.push_str(":")?;
    out.push_str(text)
}

/// Appends the flags of a node.
fn push_flags(flags: Flags, out: &mut String) -> Result<(), AllocError>
    ensures { OnOk result (string_bytes out.new ≡ string_bytes out.old ++ flag_text flags) }
{
    out.push_str(sign(flags.computed))?;
    out.push_str(sign(flags.optional))?;
    out.push_str(sign(flags.is_static))?;
    out.push_str(sign(flags.prefix))?;
    out.push_str(sign(flags.directive))?;
    out.push_str(sign(flags.expression))?;
    out.push_str(form_name(flags.form))
}

/// How a flag is written.
fn sign(flag: bool) -> &'static str
    ensures { result.now ≡ sign flag }
{
    if flag { "+" } else { "-" }
}

/// How a form is written.
fn form_name(form: Form) -> &'static str
    ensures { result.now ≡ form_name form }
{
    match form {
        Form::Init => "init",
        Form::Get => "get",
        Form::Set => "set",
        Form::Method => "method",
        Form::Shorthand => "shorthand",
        Form::Constructor => "constructor",
        Form::Generator => "generator",
        Form::Async => "async",
        Form::AsyncGenerator => "async generator",
    }
}
