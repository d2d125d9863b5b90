//! A tree as one line of text.

use std::alloc::AllocError;
use tree::{Flags, Form, Node, Span};

/// A word, if it is to be shown.
pub(crate) fn word(is_shown: bool, word: &str) -> &str {
    match is_shown {
        true => word,
        false => "",
    }
}

/// The word for a form, after a space.
fn form_word<'t>(form: Form) -> &'t str {
    match form {
        Form::Init => "",
        Form::Get => " get",
        Form::Set => " set",
        Form::Method => " method",
        Form::Shorthand => " shorthand",
        Form::Constructor => " constructor",
        Form::Generator => " generator",
        Form::Async => " async",
        Form::AsyncGenerator => " async-generator",
    }
}

/// The flags that are set.
fn push_flags(flags: Flags, out: &mut String) -> Result<(), AllocError> {
    out.push_str(word(flags.computed, " computed"))?;
    out.push_str(word(flags.optional, " optional"))?;
    out.push_str(word(flags.is_static, " static"))?;
    out.push_str(word(flags.prefix, " prefix"))?;
    out.push_str(word(flags.directive, " directive"))?;
    out.push_str(word(flags.expression, " expression"))?;
    out.push_str(form_word(flags.form))
}

/// The kind, the place and the text of a node, and the flags that are set.
fn push_head(node: Node, out: &mut String) -> Result<(), AllocError> {
    let Span { start, end } = node.span();
    let text = node.text();
    write!(out, "{:?} {start}-{end}", node.kind())?;
    out.push_str(word(!text.is_empty(), " "))?;
    out.push_str(text)?;
    push_flags(node.flags(), out)
}

/// A node and its parts, in parentheses; `_` for a gap.
#[tactic(auto, using(tree::proofs::PartWalk::part_steps))]
pub(crate) fn show(node: Node, out: &mut String) -> Result<(), AllocError> {
    out.push_str("(")?;
    push_head(node, out)?;
    for index in 0..node.part_count() {
        out.push_str(" ")?;
        match node.part(index) {
            Some(part) => show(part, out)?,
            None => out.push_str("_")?,
        }
    }
    out.push_str(")")
}
