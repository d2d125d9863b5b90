//! The places of a script where its tree decides how a token is read.

ghost use Rattle.std.specs.Prelude.{◌≡◌, IfOk, IfSome, IfNone, true, [], ◌∷◌};
ghost use Rattle.tree.specs.Node.{node_tree};
ghost use Rattle.tree.specs.Tree.{kind_of};
ghost use Rattle.tree.specs.declared.kind.Kind.TheVariants.{ExportNamedDeclaration, Literal, TemplateElement, UpdateExpression};
ghost use Rattle.tree.specs.Flat.{post_order};
ghost use Rattle.unwrapping.specs.Readings.{AreNoted, InOrder};

use source_text::MAX_BYTES;
use std::alloc::{AllocError, Global};
use tree::{Kind, Node, Program};

/// How the tree reads a token whose characters alone don't tell.
#[derive(Clone, Copy, Debug, PartialEq, Eq)]
pub enum Reading {
    RegularExpression,
    /// A part of a template.
    TemplatePart,
    /// `++` or `--` after its operand.
    Postfix,
    /// The last token of an export of the module's own names.
    ExportEnd,
}

/// The place of such a token, in bytes, and how it is read.
#[derive(Clone, Copy, Debug, PartialEq, Eq)]
pub struct Note {
    pub at: usize,
    pub reading: Reading,
}

/// The tokens of a script whose characters alone don't tell how they are read, in order.
///
/// # Errors
///
/// `AllocError` where memory is refused.
pub fn notes(alloc: Global, program: &Program<'_>) -> Result<Vec<Note>, AllocError>
    ensures { IfOk result (λ notes. AreNoted (post_order program.now) 0 notes.items) }
{
    let mut notes = Vec::new(alloc);
    for number in 0..program.node_count() {
        let Some(note) = note_of(program.node(number)) else {
            continue;
        };
        notes.push(note)?;
    }
    Ok(notes)
}

/// What a node notes.
fn note_of(node: Node) -> Option<Note>
    ensures some { IfSome result (λ note. AreNoted (node_tree node.entry ∷ []) 0 (note ∷ [])) }
    ensures none { IfNone result (AreNoted (node_tree node.entry ∷ []) 0 []) }
{
    match node.kind() {
        Kind::Literal => regexp_note(node),
        Kind::TemplateElement => part_note(node),
        Kind::UpdateExpression => postfix_note(node),
        Kind::ExportNamedDeclaration => export_note(node),
        _ => None,
    }
}

/// What a literal notes.
fn regexp_note(node: Node) -> Option<Note>
    requires { kind_of (node_tree node) ≡ Literal }
    ensures some { IfSome result (λ note. AreNoted (node_tree node.entry ∷ []) 0 (note ∷ [])) }
    ensures none { IfNone result (AreNoted (node_tree node.entry ∷ []) 0 []) }
{
    match node.text().as_bytes() {
        [b'/', ..] => Some(Note {
            at: node.span().start,
            reading: Reading::RegularExpression,
        }),
        _ => None,
    }
}

/// What an element of a template notes.
fn part_note(node: Node) -> Option<Note>
    requires { kind_of (node_tree node) ≡ TemplateElement }
    ensures some { IfSome result (λ note. AreNoted (node_tree node.entry ∷ []) 0 (note ∷ [])) }
    ensures none { IfNone result (AreNoted (node_tree node.entry ∷ []) 0 []) }
{
    let start = node.span().start;
    if start < 1 {
        return None;
    }
    Some(Note {
        at: start - 1,
        reading: Reading::TemplatePart,
    })
}

/// What an update notes.
fn postfix_note(node: Node) -> Option<Note>
    requires { kind_of (node_tree node) ≡ UpdateExpression }
    ensures some { IfSome result (λ note. AreNoted (node_tree node.entry ∷ []) 0 (note ∷ [])) }
    ensures none { IfNone result (AreNoted (node_tree node.entry ∷ []) 0 []) }
{
    if node.flags().prefix {
        return None;
    }
    Some(Note {
        at: node.span().end.saturating_sub(2),
        reading: Reading::Postfix,
    })
}

/// What an export notes: where its last token is, if it has neither a declaration nor a source.
fn export_note(node: Node) -> Option<Note>
    requires { kind_of (node_tree node) ≡ ExportNamedDeclaration }
    ensures some { IfSome result (λ note. AreNoted (node_tree node.entry ∷ []) 0 (note ∷ [])) }
    ensures none { IfNone result (AreNoted (node_tree node.entry ∷ []) 0 []) }
{
    let last = node.part_count().saturating_sub(1);
    if node.part(0).is_some() || node.part(last).is_some() {
        return None;
    }
    Some(Note {
        at: node.span().end.saturating_sub(1),
        reading: Reading::ExportEnd,
    })
}

/// Whether each note is of a later place than the one before it, and none is of a place after all texts.
pub(crate) fn are_ascending(notes: &[Note]) -> bool
    ensures { result ≡ true → InOrder notes.now }
{
    let mut low = 0;
    for note in notes {
        if note.at < low || note.at > MAX_BYTES {
            return false;
        }
        low = note.at + 1;
    }
    true
}
