//! What stands round the parts of operators, members and calls.

ghost use Rattle.std.specs.Prelude.{◌≡◌, not};
ghost use Rattle.tree.specs.Node.{node_tree};
ghost use Rattle.tree.specs.Tree.{parts_of};
ghost use Rattle.printer.specs.Bits.{shape_of, fused_shape};
ghost use Rattle.language.specs.Vocabulary.{is_word_operator as is_operator_word, is_open_number as is_open_number_text};
ghost use Rattle.printer.specs.Shapes.{update_shape, unary_shape, after_open_number, is_open_literal, member_shape, call_shape};

use crate::fragments::{Fragment, Frame, arguments_frame, front_frame};
use crate::shared_fragments::{BRACKET, END_BRACKET, OPEN, OWN};
use grammar::literal_class;
use tokens::TokenClass;
use tree::{Flags, Kind, Node};

/// The frame of an operator that is no word, before its operand.
pub(crate) static PREFIX: Frame = front_frame!(&[OWN], &[]);

/// The frame of an operator after its operand.
static POSTFIX: Frame = front_frame!(&[&[]], OWN);

/// The frame of an operator that is a word, before its operand.
static WORD_PREFIX: Frame = front_frame!(&[&[Fragment::NodeText, Fragment::Space]], &[]);

/// The frame of a member by name.
static MEMBER: Frame = front_frame!(&[&[], &[Fragment::Token(".")]], &[]);

/// The frame of a member by name whose object is a number; a space stands after the number if it isn't wrapped.
static NUMBER_MEMBER: Frame = front_frame!(
    &[&[], &[Fragment::SpaceAfterNumber, Fragment::Token(".")]],
    &[]
);

/// The frame of a member by name after `?.`.
static OPTIONAL_MEMBER: Frame = front_frame!(&[&[], &[Fragment::Token("?.")]], &[]);

/// The frame of a member by index.
static COMPUTED_MEMBER: Frame = front_frame!(&[&[], BRACKET], END_BRACKET);

/// The frame of a member by index after `?.`.
static OPTIONAL_COMPUTED_MEMBER: Frame = front_frame!(
    &[&[], &[Fragment::Token("?.[")]],
    END_BRACKET
);

/// The frame of a call.
static CALL: Frame = arguments_frame!(&[&[]], OPEN);

/// The frame of a call after `?.`.
static OPTIONAL_CALL: Frame = arguments_frame!(&[&[]], &[Fragment::Token("?.(")]);

/// The frame of an update expression, by whether its operator stands before the operand.
pub(crate) fn update_frame(prefix: bool) -> &'static Frame
    ensures { shape_of result.now ≡ fused_shape (update_shape prefix) }
{
    if prefix { &PREFIX } else { &POSTFIX }
}

/// The frame of a unary expression, by its operator: a space follows a word.
pub(crate) fn unary_frame(text: &str) -> &'static Frame
    ensures { shape_of result.now ≡ fused_shape (unary_shape text.now) }
{
    if is_word_operator(text) {
        return &WORD_PREFIX;
    }
    &PREFIX
}

/// Whether the operator is a word.
fn is_word_operator(text: &str) -> bool
    ensures { result ≡ is_operator_word text.now }
{
    matches!(text, "delete" | "void" | "typeof" | "in" | "instanceof")
}

/// Whether the first part is a number that a `.` behind it would join.
#[inline(always)]
pub(crate) fn is_open_number(node: Node) -> bool
    ensures { result ≡ after_open_number (parts_of (node_tree node.entry)) }
{
    match node.part(0) {
        Some(part) => is_number(part.kind(), part.text()),
        None => false,
    }
}

/// Whether the node is a number that would take a `.` after it as its own.
#[inline(always)]
fn is_number(kind: Kind, text: &str) -> bool
    ensures { result ≡ is_open_literal kind text.now }
{
    match kind {
        Kind::Literal => is_open(literal_class(text), text),
        _ => false,
    }
}

/// Whether a literal of this class is a number without the suffix `n`.
#[inline(never)]
fn is_open(class: TokenClass, text: &str) -> bool
    ensures { result ≡ is_open_number_text class text.now }
{
    match class {
        TokenClass::NumericLiteral => !ends_in_n(text),
        _ => false,
    }
}

/// Whether the text ends in `n`, as a BigInt does.
#[tactic(auto, using(crate::proofs::Ends::last_open, crate::proofs::Ends::empty_open))]
fn ends_in_n(text: &str) -> bool
    ensures { result ≡ not (is_open_number_text TokenClass.NumericLiteral text.now) }
{
    match text.as_bytes().last() {
        Some(last) => *last == b'n',
        None => false,
    }
}

/// The frame of a member, by its flags; `after_number` if a `.` would become part of its object.
pub(crate) fn member_frame(flags: Flags, after_number: bool) -> &'static Frame
    ensures { shape_of result.now ≡ fused_shape (member_shape flags.optional flags.computed after_number) }
{
    match (flags.optional, flags.computed) {
        (false, true) => &COMPUTED_MEMBER,
        (true, true) => &OPTIONAL_COMPUTED_MEMBER,
        (true, false) => &OPTIONAL_MEMBER,
        (false, false) if after_number => &NUMBER_MEMBER,
        (false, false) => &MEMBER,
    }
}

/// The frame of a call, by whether it stands after `?.`.
pub(crate) fn call_frame(optional: bool) -> &'static Frame
    ensures { shape_of result.now ≡ fused_shape (call_shape optional) }
{
    if optional { &OPTIONAL_CALL } else { &CALL }
}
