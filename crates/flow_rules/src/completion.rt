//! How a statement completes, by its kind and by what is known of its parts.

ghost use Rattle.std.specs.Prelude.{◌≡◌, ◌&&◌, ◌||◌, not, option_map};
ghost use Rattle.tree.specs.Node.{node_tree};
ghost use Rattle.tree.specs.Tree.{kind_of, part_at, parts_of};
ghost use Rattle.language.specs.Vocabulary.{is};
ghost use Rattle.flow_rules.specs.Completion.{Break, Continue, LabelledBreak, LabelledContinue, ReturnsNothing, ReturnsValue, SuperCall, always, always_or_gap, are_digits, completes, is_default, is_digit, is_positive, is_super_part};
ghost use Rattle.flow_rules.specs.Flows.{flow_by, leaves, leaving_by};

use crate::flow::{Flow, Leaving, Sums};
use crate::kind_sets::{
    is_break, is_call, is_code, is_continue, is_own_function, is_return, is_switch,
};
use crate::label_search::leaves_label;
use tree::{Kind, Node};

/// What is known of a node, by what is known of its parts.
pub(crate) fn flow_by(node: Node, sums: Sums) -> Flow
    ensures { result ≡ flow_by (node_tree node.entry) sums }
{
    Flow {
        normal: completes(node, sums),
        leaving: leaving_by(node, sums.leaving),
    }
}

/// Whether a node can complete normally.
fn completes(node: Node, sums: Sums) -> bool
    ensures { result ≡ completes (kind_of (node_tree node.entry)) (parts_of (node_tree node.entry)) sums }
{
    match node.kind() {
        Kind::BreakStatement
        | Kind::ContinueStatement
        | Kind::ReturnStatement
        | Kind::ThrowStatement => false,
        Kind::BlockStatement | Kind::SwitchCase | Kind::CatchClause => sums.all,
        Kind::IfStatement => sums.second || sums.third,
        Kind::LabeledStatement => sums.all || leaves_label(node),
        Kind::WhileStatement => !always(node.part(0)) || sums.leaving.breaks,
        Kind::ForStatement => !always_or_gap(node.part(1)) || sums.leaving.breaks,
        Kind::DoWhileStatement => do_completes(node.part(1), sums),
        Kind::SwitchStatement => !sums.has_default || (sums.last || sums.leaving.breaks),
        Kind::TryStatement => (sums.first || sums.second) && sums.third,
        _ => true,
    }
}

/// Whether a `do` can.
fn do_completes(test: Option<Node>, sums: Sums) -> bool
    ensures { result ≡ ((not (always (option_map node_tree test.entry)) && (sums.all || (sums.leaving.continues || sums.leaving.labelled_continues))) || sums.leaving.breaks) }
{
    (!always(test) && (sums.all || (sums.leaving.continues || sums.leaving.labelled_continues)))
        || sums.leaving.breaks
}

/// What leaves a node, by what leaves some part.
fn leaving_by(node: Node, below: Leaving) -> Leaving
    ensures { result ≡ leaving_by (node_tree node.entry) below }
{
    Leaving {
        breaks: leaves_by_breaks(node, below.breaks),
        labelled_breaks: leaves_by_labelled_breaks(node, below.labelled_breaks),
        continues: leaves_by_continues(node, below.continues),
        labelled_continues: leaves_by_labelled_continues(node, below.labelled_continues),
        values: leaves_by_values(node, below.values),
        empties: leaves_by_empties(node, below.empties),
        supers: leaves_by_supers(node, below.supers),
    }
}

/// Whether a `break` without a label leaves a node, if it is known whether one leaves a part.
fn leaves_by_breaks(node: Node, below: bool) -> bool
    ensures { result ≡ leaves Break (node_tree node.entry) below }
{
    (is_break(node.kind()) && node.part(0).is_none())
        || (!(is_code(node.kind()) || (node.kind().is_loop() || is_switch(node.kind()))) && below)
}

/// Whether one with a label leaves a node, if it is known whether one leaves a part.
fn leaves_by_labelled_breaks(node: Node, below: bool) -> bool
    ensures { result ≡ leaves LabelledBreak (node_tree node.entry) below }
{
    (is_break(node.kind()) && node.part(0).is_some()) || (!is_code(node.kind()) && below)
}

/// Whether a `continue` without a label leaves a node, if it is known whether one leaves a part.
fn leaves_by_continues(node: Node, below: bool) -> bool
    ensures { result ≡ leaves Continue (node_tree node.entry) below }
{
    (is_continue(node.kind()) && node.part(0).is_none())
        || (!(is_code(node.kind()) || node.kind().is_loop()) && below)
}

/// Whether one with a label leaves a node, if it is known whether one leaves a part.
fn leaves_by_labelled_continues(node: Node, below: bool) -> bool
    ensures { result ≡ leaves LabelledContinue (node_tree node.entry) below }
{
    (is_continue(node.kind()) && node.part(0).is_some()) || (!is_code(node.kind()) && below)
}

/// Whether a `return` with an argument leaves a node, if it is known whether one leaves a part.
fn leaves_by_values(node: Node, below: bool) -> bool
    ensures { result ≡ leaves ReturnsValue (node_tree node.entry) below }
{
    (is_return(node.kind()) && node.part(0).is_some()) || (!is_code(node.kind()) && below)
}

/// Whether one without leaves a node, if it is known whether one leaves a part.
fn leaves_by_empties(node: Node, below: bool) -> bool
    ensures { result ≡ leaves ReturnsNothing (node_tree node.entry) below }
{
    (is_return(node.kind()) && node.part(0).is_none()) || (!is_code(node.kind()) && below)
}

/// Whether a call of `super` leaves a node, if it is known whether one leaves a part.
fn leaves_by_supers(node: Node, below: bool) -> bool
    ensures { result ≡ leaves SuperCall (node_tree node.entry) below }
{
    (is_call(node.kind()) && is_super_part(node.part(0)))
        || (!is_own_function(node.kind()) && below)
}

/// Whether a part is `super`.
fn is_super_part(part: Option<Node>) -> bool
    ensures { result ≡ is_super_part (option_map node_tree part.entry) }
{
    let Some(node) = part else {
        return false;
    };
    matches!(node.kind(), Kind::Super)
}

/// Whether a condition is surely true.
fn always(test: Option<Node>) -> bool
    ensures { result ≡ always (option_map node_tree test.entry) }
{
    let Some(node) = test else {
        return false;
    };
    match node.kind() {
        Kind::Literal => node.text() == "true" || is_positive(node.text()),
        _ => false,
    }
}

/// Whether a condition is, or is missing.
fn always_or_gap(test: Option<Node>) -> bool
    ensures { result ≡ always_or_gap (option_map node_tree test.entry) }
{
    test.is_none() || always(test)
}

/// Whether a text is a decimal integer from 1 on.
fn is_positive(text: &str) -> bool
    ensures { result ≡ is_positive text.now }
{
    let bytes = text.as_bytes();
    match bytes.split_first() {
        Some((first, rest)) => (*first >= 49 && *first <= 57) && are_digits(rest),
        None => false,
    }
}

/// Whether bytes are digits.
fn are_digits(bytes: &[u8]) -> bool
    ensures { result ≡ are_digits bytes.now }
{
    for byte in bytes {
        if !is_digit(*byte) {
            return false;
        }
    }
    true
}

/// Whether a byte is a digit.
fn is_digit(byte: u8) -> bool
    ensures { result ≡ is_digit byte }
{
    byte >= 48 && byte <= 57
}

/// Whether a node is a `default`.
pub(crate) fn is_default(node: Node) -> bool
    ensures { result ≡ is_default (node_tree node.entry) }
{
    match node.kind() {
        Kind::SwitchCase => node.part(0).is_none(),
        _ => false,
    }
}
