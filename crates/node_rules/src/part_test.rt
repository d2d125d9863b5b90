//! Tests of a node's parts.

ghost use Rattle.std.specs.Prelude.{◌≡◌, option_map};
ghost use Rattle.tree.specs.Node.{node_tree};
ghost use Rattle.tree.specs.Tree.{parts_of};
ghost use Rattle.node_rules.specs.PartTests.{any_part, has_test, is_default, is_gap, is_null, is_pattern, passes};

use crate::kind_sets::{destructures, has_default, is_case};
use crate::words::kind_at;
use tree::{Kind, Node};

/// What is asked of each part of a node.
#[derive(Clone, Copy)]
pub(crate) enum PartTest {
    /// It is `default`.
    IsDefault,
    /// It is missing.
    IsGap,
    /// It is the literal `null`.
    IsNull,
    /// It is a pattern, perhaps with a default.
    IsPattern,
}

/// Whether some part of a node passes a test.
pub(crate) fn any_part(test: PartTest, node: Node) -> bool
    ensures { result ≡ any_part (passes test) (parts_of (node_tree node.entry)) }
{
    let parts = node.parts();
    for index in 0..parts.len() {
        if passes(test, parts.get(index)) {
            return true;
        }
    }
    false
}

/// Whether a part passes a test.
fn passes(test: PartTest, part: Option<Node>) -> bool
    ensures { result ≡ passes test (option_map node_tree part.entry) }
{
    match test {
        PartTest::IsDefault => is_default(part),
        PartTest::IsGap => is_gap(part),
        PartTest::IsNull => is_null(part),
        PartTest::IsPattern => is_pattern(part),
    }
}

/// Whether a part is missing.
fn is_gap(part: Option<Node>) -> bool
    ensures { result ≡ is_gap (option_map node_tree part.entry) }
{
    part.is_none()
}

/// Whether a part is the literal `null`.
fn is_null(part: Option<Node>) -> bool
    ensures { result ≡ is_null (option_map node_tree part.entry) }
{
    let Some(node) = part else {
        return false;
    };
    match node.kind() {
        Kind::Literal => node.text() == "null",
        _ => false,
    }
}

/// Whether a part is a pattern, perhaps with a default.
fn is_pattern(part: Option<Node>) -> bool
    ensures { result ≡ is_pattern (option_map node_tree part.entry) }
{
    destructures(kind_at(part)) || has_default(kind_at(part))
}

/// Whether a part is a case with a test.
fn has_test(part: Option<Node>) -> bool
    ensures { result ≡ has_test (option_map node_tree part.entry) }
{
    match part {
        Some(node) => node.part(0).is_some(),
        None => false,
    }
}

/// Whether a part is `default`.
pub(crate) fn is_default(part: Option<Node>) -> bool
    ensures { result ≡ is_default (option_map node_tree part.entry) }
{
    is_case(kind_at(part)) && !has_test(part)
}
