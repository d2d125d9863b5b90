//! What is said between two cases.

ghost use Rattle.std.specs.Prelude.{◌≡◌, option_map};
ghost use Rattle.tree.specs.Node.{node_tree};
ghost use Rattle.flow_rules.specs.Fallthrough.{begins, begins_falls, begins_through, falls_through, inner_end, is_letter, is_said, is_white, quiet_from, quiet_from_only, says_falls};

use crate::flow::Flow;
use crate::kind_sets::{is_block, is_case};
use tree::Node;

/// Whether a node is a case with statements behind which the next one goes on.
pub(crate) fn falls_through(flow: Flow, node: Node) -> bool
    ensures { result ≡ falls_through flow (node_tree node.entry) }
{
    is_case(node.kind()) && (2 <= node.part_count() && flow.normal)
}

/// Where the last statement of a block ends; of an empty one its start.
fn inner_end(block: Node, last: Option<Node>) -> usize
    ensures { result ≡ inner_end (node_tree block.entry) (option_map node_tree last.entry) }
{
    match last {
        Some(last) => last.span().end,
        None => block.span().start,
    }
}

/// Where the last statement of a case with this only statement ends, or the last one in the block that it is.
fn quiet_from_only(node: Node, only: Option<Node>) -> usize
    ensures { result ≡ quiet_from_only (node_tree node.entry) (option_map node_tree only.entry) }
{
    let Some(only) = only else {
        return node.span().end;
    };
    if is_block(only.kind()) {
        inner_end(only, only.parts().last())
    } else {
        node.span().end
    }
}

/// Where the last statement of a case ends, or the last one in the block that is all of it.
pub(crate) fn quiet_from(node: Node) -> usize
    ensures { result ≡ quiet_from (node_tree node.entry) }
{
    if node.part_count() == 2 {
        quiet_from_only(node, node.part(1))
    } else {
        node.span().end
    }
}

/// Whether a byte is a letter, in lower or upper case.
fn is_letter(lower: u8, byte: u8) -> bool
    ensures { result ≡ is_letter lower byte }
{
    byte == lower || byte as u32 + 32 == lower as u32
}

/// Whether a byte is white space.
fn is_white(byte: u8) -> bool
    ensures { result ≡ is_white byte }
{
    byte == 32 || (byte >= 9 && byte <= 13)
}

/// Whether a text begins with a word, in any case of letters. It calls itself as often as the word is long.
fn begins(word: &[u8], text: &[u8]) -> bool
    ensures { result ≡ begins word.now text.now }
{
    let Some((letter, more)) = word.split_first() else {
        return true;
    };
    let Some((first, rest)) = text.split_first() else {
        return false;
    };
    is_letter(*letter, *first) && begins(more, rest)
}

/// Whether a text begins with `through`, perhaps behind one byte of white space.
fn begins_through(text: &[u8]) -> bool
    ensures { result ≡ begins_through text.now }
{
    let Some((first, rest)) = text.split_first() else {
        return false;
    };
    begins("through".as_bytes(), text) || (is_white(*first) && begins("through".as_bytes(), rest))
}

/// The bytes from a place on.
fn skipped(text: &[u8], count: usize) -> &[u8]
    ensures { result.now ≡ Rattle.std.specs.Prelude.drop count text.now }
{
    let from = count.min(text.len());
    &text[from..]
}

/// Whether a text begins with `falls through`, however it is spelled.
fn begins_falls(text: &[u8]) -> bool
    ensures { result ≡ begins_falls text.now }
{
    (begins("fall".as_bytes(), text) && begins_through(skipped(text, 4)))
        || (begins("falls".as_bytes(), text) && begins_through(skipped(text, 5)))
}

/// Whether that stands somewhere in a text.
fn says_falls(text: &[u8]) -> bool
    ensures { result ≡ says_falls text.now }
{
    for index in 0..text.len() {
        if begins_falls(skipped(text, index)) {
            return true;
        }
    }
    false
}

/// Whether it does in the source between two places.
pub(crate) fn is_said(source: &str, from: usize, to: usize) -> bool
    ensures { result ≡ is_said source.now from to }
{
    let bytes = source.as_bytes();
    let end = bytes.len().min(to);
    let start = end.min(from);
    says_falls(&bytes[start..end])
}
