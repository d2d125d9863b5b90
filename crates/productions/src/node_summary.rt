//! What is kept of a node that waits in the tree.

ghost use Rattle.std.specs.Prelude.{◌≡◌, option_map};
ghost use Rattle.tree.specs.Patterns.{pattern_kind};
ghost use Rattle.productions.specs.Summaries.{becomes_another, is_quoted, is_string, pattern_summary};

use tree::Kind;

/// What is kept of a node that waits in the tree.
#[derive(Clone, Copy)]
pub(crate) struct NodeSummary {
    /// Where it begins, in bytes.
    pub start: usize,
    /// The greatest number of nodes on a path down.
    pub levels: u32,
    pub kind: Kind,
    pub is_optional: bool,
    pub is_directive: bool,
    /// It is a string literal.
    pub is_string: bool,
}

impl NodeSummary {
    /// That of the pattern which the node becomes.
    pub(crate) fn of_pattern(self) -> NodeSummary
        ensures { result ≡ pattern_summary self }
    {
        NodeSummary {
            kind: pattern_kind(self.kind),
            ..self
        }
    }
}

/// That of the pattern which a part becomes, if it isn't missing.
#[inline(always)]
pub(crate) fn summary_of_pattern(part: Option<NodeSummary>) -> Option<NodeSummary>
    ensures { result ≡ option_map pattern_summary part }
{
    match part {
        Some(summary) => Some(summary.of_pattern()),
        None => None,
    }
}

/// The kind of the pattern that a node of a kind becomes.
fn pattern_kind(kind: Kind) -> Kind
    ensures { result ≡ pattern_kind kind }
{
    match kind {
        Kind::ArrayExpression => Kind::ArrayPattern,
        Kind::ObjectExpression => Kind::ObjectPattern,
        Kind::AssignmentExpression => Kind::AssignmentPattern,
        Kind::SpreadElement => Kind::RestElement,
        _ => kind,
    }
}

/// Whether a node of this kind isn't its own pattern.
#[inline(always)]
pub(crate) fn becomes_another(kind: Kind) -> bool
    ensures { result ≡ becomes_another kind }
{
    matches!(
        kind,
        Kind::ArrayExpression
            | Kind::ObjectExpression
            | Kind::AssignmentExpression
            | Kind::SpreadElement
            | Kind::Property
    )
}

/// Whether a node of this kind and with this text is a string literal.
#[inline(always)]
pub(crate) fn is_string(kind: Kind, text: &str) -> bool
    ensures { result ≡ is_string kind text.now }
{
    match kind {
        Kind::Literal => is_quoted(text),
        _ => false,
    }
}

/// Whether a text begins with a quote.
fn is_quoted(text: &str) -> bool
    ensures { result ≡ is_quoted text.now }
{
    match text.as_bytes().first() {
        Some(quote) => *quote == b'\'' || *quote == b'"',
        None => false,
    }
}
