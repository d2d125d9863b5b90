//! Nodes with their height.

ghost use Rattle.std.specs.Prelude.{◌≡◌, [], IfOk};
ghost use Rattle.tree.specs.Tree.{Parts, node, none, part, plain, height, kind_of, text_of, flags_of, start_of, push, join};
ghost use Rattle.tree.specs.Patterns.{pattern_tree};
ghost use Rattle.productions.specs.Made.{Makes};
ghost use Rattle.productions.specs.Summaries.{is_string};

use crate::measured_parts::MeasuredParts;
use crate::node_summary::{NodeSummary, becomes_another, is_string};
use source_text::Fault;
use std::marker::Model;
use tree::{Flags, Kind, Span, TreeBuilder, Witness, Witnessing};

/// A node with its height, which contracts see as its tree. It waits in the tree that is built.
#[derive(Drop)]
pub struct MeasuredNode {
    pub(crate) shown: Witness,
    pub(crate) summary: NodeSummary,
}

impl Model for MeasuredNode {
    ghost use Rattle.std.specs.Prelude.{◌≡◌};
    ghost use Rattle.tree.specs.Tree.{Tree, only, part, none};
    ghost use Rattle.tree.specs.TreeCode.{tree_code};
    ghost use Rattle.productions.specs.Summaries.{summary_of};

    ghost Value = { Tree };

    ghost coded = { tree_code };

    ghost view = { λ n. only n.shown.parts };

    ghost invariant = { λ n. (n.shown.parts ≡ part (only n.shown.parts) none) × (n.summary ≡ summary_of (only n.shown.parts)) };
}

impl MeasuredNode {
    /// A node with no parts and plain flags, where a height of 1 isn't greater than `high`. It waits behind what waited.
    ///
    /// # Errors
    /// `TooDeep` where it is.
    #[inline(always)]
    pub fn leaf<'s>(
        tree: &mut TreeBuilder<'s>,
        kind: Kind,
        text: &'s str,
        span: Span,
        high: u32,
    ) -> Result<MeasuredNode, Fault>
        ensures made { Makes (node kind text.now plain span.start span.end none) high result }
        ensures waits { IfOk result (λ leaf. tree.new ≡ push tree.old leaf) }
    {
        if high == 0 {
            return Err(Fault::TooDeep);
        }
        let leaf = MeasuredNode::without_parts(kind, text, span);
        tree.leaf(kind, text, span);
        Ok(leaf)
    }

    /// A node as `leaf` makes it, but where these parts are what waits last, it waits before them: a callee that was read as one
    /// only behind its arguments.
    ///
    /// # Errors
    /// `TooDeep` where a height of 1 is greater than `high`.
    pub fn leaf_before<'s>(
        tree: &mut TreeBuilder<'s>,
        parts: &MeasuredParts,
        kind: Kind,
        text: &'s str,
        span: Span,
        high: u32,
    ) -> Result<MeasuredNode, Fault>
        ensures made { Makes (node kind text.now plain span.start span.end none) high result }
        ensures waits { (base : Parts) → tree.old ≡ join base parts.now → IfOk result (λ leaf. tree.new ≡ join base (part leaf parts.now)) }
    {
        if high == 0 {
            return Err(Fault::TooDeep);
        }
        let leaf = MeasuredNode::without_parts(kind, text, span);
        tree.leaf_before(parts.len(), kind, text, span);
        Ok(leaf)
    }

    /// A node with no parts and plain flags, which stands for one that waits.
    #[inline(always)]
    fn without_parts(kind: Kind, text: &str, span: Span) -> MeasuredNode
        ensures { result ≡ node kind text.now plain span.start span.end none }
    {
        let parts = Witness::of(&Witnessing::Nothing);
        let shown = Witness::of(&Witnessing::Node {
            kind,
            text,
            flags: Flags::PLAIN,
            span,
            parts: &parts,
        });
        let summary = NodeSummary {
            start: span.start,
            levels: 1,
            kind,
            is_optional: false,
            is_directive: false,
            is_string: is_string(kind, text),
        };
        MeasuredNode { shown, summary }
    }

    /// The greatest number of nodes on a path down.
    pub fn height(&self) -> u32
        ensures { result ≡ height self.now }
    {
        self.summary.levels
    }

    /// What kind of node it is.
    pub fn kind(&self) -> Kind
        ensures { result ≡ kind_of self.now }
    {
        self.summary.kind
    }

    /// Where it begins, in bytes.
    pub fn start(&self) -> usize
        ensures { result ≡ start_of self.now }
    {
        self.summary.start
    }

    /// Whether it stands behind `?.`.
    pub fn is_optional(&self) -> bool
        ensures { result ≡ (flags_of self.now).optional }
    {
        self.summary.is_optional
    }

    /// Whether it is a directive.
    pub fn is_directive(&self) -> bool
        ensures { result ≡ (flags_of self.now).directive }
    {
        self.summary.is_directive
    }

    /// Whether it is a string literal.
    pub fn is_string(&self) -> bool
        ensures { result ≡ is_string (kind_of self.now) (text_of self.now) }
    {
        self.summary.is_string
    }

    /// The pattern that it becomes, of the same height, where it is what waits last.
    pub fn into_pattern(self, tree: &mut TreeBuilder<'_>) -> MeasuredNode
        ensures made { result ≡ pattern_tree self }
        ensures waits { (base : Parts) → tree.old ≡ push base self → tree.new ≡ push base result }
    {
        if !becomes_another(self.summary.kind) {
            return self;
        }
        tree.make_pattern();
        MeasuredNode {
            shown: Witness::of(&Witnessing::Patterns { of: &self.shown }),
            summary: self.summary.of_pattern(),
        }
    }
}

/// The node of these parts, where its height isn't greater than `high`. Where these are what waits last, it waits in their place.
///
/// # Errors
/// `TooDeep` where it is.
pub fn finish_node<'s>(
    tree: &mut TreeBuilder<'s>,
    kind: Kind,
    text: &'s str,
    flags: Flags,
    span: Span,
    nodes: MeasuredParts,
    high: u32,
) -> Result<MeasuredNode, Fault>
    ensures made { Makes (node kind text.now flags span.start span.end nodes) high result }
    ensures waits { (base : Parts) → tree.old ≡ join base nodes → IfOk result (λ made. tree.new ≡ push base made) }
{
    let levels = nodes.height();
    if levels >= high {
        return Err(Fault::TooDeep);
    }
    let shown = Witness::of(&Witnessing::Node {
        kind,
        text,
        flags,
        span,
        parts: nodes.shown(),
    });
    let summary = NodeSummary {
        start: span.start,
        levels: levels + 1,
        kind,
        is_optional: flags.optional,
        is_directive: flags.directive,
        is_string: is_string(kind, text),
    };
    tree.finish(kind, text, flags, span, nodes.len());
    Ok(MeasuredNode { shown, summary })
}

/// The node of these parts, without a text and with plain flags, where its height isn't greater than `high`. Where these are what waits
/// last, it waits in their place.
///
/// # Errors
/// `TooDeep` where it is.
pub fn finish_plain(
    tree: &mut TreeBuilder<'_>,
    kind: Kind,
    span: Span,
    nodes: MeasuredParts,
    high: u32,
) -> Result<MeasuredNode, Fault>
    ensures made { Makes (node kind [] plain span.start span.end nodes) high result }
    ensures waits { (base : Parts) → tree.old ≡ join base nodes → IfOk result (λ made. tree.new ≡ push base made) }
{
    finish_node(tree, kind, "", Flags::PLAIN, span, nodes, high)
}
