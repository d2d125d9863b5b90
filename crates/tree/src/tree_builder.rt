//! The finished tree while a script is read: the parser adds each node behind its parts.

ghost use Rattle.std.specs.Prelude.{◌≡◌, IfOk};
ghost use Rattle.tree.specs.Patterns.{pattern_parts};
ghost use Rattle.tree.specs.Tree.{all_but, join, last_parts, node, none, plain, push};

use crate::build_error::BuildError;
use crate::callee::push_before;
use crate::flat_builder::{FlatBuilder, NodeLabel, push_hole, push_leaf, push_parent};
use crate::flat_node::FlatNodes;
use crate::flat_tree::FlatTree;
use crate::kind::{Flags, Kind, Span};
use crate::patterns::make_last_patterns;
use crate::text_arena::TextArena;
use crate::witness::{Witness, Witnessing};
use std::alloc::{AllocError, Global};
use std::marker::Model;

/// The nodes of a script that are there so far, which contracts see as the parts that wait for their node, in source order. A node takes the
/// last of these as its parts, and waits in their place. No call of it fails: once memory is refused, or a number is past what four bytes
/// hold, it notes that, nothing more is added, and `Program::build` refuses in the end.
#[derive(Drop)]
pub struct TreeBuilder<'s> {
    building: FlatBuilder<'s>,
    refused: Option<BuildError>,
    shown: Witness,
    texts: &'s TextArena,
}

impl<'s> Model for TreeBuilder<'s> {
    ghost use Rattle.tree.specs.Tree.{Parts};
    ghost use Rattle.tree.specs.TreeCode.{parts_code};
    ghost use Rattle.tree.specs.TooLarge.{Holds};

    ghost Value = { Parts };

    ghost coded = { parts_code };

    ghost view = { λ b. b.shown.parts };

    ghost invariant = { λ b. Holds b.building b.refused b.shown.parts };
}

impl<'s> TreeBuilder<'s> {
    ghost use Rattle.std.specs.Prelude.{◌≡◌, IfErr, IfOk};
    ghost use Rattle.tree.specs.Patterns.{pattern_tree, pattern_parts};
    ghost use Rattle.tree.specs.Tree.{Tree, Parts, node, none, part, plain, push, push_gap, join, part_count};
    ghost use Rattle.tree.specs.TooLarge.{IsTooLarge};
    ghost use Rattle.tree.specs.Whole.{HasNodesOf};
    ghost use Rattle.tree.specs.declared.build_error.BuildError.TheVariants.{TooLarge};

    /// No nodes; no memory.
    pub fn new(alloc: Global, texts: &'s TextArena) -> TreeBuilder<'s>
        ensures { result ≡ none }
    {
        TreeBuilder {
            building: FlatBuilder {
                nodes: FlatNodes::new(alloc),
                parts: Vec::new(alloc),
                waiting: Vec::new(alloc),
            },
            refused: None,
            shown: Witness::of(&Witnessing::Nothing),
            texts,
        }
    }

    /// A copy of a text that was made, for a node of this tree.
    ///
    /// # Errors
    /// `AllocError` where memory is refused.
    pub fn keep(&self, text: &str) -> Result<&'s str, AllocError>
        ensures { IfOk result (λ kept. kept.now ≡ text.now) }
    {
        self.texts.keep(text)
    }

    /// A node with no parts and plain flags, which waits.
    #[inline(always)]
    pub fn leaf(&mut self, kind: Kind, text: &'s str, span: Span)
        ensures { self.new ≡ push self.old (node kind text.now plain span.start span.end none) }
    {
        let flags = Flags::PLAIN;
        self.shown = finished(&self.shown, kind, text, flags, span, 0);
        if self.refused.is_none() {
            let label = NodeLabel {
                kind,
                text,
                flags,
                span,
            };
            if let Err(error) = push_leaf(&mut self.building, label) {
                self.refused = Some(error);
            }
        }
    }

    /// A hole, or what is missing, waits.
    #[inline(always)]
    pub fn gap(&mut self)
        ensures { self.new ≡ push_gap self.old }
    {
        self.shown = Witness::of(&Witnessing::PushGap {
            before: &self.shown,
        });
        if self.refused.is_none() {
            if let Err(error) = push_hole(&mut self.building) {
                self.refused = Some(error);
            }
        }
    }

    /// A node whose parts are the last so many that wait; it waits in their place.
    #[inline(always)]
    pub fn finish(&mut self, kind: Kind, text: &'s str, flags: Flags, span: Span, count: usize)
        ensures { (base own : Parts) → self.old ≡ join base own → part_count own ≡ count → self.new ≡ push base (node kind text.now flags span.start span.end own) }
    {
        self.shown = finished(&self.shown, kind, text, flags, span, count);
        if self.refused.is_none() {
            let label = NodeLabel {
                kind,
                text,
                flags,
                span,
            };
            if let Err(error) = push_parent(&mut self.building, label, count) {
                self.refused = Some(error);
            }
        }
    }

    /// The part that waits last becomes its pattern.
    pub fn make_pattern(&mut self)
        ensures { (base : Parts) (t : Tree) → self.old ≡ push base t → self.new ≡ push base (pattern_tree t) }
    {
        self.make_patterns(1);
    }

    /// The last so many parts that wait become their patterns.
    pub fn make_patterns(&mut self, count: usize)
        ensures { (base own : Parts) → self.old ≡ join base own → part_count own ≡ count → self.new ≡ join base (pattern_parts 0 own) }
    {
        self.shown = patterned(&self.shown, count);
        if self.refused.is_none() {
            make_last_patterns(&mut self.building, count);
        }
    }

    /// A node with no parts and plain flags, which waits before the last so many parts: a callee that was read as one only behind its
    /// arguments. Their nodes move up by one.
    pub fn leaf_before(&mut self, count: usize, kind: Kind, text: &'s str, span: Span)
        ensures { (base own : Parts) → self.old ≡ join base own → part_count own ≡ count → self.new ≡ join base (part (node kind text.now plain span.start span.end none) own) }
    {
        let flags = Flags::PLAIN;
        self.shown = led(&self.shown, kind, text, span, count);
        if self.refused.is_none() {
            let label = NodeLabel {
                kind,
                text,
                flags,
                span,
            };
            if let Err(error) = push_before(&mut self.building, label, count) {
                self.refused = Some(error);
            }
        }
    }

    /// The finished tree of a node that has all that wait as its parts, its rows still to be numbered.
    pub(crate) fn into_tree(
        self,
        kind: Kind,
        text: &'s str,
        span: Span,
    ) -> Result<FlatTree<'s>, BuildError>
        ensures built { IfOk result (λ tree. HasNodesOf tree (node kind text.now plain span.start span.end self.entry)) }
        ensures refused { IfErr result (λ error. error ≡ TooLarge → IsTooLarge (node kind text.now plain span.start span.end self.entry)) }
    {
        let mut builder = self;
        if let Some(error) = builder.refused {
            return Err(error);
        }
        let count = builder.building.waiting.len();
        builder.finish(kind, text, Flags::PLAIN, span, count);
        let TreeBuilder {
            building,
            refused,
            shown: _,
            texts: _,
        } = builder;
        let FlatBuilder {
            nodes,
            parts,
            waiting: _,
        } = building;
        match refused {
            None => Ok(FlatTree { nodes, parts }),
            Some(error) => Err(error),
        }
    }
}

/// What waits once a node has the last so many parts.
#[inline(always)]
fn finished(
    waiting: &Witness,
    kind: Kind,
    text: &str,
    flags: Flags,
    span: Span,
    count: usize,
) -> Witness
    ensures { result.parts ≡ push (all_but count waiting.now.parts) (node kind text.now flags span.start span.end (last_parts count waiting.now.parts)) }
{
    let kept = Witness::of(&Witnessing::AllBut { count, of: waiting });
    let parts = Witness::of(&Witnessing::Last { count, of: waiting });
    let node = Witness::of(&Witnessing::Node {
        kind,
        text,
        flags,
        span,
        parts: &parts,
    });
    Witness::of(&Witnessing::Push {
        before: &kept,
        node: &node,
    })
}

/// What waits once the last so many parts are patterns.
#[inline(always)]
fn patterned(waiting: &Witness, count: usize) -> Witness
    ensures { result.parts ≡ join (all_but count waiting.now.parts) (pattern_parts 0 (last_parts count waiting.now.parts)) }
{
    let kept = Witness::of(&Witnessing::AllBut { count, of: waiting });
    let last = Witness::of(&Witnessing::Last { count, of: waiting });
    let patterns = Witness::of(&Witnessing::Patterns { of: &last });
    Witness::of(&Witnessing::Join {
        before: &kept,
        behind: &patterns,
    })
}

/// What waits once a node without parts stands before the last so many.
#[inline(always)]
fn led(waiting: &Witness, kind: Kind, text: &str, span: Span, count: usize) -> Witness
    ensures { result.parts ≡ join (push (all_but count waiting.now.parts) (node kind text.now plain span.start span.end none)) (last_parts count waiting.now.parts) }
{
    let kept = Witness::of(&Witnessing::AllBut { count, of: waiting });
    let last = Witness::of(&Witnessing::Last { count, of: waiting });
    let before = finished(&kept, kind, text, Flags::PLAIN, span, 0);
    Witness::of(&Witnessing::Join {
        before: &before,
        behind: &last,
    })
}
