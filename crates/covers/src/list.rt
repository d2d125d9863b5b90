//! Lists, item by item: arguments, elements, properties, parameters, what parentheses hold, templates, sequences,
//! declarators, cases and members. `at` is the place that a syntax error names.

ghost use Rattle.std.specs.Prelude.{◌≡◌, false, IfOk, IfErr, option_map};
ghost use Rattle.tree.specs.Tree.{Parts, none, push, push_gap, join, part_count};
ghost use Rattle.covers.specs.Lists.{opening, closing, reads, nothing_seen, seen_with, with_hole, separated, is_ended, is_surplus, takes};
ghost use Rattle.tree.specs.Patterns.{pattern_parts};
ghost use Rattle.covers.specs.Refusals.{IsRefusedAt, IsMemory, IsTaken};
ghost use Rattle.covers.specs.Shapes.{Becomes, is_bound};

use crate::cover::to_parameters;
use crate::shape::CoverShape;
use language::Edge;
use productions::{MeasuredNode, MeasuredParts};
use source_text::Fault;
use tree::{Span, TreeBuilder};

/// What is listed.
#[derive(Clone, Copy, Debug, PartialEq, Eq)]
pub enum ListKind {
    /// Of a call or of `new`, in parentheses (ECMA-262 12.3).
    Arguments,
    /// Of an array or its pattern, in brackets (12.2.5).
    Elements,
    /// Of an object or its pattern, in braces (12.2.6).
    Properties,
    /// What parentheses group, or an arrow's parameters (12.2.10, 14.2).
    ParenthesizedItems,
    /// Of a function or a method that is no getter and no setter, in parentheses (14.1).
    Parameters,
    /// Of a getter, in parentheses (14.3).
    NoParameter,
    /// Of a setter, in parentheses (14.3).
    OneParameter,
    /// The parts of a template: characters and, between them, substitutions (12.2.9).
    Template,
    /// The parts of a sequence (12.16), and whether `in` may be an operator in them.
    Sequence { has_in: bool },
    /// Of a declaration (13.3), and whether `in` may be an operator in them.
    Declarators { has_in: bool },
    /// Of a switch, in braces (13.12), and whether `return` may stand there.
    Cases { returns: bool },
    /// Of a class, in braces (14.6).
    Members,
    /// Behind `async`: arguments, or the parameters of an async arrow (15.9 of the 13th edition).
    AsyncArguments,
}

impl ListKind {
    /// The punctuator before the first item.
    pub fn opener(self) -> Option<&'static str>
        ensures { option_map (λ mark. mark.now) result ≡ opening self }
    {
        match self {
            ListKind::Arguments | ListKind::ParenthesizedItems | ListKind::AsyncArguments => {
                Some("(")
            }
            ListKind::Parameters | ListKind::NoParameter | ListKind::OneParameter => Some("("),
            ListKind::Elements => Some("["),
            ListKind::Properties | ListKind::Cases { .. } | ListKind::Members => Some("{"),
            ListKind::Template | ListKind::Sequence { .. } | ListKind::Declarators { .. } => None,
        }
    }

    /// The punctuator behind the last item.
    pub fn closer(self) -> Option<&'static str>
        ensures { option_map (λ mark. mark.now) result ≡ closing self }
    {
        match self {
            ListKind::Arguments | ListKind::ParenthesizedItems | ListKind::AsyncArguments => {
                Some(")")
            }
            ListKind::Parameters | ListKind::NoParameter | ListKind::OneParameter => Some(")"),
            ListKind::Elements => Some("]"),
            ListKind::Properties | ListKind::Cases { .. } | ListKind::Members => Some("}"),
            ListKind::Template | ListKind::Sequence { .. } | ListKind::Declarators { .. } => None,
        }
    }

    /// Whether items of this shape together have a reading in this list: as expressions, targets, or bindings.
    fn reads(self, shape: CoverShape) -> bool
        ensures { result ≡ reads self shape }
    {
        match self {
            ListKind::Elements | ListKind::Properties => shape.is_either(),
            ListKind::ParenthesizedItems | ListKind::AsyncArguments => {
                shape.is_expression || shape.is_bound()
            }
            ListKind::Parameters | ListKind::OneParameter => shape.is_bound(),
            _ => shape.is_expression,
        }
    }
}

/// An item of a list, as it is read.
#[derive(Drop)]
pub struct ListItem {
    pub node: MeasuredNode,
    /// What it may be, without its `...`.
    pub shape: CoverShape,
    /// `...` stands before it.
    pub spreads: bool,
    /// A declarator of a pattern without a value; a case that is `default`; or the last part of a template.
    pub is_flagged: bool,
    /// Its right edge.
    pub edge: Edge,
}

impl ListItem {
    /// A node that is an expression, or none at all, and no pattern.
    pub fn plain(node: MeasuredNode) -> ListItem
        ensures { result ≡ record { node = node; shape = CoverShape.VALUE; spreads = false; is_flagged = false; edge = Edge.Closed } }
    {
        ListItem {
            node,
            shape: CoverShape::VALUE,
            spreads: false,
            is_flagged: false,
            edge: Edge::Closed,
        }
    }
}

/// What was seen of the items so far.
#[derive(Clone, Copy)]
pub struct ListSummary {
    /// What they may be together, as elements of an array or properties of an object.
    pub shape: CoverShape,
    /// What the last may be.
    pub last: CoverShape,
    /// The last stands behind `...`.
    pub is_rest: bool,
    /// A comma follows the last.
    pub has_comma: bool,
    /// One of them is marked.
    pub is_flagged: bool,
    /// The right edge of the last.
    pub edge: Edge,
}

impl ListSummary {
    /// The summary of no items.
    const NOTHING: ListSummary = ListSummary {
        shape: CoverShape::EMPTY,
        last: CoverShape::EMPTY,
        is_rest: false,
        has_comma: false,
        is_flagged: false,
        edge: Edge::Closed,
    };

    /// The summary with one more item; after `...`, what parentheses hold is no expression.
    fn with(self, item: &ListItem, listed: ListKind) -> ListSummary
        ensures { result ≡ seen_with self item.now listed }
    {
        let shape = match (item.spreads, listed) {
            (false, _) => self.shape.with_element(item.shape),
            (true, ListKind::ParenthesizedItems) => self.shape.with_rest(item.shape).initialized(),
            (true, _) => self.shape.with_rest(item.shape),
        };
        ListSummary {
            shape,
            last: item.shape,
            is_rest: item.spreads,
            has_comma: false,
            is_flagged: self.is_flagged || item.is_flagged,
            edge: item.edge,
        }
    }

    /// The summary with a comma after the last item, or without; a pattern has no comma after its rest.
    fn separated(self, has_comma: bool) -> ListSummary
        ensures { result ≡ separated self has_comma }
    {
        let shape = match has_comma && self.is_rest {
            true => self.shape.unassigned(),
            false => self.shape,
        };
        ListSummary {
            shape,
            has_comma,
            ..self
        }
    }
}

/// A list, as far as it is read.
#[derive(Drop)]
pub struct ListBuilder {
    pub listed: ListKind,
    pub nodes: MeasuredParts,
    pub seen: ListSummary,
    /// From the first item to the last.
    pub inside: Span,
    /// With the brackets round them.
    pub span: Span,
}

impl ListBuilder {
    /// A list without items, from this place on.
    pub fn new(listed: ListKind, start: usize) -> ListBuilder
        ensures listed { result.listed ≡ listed }
        ensures empty { result.nodes ≡ none }
        ensures seen { result.seen ≡ nothing_seen }
        ensures inside { result.inside ≡ record { start = start; end = start } }
        ensures span { result.span ≡ record { start = start; end = start } }
    {
        let span = Span { start, end: start };
        ListBuilder {
            listed,
            nodes: MeasuredParts::new(),
            seen: ListSummary::NOTHING,
            inside: span,
            span,
        }
    }

    /// The items so far were passed, with a comma or without; then the list goes on.
    pub fn separate(&mut self, has_comma: bool)
        ensures listed { self.new.listed ≡ self.old.listed }
        ensures separated { self.new ≡ record self.old { seen = separated self.old.seen has_comma } }
    {
        self.seen = self.seen.separated(has_comma);
    }

    /// Whether nothing may follow the last item, no comma either.
    pub fn is_ended(&self) -> bool
        ensures { result ≡ is_ended self.now.listed self.now.seen (part_count self.now.nodes) }
    {
        match self.listed {
            ListKind::ParenthesizedItems | ListKind::Parameters => self.seen.is_rest,
            ListKind::OneParameter => self.nodes.len() > 0,
            ListKind::NoParameter => true,
            ListKind::Template => self.seen.is_flagged,
            _ => false,
        }
    }

    /// A hole of an array, which waits behind what waited; as it was where there is no number for it.
    ///
    /// # Errors
    /// `OutOfMemory`.
    pub fn push_hole(&mut self, tree: &mut TreeBuilder<'_>) -> Result<(), Fault>
        ensures listed { self.new.listed ≡ self.old.listed }
        ensures pushed { IfOk result (λ _. self.new ≡ record self.old { nodes = push_gap self.old.nodes; seen = with_hole self.old.seen }) }
        ensures kept { IfErr result (λ _. self.new ≡ self.old) }
        ensures refused { IfErr result IsMemory }
        ensures waits { IfOk result (λ _. tree.new ≡ push_gap tree.old) }
    {
        self.nodes.push_gap(tree)?;
        self.seen.is_rest = false;
        Ok(())
    }

    /// One more item; as it was where it is refused.
    ///
    /// # Errors
    /// `Syntax` where no reading of the items is left, or a case is the second `default` (13.12); `OutOfMemory`.
    pub fn push(&mut self, item: ListItem, at: usize) -> Result<(), Fault>
        ensures listed { self.new.listed ≡ self.old.listed }
        ensures pushed { IfOk result (λ _. self.new ≡ record self.old { nodes = push self.old.nodes item.node; seen = seen_with self.old.seen item self.old.listed }) }
        ensures kept { IfErr result (λ _. self.new ≡ self.old) }
        ensures taken { IsTaken (takes self.old.listed self.old.seen item) at result }
        ensures refused { IfErr result (IsRefusedAt at) }
    {
        let seen = self.seen.with(&item, self.listed);
        if self.is_surplus(&item) || !self.listed.reads(seen.shape) {
            return Err(Fault::Syntax(at));
        }
        self.nodes.push(item.node)?;
        self.seen = seen;
        Ok(())
    }

    /// Whether the list can't take this item: a second `default`, or a setter's rest.
    fn is_surplus(&self, item: &ListItem) -> bool
        ensures { result ≡ is_surplus self.now.listed self.now.seen item.now }
    {
        match self.listed {
            ListKind::Cases { .. } => self.seen.is_flagged && item.is_flagged,
            ListKind::OneParameter => item.spreads,
            _ => false,
        }
    }

    /// The parameters, of an arrow too (14.1, 14.2).
    ///
    /// # Errors
    /// `Syntax` where one is no name and no pattern that is bound, with a default or without.
    pub fn into_parameters(
        self,
        tree: &mut TreeBuilder<'_>,
        at: usize,
    ) -> Result<MeasuredParts, Fault>
        ensures made { Becomes (pattern_parts 0 self.nodes) (is_bound self.seen.shape) at result }
        ensures refused { IfErr result (IsRefusedAt at) }
        ensures waits { (base : Parts) → tree.old ≡ join base self.nodes → IfOk result (λ parameters. tree.new ≡ join base parameters) }
    {
        to_parameters(tree, self.nodes, self.seen.shape, at)
    }
}
