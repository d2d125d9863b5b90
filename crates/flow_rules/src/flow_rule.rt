//! Which rules on completions there are, row by row: a variant, a name, what it reports, where, the words. A rule has an arm in each table
//! here, and in those of `specs/Rows.antt`.

ghost use Rattle.std.specs.Prelude.{◌≡◌};
ghost use Rattle.tree.specs.Node.{node_tree};
ghost use Rattle.flow_rules.specs.Rows.{gives_nothing, holds, is_awaited, is_bare_return, is_body, is_derived, is_getter, is_this_use, outer_place, own_place, parent_place, place, says};

use crate::around::{Around, Home, is_hoisted, is_third};
use crate::fallthrough::is_said;
use crate::flow::Flow;
use crate::kind_sets::{is_block, is_if, is_member_expression, is_return, is_this};
use tree::{Node, Span};

/// A rule that asks how statements complete.
#[derive(Clone, Copy, Debug, PartialEq, Eq)]
pub enum FlowRule {
    ArrayCallbackReturn,
    ConsistentReturn,
    ConstructorSuper,
    GetterReturn,
    NoElseReturn,
    NoFallthrough,
    NoThisBeforeSuper,
    NoUnreachable,
    NoUnreachableLoop,
    NoUselessReturn,
}

/// The rules, in the order of their names.
pub const FLOW_RULES: [FlowRule; 10] = [
    FlowRule::ArrayCallbackReturn,
    FlowRule::ConsistentReturn,
    FlowRule::ConstructorSuper,
    FlowRule::GetterReturn,
    FlowRule::NoElseReturn,
    FlowRule::NoFallthrough,
    FlowRule::NoThisBeforeSuper,
    FlowRule::NoUnreachable,
    FlowRule::NoUnreachableLoop,
    FlowRule::NoUselessReturn,
];

impl FlowRule {
    ghost use Rattle.std.specs.Prelude.{◌≡◌};
    ghost use Rattle.flow_rules.specs.Rows.{called};

    /// What settings and reports call it.
    pub fn name(self) -> &'static str
        ensures { result.now ≡ called self }
    {
        match self {
            FlowRule::ArrayCallbackReturn => "array-callback-return",
            FlowRule::ConsistentReturn => "consistent-return",
            FlowRule::ConstructorSuper => "constructor-super",
            FlowRule::GetterReturn => "getter-return",
            FlowRule::NoElseReturn => "no-else-return",
            FlowRule::NoFallthrough => "no-fallthrough",
            FlowRule::NoThisBeforeSuper => "no-this-before-super",
            FlowRule::NoUnreachable => "no-unreachable",
            FlowRule::NoUnreachableLoop => "no-unreachable-loop",
            FlowRule::NoUselessReturn => "no-useless-return",
        }
    }
}

/// Whether a rule reports a node, by what stands round it and by what is known of it.
pub(crate) fn holds(source: &str, rule: FlowRule, around: Around, flow: Flow, node: Node) -> bool
    ensures { result ≡ holds source.now rule around flow (node_tree node.entry) }
{
    let home = around.round.home;
    let leaving = flow.leaving;
    match rule {
        FlowRule::ArrayCallbackReturn => is_awaited(home) && gives_nothing(around, flow, node),
        FlowRule::ConsistentReturn => {
            is_body(around, node) && (leaving.values && (flow.normal || leaving.empties))
        },
        FlowRule::ConstructorSuper => {
            is_derived(home)
                && (is_body(around, node)
                    && (!(around.has_super || leaving.supers) && (flow.normal || leaving.empties)))
        },
        FlowRule::GetterReturn => is_getter(home) && gives_nothing(around, flow, node),
        FlowRule::NoElseReturn => {
            (is_if(around.round.parent) && is_third(around.place))
                && (around.chained && !is_if(node.kind()))
        },
        FlowRule::NoFallthrough => {
            around.falls && !is_said(source, around.falls_from, node.span().start)
        },
        FlowRule::NoThisBeforeSuper => {
            is_derived(home) && (!around.has_super && is_this_use(around, node))
        },
        FlowRule::NoUnreachable => around.stopped && (!around.in_run && !is_hoisted(node)),
        FlowRule::NoUnreachableLoop => {
            around.round.parent.is_loop()
                && (!flow.normal && !(leaving.continues || leaving.labelled_continues))
        },
        FlowRule::NoUselessReturn => is_bare_return(node) && around.at_tail(),
    }
}

/// Where a report stands.
pub(crate) fn place(rule: FlowRule, around: Around, node: Node) -> Span
    ensures { result ≡ place rule around (node_tree node.entry) }
{
    match rule {
        FlowRule::ArrayCallbackReturn => {
            if is_return(node.kind()) {
                node.span()
            } else {
                parent_place(around)
            }
        },
        FlowRule::ConsistentReturn | FlowRule::NoUnreachableLoop => parent_place(around),
        FlowRule::ConstructorSuper => outer_place(around),
        FlowRule::GetterReturn => {
            if is_return(node.kind()) {
                node.span()
            } else {
                outer_place(around)
            }
        },
        _ => node.span(),
    }
}

/// What a rule says.
pub(crate) fn words(rule: FlowRule, node: Node) -> &'static str
    ensures { result.now ≡ says rule (node_tree node.entry) }
{
    match rule {
        FlowRule::ArrayCallbackReturn => {
            if is_return(node.kind()) {
                "callback returns nothing"
            } else {
                "callback may end without a value"
            }
        },
        FlowRule::ConsistentReturn => "may end without a value",
        FlowRule::ConstructorSuper => "no super(..)",
        FlowRule::GetterReturn => {
            if is_return(node.kind()) {
                "getter returns nothing"
            } else {
                "getter may end without a value"
            }
        },
        FlowRule::NoElseReturn => "'else' behind return",
        FlowRule::NoFallthrough => "the case before goes on here",
        FlowRule::NoThisBeforeSuper => "'this' before super(..)",
        FlowRule::NoUnreachable => "unreachable",
        FlowRule::NoUnreachableLoop => "never goes round twice",
        FlowRule::NoUselessReturn => "returns anyway",
    }
}

/// The place of a node's parent.
fn parent_place(around: Around) -> Span
    ensures { result ≡ parent_place around }
{
    Span {
        start: around.round.start,
        end: around.round.end,
    }
}

/// The place of the parent's parent.
fn outer_place(around: Around) -> Span
    ensures { result ≡ outer_place around }
{
    Span {
        start: around.round.outer_start,
        end: around.round.outer_end,
    }
}

/// Whether a function is a getter.
fn is_getter(home: Home) -> bool
    ensures { result ≡ is_getter home }
{
    matches!(home, Home::Getter)
}

/// Whether a function is the constructor of a class that extends another.
pub(crate) fn is_derived(home: Home) -> bool
    ensures { result ≡ is_derived home }
{
    matches!(home, Home::Derived)
}

/// Whether a function is a callback whose value is used.
fn is_awaited(home: Home) -> bool
    ensures { result ≡ is_awaited home }
{
    matches!(home, Home::Callback)
}

/// Whether a node is the block of a function.
pub(crate) fn is_body(around: Around, node: Node) -> bool
    ensures { result ≡ is_body around (node_tree node.entry) }
{
    around.round.parent.is_function() && is_block(node.kind())
}

/// Whether a node is a `return` without argument.
fn is_bare_return(node: Node) -> bool
    ensures { result ≡ is_bare_return (node_tree node.entry) }
{
    is_return(node.kind()) && node.part(0).is_none()
}

/// Whether a node is the block of a function and can complete normally, or a `return` without argument.
fn gives_nothing(around: Around, flow: Flow, node: Node) -> bool
    ensures { result ≡ gives_nothing around flow (node_tree node.entry) }
{
    (is_body(around, node) && flow.normal) || is_bare_return(node)
}

/// Whether a node is `this`, or the `super` of a member.
fn is_this_use(around: Around, node: Node) -> bool
    ensures { result ≡ is_this_use around (node_tree node.entry) }
{
    is_this(node.kind()) || (node.kind().is_super() && is_member_expression(around.round.parent))
}
