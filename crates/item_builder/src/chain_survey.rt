//! What a chain of members and calls is, as far as its layout depends on that.

ghost use Rattle.std.specs.Prelude.{◌<◌, IfSome};
ghost use Rattle.tree.specs.Tree.{node_total};
ghost use Rattle.tree.specs.Node.{node_tree};

use crate::around::Around;
use crate::builder::Builder;
use crate::kinds::{are_simple, is_kind};
use tree::{Kind, Node};

/// How a chain is laid out.
#[derive(Clone, Copy, PartialEq, Eq)]
pub enum ChainShape {
    /// A line may end before each member.
    Members,
    /// Written on.
    OneLine,
    /// On one line if that fits, else each link on a line of its own.
    Choice,
    /// Each link on a line of its own.
    Lines,
}

/// A link of a chain.
#[derive(Clone, Copy)]
pub struct Link {
    pub is_call: bool,
    /// `[0]`, `["a"]`.
    pub is_literal: bool,
    /// A comment before it ends a line.
    pub is_own: bool,
    /// The link behind it is a member.
    pub is_before_member: bool,
}

/// Which part of a chain was passed, from its base on.
#[derive(Clone, Copy, PartialEq, Eq)]
enum Stage {
    /// Calls of the base, and literal members of these.
    Calls,
    /// Members before the first call's own.
    Members,
    /// Groups: members with the calls behind them.
    Groups,
}

/// What was passed of a chain: where its groups begin.
#[derive(Clone, Copy)]
pub struct Passed {
    stage: Stage,
    /// Whether one of its first links is a call.
    has_first_call: bool,
    /// Whether the group that was passed last has a call.
    has_call: bool,
    pub groups: usize,
}

impl Passed {
    /// Before the first link.
    pub const NOTHING: Passed = Passed {
        stage: Stage::Calls,
        has_first_call: false,
        has_call: false,
        groups: 0,
    };

    /// Passes a link: whether a group begins with it.
    pub fn pass(&mut self, link: Link) -> bool {
        if self.stage == Stage::Calls {
            if (link.is_call || link.is_literal) && !link.is_own {
                self.has_first_call = self.has_first_call || link.is_call;
                return false;
            }
            self.stage = Stage::Members;
        }
        if self.stage == Stage::Members {
            let is_first = !self.has_first_call && !link.is_call && link.is_before_member;
            if is_first && !link.is_own {
                return false;
            }
            self.stage = Stage::Groups;
            self.begin_group(link);
            return true;
        }
        self.pass_in_groups(link)
    }

    fn pass_in_groups(&mut self, link: Link) -> bool {
        if self.has_call && !link.is_call && !link.is_literal {
            self.begin_group(link);
            return true;
        }
        self.has_call = self.has_call || link.is_call;
        false
    }

    fn begin_group(&mut self, link: Link) {
        self.groups = self.groups.saturating_add(1);
        self.has_call = link.is_call;
    }
}

/// What a chain is, from its base to a link.
#[derive(Clone, Copy)]
pub struct Survey {
    pub passed: Passed,
    calls: usize,
    pub links: usize,
    has_own: bool,
    /// Whether the first group stays on the line of what is before it.
    merges: bool,
    /// Whether the link that was passed last is a member by a name, and by that of a factory.
    is_behind_name: bool,
    is_behind_factory: bool,
}

impl Survey {
    const NOTHING: Survey = Survey {
        passed: Passed::NOTHING,
        calls: 0,
        links: 0,
        has_own: false,
        merges: false,
        is_behind_name: false,
        is_behind_factory: false,
    };

    /// Passes a link, of a base that merges or not.
    fn pass(&mut self, node: Node<'_, '_>, link: Link, merges_base: bool) {
        let begins = self.passed.pass(link);
        if begins && self.passed.groups == 1 && !link.is_own {
            self.merges = if self.links == 0 {
                merges_base
            } else {
                self.is_behind_factory || (self.is_behind_name && link.is_literal)
            };
        }
        self.links = self.links.saturating_add(1);
        if link.is_call {
            self.calls = self.calls.saturating_add(1);
        }
        self.has_own = self.has_own || link.is_own;
        let name = member_name(node);
        self.is_behind_name = name.is_some();
        self.is_behind_factory = name.is_some_and(is_factory);
    }

    /// How many groups stand on the line of the base.
    pub fn groups_on_line(self) -> usize {
        if self.merges { 1 } else { 0 }
    }
}

/// Whether it is a member or a call.
fn is_link(node: Node<'_, '_>) -> bool {
    matches!(node.kind(), Kind::MemberExpression | Kind::CallExpression)
}

/// The link before this one; none where what is before it is the base.
#[tactic(auto, using(tree::proofs::PartWalk::part_smaller))]
pub fn link_before<'n, 's>(node: Node<'n, 's>) -> Option<Node<'n, 's>>
    ensures { IfSome result (λ before. node_total (node_tree before) < node_total (node_tree node.entry)) }
{
    let Some(inner) = node.part(0) else {
        return None;
    };
    let is_bare = inner.span().start == node.span().start;
    if is_link(inner) && is_bare {
        return Some(inner);
    }
    None
}

/// Whether it is a member of an object.
pub fn is_member(node: Node<'_, '_>) -> bool {
    is_kind(node, Kind::MemberExpression)
}

/// Whether a member's name stands in brackets and is a literal.
pub fn is_literal_member(node: Node<'_, '_>) -> bool {
    match node.part(1) {
        Some(property) => {
            is_member(node) && node.flags().computed && is_kind(property, Kind::Literal)
        }
        None => false,
    }
}

/// The name of a member that has one.
fn member_name<'n>(node: Node<'n, '_>) -> Option<&'n str> {
    let Some(property) = node.part(1) else {
        return None;
    };
    if is_member(node) && !node.flags().computed && is_kind(property, Kind::Identifier) {
        Some(property.text())
    } else {
        None
    }
}

/// Whether it is the name of a factory: it begins with a capital letter, or has `$` and `_` alone.
fn is_factory(name: &str) -> bool {
    let bytes = name.as_bytes();
    matches!(bytes.first(), Some(b'A'..=b'Z'))
        || (!bytes.is_empty() && bytes.iter().all(|c| matches!(*c, b'$' | b'_')))
}

/// Whether the first group behind this base stays on its line.
pub fn merges_base(b: &Builder<'_>, base: Node<'_, '_>, around: Around) -> bool {
    let name = base.text();
    let is_short = around.is_statement && name.chars().count() <= b.style().indent as usize;
    is_kind(base, Kind::ThisExpression)
        || (is_kind(base, Kind::Identifier) && (is_factory(name) || is_short))
}

fn link_of(b: &Builder<'_>, node: Node<'_, '_>, is_before_member: bool) -> Link {
    let from = match node.part(0) {
        Some(inner) => inner.span().end,
        None => node.span().start,
    };
    Link {
        is_call: is_kind(node, Kind::CallExpression),
        is_literal: is_literal_member(node),
        is_own: b.has_ended_comment_behind(from),
        is_before_member,
    }
}

/// The base of a chain.
pub fn chain_base_of<'n, 's>(node: Node<'n, 's>) -> Option<Node<'n, 's>> {
    let mut at = node;
    while let Some(before) = link_before(at) {
        at = before;
    }
    at.part(0)
}

/// What a chain is up to a link.
pub fn survey_of(
    b: &Builder<'_>,
    node: Node<'_, '_>,
    is_before_member: bool,
    merges_base: bool,
) -> Survey {
    let mut found = match link_before(node) {
        Some(before) => survey_of(b, before, is_member(node), merges_base),
        None => Survey::NOTHING,
    };
    let link = link_of(b, node, is_before_member);
    found.pass(node, link, merges_base);
    found
}

/// Whether a call of a chain has an argument that isn't simple.
fn has_complex_call(node: Node<'_, '_>) -> bool {
    let mut at = node;
    loop {
        if is_kind(at, Kind::CallExpression) && !are_simple(at.parts().skip(1), 0) {
            return true;
        }
        match link_before(at) {
            Some(before) => at = before,
            None => return false,
        }
    }
}

/// How a chain is laid out, by its last link and what it is up to that.
pub fn chain_shape(node: Node<'_, '_>, found: Survey) -> ChainShape {
    if found.calls == 0 {
        return ChainShape::Members;
    }
    if found.has_own {
        return ChainShape::Lines;
    }
    if found.passed.groups <= found.groups_on_line().saturating_add(1) {
        return ChainShape::OneLine;
    }
    if found.calls > 2 && has_complex_call(node) {
        return ChainShape::Lines;
    }
    ChainShape::Choice
}
