//! Which nodes are grouped in the answer, and so which parentheses go and which come: a walk over the script, from the outside inwards.

ghost use Rattle.std.specs.Prelude.{◌≡◌, ◌<◌, length, true, IfSome};
ghost use Rattle.tree.specs.Node.{node_tree, list_parts};
ghost use Rattle.tree.specs.Tree.{parts_of};
ghost use Rattle.language.specs.Expressions.{has_optional, first_has_optional};
ghost use Rattle.spellings.specs.Wherever.{spelled_by};
ghost use Rattle.unwrapping.specs.Ties.{costs_more};

use crate::changes::{Addition, Changes, Closing};
use cost_table::widest;
use language::{Rank, Start};
use paren_planner::TextCosts;
use spelling_table::{Position, Production, WHOLE, admits, resolve_slot};
use spellings::{SlotCursor, holds_chain, leads_chain, node_production};
use std::alloc::{AllocError, Global};
use tree::{Kind, Node, Pair, Program};

/// What the choice goes by.
#[derive(Clone, Copy)]
struct Basis<'c> {
    costs: &'c TextCosts,
    /// The pairs of the text, in order of their `(`: the node in a pair is the first with a row that starts after that.
    pairs: &'c [Pair],
}

/// What stands round a node.
#[derive(Clone, Copy)]
struct Around {
    /// The node is known to be part of a chain, with a `?.` in it or below it.
    in_chain: bool,
    /// It is the callee of a `new` that has no arguments in the answer.
    is_bare_callee: bool,
}

/// What was chosen of a node.
#[derive(Clone, Copy)]
struct Choice {
    is_grouped: bool,
    addition: Option<Addition>,
    /// It is a `new` that has no arguments in the answer.
    is_bare: bool,
    /// Nothing in it changes.
    is_settled: bool,
}

impl Choice {
    /// That of a node that is no expression.
    const PLAIN: Choice = Choice {
        is_grouped: false,
        addition: None,
        is_bare: false,
        is_settled: false,
    };
}

/// What was chosen so far.
#[derive(Drop)]
struct Chosen {
    changes: Changes,
    /// How many pairs were passed.
    passed: usize,
}

/// Which parentheses of a script go, and which come: each node that costs less with a pair has one, and each that costs as much with it
/// where the text has one round it. Pairs further out are chosen first.
///
/// # Errors
///
/// `AllocError` where memory is refused.
pub fn changes_of(
    alloc: Global,
    program: &Program<'_>,
    pairs: &[Pair],
    costs: &TextCosts,
) -> Result<Changes, AllocError> {
    let mut chosen = Chosen {
        changes: Changes::new(alloc),
        passed: 0,
    };
    let around = Around {
        in_chain: false,
        is_bare_callee: false,
    };
    let basis = Basis { costs, pairs };
    choose_node(program.root(), Position::Script, around, basis, &mut chosen)?;
    Ok(chosen.changes)
}

/// Chooses for a node at a position, and then for its parts.
#[cycle(choosing)]
fn choose_node(
    node: Node,
    position: Position,
    around: Around,
    basis: Basis<'_>,
    chosen: &mut Chosen,
) -> Result<(), AllocError>
    requires { around.in_chain ≡ true → has_optional (node_tree node) ≡ true }
{
    if basis.leaves_alone(node, position, chosen.passed) {
        return Ok(());
    }
    let own = widest(position);
    let Some(production) = node_production(node, own, around.in_chain) else {
        return Ok(());
    };
    let choice = choose(
        node,
        position,
        production,
        around.is_bare_callee,
        basis,
        chosen,
    )?;
    if !choice.is_settled {
        let inside = inside(choice.is_grouped, position);
        choose_parts(node, own, inside, production, choice.is_bare, basis, chosen)?;
    }
    if let Some(addition) = choice.addition {
        chosen.changes.closed.push(Closing {
            at: node.span().end,
            addition,
        })?;
    }
    Ok(())
}

/// Chooses for the parts of a node that is spelled so. Its widest position says which slots they have, and where it stands, inside its
/// pair if it has one, at which positions these are.
#[cycle(choosing)]
#[tactic(auto, using(tree::proofs::PartWalk::part_steps))]
fn choose_parts(
    node: Node,
    own: Position,
    inside: Position,
    production: Production,
    is_bare: bool,
    basis: Basis<'_>,
    chosen: &mut Chosen,
) -> Result<(), AllocError>
    requires { (spelled_by node own production).holds_chain ≡ true → first_has_optional (parts_of (node_tree node)) ≡ true }
{
    let is_chain = holds_chain(own, node.kind(), production);
    let parts = node.parts();
    let mut slots = SlotCursor::new(production);
    for index in 0..parts.len() {
        let Some(part) = parts.get(index) else {
            continue;
        };
        let Some(slot) = slots.take(parts, part, index) else {
            return Ok(());
        };
        let in_chain = leads_chain(is_chain, index);
        let around = Around {
            in_chain,
            is_bare_callee: is_bare,
        };
        choose_node(part, resolve_slot(inside, slot), around, basis, chosen)?;
    }
    Ok(())
}

/// Where a node stands, with a pair round it or without.
fn inside(is_grouped: bool, position: Position) -> Position {
    if is_grouped {
        return WHOLE;
    }
    position
}

/// Chooses for a node alone.
fn choose(
    node: Node,
    position: Position,
    production: Production,
    is_bare_callee: bool,
    basis: Basis<'_>,
    chosen: &mut Chosen,
) -> Result<Choice, AllocError> {
    let Some(row) = node.row() else {
        return Ok(Choice::PLAIN);
    };
    let span = node.span();
    let costs = basis.costs(row as usize, position, production);
    let is_paired = basis.starts_before(span.start, chosen.passed);
    let is_grouped = costs.want_pair(is_paired);
    basis.pass_pairs(span.start, is_grouped, chosen)?;
    let is_bare = basis.is_bare_new(node, chosen.passed);
    let is_called = is_bare && !is_grouped && !is_bare_callee && wants_arguments(position);
    let is_opened = is_grouped && !is_paired;
    if is_opened {
        chosen.changes.opened.push(span.start)?;
    }
    let is_free = !is_grouped && !is_called && matches!(costs.direct, Some(0));
    Ok(Choice {
        is_grouped,
        addition: addition(is_opened, is_called),
        is_bare: is_bare && !is_called,
        is_settled: is_free && !basis.starts_before(span.end, chosen.passed),
    })
}

/// What a node gets in the answer: parentheses if it is opened, or else arguments if it is called; nothing if neither.
fn addition(is_opened: bool, is_called: bool) -> Option<Addition> {
    match (is_opened, is_called) {
        (true, _) => Some(Addition::Parenthesis),
        (_, true) => Some(Addition::Arguments),
        _ => None,
    }
}

/// Whether a `new` may stand at a position only with arguments.
fn wants_arguments(position: Position) -> bool {
    match position {
        Position::Expression { rank, .. } => {
            matches!(
                rank,
                Rank::Call | Rank::Member | Rank::Primary | Rank::Grouped
            )
        }
        _ => false,
    }
}

impl Basis<'_> {
    /// Whether nothing changes in a node without a row, since the text has no pair in it: a statement, or another node that is spelled
    /// alike wherever the node above stands. `passed` pairs stand before it.
    fn leaves_alone(&self, node: Node, position: Position, passed: usize) -> bool {
        match position {
            Position::Expression { .. } | Position::ChainPart { .. } | Position::Pattern { .. } =>
                false,
            _ => !self.starts_before(node.span().end, passed),
        }
    }

    /// Whether the next pair, after so many, starts before a place.
    fn starts_before(&self, place: usize, passed: usize) -> bool {
        match self.pairs.get(passed) {
            Some(pair) => pair.left < place,
            None => false,
        }
    }

    /// What the node of a row costs at a position.
    fn costs(&self, row: usize, position: Position, production: Production) -> Costs {
        let cells = self.costs.cells(row);
        let asks = production.requirements();
        let direct = if admits(position, asks.rank, asks.needs_in, asks.opens) {
            cell_at(cells, position)
        } else {
            None
        };
        Costs {
            direct,
            inside: cells[0],
        }
    }

    /// Goes past the pairs of the node that starts at a place. They go, but for the innermost of a grouped node.
    fn pass_pairs(
        &self,
        start: usize,
        is_grouped: bool,
        chosen: &mut Chosen,
    ) -> Result<(), AllocError> {
        let mut next = chosen.passed;
        while let Some(pair) = self.pair_before(start, next) {
            next += 1;
            if !is_grouped || self.starts_before(start, next) {
                chosen.changes.removed.push(pair)?;
            }
        }
        chosen.passed = next;
        Ok(())
    }

    /// The pair with an index, if it starts before a place.
    fn pair_before(&self, place: usize, index: usize) -> Option<Pair>
        ensures { IfSome result (λ _. index < length self.now.pairs.now) }
    {
        match self.pairs.get(index) {
            Some(pair) if pair.left < place => Some(*pair),
            _ => None,
        }
    }

    /// Whether a node is a `new` without arguments: it ends where its callee ends, with the outermost pair that the text has round it.
    fn is_bare_new(&self, node: Node, passed: usize) -> bool {
        if !matches!(node.kind(), Kind::NewExpression) {
            return false;
        }
        let Some(callee) = node.part(0) else {
            return false;
        };
        let span = callee.span();
        let end = match self.pair_before(span.start, passed) {
            Some(pair) => pair.right.saturating_add(1),
            None => span.end,
        };
        end == node.span().end
    }
}

/// What a node costs at a position: the pairs in it where it stands without a pair, none where it can't, and where it stands in one.
#[derive(Clone, Copy)]
struct Costs {
    direct: Option<u32>,
    inside: Option<u32>,
}

impl Costs {
    /// Whether a node costs more without a pair than with one, or as much and the text has one.
    fn want_pair(self, is_paired: bool) -> bool
        ensures { result ≡ costs_more self.direct self.inside is_paired }
    {
        match (self.direct, self.inside) {
            (None, _) => true,
            (Some(_), None) => false,
            (Some(direct), Some(inside)) => {
                direct > inside && (is_paired || direct - inside > 1)
            }
        }
    }
}

/// The cell of a position: with In, without In, and where only what is at Member may stand, at each start.
fn cell_at(cells: [Option<u32>; 8], position: Position) -> Option<u32> {
    let Position::Expression {
        rank,
        has_in,
        start,
    } = position
    else {
        return cells[0];
    };
    let at_member = matches!(rank, Rank::Member | Rank::Primary | Rank::Grouped);
    match (at_member, has_in, start) {
        (true, _, Start::Any) => cells[5],
        (true, _, Start::NoBrace) => cells[6],
        (true, _, Start::Statement) => cells[7],
        (false, true, Start::Any) => cells[0],
        (false, true, Start::NoBrace) => cells[1],
        (false, true, Start::Statement) => cells[2],
        (false, false, Start::Any) => cells[3],
        (false, false, Start::NoBrace) => cells[4],
        (false, false, Start::Statement) => None,
    }
}
