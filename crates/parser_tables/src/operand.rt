//! What was read where an expression may stand.

ghost use Rattle.std.specs.Prelude.{◌≡◌, IfOk, true, false};
ghost use Rattle.std.specs.Bool.{OnTrue, OnFalse};
ghost use Rattle.tree.specs.Tree.{Parts, push, kind_of};
ghost use Rattle.covers.specs.Shapes.{Becomes, is_target};
ghost use Rattle.tree.specs.Patterns.{pattern_tree};
ghost use Rattle.parser_tables.specs.Operands.{plain_part, primary_part, is_group, is_lone_string};

use covers::{Cover, CoverShape};
use language::{Edge, Rank};
use productions::MeasuredNode;
use source_text::Fault;
use tree::{Kind, TreeBuilder};

/// What was read where an expression may stand.
#[derive(Drop)]
pub struct Operand {
    pub cover: Cover,
    /// Where its first token begins, parentheses round it included.
    pub start: usize,
    /// The symbol at which it stands; `Grouped` in parentheses.
    pub rank: Rank,
    /// The right edge as it stands: in parentheses `Other`.
    pub edge: Edge,
}

impl Operand {
    /// An expression that is no array, no object and no assignment.
    #[inline(always)]
    pub fn plain(node: MeasuredNode, rank: Rank, edge: Edge) -> Operand
        ensures { result ≡ plain_part node rank edge }
    {
        let start = node.start();
        let cover = Cover::plain(node);
        Operand {
            cover,
            start,
            rank,
            edge,
        }
    }

    /// What stands at Primary, with its shape.
    pub fn primary(node: MeasuredNode, shape: CoverShape) -> Operand
        ensures { result ≡ primary_part node shape }
    {
        let start = node.start();
        Operand {
            cover: Cover { node, shape },
            start,
            rank: Rank::Primary,
            edge: Edge::Other,
        }
    }

    /// The expression; `at` is the place that a refusal names.
    ///
    /// # Errors
    /// `Syntax` where it isn't one.
    pub fn into_expression(self, at: usize) -> Result<MeasuredNode, Fault>
        ensures { Becomes self.cover.node self.cover.shape.is_expression at result }
    {
        self.cover.to_expression(at)
    }

    /// The target of an assignment with an operator, or of `++` or `--` (12.4, 12.15); `at` is the place that a refusal names.
    ///
    /// # Errors
    /// `Syntax` where it is none.
    pub fn target(self, tree: &mut TreeBuilder<'_>, at: usize) -> Result<MeasuredNode, Fault>
        ensures made { Becomes (pattern_tree self.cover.node) (is_target self.cover.shape.assigned) at result }
        ensures waits { (base : Parts) → tree.old ≡ push base self.cover.node → IfOk result (λ made. tree.new ≡ push base made) }
    {
        self.cover.to_target(tree, at)
    }

    /// Whether it is a node of this kind that stands in no parentheses.
    pub fn is_ungrouped(&self, kind: Kind) -> bool
        ensures bare { OnTrue result ((kind_of self.now.cover.node ≡ kind) × (is_group self.now.rank ≡ false)) }
        ensures other { OnFalse result (kind_of self.now.cover.node ≡ kind → is_group self.now.rank ≡ true) }
    {
        if is_group(self.rank) {
            return false;
        }
        if self.cover.node.kind() == kind {
            return true;
        }
        false
    }

    /// Whether it is one string token, without parentheses.
    pub fn is_lone_string(&self) -> bool
        ensures { result ≡ is_lone_string self.now }
    {
        self.cover.node.is_string() && !is_group(self.rank)
    }
}

/// Whether the symbol is that of an expression in parentheses.
fn is_group(rank: Rank) -> bool
    ensures { result ≡ is_group rank }
{
    matches!(rank, Rank::Grouped)
}
