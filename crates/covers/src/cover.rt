//! Covers, and what they are at last.

ghost use Rattle.std.specs.Prelude.{◌≡◌, ◌&&◌, IfOk};
ghost use Rattle.tree.specs.Tree.{Parts, push, join};
ghost use Rattle.tree.specs.Patterns.{pattern_tree, pattern_parts};
ghost use Rattle.covers.specs.Shapes.{Becomes, is_bound, is_pattern, is_target, shape_of};

use crate::shape::CoverShape;
use productions::{MeasuredNode, MeasuredParts};
use source_text::Fault;
use tree::TreeBuilder;

/// What was read where an expression, a pattern, a target or parameters may stand.
#[derive(Drop)]
pub struct Cover {
    /// It as an expression. A name with a default in an object, which is in no expression, is a property whose form is
    /// Shorthand and whose value is an assignment to the name.
    pub node: MeasuredNode,
    /// What else it may be.
    pub shape: CoverShape,
}

impl Cover {
    /// An expression that is no array, no object and no assignment.
    #[inline(always)]
    pub fn plain(node: MeasuredNode) -> Cover
        ensures same { result.node ≡ node }
        ensures shape { result.shape ≡ shape_of node }
    {
        let shape = CoverShape::of(&node);
        Cover { node, shape }
    }

    /// The expression; `at` is the place that a refusal names.
    ///
    /// # Errors
    /// `Syntax` where a name in it has a default.
    pub fn to_expression(self, at: usize) -> Result<MeasuredNode, Fault>
        ensures { Becomes self.node self.shape.is_expression at result }
    {
        match self.shape.is_expression {
            true => Ok(self.node),
            false => Err(Fault::Syntax(at)),
        }
    }

    /// The simple target: a name or a member, in parentheses or not; `at` is the place that a refusal names.
    ///
    /// # Errors
    /// `Syntax` where it is anything else.
    pub fn to_target(self, tree: &mut TreeBuilder<'_>, at: usize) -> Result<MeasuredNode, Fault>
        ensures made { Becomes (pattern_tree self.node) (is_target self.shape.assigned) at result }
        ensures waits { (base : Parts) → tree.old ≡ push base self.node → IfOk result (λ made. tree.new ≡ push base made) }
    {
        match self.shape.assigned.is_target() {
            true => Ok(self.node.into_pattern(tree)),
            false => Err(Fault::Syntax(at)),
        }
    }

    /// The simple target or the pattern that is assigned to; `at` is the place that a refusal names.
    ///
    /// # Errors
    /// `Syntax` where it is neither.
    pub fn to_pattern(self, tree: &mut TreeBuilder<'_>, at: usize) -> Result<MeasuredNode, Fault>
        ensures made { Becomes (pattern_tree self.node) (is_pattern self.shape.assigned) at result }
        ensures waits { (base : Parts) → tree.old ≡ push base self.node → IfOk result (λ made. tree.new ≡ push base made) }
    {
        match self.shape.assigned.is_pattern() {
            true => Ok(self.node.into_pattern(tree)),
            false => Err(Fault::Syntax(at)),
        }
    }

    /// The name or the pattern that is bound; `at` is the place that a refusal names.
    ///
    /// # Errors
    /// `Syntax` where it is neither.
    pub fn to_binding(self, tree: &mut TreeBuilder<'_>, at: usize) -> Result<MeasuredNode, Fault>
        ensures made { Becomes (pattern_tree self.node) (self.shape.binds && is_pattern self.shape.assigned) at result }
        ensures waits { (base : Parts) → tree.old ≡ push base self.node → IfOk result (λ made. tree.new ≡ push base made) }
    {
        match self.shape.binds {
            true => self.to_pattern(tree, at),
            false => Err(Fault::Syntax(at)),
        }
    }
}

/// The parameters that covers are, the last perhaps behind `...`, where `shape` is that of all of them as elements; `at` is the
/// place that a refusal names.
///
/// # Errors
/// `Syntax` where one is no name and no pattern that is bound, with a default or without.
pub fn to_parameters(
    tree: &mut TreeBuilder<'_>,
    covers: MeasuredParts,
    shape: CoverShape,
    at: usize,
) -> Result<MeasuredParts, Fault>
    ensures made { Becomes (pattern_parts 0 covers) (is_bound shape) at result }
    ensures waits { (base : Parts) → tree.old ≡ join base covers → IfOk result (λ parameters. tree.new ≡ join base parameters) }
{
    if !shape.is_bound() {
        return Err(Fault::Syntax(at));
    }
    Ok(covers.into_patterns(tree))
}
