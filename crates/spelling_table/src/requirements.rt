//! What a production requires of the position that its node stands at, and which positions meet that.

ghost use Rattle.std.specs.Prelude.{◌≡◌};
ghost use Rattle.language.specs.declared.Rank.TheVariants;
ghost use Rattle.spelling_table.specs.Productions.{outline_of};
ghost use Rattle.spelling_table.specs.Outlines.{role_of, opens_at};
ghost use Rattle.spelling_table.specs.Requirements.{requirements_of, rank_alone, asking, fits_outline};

use crate::outline::{FirstToken, Outline};
use crate::position::Position;
use crate::production::Production;
use grammar::accepts_rank;
use language::{Rank, Start};

/// The symbol at which a node is spelled, whether it needs In, and what it opens with.
#[derive(Clone, Copy)]
pub struct Requirements {
    pub rank: Rank,
    pub needs_in: bool,
    pub opens: FirstToken,
}

impl Requirements {
    /// Of a symbol's position no more than that.
    fn rank(rank: Rank) -> Requirements
        ensures { result ≡ rank_alone rank }
    {
        Requirements {
            rank,
            needs_in: false,
            opens: FirstToken::Other,
        }
    }
}

impl Production {
    /// What a node with this production requires of its position: what its outline says.
    pub fn requirements(self) -> Requirements
        ensures { result ≡ requirements_of (outline_of self) }
    {
        match self {
            Production::Member { .. }
            | Production::PrivateMember
            | Production::Tagged
            | Production::New
            | Production::Meta => Requirements::rank(Rank::Member),
            Production::PrivateIn => {
                Requirements {
                    rank: Rank::Relational,
                    needs_in: true,
                    opens: FirstToken::Other,
                }
            }
            Production::Call { .. } | Production::Import => Requirements::rank(Rank::Call),
            Production::Infix {
                own,
                right: _,
                needs_in,
            } => {
                Requirements {
                    rank: own,
                    needs_in,
                    opens: FirstToken::Other,
                }
            }
            Production::Assignment { .. } | Production::Arrow { .. } | Production::Yield { .. } =>
                Requirements::rank(Rank::Assignment),
            Production::Object | Production::ObjectPattern { .. } => {
                Requirements {
                    rank: Rank::Primary,
                    needs_in: false,
                    opens: FirstToken::Brace,
                }
            }
            Production::Function { .. } | Production::Class { .. } => {
                Requirements {
                    rank: Rank::Primary,
                    needs_in: false,
                    opens: FirstToken::FunctionOrClass,
                }
            }
            Production::Unary => Requirements::rank(Rank::Unary),
            Production::Update { .. } => Requirements::rank(Rank::Update),
            Production::Conditional => Requirements::rank(Rank::Conditional),
            Production::Sequence => Requirements::rank(Rank::Expression),
            Production::Chain => Requirements::rank(Rank::LeftHandSide),
            Production::Exponentiation => Requirements::rank(Rank::Exponentiation),
            _ => Requirements::rank(Rank::Primary),
        }
    }
}

/// Whether a spelling may stand at a position: by its symbol, In and start.
pub fn fits(position: Position, outline: Outline) -> bool
    ensures { result ≡ fits_outline (role_of position) outline }
{
    admits(position, outline.rank, outline.needs_in, outline.opens)
}

/// Whether what is spelled at a symbol, needs In or not and opens so may stand at a position.
pub fn admits(position: Position, symbol: Rank, needs_in: bool, opens: FirstToken) -> bool
    ensures { result ≡ fits_outline (role_of position) (asking symbol needs_in opens) }
{
    match position {
        Position::Expression {
            rank,
            has_in,
            start,
        } => { accepts_rank(rank, symbol) && (!needs_in || has_in) && may_open(start, opens) }
        Position::Pattern { start, .. } => may_open(start, opens),
        _ => true,
    }
}

/// Whether a node with this first token may begin where a start is restricted.
fn may_open(start: Start, opens: FirstToken) -> bool
    ensures { result ≡ opens_at start opens }
{
    match (start, opens) {
        (Start::Any, _) | (_, FirstToken::Other) => true,
        (Start::NoBrace, FirstToken::FunctionOrClass) => true,
        _ => false,
    }
}
