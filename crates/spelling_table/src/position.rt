//! Positions, the slots that parts have before their node's own position is known, and what a slot is at a position.

ghost use Rattle.std.specs.Prelude.{◌≡◌};
ghost use Rattle.language.specs.Pieces.{settle};
ghost use Rattle.language.specs.Grammar.{own_rank, own_in, own_start};
ghost use Rattle.spelling_table.specs.Outlines.{role_of, slot_of};
ghost use Rattle.spelling_table.specs.Requirements.{callee_at};

use grammar::accepts_rank;
use language::{Rank, Start};
use tree::Form;

/// Where a node stands.
#[derive(Clone, Copy)]
pub enum Position {
    /// An expression: symbol, In, start. It may be grouped, and has a row.
    Expression {
        rank: Rank,
        has_in: bool,
        start: Start,
    },
    /// A part of a chain above its base.
    ChainPart {
        start: Start,
    },
    /// A name that binds or labels, or a shorthand value.
    Name,
    /// An identifier's characters, reserved or not.
    IdentifierName,
    /// A property's key without brackets.
    PropertyName,
    /// A shorthand property's key, which has no token of its own.
    ShorthandKey,
    /// `super`.
    Super,
    /// A directive's string.
    DirectiveString,
    /// The template behind a tag.
    TaggedQuasi,
    /// A part of a template.
    TemplateElement {
        is_first: bool,
        is_last: bool,
    },
    Spread,
    Property,
    /// A pattern, which binds names or assigns.
    Pattern {
        binds: bool,
        start: Start,
    },
    PatternProperty {
        binds: bool,
    },
    /// A target, name or pattern with a default.
    Element {
        binds: bool,
    },
    Rest {
        binds: bool,
        of_object: bool,
    },
    /// The function of a method, from its `(`.
    Method(Form),
    Body,
    /// Statements; the flag allows `return`.
    Statement {
        returns: bool,
    },
    StatementListItem {
        returns: bool,
    },
    PrologueItem {
        returns: bool,
    },
    Block {
        returns: bool,
    },
    /// A declaration in the head of a `for`, with initialisers or with none.
    ForDeclaration {
        initialised: bool,
    },
    Declarator {
        has_in: bool,
        initialised: bool,
    },
    SwitchCase {
        returns: bool,
    },
    CatchClause {
        returns: bool,
    },
    ClassBody,
    Member,
    /// A name with a `#`.
    PrivateName,
    /// An import or export among a module's items.
    ModuleItem,
    /// A name of an import or export, with its alias.
    Specifier,
    /// What `export default` declares.
    DefaultItem,
    Script,
}

/// AssignmentExpression with In.
pub const ASSIGNMENT: Position = Position::Expression {
    rank: Rank::Assignment,
    has_in: true,
    start: Start::Any,
};

/// Expression with In.
pub const WHOLE: Position = Position::Expression {
    rank: Rank::Expression,
    has_in: true,
    start: Start::Any,
};

/// Where a part stands, before its node's own position is known.
#[derive(Clone, Copy)]
pub enum Slot {
    Fixed(Position),
    /// At this symbol with the node's own In and start.
    Left(Rank),
    /// At this symbol with In and the node's own start.
    Lead(Rank),
    /// At this symbol with the node's own In and this start.
    Tail(Rank, Start),
    /// The object of a member or the tag of a template.
    Callee,
    LeadSpine,
    LeadPattern,
}

/// The position that a slot is at a node's own position.
pub fn resolve_slot(own: Position, slot: Slot) -> Position
    ensures { role_of result ≡ settle (own_rank (role_of own)) (own_in (role_of own)) (own_start (role_of own)) (slot_of slot) }
{
    let (own_rank, own_in, own_start) = context(own);
    let (rank, has_in, start) = match slot {
        Slot::Fixed(position) => return position,
        Slot::LeadSpine => return Position::ChainPart { start: own_start },
        Slot::LeadPattern => {
            return Position::Pattern {
                binds: false,
                start: own_start,
            };
        }
        Slot::Left(rank) => (rank, own_in, own_start),
        Slot::Lead(rank) => (rank, true, own_start),
        Slot::Tail(rank, start) => (rank, own_in, start),
        Slot::Callee => (callee_rank_at(own_rank), true, own_start),
    };
    Position::Expression {
        rank,
        has_in,
        start,
    }
}

/// The symbol, In and start that a position hands on.
fn context(own: Position) -> (Rank, bool, Start)
    ensures rank { result.0 ≡ own_rank (role_of own) }
    ensures has_in { result.1 ≡ own_in (role_of own) }
    ensures start { result.2 ≡ own_start (role_of own) }
{
    match own {
        Position::Expression {
            rank,
            has_in,
            start,
        } => (rank, has_in, start),
        Position::ChainPart { start } | Position::Pattern { start, .. } => {
            (Rank::Expression, true, start)
        }
        _ => (Rank::Expression, true, Start::Any),
    }
}

/// The symbol of an object's position.
fn callee_rank_at(own: Rank) -> Rank
    ensures { result ≡ callee_at own }
{
    if accepts_rank(own, Rank::Call) {
        return Rank::Call;
    }
    Rank::Member
}
