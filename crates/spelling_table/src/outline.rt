//! How a node is spelled, as far as the positions of its parts go.

ghost use Rattle.std.specs.Prelude.{◌≡◌};
ghost use Rattle.language.specs.Pieces.{fixed};
ghost use Rattle.spelling_table.specs.Outlines.{leaf as plain_leaf, fronted, lined};

use crate::position::Slot;
use language::Rank;

/// What the first token is, as far as a start asks.
#[derive(Clone, Copy)]
pub enum FirstToken {
    Brace,
    /// With `function` or `class`.
    FunctionOrClass,
    Other,
}

/// The first positions.
#[derive(Clone, Copy)]
pub enum FixedSlots {
    Zero,
    One(Slot),
    Two(Slot, Slot),
    Three(Slot, Slot, Slot),
    Four(Slot, Slot, Slot, Slot),
}

/// How the positions go on behind the first ones.
#[derive(Clone, Copy)]
pub enum ListSlots {
    /// Not at all.
    Nothing,
    /// Each part at this position.
    Each(Slot),
    /// Each part at this slot, of which there is one at least.
    Some(Slot),
    /// Arguments; the elements of an array, where holes may stand.
    Arguments { holes: bool },
    ObjectParts,
    PatternElements { binds: bool },
    PatternProperties { binds: bool },
    /// Parameters, then the last part at this position.
    Parameters(Slot),
    /// A part of a template next.
    Chunks { is_first: bool },
    /// A substitution next.
    Substitution,
    /// Items; whether all before them are directives.
    Prologue { returns: bool, is_open: bool },
    /// Items of a module; whether all before them are directives.
    ModuleItems { is_open: bool },
    /// Specifiers of an import or export, then the source; a gap may stand in its place.
    Specifiers,
}

/// The symbol at which a node is spelled, whether it needs In, what it opens with, and the positions of its parts: the
/// first ones, and those of a tail over the parts from a place on.
#[derive(Clone, Copy)]
pub struct Outline {
    pub rank: Rank,
    pub needs_in: bool,
    pub opens: FirstToken,
    pub front: FixedSlots,
    pub tail: ListSlots,
    pub from: usize,
}

impl Outline {
    /// A node without parts at positions.
    pub fn leaf(rank: Rank) -> Outline
        ensures { result ≡ plain_leaf rank }
    {
        Outline::of_front(rank, FixedSlots::Zero)
    }

    /// A node with so many parts.
    pub fn of_front(rank: Rank, front: FixedSlots) -> Outline
        ensures { result ≡ fronted rank front }
    {
        Outline::of_list(rank, front, ListSlots::Nothing, 0)
    }

    /// A node with a list of parts from a place on.
    pub fn of_list(rank: Rank, front: FixedSlots, tail: ListSlots, from: usize) -> Outline
        ensures { result ≡ lined rank front tail from }
    {
        Outline {
            rank,
            needs_in: false,
            opens: FirstToken::Other,
            front,
            tail,
            from,
        }
    }

    /// This outline, opening so.
    pub fn opening(self, opens: FirstToken) -> Outline
        ensures { result ≡ record self { opens = opens } }
    {
        Outline { opens, ..self }
    }
}
