//! How groups and lookarounds stand in one another (22.2.1).

ghost use Rattle.std.specs.Prelude.{◌≡◌, ◌<◌, ◌≤◌, ◌+◌, ◌^◌, ◌∷◌, false, reverse, sum, IfOk, IfSome};
ghost use Rattle.regular_expressions.specs.Patterns.{closed, nest};
ghost use Rattle.regular_expressions.specs.Scanned.{nested_as, nested_if, piece_as};

use crate::piece::Piece;
use std::alloc::{AllocError, Global};

/// What the pieces so far make, but for the lookarounds that are open; the groups that are open in each of those are in a list of their
/// own, the innermost last.
#[derive(Clone, Copy)]
pub(crate) struct Nested {
    /// An Atom stands next before, without a Quantifier.
    pub repeatable: bool,
    /// How many groups are open in the innermost lookaround.
    pub groups: usize,
}

impl Nested {
    /// The same, with an Atom next before or without one.
    fn with(self, repeatable: bool) -> Nested
        ensures repeatable { result.repeatable ≡ repeatable }
        ensures groups { result.groups ≡ self.groups }
    {
        Nested {
            repeatable,
            groups: self.groups,
        }
    }
}

/// Behind a `)`.
fn closed(nested: Nested, around: &mut Vec<usize>) -> Option<Nested>
    ensures next { nested_if result (reverse around.new.items) ≡ closed nested.groups (reverse around.old.items) }
    ensures few { IfSome result (λ z. z.groups + sum around.new.items ≤ nested.groups + sum around.old.items) }
{
    if nested.groups > 0 {
        return Some(Nested {
            repeatable: true,
            groups: nested.groups - 1,
        });
    }
    match around.pop() {
        Some(groups) => Some(Nested {
            repeatable: false,
            groups,
        }),
        None => None,
    }
}

/// Behind the beginning of a lookaround.
fn looking(nested: Nested, around: &mut Vec<usize>) -> Result<Nested, AllocError>
    ensures new { IfOk result (λ z. nested_as z (reverse around.new.items) ≡ nested_as (record { repeatable = false; groups = 0 }) (nested.groups ∷ reverse around.old.items)) }
    ensures few { IfOk result (λ z. z.groups + sum around.new.items ≤ nested.groups + sum around.old.items) }
{
    around.push(nested.groups)?;
    Ok(Nested {
        repeatable: false,
        groups: 0,
    })
}

/// Behind one more piece; none where it can't stand.
pub(crate) fn nest(
    nested: Nested,
    around: &mut Vec<usize>,
    piece: Piece,
) -> Result<Option<Nested>, AllocError>
    requires few { nested.groups + sum around.old.items + 1 < 2 ^ 63 }
    ensures next { IfOk result (λ z. nested_if z (reverse around.new.items) ≡ nest (nested_as nested (reverse around.old.items)) (piece_as piece.entry)) }
    ensures few { IfOk result (λ z. IfSome z (λ y. y.groups + sum around.new.items ≤ nested.groups + sum around.old.items + 1)) }
{
    let next = match piece {
        Piece::Bar | Piece::Assertion => nested.with(false),
        Piece::Closing => return Ok(closed(nested, around)),
        Piece::Looking => looking(nested, around)?,
        Piece::Grouping | Piece::Capturing | Piece::Naming(_) => Nested {
            repeatable: false,
            groups: nested.groups + 1,
        },
        Piece::Repeating => {
            if !nested.repeatable {
                return Ok(None);
            }
            nested.with(false)
        }
        Piece::Atom | Piece::Reference(_) | Piece::NameReference(_) => nested.with(true),
    };
    Ok(Some(next))
}
