//! Whole patterns (22.2.1).

ghost use Rattle.std.specs.Prelude.{◌≡◌, ◌≤◌, ◌||◌, [], None, Some, false, length, reverse, IfOk, IfSome};
ghost use Rattle.std.specs.Str.{chars};
ghost use Rattle.tokens.specs.Tokens.{size};
ghost use Rattle.regular_expressions.specs.Patterns.{early_fault, is_closed, misplaced, outermost, pattern_fault, pieces_of};
ghost use Rattle.regular_expressions.specs.Scanned.{nested_as, piece_as, refers};

use crate::early::early_fault;
use crate::nested::{Nested, nest};
use crate::piece::Piece;
use crate::term::piece_at;
use std::alloc::{AllocError, Global};
use tokens::char_at;

/// What reading a pattern to its end, or to the first place where it isn't derived, found.
#[derive(Clone, Copy)]
struct ReadThrough {
    /// That place.
    fault: Option<usize>,
    /// Whether a reference or a name of a group was seen.
    has_references: bool,
}

/// Whether a piece refers to a group, or names one.
fn refers(piece: Piece) -> bool
    ensures { result ≡ refers (piece_as piece.entry) }
{
    match piece {
        Piece::Reference(_) | Piece::NameReference(_) | Piece::Naming(_) => true,
        _ => false,
    }
}

/// Whether a reference or a name of a group was seen, up to this piece.
fn has_seen(before: bool, piece: Piece) -> bool
    ensures { result ≡ (before || refers (piece_as piece.entry)) }
{
    before || refers(piece)
}

/// Reads a pattern.
fn read(text: &str, is_unicode: bool, around: &mut Vec<usize>) -> Result<ReadThrough, AllocError>
    requires { around.old.items ≡ [] }
    ensures fault { IfOk result (λ r. r.fault ≡ misplaced (size (chars text.now)) 0 (Some outermost) (pieces_of is_unicode (chars text.now))) }
    ensures within { IfOk result (λ r. IfSome r.fault (λ place. place ≤ length text.now)) }
    ensures plain { IfOk result (λ r. r.has_references ≡ false → r.fault ≡ None → early_fault (pieces_of is_unicode (chars text.now)) ≡ None) }
{
    let mut at = 0;
    let mut nested = Nested {
        repeatable: false,
        groups: 0,
    };
    let mut has_references = false;
    while let Some(first) = char_at(text, at) {
        let fault = ReadThrough {
            fault: Some(at),
            has_references,
        };
        let Some(read) = piece_at(text, is_unicode, first) else {
            return Ok(fault);
        };
        let Some(behind) = nest(nested, around, read.piece)? else {
            return Ok(fault);
        };
        has_references = has_seen(has_references, read.piece);
        nested = behind;
        at = read.end;
    }
    if !is_closed(nested, around) {
        return Ok(ReadThrough {
            fault: Some(at),
            has_references,
        });
    }
    Ok(ReadThrough {
        fault: None,
        has_references,
    })
}

/// Whether no group is open.
fn is_closed(nested: Nested, around: &Vec<usize>) -> bool
    ensures { result ≡ is_closed (nested_as nested (reverse around.now.items)) }
{
    nested.groups == 0 && around.is_empty()
}

/// The place of the first fault of a pattern, in bytes.
pub(crate) fn pattern_fault(
    alloc: Global,
    text: &str,
    is_unicode: bool,
) -> Result<Option<usize>, AllocError>
    ensures fault { IfOk result (λ f. f ≡ pattern_fault is_unicode (chars text.now)) }
    ensures within { IfOk result (λ f. IfSome f (λ place. place ≤ length text.now)) }
{
    let mut around = Vec::new(alloc);
    let read = read(text, is_unicode, &mut around)?;
    if read.fault.is_some() || !read.has_references {
        return Ok(read.fault);
    }
    early_fault(alloc, text, is_unicode)
}
