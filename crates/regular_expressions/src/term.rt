//! The piece that stands at a place (22.2.1): Assertions, Quantifiers, Atoms, and what begins or ends a group.

ghost use Rattle.std.specs.Prelude.{◌≡◌, ◌∷◌, None, IfSome, IfNone};
ghost use Rattle.source_text.specs.Source.{IsPlace};
ghost use Rattle.tokens.specs.Reading.{behind};
ghost use Rattle.regular_expressions.specs.Terms.{atom_escape, piece};
ghost use Rattle.regular_expressions.specs.Scanned.{IsRead, piece_as};

use crate::class::class_end;
use crate::count::{counted, digits_end, lazy_end};
use crate::escape::escape_by;
use crate::group::opening;
use crate::name::group_name;
use crate::piece::{Piece, PieceAt};
use tokens::{CharAt, char_at};

/// A piece that ends at a place, if there is one.
fn ending<'t>(piece: Piece<'t>, end: Option<usize>) -> Option<PieceAt<'t>>
    ensures some { IfSome end (λ e. result ≡ Some (record { piece = piece.entry; end = e })) }
    ensures none { IfNone end (result ≡ None) }
{
    match end {
        Some(end) => Some(PieceAt { piece, end }),
        None => None,
    }
}

/// `\k` behind its `k`.
fn name_reference<'t>(text: &'t str, at: usize) -> Option<PieceAt<'t>>
    requires { IsPlace text.now at }
    ensures some { (u : _) → IfSome result (λ r. IsRead (atom_escape u (0x6B ∷ behind text.now at)) (piece_as r.piece) text.now at r.end) }
    ensures none { (u : _) → IfNone result (atom_escape u (0x6B ∷ behind text.now at) ≡ None) }
{
    let Some(open) = char_at(text, at) else {
        return None;
    };
    if open.c != '<' {
        return None;
    }
    let Some(name) = group_name(text, open.end) else {
        return None;
    };
    Some(PieceAt {
        piece: Piece::NameReference(name.word),
        end: name.end,
    })
}

/// AtomEscape, or `\b` or `\B`, behind the backslash.
fn atom_escape<'t>(text: &'t str, is_unicode: bool, at: usize) -> Option<PieceAt<'t>>
    requires { IsPlace text.now at }
    ensures some { IfSome result (λ r. IsRead (atom_escape is_unicode (behind text.now at)) (piece_as r.piece) text.now at r.end) }
    ensures none { IfNone result (atom_escape is_unicode (behind text.now at) ≡ None) }
{
    let Some(first) = char_at(text, at) else {
        return None;
    };
    match first.c {
        'b' | 'B' => Some(PieceAt {
            piece: Piece::Assertion,
            end: first.end,
        }),
        '1'..='9' => {
            let end = digits_end(text, at);
            Some(PieceAt {
                piece: Piece::Reference(&text[at..end]),
                end,
            })
        }
        'k' => name_reference(text, first.end),
        _ => match escape_by(text, is_unicode, first.c, first.end) {
            Some(valued) => Some(PieceAt {
                piece: Piece::Atom,
                end: valued.end,
            }),
            None => None,
        },
    }
}

/// The piece that begins with this character; none where none does.
pub(crate) fn piece_at<'t>(text: &'t str, is_unicode: bool, first: CharAt) -> Option<PieceAt<'t>>
    requires { IsPlace text.now first.end }
    ensures some { IfSome result (λ r. IsRead (piece is_unicode first.c (behind text.now first.end)) (piece_as r.piece) text.now first.end r.end) }
    ensures none { IfNone result (piece is_unicode first.c (behind text.now first.end) ≡ None) }
{
    let end = first.end;
    match first.c {
        '|' => ending(Piece::Bar, Some(end)),
        ')' => ending(Piece::Closing, Some(end)),
        '^' | '$' => ending(Piece::Assertion, Some(end)),
        '(' => opening(text, end),
        '*' | '+' | '?' => ending(Piece::Repeating, Some(lazy_end(text, end))),
        '{' => ending(Piece::Repeating, counted(text, end)),
        '[' => ending(Piece::Atom, class_end(text, is_unicode, end)),
        '\\' => atom_escape(text, is_unicode, end),
        ']' | '}' => None,
        _ => ending(Piece::Atom, Some(end)),
    }
}
