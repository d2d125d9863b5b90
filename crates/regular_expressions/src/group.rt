//! The beginnings of groups and lookarounds, behind their `(` (22.2.1).

ghost use Rattle.std.specs.Prelude.{◌≡◌, None, IfSome, IfNone};
ghost use Rattle.source_text.specs.Source.{IsPlace};
ghost use Rattle.tokens.specs.Reading.{behind};
ghost use Rattle.regular_expressions.specs.Terms.{behind_angle, behind_question, opening};
ghost use Rattle.regular_expressions.specs.Scanned.{IsRead, piece_as};

use crate::name::group_name;
use crate::piece::{Piece, PieceAt};
use tokens::char_at;

/// Behind `(?<`.
fn behind_angle<'t>(text: &'t str, at: usize) -> Option<PieceAt<'t>>
    requires { IsPlace text.now at }
    ensures some { IfSome result (λ r. IsRead (behind_angle (behind text.now at)) (piece_as r.piece) text.now at r.end) }
    ensures none { IfNone result (behind_angle (behind text.now at) ≡ None) }
{
    let Some(first) = char_at(text, at) else {
        return None;
    };
    if first.c == '=' || first.c == '!' {
        return Some(PieceAt {
            piece: Piece::Looking,
            end: first.end,
        });
    }
    let Some(name) = group_name(text, at) else {
        return None;
    };
    Some(PieceAt {
        piece: Piece::Naming(name.word),
        end: name.end,
    })
}

/// Behind `(?`.
fn behind_question<'t>(text: &'t str, at: usize) -> Option<PieceAt<'t>>
    requires { IsPlace text.now at }
    ensures some { IfSome result (λ r. IsRead (behind_question (behind text.now at)) (piece_as r.piece) text.now at r.end) }
    ensures none { IfNone result (behind_question (behind text.now at) ≡ None) }
{
    let Some(first) = char_at(text, at) else {
        return None;
    };
    match first.c {
        ':' => Some(PieceAt {
            piece: Piece::Grouping,
            end: first.end,
        }),
        '=' | '!' => Some(PieceAt {
            piece: Piece::Looking,
            end: first.end,
        }),
        '<' => behind_angle(text, first.end),
        _ => None,
    }
}

/// Behind `(`.
pub(crate) fn opening<'t>(text: &'t str, at: usize) -> Option<PieceAt<'t>>
    requires { IsPlace text.now at }
    ensures some { IfSome result (λ r. IsRead (opening (behind text.now at)) (piece_as r.piece) text.now at r.end) }
    ensures none { IfNone result (opening (behind text.now at) ≡ None) }
{
    if let Some(first) = char_at(text, at) {
        if first.c == '?' {
            return behind_question(text, first.end);
        }
    }
    Some(PieceAt {
        piece: Piece::Capturing,
        end: at,
    })
}
