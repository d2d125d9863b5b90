//! Places and first characters of tokens.
#![tactic(auto, using(crate::proofs::Refusals::refusals))]

ghost use Rattle.std.specs.Prelude.{◌≡◌, nat_eq, slice_index_or};
ghost use Rattle.tokens.specs.Scanned.{token_of};
ghost use Rattle.language.specs.Token.{as_read};

use tokens::Token;
use tree::Span;

/// The place of a token.
pub fn span_of(token: &Token<'_>) -> Span
    ensures { result ≡ record { start = token.now.start; end = token.now.end } }
{
    Span {
        start: token.start,
        end: token.end,
    }
}

/// Whether the token begins with a grave accent: then it is the first part of a template, where it is one of a template.
pub fn is_template_head(token: &Token<'_>) -> bool
    ensures { result ≡ nat_eq (slice_index_or (as_read (token_of token.now)).text 0 0) 96 }
{
    match token.text.as_bytes().first() {
        Some(first) => *first == b'`',
        None => false,
    }
}
