//! The patterns of literals (12.9.5): what stands between the first `/` and the last, by the flags behind that.

ghost use Rattle.std.specs.Prelude.{◌≡◌, [], IfNone, IfOk, IfSome};
ghost use Rattle.std.specs.List.{list_any};
ghost use Rattle.std.specs.Str.{chars};
ghost use Rattle.source_text.specs.Source.{IsPlace};
ghost use Rattle.tokens.specs.Alphabet.{one_of};
ghost use Rattle.tokens.specs.Reading.{behind};
ghost use Rattle.tokens.specs.Scanned.{Passed};
ghost use Rattle.regular_expressions.specs.Patterns.{before_slash, behind_slash, first_fault, has_u, pattern_of};

use crate::pattern::pattern_fault;
use std::alloc::{AllocError, Global};
use tokens::char_at;

/// The last `/` of a literal.
#[derive(Clone, Copy)]
struct LastSlash {
    at: usize,
    /// Whether a `u` stands behind it.
    has_u: bool,
}

/// The last `/` from this place on; none if there is none.
fn last_slash(text: &str, from: usize) -> Option<LastSlash>
    requires { IsPlace text.now from }
    ensures pattern { IfSome result (λ s. Passed text.now from s.at (before_slash (behind text.now from))) }
    ensures flags { IfSome result (λ s. s.has_u ≡ list_any (one_of "u") (behind_slash (behind text.now from))) }
    ensures none { IfNone result (before_slash (behind text.now from) ≡ []) }
{
    let mut slash = None;
    let mut has_u = false;
    let mut end = from;
    while let Some(step) = char_at(text, end) {
        match step.c {
            '/' => {
                slash = Some(end);
                has_u = false;
            }
            'u' => has_u = true,
            _ => {}
        }
        end = step.end;
    }
    match slash {
        Some(at) => Some(LastSlash { at, has_u }),
        None => None,
    }
}

/// The pattern of a literal.
#[derive(Clone, Copy)]
pub struct Pattern<'t> {
    pub text: &'t str,
    /// Whether the literal's flags have `u`.
    pub is_unicode: bool,
}

/// The pattern of a literal; none of a text that is no literal.
pub fn pattern_of<'t>(literal: &'t str) -> Option<Pattern<'t>>
    ensures text { IfSome result (λ p. chars p.text.now ≡ pattern_of (chars literal.now)) }
    ensures unicode { IfSome result (λ p. p.is_unicode ≡ has_u (chars literal.now)) }
    ensures none { IfNone result (pattern_of (chars literal.now) ≡ []) }
{
    let Some(first) = char_at(literal, 0) else {
        return None;
    };
    let Some(slash) = last_slash(literal, first.end) else {
        return None;
    };
    Some(Pattern {
        text: &literal[first.end..slash.at],
        is_unicode: slash.has_u,
    })
}

/// The place of the first fault of a literal's pattern, in bytes from the literal's start; none if it has none.
///
/// # Errors
/// `AllocError` where memory is refused.
pub fn first_fault(alloc: Global, literal: &str) -> Result<Option<usize>, AllocError>
    ensures { IfOk result (λ f. f ≡ first_fault (chars literal.now)) }
{
    let Some(first) = char_at(literal, 0) else {
        return Ok(None);
    };
    let Some(slash) = last_slash(literal, first.end) else {
        return Ok(None);
    };
    match pattern_fault(alloc, &literal[first.end..slash.at], slash.has_u)? {
        Some(place) => Ok(Some(first.end + place)),
        None => Ok(None),
    }
}
