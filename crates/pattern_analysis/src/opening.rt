//! What a `(` of a pattern begins, by what follows it.

ghost use Rattle.std.specs.Prelude.{◌≡◌};
ghost use Rattle.source_text.specs.Source.{IsPlace};
ghost use Rattle.tokens.specs.Reading.{behind};
ghost use Rattle.pattern_analysis.specs.Marks.{angle_of, opening_of, question_of};

use tokens::char_at;

/// What a `(` begins.
#[derive(Clone, Copy)]
pub(crate) enum Opening {
    /// A group that is numbered.
    Capturing,
    /// `(?:`, and what no pattern has.
    Grouping,
    /// A lookahead, and whether it is negative.
    Lookahead(bool),
    /// A lookbehind, and whether it is negative.
    Lookbehind(bool),
}

/// Behind `(?<`.
fn behind_angle(text: &str, at: usize) -> Opening
    requires { IsPlace text.now at }
    ensures { result ≡ angle_of (behind text.now at) }
{
    let Some(first) = char_at(text, at) else {
        return Opening::Capturing;
    };
    if first.c != '=' && first.c != '!' {
        return Opening::Capturing;
    }
    Opening::Lookbehind(first.c == '!')
}

/// Behind `(?`.
fn behind_question(text: &str, at: usize) -> Opening
    requires { IsPlace text.now at }
    ensures { result ≡ question_of (behind text.now at) }
{
    let Some(first) = char_at(text, at) else {
        return Opening::Grouping;
    };
    match first.c {
        '=' | '!' => Opening::Lookahead(first.c == '!'),
        '<' => behind_angle(text, first.end),
        _ => Opening::Grouping,
    }
}

/// Behind `(`.
pub(crate) fn opening_at(text: &str, at: usize) -> Opening
    requires { IsPlace text.now at }
    ensures { result ≡ opening_of (behind text.now at) }
{
    let Some(first) = char_at(text, at) else {
        return Opening::Capturing;
    };
    if first.c != '?' {
        return Opening::Capturing;
    }
    behind_question(text, first.end)
}
