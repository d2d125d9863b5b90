//! What is known of what stands between two tokens, as its characters are read.

ghost use Rattle.std.specs.Prelude.{◌≡◌, fold};
ghost use Rattle.std.specs.Str.{chars};
ghost use Rattle.text_rules.specs.Readings.{after, opens, pairs_after, read_through, start};

use crate::pairs::Pairs;
use crate::spot::{Spot, is_token, spot_after};
use source_text::is_line_terminator;

/// What is known behind the characters that were read.
#[derive(Clone, Copy, Debug, PartialEq, Eq)]
pub struct Reading {
    pub spot: Spot,
    /// The `(` right before.
    pub pairs: Pairs,
    /// Whether a `(` or `[` was read.
    pub opened: bool,
    /// Whether a line ends behind the last token.
    pub broken: bool,
}

/// What is known before the first character.
pub(crate) fn start() -> Reading
    ensures { result ≡ start }
{
    Reading {
        spot: Spot::Outside,
        pairs: Pairs::NoPair,
        opened: false,
        broken: false,
    }
}

/// Whether a character is `(` or `[`.
pub(crate) fn opens(c: char) -> bool
    ensures { result ≡ opens c }
{
    matches!(c, '(' | '[')
}

/// What is known behind one character more.
pub(crate) fn after(reading: Reading, c: char) -> Reading
    ensures { result ≡ after reading c }
{
    let is_token = is_token(reading.spot, c);
    Reading {
        spot: spot_after(reading.spot, c),
        pairs: pairs_after(reading.pairs, is_token, c),
        opened: reading.opened || (is_token && opens(c)),
        broken: is_line_terminator(c) || (reading.broken && !is_token),
    }
}

/// The `(` right before what follows a character, which may be a token's.
fn pairs_after(pairs: Pairs, is_token: bool, c: char) -> Pairs
    ensures { result ≡ pairs_after pairs is_token c }
{
    if !is_token {
        return pairs;
    }
    if c == '(' {
        pairs.with_one()
    } else {
        Pairs::NoPair
    }
}

/// What is known behind a text.
pub(crate) fn read_through(text: &str) -> Reading
    ensures { result ≡ read_through text.now }
{
    text.chars().fold(start(), |reading, c| after(reading, c))
}
