//! Laws of readings, as functions that do nothing.

ghost use Rattle.tokens.specs.Laws.{AtMostOneToken, ReadingsTakeTokens};

/// By a goal at most one token is read at a place.
pub fn at_most_one_token()
    ensures { AtMostOneToken }
{}

/// The first token of a reading is one that a goal reads there, and the reading goes on behind it.
pub fn readings_take_tokens()
    ensures { ReadingsTakeTokens }
{}
