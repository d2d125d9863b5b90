//! What is proved of the definitions: each contract is a theorem, and the body does nothing.

ghost use Rattle.std.specs.Prelude.{◌≡◌};
ghost use Rattle.language.specs.Claims.{max_height, max_open, short_bytes};
ghost use Rattle.language.specs.Earlier.{EarlierScriptsStay};
ghost use Rattle.language.specs.Languages.{BaseIsALanguage, BaseScriptsStay};
ghost use Rattle.language.specs.Laws.{AtMostOneWay, DerivedFits, DerivedFitsIn, FindsDerivations, FixedTextDerives, FixedTextDerivesIn, FixedTextWithinLimits, FixedTextWithinLimitsIn, LayoutDerives, LayoutIsItems, LayoutIsSpelled, NoFewerPairs, NoFewerPairsIn, NoFewerPairsOfTokens, PlacesChangeNoLayout, PlacesChangeNoWay, ReadingsAreDerived, StaysWithMoreTokens};

use crate::limits::{MAX_HEIGHT, MAX_OPEN, SHORT_BYTES};

/// The limits of the code are those of the definitions.
pub fn limits_are_the_defined_ones()
    ensures height { MAX_HEIGHT ≡ max_height }
    ensures open { MAX_OPEN ≡ max_open }
    ensures short { SHORT_BYTES ≡ short_bytes }
{}

/// A node has at most one way at a position, but for an arrow with one plain parameter, a `new` without arguments and an import
/// without names in braces.
pub fn at_most_one_way()
    ensures { AtMostOneWay }
{}

/// The search finds what the tokens spell, all of it and nothing else: so its examples say what is derived, and what is not.
pub fn finds_derivations()
    ensures { FindsDerivations }
{}

/// However tokens spell the same tree at a position, there are at least as many pairs as its cost there.
pub fn no_fewer_pairs_of_tokens()
    ensures { NoFewerPairsOfTokens }
{}

/// Every derivation of every text with the same tree has at least the computed cost of pairs.
pub fn no_fewer_pairs()
    ensures { NoFewerPairs }
{}

/// In each language, every derivation of every text with the same tree has at least the computed cost of pairs.
pub fn no_fewer_pairs_in()
    ensures { NoFewerPairsIn }
{}

/// A derivation stays one when tokens are added behind those that it looks at.
pub fn stays_with_more_tokens()
    ensures { StaysWithMoreTokens }
{}

/// Places change no way to spell a node.
pub fn places_change_no_way()
    ensures { PlacesChangeNoWay }
{}

/// What the tokens of a reading of a text spell, the text derives at its own places.
pub fn readings_are_derived()
    ensures { ReadingsAreDerived }
{}

/// What a text derives can be laid out: each node can be spelled where it stands, or in a pair where it is wrapped.
pub fn derived_fits()
    ensures { DerivedFits }
{}

/// What a text derives in a language can be laid out.
pub fn derived_fits_in()
    ensures { DerivedFitsIn }
{}

/// The text of a tree's layout is that of its items: tokens, and what stands between them.
pub fn layout_is_items()
    ensures { LayoutIsItems }
{}

/// Tokens that follow the items of a layout spell the same tree, with a pair for each node in parentheses.
pub fn layout_is_spelled()
    ensures { LayoutIsSpelled }
{}

/// A text that is read as the layout of a tree which some text derives, derives the same tree, with a pair for each wrapped node.
pub fn layout_derives()
    ensures { LayoutDerives }
{}

/// The fixed text of a script that some text derives derives the script, with a pair for each wrapped node.
pub fn fixed_text_derives()
    ensures { FixedTextDerives }
{}

/// In each language, the fixed text of a script that some text derives derives the script.
pub fn fixed_text_derives_in()
    ensures { FixedTextDerivesIn }
{}

/// A fixed text is refused neither for height nor for open parentheses.
pub fn fixed_text_within_limits()
    ensures { FixedTextWithinLimits }
{}

/// In each language, a fixed text is refused neither for height nor for open parentheses.
pub fn fixed_text_within_limits_in()
    ensures { FixedTextWithinLimitsIn }
{}

/// Two trees that are one, wherever their nodes stand, have one set of wrapped nodes and one fixed text.
pub fn places_change_no_layout()
    ensures { PlacesChangeNoLayout }
{}

/// What a text derived by the 11th edition, without separators in numbers and without logical assignments, it derives today: the same
/// tree, places and pairs.
pub fn earlier_scripts_stay()
    ensures { EarlierScriptsStay }
{}

/// Without the productions of later languages a text derives just the trees of the base profile that it derives with them.
pub fn base_scripts_stay()
    ensures { BaseScriptsStay }
{}

/// As a text of the base profile, told which language it is, a text derives the same.
pub fn base_is_a_language()
    ensures { BaseIsALanguage }
{}
