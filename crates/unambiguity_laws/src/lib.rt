#![tactic(auto)]

//! Theorems: the grammar is unambiguous, short scripts are within the limits, grouping pairs come in order.
//! - May touch: nothing. It has no word about the parser, so the theorems hold for every text.
//! - Contract: `at_most_one_script_in`: two derivations of a text in a language agree in tree, places and pairs.
//! - Begin at: `specs/Laws.antt` for what is said; `proofs/Unique.antt` for why.

ghost use Rattle.unambiguity_laws.specs.Laws.{AtMostOneScript, AtMostOneScriptIn, EarlierScriptIsTheOne, ShortScriptsFit, ShortScriptsFitIn, PairsInOrder, PairsInOrderIn};

/// A text derives at most one script of the base profile: any two derivations of it agree in tree, places and pairs.
pub fn at_most_one_script()
    ensures { AtMostOneScript }
{}

/// A text derives at most one script in each language.
pub fn at_most_one_script_in()
    ensures { AtMostOneScriptIn }
{}

/// What a text derived by the 11th edition, without separators in numbers and without logical assignments, is all that it derives today.
pub fn earlier_script_is_the_one()
    ensures { EarlierScriptIsTheOne }
{}

/// A script of a text with fewer than `SHORT_BYTES` bytes is within the limits: no tree that such a text derives is too high, and none
/// asks for too many open parentheses.
pub fn short_scripts_fit()
    ensures { ShortScriptsFit }
{}

/// In each language, a script of a text with fewer than `SHORT_BYTES` bytes is within the limits.
pub fn short_scripts_fit_in()
    ensures { ShortScriptsFitIn }
{}

/// The grouping pairs of a script come in order of their `(`: each stands before the next one's, and each pair closes behind it.
pub fn pairs_in_order()
    ensures { PairsInOrder }
{}

/// In each language, the grouping pairs of a script come in order of their `(`.
pub fn pairs_in_order_in()
    ensures { PairsInOrderIn }
{}
