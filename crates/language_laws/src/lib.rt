#![tactic(auto)]

//! Theorems: what the laws of `language` and `row_laws` say of the base profile, for each language; and that no language has fewer pairs.
//! - May touch: nothing. Each contract is a theorem, and the body does nothing.
//! - Contract: `no_fewer_pairs_across`: a text has at least as many pairs as any tree costs that has the same items, whatever its language.
//! - Begin at: `specs/Laws.antt` for what is said; `proofs/OtherLanguages.antt` for why.

ghost use Rattle.language_laws.specs.Laws.{DerivedIsLinedIn, DerivedNumbersRowsIn, LayoutDerivesIn, NoFewerPairsAcross};

/// Every derivation of every text, in any language, has at least as many pairs as a tree costs that has the same items, if some text derives
/// that tree in a language of its own. So a script that is read as a module, or by another edition, can't have fewer.
pub fn no_fewer_pairs_across()
    ensures { NoFewerPairsAcross }
{}

/// A text that is read as the layout of a tree that some text of the language derives, token by token, derives it, with a pair for each
/// wrapped node.
pub fn layout_derives_in()
    ensures { LayoutDerivesIn }
{}

/// Each node of a script or module that some text of a language derives stands as its ways say.
pub fn derived_is_lined_in()
    ensures { DerivedIsLinedIn }
{}

/// So the rows that the finished tree of a text holds number the nodes of its cost table.
pub fn derived_numbers_rows_in()
    ensures { DerivedNumbersRowsIn }
{}
