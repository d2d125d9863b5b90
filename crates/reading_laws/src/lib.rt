#![tactic(auto)]

//! Theorems: what a text derives at its own places, its readings as lists of tokens spell too; the tree tells which
//! reading.
//! - May touch: nothing. Each contract is a theorem, and the body does nothing.
//! - Contract: `derives_by_readings`: a text derives a script exactly if some reading of it spells that script.
//! - Begin at: `specs/Laws.antt` and `specs/TreeReadings.antt` for what is said; `proofs/Walk.antt` for why.

ghost use Rattle.reading_laws.specs.Laws.{AcceptsByReadings, AtMostOneTreeReading, DerivationsAreReadings, DerivedTextsHaveOneTreeReading, DerivesByReadings, ReadingsOfOneTreeAreEqual, SpelledReadingsAreTreeReadings};

/// A derivation at a text's own places is one of a reading of the text: a list of tokens, with the goals of its own choice, spells the same tree, places included, with the same pairs.
pub fn derivations_are_readings()
    ensures { DerivationsAreReadings }
{}

/// What a UTF-8 text derives is just what some reading of it spells.
pub fn derives_by_readings()
    ensures { DerivesByReadings }
{}

/// A UTF-8 text is accepted with a tree and grouping pairs just where some reading of it spells them within the limits, and the tree has no early error.
pub fn accepted_by_readings()
    ensures { AcceptsByReadings }
{}

/// A text has at most one reading by the goals of a tree.
pub fn at_most_one_tree_reading()
    ensures { AtMostOneTreeReading }
{}

/// A reading that spells a tree is the reading by the goals of that tree.
pub fn spelled_readings_are_tree_readings()
    ensures { SpelledReadingsAreTreeReadings }
{}

/// So two readings of a text that spell the same tree are the same list of tokens.
pub fn readings_of_one_tree_are_equal()
    ensures { ReadingsOfOneTreeAreEqual }
{}

/// A text that derives a tree has one reading by the goals of that tree, and that one spells it.
pub fn derived_texts_have_one_tree_reading()
    ensures { DerivedTextsHaveOneTreeReading }
{}
