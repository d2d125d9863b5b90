//! What is proved of the definitions: each contract is a theorem, and the body does nothing.

ghost use Rattle.cost_certificate.specs.Laws.{FaultlessIsSound, ReadsTables, RefusesFirstLine, SoundIsLowerBound};

/// The total of a sound table, whoever made it, is no greater than the number of pairs of any derivation of any text with the same tree.
pub fn sound_is_lower_bound()
    ensures { SoundIsLowerBound }
{}

/// A table, whose rows have types, has no fault exactly where it is sound.
pub fn faultless_is_sound()
    ensures { FaultlessIsSound }
{}

/// A text is read as a table exactly where it is that of the table, in its format: what is written is read back, and nothing else is read.
pub fn reads_tables()
    ensures { ReadsTables }
{}

/// A text that is read as no table is refused at the first line with which it departs from all tables.
pub fn refuses_first_line()
    ensures { RefusesFirstLine }
{}
