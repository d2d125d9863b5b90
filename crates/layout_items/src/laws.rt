//! Theorems.

ghost use Rattle.layout_items.specs.Laws.{AtMostOneLayout};

/// Items have one layout at most.
pub fn one_layout()
    ensures { AtMostOneLayout }
{}
