//! What is proved of places: each contract is a theorem, and the body does nothing.

ghost use Rattle.location_laws.specs.Laws.{BindingsAreAtTheirNames, BindingsAreInOrder, IdentifiersAreAtTheirNames, NodesAreInOrder, ReferencesAreAtTheirNames, ReferencesAreInOrder, ReferencesAreInTheirScopes, ScopesAreInOrder, ScopesAreWithinTheirParents};

/// In a script that a UTF-8 text derives in a language, the parts of each node stand within its span, each where the one before it ends or
/// behind it. Only the key of a shorthand property stands in its value.
pub fn nodes_are_in_order()
    ensures { NodesAreInOrder }
{}

/// The text in an identifier's span is its name.
pub fn identifiers_are_at_their_names()
    ensures { IdentifiersAreAtTheirNames }
{}

/// The scopes are in the order of their places: each stands within those before it or behind them.
pub fn scopes_are_in_order()
    ensures { ScopesAreInOrder }
{}

/// A scope that stands in another has its place within that one's.
pub fn scopes_are_within_their_parents()
    ensures { ScopesAreWithinTheirParents }
{}

/// A reference stands in the place of its scope.
pub fn references_are_in_their_scopes()
    ensures { ReferencesAreInTheirScopes }
{}

/// The references are in the order of their places: each stands behind the one before it.
pub fn references_are_in_order()
    ensures { ReferencesAreInOrder }
{}

/// The text in a reference's span is its name.
pub fn references_are_at_their_names()
    ensures { ReferencesAreAtTheirNames }
{}

/// The bindings of each scope are in the order of their places, those of their first identifiers: each stands behind the one
/// before it.
pub fn bindings_are_in_order()
    ensures { BindingsAreInOrder }
{}

/// The text in a binding's span is its name.
pub fn bindings_are_at_their_names()
    ensures { BindingsAreAtTheirNames }
{}
