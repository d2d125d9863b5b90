//! What is proved of the definitions: each contract is a theorem, and the body does nothing.

ghost use Rattle.early_errors.specs.Laws.{EachReportsTheLeast, ErrorsAreAtNodes, ErrorsAreAtPlaces, NodesStartAtPlaces, PlacesMakeNoError};

/// The early error that is reported is one of the tree's, none comes before it, and where none is reported there is none.
pub fn each_reports_the_least()
    ensures { EachReportsTheLeast }
{}

/// A tree without early errors has none at other places either.
pub fn places_make_no_error()
    ensures { PlacesMakeNoError }
{}

/// An early error stands where a node of the tree starts.
pub fn errors_are_at_nodes()
    ensures { ErrorsAreAtNodes }
{}

/// Each node of a tree that a text derives starts at a place of the text: at its beginning, where a token starts, or behind the
/// first character of a template's token.
pub fn nodes_start_at_places()
    ensures { NodesStartAtPlaces }
{}

/// Each early error of a tree that a text derives is at a place of the text.
pub fn errors_are_at_places()
    ensures { ErrorsAreAtPlaces }
{}
