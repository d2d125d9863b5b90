//! What the pattern of a regular expression literal says that it hardly means.
//! - May touch: the text of a literal; memory only for groups and lookarounds.
//! - Contract: `has_misleading_class` answers whether in a class of the pattern characters stand side by side that are seen as one, and
//!   `has_useless_reference` whether a reference matches nothing but the empty String; `specs/Misleading.antt` and
//!   `specs/UselessReferences.antt` say what that means. A pattern is read from its start to its end, once or twice; a reference is a
//!   search among the groups round it.
//! - Begin at: `misleading.rt`, `has_misleading_class`; `class_values.rt` reads the classes, `sight.rt` compares what stands side by side.
//!   Then `references.rt`, `has_useless_reference`; `marks.rt` reads groups and references, `reached.rt` says what they make.
#![tactic(auto)]

mod character;
mod class_values;
mod frame;
mod kept;
mod marks;
mod misleading;
mod opening;
mod reached;
mod references;
mod sight;

pub use misleading::has_misleading_class;
pub use references::has_useless_reference;
