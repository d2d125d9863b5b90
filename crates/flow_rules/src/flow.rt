//! What is known of a node: whether it can complete normally, and what leaves it.

use crate::completion::is_default;
use tree::Node;

/// What stands in a node and leaves it, in no function inside.
#[derive(Clone, Copy)]
pub(crate) struct Leaving {
    /// A `break` without a label.
    pub(crate) breaks: bool,
    /// One with a label.
    pub(crate) labelled_breaks: bool,
    /// A `continue` without a label.
    pub(crate) continues: bool,
    /// One with a label.
    pub(crate) labelled_continues: bool,
    /// A `return` with an argument.
    pub(crate) values: bool,
    /// A `return` without one.
    pub(crate) empties: bool,
    /// A call of `super`.
    pub(crate) supers: bool,
}

/// What is known of a node.
#[derive(Clone, Copy)]
pub(crate) struct Flow {
    /// Whether it can complete normally.
    pub(crate) normal: bool,
    pub(crate) leaving: Leaving,
}

/// What is known of the parts of a node.
#[derive(Clone, Copy)]
pub(crate) struct Sums {
    /// Whether all can complete normally.
    pub(crate) all: bool,
    /// Whether the first is there and can.
    pub(crate) first: bool,
    /// Whether the second is there and can.
    pub(crate) second: bool,
    /// Whether the third can, or is missing.
    pub(crate) third: bool,
    /// Whether the last can, or there is none.
    pub(crate) last: bool,
    /// Whether one is a `default`.
    pub(crate) has_default: bool,
    /// What leaves some part.
    pub(crate) leaving: Leaving,
}

/// Which part of a node it is, gaps counted.
#[derive(Clone, Copy)]
pub(crate) enum Place {
    First,
    Second,
    Third,
    Later,
}

impl Place {
    ghost use Rattle.std.specs.Prelude.{◌≡◌};
    ghost use Rattle.flow_rules.specs.Flows.{at_first, at_second, at_third, next_place};

    /// The place of the next part.
    pub(crate) fn next(self) -> Place
        ensures { result ≡ next_place self }
    {
        match self {
            Place::First => Place::Second,
            Place::Second => Place::Third,
            Place::Third => Place::Later,
            Place::Later => Place::Later,
        }
    }

    /// What is new if it is the first place, else what is old.
    fn at_first(self, new: bool, old: bool) -> bool
        ensures { result ≡ at_first self new old }
    {
        match self {
            Place::First => new,
            _ => old,
        }
    }

    /// What is new if it is the second place, else what is old.
    fn at_second(self, new: bool, old: bool) -> bool
        ensures { result ≡ at_second self new old }
    {
        match self {
            Place::Second => new,
            _ => old,
        }
    }

    /// What is new if it is the third place, else what is old.
    fn at_third(self, new: bool, old: bool) -> bool
        ensures { result ≡ at_third self new old }
    {
        match self {
            Place::Third => new,
            _ => old,
        }
    }
}

impl Leaving {
    ghost use Rattle.std.specs.Prelude.{◌≡◌};
    ghost use Rattle.flow_rules.specs.Flows.{both_leaving, no_leaving};

    /// Nothing.
    fn nothing() -> Leaving
        ensures { result ≡ no_leaving }
    {
        Leaving {
            breaks: false,
            labelled_breaks: false,
            continues: false,
            labelled_continues: false,
            values: false,
            empties: false,
            supers: false,
        }
    }

    /// What is in one or the other.
    fn with(self, other: Leaving) -> Leaving
        ensures { result ≡ both_leaving self other }
    {
        Leaving {
            breaks: self.breaks || other.breaks,
            labelled_breaks: self.labelled_breaks || other.labelled_breaks,
            continues: self.continues || other.continues,
            labelled_continues: self.labelled_continues || other.labelled_continues,
            values: self.values || other.values,
            empties: self.empties || other.empties,
            supers: self.supers || other.supers,
        }
    }
}

impl Flow {
    ghost use Rattle.std.specs.Prelude.{◌≡◌};
    ghost use Rattle.flow_rules.specs.Plain.{plain_flow};

    /// What is known of a node that completes normally, and that nothing leaves.
    pub(crate) fn plain() -> Flow
        ensures { result ≡ plain_flow }
    {
        Flow {
            normal: true,
            leaving: Leaving::nothing(),
        }
    }
}

impl Sums {
    ghost use Rattle.std.specs.Prelude.{◌≡◌};
    ghost use Rattle.tree.specs.Node.{node_tree};
    ghost use Rattle.flow_rules.specs.Flows.{no_sums, with_part};

    /// Of no parts.
    pub(crate) fn none() -> Sums
        ensures { result ≡ no_sums }
    {
        Sums {
            all: true,
            first: false,
            second: false,
            third: true,
            last: true,
            has_default: false,
            leaving: Leaving::nothing(),
        }
    }

    /// Adds one more part, at this place.
    #[inline]
    pub(crate) fn add(&mut self, place: Place, flow: Flow, node: Node)
        ensures { self.new ≡ with_part self.old place flow (node_tree node.entry) }
    {
        self.all = self.all && flow.normal;
        self.first = place.at_first(flow.normal, self.first);
        self.second = place.at_second(flow.normal, self.second);
        self.third = place.at_third(flow.normal, self.third);
        self.last = flow.normal;
        self.has_default = self.has_default || is_default(node);
        self.leaving = self.leaving.with(flow.leaving);
    }
}
