//! What stands round a node, as far as rules ask.

ghost use Rattle.std.specs.Prelude.{◌≡◌};
ghost use Rattle.tree.specs.Node.{node_tree};
ghost use Rattle.tree.specs.Tree.{parts_of};
ghost use Rattle.flow_rules.specs.Arounds.{gives_value, has_value, is_constructor, is_first, is_get, is_hoisted, is_second, is_third, returns, same_place};

use crate::callbacks::{callback_place, unchained};
use crate::fallthrough::{falls_through, quiet_from};
use crate::flow::{Flow, Place};
use crate::kind_sets::{
    has_own_this, is_block, is_call, is_case, is_catch, is_class, is_class_body, is_conditional,
    is_if, is_list, is_logical, is_member, is_method, is_own_function, is_switch, is_try,
};
use tree::{Flags, Form, Kind, Node};

/// What the function is in which a node stands.
#[derive(Clone, Copy)]
pub(crate) enum Home {
    /// A getter.
    Getter,
    /// The constructor of a class that extends another.
    Derived,
    /// A callback whose value is used.
    Callback,
    Other,
}

/// What stands round all parts of a node.
#[derive(Clone, Copy)]
pub(crate) struct Round {
    /// The kind of the node; round the root, Program.
    pub(crate) parent: Kind,
    /// Its form.
    pub(crate) form: Form,
    /// Where it starts.
    pub(crate) start: usize,
    /// Where it ends.
    pub(crate) end: usize,
    /// Where its own parent starts.
    pub(crate) outer_start: usize,
    /// Where its own parent ends.
    pub(crate) outer_end: usize,
    /// What the function is.
    pub(crate) home: Home,
    /// Whether nothing of the function comes behind the node.
    pub(crate) in_tail: bool,
    /// Whether its third part is there: of a `try` the block behind `finally`.
    pub(crate) has_finalizer: bool,
    /// At which of its parts the value of a callback is used; Later for none.
    pub(crate) awaited: Place,
}

/// What stands round a node and, in the same parent, before it.
#[derive(Clone, Copy)]
pub(crate) struct Around {
    pub(crate) round: Round,
    /// Which part of the parent the node is.
    pub(crate) place: Place,
    /// How many parts there are from it on.
    pub(crate) left: usize,
    /// Whether a call of `super` stands before it in its function.
    pub(crate) has_super: bool,
    /// Whether a statement of its list before it can't complete normally.
    pub(crate) stopped: bool,
    /// Whether the one before it isn't reached, and is shown.
    pub(crate) in_run: bool,
    /// Whether the case before it goes on here.
    pub(crate) falls: bool,
    /// Where the last statement of the case before it ends.
    pub(crate) falls_from: usize,
    /// Whether the class round it extends another.
    pub(crate) derived: bool,
    /// Whether each branch before it returns, in an `if` of a list.
    pub(crate) chained: bool,
}

impl Around {
    ghost use Rattle.std.specs.Prelude.{◌≡◌};
    ghost use Rattle.tree.specs.Node.{node_tree};
    ghost use Rattle.flow_rules.specs.Arounds.{at_tail, awaited_inside, behind, behind_gap, chained_inside, function_home, home_inside, inside, is_callback, round_parts, round_root};

    /// Round the root.
    pub(crate) fn root() -> Around
        ensures { result ≡ round_root }
    {
        Around {
            round: Round {
                parent: Kind::Program,
                form: Form::Init,
                start: 0,
                end: 0,
                outer_start: 0,
                outer_end: 0,
                home: Home::Other,
                in_tail: false,
                has_finalizer: false,
                awaited: Place::Later,
            },
            place: Place::First,
            left: 1,
            has_super: false,
            stopped: false,
            in_run: false,
            falls: false,
            falls_from: 0,
            derived: false,
            chained: false,
        }
    }

    /// Round the parts of a node that stands here.
    fn round_parts(self, node: Node) -> Round
        ensures { result ≡ round_parts self (node_tree node.entry) }
    {
        let span = node.span();
        Round {
            parent: node.kind(),
            form: node.flags().form,
            start: span.start,
            end: span.end,
            outer_start: self.round.start,
            outer_end: self.round.end,
            home: self.home_inside(node),
            in_tail: self.at_tail(),
            has_finalizer: node.part(2).is_some(),
            awaited: self.awaited_inside(node),
        }
    }

    /// Round the first part of a node that stands here.
    pub(crate) fn inside(self, node: Node) -> Around
        ensures { result ≡ inside self (node_tree node.entry) }
    {
        let kind = node.kind();
        Around {
            round: self.round_parts(node),
            place: Place::First,
            left: node.part_count(),
            has_super: self.has_super && !is_own_function(kind),
            stopped: false,
            in_run: false,
            falls: false,
            falls_from: 0,
            derived: self.derived && (is_class_body(kind) || is_method(kind)),
            chained: self.chained_inside(kind),
        }
    }

    /// Goes on to the next part, behind the one that stands here.
    #[inline]
    pub(crate) fn pass(&mut self, flow: Flow, node: Node)
        ensures { self.new ≡ behind self.old flow (node_tree node.entry) }
    {
        let parent = self.round.parent;
        self.chained = self.chained && (!is_second(self.place) || returns(flow));
        self.derived = self.derived || (is_class(parent) && is_second(self.place));
        self.falls_from = quiet_from(node);
        self.falls = is_switch(parent) && falls_through(flow, node);
        self.in_run = self.stopped && !is_hoisted(node);
        self.stopped = self.stopped || (is_list(parent) && !flow.normal);
        self.has_super = self.has_super || flow.leaving.supers;
        self.left = self.left.saturating_sub(1);
        self.place = self.place.next();
    }

    /// Goes on to the next part, behind a gap.
    #[inline]
    pub(crate) fn pass_gap(&mut self)
        ensures { self.new ≡ behind_gap self.old }
    {
        self.left = self.left.saturating_sub(1);
        self.place = self.place.next();
    }

    /// Whether a callback whose value is used stands here.
    fn is_callback(self) -> bool
        ensures { result ≡ is_callback self }
    {
        let parent = self.round.parent;
        let awaited = self.round.awaited;
        (is_call(parent) && same_place(awaited, self.place))
            || ((is_logical(parent) && is_second(awaited))
                || (is_conditional(parent) && (is_second(awaited) && !is_first(self.place))))
    }

    /// At which parts of a node that stands here the value of a callback is used.
    fn awaited_inside(self, node: Node) -> Place
        ensures { result ≡ awaited_inside self (node_tree node.entry) }
    {
        let kind = node.kind();
        if is_call(kind) {
            return callback_place(unchained(node.part(0)));
        }
        if (is_logical(kind) || is_conditional(kind)) && self.is_callback() {
            Place::Second
        } else {
            Place::Later
        }
    }

    /// What a function is that stands here.
    fn function_home(self, flags: Flags) -> Home
        ensures { result ≡ function_home self flags }
    {
        let round = self.round;
        if is_member(round.parent) && (is_second(self.place) && is_get(round.form)) {
            return Home::Getter;
        }
        if is_method(round.parent) && (is_constructor(round.form) && self.derived) {
            return Home::Derived;
        }
        if self.is_callback() && !(flags.form.is_async() || flags.form.is_generator()) {
            Home::Callback
        } else {
            Home::Other
        }
    }

    /// What the function is in which the parts of a node stand.
    fn home_inside(self, node: Node) -> Home
        ensures { result ≡ home_inside self (node_tree node.entry) }
    {
        let kind = node.kind();
        if kind.is_function() {
            return self.function_home(node.flags());
        }
        if has_own_this(kind) {
            Home::Other
        } else {
            self.round.home
        }
    }

    /// Whether nothing of the function comes behind what stands here.
    pub(crate) fn at_tail(self) -> bool
        ensures { result ≡ at_tail self }
    {
        let parent = self.round.parent;
        parent.is_function()
            || (self.round.in_tail
                && (((is_block(parent) || (is_case(parent) || is_switch(parent))) && self.left == 1)
                    || ((is_if(parent) || is_catch(parent))
                        || (is_try(parent)
                            && (is_second(self.place) && !self.round.has_finalizer)))))
    }

    /// Whether a node of this kind is an `if` of a list, or one that follows such a one's `else`.
    fn chained_inside(self, kind: Kind) -> bool
        ensures { result ≡ chained_inside self kind }
    {
        let parent = self.round.parent;
        is_if(kind)
            && (is_list(parent) || (is_if(parent) && (is_third(self.place) && self.chained)))
    }
}

/// Whether it is the first place.
fn is_first(place: Place) -> bool
    ensures { result ≡ is_first place }
{
    matches!(place, Place::First)
}

/// Whether it is the second place.
fn is_second(place: Place) -> bool
    ensures { result ≡ is_second place }
{
    matches!(place, Place::Second)
}

/// Whether it is the third place.
pub(crate) fn is_third(place: Place) -> bool
    ensures { result ≡ is_third place }
{
    matches!(place, Place::Third)
}

/// Whether it is the place at which a callback stands.
fn same_place(awaited: Place, place: Place) -> bool
    ensures { result ≡ same_place awaited place }
{
    match awaited {
        Place::Second => is_second(place),
        Place::Third => is_third(place),
        _ => false,
    }
}

/// Whether it is the form of a getter.
fn is_get(form: Form) -> bool
    ensures { result ≡ is_get form }
{
    matches!(form, Form::Get)
}

/// Whether it is the form of a constructor.
fn is_constructor(form: Form) -> bool
    ensures { result ≡ is_constructor form }
{
    matches!(form, Form::Constructor)
}

/// Whether it doesn't complete normally, and no `break` or `continue` leaves it, but a `return`.
fn returns(flow: Flow) -> bool
    ensures { result ≡ returns flow }
{
    let leaving = flow.leaving;
    !flow.normal
        && ((leaving.values || leaving.empties)
            && !((leaving.breaks || leaving.labelled_breaks)
                || (leaving.continues || leaving.labelled_continues)))
}

/// Whether a node is there without being reached: a function, `;`, or names of `var` without values.
pub(crate) fn is_hoisted(node: Node) -> bool
    ensures { result ≡ is_hoisted (node_tree node.entry) }
{
    match node.kind() {
        Kind::FunctionDeclaration | Kind::EmptyStatement => true,
        Kind::VariableDeclaration => node.text() == "var" && !has_value(node),
        _ => false,
    }
}

/// Whether a declarator has a value.
fn gives_value(node: Node) -> bool
    ensures { result ≡ gives_value (node_tree node.entry) }
{
    node.part(1).is_some()
}

/// Whether a declaration of names gives a value.
#[tactic(auto, using(tree::proofs::PartWalk::part_steps))]
fn has_value(node: Node) -> bool
    ensures { result ≡ has_value (parts_of (node_tree node.entry)) }
{
    for index in 0..node.part_count() {
        if let Some(part) = node.part(index) {
            if gives_value(part) {
                return true;
            }
        }
    }
    false
}
