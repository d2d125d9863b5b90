//! What stands round a node.

ghost use Rattle.std.specs.Prelude.{◌≡◌, ◌&&◌, cond};
ghost use Rattle.tree.specs.Node.{node_tree};
ghost use Rattle.node_rules.specs.Arounds.{at_place, ending_inside, hands_out, inside, is_finalizer, is_guarded, is_member, is_returned, is_set, is_setter, leaving_by_label_inside, leaving_inside, remark_inside, round_root, setter_inside, used};
ghost use Rattle.node_rules.specs.Calm.{changes_around, is_calm, keeps_around};
ghost use Rattle.node_rules.specs.declared.around.Ending.TheVariants.{GivenBack, Guarded};
ghost use Rattle.node_rules.specs.declared.around.Remark.TheVariants.{NoRemark};

use crate::kind_sets::{ends_jumps, is_labelled, is_switch, is_try};
use tree::{Form, Kind, Node};

/// Which jumps without a label leave a finalizer, the block behind `finally`.
#[derive(Clone, Copy)]
pub(crate) enum Jumps {
    /// None does.
    NoJumps,
    /// `return` and `throw`.
    Returns,
    /// Also `continue`.
    Continues,
    /// Also `break`.
    Breaks,
}

impl Jumps {
    ghost use Rattle.std.specs.Prelude.{◌≡◌};
    ghost use Rattle.node_rules.specs.Arounds.{has_breaks, has_continues, has_returns, in_loop, in_switch};

    /// Whether `return` and `throw` do.
    #[inline]
    pub(crate) fn has_returns(self) -> bool
        ensures { result ≡ has_returns self }
    {
        !matches!(self, Jumps::NoJumps)
    }

    /// Whether `continue` does.
    pub(crate) fn has_continues(self) -> bool
        ensures { result ≡ has_continues self }
    {
        matches!(self, Jumps::Continues | Jumps::Breaks)
    }

    /// Whether `break` does.
    pub(crate) fn has_breaks(self) -> bool
        ensures { result ≡ has_breaks self }
    {
        matches!(self, Jumps::Breaks)
    }

    /// Those of them that leave a loop.
    fn in_loop(self) -> Jumps
        ensures { result ≡ in_loop self }
    {
        match self {
            Jumps::NoJumps => Jumps::NoJumps,
            Jumps::Returns | Jumps::Continues | Jumps::Breaks => Jumps::Returns,
        }
    }

    /// Those of them that leave a `switch`.
    fn in_switch(self) -> Jumps
        ensures { result ≡ in_switch self }
    {
        match self {
            Jumps::Breaks => Jumps::Continues,
            Jumps::NoJumps | Jumps::Returns | Jumps::Continues => self,
        }
    }
}

/// What is to be said of a node beside its kind.
#[derive(Clone, Copy)]
pub(crate) enum Remark {
    NoRemark,
    /// It is a sum.
    IsSum,
    /// It is a declaration by `const`.
    IsConst,
    /// It is a class with `extends`, or the body of one.
    IsHeir,
    /// It is a `try` with a finalizer.
    IsFinalized,
}

impl Remark {
    ghost use Rattle.std.specs.Prelude.{◌≡◌};
    ghost use Rattle.node_rules.specs.Arounds.{is_const_remark, is_finalized_remark, is_heir_remark, is_sum_remark};

    /// Whether it is a sum.
    pub(crate) fn is_sum(self) -> bool
        ensures { result ≡ is_sum_remark self }
    {
        matches!(self, Remark::IsSum)
    }

    /// Whether it is a declaration by `const`.
    pub(crate) fn is_const(self) -> bool
        ensures { result ≡ is_const_remark self }
    {
        matches!(self, Remark::IsConst)
    }

    /// Whether it is a class with `extends`, or the body of one.
    pub(crate) fn is_heir(self) -> bool
        ensures { result ≡ is_heir_remark self }
    {
        matches!(self, Remark::IsHeir)
    }

    /// Whether it is a `try` with a finalizer.
    fn is_finalized(self) -> bool
        ensures { result ≡ is_finalized_remark self }
    {
        matches!(self, Remark::IsFinalized)
    }
}

/// What becomes of values.
#[derive(Clone, Copy)]
pub(crate) enum Ending {
    /// The function uses them.
    Used,
    /// They stand where a `try` of the function hears of errors.
    Guarded,
    /// One may be the function's result.
    GivenBack,
}

impl Ending {
    ghost use Rattle.std.specs.Prelude.{◌≡◌};
    ghost use Rattle.node_rules.specs.Arounds.{given_back, is_given_back, used};
    ghost use Rattle.node_rules.specs.Calm.{is_used};

    /// Whether the function uses them.
    #[inline]
    fn is_used(self) -> bool
        ensures { result ≡ is_used self }
    {
        matches!(self, Ending::Used)
    }

    /// Whether one may be the function's result.
    fn is_given_back(self) -> bool
        ensures { result ≡ is_given_back self }
    {
        matches!(self, Ending::GivenBack)
    }

    /// The same of values that the function uses.
    fn used(self) -> Ending
        ensures { result ≡ used self }
    {
        match self {
            Ending::Guarded => Ending::Guarded,
            Ending::Used | Ending::GivenBack => Ending::Used,
        }
    }

    /// The same of a value that it returns.
    fn given_back(self) -> Ending
        ensures { result ≡ given_back self }
    {
        match self {
            Ending::Guarded => Ending::Guarded,
            Ending::Used | Ending::GivenBack => Ending::GivenBack,
        }
    }
}

/// What stands round a node, as far as rules ask.
#[derive(Clone, Copy)]
pub(crate) struct Around {
    /// The kind of the node's parent; of the root, which has none, Program.
    pub(crate) parent: Kind,
    /// The parent's form.
    pub(crate) form: Form,
    /// The kind of the parent's parent.
    pub(crate) grandparent: Kind,
    /// The node's place among the parent's parts, gaps counted.
    pub(crate) place: usize,
    /// Whether the nearest function round it is a setter's.
    pub(crate) in_setter: bool,
    /// What is to be said of the parent beside its kind.
    pub(crate) remark: Remark,
    /// Which jumps without a label leave a finalizer from here.
    pub(crate) leaving: Jumps,
    /// Whether those with a label do.
    pub(crate) leaving_by_label: bool,
    /// What becomes of values here.
    pub(crate) ending: Ending,
}

impl Around {
    /// Round the root.
    pub(crate) fn root() -> Around
        ensures { result ≡ round_root }
    {
        Around {
            parent: Kind::Program,
            form: Form::Init,
            grandparent: Kind::Program,
            place: 0,
            in_setter: false,
            remark: Remark::NoRemark,
            leaving: Jumps::NoJumps,
            leaving_by_label: false,
            ending: Ending::Used,
        }
    }

    /// Round the first part of a node, which is the part at this place. Most nodes change no more than the parent: asked first, that spares
    /// a question for each field.
    #[inline]
    pub(crate) fn inside(&self, place: usize, node: Node) -> Around
        ensures { result ≡ inside (at_place self.now place) (node_tree node.entry) }
    {
        if !self.keeps_around(node.kind()) {
            return self.at_place(place).inside_any(node);
        }
        Around {
            parent: node.kind(),
            form: node.flags().form,
            grandparent: self.parent,
            place: 0,
            in_setter: self.in_setter,
            remark: Remark::NoRemark,
            leaving: Jumps::NoJumps,
            leaving_by_label: false,
            ending: Ending::Used,
        }
    }

    /// Whether a node of this kind changes no more than the parent.
    #[inline]
    fn keeps_around(&self, kind: Kind) -> bool
        ensures { result ≡ keeps_around self.now kind }
    {
        self.is_calm() && !changes_around(kind)
    }

    /// Whether nothing leaves a finalizer from here, values here are used, and no `try` is the parent.
    #[inline]
    fn is_calm(&self) -> bool
        ensures { result ≡ is_calm self.now }
    {
        (!is_try(self.parent) && !self.leaving.has_returns())
            && (!self.leaving_by_label && self.ending.is_used())
    }

    /// Round the first part of a node that stands here, field by field.
    #[inline(never)]
    fn inside_any(self, node: Node) -> Around
        ensures { result ≡ inside self (node_tree node.entry) }
    {
        Around {
            parent: node.kind(),
            form: node.flags().form,
            grandparent: self.parent,
            place: 0,
            in_setter: self.setter_inside(node.kind()),
            remark: self.remark_inside(node),
            leaving: self.leaving_inside(node.kind()),
            leaving_by_label: self.leaving_by_label_inside(node.kind()),
            ending: self.ending_inside(node.kind()),
        }
    }

    /// Round another part of the same node.
    #[inline]
    pub(crate) fn at_place(self, place: usize) -> Around
        ensures { result ≡ at_place self place }
    {
        Around {
            parent: self.parent,
            form: self.form,
            grandparent: self.grandparent,
            place,
            in_setter: self.in_setter,
            remark: self.remark,
            leaving: self.leaving,
            leaving_by_label: self.leaving_by_label,
            ending: self.ending,
        }
    }

    /// Whether the nearest function round the parts of a node of this kind is a setter's.
    #[inline]
    fn setter_inside(self, kind: Kind) -> bool
        ensures { result ≡ setter_inside self kind }
    {
        match kind {
            Kind::FunctionExpression => self.is_setter(),
            Kind::FunctionDeclaration | Kind::ArrowFunctionExpression => false,
            _ => self.in_setter,
        }
    }

    /// Whether the finalizer of a `try` stands here.
    #[inline]
    fn is_finalizer(self) -> bool
        ensures { result ≡ is_finalizer self }
    {
        is_try(self.parent) && self.place == 2
    }

    /// Which jumps without a label leave a finalizer from the parts of a node of this kind.
    #[inline]
    fn leaving_inside(self, kind: Kind) -> Jumps
        ensures { result ≡ leaving_inside self kind }
    {
        if self.is_finalizer() {
            Jumps::Breaks
        } else if ends_jumps(kind) {
            Jumps::NoJumps
        } else if kind.is_loop() {
            self.leaving.in_loop()
        } else if is_switch(kind) {
            self.leaving.in_switch()
        } else {
            self.leaving
        }
    }

    /// Whether those with a label do.
    #[inline]
    fn leaving_by_label_inside(self, kind: Kind) -> bool
        ensures { result ≡ leaving_by_label_inside self kind }
    {
        self.is_finalizer() || (self.leaving_by_label && !(ends_jumps(kind) || is_labelled(kind)))
    }

    /// What is to be said of a node beside its kind.
    #[inline]
    fn remark_inside(self, node: Node) -> Remark
        ensures { result ≡ remark_inside self (node_tree node.entry) }
    {
        match node.kind() {
            Kind::BinaryExpression => remark_if(node.text() == "+", Remark::IsSum),
            Kind::VariableDeclaration => remark_if(node.text() == "const", Remark::IsConst),
            Kind::ClassDeclaration | Kind::ClassExpression => remark_if(
                node.part(1).is_some(),
                Remark::IsHeir,
            ),
            Kind::ClassBody => self.remark,
            Kind::TryStatement => remark_if(node.part(2).is_some(), Remark::IsFinalized),
            _ => Remark::NoRemark,
        }
    }

    /// Whether a value here is the function's result, and no `try` of the function hears of an error in it.
    #[inline]
    pub(crate) fn is_returned(self) -> bool
        ensures { result ≡ is_returned self }
    {
        self.ending.is_given_back() && hands_out(self.parent, self.place)
    }

    /// Whether the block of a `try` stands here, or a `catch` behind which a finalizer stands.
    #[inline]
    fn is_guarded(self) -> bool
        ensures { result ≡ is_guarded self }
    {
        is_try(self.parent) && (self.place == 0 || (self.place == 1 && self.remark.is_finalized()))
    }

    /// What becomes of the values in a node of this kind.
    #[inline]
    fn ending_inside(self, kind: Kind) -> Ending
        ensures { result ≡ ending_inside self kind }
    {
        match kind {
            Kind::ArrowFunctionExpression => Ending::GivenBack,
            Kind::FunctionExpression | Kind::FunctionDeclaration => Ending::Used,
            Kind::ReturnStatement => self.ending.given_back(),
            _ => self.ending_here(),
        }
    }

    /// The same, where no function nor `return` begins.
    #[inline]
    fn ending_here(self) -> Ending
        ensures { result ≡ cond (is_guarded self) Guarded (cond (is_returned self) GivenBack (used self.ending)) }
    {
        if self.is_guarded() {
            Ending::Guarded
        } else if self.is_returned() {
            Ending::GivenBack
        } else {
            self.ending.used()
        }
    }

    /// Whether the function of a setter stands here.
    #[inline]
    fn is_setter(self) -> bool
        ensures { result ≡ is_setter self }
    {
        is_member(self.parent) && is_set(self.form) && self.place == 1
    }
}

/// Whether nodes of this kind may change more than the parent: functions, classes, `return`, `try`, what may be a sum, and declarations of
/// variables.
#[inline]
fn changes_around(kind: Kind) -> bool
    ensures { result ≡ changes_around kind }
{
    matches!(
        kind,
        Kind::ArrowFunctionExpression
            | Kind::BinaryExpression
            | Kind::ClassBody
            | Kind::ClassDeclaration
            | Kind::ClassExpression
            | Kind::FunctionDeclaration
            | Kind::FunctionExpression
            | Kind::ReturnStatement
            | Kind::TryStatement
            | Kind::VariableDeclaration
    )
}

/// Whether it is the kind of members that may be setters.
fn is_member(kind: Kind) -> bool
    ensures { result ≡ is_member kind }
{
    matches!(kind, Kind::Property | Kind::MethodDefinition)
}

/// Whether it is the form of a setter.
fn is_set(form: Form) -> bool
    ensures { result ≡ is_set form }
{
    matches!(form, Form::Set)
}

/// A remark, if that is true.
fn remark_if(is_so: bool, remark: Remark) -> Remark
    ensures { result ≡ cond is_so remark NoRemark }
{
    if is_so { remark } else { Remark::NoRemark }
}

/// Whether the value of the part at a place is that of its node, or the function's result.
#[inline]
fn hands_out(parent: Kind, place: usize) -> bool
    ensures { result ≡ hands_out parent place }
{
    match parent {
        Kind::ReturnStatement | Kind::ArrowFunctionExpression => true,
        Kind::ConditionalExpression => place != 0,
        Kind::LogicalExpression => place == 1,
        _ => false,
    }
}
