//! What holds round a node, and how it comes down to the node's parts.

ghost use Rattle.std.specs.Prelude.{◌≡◌, false, None};
ghost use Rattle.tree.specs.Node.{node_tree};
ghost use Rattle.tree.specs.Uses.{is_async, is_generator};
ghost use Rattle.tree.specs.Tree.{flags_of, kind_of, parts_of};
ghost use Rattle.language.specs.FirstPart.{others};
ghost use Rattle.early_errors.specs.Owns.{first_beside, first_part, inner_beside, round};
ghost use Rattle.early_errors.specs.Around.{around_first, around_others, has_heritage, is_accessor, is_constructor, is_method, is_parameter};

use crate::literals::{both, either};
use tree::{Flags, Form, Kind, Node};

/// What holds round a node, but for its labels, the language, and the private names of classes. It stays within two words, so that
/// it is handed on in registers.
#[derive(Clone, Copy)]
pub(crate) struct Context {
    pub(crate) in_loop: bool,
    pub(crate) in_switch: bool,
    pub(crate) super_property: bool,
    pub(crate) super_call: bool,
    pub(crate) new_target: bool,
    pub(crate) derived: bool,
    pub(crate) tagged: bool,
    pub(crate) is_body: bool,
    pub(crate) in_head: bool,
    pub(crate) of_method: bool,
    /// It is the name of a property or a label.
    pub(crate) is_word: bool,
    /// It stands in the value of a field or in a static block, arrows in it included.
    pub(crate) no_arguments: bool,
    /// The form of the nearest function, where that is a generator or async.
    pub(crate) function_form: Form,
    /// The form of the function whose body the node stands in; at the top of a module as of an async one.
    pub(crate) body_form: Form,
    /// Of a label's statement: whether it is a loop, further labels aside, where that is known.
    pub(crate) labels_loop: Option<bool>,
}

/// Whether the form is that of a getter or a setter.
pub(crate) fn is_accessor(form: Form) -> bool
    ensures { result ≡ is_accessor form }
{
    match form {
        Form::Get | Form::Set => true,
        _ => false,
    }
}

/// Whether the form is that of a constructor.
pub(crate) fn is_constructor(form: Form) -> bool
    ensures { result ≡ is_constructor form }
{
    match form {
        Form::Constructor => true,
        _ => false,
    }
}

/// Whether the form is that of a method, a getter or a setter.
pub(crate) fn is_method(form: Form) -> bool
    ensures { result ≡ is_method form }
{
    match form {
        Form::Method | Form::Get | Form::Set => true,
        _ => false,
    }
}

/// The form of an arrow function, which is no generator.
fn arrow_form(form: Form) -> Form
    ensures asynchronous { is_async result ≡ is_async form }
    ensures no_generator { is_generator result ≡ false }
{
    if form.is_async() {
        Form::Async
    } else {
        Form::Init
    }
}

/// Whether a part of a function is a parameter, by its kind.
fn is_parameter(kind: Kind) -> bool
    ensures { result ≡ is_parameter kind }
{
    match kind {
        Kind::Identifier
        | Kind::ArrayPattern
        | Kind::ObjectPattern
        | Kind::AssignmentPattern
        | Kind::RestElement => true,
        _ => false,
    }
}

impl Context {
    ghost use Rattle.std.specs.Prelude.{◌≡◌, ◌||◌, ◌&&◌, true, None};
    ghost use Rattle.language.specs.FirstPart.{others};
    ghost use Rattle.early_errors.specs.Around.{around_first, around_others, as_word, has_heritage, in_init, in_method, key_of, settled, within};
    ghost use Rattle.early_errors.specs.Owns.{Beside, first_beside, inner_beside, round, unlabelled};
    ghost use Rattle.early_errors.specs.Passed.{IsHandedOn};
    ghost use Rattle.tree.specs.declared.kind.Kind.{Kind};
    ghost use Rattle.tree.specs.declared.kind.Kind.TheVariants.{ArrowFunctionExpression, FunctionExpression, Property};

    /// Round the Program of a script, and round what is new: a function, a method or an initializer.
    pub(crate) const OUTSIDE: Context = Context {
        in_loop: false,
        in_switch: false,
        super_property: false,
        super_call: false,
        new_target: false,
        derived: false,
        tagged: false,
        is_body: false,
        in_head: false,
        of_method: false,
        is_word: false,
        no_arguments: false,
        function_form: Form::Init,
        body_form: Form::Init,
        labels_loop: None,
    };

    /// What holds at a node of this kind, which may be the body of a function.
    #[inline(always)]
    pub(crate) fn settled(self, kind: Kind) -> Context
        ensures round { (r : Beside) → round result r ≡ settled (round self r) kind }
        ensures labels { result.labels_loop ≡ self.labels_loop }
        ensures again { (r : Beside) → settled (round result r) kind ≡ round result r }
    {
        if !self.is_body {
            return self;
        }
        self.in_body(kind)
    }

    /// The context in a part of a function.
    fn in_body(self, kind: Kind) -> Context
        requires { self.is_body ≡ true }
        ensures round { (r : Beside) → round result r ≡ settled (round self r) kind }
        ensures labels { result.labels_loop ≡ self.labels_loop }
        ensures again { (r : Beside) → settled (round result r) kind ≡ round result r }
    {
        if is_parameter(kind) {
            return self;
        }
        Context {
            body_form: self.function_form,
            ..self
        }
    }

    /// Round a part that is nothing special to its node.
    pub(crate) fn within(self) -> Context
        ensures around { (r : Beside) → round result r ≡ within (round self r) }
        ensures handed_on { IsHandedOn result }
        ensures arguments { result.no_arguments ≡ self.no_arguments }
        ensures unknown { result.labels_loop ≡ None }
    {
        Context {
            derived: false,
            tagged: false,
            is_body: false,
            in_head: false,
            of_method: false,
            is_word: false,
            labels_loop: None,
            ..self
        }
    }

    /// Round the name of a property or a label.
    fn as_word(self) -> Context
        ensures around { (r : Beside) → round result r ≡ as_word (round self r) }
        ensures unknown { result.labels_loop ≡ None }
    {
        Context {
            is_word: true,
            ..self.within()
        }
    }

    /// Round a key.
    fn key_of(self, computed: bool) -> Context
        ensures around { (r : Beside) → round result r ≡ key_of (round self r) computed }
        ensures unknown { result.labels_loop ≡ None }
    {
        if computed {
            self.within()
        } else {
            self.as_word()
        }
    }

    /// Whether a `break` without label may stand here.
    pub(crate) fn may_break(self) -> bool
        ensures { result ≡ (self.in_loop || self.in_switch) }
    {
        self.in_loop || self.in_switch
    }

    /// What holds inside a method, where `super` has properties; `calls` if it may be called too.
    fn in_method(calls: bool) -> Context
        ensures around { (r : Beside) → (a : Context) → round result (unlabelled r) ≡ in_method (round a r) calls }
        ensures unknown { result.labels_loop ≡ None }
    {
        Context {
            super_property: true,
            super_call: calls,
            of_method: true,
            ..Context::OUTSIDE
        }
    }

    /// What holds inside the value of a field, or a static block.
    fn in_init() -> Context
        ensures around { (r : Beside) → (a : Context) → round result (unlabelled r) ≡ in_init (round a r) }
        ensures unknown { result.labels_loop ≡ None }
    {
        Context {
            super_property: true,
            new_target: true,
            no_arguments: true,
            ..Context::OUTSIDE
        }
    }

    /// What holds inside a FunctionExpression of this form, which may be the function of a method.
    fn in_function_expression(self, form: Form) -> Context
        ensures around { (r : Beside) → (g : _) → (ps : _) → g.form ≡ form → round result (unlabelled r) ≡ around_others (round self r) FunctionExpression g ps }
        ensures unknown { result.labels_loop ≡ None }
    {
        Context {
            function_form: form,
            super_property: both(self.of_method, self.super_property),
            super_call: both(self.of_method, self.super_call),
            new_target: true,
            is_body: true,
            ..Context::OUTSIDE
        }
    }

    /// What holds inside an arrow function of this form: what holds outside, but without loops and switches, `yield` and `await`.
    fn in_arrow(self, form: Form) -> Context
        ensures around { (r : Beside) → (g : _) → (ps : _) → g.form ≡ form → round result (unlabelled r) ≡ around_others (round self r) ArrowFunctionExpression g ps }
        ensures unknown { result.labels_loop ≡ None }
    {
        Context {
            in_loop: false,
            in_switch: false,
            is_body: true,
            function_form: arrow_form(form),
            body_form: Form::Init,
            ..self.within()
        }
    }

    /// What holds inside a property of an object, by its form.
    fn in_property(self, form: Form) -> Context
        ensures around { (r : Beside) → (g : _) → (ps : _) → g.form ≡ form → round result (inner_beside Property g ps r) ≡ around_others (round self r) Property g ps }
        ensures unknown { result.labels_loop ≡ None }
    {
        if is_method(form) {
            Context::in_method(false)
        } else {
            self.within()
        }
    }

    /// Round the first part of a node of a kind, by what holds round the others; `computed` if that is a key in brackets.
    fn first(self, kind: Kind, computed: bool, others: Context) -> Context
        requires { others.labels_loop ≡ None }
        ensures around { (r : Beside) → (g : _) → (ps : _) → g.computed ≡ computed → round others (inner_beside kind g ps r) ≡ around_others (round self r) kind g ps → round result (first_beside kind g ps r) ≡ around_first (round self r) kind g ps }
        ensures unknown { result.labels_loop ≡ None }
    {
        match first_part(kind) {
            FirstPart::Plain => self.within(),
            FirstPart::Word => self.as_word(),
            FirstPart::Key => self.key_of(computed),
            FirstPart::Head => Context {
                in_head: true,
                ..self.within()
            },
            FirstPart::LikeOthers => others,
        }
    }

    /// Round the parts behind the first of a node of a kind, by its flags and whether it has a second part.
    fn others(self, kind: Kind, flags: Flags, has_second: bool) -> Context
        ensures around { (r : Beside) → (ps : _) → has_heritage (others ps) ≡ has_second → round result (inner_beside kind flags ps r) ≡ around_others (round self r) kind flags ps }
        ensures unknown { result.labels_loop ≡ None }
    {
        let form = flags.form;
        match kind {
            Kind::FunctionDeclaration => Context {
                new_target: true,
                is_body: true,
                function_form: form,
                ..Context::OUTSIDE
            },
            Kind::FunctionExpression => self.in_function_expression(form),
            Kind::ArrowFunctionExpression => self.in_arrow(form),
            Kind::MethodDefinition => {
                Context::in_method(both(self.derived, is_constructor(form)))
            }
            Kind::PropertyDefinition | Kind::StaticBlock => Context::in_init(),
            Kind::Property => self.in_property(form),
            Kind::MemberExpression => self.key_of(flags.computed),
            Kind::ClassExpression | Kind::ClassDeclaration => Context {
                derived: has_second,
                ..self.within()
            },
            Kind::ClassBody => Context {
                derived: self.derived,
                ..self.within()
            },
            Kind::SwitchStatement => Context {
                in_switch: true,
                ..self.within()
            },
            Kind::TaggedTemplateExpression => Context {
                tagged: true,
                ..self.within()
            },
            kind => Context {
                in_loop: either(self.in_loop, kind.is_loop()),
                ..self.within()
            },
        }
    }
}

/// How the first part stands to its node.
#[derive(Clone, Copy)]
pub(crate) enum FirstPart {
    Plain,
    /// A name that is no reference.
    Word,
    /// A key, which is a word unless it is computed.
    Key,
    Head,
    LikeOthers,
}

/// How the first part of a node of this kind stands to it.
fn first_part(kind: Kind) -> FirstPart
    ensures { result ≡ first_part kind }
{
    match kind {
        Kind::MethodDefinition | Kind::PropertyDefinition | Kind::Property => FirstPart::Key,
        Kind::MemberExpression | Kind::TaggedTemplateExpression => FirstPart::Plain,
        Kind::LabeledStatement | Kind::BreakStatement | Kind::ContinueStatement => FirstPart::Word,
        Kind::ForInStatement | Kind::ForOfStatement => FirstPart::Head,
        _ => FirstPart::LikeOthers,
    }
}

/// What holds round the first part of a node, and round the others.
#[derive(Clone, Copy)]
pub(crate) struct PartContexts {
    pub(crate) first: Context,
    pub(crate) others: Context,
}

/// What holds round a node's parts.
pub(crate) fn contexts_of(node: Node, around: Context) -> PartContexts
    ensures first { (r : _) → round result.first (first_beside (kind_of (node_tree node.entry)) (flags_of (node_tree node.entry)) (parts_of (node_tree node.entry)) r) ≡ around_first (round around r) (kind_of (node_tree node.entry)) (flags_of (node_tree node.entry)) (parts_of (node_tree node.entry)) }
    ensures others { (r : _) → round result.others (inner_beside (kind_of (node_tree node.entry)) (flags_of (node_tree node.entry)) (parts_of (node_tree node.entry)) r) ≡ around_others (round around r) (kind_of (node_tree node.entry)) (flags_of (node_tree node.entry)) (parts_of (node_tree node.entry)) }
    ensures first_unknown { result.first.labels_loop ≡ None }
    ensures others_unknown { result.others.labels_loop ≡ None }
{
    let kind = node.kind();
    let flags = node.flags();
    let others = around.others(kind, flags, has_second(node));
    PartContexts {
        first: around.first(kind, flags.computed, others),
        others,
    }
}

/// Whether the node has a second part; for a class, a superclass.
fn has_second(node: Node) -> bool
    ensures { has_heritage (others (parts_of (node_tree node.entry))) ≡ result }
{
    node.part(1).is_some()
}
