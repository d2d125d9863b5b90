//! What stands round the parts of arrow functions, classes, properties and members.

ghost use Rattle.std.specs.Prelude.{◌≡◌};
ghost use Rattle.tree.specs.Node.{node_tree};
ghost use Rattle.tree.specs.Tree.{parts_of};
ghost use Rattle.printer.specs.Bits.{shape_of, fused_shape};
ghost use Rattle.printer.specs.Shapes.{arrow_shape, is_single as is_single_arrow, class_shape, property_shape, class_member_shape, value_shape, getter_shape, setter_shape, plain_shape, static_shape, method_form_shape, static_form_shape, field_shape};
ghost use Rattle.language.specs.Expressions.{value_form};

use crate::fragments::{Fragment, Frame, asking_frame, front_frame, list_frame};
use crate::shared_fragments::{BRACKET, COLON, END_BRACKET, OPEN, SEMICOLON};
use tree::{Flags, Form, Kind, Node};

/// `class `.
const CLASS: &[Fragment] = &[Fragment::Token("class ")];

/// ` => `.
const ARROW: &[Fragment] = &[Fragment::Token(" => ")];

/// `extends `, in a class without a name.
const EXTENDS: &[Fragment] = &[Fragment::Token("extends ")];

/// ` extends `, after a class's name.
const SPACE_EXTENDS: &[Fragment] = &[Fragment::Token(" extends ")];

/// `get `.
const GET: &[Fragment] = &[Fragment::Token("get ")];

/// `set `.
const SET: &[Fragment] = &[Fragment::Token("set ")];

/// `static `.
const STATIC: &[Fragment] = &[Fragment::Token("static ")];

/// `static [`, before a computed key.
const STATIC_BRACKET: &[Fragment] = &[Fragment::Token("static [")];

/// `static get `.
const STATIC_GET: &[Fragment] = &[Fragment::Token("static get ")];

/// `static get [`, before a computed key.
const STATIC_GET_BRACKET: &[Fragment] = &[Fragment::Token("static get [")];

/// `static set `.
const STATIC_SET: &[Fragment] = &[Fragment::Token("static set ")];

/// `static set [`, before a computed key.
const STATIC_SET_BRACKET: &[Fragment] = &[Fragment::Token("static set [")];

/// Before a method's function, these characters and a plain key; or a key in brackets.
macro_rules! method_frame {
    ($words:expr) => {
        asking_frame!(KeyAndMethod, &[&[Fragment::Token($words)], &[]])
    };
    ($words:expr, computed) => {
        asking_frame!(KeyAndMethod, &[&[Fragment::Token($words)], END_BRACKET])
    };
}

/// A field behind these pieces, and these behind its key.
macro_rules! field_frame {
    ($front:expr, $behind:expr) => {
        front_frame!(&[$front, $behind], SEMICOLON)
    };
}

/// ` = `.
const EQUALS: &[Fragment] = &[Fragment::Token(" = ")];

/// `] = `, after a computed key.
const BRACKET_EQUALS: &[Fragment] = &[Fragment::Token("] = ")];

/// The frame of an arrow function whose one parameter is a name, without parentheses.
static NAMED_ARROW: Frame = front_frame!(&[&[], ARROW], &[]);

/// The frame of an arrow function with its parameters in parentheses.
static LISTED_ARROW: Frame = list_frame!(OPEN, ArrowParameters, &[]);

/// The frame of an async arrow function whose one parameter is a name.
static NAMED_ASYNC_ARROW: Frame = front_frame!(&[&[Fragment::Token("async ")], ARROW], &[]);

/// The frame of an async arrow function with its parameters in parentheses.
static LISTED_ASYNC_ARROW: Frame = list_frame!(&[Fragment::Token("async (")], ArrowParameters, &[]);

/// The frames of generator, async and async generator methods, with a plain key and with a computed one.
static GENERATOR: Frame = method_frame!("*");

static COMPUTED_GENERATOR: Frame = method_frame!("*[", computed);

static ASYNC: Frame = method_frame!("async ");

static COMPUTED_ASYNC: Frame = method_frame!("async [", computed);

static ASYNC_GENERATOR: Frame = method_frame!("async *");

static COMPUTED_ASYNC_GENERATOR: Frame = method_frame!("async *[", computed);

/// The frames of static methods.
static STATIC_GENERATOR: Frame = method_frame!("static *");

static COMPUTED_STATIC_GENERATOR: Frame = method_frame!("static *[", computed);

static STATIC_ASYNC: Frame = method_frame!("static async ");

static COMPUTED_STATIC_ASYNC: Frame = method_frame!("static async [", computed);

static STATIC_ASYNC_GENERATOR: Frame = method_frame!("static async *");

static COMPUTED_STATIC_ASYNC_GENERATOR: Frame = method_frame!("static async *[", computed);

/// The frames of fields without a value: by whether they are static, and whether the key is computed.
static FIELD: Frame = field_frame!(&[], &[]);

static COMPUTED_FIELD: Frame = field_frame!(BRACKET, END_BRACKET);

static STATIC_FIELD: Frame = field_frame!(STATIC, &[]);

static COMPUTED_STATIC_FIELD: Frame = field_frame!(STATIC_BRACKET, END_BRACKET);

/// The frames of fields with a value.
static FIELD_VALUE: Frame = field_frame!(&[], EQUALS);

static COMPUTED_FIELD_VALUE: Frame = field_frame!(BRACKET, BRACKET_EQUALS);

static STATIC_FIELD_VALUE: Frame = field_frame!(STATIC, EQUALS);

static COMPUTED_STATIC_FIELD_VALUE: Frame = field_frame!(STATIC_BRACKET, BRACKET_EQUALS);

/// The frame of a class with a name and a superclass.
static NAMED_SUBCLASS: Frame = front_frame!(&[CLASS, SPACE_EXTENDS, &[Fragment::Space]], &[]);

/// The frame of a class with a name and no superclass.
static NAMED_CLASS: Frame = front_frame!(&[CLASS, &[Fragment::Space], &[]], &[]);

/// The frame of a class with a superclass and no name.
static SUBCLASS: Frame = front_frame!(&[CLASS, EXTENDS, &[Fragment::Space]], &[]);

/// The frame of a class without a name and without a superclass.
static BARE_CLASS: Frame = front_frame!(&[CLASS, &[], &[]], &[]);

/// The frame of a shorthand property: its key is written as its value.
static SHORTHAND: Frame = asking_frame!(ShorthandPair, &[&[], &[]]);

/// The frame of a property with a plain key and a value.
static VALUE: Frame = front_frame!(&[&[], COLON], &[]);

/// The frame of a property with a computed key and a value.
static COMPUTED_VALUE: Frame = front_frame!(
    &[&[Fragment::Token("[")], &[Fragment::Token("]: ")],],
    &[]
);

/// The frame of a getter with a plain key.
static GETTER: Frame = asking_frame!(KeyAndMethod, &[GET, &[]]);

/// The frame of a getter with a computed key.
static COMPUTED_GETTER: Frame = asking_frame!(
    KeyAndMethod,
    &[&[Fragment::Token("get [")], END_BRACKET,]
);

/// The frame of a setter with a plain key.
static SETTER: Frame = asking_frame!(KeyAndMethod, &[SET, &[]]);

/// The frame of a setter with a computed key.
static COMPUTED_SETTER: Frame = asking_frame!(
    KeyAndMethod,
    &[&[Fragment::Token("set [")], END_BRACKET,]
);

/// The frame of a method with a plain key.
static PLAIN: Frame = asking_frame!(KeyAndMethod, &[&[], &[]]);

/// The frame of a method with a computed key.
static COMPUTED: Frame = asking_frame!(KeyAndMethod, &[&[Fragment::Token("[")], END_BRACKET]);

/// The frame of a static getter with a plain key.
static STATIC_GETTER: Frame = asking_frame!(KeyAndMethod, &[STATIC_GET, &[]]);

/// The frame of a static getter with a computed key.
static COMPUTED_STATIC_GETTER: Frame = asking_frame!(
    KeyAndMethod,
    &[STATIC_GET_BRACKET, END_BRACKET]
);

/// The frame of a static setter with a plain key.
static STATIC_SETTER: Frame = asking_frame!(KeyAndMethod, &[STATIC_SET, &[]]);

/// The frame of a static setter with a computed key.
static COMPUTED_STATIC_SETTER: Frame = asking_frame!(
    KeyAndMethod,
    &[STATIC_SET_BRACKET, END_BRACKET]
);

/// The frame of a static method with a plain key.
static STATIC_METHOD: Frame = asking_frame!(KeyAndMethod, &[STATIC, &[]]);

/// The frame of a static method with a computed key.
static COMPUTED_STATIC_METHOD: Frame = asking_frame!(KeyAndMethod, &[STATIC_BRACKET, END_BRACKET]);

/// The frame of an arrow function; `single` if its one parameter is a name.
pub(crate) fn arrow_frame(is_async: bool, single: bool) -> &'static Frame
    ensures { shape_of result.now ≡ fused_shape (arrow_shape is_async single) }
{
    match (is_async, single) {
        (false, true) => &NAMED_ARROW,
        (false, false) => &LISTED_ARROW,
        (true, true) => &NAMED_ASYNC_ARROW,
        (true, false) => &LISTED_ASYNC_ARROW,
    }
}

/// Whether an arrow has one parameter, which is a name.
pub(crate) fn is_single(node: Node) -> bool
    ensures { result ≡ is_single_arrow (parts_of (node_tree node.entry)) }
{
    if node.part_count() != 2 {
        return false;
    }
    match (node.part(0), node.part(1)) {
        (Some(part), Some(_)) => part.kind() == Kind::Identifier,
        _ => false,
    }
}

/// A class, by whether it has a name and a heritage.
pub(crate) fn class_frame(named: bool, extends: bool) -> &'static Frame
    ensures { shape_of result.now ≡ fused_shape (class_shape named extends) }
{
    match (named, extends) {
        (true, true) => &NAMED_SUBCLASS,
        (true, false) => &NAMED_CLASS,
        (false, true) => &SUBCLASS,
        (false, false) => &BARE_CLASS,
    }
}

/// The frame of an object's property, by its form, that of its value, and whether its key is computed.
pub(crate) fn property_frame(flags: Flags, value: Form) -> &'static Frame
    ensures { shape_of result.now ≡ fused_shape (property_shape flags.form value flags.computed) }
{
    match flags.form {
        Form::Get => getter_frame(flags.computed),
        Form::Set => setter_frame(flags.computed),
        Form::Method => method_frame(value, flags.computed),
        Form::Constructor => plain_frame(flags.computed),
        Form::Shorthand => &SHORTHAND,
        Form::Init | Form::Generator | Form::Async | Form::AsyncGenerator => {
            value_frame(flags.computed)
        }
    }
}

/// The frame of a class's method, by its form, that of its function, whether it is static and whether its key is computed.
pub(crate) fn class_member_frame(flags: Flags, function: Form) -> &'static Frame
    ensures { shape_of result.now ≡ fused_shape (class_member_shape flags.is_static flags.form function flags.computed) }
{
    match (flags.is_static, flags.form) {
        (false, Form::Get) => getter_frame(flags.computed),
        (false, Form::Set) => setter_frame(flags.computed),
        (false, _) => method_frame(function, flags.computed),
        (true, form) => static_frame(form, function, flags.computed),
    }
}

/// A key and its value.
fn value_frame(computed: bool) -> &'static Frame
    ensures { shape_of result.now ≡ fused_shape (value_shape computed) }
{
    if computed { &COMPUTED_VALUE } else { &VALUE }
}

/// The frame of a getter that isn't static.
fn getter_frame(computed: bool) -> &'static Frame
    ensures { shape_of result.now ≡ fused_shape (getter_shape computed) }
{
    if computed { &COMPUTED_GETTER } else { &GETTER }
}

/// The frame of a setter that isn't static.
fn setter_frame(computed: bool) -> &'static Frame
    ensures { shape_of result.now ≡ fused_shape (setter_shape computed) }
{
    if computed { &COMPUTED_SETTER } else { &SETTER }
}

/// The frame of a method that isn't static.
fn plain_frame(computed: bool) -> &'static Frame
    ensures { shape_of result.now ≡ fused_shape (plain_shape computed) }
{
    if computed { &COMPUTED } else { &PLAIN }
}

/// The frame of a method that isn't static, by the form of its function.
fn method_frame(function: Form, computed: bool) -> &'static Frame
    ensures { shape_of result.now ≡ fused_shape (method_form_shape function computed) }
{
    match (function, computed) {
        (Form::Generator, false) => &GENERATOR,
        (Form::Generator, true) => &COMPUTED_GENERATOR,
        (Form::Async, false) => &ASYNC,
        (Form::Async, true) => &COMPUTED_ASYNC,
        (Form::AsyncGenerator, false) => &ASYNC_GENERATOR,
        (Form::AsyncGenerator, true) => &COMPUTED_ASYNC_GENERATOR,
        (_, computed) => plain_frame(computed),
    }
}

/// The frame of a static method.
fn static_method_frame(function: Form, computed: bool) -> &'static Frame
    ensures { shape_of result.now ≡ fused_shape (static_form_shape function computed) }
{
    match (function, computed) {
        (Form::Generator, false) => &STATIC_GENERATOR,
        (Form::Generator, true) => &COMPUTED_STATIC_GENERATOR,
        (Form::Async, false) => &STATIC_ASYNC,
        (Form::Async, true) => &COMPUTED_STATIC_ASYNC,
        (Form::AsyncGenerator, false) => &STATIC_ASYNC_GENERATOR,
        (Form::AsyncGenerator, true) => &COMPUTED_STATIC_ASYNC_GENERATOR,
        (_, false) => &STATIC_METHOD,
        (_, true) => &COMPUTED_STATIC_METHOD,
    }
}

/// The frame of a field, by whether it is static, whether its key is computed, and whether it has a value.
pub(crate) fn field_frame(flags: Flags, has_value: bool) -> &'static Frame
    ensures { shape_of result.now ≡ fused_shape (field_shape flags.is_static flags.computed has_value) }
{
    match (flags.is_static, flags.computed, has_value) {
        (false, false, false) => &FIELD,
        (false, true, false) => &COMPUTED_FIELD,
        (true, false, false) => &STATIC_FIELD,
        (true, true, false) => &COMPUTED_STATIC_FIELD,
        (false, false, true) => &FIELD_VALUE,
        (false, true, true) => &COMPUTED_FIELD_VALUE,
        (true, false, true) => &STATIC_FIELD_VALUE,
        (true, true, true) => &COMPUTED_STATIC_FIELD_VALUE,
    }
}

/// The frame of a static member, by its form, that of its function, and whether its key is computed.
fn static_frame(form: Form, function: Form, computed: bool) -> &'static Frame
    ensures { shape_of result.now ≡ fused_shape (static_shape form function computed) }
{
    match (form, computed) {
        (Form::Get, false) => &STATIC_GETTER,
        (Form::Get, true) => &COMPUTED_STATIC_GETTER,
        (Form::Set, false) => &STATIC_SETTER,
        (Form::Set, true) => &COMPUTED_STATIC_SETTER,
        (_, computed) => static_method_frame(function, computed),
    }
}
