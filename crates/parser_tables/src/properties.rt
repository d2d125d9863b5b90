//! Properties of objects and members of classes (ECMA-262 12.2.6, 14.3, 14.6).
#![tactic(auto, using(crate::proofs::Refusals::refusals))]

ghost use Rattle.std.specs.Prelude.{◌≡◌, false};
ghost use Rattle.parser_tables.specs.Items.{property_item};
ghost use Rattle.parser_tables.specs.Methods.{member_flags, method_form, is_constructor};

use covers::{CoverShape, ListItem};
use language::Edge;
use productions::MeasuredNode;
use tokens::{Token, TokenClass, string_is};
use tree::{Flags, Form};

/// The flags of a property, or of a member.
pub fn property_flags(computed: bool, is_static: bool, form: Form) -> Flags
    ensures { result ≡ member_flags computed is_static form }
{
    let mut flags = Flags::PLAIN;
    flags.computed = computed;
    flags.is_static = is_static;
    flags.form = form;
    flags
}

/// A property of this shape.
pub fn property_item(node: MeasuredNode, shape: CoverShape) -> ListItem
    ensures { result ≡ property_item node shape }
{
    ListItem {
        node,
        shape,
        spreads: false,
        is_flagged: false,
        edge: Edge::Closed,
    }
}

/// Whether the value of a name or a string as a key is `constructor` (14.6); a number's is none.
pub fn is_constructor(key: &Token<'_>) -> bool
    ensures { result ≡ is_constructor key.now.class key.now.text.now }
{
    match key.class {
        TokenClass::IdentifierName => key.text == "constructor",
        TokenClass::StringLiteral => string_is(key.text, "constructor"),
        _ => false,
    }
}

/// The form of a method, getter or setter: a method that isn't static and whose name is `constructor` is the constructor (14.6). That it is a
/// generator or async is said of its function.
pub fn method_form(is_static: bool, form: Form, names_constructor: bool) -> Form
    ensures { result ≡ method_form is_static form names_constructor }
{
    match form {
        Form::Method if !is_static && names_constructor => Form::Constructor,
        Form::Generator | Form::Async | Form::AsyncGenerator => Form::Method,
        _ => form,
    }
}
