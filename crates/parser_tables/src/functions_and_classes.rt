//! Functions, arrow functions and classes (ECMA-262 14.1 to 14.3, 14.6).
#![tactic(auto, using(crate::proofs::Refusals::refusals))]

ghost use Rattle.std.specs.Prelude.{◌≡◌, map};
ghost use Rattle.parser_tables.specs.StatementSymbols.{piece_of, function_or_class_kind, function_or_class_flags, function_or_class_parts, may_be_nameless};

use crate::symbol_lists::{Symbol, class_symbols, function_symbols};
use covers::ListKind;
use tree::{Flags, Form, Kind};

/// What has a body: by the words before it, or by what the method is. The form of a function says whether it is a generator, and whether it is
/// async; that of a plain method, a getter or a setter is the method's.
#[derive(Clone, Copy, PartialEq, Eq)]
pub enum FunctionOrClass {
    /// Behind its words, perhaps with a name.
    Function(Form),
    /// Behind its words, with a name.
    FunctionDeclaration(Form),
    /// Behind `export default` and its words, perhaps with a name (16.2.3 of the 13th edition).
    DefaultFunction(Form),
    /// Of a method, getter or setter, from the `(` on.
    Method(Form),
    /// Behind `class`, perhaps with a name.
    Class,
    /// Behind `class`, with a name.
    ClassDeclaration,
    /// Behind `export default class`, perhaps with a name.
    DefaultClass,
}

impl FunctionOrClass {
    /// The kind of its node.
    pub fn kind(self) -> Kind
        ensures { result ≡ function_or_class_kind self }
    {
        match self {
            FunctionOrClass::Function(_) | FunctionOrClass::Method(_) => Kind::FunctionExpression,
            FunctionOrClass::FunctionDeclaration(_) | FunctionOrClass::DefaultFunction(_) => {
                Kind::FunctionDeclaration
            }
            FunctionOrClass::Class => Kind::ClassExpression,
            FunctionOrClass::ClassDeclaration | FunctionOrClass::DefaultClass => {
                Kind::ClassDeclaration
            }
        }
    }

    /// The flags of its node: its form, where that is one of a function.
    pub fn flags(self) -> Flags
        ensures { result ≡ function_or_class_flags self }
    {
        let mut flags = Flags::PLAIN;
        flags.form = match self {
            FunctionOrClass::Method(Form::Get | Form::Set | Form::Method) => Form::Init,
            FunctionOrClass::Function(form) | FunctionOrClass::Method(form) => form,
            FunctionOrClass::FunctionDeclaration(form) => form,
            FunctionOrClass::DefaultFunction(form) => form,
            _ => Form::Init,
        };
        flags
    }

    /// Whether its name may be missing.
    pub fn may_be_nameless(self) -> bool
        ensures { result ≡ may_be_nameless self }
    {
        matches!(
            self,
            FunctionOrClass::Function(_)
                | FunctionOrClass::Class
                | FunctionOrClass::DefaultFunction(_)
                | FunctionOrClass::DefaultClass
        )
    }

    /// Its pieces behind its name.
    pub fn symbols(self) -> &'static [Symbol]
        ensures { map piece_of result.now ≡ function_or_class_parts self }
    {
        match self {
            FunctionOrClass::Class
            | FunctionOrClass::ClassDeclaration
            | FunctionOrClass::DefaultClass => class_symbols(),
            FunctionOrClass::Method(Form::Get) => function_symbols(ListKind::NoParameter),
            FunctionOrClass::Method(Form::Set) => function_symbols(ListKind::OneParameter),
            _ => function_symbols(ListKind::Parameters),
        }
    }
}
