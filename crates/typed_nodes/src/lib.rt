#![tactic(auto)]

//! ESTree's fields of a node by name, for other programs: `Expression::of(node)` and its kin borrow one node.
//! - May touch: a node, how many parts it has and which are missing; not what its parts are. It takes no memory.
//! - Contract: a view shows what `specs/` says of its kind, and there is none exactly if the node lacks a part that it
//!   must have.
//! - Begin at: `expression.rt`, `Expression`; `arity.rt` says how many parts each kind has.

mod arity;
mod class_elements;
mod expression;
mod function;
mod module;
mod pattern;
mod pieces;
mod statement;

pub use class_elements::{PrivateIdentifier, PropertyDefinition, StaticBlock};
pub use expression::Expression;
pub use function::{Class, Function};
pub use module::{ModuleItem, Specifier};
pub use pattern::Pattern;
pub use pieces::{
    CatchClause, ClassBody, MethodDefinition, Property, SpreadElement, SwitchCase, TemplateElement,
    VariableDeclarator,
};
pub use statement::Statement;
