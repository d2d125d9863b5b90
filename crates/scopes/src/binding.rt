//! Bindings and references.

pub use crate::kind::BindingKind;

/// A name that a scope declares, with the first identifier that declares it there.
#[derive(Clone, Copy)]
pub struct Binding<'t> {
    pub name: &'t str,
    pub kind: BindingKind,
    /// Where the identifier begins and ends, in bytes.
    pub start: usize,
    pub end: usize,
    /// Of `let` and `const`: the declarator has an initializer, or stands in a for-in or for-of head; false in the head of a
    /// plain `for`. Of `var`: it has an initializer. False of all others.
    pub settled: bool,
    /// A scope further out declares the name too.
    pub shadows: bool,
    /// A declaration of the name stands in an export.
    pub exported: bool,
}

/// An identifier that stands for the value or the target of a name, declared in the script or not.
#[derive(Clone, Copy)]
pub struct Reference<'t> {
    pub name: &'t str,
    /// The number of the nearest scope round it.
    pub scope: usize,
    pub reads: bool,
    pub writes: bool,
    pub start: usize,
    pub end: usize,
    /// It is itself the operand of `typeof`, so it may be a name that nothing declares (12.5.5).
    pub typeof_operand: bool,
    /// It is itself the callee of a call (12.3.6), or of `new` (12.3.5).
    pub called: bool,
    pub constructed: bool,
    /// The binding of its name in the nearest scope that declares it, as the scope's number and the place among its bindings;
    /// none where no scope round it does.
    pub meaning: Option<(usize, usize)>,
}

/// What a scope declares, and which scope stands round it.
#[derive(Drop)]
pub(crate) struct Scope<'t> {
    pub(crate) parent: Option<usize>,
    pub(crate) bindings: Vec<Binding<'t>>,
    /// The declarations of names that the scope declares already, as they stand.
    pub(crate) redeclared: Vec<Binding<'t>>,
}
