//! The scopes of a script.

ghost use Rattle.std.specs.Prelude.{◌≡◌, IfOk};
ghost use Rattle.scopes.specs.Found.{found};

use crate::binding::{Binding, Reference, Scope};
use crate::identifier_use::IdentifierUse;
use crate::walk::{Context, Walk, walk_node};
use name_tables::{HashKey, NameTable};
use std::alloc::{AllocError, Global};
use std::marker::Model;
use tree::Program;

/// The scopes of a script, what each declares, and all references. Scopes have numbers from 0, in the order of the tree, outer
/// before inner: 0 is the script's. Contracts see the definition's value (`Found`).
#[derive(Drop)]
pub struct Scopes<'t> {
    scopes: Vec<Scope<'t>>,
    references: Vec<Reference<'t>>,
}

impl<'t> Model for Scopes<'t> {
    ghost use Rattle.scopes.specs.Found.{Found};
    ghost use Rattle.scopes.specs.Shown.{found_of};

    ghost Value = { Found };

    ghost view = { λ s. found_of s.scopes.items s.references.items };
}

/// Finds the scopes of a script, what they declare, and what its references mean. The only error is want of memory. Takes
/// time and memory in proportion to the script, as far as its names don't collide under the key that is drawn from them.
pub fn resolve<'t>(alloc: Global, program: &'t Program<'_>) -> Result<Scopes<'t>, AllocError>
    ensures { IfOk result (λ s. s ≡ found program.now) }
{
    let mut walk = Walk {
        alloc,
        scopes: Vec::new(alloc),
        references: Vec::new(alloc),
        meanings: NameTable::new(alloc, HashKey::drawn_from(program)),
        names: Vec::new(alloc),
    };
    let outside = Context {
        scope: None,
        in_function: false,
        role: IdentifierUse::Read,
    };
    walk_node(program.root(), outside, &mut walk)?;
    Ok(Scopes {
        scopes: walk.scopes,
        references: walk.references,
    })
}

impl<'t> Scopes<'t> {
    ghost use Rattle.std.specs.Prelude.{◌≡◌, ◌<◌, length, map, option_map, Some, slice_get};
    ghost use Rattle.scopes.specs.Shown.{all_shown, reference_shown};

    /// How many scopes there are.
    pub fn scope_count(&self) -> usize
        ensures { result ≡ length self.now.scopes }
    {
        self.scopes.len()
    }

    /// The number of the scope round a scope; none of the first, which is the script's.
    pub fn parent(&self, scope: usize) -> Option<usize>
        requires { scope < length self.now.scopes }
        ensures { Some result ≡ option_map (λ s. s.parent) (slice_get self.now.scopes scope) }
    {
        self.scopes[scope].parent
    }

    /// What a scope declares: a name once, in the order of the first identifiers.
    pub fn bindings(&self, scope: usize) -> &[Binding<'t>]
        requires { scope < length self.now.scopes }
        ensures { Some (all_shown result.now) ≡ option_map (λ s. s.bindings) (slice_get self.now.scopes scope) }
    {
        self.scopes[scope].bindings.as_slice()
    }

    /// The declarations of names that a scope declares already, in the order of the tree, each as it stands: a name that is declared
    /// three times stands here twice.
    pub fn redeclared(&self, scope: usize) -> &[Binding<'t>]
        requires { scope < length self.now.scopes }
        ensures { Some (all_shown result.now) ≡ option_map (λ s. s.redeclared) (slice_get self.now.scopes scope) }
    {
        self.scopes[scope].redeclared.as_slice()
    }

    /// All references, in the order of the tree.
    pub fn references(&self) -> &[Reference<'t>]
        ensures { map reference_shown result.now ≡ self.now.references }
    {
        self.references.as_slice()
    }

    /// The binding that a reference means: the number of the scope that declares it, and the place among that scope's bindings;
    /// none where no scope round it declares the name. Takes no search.
    pub fn binding_of(&self, reference: usize) -> Option<(usize, usize)>
        requires { reference < length self.now.references }
        ensures { Some result ≡ option_map (λ r. r.meaning) (slice_get self.now.references reference) }
    {
        self.references[reference].meaning
    }
}
