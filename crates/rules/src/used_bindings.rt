//! Which bindings references read, and which they write.

ghost use Rattle.std.specs.Prelude.{◌≡◌, ◌++◌, ◌∷◌, [], ◌||◌, ◌&&◌, ℕ, Bool, true, false, nat_eq, length, replicate, slice_set, IfOk, OnOk};
ghost use Rattle.scopes.specs.Shown.{reference_shown};
ghost use Rattle.rules.specs.Used.{Notes, binding_count, first_flag, flag_index, is_marked};
ghost use Rattle.rules.specs.Rules.{is_used, means, uses};

use scopes::{Reference, Scopes};
use std::alloc::{AllocError, Global};

/// The bindings of all scopes, a flag for each: whether references use it. The flags of a scope stand behind those of the
/// scopes before it.
#[derive(Drop)]
pub(crate) struct UsedBindings {
    /// For each scope, the index of its first flag.
    firsts: Vec<usize>,
    flags: Vec<bool>,
}

impl UsedBindings {
    /// No scopes, and so no bindings.
    pub(crate) fn new(alloc: Global) -> UsedBindings {
        UsedBindings {
            firsts: Vec::new(alloc),
            flags: Vec::new(alloc),
        }
    }

    /// Whether references use the binding at a place of a scope.
    pub(crate) fn contains(&self, scope: usize, place: usize) -> bool
        ensures { result ≡ is_marked self.now (scope, place) }
    {
        let index = self.first_flag(scope).saturating_add(place);
        if index < self.flags.len() {
            self.flags[index]
        } else {
            false
        }
    }

    /// The index of a scope's first flag; behind all flags where there is no such scope.
    fn first_flag(&self, scope: usize) -> usize
        ensures { result ≡ first_flag self.now scope }
    {
        if scope < self.firsts.len() {
            self.firsts[scope]
        } else {
            self.flags.len()
        }
    }

    /// Sets the flag of the binding at a place of a scope, if it has one.
    fn mark(&mut self, scope: usize, place: usize)
        ensures firsts { self.new.firsts.items ≡ self.old.firsts.items }
        ensures flags { self.new.flags.items ≡ slice_set self.old.flags.items (flag_index self.old (scope, place)) true }
    {
        let index = self.first_flag(scope).saturating_add(place);
        if index < self.flags.len() {
            self.flags[index] = true;
        }
    }

    /// Appends a scope of so many bindings, which nothing uses.
    fn push_scope(&mut self, count: usize) -> Result<(), AllocError>
        ensures firsts { OnOk result (self.new.firsts.items ≡ self.old.firsts.items ++ length self.old.flags.items ∷ []) }
        ensures flags { OnOk result (self.new.flags.items ≡ self.old.flags.items ++ replicate count false) }
    {
        self.firsts.push(self.flags.len())?;
        for _ in 0..count {
            self.flags.push(false)?;
        }
        Ok(())
    }
}

/// The bindings that references write, or those that they read.
pub(crate) fn used_by(
    alloc: Global,
    writes: bool,
    scopes: &Scopes,
) -> Result<UsedBindings, AllocError>
    ensures { IfOk result (λ u. Notes scopes.now.scopes (is_used writes scopes.now.references) u) }
{
    let mut used = none_used(alloc, scopes)?;
    for reference in scopes.references() {
        note(&mut used, scopes, writes, *reference);
    }
    Ok(used)
}

/// The bindings of all scopes, none of them used.
fn none_used(alloc: Global, scopes: &Scopes) -> Result<UsedBindings, AllocError>
    ensures { IfOk result (λ u. Notes scopes.now.scopes (λ m. false) u) }
{
    let mut used = UsedBindings {
        firsts: Vec::with_capacity(alloc, scopes.scope_count())?,
        flags: Vec::new(alloc),
    };
    for scope in 0..scopes.scope_count() {
        used.push_scope(scopes.bindings(scope).len())?;
    }
    Ok(used)
}

/// Notes what a reference means, if it writes that, or if it reads it.
fn note(used: &mut UsedBindings, scopes: &Scopes, writes: bool, reference: Reference)
    ensures { (p : ℕ × ℕ → Bool) → Notes scopes.now.scopes p used.old → Notes scopes.now.scopes (λ m. p m || (uses writes (reference_shown reference.entry) && means (reference_shown reference.entry) m)) used.new }
{
    if let Some((scope, place)) = reference.meaning {
        if uses(writes, reference) {
            note_binding(used, scopes, scope, place);
        }
    }
}

/// Notes the binding at a place of a scope, if there is one.
fn note_binding(used: &mut UsedBindings, scopes: &Scopes, scope: usize, place: usize)
    ensures { (p : ℕ × ℕ → Bool) → Notes scopes.now.scopes p used.old → Notes scopes.now.scopes (λ m. p m || (nat_eq scope m.0 && nat_eq place m.1)) used.new }
{
    if place < binding_count(scopes, scope) {
        used.mark(scope, place);
    }
}

/// How many bindings a scope has; none where there is no such scope.
fn binding_count(scopes: &Scopes, scope: usize) -> usize
    ensures { result ≡ binding_count scopes.now.scopes scope }
{
    if scope < scopes.scope_count() {
        scopes.bindings(scope).len()
    } else {
        0
    }
}

/// Whether a reference writes, or else whether it reads.
fn uses(writes: bool, reference: Reference) -> bool
    ensures { result ≡ uses writes (reference_shown reference.entry) }
{
    if writes {
        reference.writes
    } else {
        reference.reads
    }
}
