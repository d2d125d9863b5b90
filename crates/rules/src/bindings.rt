//! The rules that look at bindings: one walk over the scopes, each scope's bindings in order of their places.

ghost use Rattle.std.specs.Prelude.{◌≡◌, ◌≤◌, ◌+◌, ◌++◌, ◌&&◌, ◌∷◌, [], ℕ, Bool, List, codes, drop, length, nat_lt, true, OnOk};
ghost use Rattle.scopes.specs.Shown.{all_shown, shown};
ghost use Rattle.rule_words.specs.Appends.{Grows};
ghost use Rattle.scopes.specs.Bindings.{Binding as Declared};
ghost use Rattle.rules.specs.Used.{asks_writes, is_in, is_marked, looks_behind, of_binding};
ghost use Rattle.rules.specs.Rules.{is_param, is_used, of_bindings, of_scopes, reads_param};

use crate::no_shadow::push_shadow;
use crate::no_unused_vars::push_unused;
use crate::prefer_const::push_constant;
use crate::settings::Settings;
use crate::used_bindings::{UsedBindings, used_by};
use rule_words::{Report, push_report, quoted};
use scopes::{Binding, BindingKind, Scopes};
use std::alloc::{AllocError, Global};
use std::collections::BTreeSet;
use tree::Span;

/// A rule that looks at bindings.
#[derive(Clone, Copy)]
pub(crate) enum BindingRule {
    /// `no-shadow`.
    Shadow,
    /// `no-unused-vars`.
    Unused,
    /// `prefer-const`.
    Constant,
}

impl BindingRule {
    ghost use Rattle.std.specs.Prelude.{◌≡◌};
    ghost use Rattle.rules.specs.Used.{asks_writes, looks_behind};

    /// Whether it asks which bindings are written, and not which are read.
    fn asks_writes(self) -> bool
        ensures { result ≡ asks_writes self }
    {
        matches!(self, BindingRule::Constant)
    }

    /// Whether it looks at the parameters behind a binding.
    fn looks_behind(self, settings: &Settings) -> bool
        ensures { result ≡ looks_behind self settings.now }
    {
        matches!(self, BindingRule::Unused) && settings.options().params.is_after_used()
    }
}

/// A walk over bindings: the rule that reports, where reports take their memory from, the settings, and where the identifiers stand that
/// are left alone.
#[derive(Clone, Copy)]
pub(crate) struct BindingWalk<'u> {
    pub(crate) rule: BindingRule,
    pub(crate) alloc: Global,
    pub(crate) settings: &'u Settings,
    pub(crate) alone: &'u BTreeSet<usize>,
}

/// Appends a report of a binding: its name between quotes, and words behind it.
pub(crate) fn push_named(
    alloc: Global,
    rule: &str,
    binding: Binding,
    words: &str,
    out: &mut Vec<Report>,
) -> Result<(), AllocError>
    ensures found { OnOk result (out.new.items ≡ out.old.items ++ record { start = binding.entry.start; stop = binding.entry.end; rule = rule.now; text = codes "'" ++ (binding.entry.name.now ++ (codes "' " ++ words.now)) } ∷ []) }
    ensures kept { Grows out.old.items out.new.items }
{
    let text = quoted(alloc, binding.name, words)?;
    let span = Span {
        start: binding.start,
        end: binding.end,
    };
    push_report(alloc, rule, span, text, out)
}

/// Appends what a rule reports of a binding. `is_used`: references read it, or write it, as the rule asks. `is_behind`: they read a
/// parameter behind it, if the rule looks at those.
fn push_binding(
    walk: BindingWalk,
    is_used: bool,
    is_behind: bool,
    binding: Binding,
    out: &mut Vec<Report>,
) -> Result<(), AllocError>
    ensures found { (used : ℕ × ℕ → Bool) (m : ℕ × ℕ) (bs : List Declared) → used m ≡ is_used → (looks_behind walk.entry.rule walk.entry.settings.now ≡ true → reads_param used m.0 (m.1 + 1) bs ≡ is_behind) → OnOk result (out.new.items ≡ out.old.items ++ of_binding walk.entry.rule walk.entry.settings.now (is_in walk.entry.alone.now.keys) used m (shown binding.entry) bs) }
    ensures kept { Grows out.old.items out.new.items }
{
    match walk.rule {
        BindingRule::Shadow => push_shadow(walk, binding, out),
        BindingRule::Unused => push_unused(walk, is_used, is_behind, binding, out),
        BindingRule::Constant => push_constant(walk.alloc, is_used, binding, out),
    }
}

/// Whether a binding at a place of a scope is a parameter that references read.
fn is_read_param(used: &UsedBindings, scope: usize, index: usize, kind: BindingKind) -> bool
    ensures { result ≡ (is_param kind && is_marked used.now (scope, index)) }
{
    is_param(kind) && used.contains(scope, index)
}

/// Whether a binding of this kind is a parameter.
fn is_param(kind: BindingKind) -> bool
    ensures { result ≡ is_param kind }
{
    matches!(kind, BindingKind::Param)
}

/// The place behind the last parameter of a scope that references read, if the rule looks at those: 0 where there is none.
fn behind_params(
    walk: BindingWalk,
    used: &UsedBindings,
    scope: usize,
    bindings: &[Binding],
) -> usize
    ensures { looks_behind walk.entry.rule walk.entry.settings.now ≡ true → (i : ℕ) → i ≤ length bindings.now → reads_param (is_marked used.now) scope i (all_shown (drop i bindings.now)) ≡ nat_lt i result }
{
    if !walk.rule.looks_behind(walk.settings) {
        return 0;
    }
    let mut behind = 0usize;
    for index in 0..bindings.len() {
        if is_read_param(used, scope, index, bindings[index].kind) {
            behind = index + 1;
        }
    }
    behind
}

/// Appends what a rule reports of the bindings of a scope.
fn push_scope(
    walk: BindingWalk,
    used: &UsedBindings,
    scope: usize,
    bindings: &[Binding],
    out: &mut Vec<Report>,
) -> Result<(), AllocError>
    ensures found { OnOk result (out.new.items ≡ out.old.items ++ of_bindings (of_binding walk.entry.rule walk.entry.settings.now (is_in walk.entry.alone.now.keys) (is_marked used.now)) scope 0 (all_shown bindings.now)) }
    ensures kept { Grows out.old.items out.new.items }
{
    let behind = behind_params(walk, used, scope, bindings);
    for index in 0..bindings.len() {
        let is_used = used.contains(scope, index);
        let is_behind = index + 1 < behind;
        push_binding(walk, is_used, is_behind, bindings[index], out)?;
    }
    Ok(())
}

/// Appends what a rule reports of all bindings, by which of them references write, or read, as it asks.
pub(crate) fn push_by_use(
    walk: BindingWalk,
    scopes: &Scopes,
    out: &mut Vec<Report>,
) -> Result<(), AllocError>
    ensures found { (alone : ℕ → Bool) → ((at : ℕ) → is_in walk.entry.alone.now.keys at ≡ alone at) → OnOk result (out.new.items ≡ out.old.items ++ of_scopes (of_binding walk.entry.rule walk.entry.settings.now alone (is_used (asks_writes walk.entry.rule) scopes.now.references)) 0 scopes.now.scopes) }
    ensures kept { Grows out.old.items out.new.items }
{
    let used = used_by(walk.alloc, walk.rule.asks_writes(), scopes)?;
    push_bindings(walk, &used, scopes, out)
}

/// Appends what a rule reports of all bindings.
pub(crate) fn push_bindings(
    walk: BindingWalk,
    used: &UsedBindings,
    scopes: &Scopes,
    out: &mut Vec<Report>,
) -> Result<(), AllocError>
    ensures found { OnOk result (out.new.items ≡ out.old.items ++ of_scopes (of_binding walk.entry.rule walk.entry.settings.now (is_in walk.entry.alone.now.keys) (is_marked used.now)) 0 scopes.now.scopes) }
    ensures kept { Grows out.old.items out.new.items }
{
    for scope in 0..scopes.scope_count() {
        push_scope(walk, used, scope, scopes.bindings(scope), out)?;
    }
    Ok(())
}
