//! `no-unused-vars`: no names that nothing reads.

ghost use Rattle.std.specs.Prelude.{◌≡◌, ◌+◌, ◌++◌, ℕ, Bool, List, true, OnOk};
ghost use Rattle.scopes.specs.Bindings.{Binding as Declared};
ghost use Rattle.scopes.specs.Shown.{shown};
ghost use Rattle.rule_words.specs.Appends.{Grows};
ghost use Rattle.rules.specs.Rules.{begins_with_underscore, ignoring, is_for_reading, is_ignored, is_param_for_reading, is_unused, of_unused, reads_param};
ghost use Rattle.rules.specs.Used.{is_after_used, is_in};

use crate::bindings::{BindingRule, BindingWalk, push_by_use, push_named};
use crate::left_alone::left_alone;
use crate::name_lists::NameList;
use crate::rule::Rule;
use crate::rule_option::{CheckedParams, RuleOptions};
use crate::settings::Settings;
use crate::view::View;
use rule_words::Report;
use scopes::{Binding, BindingKind};
use std::alloc::{AllocError, Global};
use std::collections::BTreeSet;

/// Reports each binding by `var`, `let`, `const` or an import, each function and each class that no reference reads, at its
/// first declaring identifier, unless the module exports it; of parameters and of what `catch` binds those that the settings' `args` and
/// `caught-errors` ask for. Not reported are names that the settings ignore, the parameter of a setter, and by `ignore-rest-siblings`
/// properties beside a rest element.
///
/// Wrong: `let a = 1;`, `let a; a = 1;`, `function f() {}`, `const { a, b } = c; a;` (of `b`), and `(a, b) => a;` with `args = "after-used"`.
/// Right: `let a = 1; f(a);`, `let a = 1; a += 1;`, `function f(a) {} f();`, `try {} catch (e) {}`, `let _a;` with `ignore-underscore`,
/// and `(a, b) => b;` with `args = "after-used"`.
///
/// ESLint's rule doesn't count a read that only serves to write the same name (`a += 1`, `a++`) or that stands in the function itself.
/// Here every read counts. What settings ignore are names with at most a `*` at one end, and no regular expressions.
#[derive(Drop)]
pub struct NoUnusedVars {
    alloc: Global,
}

impl NoUnusedVars {
    /// What settings and reports call the rule.
    pub const NAME: &'static str = "no-unused-vars";

    /// The rule; its reports, and what it notes while it looks, take their memory from here.
    pub fn new(alloc: Global) -> NoUnusedVars {
        NoUnusedVars { alloc }
    }
}

impl Rule for NoUnusedVars {
    ghost use Rattle.std.specs.Prelude.{codes};
    ghost use Rattle.rules.specs.Rules.{no_unused_vars};
    ghost use Rattle.rules.specs.RuleViews.{seen};

    ghost called = { λ _. codes "no-unused-vars" };

    ghost finds = { λ _ v. no_unused_vars v };

    /// The rule's name, by which settings turn it off.
    fn name(&self) -> &str {
        NoUnusedVars::NAME
    }

    /// Adds what the rule finds.
    fn check(&self, view: &View, out: &mut Vec<Report>) -> Result<(), AllocError> {
        let Some(scopes) = view.scopes else {
            return Ok(());
        };
        let walk = BindingWalk {
            rule: BindingRule::Unused,
            alloc: self.alloc,
            settings: view.settings,
            alone: &left_alone(self.alloc, view.settings.options(), view.program)?,
        };
        push_by_use(walk, scopes, out)
    }
}

/// Appends a report of a binding that nothing reads, if it is there to be read. `is_behind`: a parameter behind it is read, where `args`
/// asks for that.
pub(crate) fn push_unused(
    walk: BindingWalk,
    is_read: bool,
    is_behind: bool,
    binding: Binding,
    out: &mut Vec<Report>,
) -> Result<(), AllocError>
    ensures found { (read : ℕ × ℕ → Bool) (m : ℕ × ℕ) (bs : List Declared) → read m ≡ is_read → (is_after_used walk.entry.settings.now.options.params ≡ true → reads_param read m.0 (m.1 + 1) bs ≡ is_behind) → OnOk result (out.new.items ≡ out.old.items ++ of_unused walk.entry.settings.now (is_in walk.entry.alone.now.keys) read m (shown binding.entry) bs) }
    ensures kept { Grows out.old.items out.new.items }
{
    if is_unused(walk, is_read, is_behind, binding) {
        push_named(
            walk.alloc,
            NoUnusedVars::NAME,
            binding,
            "is never read",
            out,
        )
    } else {
        Ok(())
    }
}

/// Whether a binding is to be reported.
fn is_unused(walk: BindingWalk, is_read: bool, is_behind: bool, binding: Binding) -> bool
    ensures { result ≡ is_unused walk.entry.settings.now (is_in walk.entry.alone.now.keys binding.entry.start) is_read is_behind (shown binding.entry) }
{
    is_for_reading(walk.settings.options(), is_behind, binding.kind)
        && !(is_read || binding.exported)
        && !(is_ignored(walk.settings, binding) || is_in(walk.alone, binding.start))
}

/// Whether an offset is one of these.
fn is_in(starts: &BTreeSet<usize>, start: usize) -> bool
    ensures { result ≡ is_in starts.now.keys start }
{
    starts.contains(&start)
}

/// Whether the settings say that a name may stay unread.
fn is_ignored(settings: &Settings, binding: Binding) -> bool
    ensures { result ≡ is_ignored settings.now (shown binding.entry) }
{
    (settings.options().ignore_underscore && begins_with_underscore(binding.name))
        || settings.is_listed(ignoring(binding.kind), binding.name)
}

/// The list of the names of a kind that are ignored.
fn ignoring(kind: BindingKind) -> NameList
    ensures { result ≡ ignoring kind }
{
    match kind {
        BindingKind::Param => NameList::ArgsIgnore,
        BindingKind::Catch => NameList::CaughtErrorsIgnore,
        _ => NameList::VarsIgnore,
    }
}

/// Whether a binding of this kind is there to be read; a function's own name needn't be.
fn is_for_reading(options: RuleOptions, is_behind: bool, kind: BindingKind) -> bool
    ensures { result ≡ is_for_reading options is_behind kind }
{
    match kind {
        BindingKind::Param => is_param_for_reading(options.params, is_behind),
        BindingKind::Catch => options.caught_errors,
        BindingKind::FunctionName | BindingKind::ClassName => false,
        _ => true,
    }
}

/// Whether a parameter is there to be read.
fn is_param_for_reading(params: CheckedParams, is_behind: bool) -> bool
    ensures { result ≡ is_param_for_reading params is_behind }
{
    match params {
        CheckedParams::NoParams => false,
        CheckedParams::AfterUsed => !is_behind,
        CheckedParams::AllParams => true,
    }
}

/// Whether the name begins with `_`.
fn begins_with_underscore(name: &str) -> bool
    ensures { result ≡ begins_with_underscore name.now }
{
    match name.as_bytes().first() {
        Some(first) => *first == 95,
        None => false,
    }
}
