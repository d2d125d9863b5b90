//! One pass over references and declarations, for any list of rules.

ghost use Rattle.std.specs.Prelude.{◌≡◌, ◌++◌, ◌∷◌, [], codes, map, option_map, slice_get, OnOk};
ghost use Rattle.scopes.specs.Shown.{all_shown, reference_shown, shown};
ghost use Rattle.rule_words.specs.Appends.{Grows};
ghost use Rattle.reference_rules.specs.Found.{by_declaration, by_reference, each, found_by_rules, meant, named, over_declarations, over_references, over_scope, over_scopes, standing_in};

use crate::reference_rule::{
    Profile, ReferenceRule, Standing, is_silent, of_declaration, of_reference, words,
    words_declared,
};
use rule_words::{Report, push_report, quoted};
use scopes::{Binding, Reference, Scopes};
use std::alloc::{AllocError, Global};
use tree::Span;

/// A pass: the rules that report, what they ask of the language, and where reports take their memory from.
#[derive(Clone, Copy)]
struct Pass<'r> {
    profile: Profile,
    rules: &'r [ReferenceRule],
    alloc: Global,
}

/// Appends what rules report of the names of a script.
///
/// # Errors
///
/// `AllocError` where memory is refused: then what stood in `out` still stands in front, perhaps with some reports behind it.
pub fn push_found(
    alloc: Global,
    profile: Profile,
    rules: &[ReferenceRule],
    scopes: &Scopes,
    out: &mut Vec<Report>,
) -> Result<(), AllocError>
    ensures found { OnOk result (out.new.items ≡ out.old.items ++ found_by_rules profile rules.now scopes.now) }
    ensures kept { Grows out.old.items out.new.items }
{
    if rules.is_empty() {
        return Ok(());
    }
    let pass = Pass {
        profile,
        rules,
        alloc,
    };
    push_references(pass, scopes, scopes.references(), out)?;
    push_scopes(pass, scopes, out)
}

/// Appends what rules report of references.
fn push_references(
    pass: Pass,
    scopes: &Scopes,
    references: &[Reference],
    out: &mut Vec<Report>,
) -> Result<(), AllocError>
    ensures found { OnOk result (out.new.items ≡ out.old.items ++ over_references pass.entry.profile pass.entry.rules.now scopes.now.scopes (map reference_shown references.now)) }
    ensures kept { Grows out.old.items out.new.items }
{
    for reference in references {
        push_reference(pass, *reference, binding_of(scopes, *reference), out)?;
    }
    Ok(())
}

/// Appends what rules report of a reference, by the binding that it means.
fn push_reference(
    pass: Pass,
    reference: Reference,
    binding: Option<Binding>,
    out: &mut Vec<Report>,
) -> Result<(), AllocError>
    ensures found { OnOk result (out.new.items ≡ out.old.items ++ each (by_reference pass.entry.profile (reference_shown reference.entry) (option_map shown binding.entry)) pass.entry.rules.now) }
    ensures kept { Grows out.old.items out.new.items }
{
    if is_silent(reference, binding) {
        return Ok(());
    }
    for rule in pass.rules {
        push_by_reference(pass, *rule, reference, binding, out)?;
    }
    Ok(())
}

/// Appends what a rule reports of a reference.
fn push_by_reference(
    pass: Pass,
    rule: ReferenceRule,
    reference: Reference,
    binding: Option<Binding>,
    out: &mut Vec<Report>,
) -> Result<(), AllocError>
    ensures found { OnOk result (out.new.items ≡ out.old.items ++ by_reference pass.entry.profile (reference_shown reference.entry) (option_map shown binding.entry) rule) }
    ensures kept { Grows out.old.items out.new.items }
{
    if !of_reference(pass.profile, rule, reference, binding) {
        return Ok(());
    }
    let span = Span {
        start: reference.start,
        end: reference.end,
    };
    push_named(pass.alloc, rule, reference.name, span, words(rule), out)
}

/// The binding that a reference means; none where no scope round it declares the name.
fn binding_of<'t>(scopes: &Scopes<'t>, reference: Reference) -> Option<Binding<'t>>
    ensures { option_map shown result ≡ meant scopes.now.scopes reference.entry.meaning }
{
    let Some((scope, place)) = reference.meaning else {
        return None;
    };
    if scope < scopes.scope_count() {
        binding_at(scopes.bindings(scope), place)
    } else {
        None
    }
}

/// The binding at a place, if there is one.
fn binding_at<'t>(bindings: &[Binding<'t>], place: usize) -> Option<Binding<'t>>
    ensures { option_map shown result ≡ slice_get (all_shown bindings.now) place }
{
    if place < bindings.len() {
        Some(bindings[place])
    } else {
        None
    }
}

/// Appends what rules report of the declarations of all scopes.
fn push_scopes(pass: Pass, scopes: &Scopes, out: &mut Vec<Report>) -> Result<(), AllocError>
    ensures found { OnOk result (out.new.items ≡ out.old.items ++ over_scopes pass.entry.profile pass.entry.rules.now 0 scopes.now.scopes) }
    ensures kept { Grows out.old.items out.new.items }
{
    for scope in 0..scopes.scope_count() {
        push_scope(
            pass,
            standing_in(scope),
            scopes.bindings(scope),
            scopes.redeclared(scope),
            out,
        )?;
    }
    Ok(())
}

/// Where the first declarations of names in the scope of a number stand.
fn standing_in(scope: usize) -> Standing
    ensures { result ≡ standing_in scope }
{
    match scope {
        0 => Standing::InScript,
        _ => Standing::InScope,
    }
}

/// Appends what rules report of the declarations of a scope.
fn push_scope(
    pass: Pass,
    standing: Standing,
    bindings: &[Binding],
    redeclared: &[Binding],
    out: &mut Vec<Report>,
) -> Result<(), AllocError>
    ensures found { OnOk result (out.new.items ≡ out.old.items ++ over_scope pass.entry.profile pass.entry.rules.now standing (all_shown bindings.now) (all_shown redeclared.now)) }
    ensures kept { Grows out.old.items out.new.items }
{
    push_declarations(pass, standing, bindings, out)?;
    push_declarations(pass, Standing::Again, redeclared, out)
}

/// Appends what rules report of declarations that stand alike.
fn push_declarations(
    pass: Pass,
    standing: Standing,
    bindings: &[Binding],
    out: &mut Vec<Report>,
) -> Result<(), AllocError>
    ensures found { OnOk result (out.new.items ≡ out.old.items ++ over_declarations pass.entry.profile pass.entry.rules.now standing (all_shown bindings.now)) }
    ensures kept { Grows out.old.items out.new.items }
{
    for binding in bindings {
        push_declaration(pass, standing, *binding, out)?;
    }
    Ok(())
}

/// Appends what rules report of a declaration.
fn push_declaration(
    pass: Pass,
    standing: Standing,
    binding: Binding,
    out: &mut Vec<Report>,
) -> Result<(), AllocError>
    ensures found { OnOk result (out.new.items ≡ out.old.items ++ each (by_declaration pass.entry.profile standing (shown binding.entry)) pass.entry.rules.now) }
    ensures kept { Grows out.old.items out.new.items }
{
    for rule in pass.rules {
        push_by_declaration(pass, *rule, standing, binding, out)?;
    }
    Ok(())
}

/// Appends what a rule reports of a declaration.
fn push_by_declaration(
    pass: Pass,
    rule: ReferenceRule,
    standing: Standing,
    binding: Binding,
    out: &mut Vec<Report>,
) -> Result<(), AllocError>
    ensures found { OnOk result (out.new.items ≡ out.old.items ++ by_declaration pass.entry.profile standing (shown binding.entry) rule) }
    ensures kept { Grows out.old.items out.new.items }
{
    if !of_declaration(pass.profile, rule, standing, binding) {
        return Ok(());
    }
    let span = Span {
        start: binding.start,
        end: binding.end,
    };
    push_named(
        pass.alloc,
        rule,
        binding.name,
        span,
        words_declared(rule, standing),
        out,
    )
}

/// Appends a report of a name.
fn push_named(
    alloc: Global,
    rule: ReferenceRule,
    name: &str,
    span: Span,
    words: &str,
    out: &mut Vec<Report>,
) -> Result<(), AllocError>
    ensures found { OnOk result (out.new.items ≡ out.old.items ++ named rule name.now span.start span.end words.now ∷ []) }
    ensures kept { Grows out.old.items out.new.items }
{
    let text = quoted(alloc, name, words)?;
    push_report(alloc, rule.name(), span, text, out)
}
