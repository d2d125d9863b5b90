//! Running rules.

ghost use Rattle.std.specs.Prelude.{◌≡◌, ◌++◌, IfOk, IfSome, OnOk, true};
ghost use Rattle.std.specs.List.Sorted.{IsPermutation, IsSorted};
ghost use Rattle.rules.specs.AllRules.{finds as finds_by_name};
ghost use Rattle.rules.specs.Groups.{found_alone, found_alone_by, is_alone};
ghost use Rattle.rules.specs.NodeRules.{IsOnNodes, found_on_nodes};
ghost use Rattle.rule_words.specs.Order.{report_cmp};
ghost use Rattle.rules.specs.Run.{all_found, found_by, found_by_name, found_by_names, found_with, look_at_pairs, look_at_scopes};
ghost use Rattle.rules.specs.RuleViews.{seen};
ghost use Rattle.rules.specs.Settings.{is_on};

use crate::groups::{Grouped, push_group};
use crate::rule::Rule;
use crate::rule_list::RuleName;
use crate::settings::Settings;
use crate::shipped_rule::ShippedRule;
use crate::view::View;
use flow_rules::FlowRule;
use literal_rules::LiteralRule;
use node_rules::NodeRule;
use reference_rules::ReferenceRule;
use repetition_rules::RepetitionRule;
use rule_words::Report;
use std::alloc::{AllocError, Global};
use text_rules::TextRule;
use value_rules::ValueRule;

/// Appends what a rule finds, if it is on.
fn run_alone(rule: &Box<dyn Rule>, view: &View, out: &mut Vec<Report>) -> Result<(), AllocError>
    ensures { OnOk result (out.new.items ≡ out.old.items ++ found_by (λ b. called b) (λ b. finds b) rule.now (seen view.now)) }
{
    if view.settings.is_on(rule.name()) {
        rule.check(view, out)?;
    }
    Ok(())
}

/// Which rule on nodes finds the same as a rule that is on.
fn joining(rule: &Box<dyn Rule>, view: &View) -> Option<NodeRule>
    ensures on { IfSome result (λ joining. is_on (called rule.now) view.now.settings.now ≡ true) }
    ensures finds { IfSome result (λ joining. IsOnNodes joining (finds rule.now)) }
{
    let Some(joining) = rule.on_nodes() else {
        return None;
    };
    if !view.settings.is_on(rule.name()) {
        return None;
    }
    Some(joining)
}

/// Appends what a rule finds, if it is on. A rule on nodes joins those that run in one walk.
fn run_rule(
    rule: &Box<dyn Rule>,
    view: &View,
    together: &mut Vec<NodeRule>,
    out: &mut Vec<Report>,
) -> Result<(), AllocError>
    ensures { OnOk result (IsPermutation ((out.old.items ++ found_on_nodes together.old.items (seen view.now)) ++ found_by (λ b. called b) (λ b. finds b) rule.now (seen view.now)) (out.new.items ++ found_on_nodes together.new.items (seen view.now))) }
{
    if let Some(joining) = joining(rule, view) {
        together.push(joining)?;
        return Ok(());
    }
    run_alone(rule, view, out)
}

/// What the rules that are on find, in no order.
fn gather(alloc: Global, rules: &[Box<dyn Rule>], view: &View) -> Result<Vec<Report>, AllocError>
    ensures { IfOk result (λ v. IsPermutation (all_found (λ b. called b) (λ b. finds b) rules.now (seen view.now)) v.items) }
{
    let mut found = Vec::new(alloc);
    let mut together = Vec::new(alloc);
    for rule in rules {
        run_rule(rule, view, &mut together, &mut found)?;
    }
    NodeRule::push_reports(alloc, &together, view, &mut found)?;
    Ok(found)
}

/// Appends what a rule of a name finds.
fn run_shipped(
    alloc: Global,
    name: RuleName,
    view: &View,
    out: &mut Vec<Report>,
) -> Result<(), AllocError>
    ensures { OnOk result (out.new.items ≡ out.old.items ++ finds_by_name name (seen view.now)) }
{
    ShippedRule::new(alloc, name).check(view, out)
}

/// Whether a name is of a rule that is of no group.
fn is_alone(name: RuleName) -> bool
    ensures { result ≡ is_alone name }
{
    matches!(
        name,
        RuleName::NoExtendNative
            | RuleName::NoExtraParens
            | RuleName::NoShadow
            | RuleName::NoUndef
            | RuleName::NoUnusedPrivateClassMembers
            | RuleName::NoUnusedVars
            | RuleName::PreferConst
    )
}

/// Appends what a rule of a name finds, if it is of no group, and on.
fn push_if_alone(
    alloc: Global,
    name: RuleName,
    view: &View,
    out: &mut Vec<Report>,
) -> Result<(), AllocError>
    ensures { OnOk result (out.new.items ≡ out.old.items ++ found_alone_by name (seen view.now)) }
{
    if is_alone(name) && view.settings.is_on(name.as_str()) {
        run_shipped(alloc, name, view, out)?;
    }
    Ok(())
}

/// Appends what the rules of these names find that are of no group, and on.
fn push_alone(
    alloc: Global,
    names: &[RuleName],
    view: &View,
    out: &mut Vec<Report>,
) -> Result<(), AllocError>
    ensures { OnOk result (out.new.items ≡ out.old.items ++ found_alone names.now (seen view.now)) }
{
    for name in names {
        push_if_alone(alloc, *name, view, out)?;
    }
    Ok(())
}

/// Appends what the rules of these names that are on find, in no order.
fn gather_named(
    alloc: Global,
    names: &[RuleName],
    view: &View,
    out: &mut Vec<Report>,
) -> Result<(), AllocError>
    ensures { OnOk result (IsPermutation (found_by_names names.now (seen view.now) ++ out.old.items) out.new.items) }
{
    push_group::<NodeRule>(alloc, names, view, out)?;
    push_group::<ReferenceRule>(alloc, names, view, out)?;
    push_group::<RepetitionRule>(alloc, names, view, out)?;
    push_group::<FlowRule>(alloc, names, view, out)?;
    push_group::<LiteralRule>(alloc, names, view, out)?;
    push_group::<TextRule>(alloc, names, view, out)?;
    push_group::<ValueRule>(alloc, names, view, out)?;
    push_alone(alloc, names, view, out)
}

/// Whether one of these rules that looks at scopes is on: if not, a view needs none.
pub fn look_at_scopes(names: &[RuleName], settings: &Settings) -> bool
    ensures { result ≡ look_at_scopes names.now settings.now }
{
    names.iter().any(|name| name.looks_at_scopes() && settings.is_on(name.as_str()))
}

/// Whether one of these rules that looks at the extra pairs of parentheses is on: if not, a view may have none.
pub fn look_at_pairs(names: &[RuleName], settings: &Settings) -> bool
    ensures { result ≡ look_at_pairs names.now settings.now }
{
    names.iter().any(|name| name.looks_at_pairs() && settings.is_on(name.as_str()))
}

/// All reports of the rules that are on, of those that ship with the program by their names and of others in boxes, sorted by start, rule
/// name, end and text. A rule of another name than these is on, and is run like any other; a rule that stands twice reports twice.
///
/// # Errors
///
/// `AllocError` where memory is refused, by a rule or here, and nothing else.
pub fn run_rules(
    alloc: Global,
    names: &[RuleName],
    rules: &[Box<dyn Rule>],
    view: &View,
) -> Result<Vec<Report>, AllocError>
    ensures found { IfOk result (λ v. IsPermutation (found_with (λ b. called b) (λ b. finds b) names.now rules.now (seen view.now)) v.items) }
    ensures sorted { IfOk result (λ v. IsSorted report_cmp v.items) }
{
    let mut found = gather(alloc, rules, view)?;
    gather_named(alloc, names, view, &mut found)?;
    found.sort_by(|a, b| a.compare(b))?;
    Ok(found)
}
