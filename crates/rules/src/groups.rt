//! Rules of one crate make a group, and run together: in one pass over what they look at.

ghost use Rattle.std.specs.Prelude.{◌≡◌, ◌++◌, [], IfOk, OnOk};
ghost use Rattle.rule_words.specs.Appends.{Grows};
ghost use Rattle.tree.specs.Node.{node_tree};
ghost use Rattle.rules.specs.Groups.{chosen, chosen_if};
ghost use Rattle.rules.specs.NodeRules.{found_on_nodes};
ghost use Rattle.rules.specs.RuleNames.{called};
ghost use Rattle.rules.specs.RuleViews.{seen};
ghost use Rattle.rules.specs.Rules.{node_options, profile_of};
ghost use Rattle.rules.specs.Settings.{is_on};

use crate::no_undef::is_of_2022;
use crate::rule_list::RuleName;
use crate::rule_option::RuleOption;
use crate::settings::Settings;
use crate::view::View;
use flow_rules::{FlowRule, push_found as push_flow_reports};
use literal_rules::{LiteralRule, push_found as push_literal_reports};
use node_rules::{NodeOptions, NodeRule, push_found as push_node_reports};
use reference_rules::{Profile, ReferenceRule, push_found as push_reference_reports};
use repetition_rules::{RepetitionRule, push_found as push_repetition_reports};
use rule_words::Report;
use std::alloc::{AllocError, Global};
use text_rules::{TextRule, push_found as push_text_reports};
use tree::Node;
use value_rules::{ValueRule, push_found as push_value_reports};

/// A rule of a group.
pub(crate) trait Grouped: Copy {
    ghost use Rattle.std.specs.Prelude.{◌≡◌, ◌++◌, List, OnOk, Option};
    ghost use Rattle.rule_words.specs.Appends.{Grows};
    ghost use Rattle.rule_words.specs.Reports.{Report};
    ghost use Rattle.rules.specs.Rules.{View};
    ghost use Rattle.rules.specs.RuleViews.{seen};
    ghost use Rattle.rules.specs.declared.rule_list.RuleName.{RuleName};

    /// The rule of the group that a name is of.
    ghost named: { RuleName → Option Self };

    /// What rules of the group find in a view.
    ghost found: { List Self → View → List Report };

    /// The rule of the group that a name is of.
    fn of_name(name: RuleName) -> Option<Self>
        ensures { result ≡ named name };

    /// Appends what rules of the group find in a view.
    fn push_reports(
        alloc: Global,
        rules: &[Self],
        view: &View,
        out: &mut Vec<Report>,
    ) -> Result<(), AllocError>
        ensures found { OnOk result (out.new.items ≡ out.old.items ++ found rules.now (seen view.now)) }
        ensures kept { Grows out.old.items out.new.items };
}

/// What rules on nodes ask of the settings.
fn node_options(settings: &Settings) -> NodeOptions
    ensures { result ≡ node_options settings.now }
{
    NodeOptions {
        allow_null: settings.has_option(RuleOption::AllowNull),
        allow_comments: settings.has_option(RuleOption::AllowComments),
    }
}

impl Grouped for NodeRule {
    ghost use Rattle.rules.specs.Groups.{node_rule_named};
    ghost use Rattle.rules.specs.NodeRules.{found_on_nodes};

    ghost named = { λ name. node_rule_named name };

    ghost found = { λ rules v. found_on_nodes rules v };

    fn of_name(name: RuleName) -> Option<NodeRule> {
        match name {
            RuleName::OnNodes(rule) => Some(rule),
            _ => None,
        }
    }

    fn push_reports(
        alloc: Global,
        rules: &[NodeRule],
        view: &View,
        out: &mut Vec<Report>,
    ) -> Result<(), AllocError> {
        let options = node_options(view.settings);
        push_node_reports(alloc, options, view.text, rules, view.program, out)
    }
}

/// What rules on references ask of the language of a Program.
fn profile_of(program: Node) -> Profile
    ensures { result ≡ profile_of (node_tree program.entry) }
{
    Profile {
        is_2022: is_of_2022(program),
        is_module: program.text() == "module",
    }
}

impl Grouped for ReferenceRule {
    ghost use Rattle.rules.specs.Groups.{found_on_references, reference_rule_named};

    ghost named = { λ name. reference_rule_named name };

    ghost found = { λ rules v. found_on_references rules v };

    fn of_name(name: RuleName) -> Option<ReferenceRule> {
        match name {
            RuleName::OnReferences(rule) => Some(rule),
            _ => None,
        }
    }

    fn push_reports(
        alloc: Global,
        rules: &[ReferenceRule],
        view: &View,
        out: &mut Vec<Report>,
    ) -> Result<(), AllocError> {
        let Some(scopes) = view.scopes else {
            return Ok(());
        };
        let profile = profile_of(view.program.root());
        push_reference_reports(alloc, profile, rules, scopes, out)
    }
}

impl Grouped for RepetitionRule {
    ghost use Rattle.rules.specs.Groups.{found_on_repetitions, repetition_rule_named};

    ghost named = { λ name. repetition_rule_named name };

    ghost found = { λ rules v. found_on_repetitions rules v };

    fn of_name(name: RuleName) -> Option<RepetitionRule> {
        match name {
            RuleName::OnRepetitions(rule) => Some(rule),
            _ => None,
        }
    }

    fn push_reports(
        alloc: Global,
        rules: &[RepetitionRule],
        view: &View,
        out: &mut Vec<Report>,
    ) -> Result<(), AllocError> {
        push_repetition_reports(alloc, rules, view.program, out)
    }
}

impl Grouped for FlowRule {
    ghost use Rattle.rules.specs.Groups.{found_on_flow, flow_rule_named};

    ghost named = { λ name. flow_rule_named name };

    ghost found = { λ rules v. found_on_flow rules v };

    fn of_name(name: RuleName) -> Option<FlowRule> {
        match name {
            RuleName::OnFlow(rule) => Some(rule),
            _ => None,
        }
    }

    fn push_reports(
        alloc: Global,
        rules: &[FlowRule],
        view: &View,
        out: &mut Vec<Report>,
    ) -> Result<(), AllocError> {
        push_flow_reports(alloc, view.text, rules, view.program, out)
    }
}

impl Grouped for LiteralRule {
    ghost use Rattle.rules.specs.Groups.{found_on_literals, literal_rule_named};

    ghost named = { λ name. literal_rule_named name };

    ghost found = { λ rules v. found_on_literals rules v };

    fn of_name(name: RuleName) -> Option<LiteralRule> {
        match name {
            RuleName::OnLiterals(rule) => Some(rule),
            _ => None,
        }
    }

    fn push_reports(
        alloc: Global,
        rules: &[LiteralRule],
        view: &View,
        out: &mut Vec<Report>,
    ) -> Result<(), AllocError> {
        push_literal_reports(alloc, rules, view.program, out)
    }
}

impl Grouped for TextRule {
    ghost use Rattle.rules.specs.Groups.{found_on_texts, text_rule_named};

    ghost named = { λ name. text_rule_named name };

    ghost found = { λ rules v. found_on_texts rules v };

    fn of_name(name: RuleName) -> Option<TextRule> {
        match name {
            RuleName::OnTexts(rule) => Some(rule),
            _ => None,
        }
    }

    fn push_reports(
        alloc: Global,
        rules: &[TextRule],
        view: &View,
        out: &mut Vec<Report>,
    ) -> Result<(), AllocError> {
        push_text_reports(alloc, view.text, rules, view.program, out)
    }
}

impl Grouped for ValueRule {
    ghost use Rattle.rules.specs.Groups.{found_on_values, value_rule_named};

    ghost named = { λ name. value_rule_named name };

    ghost found = { λ rules v. found_on_values rules v };

    fn of_name(name: RuleName) -> Option<ValueRule> {
        match name {
            RuleName::OnValues(rule) => Some(rule),
            _ => None,
        }
    }

    fn push_reports(
        alloc: Global,
        rules: &[ValueRule],
        view: &View,
        out: &mut Vec<Report>,
    ) -> Result<(), AllocError> {
        push_value_reports(alloc, rules, view.program, out)
    }
}

/// Appends the rule of a group that a name is of, if it is on.
fn push_chosen<G: Grouped>(
    name: RuleName,
    settings: &Settings,
    rules: &mut Vec<G>,
) -> Result<(), AllocError>
    ensures { OnOk result (rules.new.items ≡ rules.old.items ++ chosen_if (G.named name) (is_on (called name) settings.now) []) }
{
    let Some(rule) = G::of_name(name) else {
        return Ok(());
    };
    if !settings.is_on(name.as_str()) {
        return Ok(());
    }
    rules.push(rule)?;
    Ok(())
}

/// The rules of a group that are on, of these names, in their order.
fn chosen<G: Grouped>(
    alloc: Global,
    names: &[RuleName],
    settings: &Settings,
) -> Result<Vec<G>, AllocError>
    ensures { IfOk result (λ v. v.items ≡ chosen (λ name. G.named name) names.now settings.now) }
{
    let mut rules = Vec::new(alloc);
    for name in names {
        push_chosen(*name, settings, &mut rules)?;
    }
    Ok(rules)
}

/// Appends what the rules of a group find that are on, of these names.
pub(crate) fn push_group<G: Grouped>(
    alloc: Global,
    names: &[RuleName],
    view: &View,
    out: &mut Vec<Report>,
) -> Result<(), AllocError>
    ensures { OnOk result (out.new.items ≡ out.old.items ++ G.found (chosen (λ name. G.named name) names.now (seen view.now).settings) (seen view.now)) }
{
    let rules: Vec<G> = chosen(alloc, names, view.settings)?;
    G::push_reports(alloc, &rules, view, out)
}
