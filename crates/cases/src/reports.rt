//! Rules, settings and scopes, each by its own call.

use crate::case::Case;
use crate::plans::spans_of;
use crate::print::word;
use parser::Parsed;
use rules::{
    NodeRule, RULES, Report, Rule, RuleName, RuleOption, Settings, SettingsError, ShippedRule,
    View, run_rules,
};
use scopes::{Binding, Reference, Scopes, resolve};
use spellings::pair_rows;
use std::alloc::{AllocError, Global};
use tree::Program;

/// A rule of this program's own: it reports every script, at its beginning.
#[derive(Drop)]
pub(crate) struct AnyScript {
    alloc: Global,
}

impl AnyScript {
    /// The rule, for this memory.
    pub(crate) fn new(alloc: Global) -> AnyScript {
        AnyScript { alloc }
    }
}

impl Rule for AnyScript {
    ghost use Rattle.std.specs.Prelude.{[], codes, ◌∷◌};

    ghost called = { λ _. codes "any-script" };

    ghost finds = { λ _ _. record { start = 0; stop = 0; rule = codes "any-script"; text = codes "a script" } ∷ [] };

    /// The rule's name.
    fn name(&self) -> &str {
        "any-script"
    }

    /// Adds one report on any script.
    fn check(&self, _view: &View, out: &mut Vec<Report>) -> Result<(), AllocError> {
        let rule = String::from_str(self.alloc, "any-script")?;
        let text = String::from_str(self.alloc, "a script")?;
        out.push(Report::new(0, 0, rule, text))?;
        Ok(())
    }
}

/// A rule that asks for more memory than there is, behind a report of its own.
#[derive(Drop)]
struct Insatiable {
    alloc: Global,
}

impl Rule for Insatiable {
    ghost use Rattle.std.specs.Prelude.{[], codes, ◌∷◌};

    ghost called = { λ _. codes "insatiable" };

    ghost finds = { λ _ _. record { start = 0; stop = 0; rule = codes "any-script"; text = codes "a script" } ∷ [] };

    /// The rule's name.
    fn name(&self) -> &str {
        "insatiable"
    }

    /// Adds a report, and is then refused memory.
    fn check(&self, view: &View, out: &mut Vec<Report>) -> Result<(), AllocError> {
        AnyScript::new(self.alloc).check(view, out)?;
        let _room: Vec<u8> = Vec::with_capacity(self.alloc, usize::MAX)?;
        Ok(())
    }
}

/// A rule of another name than `no-var` that finds the same, and says so.
#[derive(Drop)]
struct LikeNoVar {
    alloc: Global,
}

impl Rule for LikeNoVar {
    ghost use Rattle.std.specs.Prelude.{codes};
    ghost use Rattle.node_rules.specs.declared.node_rule.NodeRule.TheVariants.{NoVar};
    ghost use Rattle.rules.specs.Rules.{on_nodes};

    ghost called = { λ _. codes "like-no-var" };

    ghost finds = { λ _ v. on_nodes NoVar v };

    /// The rule's name.
    fn name(&self) -> &str {
        "like-no-var"
    }

    /// Adds what `no-var` finds.
    fn check(&self, view: &View, out: &mut Vec<Report>) -> Result<(), AllocError> {
        ShippedRule::new(self.alloc, RuleName::OnNodes(NodeRule::NoVar)).check(view, out)
    }

    /// It is a rule over nodes, as `no-var` is.
    fn on_nodes(&self) -> Option<NodeRule> {
        Some(NodeRule::NoVar)
    }
}

/// What settings say: which of two rules are on, whether `a` is a global name, the three options, and, if one is, which of the two rules
/// are warnings.
fn push_said(settings: &Settings, out: &mut String) -> Result<(), AllocError> {
    let on = (settings.is_on("no-var"), settings.is_on("eqeqeq"));
    let null = settings.has_option(RuleOption::AllowNull);
    let comments = settings.has_option(RuleOption::AllowComments);
    let underscore = settings.has_option(RuleOption::IgnoreUnderscore);
    write!(
        out,
        "{:?}",
        (on, settings.is_global("a"), null, comments, underscore)
    )?;
    let warned = (settings.is_warning("no-var"), settings.is_warning("eqeqeq"));
    match warned {
        (false, false) => Ok(()),
        _ => write!(out, " warned {warned:?}"),
    }
}

/// Why settings are refused. A row whose call was refused memory has no answer.
fn push_settings_error(error: SettingsError, out: &mut String) -> Result<(), AllocError> {
    match error {
        SettingsError::Memory => Err(AllocError),
        SettingsError::NotToml(at) => write!(out, "not TOML at byte {at}"),
        SettingsError::TooLong => out.push_str("too long"),
        SettingsError::Unfit(fault) => write!(out, "bad settings: {}", fault.text().as_str()),
    }
}

/// The settings of a text.
pub(crate) fn push_settings(alloc: Global, text: &str, out: &mut String) -> Result<(), AllocError> {
    match Settings::from_toml(alloc, text) {
        Ok(settings) => push_said(&settings, out),
        Err(error) => push_settings_error(error, out),
    }
}

/// Adds a binding, with its place and what is known of it.
fn push_binding(binding: &Binding, out: &mut String) -> Result<(), AllocError> {
    out.push_str(binding.name)?;
    write!(out, " {:?} {}-{}", binding.kind, binding.start, binding.end)?;
    out.push_str(word(binding.settled, " settled"))?;
    out.push_str(word(binding.shadows, " shadows"))?;
    out.push_str(", ")
}

/// The scopes, each with the number of that round it and what it declares.
fn push_bindings(scopes: &Scopes, out: &mut String) -> Result<(), AllocError> {
    for scope in 0..scopes.scope_count() {
        write!(out, "{:?}: ", scopes.parent(scope))?;
        for binding in scopes.bindings(scope) {
            push_binding(binding, out)?;
        }
    }
    Ok(())
}

/// Adds a reference, with its place, its use and what it means.
fn push_reference(reference: &Reference, out: &mut String) -> Result<(), AllocError> {
    out.push_str(reference.name)?;
    write!(
        out,
        " {}-{} in {}",
        reference.start, reference.end, reference.scope
    )?;
    out.push_str(word(reference.reads, " read"))?;
    out.push_str(word(reference.writes, " written"))?;
    out.push_str(word(reference.typeof_operand, " typeof"))?;
    match reference.meaning {
        Some(meaning) => write!(out, " {meaning:?}, "),
        None => out.push_str(", "),
    }
}

/// The scopes of a script, and behind `;` its references, each with the binding that it means.
pub(crate) fn push_scopes(
    alloc: Global,
    program: &Program,
    out: &mut String,
) -> Result<(), AllocError> {
    let scopes = resolve(alloc, program)?;
    push_bindings(&scopes, out)?;
    out.push_str("; ")?;
    for reference in scopes.references() {
        push_reference(reference, out)?;
    }
    Ok(())
}

/// Where reports stand, and of which rules they are.
fn push_reports(reports: &[Report], out: &mut String) -> Result<(), AllocError> {
    for report in reports {
        write!(out, " {}-{} ", report.start(), report.end())?;
        out.push_str(report.rule())?;
    }
    Ok(())
}

/// Whether the check of a rule of the list was refused memory.
fn is_refused(rules: &[Box<dyn Rule>], view: &View, found: &mut Vec<Report>) -> bool {
    for rule in rules {
        if rule.check(view, found).is_err() {
            return true;
        }
    }
    false
}

/// Whether a rule of the list was refused memory, alone and where all run, and what then stands in front of its reports.
fn push_of_refused(
    alloc: Global,
    rules: &[Box<dyn Rule>],
    view: &View,
    out: &mut String,
) -> Result<(), AllocError> {
    let mut found = Vec::new(alloc);
    ShippedRule::new(alloc, RuleName::OnNodes(NodeRule::NoDebugger)).check(view, &mut found)?;
    let front = found.len();
    let refused = is_refused(rules, view, &mut found);
    write!(
        out,
        "{:?}",
        (refused, run_rules(alloc, &[], rules, view).is_err())
    )?;
    push_reports(found.get(..front).unwrap_or(&[]), out)
}

/// Whether a report that stands in front is the same behind the check of a rule. A row whose check was refused memory then has no answer.
fn is_kept(alloc: Global, rule: &Box<dyn Rule>, view: &View) -> Result<bool, AllocError> {
    let mut found = Vec::new(alloc);
    AnyScript::new(alloc).check(view, &mut found)?;
    let checked = rule.check(view, &mut found);
    match found.first() {
        Some(first) if first.rule() == "any-script" && first.text() == "a script" => {
            checked.map(|_| true)
        }
        _ => Ok(false),
    }
}

/// The rules behind whose check a report that stands in front is another.
fn push_kept(
    alloc: Global,
    rules: &[Box<dyn Rule>],
    view: &View,
    out: &mut String,
) -> Result<(), AllocError> {
    for rule in rules {
        if !is_kept(alloc, rule, view)? {
            out.push_str(rule.name())?;
            out.push_str(" ")?;
        }
    }
    out.push_str("kept")
}

/// What the rules find, and that each keeps what stands in front.
fn push_of_all(alloc: Global, view: &View, out: &mut String) -> Result<(), AllocError> {
    let mut rules: Vec<Box<dyn Rule>> = Vec::new(alloc);
    for name in RULES.as_slice() {
        rules.push(Box::new(alloc, ShippedRule::new(alloc, *name))?)?;
    }
    push_kept(alloc, &rules, view, out)?;
    push_reports(&run_rules(alloc, RULES.as_slice(), &[], view)?, out)
}

/// What is said of a rule that is refused memory.
fn push_of_insatiable(alloc: Global, view: &View, out: &mut String) -> Result<(), AllocError> {
    let mut rules: Vec<Box<dyn Rule>> = Vec::new(alloc);
    rules.push(Box::new(alloc, Insatiable { alloc })?)?;
    push_of_refused(alloc, &rules, view, out)
}

/// What a rule that finds what `no-var` does finds alone, and behind `no-var`.
fn push_of_like(alloc: Global, view: &View, out: &mut String) -> Result<(), AllocError> {
    let alone: [Box<dyn Rule>; 1] = [Box::new(alloc, LikeNoVar { alloc })?];
    out.push_str("alone")?;
    push_reports(&run_rules(alloc, &[], &alone, view)?, out)?;
    out.push_str("; behind")?;
    let no_var = [RuleName::OnNodes(NodeRule::NoVar)];
    push_reports(&run_rules(alloc, &no_var, &alone, view)?, out)
}

/// What a call on rules answers for a script under these settings.
fn push_checked(
    alloc: Global,
    row: &Case,
    parsed: &Parsed,
    settings: &Settings,
    out: &mut String,
) -> Result<(), AllocError> {
    let program = parsed.program();
    let groups = pair_rows(alloc, program, parsed.grouping_pairs())?;
    let extra = spans_of(alloc, program, &groups)?;
    let scopes = resolve(alloc, program)?;
    let view = View::new(program, row.text(1), Some(&scopes), &extra, settings);
    match row.text(0) {
        "rules" => push_of_all(alloc, &view, out),
        "rule on nodes" => push_of_like(alloc, &view, out),
        _ => push_of_insatiable(alloc, &view, out),
    }
}

/// What a call on rules answers for a script under the settings that the row's last text is.
pub(crate) fn push_rules(
    alloc: Global,
    row: &Case,
    parsed: &Parsed,
    out: &mut String,
) -> Result<(), AllocError> {
    match Settings::from_toml(alloc, row.text(2)) {
        Ok(settings) => push_checked(alloc, row, parsed, &settings, out),
        Err(error) => push_settings_error(error, out),
    }
}
