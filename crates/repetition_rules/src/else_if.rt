//! Tests of `if` and `else if` that never hold, chain by chain.

ghost use Rattle.std.specs.Prelude.{◌≡◌, ◌++◌, map, [], true, option_map, IfOk, OnOk};
ghost use Rattle.std.specs.List.{list_any};
ghost use Rattle.tree.specs.Node.{node_tree};
ghost use Rattle.rule_words.specs.Appends.{Grows};
ghost use Rattle.repetition_rules.specs.Rows.{moot_report, of_test};
ghost use Rattle.repetition_rules.specs.Tests.{alone, is_covered, is_if, moot_at, moot_below, tests};
ghost use Rattle.repetition_rules.specs.Chains.{Knows, are_full, asked_before, asking, is_all_covered, is_chain, is_if_at, is_moot, moot_reports};

use crate::conditions::{Choice, Condition, condition_of, push_conditions};
use crate::repetition_rule::{RepetitionRule, words};
use name_tables::{HashKey, KeyBuilder, NameSet};
use rule_words::{Report, push_fixed_report};
use std::alloc::{AllocError, Global};
use std::marker::Model;
use tree::{Kind, Node, Span};

/// A test: where it stands, what it asks, and what each operand of its `&&` asks.
#[derive(Drop)]
struct Test {
    start: usize,
    end: usize,
    whole: Condition,
    operands: Vec<Condition>,
}

impl Model for Test {
    ghost use Rattle.repetition_rules.specs.Chains.{Asking};

    ghost Value = { Asking };

    ghost view = { λ t. record { start = t.start; stop = t.end; whole = t.whole; operands = t.operands.items } };
}

/// Whether it is the kind of an `if`.
#[inline]
pub(crate) fn is_if(kind: Kind) -> bool
    ensures { result ≡ is_if kind }
{
    matches!(kind, Kind::IfStatement)
}

/// Whether a part that may be missing is an `if`.
#[inline]
fn is_if_at(part: Option<Node>) -> bool
    ensures { result ≡ is_if_at (option_map node_tree part.entry) }
{
    match part {
        Some(part) => is_if(part.kind()),
        None => false,
    }
}

/// Whether a chain of more than one test begins here: of a single test nothing is reported.
#[inline]
fn is_chain(node: Node) -> bool
    ensures { result ≡ is_chain (node_tree node.entry) }
{
    is_if(node.kind()) && is_if_at(node.part(2))
}

/// A test with all that it asks.
fn test_of(alloc: Global, node: Node) -> Result<Test, AllocError>
    ensures { IfOk result (λ t. t ≡ asking (node_tree node.entry)) }
{
    let span = node.span();
    let whole = condition_of(alloc, node)?;
    let mut operands = Vec::new(alloc);
    push_conditions(alloc, node, &mut operands)?;
    Ok(Test {
        start: span.start,
        end: span.end,
        whole,
        operands,
    })
}

/// Appends the test of an `if`.
fn push_test(alloc: Global, test: Option<Node>, out: &mut Vec<Test>) -> Result<(), AllocError>
    ensures { OnOk result (out.new.items ≡ out.old.items ++ map asking (alone (option_map node_tree test.entry))) }
{
    let Some(test) = test else {
        return Ok(());
    };
    let asked = test_of(alloc, test)?;
    out.push(asked)?;
    Ok(())
}

/// Appends the tests of the chain that begins here.
#[tactic(auto, using(tree::proofs::PartWalk::part_steps))]
fn push_tests(alloc: Global, node: Node, out: &mut Vec<Test>) -> Result<(), AllocError>
    ensures { OnOk result (out.new.items ≡ out.old.items ++ map asking (tests (node_tree node.entry))) }
{
    if !is_if(node.kind()) {
        return Ok(());
    }
    push_test(alloc, node.part(0), out)?;
    match node.part(2) {
        Some(alternate) => push_tests(alloc, alternate, out),
        None => Ok(()),
    }
}

/// The key of sets of last operands, drawn from them.
fn key_of(tests: &[Test]) -> HashKey {
    let mut builder = KeyBuilder::new();
    for test in tests {
        test.whole.add_lasts(&mut builder);
    }
    builder.build()
}

/// Whether one of the choices that tests ask holds wherever a choice does.
fn has_cover(before: &[Test], choice: &Choice) -> bool
    ensures { result ≡ list_any (λ x. is_covered x.whole choice.now) before.now }
{
    before.iter().any(|test| test.whole.covers(choice))
}

/// The same, where a set has the last operands of what the tests ask, so that few of them are compared.
fn is_covered(before: &[Test], lasts: &NameSet, choice: &Choice) -> bool
    requires knows { Knows lasts.now before.now }
    requires full { are_full before.now ≡ true }
    ensures { result ≡ is_covered (asked_before before.now) choice.now }
{
    choice.has_any_of(lasts) && has_cover(before, choice)
}

/// The same of each choice of a condition.
fn is_all_covered(before: &[Test], lasts: &NameSet, condition: &Condition) -> bool
    requires knows { Knows lasts.now before.now }
    requires full { are_full before.now ≡ true }
    ensures { result ≡ is_all_covered (asked_before before.now) condition.now }
{
    for choice in condition.choices() {
        if !is_covered(before, lasts, choice) {
            return false;
        }
    }
    true
}

/// Whether a test holds nowhere behind those before it.
fn is_moot(before: &[Test], lasts: &NameSet, test: &Test) -> bool
    requires knows { Knows lasts.now before.now }
    requires full { are_full before.now ≡ true }
    ensures { result ≡ is_moot before.now test.now }
{
    if is_all_covered(before, lasts, &test.whole) {
        return true;
    }
    for operand in &test.operands {
        if is_all_covered(before, lasts, operand) {
            return true;
        }
    }
    false
}

/// Appends a report of a test that never holds.
fn push_moot(
    alloc: Global,
    rule: RepetitionRule,
    moot: bool,
    test: &Test,
    out: &mut Vec<Report>,
) -> Result<(), AllocError>
    ensures found { OnOk result (out.new.items ≡ out.old.items ++ moot_report moot rule test.now.start test.now.stop) }
    ensures kept { Grows out.old.items out.new.items }
{
    if !moot {
        return Ok(());
    }
    let span = Span {
        start: test.start,
        end: test.end,
    };
    push_fixed_report(alloc, rule.name(), span, words(rule), out)
}

/// Appends what is reported of tests, with a set that has nothing yet.
fn push_each<'t>(
    alloc: Global,
    rule: RepetitionRule,
    tests: &'t [Test],
    lasts: &mut NameSet<'t>,
    out: &mut Vec<Report>,
) -> Result<(), AllocError>
    requires knows { Knows lasts.now [] }
    requires full { are_full tests.now ≡ true }
    ensures found { OnOk result (out.new.items ≡ out.old.items ++ moot_reports rule [] tests.now) }
    ensures kept { Grows out.old.items out.new.items }
{
    for index in 0..tests.len() {
        let test = &tests[index];
        let moot = is_moot(&tests[..index], lasts, test);
        push_moot(alloc, rule, moot, test, out)?;
        test.whole.put_lasts(lasts)?;
    }
    Ok(())
}

/// Appends what is reported of the chain that begins here.
fn push_chain(
    alloc: Global,
    rule: RepetitionRule,
    node: Option<Node>,
    out: &mut Vec<Report>,
) -> Result<(), AllocError>
    ensures found { OnOk result (out.new.items ≡ out.old.items ++ map (of_test rule) (moot_at (option_map node_tree node.entry))) }
    ensures kept { Grows out.old.items out.new.items }
{
    let Some(node) = node else {
        return Ok(());
    };
    if !is_chain(node) {
        return Ok(());
    }
    let mut tests = Vec::new(alloc);
    push_tests(alloc, node, &mut tests)?;
    let mut lasts = NameSet::new(alloc, key_of(&tests));
    push_each(alloc, rule, &tests, &mut lasts, out)
}

/// Appends what is reported of the chains that begin among the parts of a node.
pub(crate) fn push_chains_below(
    alloc: Global,
    rule: RepetitionRule,
    node: Node,
    out: &mut Vec<Report>,
) -> Result<(), AllocError>
    ensures found { OnOk result (out.new.items ≡ out.old.items ++ map (of_test rule) (moot_below (node_tree node.entry))) }
    ensures kept { Grows out.old.items out.new.items }
{
    if is_if(node.kind()) {
        return push_chain(alloc, rule, node.part(1), out);
    }
    let parts = node.parts();
    for index in 0..parts.len() {
        push_chain(alloc, rule, parts.get(index), out)?;
    }
    Ok(())
}
