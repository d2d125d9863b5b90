//! One walk over the nodes of a script, for any list of rules.

ghost use Rattle.std.specs.Prelude.{◌≡◌, ◌++◌, ◌+◌, ◌<◌, length, option_map, OnOk};
ghost use Rattle.tree.specs.Node.{node_tree};
ghost use Rattle.tree.specs.Tree.{parts_of, start_of, stop_of, text_of};
ghost use Rattle.name_tables.specs.BoundNames.{each_part};
ghost use Rattle.name_tables.specs.PatternParts.{at_part};
ghost use Rattle.rule_words.specs.Appends.{Grows};
ghost use Rattle.literal_rules.specs.Found.{at_first, each, found_by_rules, has_whole_text, is_element, is_literal, is_tagged, is_template, of_element, of_literal, of_node, of_part, of_template, of_templates, of_text, place_of};
ghost use Rattle.literal_rules.specs.Bare.{has_template, is_bare};

use crate::literal_rule::{LiteralRule, begins_as, is_at_mark, is_each, words};
use crate::mark::{first_mark, push_marks};
use crate::text_state::TextState;
use rule_words::{Report, push_fixed_report};
use std::alloc::{AllocError, Global};
use tree::{Kind, Node, Program, Span};

/// Appends what rules report of all nodes of a script.
///
/// # Errors
///
/// `AllocError` where memory is refused: then what stood in `out` still stands in front, perhaps with some reports behind it.
pub fn push_found(
    alloc: Global,
    rules: &[LiteralRule],
    program: &Program,
    out: &mut Vec<Report>,
) -> Result<(), AllocError>
    ensures found { OnOk result (out.new.items ≡ out.old.items ++ found_by_rules rules.now program.now) }
    ensures kept { Grows out.old.items out.new.items }
{
    if rules.is_empty() {
        return Ok(());
    }
    for number in 0..program.node_count() {
        push_of_node(alloc, rules, program.node(number), out)?;
    }
    Ok(())
}

/// Appends what rules report of a node, rule after rule.
fn push_of_node(
    alloc: Global,
    rules: &[LiteralRule],
    node: Node,
    out: &mut Vec<Report>,
) -> Result<(), AllocError>
    ensures found { OnOk result (out.new.items ≡ out.old.items ++ each (λ rule. of_node rule (node_tree node.entry)) rules.now) }
    ensures kept { Grows out.old.items out.new.items }
{
    if is_bare(node) {
        return Ok(());
    }
    for rule in rules {
        push_by_rule(alloc, *rule, node, out)?;
    }
    Ok(())
}

/// Whether a node has no text that a rule reads, as most have none: it is no literal, and no template stands among its parts.
fn is_bare(node: Node) -> bool
    ensures { result ≡ is_bare (node_tree node.entry) }
{
    !is_literal(node.kind()) && !has_template(node)
}

/// Whether a template stands among a node's parts.
#[tactic(auto, using(tree::proofs::PartWalk::part_steps))]
fn has_template(node: Node) -> bool
    ensures { result ≡ has_template (parts_of (node_tree node.entry)) }
{
    for index in 0..node.part_count() {
        if let Some(part) = node.part(index) {
            if is_template(part.kind()) {
                return true;
            }
        }
    }
    false
}

/// Appends what a rule reports of a node: of a literal its text, of another node its templates.
fn push_by_rule(
    alloc: Global,
    rule: LiteralRule,
    node: Node,
    out: &mut Vec<Report>,
) -> Result<(), AllocError>
    ensures found { OnOk result (out.new.items ≡ out.old.items ++ of_node rule (node_tree node.entry)) }
    ensures kept { Grows out.old.items out.new.items }
{
    if is_literal(node.kind()) {
        push_of_literal(alloc, rule, node, out)
    } else if is_each(rule) {
        push_of_templates(alloc, rule, node, out)
    } else {
        Ok(())
    }
}

/// Whether it is the kind of a literal.
fn is_literal(kind: Kind) -> bool
    ensures { result ≡ is_literal kind }
{
    matches!(kind, Kind::Literal)
}

/// Whether it is the kind of a template with a tag.
fn is_tagged(kind: Kind) -> bool
    ensures { result ≡ is_tagged kind }
{
    matches!(kind, Kind::TaggedTemplateExpression)
}

/// Whether it is the kind of a template.
fn is_template(kind: Kind) -> bool
    ensures { result ≡ is_template kind }
{
    matches!(kind, Kind::TemplateLiteral)
}

/// Whether it is the kind of a part of a template between its expressions.
fn is_element(kind: Kind) -> bool
    ensures { result ≡ is_element kind }
{
    matches!(kind, Kind::TemplateElement)
}

/// Appends what a rule reports of a literal.
fn push_of_literal(
    alloc: Global,
    rule: LiteralRule,
    node: Node,
    out: &mut Vec<Report>,
) -> Result<(), AllocError>
    ensures found { OnOk result (out.new.items ≡ out.old.items ++ of_literal rule (node_tree node.entry)) }
    ensures kept { Grows out.old.items out.new.items }
{
    match begins_as(rule, node.text().as_bytes()) {
        Some(state) => push_of_text(alloc, rule, state, node, out),
        None => Ok(()),
    }
}

/// Appends what a rule reports of the templates among a node's parts, but for one with a tag, which stands behind that.
fn push_of_templates(
    alloc: Global,
    rule: LiteralRule,
    node: Node,
    out: &mut Vec<Report>,
) -> Result<(), AllocError>
    ensures found { OnOk result (out.new.items ≡ out.old.items ++ of_templates rule (node_tree node.entry)) }
    ensures kept { Grows out.old.items out.new.items }
{
    if is_tagged(node.kind()) {
        push_of_part(alloc, rule, node.part(0), out)
    } else {
        push_of_parts(alloc, rule, node, out)
    }
}

/// The same of all parts.
fn push_of_parts(
    alloc: Global,
    rule: LiteralRule,
    node: Node,
    out: &mut Vec<Report>,
) -> Result<(), AllocError>
    ensures found { OnOk result (out.new.items ≡ out.old.items ++ each_part (of_template rule) (parts_of (node_tree node.entry))) }
    ensures kept { Grows out.old.items out.new.items }
{
    let parts = node.parts();
    for index in 0..parts.len() {
        push_of_part(alloc, rule, parts.get(index), out)?;
    }
    Ok(())
}

/// The same of a part.
fn push_of_part(
    alloc: Global,
    rule: LiteralRule,
    part: Option<Node>,
    out: &mut Vec<Report>,
) -> Result<(), AllocError>
    ensures found { OnOk result (out.new.items ≡ out.old.items ++ of_part rule (option_map node_tree part.entry)) }
    ensures kept { Grows out.old.items out.new.items }
{
    let Some(part) = part else {
        return Ok(());
    };
    if !is_template(part.kind()) {
        return Ok(());
    }
    push_of_elements(alloc, rule, part, out)
}

/// Appends what a rule reports of the texts of a template.
fn push_of_elements(
    alloc: Global,
    rule: LiteralRule,
    template: Node,
    out: &mut Vec<Report>,
) -> Result<(), AllocError>
    ensures found { OnOk result (out.new.items ≡ out.old.items ++ each_part (of_element rule) (parts_of (node_tree template.entry))) }
    ensures kept { Grows out.old.items out.new.items }
{
    let parts = template.parts();
    for index in 0..parts.len() {
        push_of_element(alloc, rule, parts.get(index), out)?;
    }
    Ok(())
}

/// The same of one of its parts, unless it is an expression.
fn push_of_element(
    alloc: Global,
    rule: LiteralRule,
    part: Option<Node>,
    out: &mut Vec<Report>,
) -> Result<(), AllocError>
    ensures found { OnOk result (out.new.items ≡ out.old.items ++ at_part (of_element rule) (option_map node_tree part.entry)) }
    ensures kept { Grows out.old.items out.new.items }
{
    let Some(part) = part else {
        return Ok(());
    };
    if !is_element(part.kind()) {
        return Ok(());
    }
    push_of_text(alloc, rule, TextState::Template, part, out)
}

/// Appends what a rule reports of the text of a node.
fn push_of_text(
    alloc: Global,
    rule: LiteralRule,
    state: TextState,
    node: Node,
    out: &mut Vec<Report>,
) -> Result<(), AllocError>
    ensures found { OnOk result (out.new.items ≡ out.old.items ++ of_text rule state (node_tree node.entry)) }
    ensures kept { Grows out.old.items out.new.items }
{
    let span = node.span();
    let text = node.text().as_bytes();
    if is_each(rule) && has_whole_text(span, text) {
        return push_marks(alloc, rule, state, span.start, text, out);
    }
    match first_mark(rule, state, text) {
        Some(at) => push_fixed_report(
            alloc,
            rule.name(),
            place_of(rule, span, text, at),
            words(rule),
            out,
        ),
        None => Ok(()),
    }
}

/// Whether a text is as long as the place of its node: that of a template's part isn't where a line ends with CR and LF.
fn has_whole_text(span: Span, text: &[u8]) -> bool
    ensures { result ≡ has_whole_text span.start span.end text.now }
{
    span.start <= span.end && span.end - span.start == text.len()
}

/// Where a rule reports the first place in a text.
fn place_of(rule: LiteralRule, span: Span, text: &[u8], at: usize) -> Span
    requires { at < length text.now }
    ensures start { result.start ≡ (place_of rule span.start span.end text.now at).0 }
    ensures stop { result.end ≡ (place_of rule span.start span.end text.now at).1 }
{
    if is_at_mark(rule) && has_whole_text(span, text) {
        Span {
            start: span.start + at,
            end: span.start + at + 1,
        }
    } else {
        span
    }
}
