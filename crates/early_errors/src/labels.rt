//! `break`, `continue` and labels.

ghost use Rattle.std.specs.Prelude.{◌≡◌, ◌<◌, ◌&&◌, filter, not, Some, IfSome};
ghost use Rattle.tree.specs.Node.{node_tree};
ghost use Rattle.tree.specs.Tree.{kind_of, part_at, parts_of};
ghost use Rattle.tree.specs.declared.kind.Kind.TheVariants.{LabeledStatement};
ghost use Rattle.language.specs.FirstPart.{others};
ghost use Rattle.early_errors.specs.Around.{is_label, labels_loop, last_loop};
ghost use Rattle.early_errors.specs.Early.{each, own_errors};
ghost use Rattle.early_errors.specs.Labels.{is_bare};
ghost use Rattle.early_errors.specs.Names.{first_names, places};
ghost use Rattle.early_errors.specs.Owns.{Beside, Labelled, own_of, is_label_for, misses, or_false, round};
ghost use Rattle.early_errors.specs.Walk.{after, all_named, look};
ghost use Rattle.early_errors.specs.declared.own.OwnErrors.{OwnErrors};

use crate::EarlyError;
use crate::around::Context;
use crate::found::{FirstError, with_error, with_error_if};
use crate::names::NamePlace;
use crate::table::Table;
use name_tables::last_part;
use tree::{Kind, Node};

/// The labels round a node, of the same function: whether one of the name labels a loop.
pub(crate) type Labels<'t> = Table<'t, bool>;

/// A `break` without label outside loop and switch, or to labels, given, that aren't there (ECMA-262 13.9.1).
pub(crate) fn break_errors(
    node: Node,
    around: Context,
    labels: &Labels,
    names: &[NamePlace],
    found: FirstError,
) -> FirstError
    requires kind { own_of (kind_of (node_tree node)) ≡ OwnErrors.Break }
    requires names { all_named names.now ≡ first_names (parts_of (node_tree node)) }
    ensures { (r : Beside) → Labelled (look labels.now) r → result ≡ after found (own_errors (round around r) (node_tree node.entry)) }
{
    let misplaced = is_misplaced(node, around.may_break());
    let found = with_error_if(
        misplaced,
        found,
        EarlyError::MisplacedJump,
        node.span().start,
    );
    undefined(names, labels, false, found)
}

/// A `continue` without label outside a loop, or to labels, given, that aren't there or label no loop (ECMA-262 13.8.1).
pub(crate) fn continue_errors(
    node: Node,
    around: Context,
    labels: &Labels,
    names: &[NamePlace],
    found: FirstError,
) -> FirstError
    requires kind { own_of (kind_of (node_tree node)) ≡ OwnErrors.Continue }
    requires names { all_named names.now ≡ first_names (parts_of (node_tree node)) }
    ensures { (r : Beside) → Labelled (look labels.now) r → result ≡ after found (own_errors (round around r) (node_tree node.entry)) }
{
    let misplaced = is_misplaced(node, around.in_loop);
    let found = with_error_if(
        misplaced,
        found,
        EarlyError::MisplacedJump,
        node.span().start,
    );
    undefined(names, labels, true, found)
}

/// Whether a jump has no label and may not stand so.
fn is_misplaced(node: Node, may_stand: bool) -> bool
    ensures { result ≡ (is_bare (parts_of (node_tree node.entry)) && not may_stand) }
{
    match node.part(0) {
        Some(_) => false,
        None => !may_stand,
    }
}

/// The names that label nothing, or no loop where the flag asks for one.
fn undefined(names: &[NamePlace], labels: &Labels, loops: bool, found: FirstError) -> FirstError
    ensures { result ≡ after found (each EarlyError.UndefinedLabel (places (filter (misses loops (look labels.now)) (all_named names.now)))) }
{
    let mut found = found;
    for named in names {
        if !is_label_for(loops, labels.value(named.name)) {
            found = with_error(found, EarlyError::UndefinedLabel, named.start);
        }
    }
    found
}

/// Whether a label that was found may be a target: any, or for `continue` (`loops`) only that of a loop.
fn is_label_for(loops: bool, value: Option<bool>) -> bool
    ensures { result ≡ is_label_for loops value }
{
    match value {
        Some(is_loop) => is_loop || !loops,
        None => false,
    }
}

/// Whether the kind is that of a labelled statement.
fn is_label(kind: Kind) -> bool
    ensures { result ≡ is_label kind }
{
    match kind {
        Kind::LabeledStatement => true,
        _ => false,
    }
}

/// Whether a node is a loop, labels before it aside.
#[tactic(auto, using(tree::proofs::PartWalk::part_steps))]
pub(crate) fn labels_loop(node: Node) -> bool
    ensures { result ≡ labels_loop (node_tree node.entry) }
{
    if node.kind().is_loop() {
        return true;
    }
    if !is_label(node.kind()) {
        return false;
    }
    match last_part(node) {
        Some(body) => labels_loop(body),
        None => false,
    }
}

/// Whether a label's statement is a loop, where the label above may know it.
pub(crate) fn label_is_loop(node: Node, known: Option<bool>) -> bool
    requires { IfSome known (λ b. b ≡ labels_loop (node_tree node)) }
    ensures { kind_of (node_tree node.entry) ≡ LabeledStatement → result ≡ last_loop (others (parts_of (node_tree node.entry))) }
{
    if node.part_count() < 2 {
        return false;
    }
    match known {
        Some(is_loop) => is_loop,
        None => labels_loop(node),
    }
}

/// What is known of a label's statement, by whether it is a loop: of a part behind the first where that is the only one.
pub(crate) fn known_loop(node: Node, is_loop: bool) -> Option<bool>
    requires { is_loop ≡ last_loop (others (parts_of (node_tree node))) }
    ensures { (i : _) → (u : _) → 0 < i → Some u ≡ part_at (parts_of (node_tree node.entry)) i → IfSome result (λ b. b ≡ labels_loop u) }
{
    if node.part_count() == 2 {
        return Some(is_loop);
    }
    None
}

/// Whether something stands there and is true.
pub(crate) fn is_true(value: Option<bool>) -> bool
    ensures { result ≡ or_false value }
{
    match value {
        Some(value) => value,
        None => false,
    }
}
