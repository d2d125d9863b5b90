//! The walk over a tree.

ghost use Rattle.std.specs.Prelude.{◌≡◌, true, [], ◌-◌, ◌<◌, None, Some, OnOk};
ghost use Rattle.tree.specs.Node.{node_tree};
ghost use Rattle.tree.specs.declared.kind.Kind.TheVariants.{StaticBlock};
ghost use Rattle.tree.specs.Tree.{flags_of, kind_of, part_at, parts_of};
ghost use Rattle.early_errors.specs.Early.{errors_within, parts_errors};
ghost use Rattle.early_errors.specs.Names.{parts_vars, var_names};
ghost use Rattle.early_errors.specs.Around.{settled};
ghost use Rattle.early_errors.specs.Knowing.{KnownIn};
ghost use Rattle.early_errors.specs.Owns.{inside_of, makes_scope, plain_errors, round, vars_of};
ghost use Rattle.early_errors.specs.Passed.{IsHandedOn};
ghost use Rattle.name_tables.specs.Tables.{Agree};
ghost use Rattle.early_errors.specs.Walk.{after, hits, look, sooner};
ghost use Rattle.early_errors.specs.Walks.{Fits, range_errors, range_vars};

use crate::around::{Context, PartContexts, contexts_of, is_method};
use crate::conflicts::{Saved, VarConflicts, close_scope, open_scope};
use crate::found::FirstError;
use crate::labels::{Labels, is_true, known_loop, label_is_loop};
use crate::literals::either;
use crate::names::NamePlace;
use crate::own::{Surroundings, own_errors};
use crate::private_names::{PrivateNames, SavedPrivate, close_class, open_class};
use crate::profile::Language;
use crate::scopes::{place_of_scope, push_scope, scope_error, scope_errors, scope_kind};
use crate::skipping::{ErrorPlaces, error_places};
use crate::table::Table;
use crate::vars::has_no_var;
use std::alloc::{AllocError, Global};
use tree::{Form, Kind, Node};

/// For each name of a scope so many nodes are looked at for a `var`: less than the name costs where it is kept for one.
const NODES_PER_NAME: usize = 8;

/// What a walk carries.
#[derive(Drop)]
pub(crate) struct Walk<'t> {
    pub(crate) alloc: Global,
    /// The language of the tree.
    pub(crate) language: Language,
    /// The least error so far.
    pub(crate) found: FirstError,
    /// What a `var` of a name would clash with, in the scopes round a node, of the same function.
    pub(crate) vars: VarConflicts<'t>,
    /// The labels round a node, of the same function.
    pub(crate) labels: Labels<'t>,
    /// The private names of the classes round a node.
    pub(crate) privates: PrivateNames<'t>,
    /// Room for the names of one node.
    pub(crate) names: Vec<NamePlace<'t>>,
}

impl<'t> Walk<'t> {
    /// Before anything is found in a tree of a language.
    pub(crate) fn new(alloc: Global, language: Language) -> Walk<'t>
        ensures found { result.found ≡ None }
        ensures vars { Agree (look result.vars) (λ _. None) }
        ensures labels { Agree (look result.labels) (λ _. None) }
        ensures privates { Agree (look result.privates) (λ _. None) }
        ensures language { result.language ≡ language }
    {
        Walk {
            alloc,
            language,
            found: None,
            vars: Table::new(alloc),
            labels: Table::new(alloc),
            privates: Table::new(alloc),
            names: Vec::new(alloc),
        }
    }
}

/// How a walk goes on inside a node.
#[derive(Clone, Copy)]
pub(crate) enum WalkKind {
    Function,
    Method,
    Label,
    Scope,
    ClassBody,
    StaticBlock,
    Declaration,
    Plain,
}

/// How a walk goes on inside a node of this kind and form.
fn inside_of(kind: Kind, form: Form) -> WalkKind
    ensures { result ≡ inside_of kind form }
{
    match kind {
        Kind::FunctionDeclaration | Kind::FunctionExpression | Kind::ArrowFunctionExpression =>
            WalkKind::Function,
        Kind::MethodDefinition | Kind::PropertyDefinition => WalkKind::Method,
        Kind::ClassBody => WalkKind::ClassBody,
        Kind::StaticBlock => WalkKind::StaticBlock,
        Kind::Property => {
            if is_method(form) {
                WalkKind::Method
            } else {
                WalkKind::Plain
            }
        }
        Kind::LabeledStatement => WalkKind::Label,
        Kind::VariableDeclaration => WalkKind::Declaration,
        Kind::Program
        | Kind::BlockStatement
        | Kind::SwitchStatement
        | Kind::CatchClause
        | Kind::ForStatement
        | Kind::ForInStatement
        | Kind::ForOfStatement => WalkKind::Scope,
        _ => WalkKind::Plain,
    }
}

/// Finds the errors of a node and of all below it.
#[cycle(walk)]
#[tactic(auto, using(tree::proofs::PartWalk::part_steps))]
pub(crate) fn walk_node<'t>(
    node: Node<'t, '_>,
    around: Context,
    walk: &mut Walk<'t>,
) -> Result<(), AllocError>
    requires { Fits around (node_tree node) }
    ensures found { OnOk result ((r : _) → KnownIn walk.old r → walk.new.found ≡ sooner (after walk.old.found (errors_within (round around r) (node_tree node.entry))) (hits (look walk.old.vars) (var_names (node_tree node.entry)))) }
    ensures vars { OnOk result (Agree (look walk.new.vars) (look walk.old.vars)) }
    ensures labels { OnOk result (Agree (look walk.new.labels) (look walk.old.labels)) }
    ensures privates { OnOk result (Agree (look walk.new.privates) (look walk.old.privates)) }
    ensures language { OnOk result (walk.new.language ≡ walk.old.language) }
{
    let around = around.settled(node.kind());
    match error_places(node, around.no_arguments) {
        ErrorPlaces::Nowhere => Ok(()),
        ErrorPlaces::InParts => {
            let inner = around.within();
            walk_passed(node, &inner, walk)
        }
        ErrorPlaces::Anywhere => walk_special(node, around, walk),
    }
}

/// Finds the errors of a node's parts, by what stands round each of them.
#[cycle(walk)]
#[tactic(auto, using(tree::proofs::PartWalk::part_steps))]
fn walk_passed<'t>(
    node: Node<'t, '_>,
    around: &Context,
    walk: &mut Walk<'t>,
) -> Result<(), AllocError>
    requires handed_on { IsHandedOn around.now }
    requires unknown { around.now.labels_loop ≡ None }
    ensures found { OnOk result ((r : _) → KnownIn walk.old r → walk.new.found ≡ sooner (after walk.old.found (parts_errors (round around.now r) (round around.now r) (parts_of (node_tree node.entry)))) (hits (look walk.old.vars) (parts_vars (parts_of (node_tree node.entry))))) }
    ensures vars { OnOk result (Agree (look walk.new.vars) (look walk.old.vars)) }
    ensures labels { OnOk result (Agree (look walk.new.labels) (look walk.old.labels)) }
    ensures privates { OnOk result (Agree (look walk.new.privates) (look walk.old.privates)) }
    ensures language { OnOk result (walk.new.language ≡ walk.old.language) }
{
    let parts = node.parts();
    for index in 0..parts.len() {
        let Some(part) = parts.get(index) else {
            continue;
        };
        match error_places(part, around.no_arguments) {
            ErrorPlaces::Nowhere => {}
            ErrorPlaces::InParts => walk_passed(part, around, walk)?,
            ErrorPlaces::Anywhere => walk_special(part, *around, walk)?,
        }
    }
    Ok(())
}

/// Walks a node that may have errors itself; a function's body has `yield` and `await` by then.
#[cycle(walk)]
#[tactic(auto, using(tree::proofs::PartWalk::part_steps))]
#[inline(never)]
fn walk_special<'t>(
    node: Node<'t, '_>,
    around: Context,
    walk: &mut Walk<'t>,
) -> Result<(), AllocError>
    requires fits { Fits around (node_tree node) }
    requires settled { (r : _) → settled (round around r) (kind_of (node_tree node)) ≡ round around r }
    ensures found { OnOk result ((r : _) → KnownIn walk.old r → walk.new.found ≡ sooner (after walk.old.found (errors_within (round around r) (node_tree node.entry))) (hits (look walk.old.vars) (var_names (node_tree node.entry)))) }
    ensures vars { OnOk result (Agree (look walk.new.vars) (look walk.old.vars)) }
    ensures labels { OnOk result (Agree (look walk.new.labels) (look walk.old.labels)) }
    ensures privates { OnOk result (Agree (look walk.new.privates) (look walk.old.privates)) }
    ensures language { OnOk result (walk.new.language ≡ walk.old.language) }
{
    let surroundings = Surroundings {
        around,
        language: walk.language,
        vars: &walk.vars,
        labels: &walk.labels,
        privates: &walk.privates,
    };
    walk.found = own_errors(walk.alloc, node, surroundings, &mut walk.names, walk.found)?;
    match inside_of(node.kind(), node.flags().form) {
        WalkKind::Function => walk_function(node, around, walk),
        WalkKind::Method => walk_method(node, around, walk),
        WalkKind::Label => walk_label(node, around, walk),
        WalkKind::Scope => walk_scope(node, around, walk),
        WalkKind::ClassBody => walk_class_body(node, around, walk),
        WalkKind::StaticBlock => walk_static_block(node, around, walk),
        WalkKind::Declaration => {
            let inner = around.within();
            walk_passed(node, &inner, walk)
        }
        WalkKind::Plain => walk_parts(node, 0, node.part_count(), contexts_of(node, around), walk),
    }
}

/// Finds the errors of a node's parts from a place to another.
#[cycle(walk)]
#[tactic(auto, using(tree::proofs::PartWalk::part_steps))]
fn walk_parts<'t>(
    node: Node<'t, '_>,
    from: usize,
    to: usize,
    rounds: PartContexts,
    walk: &mut Walk<'t>,
) -> Result<(), AllocError>
    requires first { rounds.first.labels_loop ≡ None }
    requires others { (i : _) → (u : _) → 0 < i → Some u ≡ part_at (parts_of (node_tree node)) i → Fits rounds.others u }
    ensures found { OnOk result ((r : _) → KnownIn walk.old r → walk.new.found ≡ sooner (after walk.old.found (range_errors (round rounds.first r) (round rounds.others r) (parts_of (node_tree node.entry)) from (to - from))) (hits (look walk.old.vars) (range_vars (parts_of (node_tree node.entry)) from (to - from)))) }
    ensures vars { OnOk result (Agree (look walk.new.vars) (look walk.old.vars)) }
    ensures labels { OnOk result (Agree (look walk.new.labels) (look walk.old.labels)) }
    ensures privates { OnOk result (Agree (look walk.new.privates) (look walk.old.privates)) }
    ensures language { OnOk result (walk.new.language ≡ walk.old.language) }
{
    for index in from..to {
        if let Some(part) = node.part(index) {
            let around = if index == 0 {
                rounds.first
            } else {
                rounds.others
            };
            walk_node(part, around, walk)?;
        }
    }
    Ok(())
}

/// A function has labels and `var`s of its own.
#[cycle(walk)]
#[tactic(auto, using(tree::proofs::PartWalk::part_steps))]
fn walk_function<'t>(
    node: Node<'t, '_>,
    around: Context,
    walk: &mut Walk<'t>,
) -> Result<(), AllocError>
    requires inside { inside_of (kind_of (node_tree node)) (flags_of (node_tree node)).form ≡ WalkKind.Function }
    requires fits { Fits around (node_tree node) }
    requires settled { (r : _) → settled (round around r) (kind_of (node_tree node)) ≡ round around r }
    ensures found { OnOk result ((o : _) → (r : _) → KnownIn walk.old r → walk.old.found ≡ sooner (after o (plain_errors (round around r) (node_tree node.entry))) (hits (look walk.old.vars) (vars_of (node_tree node.entry))) → walk.new.found ≡ sooner (after o (errors_within (round around r) (node_tree node.entry))) (hits (look walk.old.vars) (var_names (node_tree node.entry)))) }
    ensures vars { OnOk result (Agree (look walk.new.vars) (look walk.old.vars)) }
    ensures labels { OnOk result (Agree (look walk.new.labels) (look walk.old.labels)) }
    ensures privates { OnOk result (Agree (look walk.new.privates) (look walk.old.privates)) }
    ensures language { OnOk result (walk.new.language ≡ walk.old.language) }
{
    let vars = walk.vars.take(walk.alloc);
    let labels = walk.labels.take(walk.alloc);
    let done = walk_parts(node, 0, node.part_count(), contexts_of(node, around), walk);
    walk.vars.put(vars);
    walk.labels.put(labels);
    done
}

/// The key of a method or field belongs to what surrounds it; its function or value doesn't.
#[cycle(walk)]
#[tactic(auto, using(tree::proofs::PartWalk::part_steps))]
fn walk_method<'t>(
    node: Node<'t, '_>,
    around: Context,
    walk: &mut Walk<'t>,
) -> Result<(), AllocError>
    requires inside { inside_of (kind_of (node_tree node)) (flags_of (node_tree node)).form ≡ WalkKind.Method }
    requires fits { Fits around (node_tree node) }
    requires settled { (r : _) → settled (round around r) (kind_of (node_tree node)) ≡ round around r }
    ensures found { OnOk result ((o : _) → (r : _) → KnownIn walk.old r → walk.old.found ≡ sooner (after o (plain_errors (round around r) (node_tree node.entry))) (hits (look walk.old.vars) (vars_of (node_tree node.entry))) → walk.new.found ≡ sooner (after o (errors_within (round around r) (node_tree node.entry))) (hits (look walk.old.vars) (var_names (node_tree node.entry)))) }
    ensures vars { OnOk result (Agree (look walk.new.vars) (look walk.old.vars)) }
    ensures labels { OnOk result (Agree (look walk.new.labels) (look walk.old.labels)) }
    ensures privates { OnOk result (Agree (look walk.new.privates) (look walk.old.privates)) }
    ensures language { OnOk result (walk.new.language ≡ walk.old.language) }
{
    let rounds = contexts_of(node, around);
    walk_parts(node, 0, 1, rounds, walk)?;
    let labels = walk.labels.take(walk.alloc);
    let done = walk_parts(node, 1, node.part_count(), rounds, walk);
    walk.labels.put(labels);
    done
}

/// A label stands round the parts of its statement.
#[cycle(walk)]
#[tactic(auto, using(tree::proofs::PartWalk::part_steps))]
fn walk_label<'t>(
    node: Node<'t, '_>,
    around: Context,
    walk: &mut Walk<'t>,
) -> Result<(), AllocError>
    requires inside { inside_of (kind_of (node_tree node)) (flags_of (node_tree node)).form ≡ WalkKind.Label }
    requires fits { Fits around (node_tree node) }
    requires settled { (r : _) → settled (round around r) (kind_of (node_tree node)) ≡ round around r }
    ensures found { OnOk result ((o : _) → (r : _) → KnownIn walk.old r → walk.old.found ≡ sooner (after o (plain_errors (round around r) (node_tree node.entry))) (hits (look walk.old.vars) (vars_of (node_tree node.entry))) → walk.new.found ≡ sooner (after o (errors_within (round around r) (node_tree node.entry))) (hits (look walk.old.vars) (var_names (node_tree node.entry)))) }
    ensures vars { OnOk result (Agree (look walk.new.vars) (look walk.old.vars)) }
    ensures labels { OnOk result (Agree (look walk.new.labels) (look walk.old.labels)) }
    ensures privates { OnOk result (Agree (look walk.new.privates) (look walk.old.privates)) }
    ensures language { OnOk result (walk.new.language ≡ walk.old.language) }
{
    let mut rounds = contexts_of(node, around);
    let Some(label) = node.part(0) else {
        return walk_parts(node, 0, node.part_count(), rounds, walk);
    };
    let is_loop = label_is_loop(node, around.labels_loop);
    rounds.others.labels_loop = known_loop(node, is_loop);
    let name = label.text();
    let before = walk.labels.value(name);
    let after = either(is_loop, is_true(before));
    walk_parts(node, 0, 1, rounds, walk)?;
    walk.labels.replace(name, Some(after))?;
    let done = walk_parts(node, 1, node.part_count(), rounds, walk);
    walk.labels.replace(name, before)?;
    done
}

/// Names of a scope clash with `var`s inside.
#[cycle(walk)]
#[tactic(auto, using(tree::proofs::PartWalk::part_steps))]
fn walk_scope<'t>(
    node: Node<'t, '_>,
    around: Context,
    walk: &mut Walk<'t>,
) -> Result<(), AllocError>
    requires inside { makes_scope (kind_of (node_tree node)) ≡ true }
    requires unlabelled { kind_of (node_tree node) ≡ StaticBlock → Agree (look walk.now.labels) (λ _. None) }
    requires alone { kind_of (node_tree node) ≡ StaticBlock → Agree (look walk.now.vars) (λ _. None) }
    requires fits { Fits around (node_tree node) }
    requires settled { (r : _) → settled (round around r) (kind_of (node_tree node)) ≡ round around r }
    ensures found { OnOk result ((o : _) → (r : _) → KnownIn walk.old r → walk.old.found ≡ sooner (after o (plain_errors (round around r) (node_tree node.entry))) (hits (look walk.old.vars) (vars_of (node_tree node.entry))) → walk.new.found ≡ sooner (after o (errors_within (round around r) (node_tree node.entry))) (hits (look walk.old.vars) (var_names (node_tree node.entry)))) }
    ensures vars { OnOk result (Agree (look walk.new.vars) (look walk.old.vars)) }
    ensures labels { OnOk result (Agree (look walk.new.labels) (look walk.old.labels)) }
    ensures privates { OnOk result (Agree (look walk.new.privates) (look walk.old.privates)) }
    ensures language { OnOk result (walk.new.language ≡ walk.old.language) }
{
    let mut names = Vec::new(walk.alloc);
    let mut saved = Vec::new(walk.alloc);
    walk_in_scope(node, around, &mut names, &mut saved, walk)
}

/// Walks a scope, with room for the names and for what stood there before.
#[cycle(walk)]
#[tactic(auto, using(tree::proofs::PartWalk::part_steps))]
fn walk_in_scope<'t>(
    node: Node<'t, '_>,
    around: Context,
    names: &mut Vec<NamePlace<'t>>,
    saved: &mut Vec<Saved<'t>>,
    walk: &mut Walk<'t>,
) -> Result<(), AllocError>
    requires inside { makes_scope (kind_of (node_tree node)) ≡ true }
    requires unlabelled { kind_of (node_tree node) ≡ StaticBlock → Agree (look walk.now.labels) (λ _. None) }
    requires alone { kind_of (node_tree node) ≡ StaticBlock → Agree (look walk.now.vars) (λ _. None) }
    requires fits { Fits around (node_tree node) }
    requires settled { (r : _) → settled (round around r) (kind_of (node_tree node)) ≡ round around r }
    requires names { names.now.items ≡ [] }
    requires saved { saved.now.items ≡ [] }
    ensures found { OnOk result ((o : _) → (r : _) → KnownIn walk.old r → walk.old.found ≡ sooner (after o (plain_errors (round around r) (node_tree node.entry))) (hits (look walk.old.vars) (vars_of (node_tree node.entry))) → walk.new.found ≡ sooner (after o (errors_within (round around r) (node_tree node.entry))) (hits (look walk.old.vars) (var_names (node_tree node.entry)))) }
    ensures vars { OnOk result (Agree (look walk.new.vars) (look walk.old.vars)) }
    ensures labels { OnOk result (Agree (look walk.new.labels) (look walk.old.labels)) }
    ensures privates { OnOk result (Agree (look walk.new.privates) (look walk.old.privates)) }
    ensures language { OnOk result (walk.new.language ≡ walk.old.language) }
{
    let kind = scope_kind(node.kind(), walk.language.is_module, around.is_body);
    push_scope(kind, node, names)?;
    let declared = names.as_slice();
    walk.found = scope_errors(walk.alloc, kind, node, declared, walk.found)?;
    let rounds = contexts_of(node, around);
    let from = place_of_scope(kind, node);
    let to = node.part_count();
    walk_parts(node, 0, from, rounds, walk)?;
    if has_no_var(node, from, declared.len().saturating_mul(NODES_PER_NAME)) {
        return walk_parts(node, from, to, rounds, walk);
    }
    open_scope(&mut walk.vars, declared, scope_error(kind), saved)?;
    walk_parts(node, from, to, rounds, walk)?;
    close_scope(&mut walk.vars, saved)
}

/// A class body has private names.
#[cycle(walk)]
#[tactic(auto, using(tree::proofs::PartWalk::part_steps))]
fn walk_class_body<'t>(
    node: Node<'t, '_>,
    around: Context,
    walk: &mut Walk<'t>,
) -> Result<(), AllocError>
    requires inside { inside_of (kind_of (node_tree node)) (flags_of (node_tree node)).form ≡ WalkKind.ClassBody }
    requires fits { Fits around (node_tree node) }
    requires settled { (r : _) → settled (round around r) (kind_of (node_tree node)) ≡ round around r }
    ensures found { OnOk result ((o : _) → (r : _) → KnownIn walk.old r → walk.old.found ≡ sooner (after o (plain_errors (round around r) (node_tree node.entry))) (hits (look walk.old.vars) (vars_of (node_tree node.entry))) → walk.new.found ≡ sooner (after o (errors_within (round around r) (node_tree node.entry))) (hits (look walk.old.vars) (var_names (node_tree node.entry)))) }
    ensures vars { OnOk result (Agree (look walk.new.vars) (look walk.old.vars)) }
    ensures labels { OnOk result (Agree (look walk.new.labels) (look walk.old.labels)) }
    ensures privates { OnOk result (Agree (look walk.new.privates) (look walk.old.privates)) }
    ensures language { OnOk result (walk.new.language ≡ walk.old.language) }
{
    let mut saved = Vec::new(walk.alloc);
    walk_in_class(node, around, &mut saved, walk)
}

/// Walks a class, with room for what its private names stood for before.
#[cycle(walk)]
#[tactic(auto, using(tree::proofs::PartWalk::part_steps))]
fn walk_in_class<'t>(
    node: Node<'t, '_>,
    around: Context,
    saved: &mut Vec<SavedPrivate<'t>>,
    walk: &mut Walk<'t>,
) -> Result<(), AllocError>
    requires inside { inside_of (kind_of (node_tree node)) (flags_of (node_tree node)).form ≡ WalkKind.ClassBody }
    requires fits { Fits around (node_tree node) }
    requires settled { (r : _) → settled (round around r) (kind_of (node_tree node)) ≡ round around r }
    requires saved { saved.now.items ≡ [] }
    ensures found { OnOk result ((o : _) → (r : _) → KnownIn walk.old r → walk.old.found ≡ sooner (after o (plain_errors (round around r) (node_tree node.entry))) (hits (look walk.old.vars) (vars_of (node_tree node.entry))) → walk.new.found ≡ sooner (after o (errors_within (round around r) (node_tree node.entry))) (hits (look walk.old.vars) (var_names (node_tree node.entry)))) }
    ensures vars { OnOk result (Agree (look walk.new.vars) (look walk.old.vars)) }
    ensures labels { OnOk result (Agree (look walk.new.labels) (look walk.old.labels)) }
    ensures privates { OnOk result (Agree (look walk.new.privates) (look walk.old.privates)) }
    ensures language { OnOk result (walk.new.language ≡ walk.old.language) }
{
    open_class(&mut walk.privates, node, saved)?;
    walk_parts(node, 0, node.part_count(), contexts_of(node, around), walk)?;
    close_class(&mut walk.privates, saved)
}

/// A static block has labels and `var`s of its own, as a function has, and a scope.
#[cycle(walk)]
#[tactic(auto, using(tree::proofs::PartWalk::part_steps))]
fn walk_static_block<'t>(
    node: Node<'t, '_>,
    around: Context,
    walk: &mut Walk<'t>,
) -> Result<(), AllocError>
    requires inside { inside_of (kind_of (node_tree node)) (flags_of (node_tree node)).form ≡ WalkKind.StaticBlock }
    requires fits { Fits around (node_tree node) }
    requires settled { (r : _) → settled (round around r) (kind_of (node_tree node)) ≡ round around r }
    ensures found { OnOk result ((o : _) → (r : _) → KnownIn walk.old r → walk.old.found ≡ sooner (after o (plain_errors (round around r) (node_tree node.entry))) (hits (look walk.old.vars) (vars_of (node_tree node.entry))) → walk.new.found ≡ sooner (after o (errors_within (round around r) (node_tree node.entry))) (hits (look walk.old.vars) (var_names (node_tree node.entry)))) }
    ensures vars { OnOk result (Agree (look walk.new.vars) (look walk.old.vars)) }
    ensures labels { OnOk result (Agree (look walk.new.labels) (look walk.old.labels)) }
    ensures privates { OnOk result (Agree (look walk.new.privates) (look walk.old.privates)) }
    ensures language { OnOk result (walk.new.language ≡ walk.old.language) }
{
    let vars = walk.vars.take(walk.alloc);
    let labels = walk.labels.take(walk.alloc);
    let done = walk_scope(node, around, walk);
    walk.vars.put(vars);
    walk.labels.put(labels);
    done
}
