//! Names that `no-unused-vars` leaves alone for where they stand: the parameters of setters, and properties beside a rest element.

ghost use Rattle.std.specs.Prelude.{◌≡◌, ◌++◌, ℕ, map, nat_eq, option_map, IfOk, OnOk};
ghost use Rattle.std.specs.List.{list_any};
ghost use Rattle.tree.specs.Fields.{last_part};
ghost use Rattle.tree.specs.Flat.{post_order};
ghost use Rattle.tree.specs.Node.{node_tree};
ghost use Rattle.tree.specs.Tree.{parts_of, start_of};
ghost use Rattle.name_tables.specs.BoundNames.{bound_names, each_part};
ghost use Rattle.name_tables.specs.PatternParts.{at_part};
ghost use Rattle.rules.specs.LeftAlone.{all_starts, first_param, is_left_alone, is_rest, looks_at_params, name_start, of_part, params_of, rest_siblings, setter_params, sibling, starts_left_alone, starts_of};

use crate::rule_option::{CheckedParams, RuleOptions};
use name_tables::{BoundName, last_part, push_names};
use std::alloc::{AllocError, Global};
use std::collections::BTreeSet;
use tree::{Form, Kind, Node, Program};

/// Why names are left alone.
#[derive(Clone, Copy)]
pub(crate) enum LeftAlone {
    /// A setter has to have a parameter.
    SetterParams,
    /// A property beside a rest element is left out of its object.
    RestSiblings,
}

/// Where the identifiers stand that options leave alone in a script.
pub(crate) fn left_alone(
    alloc: Global,
    options: RuleOptions,
    program: &Program,
) -> Result<BTreeSet<usize>, AllocError>
    ensures { IfOk result (λ s. (at : ℕ) → list_any (nat_eq at) s.keys ≡ is_left_alone options program.now at) }
{
    let mut starts = Vec::new(alloc);
    if looks_at_params(options.params) {
        push_all_starts(alloc, LeftAlone::SetterParams, program, &mut starts)?;
    }
    if options.ignore_rest_siblings {
        push_all_starts(alloc, LeftAlone::RestSiblings, program, &mut starts)?;
    }
    as_set(alloc, &starts)
}

/// Whether parameters are looked at.
fn looks_at_params(params: CheckedParams) -> bool
    ensures { result ≡ looks_at_params params }
{
    !matches!(params, CheckedParams::NoParams)
}

/// Offsets as a set.
fn as_set(alloc: Global, starts: &[usize]) -> Result<BTreeSet<usize>, AllocError>
    ensures { IfOk result (λ s. (at : ℕ) → list_any (nat_eq at) s.keys ≡ list_any (nat_eq at) starts.now) }
{
    let mut set = BTreeSet::new(alloc);
    for start in starts {
        set.insert(*start)?;
    }
    Ok(set)
}

/// Appends where the identifiers stand that a script leaves alone for one reason.
fn push_all_starts(
    alloc: Global,
    why: LeftAlone,
    program: &Program,
    starts: &mut Vec<usize>,
) -> Result<(), AllocError>
    ensures { OnOk result (starts.new.items ≡ starts.old.items ++ all_starts why (post_order program.now)) }
{
    for number in 0..program.node_count() {
        push_starts(alloc, why, program.node(number), starts)?;
    }
    Ok(())
}

/// Appends where those of a node stand.
fn push_starts(
    alloc: Global,
    why: LeftAlone,
    node: Node,
    starts: &mut Vec<usize>,
) -> Result<(), AllocError>
    ensures { OnOk result (starts.new.items ≡ starts.old.items ++ starts_of why (node_tree node.entry)) }
{
    match why {
        LeftAlone::SetterParams => push_setter_params(alloc, node, starts),
        LeftAlone::RestSiblings => push_rest_siblings(node, starts),
    }
}

/// Appends where the parameter of a setter stands.
fn push_setter_params(alloc: Global, node: Node, starts: &mut Vec<usize>) -> Result<(), AllocError>
    ensures { OnOk result (starts.new.items ≡ starts.old.items ++ setter_params (node_tree node.entry)) }
{
    match node.kind() {
        Kind::MethodDefinition | Kind::Property => {
            push_params_of(alloc, node.flags().form, last_part(node), starts)
        },
        _ => Ok(()),
    }
}

/// Appends where the parameter stands of the function of a method or property of this form, if that is a setter.
fn push_params_of(
    alloc: Global,
    form: Form,
    function: Option<Node>,
    starts: &mut Vec<usize>,
) -> Result<(), AllocError>
    ensures { OnOk result (starts.new.items ≡ starts.old.items ++ params_of form (option_map node_tree function.entry)) }
{
    match (form, function) {
        (Form::Set, Some(function)) => push_first_param(alloc, function, starts),
        _ => Ok(()),
    }
}

/// Appends where the names of a function's first parameter stand.
fn push_first_param(
    alloc: Global,
    function: Node,
    starts: &mut Vec<usize>,
) -> Result<(), AllocError>
    ensures { OnOk result (starts.new.items ≡ starts.old.items ++ first_param (node_tree function.entry)) }
{
    match function.part(1) {
        Some(param) => push_bound(alloc, param, starts),
        None => Ok(()),
    }
}

/// Appends where the names of a pattern stand.
fn push_bound(alloc: Global, pattern: Node, starts: &mut Vec<usize>) -> Result<(), AllocError>
    ensures { OnOk result (starts.new.items ≡ starts.old.items ++ bound_names start_of (node_tree pattern.entry)) }
{
    let mut names = Vec::new(alloc);
    push_names(pattern, (), &mut names)?;
    push_all_places(&names, starts)
}

/// Appends where names stand.
fn push_all_places(names: &[BoundName<()>], starts: &mut Vec<usize>) -> Result<(), AllocError>
    ensures { OnOk result (starts.new.items ≡ starts.old.items ++ map (λ name. name.start) names.now) }
{
    for name in names {
        starts.push(name.start)?;
    }
    Ok(())
}

/// Appends where the properties beside a rest element stand.
fn push_rest_siblings(node: Node, starts: &mut Vec<usize>) -> Result<(), AllocError>
    ensures { OnOk result (starts.new.items ≡ starts.old.items ++ rest_siblings (node_tree node.entry)) }
{
    match node.kind() {
        Kind::ObjectPattern if is_rest(last_part(node)) => push_siblings(node, starts),
        _ => Ok(()),
    }
}

/// Whether it is a rest element.
fn is_rest(part: Option<Node>) -> bool
    ensures { result ≡ is_rest (option_map node_tree part.entry) }
{
    match part {
        Some(part) => matches!(part.kind(), Kind::RestElement),
        None => false,
    }
}

/// Appends where the names stand that are values of properties of a pattern.
fn push_siblings(node: Node, starts: &mut Vec<usize>) -> Result<(), AllocError>
    ensures { OnOk result (starts.new.items ≡ starts.old.items ++ each_part sibling (parts_of (node_tree node.entry))) }
{
    let parts = node.parts();
    for index in 0..parts.len() {
        push_sibling(parts.get(index), starts)?;
    }
    Ok(())
}

/// Appends where the name stands that is the value of a property.
fn push_sibling(part: Option<Node>, starts: &mut Vec<usize>) -> Result<(), AllocError>
    ensures { OnOk result (starts.new.items ≡ starts.old.items ++ at_part sibling (option_map node_tree part.entry)) }
{
    let Some(part) = part else {
        return Ok(());
    };
    match part.kind() {
        Kind::Property => push_name(last_part(part), starts),
        _ => Ok(()),
    }
}

/// Appends where a name stands.
fn push_name(part: Option<Node>, starts: &mut Vec<usize>) -> Result<(), AllocError>
    ensures { OnOk result (starts.new.items ≡ starts.old.items ++ of_part name_start (option_map node_tree part.entry)) }
{
    let Some(part) = part else {
        return Ok(());
    };
    match part.kind() {
        Kind::Identifier => {
            starts.push(part.span().start)?;
            Ok(())
        },
        _ => Ok(()),
    }
}
