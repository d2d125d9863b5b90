//! Parameters of functions.

ghost use Rattle.std.specs.Prelude.{◌≡◌, [], ◌∷◌, false, not, option_map, IfOk};
ghost use Rattle.tree.specs.Node.{node_tree};
ghost use Rattle.tree.specs.Tree.{kind_of, parts_of, parts_drop};
ghost use Rattle.language.specs.Vocabulary.{among};
ghost use Rattle.early_errors.specs.Early.{each, own_errors};
ghost use Rattle.early_errors.specs.Functions.{is_simple, use_strict};
ghost use Rattle.name_tables.specs.PatternParts.{at_part};
ghost use Rattle.name_tables.specs.BoundNames.{each_part};
ghost use Rattle.early_errors.specs.Names.{body_items, lexical_names, places, shared, when};
ghost use Rattle.early_errors.specs.Owns.{function_name, is_plain, items_at, own_of, parameter_place, says_use_strict};
ghost use Rattle.early_errors.specs.Walk.{after, all_named, listed};
ghost use Rattle.early_errors.specs.declared.own.OwnErrors.{OwnErrors};

use crate::EarlyError;
use crate::conflicts::{repeated, restricted, shared};
use crate::found::{FirstError, with_place};
use crate::names::{NamePlace, push_lexical_parts, push_parameters, push_part_names};
use crate::scopes::body_of;
use std::alloc::{AllocError, Global};
use tree::{Kind, Node};

/// The errors of a function's name, parameters and directives, with room for the names.
pub(crate) fn function_errors<'t>(
    alloc: Global,
    node: Node<'t, '_>,
    names: &mut Vec<NamePlace<'t>>,
    found: FirstError,
) -> Result<FirstError, AllocError>
    requires { own_of (kind_of (node_tree node)) ≡ OwnErrors.Function }
    ensures { IfOk result (λ r. (z : _) → r ≡ after found (own_errors z (node_tree node.entry))) }
{
    let from = parameter_place(node.kind());
    names.clear();
    push_part_names(function_name(node, from), names)?;
    let named = restricted(names.as_slice(), found);
    names.clear();
    push_parameters(node, from, names)?;
    let bound = names.as_slice();
    let found = restricted(bound, named);
    let found = repeated(alloc, bound, EarlyError::DuplicateParameter, found)?;
    let body = body_of_function(node, from);
    let simple = is_simple(node, from);
    body_errors(alloc, body, simple, bound, found)
}

/// The place of a function's first parameter among its parts.
fn parameter_place(kind: Kind) -> usize
    ensures { result ≡ parameter_place kind }
{
    match kind {
        Kind::ArrowFunctionExpression => 0,
        _ => 1,
    }
}

/// The name, where one stands before the parameters.
fn function_name<'t, 's>(node: Node<'t, 's>, from: usize) -> Option<Node<'t, 's>>
    ensures { option_map node_tree result ≡ function_name from (parts_of (node_tree node.entry)) }
{
    if from == 0 {
        return None;
    }
    node.part(0)
}

/// The body where it is a block.
fn body_of_function<'t, 's>(node: Node<'t, 's>, from: usize) -> Option<Node<'t, 's>>
    ensures { items_at (option_map node_tree result) ≡ body_items (parts_drop from (parts_of (node_tree node.entry))) }
{
    if node.part_count() <= from {
        return None;
    }
    body_of(node)
}

/// The errors of a function's body, where it is a block, with the names of the parameters.
fn body_errors(
    alloc: Global,
    body: Option<Node>,
    simple: bool,
    parameters: &[NamePlace],
    found: FirstError,
) -> Result<FirstError, AllocError>
    ensures { IfOk result (λ r. r ≡ after (after found (each EarlyError.ParameterIsLexicalName (places (shared (each_part (lexical_names false) (items_at (option_map node_tree body.entry))) (all_named parameters.now))))) (each EarlyError.UseStrictBehindPattern (when (not simple) (each_part use_strict (items_at (option_map node_tree body.entry)))))) }
{
    let Some(body) = body else {
        return Ok(found);
    };
    let mut lexical = Vec::new(alloc);
    push_lexical_parts(false, body, &mut lexical)?;
    let found = shared(
        alloc,
        lexical.as_slice(),
        parameters,
        EarlyError::ParameterIsLexicalName,
        found,
    )?;
    if simple {
        return Ok(found);
    }
    Ok(use_strict(body, found))
}

/// Whether all parameters are names without more (ECMA-262 14.1.13).
fn is_simple(node: Node, from: usize) -> bool
    ensures { result ≡ is_simple (parts_drop from (parts_of (node_tree node.entry))) }
{
    let count = node.part_count();
    if count == 0 {
        return true;
    }
    for index in from..count - 1 {
        if !is_simple_parameter(node.part(index)) {
            return false;
        }
    }
    true
}

/// Whether a parameter, where it is there, is a name.
fn is_simple_parameter(parameter: Option<Node>) -> bool
    ensures { result ≡ is_plain (option_map node_tree parameter.entry) }
{
    match parameter {
        Some(parameter) => parameter.kind().is_identifier(),
        None => true,
    }
}

/// The directives `use strict` of a body.
fn use_strict(body: Node, found: FirstError) -> FirstError
    ensures { result ≡ after found (each EarlyError.UseStrictBehindPattern (each_part use_strict (parts_of (node_tree body.entry)))) }
{
    let mut found = found;
    for index in 0..body.part_count() {
        let place = directive_place(body.part(index));
        found = with_place(found, EarlyError::UseStrictBehindPattern, place);
    }
    found
}

/// The place of an item that is the directive, spelled so without escapes (ECMA-262 14.1.1).
fn directive_place(item: Option<Node>) -> Option<usize>
    ensures { listed result ≡ at_part use_strict (option_map node_tree item.entry) }
{
    let Some(item) = item else {
        return None;
    };
    if !item.flags().directive {
        return None;
    }
    if says_use_strict(item.part(0)) {
        Some(item.span().start)
    } else {
        None
    }
}

/// Whether a directive's literal is `'use strict'` or `"use strict"`.
fn says_use_strict(literal: Option<Node>) -> bool
    ensures { result ≡ says_use_strict (option_map node_tree literal.entry) }
{
    match literal {
        Some(literal) => is_use_strict(literal.text()),
        None => false,
    }
}

/// Whether the text is `'use strict'` or `"use strict"`, with its quotes.
fn is_use_strict(text: &str) -> bool
    ensures { result ≡ among text.now ("'use strict'" ∷ "\"use strict\"" ∷ []) }
{
    text == "'use strict'" || text == "\"use strict\""
}
