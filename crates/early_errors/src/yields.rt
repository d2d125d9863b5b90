//! `yield` and `await` where they may not stand (ECMA-262, 13th edition), and `async` on the left of a for-of.

ghost use Rattle.std.specs.Prelude.{◌≡◌, ◌&&◌, not, option_map};
ghost use Rattle.tree.specs.Node.{node_tree};
ghost use Rattle.tree.specs.Tree.{kind_of, text_of};
ghost use Rattle.language.specs.Vocabulary.{is, is_identifier};
ghost use Rattle.early_errors.specs.Names.{when};
ghost use Rattle.early_errors.specs.Early.{each, own_errors};
ghost use Rattle.early_errors.specs.Owns.{Beside, async_places, own_of, round};
ghost use Rattle.early_errors.specs.Walk.{after};
ghost use Rattle.early_errors.specs.Yields.{await_outside_async, for_async_of};
ghost use Rattle.early_errors.specs.declared.own.OwnErrors.{OwnErrors};

use crate::EarlyError;
use crate::around::Context;
use crate::found::{FirstError, with_error_if};
use crate::literals::both;
use crate::profile::Language;
use tree::Node;

/// A `yield` that isn't in the body of a generator.
pub(crate) fn yield_errors(node: Node, around: Context, found: FirstError) -> FirstError
    requires { own_of (kind_of (node_tree node)) ≡ OwnErrors.Yield }
    ensures { (r : Beside) → result ≡ after found (own_errors (round around r) (node_tree node.entry)) }
{
    with_error_if(
        !around.body_form.is_generator(),
        found,
        EarlyError::YieldOutsideGenerator,
        node.span().start,
    )
}

/// An `await` that is neither in the body of an async function nor at the top of a module.
pub(crate) fn await_errors(node: Node, around: Context, found: FirstError) -> FirstError
    requires { own_of (kind_of (node_tree node)) ≡ OwnErrors.Await }
    ensures { (r : Beside) → result ≡ after found (own_errors (round around r) (node_tree node.entry)) }
{
    with_error_if(
        !around.body_form.is_async(),
        found,
        EarlyError::AwaitOutsideAsync,
        node.span().start,
    )
}

/// A `for await` where `await` may not stand; a for-of without `await` whose left side is the name `async`.
pub(crate) fn for_of_errors(
    node: Node,
    around: Context,
    language: Language,
    found: FirstError,
) -> FirstError
    requires { own_of (kind_of (node_tree node)) ≡ OwnErrors.ForOf }
    ensures { (r : Beside) → language.is_2022 ≡ r.of_2022 → result ≡ after (after found (each EarlyError.AwaitOutsideAsync (await_outside_async (round around r) (node_tree node.entry)))) (each EarlyError.ForAsyncOf (for_async_of (round around r) (node_tree node.entry))) }
{
    let awaits = node.flags().form.is_async();
    let found = with_error_if(
        both(awaits, !around.body_form.is_async()),
        found,
        EarlyError::AwaitOutsideAsync,
        node.span().start,
    );
    async_error(node.part(0), both(!awaits, language.is_2022), found)
}

/// The error of a left side that is the name `async`, where that is one.
fn async_error(left: Option<Node>, is_one: bool, found: FirstError) -> FirstError
    ensures { result ≡ after found (each EarlyError.ForAsyncOf (when is_one (async_places (option_map node_tree left.entry)))) }
{
    match left {
        Some(left) => with_error_if(
            both(is_one, is_async_name(left)),
            found,
            EarlyError::ForAsyncOf,
            left.span().start,
        ),
        None => found,
    }
}

/// Whether a node is the name `async`.
fn is_async_name(node: Node) -> bool
    ensures { result ≡ (is_identifier (kind_of (node_tree node.entry)) && is (text_of (node_tree node.entry)) "async") }
{
    both(node.kind().is_identifier(), node.text() == "async")
}
