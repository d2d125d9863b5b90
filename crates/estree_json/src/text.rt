//! The text of a tree's JSON.

ghost use Rattle.std.specs.Prelude.{◌≡◌, IfOk};
ghost use Rattle.std.specs.String.{string_bytes};
ghost use Rattle.estree_json.specs.Json.{json_text};

use crate::estree::Estree;
use crate::node::to_value;
use std::alloc::{AllocError, Global};
use tree::Program;

/// The value of a script as JSON without spaces.
///
/// # Errors
///
/// `AllocError` where memory is refused. No clause of `serde_json::to_string` rules out other errors. So where one isn't of memory, the
/// text is that of `to_value`, whose only error is `AllocError`.
pub fn tree_text(alloc: Global, program: &Program) -> Result<String, AllocError>
    ensures { IfOk result (λ text. string_bytes text ≡ json_text program.now) }
{
    match serde_json::to_string(alloc, &Estree::of_program(alloc, program)) {
        Ok(text) => Ok(text),
        Err(error) if error.is_memory() => Err(AllocError),
        Err(_) => to_value(alloc, program)?.to_string(alloc),
    }
}
