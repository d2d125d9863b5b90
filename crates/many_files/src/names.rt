//! The names that a list has.

ghost use Rattle.std.specs.Prelude.{◌≡◌, IfOk, map};
ghost use Rattle.many_files.specs.Names.{names_of};

use std::alloc::{AllocError, Global};

/// The names of a list, each as it stands there: a zero byte ends each, and the last may lack it. Takes a few bytes a name.
pub fn names_in(alloc: Global, list: &[u8]) -> Result<Vec<&[u8]>, AllocError>
    ensures { IfOk result (λ names. map (λ n. n.now) names.items ≡ names_of list.now) }
{
    let mut names = Vec::new(alloc);
    let mut start = 0;
    let mut at = 0;
    while at < list.len() {
        if list[at] == 0 {
            names.push(&list[start..at])?;
            start = at + 1;
        }
        at += 1;
    }
    if start < list.len() {
        names.push(&list[start..])?;
    }
    Ok(names)
}
