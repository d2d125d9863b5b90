//! A text with some of its bytes replaced.

ghost use Rattle.std.specs.Prelude.{◌≡◌, ◌++◌, ◌≤◌, IfSome, drop, length, true};
ghost use Rattle.mending.specs.Splices.{IsSpliced};

use std::alloc::{AllocError, Global};

/// Bytes of a text that go, and what comes in their place.
#[derive(Clone, Copy)]
pub struct Edit {
    /// The offset of the first byte that goes.
    pub start: usize,
    /// The offset behind the last.
    pub end: usize,
    pub text: &'static str,
}

/// How many bytes come by edits.
fn inserted_bytes(edits: &[Edit]) -> usize {
    let mut count = 0usize;
    for edit in edits {
        count = count.saturating_add(edit.text.len());
    }
    count
}

/// The bytes of a text with these edits; nothing where they overlap or aren't in order.
pub(crate) fn spliced(
    alloc: Global,
    text: &[u8],
    edits: &[Edit],
) -> Result<Option<Vec<u8>>, AllocError> {
    let room = text.len().saturating_add(inserted_bytes(edits));
    let mut out = Vec::with_capacity(alloc, room)?;
    let mut at = 0usize;
    for edit in edits {
        if edit.start < at || edit.start > text.len() {
            return Ok(None);
        }
        out.extend_from_slice(&text[at..edit.start])?;
        out.extend_from_slice(edit.text.as_bytes())?;
        at = edit.end;
    }
    if at > text.len() {
        return Ok(None);
    }
    out.extend_from_slice(&text[at..])?;
    Ok(Some(out))
}

/// Whether bytes are the same.
fn are_same(bytes: &[u8], others: &[u8]) -> bool
    ensures { result ≡ true → bytes.now ≡ others.now }
{
    bytes == others
}

/// Where bytes end that stand at a place of a text.
fn end_of(text: &[u8], at: usize, bytes: &[u8]) -> Option<usize>
    requires { at ≤ length text.now }
    ensures { IfSome result (λ end. (end ≤ length text.now) × (drop at text.now ≡ bytes.now ++ drop end text.now)) }
{
    if text.len() - at < bytes.len() {
        return None;
    }
    let end = at + bytes.len();
    if are_same(&text[at..end], bytes) {
        return Some(end);
    }
    None
}

/// Whether the next text is a text with these edits, none of which overlap.
pub(crate) fn is_spliced(text: &[u8], edits: &[Edit], next: &[u8]) -> bool
    ensures { result ≡ true → IsSpliced text.now edits.now next.now }
{
    let mut at = 0usize;
    let mut to = 0usize;
    for edit in edits {
        let edit = *edit;
        if edit.start < at || edit.end < edit.start || edit.end > text.len() {
            return false;
        }
        let Some(middle) = end_of(next, to, &text[at..edit.start]) else {
            return false;
        };
        let Some(end) = end_of(next, middle, edit.text.as_bytes()) else {
            return false;
        };
        at = edit.end;
        to = end;
    }
    are_same(&next[to..], &text[at..])
}
