//! Digits of number literals.

ghost use Rattle.std.specs.Prelude.{◌≡◌, ◌≤◌, length, IfOk};
ghost use Rattle.number_precision.specs.Digits.{trimmed, without_separators, without_zeros};

use std::alloc::{AllocError, Global};

/// A text without its separators.
pub(crate) fn without_separators(alloc: Global, text: &[u8]) -> Result<Vec<u8>, AllocError>
    ensures { IfOk result (λ v. v.items ≡ without_separators text.now) }
{
    let mut digits = Vec::with_capacity(alloc, text.len())?;
    for character in text {
        if *character != b'_' {
            digits.push(*character)?;
        }
    }
    Ok(digits)
}

/// Digits without zeros at the beginning.
pub(crate) fn without_zeros(digits: &[u8]) -> &[u8]
    ensures { result.now ≡ without_zeros digits.now }
{
    for index in 0..digits.len() {
        if digits[index] != b'0' {
            return &digits[index..];
        }
    }
    &digits[digits.len()..]
}

/// Digits without zeros at the end.
pub(crate) fn trimmed(digits: &[u8]) -> &[u8]
    ensures { result.now ≡ trimmed digits.now }
{
    let mut end = digits.len();
    while end > 0 && digits[end - 1] == b'0' {
        end -= 1;
    }
    &digits[..end]
}
