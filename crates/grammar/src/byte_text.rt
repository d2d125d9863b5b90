//! Texts, byte by byte.

ghost use Rattle.std.specs.Prelude.{◌≡◌, slice_index_or};
ghost use Rattle.std.specs.Str.{bytes_eq};

/// The first byte of a text; 0 where it has none.
pub fn first_byte(text: &str) -> u8
    ensures { result ≡ slice_index_or text.now 0 0 }
{
    match text.as_bytes().first() {
        Some(first) => *first,
        None => 0,
    }
}

/// Whether the two texts are the same. If the compiler knows the second one, this becomes a few tests of bytes, which
/// cost less than a call of `==`.
#[inline(always)]
pub(crate) fn is_exactly(text: &str, other: &str) -> bool
    ensures { result ≡ bytes_eq text.now other.now }
{
    let (bytes, others) = (text.as_bytes(), other.as_bytes());
    if bytes.len() != others.len() {
        return false;
    }
    'bytes: for i in 0..others.len() {
        if bytes[i] != others[i] {
            return false;
        }
    }
    true
}
