//! Sets of characters of ASCII.

ghost use Rattle.std.specs.Prelude.{◌≡◌, ◌<◌};
ghost use Rattle.tokens.specs.Sets.{has_bit};

/// Whether a character of ASCII is in a set, which has a bit for each: the first number those below U+0040.
#[inline]
pub(crate) fn is_in(set: &[u64; 2], c: char) -> bool
    requires { c < 128 }
    ensures { result ≡ has_bit set.now c }
{
    let bits = set[c as usize / 64];
    (bits >> (c as u32 % 64)) & 1 == 1
}
