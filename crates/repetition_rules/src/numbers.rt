//! Numbers as keys.

ghost use Rattle.std.specs.Prelude.{◌≡◌};
ghost use Rattle.repetition_rules.specs.Keys.{are_digits, begins_number, is_digit, is_plain, without_n};

/// Whether a text begins as a number does: with a digit or a point.
pub(crate) fn begins_number(text: &str) -> bool
    ensures { result ≡ begins_number text.now }
{
    match text.as_bytes().first() {
        Some(first) => *first == 46 || is_digit(*first),
        None => false,
    }
}

/// A bigint without its `n`; another text as it is.
pub(crate) fn without_n(text: &str) -> &str
    ensures { result.now ≡ without_n text.now }
{
    match text.strip_suffix('n') {
        Some(rest) => rest,
        None => text,
    }
}

/// Whether a text is a decimal integer of at most 15 digits.
pub(crate) fn is_plain(text: &str) -> bool
    ensures { result ≡ is_plain text.now }
{
    text.len() <= 15 && are_digits(text.as_bytes())
}

/// Whether bytes are digits.
fn are_digits(bytes: &[u8]) -> bool
    ensures { result ≡ are_digits bytes.now }
{
    for byte in bytes {
        if !is_digit(*byte) {
            return false;
        }
    }
    true
}

/// Whether a byte is a digit.
fn is_digit(byte: u8) -> bool
    ensures { result ≡ is_digit byte }
{
    byte >= 48 && byte <= 57
}
