//! Bytes of texts.

ghost use Rattle.std.specs.Prelude.{◌≡◌};
ghost use Rattle.literal_rules.specs.Bytes.{byte_at, is_digit, is_hex_digit, is_quote};

/// The byte at a place; 0 behind the end.
pub(crate) fn byte_at(bytes: &[u8], place: usize) -> u8
    ensures { result ≡ byte_at bytes.now place }
{
    match bytes.get(place) {
        Some(byte) => *byte,
        None => 0,
    }
}

/// Whether a byte is a quotation mark of strings.
pub(crate) fn is_quote(byte: u8) -> bool
    ensures { result ≡ is_quote byte }
{
    byte == b'"' || byte == b'\''
}

/// Whether a byte is a decimal digit.
pub(crate) fn is_digit(byte: u8) -> bool
    ensures { result ≡ is_digit byte }
{
    byte >= 48 && byte <= 57
}

/// Whether a byte is a hexadecimal digit.
pub(crate) fn is_hex_digit(byte: u8) -> bool
    ensures { result ≡ is_hex_digit byte }
{
    is_digit(byte) || (byte >= 97 && byte <= 102) || (byte >= 65 && byte <= 70)
}
