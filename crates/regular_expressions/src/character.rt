//! Characters of names and of ASCII.

ghost use Rattle.std.specs.Prelude.{◌≡◌};
ghost use Rattle.regular_expressions.specs.Characters.{is_id_continue, is_id_start};
ghost use Rattle.regular_expressions.specs.Names.{is_part, is_start, stands_in_name};

use unicode_ident::{is_xid_continue, is_xid_start};

/// Whether the character is a UnicodeIDStart.
fn is_id_start(c: char) -> bool
    ensures { result ≡ is_id_start c }
{
    if is_xid_start(c) {
        return true;
    }
    matches!(
        c as u32,
        0x37A
            | 0xE33
            | 0xEB3
            | 0x309B
            | 0x309C
            | 0xFC5E
            | 0xFC5F
            | 0xFC60
            | 0xFC61
            | 0xFC62
            | 0xFC63
            | 0xFDFA
            | 0xFDFB
            | 0xFE70
            | 0xFE72
            | 0xFE74
            | 0xFE76
            | 0xFE78
            | 0xFE7A
            | 0xFE7C
            | 0xFE7E
            | 0xFF9E
            | 0xFF9F
    )
}

/// Whether the character is a UnicodeIDContinue.
pub(crate) fn is_id_continue(c: char) -> bool
    ensures { result ≡ is_id_continue c }
{
    if is_xid_continue(c) {
        return true;
    }
    matches!(
        c as u32,
        0x37A
            | 0x309B
            | 0x309C
            | 0xFC5E
            | 0xFC5F
            | 0xFC60
            | 0xFC61
            | 0xFC62
            | 0xFC63
            | 0xFDFA
            | 0xFDFB
            | 0xFE70
            | 0xFE72
            | 0xFE74
            | 0xFE76
            | 0xFE78
            | 0xFE7A
            | 0xFE7C
            | 0xFE7E
    )
}

/// Whether the character may begin a name.
fn is_start(c: char) -> bool
    ensures { result ≡ is_start c }
{
    if c == '$' || c == '_' {
        return true;
    }
    is_id_start(c)
}

/// Whether the character may stand in a name.
fn is_part(c: char) -> bool
    ensures { result ≡ is_part c }
{
    if c == '$' || c == '\u{200C}' || c == '\u{200D}' {
        return true;
    }
    is_id_continue(c)
}

/// Whether a character of this value stands in a name, as its first or behind that.
pub(crate) fn stands_in_name(is_first: bool, value: u32) -> bool
    ensures { result ≡ stands_in_name is_first value }
{
    let Some(c) = char::from_u32(value) else {
        return false;
    };
    if is_first { is_start(c) } else { is_part(c) }
}
