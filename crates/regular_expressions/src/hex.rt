//! HexDigits, and RegExpUnicodeEscapeSequence behind its `\u` (22.2.1).

ghost use Rattle.std.specs.Prelude.{◌≡◌, ◌<◌, ◌≤◌, ◌∷◌, None, IfSome, IfNone, IsTrue, IsFalse};
ghost use Rattle.std.specs.Char.{digit_value};
ghost use Rattle.source_text.specs.Source.{IsPlace};
ghost use Rattle.tokens.specs.Alphabet.{is_hex_digit};
ghost use Rattle.tokens.specs.Reading.{behind};
ghost use Rattle.regular_expressions.specs.Characters.{braced, hex_digits, is_lead, is_trail, trail, unicode_escape, unit};
ghost use Rattle.regular_expressions.specs.Scanned.{IsRead};

use tokens::char_at;

/// A number, or the value of a character, and the place behind it.
#[derive(Clone, Copy)]
pub(crate) struct Number {
    pub value: u32,
    pub end: usize,
}

/// The value of a hexadecimal digit; none for other characters.
#[inline]
fn hex_digit(c: char) -> Option<u32>
    ensures some { IfSome result (λ d. (d ≡ digit_value c) × (d < 16) × IsTrue (is_hex_digit c)) }
    ensures none { IfNone result (IsFalse (is_hex_digit c)) }
{
    match c {
        '0'..='9' => Some(c as u32 - '0' as u32),
        'a'..='f' => Some(c as u32 - 'a' as u32 + 10),
        'A'..='F' => Some(c as u32 - 'A' as u32 + 10),
        _ => None,
    }
}

/// So many hexadecimal digits, at most four.
pub(crate) fn hex_digits(text: &str, at: usize, count: u32) -> Option<Number>
    requires place { IsPlace text.now at }
    requires few { count ≤ 4 }
    ensures some { IfSome result (λ r. IsRead (hex_digits count (behind text.now at)) r.value text.now at r.end) }
    ensures small { IfSome result (λ r. r.value < 0x1_0000) }
    ensures none { IfNone result (hex_digits count (behind text.now at) ≡ None) }
{
    let mut end = at;
    let mut value = 0u32;
    for _ in 0..count {
        let Some(step) = char_at(text, end) else {
            return None;
        };
        let Some(digit) = hex_digit(step.c) else {
            return None;
        };
        value = value * 16 + digit;
        end = step.end;
    }
    Some(Number { value, end })
}

/// A code point in hexadecimal digits and the `}` behind it.
fn braced(text: &str, at: usize) -> Option<Number>
    requires { IsPlace text.now at }
    ensures some { IfSome result (λ r. IsRead (braced (behind text.now at)) r.value text.now at r.end) }
    ensures none { IfNone result (braced (behind text.now at) ≡ None) }
{
    let mut end = at;
    let mut value = 0u32;
    while let Some(step) = char_at(text, end) {
        let Some(digit) = hex_digit(step.c) else {
            break;
        };
        value = (value * 16 + digit).min(0x11_0000);
        end = step.end;
    }
    if end == at || value > 0x10_FFFF {
        return None;
    }
    let Some(close) = char_at(text, end) else {
        return None;
    };
    if close.c != '}' {
        return None;
    }
    Some(Number {
        value,
        end: close.end,
    })
}

/// Whether the value is that of a lead surrogate.
pub fn is_lead(value: u32) -> bool
    ensures { result ≡ is_lead value }
{
    matches!(value, 0xD800..=0xDBFF)
}

/// Whether the value is that of a trail surrogate.
pub fn is_trail(value: u32) -> bool
    ensures { result ≡ is_trail value }
{
    matches!(value, 0xDC00..=0xDFFF)
}

/// A trail surrogate with its `\u`.
fn trail(text: &str, at: usize) -> Option<Number>
    requires { IsPlace text.now at }
    ensures some { IfSome result (λ r. IsRead (trail (behind text.now at)) r.value text.now at r.end) }
    ensures trail { IfSome result (λ r. IsTrue (is_trail r.value)) }
    ensures none { IfNone result (trail (behind text.now at) ≡ None) }
{
    let Some(first) = char_at(text, at) else {
        return None;
    };
    let Some(second) = char_at(text, first.end) else {
        return None;
    };
    if first.c != '\\' || second.c != 'u' {
        return None;
    }
    let Some(digits) = hex_digits(text, second.end, 4) else {
        return None;
    };
    if !is_trail(digits.value) {
        return None;
    }
    Some(digits)
}

/// Four digits; with `is_unicode` a lead surrogate goes with the trail surrogate behind it.
fn unit(text: &str, is_unicode: bool, at: usize) -> Option<Number>
    requires { IsPlace text.now at }
    ensures some { IfSome result (λ r. IsRead (unit is_unicode (hex_digits 4 (behind text.now at))) r.value text.now at r.end) }
    ensures none { IfNone result (unit is_unicode (hex_digits 4 (behind text.now at)) ≡ None) }
{
    let Some(lead) = hex_digits(text, at, 4) else {
        return None;
    };
    if !is_unicode || !is_lead(lead.value) {
        return Some(lead);
    }
    let Some(trail) = trail(text, lead.end) else {
        return Some(lead);
    };
    Some(Number {
        value: 0x1_0000 + 0x400 * (lead.value - 0xD800) + (trail.value - 0xDC00),
        end: trail.end,
    })
}

/// RegExpUnicodeEscapeSequence behind its `\u`.
pub(crate) fn unicode_escape(text: &str, is_unicode: bool, at: usize) -> Option<Number>
    requires { IsPlace text.now at }
    ensures some { IfSome result (λ r. IsRead (unicode_escape is_unicode (behind text.now at)) r.value text.now at r.end) }
    ensures none { IfNone result (unicode_escape is_unicode (behind text.now at) ≡ None) }
{
    let Some(first) = char_at(text, at) else {
        return None;
    };
    if is_unicode && first.c == '{' {
        return braced(text, first.end);
    }
    unit(text, is_unicode, at)
}
