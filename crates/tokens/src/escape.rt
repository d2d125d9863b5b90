//! Escapes of strings and templates (ECMA-262 11.8.4).

ghost use Rattle.std.specs.Prelude.{◌≡◌, ◌<◌, ◌≤◌, ◌∷◌, IfSome, IfNone, IsTrue, IsFalse};
ghost use Rattle.std.specs.Char.{digit_value};
ghost use Rattle.source_text.specs.Source.{IsPlace};
ghost use Rattle.source_text.specs.Lines.{is_line_terminator};
ghost use Rattle.tokens.specs.Alphabet.{is_hex_digit};
ghost use Rattle.tokens.specs.Escaped.{IsPieceAt};
ghost use Rattle.tokens.specs.Escapes.{escape, escaped_character, fixed_escape, piece, unicode_escape};
ghost use Rattle.tokens.specs.Reading.{behind};

use crate::character::char_at;
use source_text::is_line_terminator;

/// What an escape stands for, a code point or nothing, and the place behind it.
#[derive(Clone, Copy)]
pub struct Escaped {
    pub end: usize,
    pub value: Option<u32>,
}

/// The value of a hexadecimal digit; none for other characters.
#[inline]
fn hex_digit(c: char) -> Option<u32>
    ensures some { IfSome result (λ d. (d ≡ digit_value c) × (d < 16) × IsTrue (is_hex_digit c)) }
    ensures none { IfNone result (IsFalse (is_hex_digit c)) }
{
    match c {
        '0'..='9' => Some(c as u32 - '0' as u32),
        'a'..='f' => Some(c as u32 - 'a' as u32 + 10),
        'A'..='F' => Some(c as u32 - 'A' as u32 + 10),
        _ => None,
    }
}

/// The value of exactly this many hexadecimal digits, at most four, as in `\xHH` and `\uHHHH`.
fn fixed_digits(text: &str, at: usize, count: u32) -> Option<Escaped>
    requires place { IsPlace text.now at }
    requires few { count ≤ 4 }
    ensures some { IfSome result (λ e. IsPieceAt (fixed_escape count (behind text.now at)) 1 text.now at e) }
    ensures none { IfNone result (fixed_escape count (behind text.now at) ≡ None) }
{
    let mut end = at;
    let mut value = 0u32;
    for _ in 0..count {
        let Some(step) = char_at(text, end) else {
            return None;
        };
        let Some(digit) = hex_digit(step.c) else {
            return None;
        };
        value = value * 16 + digit;
        end = step.end;
    }
    Some(Escaped {
        end,
        value: Some(value),
    })
}

/// The value of the digits in `\u{…}`, from after the `{` on; at most 0x10FFFF.
fn code_point(text: &str, at: usize) -> Option<Escaped>
    requires { IsPlace text.now at }
    ensures some { IfSome result (λ e. IsPieceAt (unicode_escape (0x7B ∷ behind text.now at)) 2 text.now at e) }
    ensures none { IfNone result (unicode_escape (0x7B ∷ behind text.now at) ≡ None) }
{
    let mut end = at;
    let mut value = 0u32;
    while let Some(step) = char_at(text, end) {
        let Some(digit) = hex_digit(step.c) else {
            break;
        };
        value = (value * 16 + digit).min(0x11_0000);
        end = step.end;
    }
    if end == at || value > 0x10_FFFF {
        return None;
    }
    let Some(close) = char_at(text, end) else {
        return None;
    };
    if close.c != '}' {
        return None;
    }
    Some(Escaped {
        end: close.end,
        value: Some(value),
    })
}

/// The value of a UnicodeEscapeSequence after its `u`: four digits, or digits in braces (11.8.4).
fn unicode_escape(text: &str, at: usize) -> Option<Escaped>
    requires { IsPlace text.now at }
    ensures some { IfSome result (λ e. IsPieceAt (unicode_escape (behind text.now at)) 1 text.now at e) }
    ensures none { IfNone result (unicode_escape (behind text.now at) ≡ None) }
{
    if let Some(step) = char_at(text, at) {
        if step.c == '{' {
            return code_point(text, step.end);
        }
    }
    fixed_digits(text, at, 4)
}

/// The value of `\0` after its `0`; none if a digit follows.
fn null_escape(text: &str, at: usize) -> Option<Escaped>
    requires { IsPlace text.now at }
    ensures some { IfSome result (λ e. IsPieceAt (escape (0x30 ∷ behind text.now at)) 1 text.now at e) }
    ensures none { IfNone result (escape (0x30 ∷ behind text.now at) ≡ None) }
{
    if let Some(step) = char_at(text, at) {
        if step.c.is_ascii_digit() {
            return None;
        }
    }
    Some(Escaped {
        end: at,
        value: Some(0),
    })
}

/// A LineContinuation (11.8.4), which has no value; CR LF counts as one line end.
fn line_continuation(text: &str, at: usize, first: char) -> Escaped
    requires place { IsPlace text.now at }
    requires ends_line { IsTrue (is_line_terminator first) }
    ensures { IsPieceAt (escape (first ∷ behind text.now at)) 1 text.now at result }
{
    let mut end = at;
    if first == '\r' {
        if let Some(step) = char_at(text, at) {
            if step.c == '\n' {
                end = step.end;
            }
        }
    }
    Escaped { end, value: None }
}

/// The code point that one character after a backslash stands for: `n` for LF; most stand for themselves.
fn escaped_character(c: char) -> u32
    ensures value { result ≡ escaped_character c }
    ensures code_point { result < 0x11_0000 }
{
    match c {
        'b' => 0x8,
        't' => 0x9,
        'n' => 0xA,
        'v' => 0xB,
        'f' => 0xC,
        'r' => 0xD,
        _ => c as u32,
    }
}

/// The escape after a backslash, with its value and its end (11.8.4); none if it is no escape.
fn escape(text: &str, at: usize) -> Option<Escaped>
    requires { IsPlace text.now at }
    ensures some { IfSome result (λ e. IsPieceAt (escape (behind text.now at)) 0 text.now at e) }
    ensures none { IfNone result (escape (behind text.now at) ≡ None) }
{
    let Some(step) = char_at(text, at) else {
        return None;
    };
    match step.c {
        'x' => fixed_digits(text, step.end, 2),
        'u' => unicode_escape(text, step.end),
        '0' => null_escape(text, step.end),
        '1'..='9' => None,
        c if is_line_terminator(c) => Some(line_continuation(text, step.end, step.c)),
        c => Some(Escaped {
            end: step.end,
            value: Some(escaped_character(c)),
        }),
    }
}

/// The value of a character that ends at this place, with its escape if it is a backslash (11.8.4).
#[inline]
pub(crate) fn character_value(text: &str, c: char, at: usize) -> Option<Escaped>
    requires { IsPlace text.now at }
    ensures some { IfSome result (λ e. IsPieceAt (piece c (behind text.now at)) 0 text.now at e) }
    ensures none { IfNone result (piece c (behind text.now at) ≡ None) }
{
    if c == '\\' {
        return escape(text, at);
    }
    Some(Escaped {
        end: at,
        value: Some(c as u32),
    })
}
