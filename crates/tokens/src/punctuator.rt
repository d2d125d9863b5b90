//! Punctuators (ECMA-262 11.7).

ghost use Rattle.std.specs.Prelude.{◌≡◌, [], ◌∷◌, ℕ, IfSome, IfNone};
ghost use Rattle.source_text.specs.Source.{IsPlace};
ghost use Rattle.tokens.specs.Alphabet.{is_among};
ghost use Rattle.tokens.specs.PunctuatorSets.{alone, firsts, goes_on, is_pair, is_quadruple, is_single, is_triple};
ghost use Rattle.tokens.specs.Scanned.{IsWordAt, Looks, NoWordAt, Passed};

use crate::TokenClass;
use crate::ascii::is_in;
use crate::character::{CharAt, char_at};

/// The character at a place, and the place after it; U+0000 at the end of the text.
#[inline]
fn char_or_nul(text: &str, at: usize) -> CharAt
    requires { IsPlace text.now at }
    ensures { Looks text.now at result.c result.end }
{
    match char_at(text, at) {
        Some(step) => step,
        None => CharAt { c: '\0', end: at },
    }
}

/// Whether the character alone is a punctuator (11.7).
#[inline]
fn is_single(b: char) -> bool
    ensures { result ≡ is_single b }
{
    matches!(
        b,
        '{' | '}'
            | '('
            | ')'
            | '['
            | ']'
            | ';'
            | ','
            | ':'
            | '~'
            | '.'
            | '?'
            | '<'
            | '>'
            | '+'
            | '-'
            | '*'
            | '%'
            | '&'
            | '|'
            | '^'
            | '!'
            | '='
            | '/'
    )
}

/// The characters that are a punctuator whatever follows: `{` `}` `(` `)` `[` `]` `;` `,` `:` `~`.
const SINGLE_PUNCTUATORS: [u64; 2] = [0x0C00_1300_0000_0000, 0x6800_0000_2800_0000];

/// Whether the character is a punctuator whatever follows it: no longer one begins with it.
#[inline]
fn is_single_punctuator(b: char) -> bool
    ensures { result ≡ is_among b alone }
{
    if !b.is_ascii() {
        return false;
    }
    is_in(&SINGLE_PUNCTUATORS, b)
}

/// Whether the character is a digit, or the second one of some punctuator.
#[inline]
pub(crate) fn goes_on(c: char) -> bool
    ensures { result ≡ goes_on c }
{
    matches!(
        c,
        '0'..='9' | '=' | '>' | '.' | '+' | '-' | '*' | '<' | '&' | '|' | '?'
    )
}

/// Whether the character and `=` are a punctuator.
#[inline]
fn stands_before_equals(b: char) -> bool
    ensures { result ≡ is_among b (firsts 61) }
{
    matches!(
        b,
        '<' | '>' | '=' | '!' | '+' | '-' | '*' | '%' | '&' | '|' | '^' | '/'
    )
}

/// Whether the two characters are a punctuator (11.7).
#[inline]
fn is_pair(b: char, c: char) -> bool
    ensures { result ≡ is_pair b c }
{
    match c {
        '=' => stands_before_equals(b),
        '>' => (b == '=') | (b == '>'),
        '.' => b == '?',
        '+' => b == '+',
        '-' => b == '-',
        '*' => b == '*',
        '<' => b == '<',
        '&' => b == '&',
        '|' => b == '|',
        '?' => b == '?',
        _ => false,
    }
}

/// Whether the three characters are a punctuator (11.7).
#[inline]
fn is_triple(b: char, c: char, d: char) -> bool
    ensures { result ≡ is_triple b c d }
{
    match d {
        '=' => match c {
            '=' => matches!(b, '=' | '!'),
            '*' => b == '*',
            '<' => b == '<',
            '>' => b == '>',
            '&' => b == '&',
            '|' => b == '|',
            '?' => b == '?',
            _ => false,
        },
        '.' => (c == '.') & (b == '.'),
        '>' => (c == '>') & (b == '>'),
        _ => false,
    }
}

/// Whether the four characters are a punctuator: `>>>=`.
#[inline]
fn is_quadruple(b: char, c: char, d: char, e: char) -> bool
    ensures { result ≡ is_quadruple b c d e }
{
    ((b == '>') & (c == '>')) & ((d == '>') & (e == '='))
}

/// Where the punctuator that begins with this character ends, in bytes; `?.` and `.` are none before a digit (11.7).
#[inline]
pub(crate) fn punctuator_end(text: &str, b: CharAt) -> Option<usize>
    requires { IsPlace text.now b.end }
    ensures some { (at : ℕ) → Passed text.now at b.end (b.c ∷ []) → IfSome result (λ e. IsWordAt TokenClass.Punctuator text.now at e) }
    ensures none { (at : ℕ) → Passed text.now at b.end (b.c ∷ []) → IfNone result (NoWordAt TokenClass.Punctuator text.now at) }
{
    if is_single_punctuator(b.c) {
        return Some(b.end);
    }
    let c = char_or_nul(text, b.end);
    if is_single(b.c) & !goes_on(c.c) {
        return Some(b.end);
    }
    let d = char_or_nul(text, c.end);
    let e = char_or_nul(text, d.end);
    if is_quadruple(b.c, c.c, d.c, e.c) {
        return Some(e.end);
    }
    if is_triple(b.c, c.c, d.c) {
        return Some(d.end);
    }
    let chains = (b.c == '?') & (c.c == '.');
    if is_pair(b.c, c.c) & !(chains & d.c.is_ascii_digit()) {
        return Some(c.end);
    }
    if is_single(b.c) & !((b.c == '.') & c.c.is_ascii_digit()) {
        return Some(b.end);
    }
    None
}
