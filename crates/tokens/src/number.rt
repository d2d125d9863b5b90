//! Numbers (ECMA-262 11.8.3, with the separators of the 12th edition), by how far one has been read.

ghost use Rattle.std.specs.Prelude.{◌≡◌, ◌||◌, IfSome, IfNone, if◌then◌else◌};
ghost use Rattle.source_text.specs.Source.{IsPlace};
ghost use Rattle.tokens.specs.Alphabet.{is_decimal_digit, is_identifier_start};
ghost use Rattle.tokens.specs.Numbers.{after_fraction, after_integer, after_zero, digits, is_complete, is_digit_of, next_numeral, no_numeral, unread};
ghost use Rattle.tokens.specs.States.{base_of, is_dead, numeral_of};
ghost use Rattle.tokens.specs.Scanned.{IsWordAt, NoWordAt};

use crate::TokenClass;
use crate::character::char_at;
use crate::name::is_start;

/// The base that the prefix `0b`, `0o` or `0x` gives the digits after it (11.8.3).
#[derive(Clone, Copy)]
enum Base {
    Binary,
    Octal,
    Hexadecimal,
}

/// The state of the automaton that reads a number (11.8.3): what the characters so far are.
#[derive(Clone, Copy)]
enum NumberState {
    Unread,
    Zero,
    Integer,
    LeadingPoint,
    Point,
    Fraction,
    ExponentMark,
    ExponentSign,
    Exponent,
    Prefix(Base),
    Digits(Base),
    IntegerSeparator,
    FractionSeparator,
    ExponentSeparator,
    DigitsSeparator(Base),
    Suffix,
    Dead,
}

/// Whether the character is a digit of this base.
#[inline]
fn is_digit_of(base: Base, c: char) -> bool
    ensures { result ≡ is_digit_of (base_of base) c }
{
    match base {
        Base::Binary => matches!(c, '0'..='1'),
        Base::Octal => matches!(c, '0'..='7'),
        Base::Hexadecimal => matches!(c, '0'..='9' | 'a'..='f' | 'A'..='F'),
    }
}

/// The state after an integer and this character, which is neither a digit nor a separator.
fn after_integer(c: char) -> NumberState
    ensures { numeral_of result ≡ after_integer c }
{
    match c {
        '.' => NumberState::Point,
        'e' | 'E' => NumberState::ExponentMark,
        'n' => NumberState::Suffix,
        _ => NumberState::Dead,
    }
}

/// The state after a leading `0` and this character.
fn after_zero(c: char) -> NumberState
    ensures { numeral_of result ≡ after_zero c }
{
    match c {
        'b' | 'B' => NumberState::Prefix(Base::Binary),
        'o' | 'O' => NumberState::Prefix(Base::Octal),
        'x' | 'X' => NumberState::Prefix(Base::Hexadecimal),
        _ => after_integer(c),
    }
}

/// The state after a point or the digits of a fraction and this character, which is no separator.
fn after_fraction(c: char) -> NumberState
    ensures { numeral_of result ≡ after_fraction c }
{
    match c {
        '0'..='9' => NumberState::Fraction,
        'e' | 'E' => NumberState::ExponentMark,
        _ => NumberState::Dead,
    }
}

/// The state after one more character.
fn next_number_state(state: NumberState, c: char) -> NumberState
    ensures { numeral_of result ≡ next_numeral (numeral_of state) c }
{
    match state {
        NumberState::Unread => first_state(c),
        NumberState::Zero => after_zero(c),
        NumberState::Integer => {
            if c.is_ascii_digit() {
                NumberState::Integer
            } else if c == '_' {
                NumberState::IntegerSeparator
            } else {
                after_integer(c)
            }
        }
        NumberState::LeadingPoint => digit_or_dead(c, NumberState::Fraction),
        NumberState::Point => after_fraction(c),
        NumberState::Fraction => {
            if c == '_' {
                NumberState::FractionSeparator
            } else {
                after_fraction(c)
            }
        }
        NumberState::ExponentMark => {
            if c == '+' || c == '-' {
                NumberState::ExponentSign
            } else {
                digit_or_dead(c, NumberState::Exponent)
            }
        }
        NumberState::ExponentSign => digit_or_dead(c, NumberState::Exponent),
        NumberState::Exponent => {
            if c == '_' {
                NumberState::ExponentSeparator
            } else {
                digit_or_dead(c, NumberState::Exponent)
            }
        }
        NumberState::Prefix(base) => after_prefix(base, c),
        NumberState::Digits(base) => {
            if is_digit_of(base, c) {
                NumberState::Digits(base)
            } else if c == 'n' {
                NumberState::Suffix
            } else if c == '_' {
                NumberState::DigitsSeparator(base)
            } else {
                NumberState::Dead
            }
        }
        NumberState::IntegerSeparator => digit_or_dead(c, NumberState::Integer),
        NumberState::FractionSeparator => digit_or_dead(c, NumberState::Fraction),
        NumberState::ExponentSeparator => digit_or_dead(c, NumberState::Exponent),
        NumberState::DigitsSeparator(base) => after_prefix(base, c),
        NumberState::Suffix => NumberState::Dead,
        NumberState::Dead => NumberState::Dead,
    }
}

/// This state if the character is a decimal digit, else `Dead`.
#[inline]
fn digit_or_dead(c: char, state: NumberState) -> NumberState
    ensures { numeral_of result ≡ (if is_decimal_digit c then numeral_of state else no_numeral) }
{
    if c.is_ascii_digit() {
        state
    } else {
        NumberState::Dead
    }
}

/// The state after a prefix, or a separator of its digits, and this character: a digit must follow.
#[inline]
fn after_prefix(base: Base, c: char) -> NumberState
    ensures { numeral_of result ≡ (if is_digit_of (base_of base) c then digits (base_of base) else no_numeral) }
{
    if is_digit_of(base, c) {
        NumberState::Digits(base)
    } else {
        NumberState::Dead
    }
}

/// The state after a number's first character.
fn first_state(c: char) -> NumberState
    ensures { numeral_of result ≡ next_numeral unread c }
{
    match c {
        '0' => NumberState::Zero,
        '1'..='9' => NumberState::Integer,
        '.' => NumberState::LeadingPoint,
        _ => NumberState::Dead,
    }
}

/// Whether a number may end in this state.
fn is_complete(state: NumberState) -> bool
    ensures { result ≡ is_complete (numeral_of state) }
{
    match state {
        NumberState::Zero
        | NumberState::Integer
        | NumberState::Point
        | NumberState::Fraction
        | NumberState::Exponent
        | NumberState::Digits(_)
        | NumberState::Suffix => true,
        NumberState::Unread
        | NumberState::LeadingPoint
        | NumberState::ExponentMark
        | NumberState::ExponentSign
        | NumberState::Prefix(_)
        | NumberState::IntegerSeparator
        | NumberState::FractionSeparator
        | NumberState::ExponentSeparator
        | NumberState::DigitsSeparator(_)
        | NumberState::Dead => false,
    }
}

/// Whether no number goes on from this state.
#[inline]
fn is_dead(state: NumberState) -> bool
    ensures { result ≡ is_dead (numeral_of state) }
{
    match state {
        NumberState::Dead => true,
        _ => false,
    }
}

/// Whether the character may not follow a number at once (11.8.3): an IdentifierStart or a digit.
#[inline]
fn is_bad_end(c: char) -> bool
    ensures { result ≡ (is_identifier_start c || is_decimal_digit c) }
{
    is_start(c) || c.is_ascii_digit()
}

/// Where the number at this place ends, in bytes; none if there is none, or an IdentifierStart or a digit follows it.
pub(crate) fn number_end(text: &str, at: usize) -> Option<usize>
    requires { IsPlace text.now at }
    ensures some { IfSome result (λ e. IsWordAt TokenClass.NumericLiteral text.now at e) }
    ensures none { IfNone result (NoWordAt TokenClass.NumericLiteral text.now at) }
{
    let mut end = at;
    let mut state = NumberState::Unread;
    while let Some(step) = char_at(text, end) {
        let next = next_number_state(state, step.c);
        if is_dead(next) {
            return if is_complete(state) & !is_bad_end(step.c) {
                Some(end)
            } else {
                None
            };
        }
        state = next;
        end = step.end;
    }
    if is_complete(state) { Some(end) } else { None }
}
