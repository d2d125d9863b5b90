//! Literals whose digits stand for binary digits.

ghost use Rattle.std.specs.Prelude.{◌≡◌, ◌≤◌};
ghost use Rattle.std.specs.Char.{digit_value};
ghost use Rattle.number_precision.specs.Precision.{binary_length, binary_zeros, bits_of, digit_length, digit_zeros, last_zeros, loses_binary};

use crate::digits::{trimmed, without_zeros};

/// How many binary digits a digit behind `0` and this letter stands for; 0 of another character.
pub(crate) fn bits_of(letter: u8) -> u128
    ensures { result ≡ bits_of letter }
{
    match letter {
        b'b' | b'B' => 1,
        b'o' | b'O' => 3,
        b'x' | b'X' => 4,
        _ => 0,
    }
}

/// The number of a digit or a letter.
fn digit(character: u8) -> u8
    ensures { result ≡ digit_value character }
{
    if character < 48 {
        36
    } else if character < 58 {
        character - 48
    } else if character < 65 {
        36
    } else if character < 91 {
        character - 55
    } else if character < 97 {
        36
    } else if character < 123 {
        character - 87
    } else {
        36
    }
}

/// How many binary digits a digit has from the first 1 on.
fn digit_length(digit: u8) -> u128
    ensures { result ≡ digit_length digit }
{
    if digit >= 8 {
        4
    } else if digit >= 4 {
        3
    } else if digit >= 2 {
        2
    } else {
        digit as u128
    }
}

/// How many zeros it has behind the last 1.
fn digit_zeros(digit: u8) -> u128
    ensures { result ≡ digit_zeros digit }
{
    if digit % 2 == 1 {
        0
    } else if digit % 4 == 2 {
        1
    } else if digit % 8 == 4 {
        2
    } else {
        3
    }
}

/// How many binary digits the digits have from the first 1 on.
fn binary_length(bits: u128, digits: &[u8]) -> u128
    requires { bits ≤ 4 }
    ensures { result ≡ binary_length bits digits.now }
{
    if digits.is_empty() {
        return 0;
    }
    digit_length(digit(digits[0])) + bits * (digits.len() - 1) as u128
}

/// How many zeros the last digit has behind the last 1.
fn last_zeros(digits: &[u8]) -> u128
    ensures value { result ≡ last_zeros digits.now }
    ensures small { result ≤ 3 }
{
    if digits.is_empty() {
        return 0;
    }
    digit_zeros(digit(digits[digits.len() - 1]))
}

/// Whether the digits are those of no number of binary64.
pub(crate) fn loses_binary(bits: u128, digits: &[u8]) -> bool
    requires { bits ≤ 4 }
    ensures { result ≡ loses_binary bits digits.now }
{
    let counted = without_zeros(digits);
    let length = binary_length(bits, counted);
    if length > 1024 {
        return true;
    }
    let kept = trimmed(counted);
    let zeros = bits * (counted.len() - kept.len()) as u128 + last_zeros(kept);
    length.saturating_sub(zeros) > 53
}
