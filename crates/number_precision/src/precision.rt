//! Whether a number literal loses digits.

ghost use Rattle.std.specs.Prelude.{◌≡◌, ◌+◌, ◌^◌, ◌<◌, ◌≤◌, ◌++◌, false, true, length, take, IfNone, IfOk, IfSome};
ghost use Rattle.std.specs.Float.{binary64};
ghost use Rattle.std.specs.Float.Numeral.{nearest_float, scan_numeral, tens_down, tens_up};
ghost use Rattle.std.specs.Str.Parse.{AllDigits, digits_value};
ghost use Rattle.number_precision.specs.Precision.{is_rounded, loses_decimal, loses_precision, significant_of};

use crate::binary::binary_of;
use crate::binary_literal::{bits_of, loses_binary};
use crate::digits::{trimmed, without_separators, without_zeros};
use crate::near::{digit, is_near};
use fast_float::Numeral;
use std::alloc::{AllocError, Global};

/// The number of an exponent's digits; none from 2 ^ 70 on.
fn exponent_of(digits: &[u8]) -> Option<u128>
    requires { AllDigits 10 digits.now }
    ensures some { IfSome result (λ n. n ≡ digits_value 10 digits.now) }
    ensures none { IfNone result (2 ^ 70 ≤ digits_value 10 digits.now) }
    ensures small { IfSome result (λ n. n < 2 ^ 74) }
{
    let mut exponent: u128 = 0;
    for index in 0..digits.len() {
        exponent = 10 * exponent + digit(digits[index]) as u128;
        if exponent >= 1 << 70 {
            return None;
        }
    }
    Some(exponent)
}

/// Whether digits of a numeral are those of its value, rounded; so many zeros behind them were dropped.
fn is_kept(numeral: &Numeral, digits: &[u8], dropped: usize) -> bool
    requires digits { AllDigits 10 digits.now }
    requires few { length digits.now ≤ 100 }
    requires positive { 0 < digits_value 10 (take 1 digits.now) }
    ensures { result ≡ is_rounded (digits_value 10 digits.now) (tens_up numeral.now + dropped) (tens_down numeral.now) (nearest_float binary64 false numeral.now) }
{
    let value: f64 = numeral.to_float(false);
    let Some(binary) = binary_of(value) else {
        return false;
    };
    let places = numeral.fraction().len() as u128;
    let Some(exponent) = exponent_of(numeral.exponent()) else {
        return false;
    };
    if numeral.is_exponent_negative() {
        is_near(digits, dropped as u128, places + exponent, binary)
    } else {
        is_near(digits, exponent + dropped as u128, places, binary)
    }
}

/// The digits of a numeral before its exponent.
fn digits_of(alloc: Global, numeral: &Numeral) -> Result<Vec<u8>, AllocError>
    ensures { IfOk result (λ v. v.items ≡ numeral.now.whole ++ numeral.now.fraction) }
{
    let whole = numeral.whole();
    let fraction = numeral.fraction();
    let mut digits = Vec::new(alloc);
    digits.extend_from_slice(whole)?;
    digits.extend_from_slice(fraction)?;
    Ok(digits)
}

/// The digits that say something: zeros at the end do only behind a point.
fn significant_of(has_point: bool, digits: &[u8]) -> &[u8]
    ensures { result.now ≡ significant_of has_point digits.now }
{
    if has_point { digits } else { trimmed(digits) }
}

/// Whether a decimal literal loses digits.
fn loses_decimal(alloc: Global, text: &[u8]) -> Result<bool, AllocError>
    ensures { IfOk result (λ b. b ≡ loses_decimal (scan_numeral text.now)) }
{
    let numeral = Numeral::scan(text);
    let digits = digits_of(alloc, &numeral)?;
    let counted = without_zeros(&digits);
    let significant = significant_of(numeral.has_point(), counted);
    if significant.len() > 100 {
        return Ok(true);
    }
    if significant.is_empty() {
        return Ok(false);
    }
    let dropped = counted.len() - significant.len();
    Ok(!is_kept(&numeral, significant, dropped))
}

/// Whether a text is an integer of at most fifteen digits, which no number loses.
fn is_short_integer(text: &[u8]) -> bool
    ensures { result ≡ true → AllDigits 10 text.now × (length text.now ≤ 15) }
{
    if text.len() > 15 {
        return false;
    }
    for index in 0..text.len() {
        if !text[index].is_ascii_digit() {
            return false;
        }
    }
    true
}

/// Whether a number literal loses digits: whether its value, rounded to a Number and written with as many digits, is another one.
///
/// # Errors
///
/// `AllocError` where memory is refused.
pub fn loses_precision(alloc: Global, text: &str) -> Result<bool, AllocError>
    ensures { IfOk result (λ b. b ≡ loses_precision text.now) }
{
    if is_short_integer(text.as_bytes()) {
        return Ok(false);
    }
    let text = without_separators(alloc, text.as_bytes())?;
    let letter = match text.get(1) {
        Some(letter) => *letter,
        None => 0,
    };
    let bits = bits_of(letter);
    if bits == 0 {
        return loses_decimal(alloc, &text);
    }
    Ok(loses_binary(bits, &text[2..]))
}
