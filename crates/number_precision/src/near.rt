//! Whether digits are those of a number, rounded.

ghost use Rattle.std.specs.Prelude.{◌≡◌, ◌+◌, ◌*◌, ◌^◌, ◌<◌, ◌≤◌, length, take};
ghost use Rattle.std.specs.Char.{digit_value};
ghost use Rattle.std.specs.Str.Parse.{AllDigits, digits_value};
ghost use Rattle.number_precision.specs.Near.{is_near};

use crate::big::Big;
use crate::binary::Binary;

/// The number of a digit.
pub(crate) fn digit(character: u8) -> u64
    ensures value { digit_value character < 10 → result ≡ digit_value character }
    ensures small { result < 256 }
{
    character.wrapping_sub(b'0') as u64
}

/// Twice the number of digits that begin with no zero, less 1.
fn doubled_less_one(digits: &[u8]) -> Big
    requires digits { AllDigits 10 digits.now }
    requires few { length digits.now ≤ 100 }
    requires positive { 0 < digits_value 10 (take 1 digits.now) }
    ensures { result + 1 ≡ 2 * digits_value 10 digits.now }
{
    let mut big = Big::new(2 * digit(digits[0]) - 1);
    for index in 1..digits.len() {
        big.multiply(10, 2 * digit(digits[index]) + 9);
    }
    big
}

/// A number by a power of two and one of ten.
fn scaled(mut number: Big, twos: u64, tens: u64) -> Big
    requires number { number < 2 ^ 340 }
    requires powers { (twos ≤ 1074) × (tens ≤ 500) }
    ensures { result ≡ number * 2 ^ twos * 10 ^ tens }
{
    number.times_two_to(twos);
    number.times_ten_to(tens);
    number
}

/// Whether digits × 10 ^ `tens` / 10 ^ `tenths` are a number, rounded.
fn is_within(digits: &[u8], tens: u64, tenths: u64, binary: Binary) -> bool
    requires digits { AllDigits 10 digits.now }
    requires few { length digits.now ≤ 100 }
    requires positive { 0 < digits_value 10 (take 1 digits.now) }
    requires room { (tens ≤ 400) × (tenths ≤ 500) }
    requires binary { (binary.digits < 2 ^ 53) × (binary.twos ≤ 2045) }
    ensures { result ≡ is_near (digits_value 10 digits.now) tens tenths binary.digits binary.twos }
{
    let common = (binary.twos + 1).min(1074);
    let value = scaled(Big::new(binary.digits), binary.twos + 1 - common, tenths);
    let low = scaled(doubled_less_one(digits), 1074 - common, tens);
    if value.is_less(&low) {
        return false;
    }
    let mut high = doubled_less_one(digits);
    high.multiply(1, 2);
    value.is_less(&scaled(high, 1074 - common, tens))
}

/// The same of any powers of ten.
pub(crate) fn is_near(digits: &[u8], tens: u128, tenths: u128, binary: Binary) -> bool
    requires digits { AllDigits 10 digits.now }
    requires few { length digits.now ≤ 100 }
    requires positive { 0 < digits_value 10 (take 1 digits.now) }
    requires binary { (binary.digits < 2 ^ 53) × (binary.twos ≤ 2045) }
    ensures { result ≡ is_near (digits_value 10 digits.now) tens tenths binary.digits binary.twos }
{
    let common = tens.min(tenths);
    let (tens, tenths) = (tens - common, tenths - common);
    if tens > 400 || tenths > 500 {
        return false;
    }
    is_within(digits, tens as u64, tenths as u64, binary)
}
