//! DecimalDigits, and Quantifier behind its `{` (22.2.1).

ghost use Rattle.std.specs.Prelude.{◌≡◌, ◌<◌, ◌≤◌, get_or, false, not, nat_le, length, None, IfSome, IfNone, IsTrue};
ghost use Rattle.std.specs.List.{list_all};
ghost use Rattle.source_text.specs.Source.{IsPlace};
ghost use Rattle.tokens.specs.Alphabet.{is_decimal_digit};
ghost use Rattle.tokens.specs.Reading.{behind};
ghost use Rattle.tokens.specs.Scanned.{IsRun};
ghost use Rattle.regular_expressions.specs.Terms.{behind_lazy, closed_count, counted, decimal_value, least, most};
ghost use Rattle.regular_expressions.specs.Scanned.{IsEnd, IsPassed, padded};

use tokens::char_at;

/// Whether the character is a decimal digit.
pub(crate) fn is_decimal_digit(c: char) -> bool
    ensures { result ≡ is_decimal_digit c }
{
    matches!(c, '0'..='9')
}

/// Where the decimal digits from this place on end.
pub fn digits_end(text: &str, at: usize) -> usize
    requires { IsPlace text.now at }
    ensures { IsRun is_decimal_digit text.now at result }
{
    let mut end = at;
    while let Some(step) = char_at(text, end) {
        if !is_decimal_digit(step.c) {
            return end;
        }
        end = step.end;
    }
    end
}

/// A digit of a number that is written with so many digits, zeros first.
fn padded_digit(digits: &[u8], width: usize, index: usize) -> u8
    requires long { length digits.now ≤ width }
    requires within { index < width }
    ensures { result ≡ get_or (padded digits.now width) index 0 }
{
    let zeros = width - digits.len();
    if index < zeros {
        return b'0';
    }
    digits[index - zeros]
}

/// Whether a number in decimal digits is no greater than another.
#[tactic(auto, using(crate::proofs::Numbers::ordered_now, crate::proofs::Numbers::ordered_end, crate::proofs::Numbers::ordered_more))]
fn is_ordered(least: &[u8], most: &[u8]) -> bool
    requires least { IsTrue (list_all is_decimal_digit least.now) }
    requires most { IsTrue (list_all is_decimal_digit most.now) }
    ensures { result ≡ nat_le (decimal_value 0 least.now) (decimal_value 0 most.now) }
{
    let width = least.len().max(most.len());
    for index in 0..width {
        let low = padded_digit(least, width, index);
        let high = padded_digit(most, width, index);
        if low != high {
            return low < high;
        }
    }
    true
}

/// A number in decimal digits; none if it is greater than this one.
#[tactic(auto, using(crate::proofs::Numbers::exceeds_now, crate::proofs::Numbers::exceeds_more, crate::proofs::Numbers::exceeds_whole))]
pub fn number_within(digits: &str, limit: usize) -> Option<usize>
    ensures some { IfSome result (λ n. n ≡ decimal_value 0 digits.now) }
    ensures within { IfSome result (λ n. n ≤ limit) }
    ensures none { IfNone result (nat_le (decimal_value 0 digits.now) limit ≡ false) }
{
    let mut value = 0usize;
    for &byte in digits.as_bytes() {
        let digit = usize::from(byte.saturating_sub(b'0'));
        if value > limit / 10 {
            return None;
        }
        if digit > limit - value * 10 {
            return None;
        }
        value = value * 10 + digit;
    }
    Some(value)
}

/// Whether a number in decimal digits is greater than this one.
pub(crate) fn exceeds(digits: &str, limit: usize) -> bool
    ensures { result ≡ not (nat_le (decimal_value 0 digits.now) limit) }
{
    number_within(digits, limit).is_none()
}

/// Behind the `?` that may end a Quantifier.
pub(crate) fn lazy_end(text: &str, at: usize) -> usize
    requires { IsPlace text.now at }
    ensures { IsEnd behind_lazy text.now at result }
{
    if let Some(step) = char_at(text, at) {
        if step.c == '?' {
            return step.end;
        }
    }
    at
}

/// The `}` of a Quantifier, and the `?` that may follow it: the place behind them.
fn closed_count(text: &str, is_good: bool, at: usize) -> Option<usize>
    requires { IsPlace text.now at }
    ensures some { IfSome result (λ e. IsPassed (closed_count is_good (behind text.now at)) text.now at e) }
    ensures none { IfNone result (closed_count is_good (behind text.now at) ≡ None) }
{
    let Some(close) = char_at(text, at) else {
        return None;
    };
    if close.c != '}' {
        return None;
    }
    if is_good {
        Some(lazy_end(text, close.end))
    } else {
        None
    }
}

/// A Quantifier behind `{n,`.
fn most(text: &str, low: &[u8], at: usize) -> Option<usize>
    requires place { IsPlace text.now at }
    requires digits { IsTrue (list_all is_decimal_digit low.now) }
    ensures some { IfSome result (λ e. IsPassed (most low.now (behind text.now at)) text.now at e) }
    ensures none { IfNone result (most low.now (behind text.now at) ≡ None) }
{
    let end = digits_end(text, at);
    if end == at {
        return closed_count(text, true, end);
    }
    let is_good = is_ordered(low, &text.as_bytes()[at..end]);
    closed_count(text, is_good, end)
}

/// A Quantifier behind its `{`: the place behind it.
pub(crate) fn counted(text: &str, at: usize) -> Option<usize>
    requires { IsPlace text.now at }
    ensures some { IfSome result (λ e. IsPassed (counted (behind text.now at)) text.now at e) }
    ensures none { IfNone result (counted (behind text.now at) ≡ None) }
{
    let end = digits_end(text, at);
    if end == at {
        return None;
    }
    least(text, &text.as_bytes()[at..end], end)
}

/// A Quantifier behind `{n`.
fn least(text: &str, low: &[u8], at: usize) -> Option<usize>
    requires place { IsPlace text.now at }
    requires digits { IsTrue (list_all is_decimal_digit low.now) }
    ensures some { IfSome result (λ e. IsPassed (least low.now (behind text.now at)) text.now at e) }
    ensures none { IfNone result (least low.now (behind text.now at) ≡ None) }
{
    if let Some(comma) = char_at(text, at) {
        if comma.c == ',' {
            return most(text, low, comma.end);
        }
    }
    closed_count(text, true, at)
}
