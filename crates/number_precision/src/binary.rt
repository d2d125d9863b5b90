//! Numbers of binary64 by their digits.

ghost use Rattle.std.specs.Prelude.{◌≡◌, ◌*◌, ◌^◌, ◌<◌, ◌≤◌, false, IfNone, IfSome};
ghost use Rattle.std.specs.Float.{float_is_finite};
ghost use Rattle.std.specs.Float.Ieee.Digits.{Equals};

/// The number `digits` × 2 ^ `twos` / 2 ^ 1074.
#[derive(Clone, Copy)]
pub(crate) struct Binary {
    pub(crate) digits: u64,
    pub(crate) twos: u64,
}

/// The digits of a number; none of one that isn't finite.
pub(crate) fn binary_of(value: f64) -> Option<Binary>
    ensures finite { IfSome result (λ b. Equals value (b.digits * 2 ^ b.twos) (2 ^ 1074)) }
    ensures small { IfSome result (λ b. (b.digits < 2 ^ 53) × (b.twos ≤ 2045)) }
    ensures none { IfNone result (float_is_finite value ≡ false) }
{
    if !value.is_finite() {
        return None;
    }
    let bits = value.to_bits();
    let field = bits % (1 << 63) / (1 << 52);
    let digits = bits % (1 << 52);
    if field == 0 {
        Some(Binary { digits, twos: 0 })
    } else {
        Some(Binary {
            digits: digits + (1 << 52),
            twos: field - 1,
        })
    }
}
