//! Natural numbers of up to 4,736 binary digits.

ghost use Rattle.std.specs.Prelude.{◌≡◌, ℕ, ◌+◌, ◌*◌, ◌^◌, ◌<◌, ◌≤◌, length, nat_lt, slice_index};
ghost use Rattle.number_precision.specs.Limbs.{AreZeroFrom, limb_weight, value_below};

use std::marker::Model;

/// How many limbs there is room for.
const LIMBS: usize = 74;

/// A natural number: limbs of 64 binary digits, the lowest first.
#[derive(Drop)]
pub(crate) struct Big {
    limbs: [u64; LIMBS],
    len: usize,
}

impl Model for Big {
    ghost Value = { ℕ };

    ghost view = { λ b. value_below b.limbs b.len };

    ghost invariant = { λ b. (b.len ≤ 74) × AreZeroFrom b.limbs b.len };
}

/// Multiplies the number of the first limbs and adds to it there; what has no room is the result.
fn multiply_limbs(limbs: &mut [u64; LIMBS], len: usize, by: u64, plus: u64) -> u64
    requires { len ≤ 74 }
    ensures value { value_below limbs.new len + result * limb_weight len ≡ value_below limbs.old len * by + plus }
    ensures others { (i : ℕ) → len ≤ i → slice_index limbs.new i ≡ slice_index limbs.old i }
{
    let mut carry = plus;
    for i in 0..len {
        let wide = limbs[i] as u128 * by as u128 + carry as u128;
        limbs[i] = (wide & 0xffff_ffff_ffff_ffff) as u64;
        carry = (wide >> 64) as u64;
    }
    carry
}

/// Whether the number of the first limbs is less than that of others.
fn are_less(a: &[u64], b: &[u64], len: usize) -> bool
    requires { (len ≤ length a.now) × (len ≤ length b.now) }
    ensures { result ≡ nat_lt (value_below a.now len) (value_below b.now len) }
{
    let mut i = len;
    while i > 0 {
        i -= 1;
        if a[i] < b[i] {
            return true;
        }
        if a[i] > b[i] {
            return false;
        }
    }
    false
}

impl Big {
    /// A number of one limb.
    pub(crate) fn new(n: u64) -> Big
        ensures { result ≡ n }
    {
        let mut big = Big {
            limbs: [0; LIMBS],
            len: 0,
        };
        big.multiply(1, n);
        big
    }

    /// The number by another one, and one more added.
    pub(crate) fn multiply(&mut self, by: u64, plus: u64)
        requires { self.old * by + plus < limb_weight 74 }
        ensures { self.new ≡ self.old * by + plus }
    {
        let len = self.len;
        let carry = multiply_limbs(&mut self.limbs, len, by, plus);
        if carry > 0 {
            self.limbs[len] = carry;
            self.len = len + 1;
        }
    }

    /// The number by a power of ten.
    pub(crate) fn times_ten_to(&mut self, n: u64)
        requires { self.old * 10 ^ n < limb_weight 74 }
        ensures { self.new ≡ self.old * 10 ^ n }
    {
        let mut left = n;
        while left > 19 {
            self.multiply(10_000_000_000_000_000_000, 0);
            left -= 19;
        }
        self.multiply(10u64.pow(left as u32), 0);
    }

    /// The number by a power of two.
    pub(crate) fn times_two_to(&mut self, n: u64)
        requires { self.old * 2 ^ n < limb_weight 74 }
        ensures { self.new ≡ self.old * 2 ^ n }
    {
        let mut left = n;
        while left > 63 {
            self.multiply(1 << 63, 0);
            left -= 63;
        }
        self.multiply(1 << left, 0);
    }

    /// Whether the number is less than another one.
    pub(crate) fn is_less(&self, other: &Big) -> bool
        ensures { result ≡ nat_lt self.now other.now }
    {
        are_less(&self.limbs, &other.limbs, self.len.max(other.len))
    }
}
