//! Lowest terms.

ghost use Rattle.std.specs.Prelude.{◌≡◌, ◌<◌, ◌≤◌, ◌^◌, ◌*ℤ◌, pos};
ghost use Rattle.std.specs.Int.{IsGcd};
ghost use Rattle.std.specs.Int.RustNames.{unsigned_abs};
ghost use Rattle.lab_math.specs.Divisors.{gcd};
ghost use Rattle.lab_defs_text.specs.Numbers.{signed_of};
ghost use Rattle.lab_defs_text.specs.Fractions.{lowest_num, lowest_den};

use crate::Fraction;

/// The fraction `num / den` in lowest terms; zero is 0 over 1.
pub fn reduced(num: i128, den: u128) -> Fraction
    requires some { 0 < den }
    requires den { den ≤ 2 ^ 125 }
    requires num { unsigned_abs num ≤ 2 ^ 125 }
    ensures num { result.num ≡ lowest_num num den }
    ensures den { result.den ≡ lowest_den num den }
    ensures same { result.num *ℤ pos den ≡ num *ℤ pos result.den }
    ensures lowest { IsGcd (unsigned_abs result.num) result.den 1 }
    ensures some { 0 < result.den }
    ensures size { unsigned_abs result.num ≤ unsigned_abs num }
    ensures den_size { result.den ≤ den }
{
    let size = num.unsigned_abs();
    let divisor = greatest_common_divisor(size, den);
    Fraction {
        num: with_sign(num < 0, size / divisor),
        den: den / divisor,
    }
}

// Euclid's.
pub(crate) fn greatest_common_divisor(a: u128, b: u128) -> u128
    ensures { result ≡ gcd a b }
{
    let mut x = a;
    let mut y = b;
    while y != 0 {
        let rest = x % y;
        x = y;
        y = rest;
    }
    x
}

// The number of a sign and a size.
fn with_sign(below_zero: bool, size: u128) -> i128
    requires { size ≤ 2 ^ 125 }
    ensures { result ≡ signed_of below_zero size }
{
    let value = size as i128;
    if below_zero { -value } else { value }
}
