//! Powers and least common multiples up to a limit.

ghost use Rattle.std.specs.Prelude.{◌≡◌, ◌<◌, ◌≤◌, ◌^◌, SomeIff};
ghost use Rattle.lab_math.specs.Divisors.{lcm};

use crate::lowest::greatest_common_divisor;

/// The power of a base, unless it is above the limit.
pub fn pow_within(base: u128, exp: u32, limit: u128) -> Option<u128>
    ensures { SomeIff result (base ^ exp ≤ limit) (base ^ exp) }
{
    let factors = factors(base, exp);
    let mut power = 1u128;
    for _ in 0..factors {
        if base != 0 && power > limit / base {
            return None;
        }
        power *= base;
    }
    if power <= limit { Some(power) } else { None }
}

// How many factors make the power: of 0 and of 1 a single one does.
fn factors(base: u128, exp: u32) -> u32
    ensures { base ^ result ≡ base ^ exp }
{
    if base <= 1 { exp.min(1) } else { exp }
}

/// The least common multiple of two numbers, unless it is above the limit.
pub fn lcm_within(a: u128, b: u128, limit: u128) -> Option<u128>
    requires first { 0 < a }
    requires second { 0 < b }
    ensures { SomeIff result (lcm a b ≤ limit) (lcm a b) }
{
    let part = a / greatest_common_divisor(a, b);
    if part > limit / b {
        return None;
    }
    Some(part * b)
}
