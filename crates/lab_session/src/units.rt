//! The units of bounds and of expectations, and fractions over them.

ghost use Rattle.std.specs.Prelude.{◌≡◌, ◌≤◌, ◌*◌, ◌^◌, ◌==◌, if◌then◌else◌};
ghost use Rattle.std.specs.Int.RustNames.{unsigned_abs};
ghost use Rattle.lab_session.specs.Answers.{IsReduced};

use lab_unfold::Scale;
use lab_units::{Fraction, Worth, pow_within, reduced};

// The most units that there are.
const MOST: u128 = 1 << 64;

/// The most decisions of a seat, 1 or 2.
pub fn most_decisions(scale: Scale, seat: u32) -> u32
    ensures { result ≡ (if seat == 1 then scale.most1 else scale.most2) }
{
    if seat == 1 { scale.most1 } else { scale.most2 }
}

/// A grid for each of so many decisions.
pub fn power(grid: u32, most: u32) -> u128
    requires { grid ^ most ≤ 2 ^ 64 }
    ensures { result ≡ grid ^ most }
{
    match pow_within(grid as u128, most, MOST) {
        Some(power) => power,
        None => unreachable!(),
    }
}

/// A scale, times a power of a grid for each seat.
pub fn product(scale: u128, power1: u128, power2: u128) -> u128
    requires some { 1 ≤ scale }
    requires small { scale * (power1 * power2) ≤ 2 ^ 64 }
    ensures { result ≡ scale * (power1 * power2) }
{
    scale * (power1 * power2)
}

/// An amount over units, in lowest terms.
pub fn fraction(amount: Worth, units: u128) -> Fraction
    requires some { 1 ≤ units }
    requires small { units ≤ 2 ^ 64 }
    requires amount { unsigned_abs amount.0 ≤ 2 ^ 94 }
    ensures { IsReduced result amount.0 units }
{
    reduced(amount.0, units)
}
